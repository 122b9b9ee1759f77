//! The outcomes of a client's calls, counted.
ghost use Rattle.std.specs.Prelude.{◌≡◌};
ghost use Rattle.segclient.specs.Counting.{no_stats, with_more, counted};
ghost use Rattle.segclient.specs.PutParts.{with_effort};

use crate::effort::Effort;
use segtally::Tally;

/// How often each outcome occurred in a client's calls, and what its calls recycled and kept.
/// Each number stays at its largest once it is there.
#[derive(Clone, Copy, Debug, PartialEq, Eq)]
pub struct Stats {
    /// Gets and gets with a version that found their key.
    pub hits: u64,
    /// Gets and gets with a version that missed it.
    pub misses: u64,
    pub stored: u64,
    pub not_stored: u64,
    pub exists: u64,
    /// A cas or a delete that didn't find its key.
    pub not_found: u64,
    pub deleted: u64,
    pub no_room: u64,
    pub bucket_full: u64,
    pub busy: u64,
    /// Segments that were refilled: by puts, by `make_room`, and by queues after each write.
    pub segments_refilled: u64,
    /// Items that the same calls moved out of a segment before they evicted it.
    pub items_kept: u64,
    /// Keys that the same calls evicted.
    pub keys_evicted: u64,
}

impl Stats {
    // Nothing is counted yet.
    pub(crate) fn new() -> Stats
        ensures { result ≡ no_stats }
    {
        Stats {
            hits: 0,
            misses: 0,
            stored: 0,
            not_stored: 0,
            exists: 0,
            not_found: 0,
            deleted: 0,
            no_room: 0,
            bucket_full: 0,
            busy: 0,
            segments_refilled: 0,
            items_kept: 0,
            keys_evicted: 0,
        }
    }

    // Counts one call more.
    pub(crate) fn count(&mut self, tally: Tally)
        ensures { self.new ≡ counted tally self.old }
    {
        match tally {
            Tally::Hit => self.hits = one_more(self.hits),
            Tally::Miss => self.misses = one_more(self.misses),
            Tally::Stored => self.stored = one_more(self.stored),
            Tally::NotStored => self.not_stored = one_more(self.not_stored),
            Tally::Exists => self.exists = one_more(self.exists),
            Tally::NotFound => self.not_found = one_more(self.not_found),
            Tally::Deleted => self.deleted = one_more(self.deleted),
            Tally::NoRoom => self.no_room = one_more(self.no_room),
            Tally::BucketFull => self.bucket_full = one_more(self.bucket_full),
            Tally::Busy => self.busy = one_more(self.busy),
        }
    }

    // Counts what calls of a put came to.
    #[inline(always)]
    pub(crate) fn count_effort(&mut self, effort: Effort)
        ensures { self.new ≡ with_effort effort self.old }
    {
        self.segments_refilled = with_more(self.segments_refilled, u64::from(effort.refilled));
        self.items_kept = with_more(self.items_kept, effort.kept);
        self.keys_evicted = with_more(self.keys_evicted, effort.keys);
    }
}

// So many more, but for the largest number. A put that makes no room has nothing to add.
#[inline(always)]
fn with_more(number: u64, more: u64) -> u64
    ensures { result ≡ with_more number more }
{
    if more == 0 {
        return number;
    }
    number.saturating_add(more)
}

// One more, but for the largest number.
fn one_more(number: u64) -> u64
    ensures { result ≡ with_more number 1 }
{
    number.saturating_add(1)
}
