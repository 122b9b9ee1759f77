//! What a load counts.
ghost use Rattle.std.specs.Prelude.{◌≡◌, ◌+◌, ◌^◌, ◌<◌, sum_by};
ghost use Rattle.segload.specs.declared.totals.PassTotals.{PassTotals};
ghost use Rattle.segload.specs.Counting.{no_tallies, none_recycled, with_one_more, all_of};

use segindex::IndexStats;
use segtally::Tally;

/// How many commands of a pass are counted as each tally.
#[derive(Clone, Copy, Debug, PartialEq, Eq)]
pub struct Tallies {
    pub hit: u32,
    pub miss: u32,
    pub stored: u32,
    pub not_stored: u32,
    pub exists: u32,
    pub not_found: u32,
    pub deleted: u32,
    pub no_room: u32,
    pub bucket_full: u32,
    pub busy: u32,
}

impl Tallies {
    /// Nothing is counted yet.
    pub fn new() -> Tallies
        ensures { result ≡ no_tallies }
    {
        Tallies {
            hit: 0,
            miss: 0,
            stored: 0,
            not_stored: 0,
            exists: 0,
            not_found: 0,
            deleted: 0,
            no_room: 0,
            bucket_full: 0,
            busy: 0,
        }
    }

    /// Counts one command more.
    pub(crate) fn count(&mut self, tally: Tally)
        requires fits { all_of self.old + 1 < 2 ^ 32 }
        ensures counted { self.new ≡ with_one_more tally self.old }
    {
        match tally {
            Tally::Hit => self.hit += 1,
            Tally::Miss => self.miss += 1,
            Tally::Stored => self.stored += 1,
            Tally::NotStored => self.not_stored += 1,
            Tally::Exists => self.exists += 1,
            Tally::NotFound => self.not_found += 1,
            Tally::Deleted => self.deleted += 1,
            Tally::NoRoom => self.no_room += 1,
            Tally::BucketFull => self.bucket_full += 1,
            Tally::Busy => self.busy += 1,
        }
    }
}

/// What a pass recycled to make room, counted as it was done.
#[derive(Clone, Copy, Debug, PartialEq, Eq)]
pub struct Recycled {
    /// Keys that were evicted.
    pub evictions: u64,
    /// Segments that were refilled.
    pub refillings: u32,
}

impl Recycled {
    /// Nothing is counted yet.
    pub fn new() -> Recycled
        ensures { result ≡ none_recycled }
    {
        Recycled {
            evictions: 0,
            refillings: 0,
        }
    }
}

/// How many commands one pass made, and how they are counted.
#[derive(Debug, Drop, PartialEq, Eq)]
pub struct PassTotals {
    pub commands: u32,
    pub tallies: Tallies,
    pub recycled: Recycled,
    /// The stats of the table, as the pass saw it at the end of the load.
    pub table: IndexStats,
}

/// What a load counts: the totals of each pass, in the order of their numbers,
/// and how many keys the index had at its end.
#[derive(Debug, Drop, PartialEq, Eq)]
pub struct Totals {
    pub passes: Vec<PassTotals>,
    pub keys: u32,
}

impl Totals {
    /// How many commands the passes made together.
    pub fn commands(&self) -> u128
        ensures { result ≡ sum_by (λ (of : PassTotals). of.commands) self.now.passes.items }
    {
        let mut commands = 0;
        for pass in self.passes.iter() {
            commands += u128::from(pass.commands);
        }
        commands
    }
}
