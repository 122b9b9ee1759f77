//! What a replay counts.
ghost use Rattle.std.specs.Prelude.{◌≡◌};
ghost use Rattle.segclient.specs.Counting.{with_more};
ghost use Rattle.segreplay.specs.Counting.{counted, delete_counted, effort_counted, given_counted};
ghost use Rattle.segreplay.specs.Counting.{is_stored, no_counts, put_counted, together};

use segclient::PutAnswer;
use segindex::DeleteAnswer;

/// What a command came to.
#[derive(Clone, Copy, Debug, PartialEq, Eq)]
pub enum CommandResult {
    /// A get found its key.
    Hit,
    /// A get missed its key, and the put of it had this answer.
    Miss(PutAnswer),
    /// A get was Busy.
    GetBusy,
    Set(PutAnswer),
    Delete(DeleteAnswer),
}

impl CommandResult {
    /// Whether the command stored its key.
    pub fn is_stored(self) -> bool
        ensures { result ≡ is_stored self }
    {
        match self {
            CommandResult::Miss(PutAnswer::Stored) | CommandResult::Set(PutAnswer::Stored) => true,
            CommandResult::Miss(_)
            | CommandResult::Set(_)
            | CommandResult::Hit
            | CommandResult::GetBusy
            | CommandResult::Delete(_) => false,
        }
    }
}

/// How many commands a cache was asked, and what they came to.
/// Each number stays at its largest once it is there.
#[derive(Clone, Copy, Debug, PartialEq, Eq)]
pub struct Counts {
    pub gets: u64,
    /// Gets that found their key.
    pub hits: u64,
    pub sets: u64,
    pub deletes: u64,
    /// Keys that puts evicted.
    pub evicted: u64,
    /// Items that puts moved to keep them.
    pub kept: u64,
    /// Puts that found no room.
    pub refused: u64,
    /// Commands in which a call was Busy.
    pub busy: u64,
    /// Puts that were stored.
    pub stored: u64,
    /// The shares of their times to live that these were given, all together.
    /// Each is in hundredths of a hundredth.
    pub given: u64,
    /// Items that stood in the cache at the end.
    pub items: u64,
}

// One more, but for the largest number.
fn one_more(number: u64) -> u64
    ensures { result ≡ with_more number 1 }
{
    number.saturating_add(1)
}

impl Counts {
    /// Nothing is counted yet.
    pub fn new() -> Counts
        ensures { result ≡ no_counts }
    {
        Counts {
            gets: 0,
            hits: 0,
            sets: 0,
            deletes: 0,
            evicted: 0,
            kept: 0,
            refused: 0,
            busy: 0,
            stored: 0,
            given: 0,
            items: 0,
        }
    }

    /// Counts a command that came to this.
    pub fn count(&mut self, outcome: CommandResult)
        ensures { self.new ≡ counted outcome self.old }
    {
        match outcome {
            CommandResult::Hit => {
                self.gets = one_more(self.gets);
                self.hits = one_more(self.hits);
            }
            CommandResult::Miss(answer) => {
                self.gets = one_more(self.gets);
                self.count_put(answer);
            }
            CommandResult::GetBusy => {
                self.gets = one_more(self.gets);
                self.busy = one_more(self.busy);
            }
            CommandResult::Set(answer) => {
                self.sets = one_more(self.sets);
                self.count_put(answer);
            }
            CommandResult::Delete(answer) => {
                self.deletes = one_more(self.deletes);
                self.count_delete(answer);
            }
        }
    }

    fn count_put(&mut self, answer: PutAnswer)
        ensures { self.new ≡ put_counted answer self.old }
    {
        match answer {
            PutAnswer::Stored => {}
            PutAnswer::NoRoom | PutAnswer::BucketFull => self.refused = one_more(self.refused),
            PutAnswer::Busy => self.busy = one_more(self.busy),
        }
    }

    fn count_delete(&mut self, answer: DeleteAnswer)
        ensures { self.new ≡ delete_counted answer self.old }
    {
        match answer {
            DeleteAnswer::Deleted | DeleteAnswer::NotFound => {}
            DeleteAnswer::Busy => self.busy = one_more(self.busy),
        }
    }

    /// Counts so many evicted keys and kept items more.
    pub fn count_effort(&mut self, evicted: u64, kept: u64)
        ensures { self.new ≡ effort_counted evicted kept self.old }
    {
        self.evicted = self.evicted.saturating_add(evicted);
        self.kept = self.kept.saturating_add(kept);
    }

    /// Counts a command that came to this, if it stored its key:
    /// which share of its time to live it was given.
    pub fn count_given(&mut self, outcome: CommandResult, given: u64)
        ensures { self.new ≡ given_counted outcome given self.old }
    {
        if outcome.is_stored() {
            self.stored = one_more(self.stored);
            self.given = self.given.saturating_add(given);
        }
    }

    /// The counts of two clients together.
    pub fn plus(self, more: Counts) -> Counts
        ensures { result ≡ together self more }
    {
        Counts {
            gets: self.gets.saturating_add(more.gets),
            hits: self.hits.saturating_add(more.hits),
            sets: self.sets.saturating_add(more.sets),
            deletes: self.deletes.saturating_add(more.deletes),
            evicted: self.evicted.saturating_add(more.evicted),
            kept: self.kept.saturating_add(more.kept),
            refused: self.refused.saturating_add(more.refused),
            busy: self.busy.saturating_add(more.busy),
            stored: self.stored.saturating_add(more.stored),
            given: self.given.saturating_add(more.given),
            items: self.items.saturating_add(more.items),
        }
    }
}
