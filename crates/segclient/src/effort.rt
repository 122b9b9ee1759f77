//! What calls that make room came to, in numbers.
ghost use Rattle.std.specs.Prelude.{◌≡◌, ◌+◌, ◌<◌, ◌≤◌, ◌^◌, ℕ};
ghost use Rattle.segclient.specs.Clearing.{came_to_step, evicts_row, keeps_into};
ghost use Rattle.segclient.specs.PutCalls.{came_to, evicted_keys, keeps, kept_items};
ghost use Rattle.segclient.specs.PutCalls.{takes_out};

use segindex::{EvictRowAnswer, KeepRowAnswer};

// What calls of a put came to: how many segments were refilled, how many items kept,
// and how many keys evicted.
#[derive(Clone, Copy)]
pub(crate) struct Effort {
    pub(crate) refilled: u32,
    pub(crate) kept: u64,
    pub(crate) keys: u64,
}

impl Effort {
    pub(crate) fn none() -> Effort
        ensures { result ≡ record { refilled = 0; kept = 0; keys = 0 } }
    {
        Effort {
            refilled: 0,
            kept: 0,
            keys: 0,
        }
    }

    // No segment was refilled, and no item kept.
    pub(crate) fn evicting(keys: u64) -> Effort
        ensures { result ≡ record { refilled = 0; kept = 0; keys = keys } }
    {
        Effort {
            refilled: 0,
            kept: 0,
            keys,
        }
    }

    pub(crate) fn plus(self, more: Effort) -> Effort
        requires refilled { self.refilled + more.refilled < 2 ^ 32 }
        requires kept { self.kept + more.kept < 2 ^ 64 }
        requires keys { self.keys + more.keys < 2 ^ 64 }
        ensures { result ≡ record {
          refilled = self.refilled + more.refilled;
          kept = self.kept + more.kept;
          keys = self.keys + more.keys;
        } }
    {
        Effort {
            refilled: self.refilled + more.refilled,
            kept: self.kept + more.kept,
            keys: self.keys + more.keys,
        }
    }
}

// How many items a keep of one row moved that has this answer.
pub(crate) fn moved_by(answer: KeepRowAnswer) -> u32
    ensures few { result ≤ 1 }
    ensures value { (segment row cutoff : ℕ)
        → result ≡ came_to kept_items (keeps segment row cutoff answer) }
    ensures value_into { (segment row by into : ℕ)
        → result ≡ came_to_step kept_items (keeps_into segment row by into answer) }
{
    match answer {
        KeepRowAnswer::Moved => 1,
        KeepRowAnswer::Left
        | KeepRowAnswer::NoRoom
        | KeepRowAnswer::Busy
        | KeepRowAnswer::NotYours
        | KeepRowAnswer::NotUsed => 0,
    }
}

// How many keys an evict of one row took out that has this answer.
pub(crate) fn row_evicted_by(answer: EvictRowAnswer) -> u32
    ensures few { result ≤ 1 }
    ensures value { (segment row : ℕ)
        → result ≡ came_to_step evicted_keys (evicts_row segment row answer) }
    ensures value_alone { (segment row : ℕ)
        → result ≡ came_to evicted_keys (takes_out segment row answer) }
{
    match answer {
        EvictRowAnswer::Evicted => 1,
        EvictRowAnswer::Left
        | EvictRowAnswer::Busy
        | EvictRowAnswer::NotYours
        | EvictRowAnswer::NotUsed => 0,
    }
}
