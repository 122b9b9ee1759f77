//! Times to live: which ones the commands of a trace have, and how much of them puts are given.
ghost use Rattle.std.specs.Prelude.{◌≡◌};
ghost use Rattle.segreplay.specs.Lives.{share_given};

use crate::player::Assignment;
use arrayvec::ArrayVec;
use segtraces::{Operation, TraceCommand};

/// How many times to live are told apart, at most.
const MOST: usize = 64;

/// The different times to live of commands, in the order in which they came, up to `MOST`.
#[derive(Drop)]
pub(crate) struct Lives {
    seen: ArrayVec<u32, MOST>,
}

impl Lives {
    ghost use Rattle.std.specs.Prelude.{◌≡◌, [], length};
    ghost use Rattle.segreplay.specs.Lives.{lives_after, with_life, with_life_of};

    /// None was seen yet.
    pub(crate) fn new() -> Lives
        ensures { result.seen.items ≡ [] }
    {
        Lives {
            seen: ArrayVec::new(),
        }
    }

    /// How many there are.
    pub(crate) fn count(&self) -> usize
        ensures { result ≡ length self.now.seen.items }
    {
        self.seen.len()
    }

    /// Adds those of these commands.
    pub(crate) fn add_all(&mut self, turns: &[Assignment])
        ensures { self.new.seen.items ≡ lives_after self.old.seen.items turns.now }
    {
        for turn in turns {
            self.add_of(&turn.request);
        }
    }

    // Adds that of a command. A delete puts nothing.
    fn add_of(&mut self, request: &TraceCommand)
        ensures { self.new.seen.items
            ≡ with_life_of request.now.verb request.now.time_to_live self.old.seen.items }
    {
        match request.verb {
            Operation::Get | Operation::Set => self.add(request.time_to_live),
            Operation::Delete => {}
        }
    }

    // Adds one, if it isn't there.
    fn add(&mut self, life: u32)
        ensures { self.new.seen.items ≡ with_life life self.old.seen.items }
    {
        if self.seen.is_full() || self.seen.as_slice().contains(&life) {
            return;
        }
        self.seen.push(life);
    }
}

/// The share of its time to live that this deadline gives to what is put at this moment,
/// in hundredths of a hundredth. More than the whole counts as the whole.
pub(crate) fn share_given(moment: u32, time_to_live: u32, deadline: u32) -> u64
    ensures { result ≡ share_given moment time_to_live deadline }
{
    let asked = time_to_live.min(u32::MAX - moment);
    let given = deadline.saturating_sub(moment).min(asked);
    u64::from(given) * 10_000 / u64::from(asked.max(1))
}
