//! A caller's token for the steps, with the plain facts that only its owner changes.
ghost use Rattle.std.specs.Prelude.{◌≡◌, IsSome, option_copied};

use crate::law::Sight;
use atomic_table::Seat;
use segmodel::SegState;
use std::boxed::BoxedSlice;

// A segment of the pass, as its owner knows it. It can't be copied.
#[derive(Drop)]
pub(crate) struct OwnSegment {
    pub(crate) state: SegState,
    pub(crate) used: u32,
    pub(crate) deadline: u32,
}

// What a pass knows by itself.
#[derive(Drop)]
pub(crate) struct PlainPart {
    pub(crate) number: u32,
    // The number of the pass's first segment.
    pub(crate) first: u32,
    // How many rows each of its segments has.
    pub(crate) rows: u32,
    // Its segments. No copy of this list and no allocator can be had from it, so no call of a pass
    // asks for memory.
    pub(crate) segments: BoxedSlice<OwnSegment>,
    pub(crate) current: Option<u32>,
    pub(crate) locked: Option<u32>,
    pub(crate) is_holding: bool,
}

/// A caller's token for the steps of a board. If it is dropped, its entries, its segments and the
/// bits that it set stay as they stand.
#[derive(Drop)]
pub struct Pass {
    pub(crate) seat: Seat<(), Sight>,
    pub(crate) plain: PlainPart,
}

impl Pass {
    ghost use Rattle.segbase.specs.PlainPart.{number_of, current_of, state_of, used_of, deadline_of};
    ghost use Rattle.segbase.specs.PlainPart.{locked_of, is_holding_of, own_segment, rows_of};
    ghost use Rattle.segbase.specs.PlainPart.{with_current, with_state, with_used, with_deadline};
    ghost use Rattle.segbase.specs.PlainPart.{with_locked, with_holding};

    /// The pass's number, below the number of passes.
    pub fn number(&self) -> u32
        ensures { result ≡ number_of self.now }
    {
        self.plain.number
    }

    /// The segment that the pass stores into.
    pub fn current(&self) -> Option<u32>
        ensures { result ≡ current_of self.now }
    {
        self.plain.current
    }

    /// The state of a segment of the pass's own; `None` for any other.
    pub fn state(&self, segment: u32) -> Option<SegState>
        ensures { result ≡ state_of self.now segment }
    {
        Some(self.own(segment)?.state)
    }

    /// How many rows of a segment of the pass's own are used; `None` for any other.
    pub fn used(&self, segment: u32) -> Option<u32>
        ensures { result ≡ used_of self.now segment }
    {
        Some(self.own(segment)?.used)
    }

    /// The deadline of a segment of the pass's own, which the last refilling set, or 0;
    /// `None` for any other.
    pub fn deadline(&self, segment: u32) -> Option<u32>
        ensures { result ≡ deadline_of self.now segment }
    {
        Some(self.own(segment)?.deadline)
    }

    /// How many rows each segment of the pass has.
    pub fn rows(&self) -> u32
        ensures { result ≡ rows_of self.now }
    {
        self.plain.rows
    }

    /// The bucket that the pass has locked.
    pub fn locked(&self) -> Option<u32>
        ensures { result ≡ locked_of self.now }
    {
        self.plain.locked
    }

    /// Whether the pass holds an item.
    pub fn is_holding(&self) -> bool
        ensures { result ≡ is_holding_of self.now }
    {
        self.plain.is_holding
    }

    /// Sets the segment that the pass stores into.
    pub fn set_current(&mut self, current: Option<u32>)
        ensures { self.new ≡ record self.old { plain = with_current current self.old.plain } }
    {
        self.plain.current = current;
    }

    /// Sets the state of a segment of the pass's own.
    pub fn set_state(&mut self, segment: u32, state: SegState)
        requires own { IsSome (state_of self.old segment) }
        ensures { self.new ≡ record self.old { plain = with_state segment state self.old.plain } }
    {
        self.plain.segments[(segment - self.plain.first) as usize].state = state;
    }

    /// Sets how many rows of a segment of the pass's own are used.
    pub fn set_used(&mut self, segment: u32, used: u32)
        requires own { IsSome (used_of self.old segment) }
        ensures { self.new ≡ record self.old { plain = with_used segment used self.old.plain } }
    {
        self.plain.segments[(segment - self.plain.first) as usize].used = used;
    }

    // Sets the deadline of a segment of the pass's own.
    pub(crate) fn set_deadline(&mut self, segment: u32, deadline: u32)
        requires own { IsSome (deadline_of self.old segment) }
        ensures { self.new
            ≡ record self.old { plain = with_deadline segment deadline self.old.plain } }
    {
        self.plain.segments[(segment - self.plain.first) as usize].deadline = deadline;
    }

    /// Sets the bucket that the pass has locked.
    pub fn set_locked(&mut self, locked: Option<u32>)
        ensures { self.new ≡ record self.old { plain = with_locked locked self.old.plain } }
    {
        self.plain.locked = locked;
    }

    /// Sets whether the pass holds an item.
    pub fn set_holding(&mut self, holding: bool)
        ensures { self.new ≡ record self.old { plain = with_holding holding self.old.plain } }
    {
        self.plain.is_holding = holding;
    }

    // What the pass knows of a segment of its own; `None` for any other.
    fn own(&self, segment: u32) -> Option<&OwnSegment>
        ensures { option_copied result ≡ own_segment self.now.plain segment }
    {
        if segment < self.plain.first {
            return None;
        }
        self.plain
            .segments
            .get((segment - self.plain.first) as usize)
    }
}
