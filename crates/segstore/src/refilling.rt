//! A segment given out again, once nobody reads in it.
ghost use Rattle.std.specs.Prelude.{◌≡◌, ◌↔◌, Some, None};
ghost use Rattle.segmodel.specs.declared.answer.RefillAnswer.TheVariants.{NotYours, NotEvicted};
ghost use Rattle.segmodel.specs.declared.answer.SegState.TheVariants.{InUse};
ghost use Rattle.segbase.specs.Words.{current_of, IsPassOf, state_of};
ghost use Rattle.segstore.specs.Segments.{KeepsSegments};
ghost use Rattle.segstore.specs.Refilling.{IsOutcome, IsOutcomeWith};

use segbase::{Board, Pass};
use segmodel::{RefillAnswer, SegState};

/// Makes a segment of the pass's own, in which no key stands and nobody reads,
/// the one that it stores into, with no row used and with this deadline.
pub fn refill(board: &Board, pass: &mut Pass, segment: u32, deadline: u32) -> RefillAnswer
    requires pass { IsPassOf board.now pass.old }
    requires segments { KeepsSegments board.now pass.old }
    ensures outcome { IsOutcome board.now segment deadline result pass.old pass.new }
    ensures segments { KeepsSegments board.now pass.new }
    ensures not_yours { (result ≡ NotYours) ↔ (state_of pass.old segment ≡ None) }
    ensures in_use { (result ≡ NotEvicted) ↔ (state_of pass.old segment ≡ Some InUse) }
{
    let told = refill_aside(board, pass, segment, deadline);
    if told == RefillAnswer::Refilled {
        pass.set_current(Some(segment));
    }
    told
}

/// Refills a segment so, but leaves the one that the pass stores into.
pub fn refill_aside(board: &Board, pass: &mut Pass, segment: u32, deadline: u32) -> RefillAnswer
    requires pass { IsPassOf board.now pass.old }
    requires segments { KeepsSegments board.now pass.old }
    ensures outcome { IsOutcomeWith board.now segment deadline (current_of pass.old) result
        pass.old pass.new }
    ensures segments { KeepsSegments board.now pass.new }
    ensures not_yours { (result ≡ NotYours) ↔ (state_of pass.old segment ≡ None) }
    ensures in_use { (result ≡ NotEvicted) ↔ (state_of pass.old segment ≡ Some InUse) }
{
    let Some(state) = pass.state(segment) else {
        return RefillAnswer::NotYours;
    };
    if state == SegState::InUse {
        return RefillAnswer::NotEvicted;
    }
    if !board.none_reading(pass, segment, deadline) {
        return RefillAnswer::Held;
    }
    pass.set_state(segment, SegState::InUse);
    pass.set_used(segment, 0);
    RefillAnswer::Refilled
}
