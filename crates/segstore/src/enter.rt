//! Coming into a segment, so that it isn't filled again, and leaving it.
ghost use Rattle.std.specs.Prelude.{◌≡◌, ◌<◌};
ghost use Rattle.segmodel.specs.Words.{after};
ghost use Rattle.segcore.specs.Words.{enter, inside, IsSegment, May};
ghost use Rattle.segbase.specs.Words.{IsPassOf, number, seen, trace};
ghost use Rattle.segstore.specs.Reading.{Enters, LeavesSegment};

use segbase::{Board, Pass};

/// Comes into a segment in which an item was linked, and returns the segment's deadline.
/// A pass is in a segment at most twice.
pub fn enter_segment(board: &Board, pass: &mut Pass, segment: u32) -> u32
    requires pass { IsPassOf board.now pass.old }
    requires may { May board.now.shape (trace pass.old) (number pass.old) (enter segment) }
    ensures enters { Enters board.now pass.old pass.new segment }
    ensures deadline { result ≡ (after board.now.shape (seen pass.new)).deadline segment }
{
    board.enter(pass, segment)
}

/// Leaves a segment that the pass is in.
pub fn leave_segment(board: &Board, pass: &mut Pass, segment: u32)
    requires pass { IsPassOf board.now pass.old }
    requires segment { IsSegment board.now.shape segment }
    requires inside { 0 < inside (trace pass.old) (number pass.old) segment }
    ensures { LeavesSegment board.now pass.old pass.new segment }
{
    board.leave(pass, segment);
}
