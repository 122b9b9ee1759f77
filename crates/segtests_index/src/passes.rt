//! Indexes with their passes, as the tests need them.
ghost use Rattle.std.specs.Prelude.{All, IfSome};
ghost use Rattle.segindex.specs.Words.{board_of};
ghost use Rattle.segstore.specs.Words.{IsQuiet};

use crate::calls::refill;
use crate::same::check_that;
use segindex::{Index, Pass};
use segmodel::RefillAnswer;
use segword::Shape;
use std::alloc::AllocGlobal;
use std::process::Abort;

/// One bucket, and two passes with a segment of four rows each.
pub const SHAPE: Shape = Shape {
    buckets: 1,
    overflow: 0,
    passes: 2,
    segments_each: 1,
    rows: 4,
    first_version: 0,
};

// Takes the last of passes that are all quiet.
fn pop(index: &Index, passes: &mut Vec<Pass>) -> Option<Pass>
    requires { All (IsQuiet (board_of index.now)) passes.old.items }
    ensures last { IfSome result (IsQuiet (board_of index.now)) }
    ensures others { All (IsQuiet (board_of index.now)) passes.new.items }
{
    passes.pop()
}

/// An index of this shape, which has two passes, and the passes.
pub fn two_passes<R: AllocGlobal + Abort>(rt: &R, shape: Shape) -> (Index, Pass, Pass)
    ensures { IsQuiet (board_of result.0) result.1 × IsQuiet (board_of result.0) result.2 }
{
    let (index, mut passes) = Index::new(rt.alloc(), shape).expect(rt, "an index");
    let second = pop(&index, &mut passes).expect(rt, "a second pass");
    let first = pop(&index, &mut passes).expect(rt, "a first pass");
    (index, first, second)
}

/// The same, with a segment of each pass made current. Each pass has one segment.
pub fn two_that_fill<R: AllocGlobal + Abort>(rt: &R, shape: Shape) -> (Index, Pass, Pass)
    ensures { IsQuiet (board_of result.0) result.1 × IsQuiet (board_of result.0) result.2 }
{
    let (index, mut first, mut second) = two_passes(rt, shape);
    let told = refill(&index, &mut first, 0, u32::MAX);
    let other = refill(&index, &mut second, 1, u32::MAX);
    check_that(
        rt,
        told == RefillAnswer::Refilled && other == RefillAnswer::Refilled,
    );
    (index, first, second)
}

/// An index of this shape, which has three passes, and the passes.
pub fn three_passes<R: AllocGlobal + Abort>(rt: &R, shape: Shape) -> (Index, Pass, Pass, Pass)
    ensures { IsQuiet (board_of result.0) result.1 × IsQuiet (board_of result.0) result.2
        × IsQuiet (board_of result.0) result.3 }
{
    let (index, mut passes) = Index::new(rt.alloc(), shape).expect(rt, "an index");
    let third = pop(&index, &mut passes).expect(rt, "a third pass");
    let second = pop(&index, &mut passes).expect(rt, "a second pass");
    let first = pop(&index, &mut passes).expect(rt, "a first pass");
    (index, first, second, third)
}

/// An index of this shape, which has four passes, and the passes.
pub fn four_passes<R: AllocGlobal + Abort>(rt: &R, shape: Shape) -> (Index, Pass, Pass, Pass, Pass)
    ensures { IsQuiet (board_of result.0) result.1 × IsQuiet (board_of result.0) result.2
        × IsQuiet (board_of result.0) result.3 × IsQuiet (board_of result.0) result.4 }
{
    let (index, mut passes) = Index::new(rt.alloc(), shape).expect(rt, "an index");
    let fourth = pop(&index, &mut passes).expect(rt, "a fourth pass");
    let third = pop(&index, &mut passes).expect(rt, "a third pass");
    let second = pop(&index, &mut passes).expect(rt, "a second pass");
    let first = pop(&index, &mut passes).expect(rt, "a first pass");
    (index, first, second, third, fourth)
}
