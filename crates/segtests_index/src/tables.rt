//! A test of one thread is a script: calls of two passes, and the answers that are wanted.
ghost use Rattle.segindex.specs.Words.{board_of};
ghost use Rattle.segstore.specs.Words.{IsQuiet};

use crate::passes::two_passes;
use crate::rows::first_wrong_line;
use crate::same::same;
use segindex::{Index, Pass};
use segword::Shape;
use std::alloc::AllocGlobal;
use std::process::Abort;

/// An index of this shape with its two passes, once each line had the answer that it wants.
pub fn served<R: AllocGlobal + Abort>(rt: &R, shape: Shape, script: &str) -> (Index, Pass, Pass)
    ensures { IsQuiet (board_of result.0) result.1 × IsQuiet (board_of result.0) result.2 }
{
    let (index, mut first, mut second) = two_passes(rt, shape);
    answers(rt, &index, &mut first, &mut second, script);
    (index, first, second)
}

/// Checks that each line has the answer that it wants.
pub fn answers(rt: &impl Abort, index: &Index, first: &mut Pass, second: &mut Pass, script: &str)
    requires { IsQuiet (board_of index.now) first.old × IsQuiet (board_of index.now) second.old }
    ensures { IsQuiet (board_of index.now) first.new × IsQuiet (board_of index.now) second.new }
{
    let wrong = first_wrong_line(index, first, second, script);
    same(rt, &wrong, &None);
}
