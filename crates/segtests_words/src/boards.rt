//! Boards that were just created, and all words of a board at its end.
ghost use Rattle.std.specs.Prelude.{◌≡◌, ◌-◌, IfOk};
ghost use Rattle.segword.specs.Words.{IsValid};
ghost use Rattle.segbase.specs.Words.{IsNewPass, shape_of};

use segbase::{Board, Pass, Words};
use segword::Shape;
use std::alloc::Global;
use std::process::Abort;
use std::test::Fail;

/// A board of this shape, with the last of its passes.
pub fn made(alloc: Global, shape: Shape) -> Result<(Board, Pass), Fail>
    ensures { IfOk result (λ made.
        (made.0.shape ≡ shape) × IsNewPass made.0 (shape.passes - 1) made.1) }
{
    let (board, mut passes) = Board::new(alloc, shape)?;
    let Some(pass) = passes.pop() else {
        return Err("no pass".into());
    };
    Ok((board, pass))
}

/// Checks every word of the table.
pub fn check(rt: &impl Abort, rest: &Words, words: &[u64])
    requires { IsValid (shape_of rest.now) }
{
    assert_eq!(rt; rest.shape().words(), words.len() as u64);
    for (index, word) in words.iter().enumerate() {
        assert_eq!(rt; rest.at(index), *word, "at {index}");
    }
}
