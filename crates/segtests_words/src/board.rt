//! The words of a board, by the format.
ghost use Rattle.std.specs.Prelude.{IfOk};
ghost use Rattle.segword.specs.Words.{IsValid};
ghost use Rattle.segbase.specs.Words.{shape_of};

use crate::boards::{check, made};
use segbase::Words;
use segword::Shape;
use std::alloc::Global;
use std::process::Abort;
use std::test::Fail;

const SHAPE: Shape = Shape {
    buckets: 2,
    overflow: 1,
    passes: 2,
    segments_each: 1,
    rows: 2,
    first_version: 5,
};

/// The counter, two buckets, an overflow bucket, and two segments of a word and two rows.
const COUNT: usize = 1 + 16 + 8 + 2 * 17;

// Takes the bit of bucket 1, and gives it back if that is asked for.
// Returns the board's words after that.
fn bit_of_bucket_1(rt: &impl Abort, alloc: Global, is_given_back: bool) -> Result<Words, Fail>
    ensures { IfOk result (λ words. IsValid (shape_of words)) }
{
    let (board, mut pass) = made(alloc, SHAPE)?;
    assert!(rt; board.take(&mut pass, 1));
    let info = board.info_look(&mut pass, 1);
    assert_eq!(rt; (info.version, info.held), (5, true));
    if is_given_back {
        board.release(&mut pass, 1, false);
    }
    Ok(board.close(pass))
}

#[test]
fn a_bit_is_taken_and_given_back(rt: HostRuntime) -> Result<(), Fail> {
    for (is_given_back, word) in [
        (false, 0x0000_0005_0000_0001),
        (true, 0x0000_0005_0000_0000),
    ] {
        let mut words = [0; COUNT];
        words[1] = 0x0000_0005_0000_0000;
        words[9] = word;
        let after = bit_of_bucket_1(&rt, rt.alloc(), is_given_back)?;
        check(&rt, &after, &words);
    }
    Ok(())
}
