//! Two threads read one key: each counts itself in and out of the key's segment,
//! and raises the frequency of the key's item.
ghost use Rattle.segstore.specs.Words.{IsQuiet};

use crate::boards::check;
use crate::calls::{get, pop, quiet_board, refill, set};
use crate::same::same;
use segbase::{Board, Pass};
use segmodel::{GetAnswer, RefillAnswer, WriteAnswer};
use segword::{Key, MOST_SPAN, Shape, Value};
use std::test::Fail;
use std::thread::join;

/// Each get returns a value, so it is fewer times where a value may be long.
const TIMES: u32 = 100_000 / MOST_SPAN as u32;

/// No hit counts from the frequency 16 on, which doesn't divide it.
const DRAW: u32 = 1;

/// One bucket, and a segment of one row for each of two passes.
const SHAPE: Shape = Shape {
    buckets: 1,
    overflow: 0,
    passes: 2,
    segments_each: 1,
    rows: 1,
    first_version: 0,
};

// Reads the key so many times. Returns the pass, and how often the value 1 was found.
fn read_often(board: &Board, mut pass: Pass, key: &Key) -> (Pass, u32)
    requires { IsQuiet board.now pass }
    ensures { IsQuiet board.now result.0 }
{
    let mut found: u32 = 0;
    for _ in 0..TIMES {
        if let GetAnswer::Found(value) = get(board, &mut pass, key, DRAW) {
            if value.as_bytes() == b"1".as_slice() {
                found = found.saturating_add(1);
            }
        }
    }
    (pass, found)
}

#[test]
fn two_threads_read_one_key(rt: HostRuntime) -> Result<(), Fail> {
    let (board, mut passes) = quiet_board(rt.alloc(), SHAPE)?;
    let second = pop(&board, &mut passes).expect(&rt, "a pass");
    let mut first = pop(&board, &mut passes).expect(&rt, "a pass");
    let key = Key::new(b"a").expect(&rt, "a key");
    let value = Value::new(b"1").expect(&rt, "a value");
    same(
        &rt,
        &refill(&board, &mut first, 0, u32::MAX),
        &RefillAnswer::Refilled,
    );
    same(
        &rt,
        &set(&board, &mut first, &key, &value),
        &WriteAnswer::Stored,
    );
    let ((first, found), (_second, also_found)) = join(
        &rt,
        || -> (Pass, u32)
            requires { IsQuiet board first }
            ensures { IsQuiet board result.0 }
        { read_often(&board, first, &key) },
        || -> (Pass, u32)
            requires { IsQuiet board second }
            ensures { IsQuiet board result.0 }
        { read_often(&board, second, &key) },
    );
    same(&rt, &(found, also_found), &(TIMES, TIMES));
    // The counter, a bucket, and two segments of a word and a row.
    let mut words = [0; 1 + 8 + 2 * 9];
    words[1] = 0x0000_0001_0000_0000;
    words[2] = 0xaf61_0000_0000_0000;
    words[9] = 0xffff_ffff_0000_0000;
    words[10] = 0x0000_0000_0000_0101;
    words[11] = 0x0000_0000_0000_0061;
    words[14] = 0x0000_0000_0000_0031;
    check(&rt, &board.close(first), &words);
    Ok(())
}
