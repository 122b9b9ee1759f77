//! The words of the table after each call, written out by the format.
ghost use Rattle.segstore.specs.Words.{IsQuiet};

use crate::boards::check;
use crate::calls::{delete, evict, get, keep, pop, quiet_board, refill, set};
use crate::same::same;
use segbase::{Board, Pass};
use segmodel::{DeleteAnswer, EvictAnswer, GetAnswer, KeepAnswer, RefillAnswer, WriteAnswer};
use segword::{Key, Shape, Value};
use std::process::Abort;
use std::test::Fail;

/// A bucket, an overflow bucket, and two segments of ten rows.
const SHAPE: Shape = Shape {
    buckets: 1,
    overflow: 1,
    passes: 1,
    segments_each: 2,
    rows: 10,
    first_version: 5,
};

/// The counter, a bucket, an overflow bucket, and two segments of a word and ten rows.
const COUNT: usize = 1 + 8 + 8 + 2 * 81;

/// How many calls there are.
const CALLS: u32 = 19;

/// The longest key, whose hash is cfc57122610faddd, and the longest value.
const LONGEST_KEY: &[u8] = b"abcdefghijklmnopqrstuvwx";

const LONGEST_VALUE: &[u8] = b"0123456789abcdef0123456789abcdef";

/// The word at the start that isn't 0, and the words that each call changes:
/// the call, the place of the first, and the words from there on.
const CHANGES: [(u32, usize, &[u64]); 40] = [
    (0, 1, &[0x0000_0005_0000_0000]),
    // Segment 0 gets a deadline.
    (1, 17, &[0x0000_0009_0000_0000]),
    // The pair `ab` and `xyz` is stored in row 0 of segment 0, and named by word 1.
    (2, 18, &[0x302, 0x6261, 0, 0, 0x7a_7978]),
    (2, 1, &[0x0000_0006_0000_0000, 0x0890_1000_0000_0000]),
    // A hit raises its frequency.
    (3, 2, &[0x0890_2000_0000_0000]),
    // The keys `a` to `f` fill the bucket. The empty value has no word.
    (4, 26, &[0x101, 0x61, 0, 0, 0x31]),
    (4, 3, &[0xaf60_1000_0000_0001]),
    (4, 1, &[0x0000_0007_0000_0000]),
    (5, 34, &[0x101, 0x62, 0, 0, 0x32]),
    (5, 4, &[0xaf60_1000_0000_0002]),
    (5, 1, &[0x0000_0008_0000_0000]),
    (6, 42, &[0x101, 0x63, 0, 0, 0x33]),
    (6, 5, &[0xaf60_1000_0000_0003]),
    (6, 1, &[0x0000_0009_0000_0000]),
    (7, 50, &[0x101, 0x64, 0, 0, 0x34]),
    (7, 6, &[0xaf60_1000_0000_0004]),
    (7, 1, &[0x0000_000a_0000_0000]),
    (8, 58, &[0x001, 0x65]),
    (8, 7, &[0xaf60_1000_0000_0005]),
    (8, 1, &[0x0000_000b_0000_0000]),
    (9, 66, &[0x101, 0x66, 0, 0, 0x36]),
    (9, 8, &[0xaf60_1000_0000_0006]),
    (9, 1, &[0x0000_000c_0000_0000]),
    // The longest pair: the overflow bucket joins the chain, the item of `f` moves on into its word 1,
    // and the new item gets word 2.
    (
        10,
        74,
        &[0x2018, 0x6867_6665_6463_6261, 0x706f_6e6d_6c6b_6a69],
    ),
    (10, 77, &[0x7877_7675_7473_7271, 0x3736_3534_3332_3130]),
    (10, 79, &[0x6665_6463_6261_3938, 0x3736_3534_3332_3130]),
    (10, 81, &[0x6665_6463_6261_3938]),
    (10, 0, &[1, 0x0000_000d_0000_0000]),
    (10, 8, &[1, 0, 0xaf60_1000_0000_0006, 0xcfc0_1000_0000_0007]),
    // Segment 1 gets the same deadline. The item of `ab` is moved there, with its frequency.
    (11, 98, &[0x0000_0009_0000_0000]),
    (12, 99, &[0x302, 0x6261, 0, 0, 0x7a_7978]),
    (12, 2, &[0x0890_2000_0010_0000]),
    // The key `ab` is stored again: its item has frequency 1.
    (13, 107, &[0x202, 0x6261, 0, 0, 0x7978]),
    (13, 1, &[0x0000_000e_0000_0000, 0x0890_1000_0010_0001]),
    // The key `a` is deleted, and the other keys of segment 0 are evicted. Their rows stay.
    (14, 1, &[0x0000_000f_0000_0000, 0x0890_1000_0010_0001, 0]),
    (15, 4, &[0, 0, 0, 0, 1, 0, 0, 0]),
    // Segment 0 gets the last deadline.
    (16, 17, &[0xffff_ffff_0000_0000]),
    // Three hits raise the frequency of `ab` from 1 to 4.
    (17, 2, &[0x0890_2000_0010_0001]),
    (18, 2, &[0x0890_3000_0010_0001]),
    (19, 2, &[0x0890_4000_0010_0001]),
];

// Stores a pair.
fn store(rt: &impl Abort, board: &Board, pass: &mut Pass, key: &[u8], value: &[u8])
    requires { IsQuiet board.now pass.old }
    ensures { IsQuiet board.now pass.new }
{
    let key = Key::new(key).expect(rt, "a key");
    let value = Value::new(value).expect(rt, "a value");
    same(rt, &set(board, pass, &key, &value), &WriteAnswer::Stored);
}

// Reads this value under the key.
fn read(rt: &impl Abort, board: &Board, pass: &mut Pass, key: &[u8], value: &[u8])
    requires { IsQuiet board.now pass.old }
    ensures { IsQuiet board.now pass.new }
{
    let key = Key::new(key).expect(rt, "a key");
    let value = Value::new(value).expect(rt, "a value");
    same(rt, &get(board, pass, &key, 0), &GetAnswer::Found(value));
}

// Deletes the key `a`.
fn take_out(rt: &impl Abort, board: &Board, pass: &mut Pass)
    requires { IsQuiet board.now pass.old }
    ensures { IsQuiet board.now pass.new }
{
    let key = Key::new(b"a").expect(rt, "a key");
    same(rt, &delete(board, pass, &key), &DeleteAnswer::Deleted);
}

// Makes the call of this number.
fn make(rt: &impl Abort, board: &Board, pass: &mut Pass, call: u32)
    requires { IsQuiet board.now pass.old }
    ensures { IsQuiet board.now pass.new }
{
    match call {
        1 => same(rt, &refill(board, pass, 0, 9), &RefillAnswer::Refilled),
        2 => store(rt, board, pass, b"ab", b"xyz"),
        3 => read(rt, board, pass, b"ab", b"xyz"),
        4 => store(rt, board, pass, b"a", b"1"),
        5 => store(rt, board, pass, b"b", b"2"),
        6 => store(rt, board, pass, b"c", b"3"),
        7 => store(rt, board, pass, b"d", b"4"),
        8 => store(rt, board, pass, b"e", b""),
        9 => store(rt, board, pass, b"f", b"6"),
        10 => store(rt, board, pass, LONGEST_KEY, LONGEST_VALUE),
        11 => same(rt, &refill(board, pass, 1, 9), &RefillAnswer::Refilled),
        12 => same(rt, &keep(board, pass, 0, 2), &KeepAnswer::Kept(1)),
        13 => store(rt, board, pass, b"ab", b"xy"),
        14 => take_out(rt, board, pass),
        15 => same(rt, &evict(board, pass, 0), &EvictAnswer::Evicted(6)),
        16 => same(
            rt,
            &refill(board, pass, 0, u32::MAX),
            &RefillAnswer::Refilled,
        ),
        _ => read(rt, board, pass, b"ab", b"xy"),
    }
}

// Makes so many of the calls.
fn make_first(rt: &impl Abort, board: &Board, pass: &mut Pass, calls: u32)
    requires { IsQuiet board.now pass.old }
    ensures { IsQuiet board.now pass.new }
{
    for call in 0..calls {
        make(rt, board, pass, call.saturating_add(1));
    }
}

// All words after so many calls.
fn words_after(calls: u32) -> [u64; COUNT] {
    let mut words = [0; COUNT];
    for (call, place, changed) in CHANGES {
        if call <= calls {
            for (word, changed) in words.iter_mut().skip(place).zip(changed) {
                *word = *changed;
            }
        }
    }
    words
}

#[test]
fn each_word_after_each_call(rt: HostRuntime) -> Result<(), Fail> {
    for calls in 0..=CALLS {
        let (board, mut passes) = quiet_board(rt.alloc(), SHAPE)?;
        let mut pass = pop(&board, &mut passes).expect(&rt, "a pass");
        make_first(&rt, &board, &mut pass, calls);
        check(&rt, &board.close(pass), &words_after(calls));
    }
    Ok(())
}

// The tag of the key is af6, the frequency 4, and the row the first of segment 0.
#[test]
fn three_hits_raise_the_frequency_to_4(rt: HostRuntime) -> Result<(), Fail> {
    let shape = Shape {
        overflow: 0,
        segments_each: 1,
        rows: 2,
        first_version: 0,
        ..SHAPE
    };
    let (board, mut passes) = quiet_board(rt.alloc(), shape)?;
    let mut pass = pop(&board, &mut passes).expect(&rt, "a pass");
    let told = refill(&board, &mut pass, 0, u32::MAX);
    same(&rt, &told, &RefillAnswer::Refilled);
    store(&rt, &board, &mut pass, b"a", b"1");
    read(&rt, &board, &mut pass, b"a", b"1");
    read(&rt, &board, &mut pass, b"a", b"1");
    read(&rt, &board, &mut pass, b"a", b"1");
    let words = board.close(pass);
    // The counter, a bucket, and a segment of a word and two rows.
    let mut wanted = [0; 1 + 8 + 17];
    wanted[1] = 0x0000_0001_0000_0000;
    wanted[2] = 0xaf60_4000_0000_0000;
    wanted[9] = 0xffff_ffff_0000_0000;
    wanted[10] = 0x0000_0000_0000_0101;
    wanted[11] = 0x0000_0000_0000_0061;
    wanted[14] = 0x0000_0000_0000_0031;
    check(&rt, &words, &wanted);
    Ok(())
}
