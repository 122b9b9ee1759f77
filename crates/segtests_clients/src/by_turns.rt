//! A pass that fills two of its segments by turns.
ghost use Rattle.std.specs.Prelude.{All, IfSome};
ghost use Rattle.segindex.specs.Words.{board_of, IsQuiet};

use crate::same::{check_that, same};
use segindex::{CurrentAnswer, Index, Key, Pass, RefillAnswer, Shape, Value, WriteAnswer};
use std::process::Abort;

// Two passes with two segments each.
const SHAPE: Shape = Shape {
    buckets: 16,
    overflow: 0,
    passes: 2,
    segments_each: 2,
    rows: 2,
    first_version: 0,
};

// Takes the last pass out of the list.
fn pop(index: &Index, passes: &mut Vec<Pass>) -> Option<Pass>
    requires { All (IsQuiet (board_of index.now)) passes.old.items }
    ensures last { IfSome result (IsQuiet (board_of index.now)) }
    ensures others { All (IsQuiet (board_of index.now)) passes.new.items }
{
    passes.pop()
}

// Sets a key.
fn set(rt: &impl Abort, index: &Index, pass: &mut Pass, name: &str) -> WriteAnswer
    requires { IsQuiet (board_of index.now) pass.old }
    ensures { IsQuiet (board_of index.now) pass.new }
{
    let key = Key::new(name.as_bytes()).expect(rt, "a key");
    let value = Value::new(b"1").expect(rt, "a value");
    index.set(pass, &key, &value, 0)
}

#[test]
fn sets_go_into_the_segment_that_is_made_current(rt: HostRuntime) {
    let (index, mut passes) = Index::new(rt.alloc(), SHAPE).expect(&rt, "an index");
    let mut pass = pop(&index, &mut passes).expect(&rt, "a pass");
    let first = index.shape().segments_each.saturating_mul(pass.number());
    let second = first.saturating_add(1);
    let refilled = index.refill(&mut pass, first, 100);
    same(&rt, &refilled, &RefillAnswer::Refilled);

    // What isn't in use isn't made current, and neither is another's.
    let told = index.make_current(&mut pass, second);
    same(&rt, &told, &CurrentAnswer::NotInUse);
    let told = index.make_current(&mut pass, 0);
    same(&rt, &told, &CurrentAnswer::NotYours);
    same(&rt, &pass.current(), &Some(first));

    let refilled = index.refill_aside(&mut pass, second, 200);
    same(&rt, &refilled, &RefillAnswer::Refilled);
    let is_stored = set(&rt, &index, &mut pass, "a") == WriteAnswer::Stored;
    check_that(&rt, is_stored);
    let told = index.make_current(&mut pass, second);
    same(&rt, &told, &CurrentAnswer::Current);
    let is_stored = set(&rt, &index, &mut pass, "b") == WriteAnswer::Stored;
    check_that(&rt, is_stored);
    let is_stored = set(&rt, &index, &mut pass, "c") == WriteAnswer::Stored;
    check_that(&rt, is_stored);
    let has_no_room = set(&rt, &index, &mut pass, "d") == WriteAnswer::NoRoom;
    check_that(&rt, has_no_room);

    // The first one goes on where it was.
    let told = index.make_current(&mut pass, first);
    same(&rt, &told, &CurrentAnswer::Current);
    let is_stored = set(&rt, &index, &mut pass, "d") == WriteAnswer::Stored;
    check_that(&rt, is_stored);
    same(
        &rt,
        &(pass.used(first), pass.used(second)),
        &(Some(2), Some(2)),
    );
}
