//! The forms of the calls of an index, of caches of one thread, and of the laws without arguments.
ghost use Rattle.segindex.specs.Words.{board_of, shape_of};
ghost use Rattle.segstore.specs.Words.{IsQuiet};
ghost use Rattle.segread.specs.Words.{IsHoldOf};

use crate::same::same;
use segcore::{every_schedule, miss_point};
use segindex::{Hold, HoldAnswer, Index, LockAnswer, MakeFault, OutOfMemory, Pass};
use segmodel::{
    Answer, Command, DeleteAnswer, EvictAnswer, GetAnswer, GetsAnswer, KeepAnswer, Plain,
    PlainFault, RefillAnswer, Shelf, WriteAnswer, run,
};
use segsolo::Solo;
use segword::{Key, Shape, Value};
use std::alloc::Global;

/// One bucket, and a segment of a row.
const SHAPE: Shape = Shape {
    buckets: 1,
    overflow: 0,
    passes: 1,
    segments_each: 1,
    rows: 1,
    first_version: 0,
};

#[test]
fn calls_on_a_key_keep_their_forms(_rt: HostRuntime) {
    let _: fn(&Index, &mut Pass, &Key, u32, u32) -> GetAnswer = Index::get;
    let _: fn(&Index, &mut Pass, &Key, u32, u32) -> GetsAnswer = Index::gets;
    let _: fn(&Index, &mut Pass, &Key, &Value, u32) -> WriteAnswer = Index::set;
    let _: fn(&Index, &mut Pass, &Key, &Value, u32) -> WriteAnswer = Index::add;
    let _: fn(&Index, &mut Pass, &Key, &Value, u32) -> WriteAnswer = Index::replace;
    let _: fn(&Index, &mut Pass, &Key, &Value, u32, u32) -> WriteAnswer = Index::cas;
    let _: fn(&Index, &mut Pass, &Key, u32) -> DeleteAnswer = Index::delete;
    let _: fn(&Index, &mut Pass, &Hold<'_>) -> Value = Index::held_value;
    let _: fn(&Index, &mut Pass, &Key) -> LockAnswer = Index::lock_bucket;
    let _: fn(&Index, &mut Pass) -> bool = Index::unlock_bucket;
    let _: fn(&Index, &mut Pass, &Key, &Value, u32, u32) -> (WriteAnswer, GetAnswer) = Index::probe;
    let _: fn(&Index, &mut Pass, &Command, u32) -> Answer = Index::serve;
}

#[test]
fn calls_on_an_index_keep_their_forms(_rt: HostRuntime) {
    let _: fn(Global, Shape) -> Result<(Index, Vec<Pass>), MakeFault> = Index::new;
    let _: fn(&Index, &mut Pass, u32) -> EvictAnswer = Index::evict;
    let _: fn(&Index, &mut Pass, u32, u32) -> RefillAnswer = Index::refill;
    let _: fn(&Index, &mut Pass, u32, u8) -> KeepAnswer = Index::keep;
    let _: fn(&Index, &mut Pass, &mut Pass) = Index::meet;
    let _: fn(Index, Global, Pass) -> Result<Vec<(Key, Value)>, OutOfMemory> = Index::close;
}

// A hold borrows the index. A pointer to a call with such a lifetime isn't proved yet,
// so these call them, with their conditions.

fn hold<'i>(index: &'i Index, pass: &mut Pass, key: &Key, now: u32) -> HoldAnswer<'i>
    requires quiet { IsQuiet (board_of index.now) pass.old }
{
    index.hold(pass, key, now)
}

fn release(index: &Index, pass: &mut Pass, hold: Hold<'_>)
    requires quiet { IsQuiet (board_of index.now) pass.old }
    requires hold { IsHoldOf (shape_of index.now) hold pass.old }
{
    index.release(pass, hold);
}

// The answers to these commands, of any cache of one thread.
fn answers_of<S: Shelf>(
    alloc: Global,
    shelf: &mut S,
    commands: &[Command],
) -> Result<Vec<Answer>, PlainFault> {
    let mut answers: Vec<Answer> = Vec::new(alloc);
    let ran: Result<(), PlainFault> = run(shelf, commands, &mut answers);
    ran?;
    Ok(answers)
}

#[test]
fn calls_on_a_shelf_keep_their_forms(rt: HostRuntime) {
    let _: fn(Global, &Shape) -> Result<Plain, PlainFault> = Plain::new;
    let _: fn(Global, Shape) -> Result<Solo, MakeFault> = Solo::new;
    let _: fn(&mut Plain, &Command) -> Result<Answer, PlainFault> = Plain::serve;
    let _: fn(&mut Solo, &Command) -> Result<Answer, PlainFault> = Solo::serve;
    let _: fn() = every_schedule;
    let _: fn() = miss_point;
    SHAPE.check().expect(&rt, "a shape");
    let mut plain = Plain::new(rt.alloc(), &SHAPE).expect(&rt, "memory");
    let commands = [Command::Refill(0, 9), Command::Evict(0)];
    let answers = answers_of(rt.alloc(), &mut plain, &commands).expect(&rt, "memory");
    let wanted = [
        Answer::Refill(RefillAnswer::Refilled),
        Answer::Evict(EvictAnswer::Evicted(0)),
    ];
    same(&rt, &answers.as_slice(), &wanted.as_slice());
}
