//! A cache by the index itself, with one pass, which recycles its segments in turn.
ghost use Rattle.std.specs.Prelude.{All, IfSome};
ghost use Rattle.segindex.specs.Words.{board_of, IsQuiet};

use anyhow::{Result, anyhow};
use segindex::{Index, Key, Pass, RefillAnswer, Shape, Value, WriteAnswer};
use std::alloc::Global;

const SEGMENTS: u32 = 4;

// Takes the last pass out of the list.
fn pop(index: &Index, passes: &mut Vec<Pass>) -> Option<Pass>
    requires { All (IsQuiet (board_of index.now)) passes.old.items }
    ensures { IfSome result (IsQuiet (board_of index.now)) }
{
    passes.pop()
}

// Fills the next segment from now on, and empties the one after it, the oldest.
// What was read often is moved out of that first.
fn make_room(index: &Index, pass: &mut Pass)
    requires { IsQuiet (board_of index.now) pass.old }
    ensures { IsQuiet (board_of index.now) pass.new }
{
    let next = match pass.current() {
        Some(segment) => segment.wrapping_add(1) % SEGMENTS,
        None => 0,
    };
    index.evict(pass, next); // Evicted(0), or the rest of one that was Busy
    let RefillAnswer::Refilled = index.refill(pass, next, u32::MAX) else {
        return; // somebody reads there
    };
    let oldest = next.wrapping_add(1) % SEGMENTS;
    index.keep(pass, oldest, 3);
    index.evict(pass, oldest);
}

// Stores a pair, once room was made if there is none.
fn store(index: &Index, pass: &mut Pass, key: &Key, value: &Value, now: u32) -> WriteAnswer
    requires { IsQuiet (board_of index.now) pass.old }
    ensures { IsQuiet (board_of index.now) pass.new }
{
    let told = index.set(pass, key, value, now);
    if told != WriteAnswer::NoRoom {
        return told;
    }
    make_room(index, pass);
    index.set(pass, key, value, now)
}

// Stores each pair.
fn store_all(index: &Index, pass: &mut Pass, pairs: &[(Key, Value)], now: u32)
    requires { IsQuiet (board_of index.now) pass.old }
    ensures { IsQuiet (board_of index.now) pass.new }
{
    for (key, value) in pairs {
        store(index, pass, key, value, now);
    }
}

/// Stores the pairs in segments of so many rows, and lists what stands in the end.
pub fn index_caller(
    alloc: Global,
    rows: u32,
    pairs: &[(Key, Value)],
    now: u32,
) -> Result<Vec<(Key, Value)>> {
    let shape = Shape {
        buckets: 64,
        overflow: 64,
        passes: 1,
        segments_each: SEGMENTS,
        rows,
        first_version: 0,
    };
    let (index, mut passes) = Index::new(alloc, shape)?;
    let Some(mut pass) = pop(&index, &mut passes) else {
        return Err(anyhow!("no pass"));
    };
    store_all(&index, &mut pass, pairs, now);
    Ok(index.close(alloc, pass)?)
}
