//! A load of one pass counts what a plain loop over the same commands counts.
ghost use Rattle.std.specs.Prelude.{◌≡◌, ◌<◌, ◌≤◌, ◌^◌};

use crate::load_runs::{PLACES, SEED, SHAPE, counts_of, run_over, sum_of};
use crate::same::{check_that, same};
use segload::{OpenGate, Recycled};
use segmodel::{
    Answer, Command, DeleteAnswer, EvictAnswer, GetAnswer, GetsAnswer, RefillAnswer, Request,
    WriteAnswer,
};
use segpolicy::{Kind, Load, Ring, Workload};
use segsolo::Solo;
use segword::Shape;
use std::alloc::{AllocGlobal, Global};
use std::process::Abort;
use std::sync::Wait;
use std::thread::Threads;

// The moment of each command.
const MOMENT: u32 = 0;

// Each segment has rows enough for a while. The number of segments is even,
// so that a load which skipped each second segment would leave some out.
const WIDE: Shape = Shape {
    buckets: 8,
    segments_each: 4,
    rows: 16,
    first_version: 4_294_967_290,
    ..SHAPE
};

// The place of the tally that an answer counts in.
fn place_of(answer: &Answer) -> usize
    ensures { result < PLACES }
{
    match answer {
        Answer::Get(GetAnswer::Found(_)) | Answer::Gets(GetsAnswer::Found(_, _)) => 0,
        Answer::Get(GetAnswer::Miss) | Answer::Gets(GetsAnswer::Miss) => 1,
        Answer::Write(WriteAnswer::Stored) => 2,
        Answer::Write(WriteAnswer::NotStored) => 3,
        Answer::Write(WriteAnswer::Exists) => 4,
        Answer::Write(WriteAnswer::NotFound) | Answer::Delete(DeleteAnswer::NotFound) => 5,
        Answer::Delete(DeleteAnswer::Deleted) => 6,
        Answer::Write(WriteAnswer::NoRoom) => 7,
        Answer::Write(WriteAnswer::BucketFull) => 8,
        _ => 9,
    }
}

fn command_of(load: Load, version: u32) -> Command {
    let Load {
        kind,
        key,
        value,
        draw: _,
    } = load;
    match kind {
        Kind::Get => Command::Get(key, MOMENT),
        Kind::Gets => Command::Gets(key, MOMENT),
        Kind::Set => Command::Write(Request::Set(key, value, MOMENT)),
        Kind::Add => Command::Write(Request::Add(key, value, MOMENT)),
        Kind::Replace => Command::Write(Request::Replace(key, value, MOMENT)),
        Kind::Cas => Command::Write(Request::Cas(key, value, version, MOMENT)),
        Kind::Delete => Command::Write(Request::Delete(key, MOMENT)),
    }
}

// Takes every key out of a segment and makes it current. It counts what it recycles.
fn renews(solo: &mut Solo, segment: u32, recycled: &mut Recycled) -> bool {
    let Answer::Evict(EvictAnswer::Evicted(keys)) = solo.answer(&Command::Evict(segment)) else {
        return false;
    };
    recycled.evictions = recycled.evictions.saturating_add(u64::from(keys));
    let Answer::Refill(RefillAnswer::Refilled) = solo.answer(&Command::Refill(segment, u32::MAX))
    else {
        return false;
    };
    recycled.refillings = recycled.refillings.saturating_add(1);
    true
}

// Serves a command. If it finds no room and room could be made, it is served once more.
fn serve(
    solo: &mut Solo,
    segments: &mut Ring,
    command: &Command,
    recycled: &mut Recycled,
) -> Answer {
    let answer = solo.answer(command);
    if answer == Answer::Write(WriteAnswer::NoRoom) && renews(solo, segments.next(), recycled) {
        return solo.answer(command);
    }
    answer
}

// How many keys stand, all of which are of these commands. Each is taken out as it is counted.
fn keys_of(solo: &mut Solo, mut workload: Workload, commands: u32) -> u32 {
    let mut keys = 0u32;
    for _ in 0..commands {
        let Load { key, .. } = workload.next();
        let answer = solo.answer(&Command::Write(Request::Delete(key, MOMENT)));
        if answer == Answer::Delete(DeleteAnswer::Deleted) {
            keys = keys.saturating_add(1);
        }
    }
    keys
}

// What a plain loop counts over the commands of pass 0 of so many keys, what it recycles, and how many of these keys
// stand then.
fn plain_loop(
    alloc: Global,
    shape: Shape,
    commands: u32,
    keys: u32,
) -> Option<([u32; PLACES], Recycled, u32)>
    requires keys { 1 ≤ keys }
    requires one_pass { shape.passes ≡ 1 }
    requires some { (1 ≤ shape.segments_each) × (shape.segments_each < 2 ^ 32) }
{
    let mut solo = Solo::new(alloc, shape).ok()?;
    let mut workload = Workload::with_keys(SEED, 0, keys);
    let mut segments = Ring::new(0, shape.segments_each);
    let mut version = 0;
    let mut counts = [0u32; PLACES];
    let mut recycled = Recycled::new();
    for _ in 0..commands {
        let command = command_of(workload.next(), version);
        let answer = serve(&mut solo, &mut segments, &command, &mut recycled);
        if let Answer::Gets(GetsAnswer::Found(_, found)) = &answer {
            version = *found;
        }
        let place = place_of(&answer);
        counts[place] = counts[place].saturating_add(1);
    }
    let again = Workload::with_keys(SEED, 0, keys);
    Some((counts, recycled, keys_of(&mut solo, again, commands)))
}

// Checks that two loads over so many keys are the same, and that no command is busy.
// Checks that a plain loop counts the same.
fn counts_as_plain<R: Threads + Wait + AllocGlobal + Abort + Sync>(
    rt: &R,
    shape: Shape,
    commands: u32,
    keys: u32,
)
    requires keys { 1 ≤ keys }
    requires one_pass { shape.passes ≡ 1 }
    requires some { (1 ≤ shape.segments_each) × (shape.segments_each < 2 ^ 32) }
{
    let first = run_over(rt, shape, commands, keys, &OpenGate).expect(rt, "totals");
    let second = run_over(rt, shape, commands, keys, &OpenGate).expect(rt, "totals");
    same(rt, &first, &second);
    let plain = plain_loop(rt.alloc(), shape, commands, keys).expect(rt, "an index");
    let (counts, recycled, standing) = plain;
    same(rt, &(first.keys, first.passes.len()), &(standing, 1));
    for pass in first.passes.iter() {
        let found = (pass.commands, pass.table.named_rows, pass.tallies.busy);
        same(rt, &found, &(commands, standing, 0));
        same(rt, &sum_of(counts), &commands);
        let told = (counts_of(&pass.tallies), pass.recycled);
        same(rt, &told, &(counts, recycled));
    }
}

#[test]
fn a_load_counts_as_a_plain_loop(rt: HostRuntime) {
    counts_as_plain(&rt, SHAPE, 500, 64);
}

// Segments are given up in turn.
#[test]
fn a_load_is_over_any_number_of_keys(rt: HostRuntime) {
    for keys in [1, 2, 64, 1_000_000, u32::MAX] {
        counts_as_plain(&rt, WIDE, 2000, keys);
    }
    // Over one key each command finds what the one before it left.
    let totals = run_over(&rt, WIDE, 2000, 1, &OpenGate).expect(&rt, "totals");
    check_that(&rt, totals.keys <= 1);
}
