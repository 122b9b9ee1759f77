//! Crowds: four passes beside each other over one key, and over more keys than a cache of the machine has room for.
ghost use Rattle.std.specs.Prelude.{◌≤◌};

use crate::load_runs::{SHAPE, counts_of, run_over, sum_of};
use crate::same::{check_that, same};
use segload::OpenGate;
use segword::Shape;
use std::alloc::AllocGlobal;
use std::process::Abort;
use std::sync::Wait;
use std::thread::Threads;

// One bucket, whose version soon passes 0, and segments that are soon given up.
const ONE_KEY: Shape = Shape {
    passes: 4,
    segments_each: 2,
    rows: 64,
    first_version: 4_294_967_290,
    ..SHAPE
};

const LARGE: Shape = Shape {
    buckets: 16_384,
    overflow: 1_024,
    passes: 4,
    segments_each: 4,
    rows: 2_048,
    ..SHAPE
};

// Checks that each pass of a crowd over so many keys counts each of its commands once, and that some are stored.
// Returns how many keys stand at the end.
fn keys_of_crowd<R: Threads + Wait + AllocGlobal + Abort + Sync>(
    rt: &R,
    shape: Shape,
    commands: u32,
    keys: u32,
) -> u32
    requires { 1 ≤ keys }
{
    let totals = run_over(rt, shape, commands, keys, &OpenGate).expect(rt, "totals");
    same(rt, &totals.passes.len(), &4);
    let mut has_stored = false;
    for pass in totals.passes.iter() {
        let sum = sum_of(counts_of(&pass.tallies));
        same(rt, &(pass.commands, sum), &(commands, commands));
        has_stored = has_stored || pass.tallies.stored > 0;
    }
    check_that(rt, has_stored);
    totals.keys
}

#[test]
fn four_passes_crowd_one_key(rt: HostRuntime) {
    for commands in [2_000, 250_000] {
        check_that(&rt, keys_of_crowd(&rt, ONE_KEY, commands, 1) <= 1);
    }
}

#[test]
fn four_passes_share_a_large_table(rt: HostRuntime) {
    let standing = keys_of_crowd(&rt, LARGE, 250_000, 600_000);
    assert!(rt; 0 < standing && standing <= 600_000, "{standing} keys");
}
