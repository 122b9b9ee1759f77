//! Loads as the tests run them.
//! These functions ensure nothing, so that the proof of a test needn't read what a load ensures.
ghost use Rattle.std.specs.Prelude.{◌≤◌};

use segload::{Gate, LoadFault, Tallies, Totals, run_crowd, run_load};
use segword::Shape;
use std::alloc::AllocGlobal;
use std::sync::Wait;
use std::thread::Threads;

/// The shape of the program without options.
pub const SHAPE: Shape = Shape {
    buckets: 1,
    overflow: 0,
    passes: 1,
    segments_each: 1,
    rows: 8,
    first_version: 0,
};

/// The seed of a load.
pub const SEED: u64 = 7;

/// Runs a load over 64 keys.
pub fn run<R: Threads + Wait + AllocGlobal + Sync, G: Gate>(
    rt: &R,
    shape: Shape,
    commands: u32,
    gate: &G,
) -> Result<Totals, LoadFault> {
    run_load(rt, rt.alloc(), shape, SEED, commands, gate)
}

/// Runs a load of so many commands over so many keys.
pub fn run_over<R: Threads + Wait + AllocGlobal + Sync, G: Gate>(
    rt: &R,
    shape: Shape,
    commands: u32,
    keys: u32,
    gate: &G,
) -> Result<Totals, LoadFault>
    requires { 1 ≤ keys }
{
    run_crowd(rt, rt.alloc(), shape, SEED, commands, keys, gate)
}

/// How many tallies there are. They stand in the order in which a load is printed.
pub const PLACES: usize = 10;

/// The tallies in this order.
pub fn counts_of(tallies: &Tallies) -> [u32; PLACES] {
    [
        tallies.hit,
        tallies.miss,
        tallies.stored,
        tallies.not_stored,
        tallies.exists,
        tallies.not_found,
        tallies.deleted,
        tallies.no_room,
        tallies.bucket_full,
        tallies.busy,
    ]
}

/// All counts, added up.
pub fn sum_of(counts: [u32; PLACES]) -> u32 {
    let mut sum = 0u32;
    for count in counts {
        sum = sum.saturating_add(count);
    }
    sum
}
