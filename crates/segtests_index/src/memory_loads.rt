//! Loads out of memory: each request is refused in turn, first those for lists and then those for threads.
use crate::hoard::{RUNS, STEP, hoard, leave};
use crate::same::same;
use segindex::MakeFault;
use segload::{Gate, LoadFault, Totals, run_crowd, run_load};
use segword::Shape;
use std::alloc::{AllocError, AllocGlobal, Global};
use std::num::NonZeroU32;
use std::process::Abort;
use std::sync::Wait;
use std::sync::atomic::AtomicU64;
use std::sync::atomic::Ordering::SeqCst;
use std::thread::{Threads, yield_now};

const PASSES: usize = 3;

const SHAPE: Shape = Shape {
    buckets: 1,
    overflow: 0,
    passes: 3,
    segments_each: 1,
    rows: 1,
    first_version: 0,
};

const SEED: u64 = 7;

const COMMANDS: u32 = 50;

// The command before which a pass is stopped.
const STOP: u32 = 3;

// So many blocks of so many bytes are given up one by one,
// so that there is room for the stack of one thread, of two, and of three.
const BLOCKS: usize = 240;

const BLOCK: usize = 1 << 18;

// How often a pass looks, before its first command, whether all passes have begun,
// until it lets other threads have its processor, and looks again.
const LOOKS: u32 = 1 << 14;

// How often it does so where some passes may have no thread, and where each has one.
const YIELDS: u32 = 64;

const PATIENCE: u32 = 1 << 20;

// A gate that counts the commands of each pass, and may stop pass 0.
// The passes begin together. A thread that ended sooner would leave its stack to the next.
#[derive(Drop)]
struct Counter {
    stops: bool,
    yields: u32,
    begun: AtomicU64,
    answered: [AtomicU64; PASSES],
}

impl Counter {
    fn new(stops: bool, yields: u32) -> Counter {
        Counter {
            stops,
            yields,
            begun: AtomicU64::new(0),
            answered: [AtomicU64::new(0), AtomicU64::new(0), AtomicU64::new(0)],
        }
    }

    // How many passes ran to their end, if no pass made only a part of its commands.
    fn ran(&self) -> Option<usize> {
        let mut ran = 0usize;
        let mut end = if self.stops { STOP } else { COMMANDS };
        for count in &self.answered {
            let commands = count.load(SeqCst);
            if commands == u64::from(end) {
                ran = ran.saturating_add(1);
            } else if commands != 0 {
                return None;
            }
            end = COMMANDS;
        }
        Some(ran)
    }

    // Waits until all passes have begun, but not for long: some may have no thread.
    fn begin(&self) {
        self.begun.fetch_add(1, SeqCst);
        for _ in 0..self.yields {
            for _ in 0..LOOKS {
                if self.begun.load(SeqCst) == PASSES as u64 {
                    return;
                }
            }
            yield_now();
        }
    }
}

impl Gate for Counter {
    fn enter(&self, pass: u32, call: u32) -> bool {
        if call == 0 {
            self.begin();
        }
        !(self.stops && pass == 0 && call == STOP)
    }

    fn answered(&self, pass: u32, _call: u32) {
        if let Some(count) = self.answered.get(pass as usize) {
            count.fetch_add(1, SeqCst);
        }
    }
}

// Runs a load, over 64 keys if no number of keys is given.
// This function has no contract, so that the proof of a test needn't read that of a load.
fn load<R: Threads + Wait + AllocGlobal + Sync>(
    rt: &R,
    keys: Option<NonZeroU32>,
    gate: &Counter,
) -> Result<Totals, LoadFault> {
    match keys {
        Some(keys) => run_crowd(rt, rt.alloc(), SHAPE, SEED, COMMANDS, keys.get(), gate),
        None => run_load(rt, rt.alloc(), SHAPE, SEED, COMMANDS, gate),
    }
}

// How many runs were refused, by how many of their passes ran to their end.
type Refused = [usize; PASSES + 1];

// Counts a run that was refused memory. Returns whether the run was.
fn is_counted(
    rt: &impl Abort,
    refused: &mut Refused,
    gate: &Counter,
    ended: &Result<Totals, LoadFault>,
) -> bool {
    let ran = gate.ran().expect(rt, "a pass ran to its end");
    match ended {
        Err(LoadFault::OutOfMemory) => {}
        Err(LoadFault::Make(MakeFault::OutOfMemory)) => same(rt, &ran, &0),
        _ => return false,
    }
    if let Some(count) = refused.get_mut(ran) {
        *count = count.saturating_add(1);
    }
    true
}

// Whether runs were refused of which no pass ran, one, and two.
fn has_each(refused: &Refused) -> bool {
    let [none, one, two, _] = refused;
    0 < *none && 0 < *one && 0 < *two
}

// Runs loads, each with a little more memory than the one before, until one is refused none.
// On a busy machine a thread may end before the next is started, and leave it its memory:
// a run that is refused none ends the loads only if each number of passes was seen before.
// Their threads get the stacks that the C library keeps of a first load.
fn refuse_in_turn<R: Threads + Wait + AllocGlobal + Abort + Sync>(
    rt: &R,
    keys: Option<NonZeroU32>,
    stops: bool,
) -> Result<Totals, LoadFault> {
    let mut ended = load(rt, keys, &Counter::new(stops, PATIENCE));
    let all = hoard(rt.alloc()).expect(rt, "memory");
    let mut refused = [0; PASSES + 1];
    for run in 0..RUNS {
        let gate = Counter::new(stops, YIELDS);
        let taken = leave(rt.alloc(), STEP * run).expect(rt, "memory");
        ended = load(rt, keys, &gate);
        drop(taken);
        if !is_counted(rt, &mut refused, &gate, &ended) && has_each(&refused) {
            break;
        }
    }
    drop(all);
    assert!(rt; has_each(&refused), "{refused:?}");
    ended
}

#[test]
fn a_load_has_its_lists_or_memory_is_wanted(rt: HostRuntime) {
    for keys in [None, NonZeroU32::new(1)] {
        let totals = refuse_in_turn(&rt, keys, false).expect(&rt, "totals");
        same(
            &rt,
            &(totals.passes.len(), totals.commands()),
            &(PASSES, 150),
        );
    }
}

// In the runs where one or two passes ran, the gate stopped pass 0 and another had no thread.
#[test]
fn want_of_memory_is_told_before_a_stop(rt: HostRuntime) {
    let ended = refuse_in_turn(&rt, None, true);
    same(&rt, &ended.err(), &Some(LoadFault::Stopped(0)));
}

// The blocks that are given up one by one.
fn room_of(alloc: Global) -> Result<Vec<Vec<u8>>, AllocError> {
    let mut room = Vec::with_capacity(alloc, BLOCKS)?;
    for _ in 0..BLOCKS {
        let block: Vec<u8> = Vec::with_capacity(alloc, BLOCK)?;
        room.push(block)?;
    }
    Ok(room)
}

#[test]
fn a_pass_without_a_thread_does_not_stop_the_others(rt: HostRuntime) {
    let room = room_of(rt.alloc()).expect(&rt, "memory");
    let all = hoard(rt.alloc()).expect(&rt, "memory");
    let mut refused = [0; PASSES + 1];
    let mut commands = 0;
    for block in room {
        let gate = Counter::new(false, YIELDS);
        let ended = load(&rt, None, &gate);
        if !is_counted(&rt, &mut refused, &gate, &ended) {
            commands = ended.expect(&rt, "totals").commands();
            if has_each(&refused) {
                break;
            }
        }
        drop(block);
    }
    drop(all);
    assert!(rt; has_each(&refused) && refused[PASSES] == 0, "{refused:?}");
    same(&rt, &commands, &150);
}
