//! Gates that hold and stop the passes of a load.
use crate::load_runs::{SHAPE, run};
use crate::same::same;
use segload::{Gate, LoadFault};
use segword::Shape;
use std::sync::atomic::AtomicU64;
use std::sync::atomic::Ordering::SeqCst;

const TURNS: u32 = 1_000_000_000;

// Waits until the word is this one, which may take too long.
fn comes_to(word: &AtomicU64, wanted: u64) -> bool {
    for _ in 0..TURNS {
        if word.load(SeqCst) == wanted {
            return true;
        }
    }
    false
}

// A gate that lets through the first command of pass 0 only once that of pass 1 was answered,
// and that of pass 1 only once that of pass 0 was asked for.
// One thread can't get through, in whatever order it takes the passes.
#[derive(Drop)]
struct Crossing {
    first_asked: AtomicU64,
    second_answered: AtomicU64,
}

impl Gate for Crossing {
    fn enter(&self, pass: u32, call: u32) -> bool {
        match (pass, call) {
            (0, 0) => {
                self.first_asked.store(1, SeqCst);
                comes_to(&self.second_answered, 1)
            }
            (1, 0) => comes_to(&self.first_asked, 1),
            _ => true,
        }
    }

    fn answered(&self, pass: u32, call: u32) {
        if pass == 1 && call == 0 {
            self.second_answered.store(1, SeqCst);
        }
    }
}

#[test]
fn passes_work_at_the_same_time(rt: HostRuntime) {
    let shape = Shape {
        passes: 2,
        rows: 4,
        ..SHAPE
    };
    let gate = Crossing {
        first_asked: AtomicU64::new(0),
        second_answered: AtomicU64::new(0),
    };
    let totals = run(&rt, shape, 100, &gate).expect(&rt, "totals");
    same(&rt, &(totals.passes.len(), totals.commands()), &(2, 200));
}

// A gate that lets the commands of two passes through in turn,
// each only once the one before it was answered.
#[derive(Drop)]
struct InTurn {
    answered: AtomicU64,
}

impl Gate for InTurn {
    fn enter(&self, pass: u32, call: u32) -> bool {
        comes_to(&self.answered, 2 * u64::from(call) + u64::from(pass))
    }

    fn answered(&self, _pass: u32, _call: u32) {
        self.answered.fetch_add(1, SeqCst);
    }
}

// A gate that heard of an answer before the command was made would let both run at once,
// and the two loads would differ.
#[test]
fn passes_that_take_turns_count_the_same_each_time(rt: HostRuntime) {
    let shape = Shape {
        overflow: 3,
        passes: 2,
        segments_each: 2,
        rows: 16,
        ..SHAPE
    };
    let mut gate = InTurn {
        answered: AtomicU64::new(0),
    };
    let first = run(&rt, shape, 2000, &gate).expect(&rt, "totals");
    gate.answered = AtomicU64::new(0);
    let second = run(&rt, shape, 2000, &gate).expect(&rt, "totals");
    same(&rt, &first, &second);
    for totals in first.passes.iter() {
        same(&rt, &totals.tallies.busy, &0);
    }
}

// A gate that stops pass 1 and pass 2 before command 3, and counts how often each pass asked, and was answered.
// Each of four passes has 16 bits of the counts.
#[derive(Drop)]
struct Stopper {
    asked: AtomicU64,
    answered: AtomicU64,
}

// One more, in the bits of a pass.
fn one_of(pass: u32) -> u64 {
    1u64.wrapping_shl(pass.wrapping_mul(16))
}

impl Gate for Stopper {
    fn enter(&self, pass: u32, call: u32) -> bool {
        self.asked.fetch_add(one_of(pass), SeqCst);
        !((pass == 1 || pass == 2) && call == 3)
    }

    fn answered(&self, pass: u32, _call: u32) {
        self.answered.fetch_add(one_of(pass), SeqCst);
    }
}

#[test]
fn a_stopped_pass_does_not_stop_the_others(rt: HostRuntime) {
    let shape = Shape {
        buckets: 4,
        passes: 4,
        segments_each: 2,
        ..SHAPE
    };
    let gate = Stopper {
        asked: AtomicU64::new(0),
        answered: AtomicU64::new(0),
    };
    let fault = run(&rt, shape, 0x200, &gate).err();
    same(&rt, &fault, &Some(LoadFault::Stopped(1)));
    // Each pass asks once before each command, and a stopped pass doesn't ask again.
    let counts = (gate.asked.load(SeqCst), gate.answered.load(SeqCst));
    same(
        &rt,
        &counts,
        &(0x0200_0004_0004_0200, 0x0200_0003_0003_0200),
    );
}
