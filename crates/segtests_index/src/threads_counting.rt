//! Two threads count in one key: each reads the number with its version,
//! and stores the next one if the version is still the same. No count is lost.
ghost use Rattle.segindex.specs.Words.{board_of};
ghost use Rattle.segstore.specs.Words.{IsQuiet};

use crate::calls::{MOMENT, gets, meet, serve};
use crate::digits::{number_of, value_of};
use crate::passes::{SHAPE, two_that_fill};
use crate::same::same;
use crate::tables::answers;
use crate::work::{Work, at_once};
use segindex::{Index, Pass};
use segmodel::{Answer, Command, GetsAnswer, Request, WriteAnswer};
use segword::{Key, Shape};
use std::thread::yield_now;

// How often each thread counts.
const TIMES: u32 = 100;

// How many turns a thread takes at most.
const TURNS: u32 = 1_000_000;

// Counts in a key.
#[derive(Drop)]
struct Counter {
    key: Key,
    counted: u32,
}

impl Counter {
    fn new() -> Option<Counter> {
        let key = Key::new(b"n")?;
        Some(Counter { key, counted: 0 })
    }
}

// The command that stores the next number, if a number was found.
fn next_of(key: &Key, answer: &GetsAnswer) -> Option<Command> {
    match answer {
        GetsAnswer::Found(value, version) => {
            let next = value_of(number_of(value)?.checked_add(1)?)?;
            Some(Command::Write(Request::Cas(key.copy(), next, *version, MOMENT)))
        }
        GetsAnswer::Miss | GetsAnswer::Busy => None,
    }
}

// Counts once, and returns whether the next number was stored.
fn count(index: &Index, pass: &mut Pass, key: &Key) -> bool
    requires { IsQuiet (board_of index.now) pass.old }
    ensures { IsQuiet (board_of index.now) pass.new }
{
    let found = gets(index, pass, key, 0, MOMENT);
    let Some(cas) = next_of(key, &found) else {
        return false;
    };
    serve(index, pass, &cas) == Answer::Write(WriteAnswer::Stored)
}

impl Work for Counter {
    fn turn(&mut self, index: &Index, pass: &mut Pass, turn: u32) -> bool {
        if count(index, pass, &self.key) {
            self.counted = self.counted.saturating_add(1);
        } else {
            yield_now();
        }
        self.counted < TIMES && turn < TURNS
    }
}

#[test]
fn two_threads_count_to_200(rt: HostRuntime) {
    let shape = Shape { rows: 128, ..SHAPE };
    let (index, mut first, mut second) = two_that_fill(&rt, shape);
    answers(
        &rt,
        &index,
        &mut first,
        &mut second,
        "p0 set n 0 @0 -> STORED",
    );
    let counter = Counter::new().expect(&rt, "a counter");
    let other = Counter::new().expect(&rt, "a counter");
    let ((mut first, counts), (mut second, others)) = at_once(
        &rt,
        &index,
        (first, counter),
        (second, other),
    );
    same(&rt, &(counts.counted, others.counted), &(TIMES, TIMES));
    meet(&index, &mut first, &mut second);
    answers(
        &rt,
        &index,
        &mut first,
        &mut second,
        "p0 gets n @0 -> VALUE 200 201",
    );
}
