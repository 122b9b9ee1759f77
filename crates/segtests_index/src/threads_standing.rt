//! A bucket that stays locked beside three threads that read and write its key.
//! Each get finds the key, and each set and each gets is refused.
ghost use Rattle.segindex.specs.Words.{board_of};
ghost use Rattle.segstore.specs.Words.{IsQuiet};

use crate::calls::{MOMENT, get, gets, set};
use crate::passes::{SHAPE, four_passes};
use crate::same::same;
use crate::tables::answers;
use crate::work::{Work, three_at_once};
use segindex::{Index, Pass};
use segmodel::{GetAnswer, GetsAnswer, WriteAnswer};
use segword::{Key, Shape, Value};
use std::process::Abort;
use std::thread::Threads;

// How often each thread makes each call.
const ROUNDS: u32 = 1_000;

// In each round the caller gets the key, sets it to another value, and gets it with its version.
// The caller counts the answers that are wanted.
#[derive(Drop)]
struct Caller<'a> {
    key: &'a Key,
    stands: &'a Value,
    other: &'a Value,
    found: u32,
    refused_sets: u32,
    refused_gets: u32,
}

impl Work for Caller<'_> {
    fn turn(&mut self, index: &Index, pass: &mut Pass, turn: u32) -> bool {
        if is_found(&get(index, pass, self.key, turn, MOMENT), self.stands) {
            self.found = self.found.saturating_add(1);
        }
        if set(index, pass, self.key, self.other, MOMENT) == WriteAnswer::Busy {
            self.refused_sets = self.refused_sets.saturating_add(1);
        }
        if gets(index, pass, self.key, turn, MOMENT) == GetsAnswer::Busy {
            self.refused_gets = self.refused_gets.saturating_add(1);
        }
        turn < ROUNDS - 1
    }
}

// Whether this value was found.
fn is_found(answer: &GetAnswer, value: &Value) -> bool {
    match answer {
        GetAnswer::Found(found) => found == value,
        GetAnswer::Miss | GetAnswer::Busy => false,
    }
}

impl<'a> Caller<'a> {
    fn new(key: &'a Key, stands: &'a Value, other: &'a Value) -> Caller<'a> {
        Caller {
            key,
            stands,
            other,
            found: 0,
            refused_sets: 0,
            refused_gets: 0,
        }
    }

    // How many of each call were answered as wanted.
    fn counts(&self) -> [u32; 3] {
        [self.found, self.refused_sets, self.refused_gets]
    }
}

// Three passes make the calls at the same time, and each call is answered as wanted.
fn call_at_once<R: Threads + Sync + Abort>(
    rt: &R,
    index: &Index,
    first: Pass,
    second: Pass,
    third: Pass,
) -> (Pass, Pass, Pass)
    requires { IsQuiet (board_of index.now) first × IsQuiet (board_of index.now) second
        × IsQuiet (board_of index.now) third }
    ensures { IsQuiet (board_of index.now) result.0 × IsQuiet (board_of index.now) result.1
        × IsQuiet (board_of index.now) result.2 }
{
    let key = Key::new(b"a").expect(rt, "a key");
    let stands = Value::new(b"1").expect(rt, "a value");
    let other = Value::new(b"2").expect(rt, "a value");
    let ((first, calls), (second, other_calls), (third, third_calls)) = three_at_once(
        rt,
        index,
        (first, Caller::new(&key, &stands, &other)),
        (second, Caller::new(&key, &stands, &other)),
        (third, Caller::new(&key, &stands, &other)),
    );
    for counts in [calls.counts(), other_calls.counts(), third_calls.counts()] {
        same(rt, &counts, &[ROUNDS; 3]);
    }
    (first, second, third)
}

#[test]
fn a_standing_lock_lets_each_get_through_and_no_set_and_no_gets(rt: HostRuntime) {
    let shape = Shape {
        passes: 4,
        rows: 8,
        ..SHAPE
    };
    let (index, mut p0, mut p1, mut p2, mut p3) = four_passes(&rt, shape);
    let script = "
        p0 refill 0 4294967295 -> REFILLED
        p1 refill 1 4294967295 -> REFILLED
        p0 set a 1 @0 -> STORED
    ";
    answers(&rt, &index, &mut p0, &mut p1, script);
    // The script calls them pass 0 and pass 1.
    let script = "
        p0 refill 2 4294967295 -> REFILLED
        p1 refill 3 4294967295 -> REFILLED
        p1 lock a -> LOCKED
    ";
    answers(&rt, &index, &mut p2, &mut p3, script);
    let (mut p0, mut p1, mut p2) = call_at_once(&rt, &index, p0, p1, p2);
    // Five sets are stored in all.
    let script = "
        p1 unlock -> UNLOCKED
        p0 set a 4 @0 -> STORED
        p1 set a 5 @0 -> STORED
    ";
    answers(&rt, &index, &mut p2, &mut p3, script);
    let script = "
        p0 set a 6 @0 -> STORED
        p1 set a 7 @0 -> STORED
        p1 gets a @0 -> VALUE 7 5
    ";
    answers(&rt, &index, &mut p0, &mut p1, script);
}
