//! Two threads that set: each set is stored and counted, and a pass that met the other,
//! or that ends the index, has both.
ghost use Rattle.segindex.specs.Words.{board_of};
ghost use Rattle.segstore.specs.Words.{IsQuiet};

use crate::calls::{MOMENT, lists, meet, set};
use crate::passes::{SHAPE, two_that_fill};
use crate::same::same;
use crate::tables::answers;
use crate::work::{Work, at_once};
use segindex::{Index, Pass};
use segmodel::WriteAnswer;
use segword::{Key, Shape, Value};
use std::process::Abort;
use std::thread::{Threads, yield_now};

// Sets the key so often, each time again while the bucket is busy,
// and counts the sets that are stored.
#[derive(Drop)]
struct Setter {
    key: Key,
    value: Value,
    left: u32,
    stored: u32,
}

impl Setter {
    fn new(key: &str, value: &str, times: u32) -> Option<Setter> {
        Some(Setter {
            key: Key::new(key.as_bytes())?,
            value: Value::new(value.as_bytes())?,
            left: times,
            stored: 0,
        })
    }
}

impl Work for Setter {
    fn turn(&mut self, index: &Index, pass: &mut Pass, _turn: u32) -> bool {
        match set(index, pass, &self.key, &self.value, MOMENT) {
            WriteAnswer::Busy => {
                yield_now();
                return true;
            }
            WriteAnswer::Stored => self.stored = self.stored.saturating_add(1),
            _ => {}
        }
        self.left = self.left.saturating_sub(1);
        self.left > 0
    }
}

// Two threads set a key each, so often, to 1 and to 2. Each set is stored.
fn set_at_once<R: Threads + Sync + Abort>(
    rt: &R,
    index: &Index,
    passes: (Pass, Pass),
    keys: (&str, &str),
    times: u32,
) -> (Pass, Pass)
    requires { IsQuiet (board_of index.now) passes.0 × IsQuiet (board_of index.now) passes.1 }
    ensures { IsQuiet (board_of index.now) result.0 × IsQuiet (board_of index.now) result.1 }
{
    let setter = Setter::new(keys.0, "1", times).expect(rt, "a setter");
    let other = Setter::new(keys.1, "2", times).expect(rt, "a setter");
    let (first, second) = passes;
    let ((first, sets), (second, other_sets)) = at_once(
        rt,
        index,
        (first, setter),
        (second, other),
    );
    same(rt, &(sets.stored, other_sets.stored), &(times, times));
    (first, second)
}

#[test]
fn the_version_counts_the_sets_of_two_threads(rt: HostRuntime) {
    let shape = Shape {
        rows: 1_000,
        ..SHAPE
    };
    let (index, first, second) = two_that_fill(&rt, shape);
    let (mut first, mut second) = set_at_once(&rt, &index, (first, second), ("a", "b"), 1_000);
    let script = "
        p0 gets a @0 -> VALUE 1 2000
        p0 lock a -> LOCKED
    ";
    answers(&rt, &index, &mut first, &mut second, script);
}

#[test]
fn two_threads_store_and_meet(rt: HostRuntime) {
    let (index, first, second) = two_that_fill(&rt, SHAPE);
    let (mut first, mut second) = set_at_once(&rt, &index, (first, second), ("a", "b"), 1);
    meet(&index, &mut first, &mut second);
    let script = "
        p0 get a @0 -> VALUE 1
        p0 get b @0 -> VALUE 2
        p1 get a @0 -> VALUE 1
        p1 get b @0 -> VALUE 2
    ";
    answers(&rt, &index, &mut first, &mut second, script);
}

#[test]
fn close_forgets_others(rt: HostRuntime) {
    let shape = Shape {
        buckets: 4,
        ..SHAPE
    };
    let (index, first, second) = two_that_fill(&rt, shape);
    let (mut first, mut second) = set_at_once(&rt, &index, (first, second), ("b", "c"), 1);
    meet(&index, &mut first, &mut second);
    // The first pass doesn't see this set.
    answers(
        &rt,
        &index,
        &mut first,
        &mut second,
        "p1 set a 3 @0 -> STORED",
    );
    let pairs = [("a", "3"), ("b", "1"), ("c", "2")];
    same(&rt, &lists(rt.alloc(), index, first, &pairs), &Ok(true));
}
