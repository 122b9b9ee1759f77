//! Two threads that lock one bucket: both get on, no lock is counted as a write,
//! and no bit is left.
use crate::calls::{lock, unlock};
use crate::passes::{SHAPE, two_that_fill};
use crate::same::same;
use crate::tables::answers;
use crate::work::{Work, at_once};
use segindex::{Index, LockAnswer, Pass};
use segword::Key;
use std::thread::yield_now;

// How often each thread has to lock.
const LOCKS: u32 = 1_000;

// Locks and unlocks the key's bucket, again while it is busy. The locker counts how often it did both.
#[derive(Drop)]
struct Locker<'a> {
    key: &'a Key,
    done: u32,
}

impl Work for Locker<'_> {
    fn turn(&mut self, index: &Index, pass: &mut Pass, _turn: u32) -> bool {
        if lock(index, pass, self.key) == LockAnswer::Busy {
            yield_now();
        } else if unlock(index, pass) {
            self.done = self.done.saturating_add(1);
        }
        self.done < LOCKS
    }
}

#[test]
fn two_threads_lock_one_bucket(rt: HostRuntime) {
    let (index, mut first, mut second) = two_that_fill(&rt, SHAPE);
    let key = Key::new(b"a").expect(&rt, "a key");
    answers(
        &rt,
        &index,
        &mut first,
        &mut second,
        "p0 set a 1 @0 -> STORED",
    );
    let ((mut first, locks), (mut second, other_locks)) = at_once(
        &rt,
        &index,
        (first, Locker { key: &key, done: 0 }),
        (second, Locker { key: &key, done: 0 }),
    );
    same(&rt, &(locks.done, other_locks.done), &(LOCKS, LOCKS));
    // The set alone counts as a write, and no lock is left.
    let script = "
        p0 gets a @0 -> VALUE 1 1
        p0 lock a -> LOCKED
    ";
    answers(&rt, &index, &mut first, &mut second, script);
}
