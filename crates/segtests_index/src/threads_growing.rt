//! Chains that grow on threads: two writers draw from one counter,
//! and a reader finds a key whose item moves on.
ghost use Rattle.segindex.specs.Words.{board_of};
ghost use Rattle.segstore.specs.Words.{IsQuiet};

use crate::calls::{MOMENT, add, get, meet, set};
use crate::passes::{SHAPE, two_that_fill};
use crate::same::same;
use crate::work::{Work, at_once, take_turns};
use segindex::{Index, Pass};
use segmodel::{GetAnswer, WriteAnswer};
use segword::{Key, Shape, Value};

// One more than the last byte of a key: a chain of four buckets has words for half of the keys,
// and those with bytes of one parity are in one bucket of two.
const BYTES: u8 = 50;

const ROUNDS: u32 = 20;

const READS: u32 = 2_000;

// A key of one byte, and its value, which is that byte.
fn pair(byte: u8) -> Option<(Key, Value)> {
    Some((Key::new(&[byte])?, Value::new(&[byte])?))
}

// Whether a key of one byte is found, with its value.
fn is_found(index: &Index, pass: &mut Pass, byte: u8, draw: u32) -> bool
    requires { IsQuiet (board_of index.now) pass.old }
    ensures { IsQuiet (board_of index.now) pass.new }
{
    let Some((key, value)) = pair(byte) else {
        return false;
    };
    get(index, pass, &key, draw, MOMENT) == GetAnswer::Found(value)
}

// Sets each second key from this byte on, and counts how many are stored.
#[derive(Drop)]
struct Setter {
    byte: u8,
    stored: u32,
}

impl Work for Setter {
    fn turn(&mut self, index: &Index, pass: &mut Pass, _turn: u32) -> bool {
        let Some((key, value)) = pair(self.byte) else {
            return false;
        };
        if set(index, pass, &key, &value, MOMENT) == WriteAnswer::Stored {
            self.stored = self.stored.saturating_add(1);
        }
        self.byte = self.byte.saturating_add(2);
        self.byte < BYTES
    }
}

// Adds each second key from this byte on, again while its bucket is busy,
// and counts how many are stored, and for how many the bucket is full.
#[derive(Drop)]
struct Adder {
    byte: u8,
    stored: u32,
    full: u32,
}

impl Work for Adder {
    fn turn(&mut self, index: &Index, pass: &mut Pass, _turn: u32) -> bool {
        let Some((key, value)) = pair(self.byte) else {
            return false;
        };
        match add(index, pass, &key, &value, MOMENT) {
            WriteAnswer::Busy => return true,
            WriteAnswer::Stored => self.stored = self.stored.saturating_add(1),
            WriteAnswer::BucketFull => self.full = self.full.saturating_add(1),
            _ => {}
        }
        self.byte = self.byte.saturating_add(2);
        self.byte < BYTES
    }
}

impl Adder {
    fn new(byte: u8) -> Adder {
        Adder {
            byte,
            stored: 0,
            full: 0,
        }
    }
}

// Counts the keys that are found, from this byte on.
#[derive(Drop)]
struct Finder {
    byte: u8,
    found: u32,
}

impl Work for Finder {
    fn turn(&mut self, index: &Index, pass: &mut Pass, _turn: u32) -> bool {
        if is_found(index, pass, self.byte, u32::MAX) {
            self.found = self.found.saturating_add(1);
        }
        self.byte = self.byte.saturating_add(1);
        self.byte < BYTES
    }
}

// How many of all keys are found.
fn count_found(index: &Index, pass: Pass) -> u32
    requires { IsQuiet (board_of index.now) pass }
{
    let (_, finder) = take_turns(index, pass, Finder { byte: 0, found: 0 });
    finder.found
}

#[test]
fn two_threads_fill_one_bucket(rt: HostRuntime) {
    let shape = Shape {
        overflow: 5,
        rows: 32,
        ..SHAPE
    };
    for _ in 0..ROUNDS {
        let (index, first, second) = two_that_fill(&rt, shape);
        let ((mut first, adds), (mut second, other_adds)) = at_once(
            &rt,
            &index,
            (first, Adder::new(0)),
            (second, Adder::new(1)),
        );
        // Of 50 keys 25 have a word.
        let stored = adds.stored.saturating_add(other_adds.stored);
        let full = adds.full.saturating_add(other_adds.full);
        meet(&index, &mut first, &mut second);
        let found = (count_found(&index, first), count_found(&index, second));
        same(&rt, &(stored, full, found), &(25, 25, (25, 25)));
    }
}

#[test]
fn two_chains_share_the_overflow_buckets(rt: HostRuntime) {
    let shape = Shape {
        buckets: 2,
        overflow: 4,
        rows: 32,
        ..SHAPE
    };
    for _ in 0..ROUNDS {
        let (index, first, second) = two_that_fill(&rt, shape);
        let ((mut first, sets), (mut second, other_sets)) = at_once(
            &rt,
            &index,
            (first, Setter { byte: 0, stored: 0 }),
            (second, Setter { byte: 1, stored: 0 }),
        );
        // Each chain has seven words, and six more for each overflow bucket that joined it.
        // The two chains share four overflow buckets, in whatever way.
        let stored = sets.stored.saturating_add(other_sets.stored);
        meet(&index, &mut first, &mut second);
        let found = (count_found(&index, first), count_found(&index, second));
        same(&rt, &(stored, sets.stored % 6, found), &(38, 1, (38, 38)));
    }
}

// Reads a key again and again, and keeps whether it was found each time from the first time on.
// Each hit raises the key's frequency.
#[derive(Drop)]
struct Reader {
    byte: u8,
    was_found: bool,
    stays: bool,
}

impl Work for Reader {
    fn turn(&mut self, index: &Index, pass: &mut Pass, turn: u32) -> bool {
        let is_found = is_found(index, pass, self.byte, 0);
        self.stays = self.stays && (is_found || !self.was_found);
        self.was_found = self.was_found || is_found;
        turn < READS - 1
    }
}

#[test]
fn a_key_that_moves_on_stays_found(rt: HostRuntime) {
    let shape = Shape {
        buckets: 2,
        overflow: 3,
        rows: 32,
        ..SHAPE
    };
    // Bytes of the 7th, 13th and 19th key: each is in the chain's last word as the chain grows.
    for byte in [12u8, 24, 36] {
        for _ in 0..ROUNDS {
            let (index, first, second) = two_that_fill(&rt, shape);
            let reader = Reader {
                byte,
                was_found: false,
                stays: true,
            };
            let ((mut first, sets), (mut second, reads)) = at_once(
                &rt,
                &index,
                (first, Setter { byte: 0, stored: 0 }),
                (second, reader),
            );
            meet(&index, &mut first, &mut second);
            let is_found = is_found(&index, &mut second, byte, 0);
            same(
                &rt,
                &(sets.stored, reads.stays, is_found),
                &(25, true, true),
            );
        }
    }
}
