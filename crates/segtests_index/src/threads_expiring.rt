//! Segments that are filled anew with later and later deadlines, beside passes that read:
//! no value is read at its deadline or past it.
ghost use Rattle.segindex.specs.Words.{board_of};
ghost use Rattle.segstore.specs.Words.{IsQuiet};

use crate::calls::{evict, get, gets, refill, set};
use crate::digits::{number_of, value_of};
use crate::holds::{held_value, hold, release};
use crate::passes::{SHAPE, four_passes};
use crate::same::same;
use crate::tables::answers;
use crate::work::{Work, four_at_once};
use segindex::{Index, Pass};
use segmodel::{EvictAnswer, GetAnswer, GetsAnswer, RefillAnswer, WriteAnswer};
use segword::{Key, Shape, Value};
use std::thread::yield_now;

const ROUNDS: u32 = 1_000;

const SEGMENTS: u32 = 3;

const KEYS: u32 = 4;

// How many moments each deadline is after the one before.
const STEP: u32 = 4;

const LAST_DEADLINE: u32 = ROUNDS * STEP;

// The keys a, b, c and d, again and again.
fn key_of(number: u32) -> Option<Key> {
    Key::new(&[b'a' + (number % KEYS) as u8])
}

// In each round the writer fills its next segment anew, with the next deadline,
// and stores that deadline there under two of the keys. The writer counts the rounds that went well.
#[derive(Drop)]
struct Writer {
    round: u32,
    done: u32,
}

impl Work for Writer {
    fn turn(&mut self, index: &Index, pass: &mut Pass, _turn: u32) -> bool {
        let round = self.round.saturating_add(1);
        let deadline = round.saturating_mul(STEP);
        let segment = round % SEGMENTS;
        let _gone: EvictAnswer = evict(index, pass, segment);
        if refill(index, pass, segment, deadline) == RefillAnswer::Held {
            yield_now();
            return true;
        }
        self.round = round;
        if is_stored(index, pass, round, deadline)
            && is_stored(index, pass, round.saturating_add(1), deadline)
        {
            self.done = self.done.saturating_add(1);
        }
        round < ROUNDS
    }
}

// Stores a deadline under a key, at a moment before it.
fn is_stored(index: &Index, pass: &mut Pass, number: u32, deadline: u32) -> bool
    requires { IsQuiet (board_of index.now) pass.old }
    ensures { IsQuiet (board_of index.now) pass.new }
{
    let (Some(key), Some(value)) = (key_of(number), value_of(deadline)) else {
        return false;
    };
    set(index, pass, &key, &value, deadline.saturating_sub(1)) == WriteAnswer::Stored
}

// How a reader reads.
#[derive(Clone, Copy)]
enum Way {
    Get,
    Gets,
    Hold,
}

// Reads the keys in turn, at moments that rise up to the last deadline.
// The reader keeps whether each value was read at a moment before the deadline that the value tells.
#[derive(Drop)]
struct Reader {
    way: Way,
    now: u32,
    is_well: bool,
}

impl Work for Reader {
    fn turn(&mut self, index: &Index, pass: &mut Pass, turn: u32) -> bool {
        match read(index, pass, self.way, turn, self.now) {
            Some(value) => self.note(number_of(&value)),
            None => yield_now(),
        }
        self.now < LAST_DEADLINE
    }
}

impl Reader {
    fn new(way: Way) -> Reader {
        Reader {
            way,
            now: 0,
            is_well: true,
        }
    }

    // Takes note of the deadline that a value tells.
    // The next moment is a later one, and no more than two before that deadline.
    fn note(&mut self, told: Option<u32>) {
        let Some(deadline) = told else {
            self.is_well = false;
            return;
        };
        self.is_well = self.is_well && self.now < deadline;
        self.now = self.now.saturating_add(1).max(deadline.saturating_sub(2));
    }
}

// The value of a key at a moment, if it is read.
fn read(index: &Index, pass: &mut Pass, way: Way, turn: u32, now: u32) -> Option<Value>
    requires { IsQuiet (board_of index.now) pass.old }
    ensures { IsQuiet (board_of index.now) pass.new }
{
    let key = key_of(turn)?;
    match way {
        Way::Get => match get(index, pass, &key, turn, now) {
            GetAnswer::Found(value) => Some(value),
            GetAnswer::Miss | GetAnswer::Busy => None,
        },
        Way::Gets => match gets(index, pass, &key, turn, now) {
            GetsAnswer::Found(value, _version) => Some(value),
            GetsAnswer::Miss | GetsAnswer::Busy => None,
        },
        Way::Hold => {
            let hold = hold(index, pass, &key, now)?;
            let value = held_value(index, pass, &hold);
            release(index, pass, hold);
            Some(value)
        }
    }
}

#[test]
fn nothing_is_read_past_its_deadline(rt: HostRuntime) {
    let shape = Shape {
        passes: 4,
        segments_each: SEGMENTS,
        ..SHAPE
    };
    let (index, p0, p1, p2, p3) = four_passes(&rt, shape);
    let ((mut p0, writer), (mut p1, first), (_, second), (_, third)) = four_at_once(
        &rt,
        &index,
        (
            (p0, Writer { round: 0, done: 0 }),
            (p1, Reader::new(Way::Get)),
        ),
        ((p2, Reader::new(Way::Gets)), (p3, Reader::new(Way::Hold))),
    );
    same(&rt, &writer.done, &ROUNDS);
    same(
        &rt,
        &[first.is_well, second.is_well, third.is_well],
        &[true; 3],
    );
    // What the last three rounds left: one key in each of the first two, and two in the last.
    let script = "
        p0 get c @3991 -> VALUE 3992
        p1 get c @3992 -> MISS
        p1 get d @3995 -> VALUE 3996
        p0 get d @3996 -> MISS
        p1 get a @3999 -> VALUE 4000
        p1 get b @3999 -> VALUE 4000
        p1 get b @4000 -> MISS
        p0 evict 1 -> EVICTED 2
    ";
    answers(&rt, &index, &mut p0, &mut p1, script);
}
