//! Items that move beside passes that read and write their keys:
//! no key is ever missed, and no version counts a move.
ghost use Rattle.segindex.specs.Words.{board_of};
ghost use Rattle.segstore.specs.Words.{IsQuiet};

use crate::calls::{MOMENT, evict, get, gets, keep, refill, set};
use crate::digits::value_of;
use crate::passes::{SHAPE, four_passes};
use crate::same::same;
use crate::tables::answers;
use crate::work::{Work, four_at_once};
use segindex::{Index, Pass};
use segmodel::{EvictAnswer, GetAnswer, GetsAnswer, KeepAnswer, RefillAnswer, WriteAnswer};
use segword::{Key, Shape};
use std::thread::yield_now;

// How many rounds each mover makes at least.
const ROUNDS: u32 = 1_000;

// How often a mover tries what another pass may bar that has no processor.
const PATIENCE: u32 = 1 << 22;

// How often each reader reads.
const READS: u32 = 20_000;

const SEGMENTS: u32 = 2;

const KEYS: u32 = 4;

// The keys a, b, c and d, again and again.
fn key_of(number: u32) -> Option<Key> {
    Key::new(&[b'a' + (number % KEYS) as u8])
}

// In each round the mover sets a key, and then fills its other segment.
// It moves all items there, and evicts what is left in the first segment, which is nothing.
// It goes on after its rounds until items were moved. On a busy machine the other mover may lose
// its processor in the middle of a write, and bars each set of this one meanwhile.
#[derive(Drop)]
struct Mover {
    rounds: u32,
    // How many sets were Stored.
    stored: u32,
    // How many items were moved.
    moved: u32,
    // How many keys were evicted, or could not be moved.
    lost: u32,
}

impl Work for Mover {
    fn turn(&mut self, index: &Index, pass: &mut Pass, turn: u32) -> bool {
        if is_stored(index, pass, turn) {
            self.stored = self.stored.saturating_add(1);
        } else {
            yield_now();
        }
        self.change_segments(index, pass);
        self.lost == 0 && (self.rounds < ROUNDS || (self.moved == 0 && turn < PATIENCE))
    }
}

impl Mover {
    const NEW: Mover = Mover {
        rounds: 0,
        stored: 0,
        moved: 0,
        lost: 0,
    };

    // Fills the other segment, if no reader is left in it.
    fn change_segments(&mut self, index: &Index, pass: &mut Pass)
        requires { IsQuiet (board_of index.now) pass.old }
        ensures { IsQuiet (board_of index.now) pass.new }
    {
        let Some(segment) = pass.current() else {
            return;
        };
        let other = segment ^ 1;
        if refill(index, pass, other, u32::MAX) != RefillAnswer::Refilled {
            yield_now();
            return;
        }
        self.rounds = self.rounds.saturating_add(1);
        let Some(moved) = keep_all(index, pass, segment) else {
            self.lost = KEYS;
            return;
        };
        self.moved = self.moved.saturating_add(moved);
        self.lost = match evict(index, pass, segment) {
            EvictAnswer::Evicted(keys) => keys,
            EvictAnswer::Busy(_) | EvictAnswer::NotYours => KEYS,
        };
    }

    // Whether items were moved, and no key was lost.
    fn is_well(&self) -> bool {
        self.moved > 0 && self.lost == 0
    }
}

// Moves all items of a segment into the current one, and counts them, if none is left.
fn keep_all(index: &Index, pass: &mut Pass, segment: u32) -> Option<u32>
    requires { IsQuiet (board_of index.now) pass.old }
    ensures { IsQuiet (board_of index.now) pass.new }
{
    let mut moved = 0u32;
    for _ in 0..PATIENCE {
        match keep(index, pass, segment, 0) {
            KeepAnswer::Busy(items) => moved = moved.saturating_add(items),
            KeepAnswer::Kept(items) => return Some(moved.saturating_add(items)),
            KeepAnswer::NoRoom(_) | KeepAnswer::NotYours => return None,
        }
        yield_now();
    }
    None
}

// Sets a key to a number.
fn is_stored(index: &Index, pass: &mut Pass, number: u32) -> bool
    requires { IsQuiet (board_of index.now) pass.old }
    ensures { IsQuiet (board_of index.now) pass.new }
{
    let (Some(key), Some(value)) = (key_of(number), value_of(number)) else {
        return false;
    };
    set(index, pass, &key, &value, MOMENT) == WriteAnswer::Stored
}

// Reads the keys in turn, by get and by gets.
#[derive(Drop)]
struct Reader {
    found: u32,
    missed: u32,
    // The last version that the reader read, and whether none was lower than the one before.
    version: u32,
    is_rising: bool,
}

impl Work for Reader {
    fn turn(&mut self, index: &Index, pass: &mut Pass, turn: u32) -> bool {
        let Some(key) = key_of(turn) else {
            return false;
        };
        match get(index, pass, &key, turn, MOMENT) {
            GetAnswer::Found(_value) => self.found = self.found.saturating_add(1),
            GetAnswer::Miss => self.missed = self.missed.saturating_add(1),
            GetAnswer::Busy => yield_now(),
        }
        match gets(index, pass, &key, turn, MOMENT) {
            GetsAnswer::Found(_value, version) => {
                self.is_rising = self.is_rising && self.version <= version;
                self.version = version;
            }
            GetsAnswer::Miss => self.missed = self.missed.saturating_add(1),
            GetsAnswer::Busy => yield_now(),
        }
        turn < READS
    }
}

impl Reader {
    const NEW: Reader = Reader {
        found: 0,
        missed: 0,
        version: 0,
        is_rising: true,
    };

    // Whether keys were found and none was missed, and the versions rose.
    fn is_well(&self) -> bool {
        self.found > 0 && self.missed == 0 && self.is_rising
    }
}

// The version of the bucket.
fn version_of(index: &Index, pass: &mut Pass) -> Option<u32>
    requires { IsQuiet (board_of index.now) pass.old }
{
    match gets(index, pass, &key_of(0)?, 0, MOMENT) {
        GetsAnswer::Found(_value, version) => Some(version),
        GetsAnswer::Miss | GetsAnswer::Busy => None,
    }
}

#[test]
fn no_key_is_missed_while_items_move(rt: HostRuntime) {
    let shape = Shape {
        passes: 4,
        segments_each: SEGMENTS,
        rows: 8,
        ..SHAPE
    };
    let (index, mut p0, mut p1, p2, p3) = four_passes(&rt, shape);
    let script = "
        p0 refill 0 4294967295 -> REFILLED
        p1 refill 2 4294967295 -> REFILLED
        p0 set a 0 @0 -> STORED
        p0 set b 0 @0 -> STORED
        p0 set c 0 @0 -> STORED
        p0 set d 0 @0 -> STORED
    ";
    answers(&rt, &index, &mut p0, &mut p1, script);
    let ((mut p0, first), (_, second), (_, reader), (_, other)) = four_at_once(
        &rt,
        &index,
        ((p0, Mover::NEW), (p1, Mover::NEW)),
        ((p2, Reader::NEW), (p3, Reader::NEW)),
    );
    same(&rt, &(reader.is_well(), other.is_well()), &(true, true));
    same(&rt, &(first.is_well(), second.is_well()), &(true, true));
    // Four sets came before, and each Stored counts once; no move does.
    let version = first
        .stored
        .saturating_add(second.stored)
        .saturating_add(KEYS);
    same(&rt, &version_of(&index, &mut p0), &Some(version));
}
