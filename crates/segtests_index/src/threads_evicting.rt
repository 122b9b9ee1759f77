//! A segment that is emptied and filled again and again beside passes that hold what is stored
//! there: a held value stays whole.
//! Each round's deadline is one past its number, and its moments are its number.
ghost use Rattle.segindex.specs.Words.{board_of};
ghost use Rattle.segstore.specs.Words.{IsQuiet};

use crate::calls::{evict, refill, set};
use crate::digits::{number_of, value_of};
use crate::holds::{held_value, hold, release};
use crate::passes::{SHAPE, three_passes};
use crate::same::same;
use crate::work::{Work, three_at_once};
use segindex::{Index, Pass};
use segmodel::{EvictAnswer, RefillAnswer, WriteAnswer};
use segword::{Key, Shape, Value};
use std::thread::yield_now;

const ROUNDS: u32 = 1_000;

// The round of a value that is that of one of the rounds.
fn round_of(value: &Value) -> Option<u32> {
    number_of(value).filter(|round| (1..=ROUNDS).contains(round))
}

// In each round the writer stores the round's number under the key, alone in segment 0, and takes it out again.
// The writer counts the rounds that went well.
#[derive(Drop)]
struct Writer<'a> {
    key: &'a Key,
    round: u32,
    done: u32,
}

impl Work for Writer<'_> {
    fn turn(&mut self, index: &Index, pass: &mut Pass, _turn: u32) -> bool {
        let round = self.round.saturating_add(1);
        if refill(index, pass, 0, round.saturating_add(1)) == RefillAnswer::Held {
            yield_now();
            return true;
        }
        self.round = round;
        if store_once(index, pass, self.key, round) {
            self.done = self.done.saturating_add(1);
        }
        self.round < ROUNDS
    }
}

// One round in segment 0, at the moment of its number.
fn store_once(index: &Index, pass: &mut Pass, key: &Key, round: u32) -> bool
    requires { IsQuiet (board_of index.now) pass.old }
    ensures { IsQuiet (board_of index.now) pass.new }
{
    let Some(value) = value_of(round) else {
        return false;
    };
    set(index, pass, key, &value, round) == WriteAnswer::Stored
        && evict(index, pass, 0) == EvictAnswer::Evicted(1)
}

// Holds the key as often as there are rounds, and counts how often that went well.
// The holder's moments are the last round that it held and, each second time, the one after that.
#[derive(Drop)]
struct Holder<'a> {
    key: &'a Key,
    round: u32,
    well: u32,
}

impl Work for Holder<'_> {
    fn turn(&mut self, index: &Index, pass: &mut Pass, turn: u32) -> bool {
        let now = self.round.saturating_add(turn % 2);
        if let Some(round) = hold_once(index, pass, self.key, now) {
            self.well = self.well.saturating_add(1);
            self.round = self.round.max(round);
        }
        turn < ROUNDS - 1
    }
}

impl<'a> Holder<'a> {
    fn new(key: &'a Key) -> Holder<'a> {
        Holder {
            key,
            round: 0,
            well: 0,
        }
    }
}

// Holds the key at a moment, and reads the held value twice.
// Returns the round of the value, if both reads gave the same one, of a round not before the moment.
// If the hold was refused, the pass must hold nothing, and the round is 0.
fn hold_once(index: &Index, pass: &mut Pass, key: &Key, now: u32) -> Option<u32>
    requires { IsQuiet (board_of index.now) pass.old }
    ensures { IsQuiet (board_of index.now) pass.new }
{
    let Some(hold) = hold(index, pass, key, now) else {
        return (!pass.is_holding()).then_some(0);
    };
    let first = held_value(index, pass, &hold);
    let second = held_value(index, pass, &hold);
    release(index, pass, hold);
    let round = round_of(&first)?;
    (first == second && now <= round).then_some(round)
}

#[test]
fn held_values_outlive_evictions(rt: HostRuntime) {
    let shape = Shape {
        passes: 3,
        rows: 2,
        ..SHAPE
    };
    let (index, first, second, third) = three_passes(&rt, shape);
    let key = Key::new(b"a").expect(&rt, "a key");
    let writer = Writer {
        key: &key,
        round: 0,
        done: 0,
    };
    let ((_, writer), (_, holder), (_, other)) = three_at_once(
        &rt,
        &index,
        (first, writer),
        (second, Holder::new(&key)),
        (third, Holder::new(&key)),
    );
    same(&rt, &[writer.done, holder.well, other.well], &[ROUNDS; 3]);
}
