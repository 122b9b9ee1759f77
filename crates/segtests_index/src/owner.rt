//! A caller's own structs, which keep a pass or a hold with what is so of it between calls.
ghost use Rattle.segindex.specs.Words.{board_of, shape_of};
ghost use Rattle.segstore.specs.Words.{IsQuiet, IsQuiet-prop};
ghost use Rattle.segread.specs.Words.{IsHoldOf, IsHoldOf-prop};

use crate::calls::{self, MOMENT};
use crate::holds::{held_value, hold, release};
use crate::passes::{SHAPE, two_passes};
use crate::same::same;
use crate::tables::served;
use segindex::{Hold, Index, Pass};
use segmodel::{GetAnswer, RefillAnswer, WriteAnswer};
use segword::{Key, Value};

/// An index with one of its passes.
/// Its calls ask for nothing, since the pass is quiet between them.
#[derive(Drop)]
pub struct Cache {
    pub index: Index,
    pub pass: Pass,
    pub ghost quiet: { IsQuiet (board_of index) pass } by { IsQuiet-prop (board_of index) pass },
}

impl Cache {
    pub fn refill(&mut self, segment: u32, deadline: u32) -> RefillAnswer {
        calls::refill(&self.index, &mut self.pass, segment, deadline)
    }

    pub fn set(&mut self, key: &Key, value: &Value, now: u32) -> WriteAnswer {
        calls::set(&self.index, &mut self.pass, key, value, now)
    }

    pub fn get(&mut self, key: &Key, now: u32) -> GetAnswer {
        calls::get(&self.index, &mut self.pass, key, 0, now)
    }
}

/// What a pass holds of an index.
/// The held value can be read as often as it is asked for, until the hold is released.
pub struct Holder<'i> {
    pub index: &'i Index,
    pub pass: Pass,
    pub hold: Hold<'i>,
    pub ghost quiet: { IsQuiet (board_of index.now) pass } by { IsQuiet-prop (board_of index.now) pass },
    pub ghost holds: { IsHoldOf (shape_of index.now) hold pass } by { IsHoldOf-prop (shape_of index.now) hold pass },
}

impl Holder<'_> {
    pub fn value(&mut self) -> Value {
        held_value(self.index, &mut self.pass, &self.hold)
    }

    pub fn release(self) {
        let Holder {
            index,
            mut pass,
            hold,
        } = self;
        release(index, &mut pass, hold);
    }
}

#[test]
fn a_cache_sets_and_gets(rt: HostRuntime) {
    let (index, pass, _) = two_passes(&rt, SHAPE);
    let mut cache = Cache { index, pass };
    let key = Key::new(b"a").expect(&rt, "a key");
    let value = Value::new(b"1").expect(&rt, "a value");
    let before = cache.get(&key, MOMENT);
    let refilled = cache.refill(0, u32::MAX);
    let stored = cache.set(&key, &value, MOMENT);
    let after = cache.get(&key, MOMENT);
    same(
        &rt,
        &(before, refilled),
        &(GetAnswer::Miss, RefillAnswer::Refilled),
    );
    same(
        &rt,
        &(stored, after),
        &(WriteAnswer::Stored, GetAnswer::Found(value)),
    );
}

// Holds the key, and reads the held value twice.
fn read_twice(index: &Index, mut pass: Pass, key: &Key) -> Option<(Value, Value)>
    requires { IsQuiet (board_of index.now) pass }
{
    let hold = hold(index, &mut pass, key, MOMENT)?;
    let mut holder = Holder { index, pass, hold };
    let twice = (holder.value(), holder.value());
    holder.release();
    Some(twice)
}

#[test]
fn a_holder_reads_its_value(rt: HostRuntime) {
    let script = "
        p0 refill 0 4294967295 -> REFILLED
        p0 set a 1 @0 -> STORED
    ";
    let (index, pass, _) = served(&rt, SHAPE, script);
    let key = Key::new(b"a").expect(&rt, "a key");
    let value = Value::new(b"1").expect(&rt, "a value");
    let twice = (value.copy(), value);
    same(&rt, &read_twice(&index, pass, &key), &Some(twice));
}
