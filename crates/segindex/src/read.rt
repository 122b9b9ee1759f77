//! The calls that read values and hold items. None of them sets a bucket's bit.
ghost use Rattle.std.specs.Prelude.{◌≡◌, ◌≤◌, take};

use crate::index::Index;
use segbase::Pass;
use segmodel::{GetAnswer, GetsAnswer};
use segread::{GetsIntoAnswer, Hold, HoldAnswer, IntoAnswer, never_short};
use segword::{Key, VALUE_BYTES, Value};

impl Index {
    ghost use Rattle.segstore.specs.Words.{IsQuiet};
    ghost use Rattle.segread.specs.Words.{HoldsItem, IsHoldOf, ReadsHeld, ReadsHeldInto, ReadsInto};
    ghost use Rattle.segread.specs.Words.{ReadsKey, ReadsVersion, ReadsVersionInto, ReleasesHold};
    ghost use Rattle.segindex.specs.Index.{board_of, shape_of};

    /// The value under a key at a moment.
    /// A hit raises the frequency of the key's item if the draw, a random number, counts.
    #[inline(always)]
    pub fn get(&self, pass: &mut Pass, key: &Key, draw: u32, now: u32) -> GetAnswer
        requires pass { IsQuiet (board_of self.now) pass.old }
        ensures reads { ReadsKey (board_of self.now) key.now draw now result pass.old pass.new }
    {
        let mut room = [0; VALUE_BYTES];
        never_short();
        let told = self.get_into(pass, key, draw, now, &mut room);
        match told {
            IntoAnswer::Found(length) => GetAnswer::Found(value_of(&room, length)),
            IntoAnswer::Short(_) => unreachable!(),
            IntoAnswer::Miss => GetAnswer::Miss,
            IntoAnswer::Busy => GetAnswer::Busy,
        }
    }

    /// The value under a key at a moment, as `get` reads it, but it goes to the front of a buffer.
    /// What is behind the value stays as it was, and so does a buffer that is too short.
    #[inline(always)]
    pub fn get_into(
        &self,
        pass: &mut Pass,
        key: &Key,
        draw: u32,
        now: u32,
        bytes: &mut [u8],
    ) -> IntoAnswer
        requires pass { IsQuiet (board_of self.now) pass.old }
        ensures reads { ReadsInto (board_of self.now) key.now draw now result bytes.old bytes.new
            pass.old pass.new }
    {
        segread::get_into(&self.board, pass, key, draw, now, bytes)
    }

    /// The value under a key at a moment, with the version of the key's bucket,
    /// for a later compare-and-swap.
    /// It is Busy if the key is present and this pass holds the lock of its bucket.
    /// A hit raises the frequency of the key's item if the draw, a random number, counts.
    pub fn gets(&self, pass: &mut Pass, key: &Key, draw: u32, now: u32) -> GetsAnswer
        requires pass { IsQuiet (board_of self.now) pass.old }
        ensures reads { ReadsVersion (board_of self.now) key.now draw now result
            pass.old pass.new }
    {
        let mut room = [0; VALUE_BYTES];
        never_short();
        let told = self.gets_into(pass, key, draw, now, &mut room);
        match told {
            GetsIntoAnswer::Found(length, version) => {
                GetsAnswer::Found(value_of(&room, length), version)
            }
            GetsIntoAnswer::Short(..) => unreachable!(),
            GetsIntoAnswer::Miss => GetsAnswer::Miss,
            GetsIntoAnswer::Busy => GetsAnswer::Busy,
        }
    }

    /// The value under a key with the version of its bucket, as `gets` reads them, but the value goes
    /// to the front of a buffer. What is behind the value stays as it was, and so does a buffer that
    /// is too short.
    #[inline(always)]
    pub fn gets_into(
        &self,
        pass: &mut Pass,
        key: &Key,
        draw: u32,
        now: u32,
        bytes: &mut [u8],
    ) -> GetsIntoAnswer
        requires pass { IsQuiet (board_of self.now) pass.old }
        ensures reads { ReadsVersionInto (board_of self.now) key.now draw now result
            bytes.old bytes.new pass.old pass.new }
    {
        segread::gets_into(&self.board, pass, key, draw, now, bytes)
    }

    /// Holds the item of a key at a moment. Its value can be read until the hold is released.
    /// A pass holds one item at most. No frequency changes.
    pub fn hold<'i>(&'i self, pass: &mut Pass, key: &Key, now: u32) -> HoldAnswer<'i>
        requires pass { IsQuiet (board_of self.now) pass.old }
        ensures holds { HoldsItem (board_of self.now) key.now now result pass.old pass.new }
    {
        segread::hold_item(&self.board, pass, key, now)
    }

    /// The value that is held: the one that stood under the key when it was held.
    pub fn held_value(&self, pass: &mut Pass, hold: &Hold<'_>) -> Value
        requires pass { IsQuiet (board_of self.now) pass.old }
        requires hold { IsHoldOf (shape_of self.now) hold.now pass.old }
        ensures reads { ReadsHeld (board_of self.now) hold.now result pass.old pass.new }
    {
        let mut room = [0; VALUE_BYTES];
        never_short();
        let told = self.held_into(pass, hold, &mut room);
        match told {
            Ok(length) => value_of(&room, length),
            Err(_) => unreachable!(),
        }
    }

    /// The value that is held goes to the front of a buffer. Returns its length: as an error if the
    /// buffer is too short, and then it is as it was.
    #[inline(always)]
    pub fn held_into(
        &self,
        pass: &mut Pass,
        hold: &Hold<'_>,
        bytes: &mut [u8],
    ) -> Result<usize, usize>
        requires pass { IsQuiet (board_of self.now) pass.old }
        requires hold { IsHoldOf (shape_of self.now) hold.now pass.old }
        ensures reads { ReadsHeldInto (board_of self.now) hold.now result bytes.old bytes.new
            pass.old pass.new }
    {
        segread::held_into(&self.board, pass, hold, bytes)
    }

    /// Ends a hold. Until then the segment of the held item isn't refilled.
    pub fn release(&self, pass: &mut Pass, hold: Hold<'_>)
        requires pass { IsQuiet (board_of self.now) pass.old }
        requires hold { IsHoldOf (shape_of self.now) hold pass.old }
        ensures releases { ReleasesHold (board_of self.now) pass.old pass.new }
    {
        segread::release(&self.board, pass, hold);
    }
}

// The value at the front of a buffer.
#[inline(always)]
pub(crate) fn value_of(room: &[u8; VALUE_BYTES], length: usize) -> Value
    requires fits { length ≤ VALUE_BYTES }
    ensures value { result ≡ take length room.now }
{
    Value::new(&room[..length]).unwrap()
}
