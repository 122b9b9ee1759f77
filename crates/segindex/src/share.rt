//! A share of an index, for whoever keeps a hold where no borrow of the index can be.
ghost use Rattle.std.specs.Prelude.{◌≡◌, is_some, None};
ghost use Rattle.segstore.specs.Words.{IsQuiet};
ghost use Rattle.segread.specs.Words.{HoldsRow, IsKept};
ghost use Rattle.segindex.specs.Index.{board_of, shape_of};
ghost use Rattle.segindex.specs.Sharing.{ReadsKept, ReadsKeptInto, ReleasesKept};

use crate::index::Index;
use crate::read::value_of;
use segbase::Pass;
use segread::{HeldRow, RowAnswer, never_short};
use segword::{Key, VALUE_BYTES, Value};
use std::alloc::Global;
use std::sync::Arc;

/// A share of an index, and the item that a pass holds by it.
///
/// A share has to be spent by `into_index`, and only one by which nothing is held can be.
/// So the item is released first, and until then the index has an owner and isn't closed.
pub struct Share {
    index: Arc<Index, Global>,
    held: Option<HeldRow>,
}

impl Share {
    /// A share by which nothing is held.
    pub fn new(index: Arc<Index, Global>) -> Share
        ensures index { result.index ≡ index }
        ensures free { result.held ≡ None }
    {
        Share { index, held: None }
    }

    /// The index.
    #[inline(always)]
    pub fn index(&self) -> &Index
        ensures { result.now ≡ self.now.index.value }
    {
        &self.index
    }

    /// Holds the item of a key at a moment, as `Index::hold` does, and keeps it until `release`.
    pub fn hold(&mut self, pass: &mut Pass, key: &Key, now: u32) -> RowAnswer
        requires pass { IsQuiet (board_of self.old.index.value) pass.old }
        requires kept { IsKept (shape_of self.old.index.value) pass.old self.old.held }
        ensures index { self.new.index ≡ self.old.index }
        ensures kept { IsKept (shape_of self.old.index.value) pass.new self.new.held }
        ensures holds { HoldsRow (board_of self.old.index.value) key.now now result
            self.old.held self.new.held pass.old pass.new }
    {
        segread::hold_row(&self.index.board, pass, key, now, &mut self.held)
    }

    /// The value that is held, if one is: the one that stood under the key when it was held.
    pub fn held_value(&self, pass: &mut Pass) -> Option<Value>
        requires pass { IsQuiet (board_of self.now.index.value) pass.old }
        requires kept { IsKept (shape_of self.now.index.value) pass.old self.now.held }
        ensures reads { ReadsKept (board_of self.now.index.value) self.now.held result
            pass.old pass.new }
    {
        let row = self.held.as_ref()?;
        let mut room = [0; VALUE_BYTES];
        never_short();
        let told = segread::row_into(&self.index.board, pass, row, &mut room);
        match told {
            Ok(length) => Some(value_of(&room, length)),
            Err(_) => unreachable!(),
        }
    }

    /// The value that is held, as `held_value` reads it, but it goes to the front of a buffer.
    /// Returns its length, if one is held: as an error if the buffer is too short.
    #[inline(always)]
    pub fn held_into(&self, pass: &mut Pass, bytes: &mut [u8]) -> Option<Result<usize, usize>>
        requires pass { IsQuiet (board_of self.now.index.value) pass.old }
        requires kept { IsKept (shape_of self.now.index.value) pass.old self.now.held }
        ensures reads { ReadsKeptInto (board_of self.now.index.value) self.now.held result
            bytes.old bytes.new pass.old pass.new }
    {
        let row = self.held.as_ref()?;
        Some(segread::row_into(&self.index.board, pass, row, bytes))
    }

    /// Ends the hold, and says whether there was one.
    /// Until then the segment of the held item isn't refilled.
    pub fn release(&mut self, pass: &mut Pass) -> bool
        requires pass { IsQuiet (board_of self.old.index.value) pass.old }
        requires kept { IsKept (shape_of self.old.index.value) pass.old self.old.held }
        ensures index { self.new.index ≡ self.old.index }
        ensures free { self.new.held ≡ None }
        ensures was_held { result ≡ is_some self.old.held }
        ensures releases { ReleasesKept (board_of self.old.index.value) self.old.held
            pass.old pass.new }
    {
        let Some(row) = self.held.take() else {
            return false;
        };
        segread::release_row(&self.index.board, pass, row);
        true
    }

    /// Gives the index back, once nothing is held by this share.
    pub fn into_index(self) -> Arc<Index, Global>
        requires free { self.held ≡ None }
        ensures { result ≡ self.index }
    {
        let Share { index, held } = self;
        match held {
            None => index,
            Some(_row) => unreachable!(),
        }
    }
}
