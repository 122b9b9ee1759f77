//! The calls on segments: evict and keep, of all rows or of one, and refill. Beside them the look
//! for the row that an evict takes out of a full bucket.
use crate::index::Index;
use segbase::Pass;
use segevict::{EvictRowAnswer, KeepRowAnswer};
use segmodel::{EvictAnswer, KeepAnswer, RefillAnswer};
use segstore::RowRef;
use segword::Key;

impl Index {
    ghost use Rattle.segstore.specs.Words.{IsQuiet};
    ghost use Rattle.segevict.specs.Words.{AreUnnamed, EvictsItem, EvictsRest, EvictsSegment};
    ghost use Rattle.segevict.specs.Words.{FindsOwn};
    ghost use Rattle.segevict.specs.Words.{KeepsItem, KeepsItemInto, KeepsItems, TellsSpan};
    ghost use Rattle.segindex.specs.Index.{board_of, shape_of};
    ghost use Rattle.segindex.specs.Refilling.{RefillsAside, RefillsSegment};

    /// Takes every key out of a segment of the pass's own, so that it can be refilled.
    /// From then on nothing is stored there before a refill, even if the evict is Busy.
    /// After a Busy, another evict takes out the keys that are left.
    pub fn evict(&self, pass: &mut Pass, segment: u32) -> EvictAnswer
        requires quiet { IsQuiet (board_of self.now) pass.old }
        ensures evicts { EvictsSegment (board_of self.now) segment result pass.old pass.new }
    {
        segevict::evict(&self.board, pass, segment)
    }

    /// Takes the key of one row out of a segment of the pass's own, as an evict does with each row.
    /// The segment stays in use and the row used. A current segment stays current.
    /// After Evicted or Left no item names the row any more.
    pub fn evict_row(&self, pass: &mut Pass, segment: u32, row: u32) -> EvictRowAnswer
        requires quiet { IsQuiet (board_of self.now) pass.old }
        ensures evicts { EvictsItem (board_of self.now) segment row result pass.old pass.new }
    {
        segevict::evict_row(&self.board, pass, segment, row)
    }

    /// Looks along the chain of a key for an item in a segment of the pass's own that is in use, and
    /// returns its row. So a caller who found the bucket full knows which `evict_row` frees a word.
    /// It is an item that has expired at this moment, if there is one, and else one of the lowest
    /// frequency.
    pub fn own_to_evict(&self, pass: &mut Pass, key: &Key, now: u32) -> Option<RowRef>
        requires quiet { IsQuiet (board_of self.now) pass.old }
        ensures finds { FindsOwn (board_of self.now) result pass.old pass.new }
    {
        segevict::own_to_evict(&self.board, pass, key, now)
    }

    /// Takes out the keys of a segment as an evict does, but goes over its rows from this one on.
    /// No item names a row before it: for each, an `evict_row` was Evicted or Left,
    /// or a keep Moved, and the segment wasn't refilled since.
    pub fn evict_rest(&self, pass: &mut Pass, segment: u32, from: u32) -> EvictAnswer
        requires quiet { IsQuiet (board_of self.now) pass.old }
        requires unnamed { AreUnnamed (shape_of self.now) segment from pass.old }
        ensures evicts { EvictsRest (board_of self.now) segment from result pass.old pass.new }
    {
        segevict::evict_rest(&self.board, pass, segment, from)
    }

    /// Moves the items of a segment of the pass's own whose frequency is at least the cutoff.
    /// They go into another segment, the pass's current one, if both have the same deadline.
    /// If the keep is NoRoom or Busy, what was moved stays moved,
    /// and another keep goes on.
    pub fn keep(&self, pass: &mut Pass, segment: u32, cutoff: u8) -> KeepAnswer
        requires quiet { IsQuiet (board_of self.now) pass.old }
        ensures keeps { KeepsItems (board_of self.now) segment cutoff result pass.old pass.new }
    {
        segevict::keep(&self.board, pass, segment, cutoff)
    }

    /// Moves the item of one row of a segment of the pass's own, as a keep does with each row.
    /// So a caller can choose a cutoff for each row, and stop where it likes.
    /// If the answer is Moved, the item's new row is the last used one of the current segment.
    pub fn keep_row(&self, pass: &mut Pass, segment: u32, row: u32, cutoff: u8) -> KeepRowAnswer
        requires quiet { IsQuiet (board_of self.now) pass.old }
        ensures keeps { KeepsItem (board_of self.now) segment row cutoff result
            pass.old pass.new }
    {
        segevict::keep_row(&self.board, pass, segment, row, cutoff)
    }

    /// Moves the item of one row as `keep_row` does, but into a segment that the caller names:
    /// another one in use of the pass's own, with the same deadline. Any other is NoRoom.
    /// If the answer is Moved, the item's new row is the last used one of that segment.
    pub fn keep_row_into(
        &self,
        pass: &mut Pass,
        row: RowRef,
        cutoff: u8,
        into: u32,
    ) -> KeepRowAnswer
        requires quiet { IsQuiet (board_of self.now) pass.old }
        ensures keeps { KeepsItemInto (board_of self.now) row.segment row.row cutoff into result
            pass.old pass.new }
    {
        segevict::keep_row_into(&self.board, pass, row, cutoff, into)
    }

    /// How many rows the item takes whose first row this is, a used row of a segment of the pass's
    /// own. So a caller who goes over a segment's rows goes on behind the item. It is 1 at least,
    /// also for any other row.
    pub fn span_of(&self, pass: &mut Pass, segment: u32, row: u32) -> u32
        requires quiet { IsQuiet (board_of self.now) pass.old }
        ensures spans { TellsSpan (board_of self.now) segment row result pass.old pass.new }
    {
        segevict::span_of(&self.board, pass, segment, row)
    }

    /// Makes a segment of the pass's own the one that the pass stores into, up to a deadline.
    /// A segment that is in use is refused, and so is one of which an item is read or held.
    pub fn refill(&self, pass: &mut Pass, segment: u32, deadline: u32) -> RefillAnswer
        requires pass { IsQuiet (board_of self.now) pass.old }
        ensures refills { RefillsSegment (board_of self.now) segment deadline result
            pass.old pass.new }
    {
        segstore::refill(&self.board, pass, segment, deadline)
    }
    /// Refills a segment of the pass's own, and leaves the one that the pass stores into.
    /// So the refilled one can be filled by `keep_row_into`.
    pub fn refill_aside(&self, pass: &mut Pass, segment: u32, deadline: u32) -> RefillAnswer
        requires pass { IsQuiet (board_of self.now) pass.old }
        ensures refills { RefillsAside (board_of self.now) segment deadline result
            pass.old pass.new }
    {
        segstore::refill_aside(&self.board, pass, segment, deadline)
    }
}
