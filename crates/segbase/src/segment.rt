//! Steps at segments: their rows, and who reads in them.
ghost use Rattle.std.specs.Prelude.{◌≡◌, ℕ, ◌+◌, ◌-◌, ◌*◌, ◌^◌, ◌≤◌, [], IsSome, Some};
ghost use Rattle.segmodel.specs.Words.{after};
ghost use Rattle.segcore.specs.declared.event.Event.TheVariants.{Filled, Entered, Left};
ghost use Rattle.segcore.specs.Words.{enter, IsCell, leave, none_reading, row_after, row_load};
ghost use Rattle.segcore.specs.Words.{row_store};
ghost use Rattle.segcore.specs.declared.cell.Cell.TheVariants.{OfRow};
ghost use Rattle.segbase.specs.Spots.{IsRowAt};

use crate::board::Board;
use crate::pass::Pass;
use crate::place::{RowPlace, Spot};
use segword::{ROW_WORDS, SegmentWord};

// The word of a segment with this deadline in which nobody reads.
fn unread(deadline: u32) -> u64
    ensures { result ≡ deadline * 2 ^ 32 }
{
    let unread = SegmentWord {
        deadline,
        readers: 0,
    };
    unread.pack()
}

impl Board {
    ghost use Rattle.segbase.specs.Passes.{seen, trace, IsPassOf, AddsAtOnce, Stepped};
    ghost use Rattle.segbase.specs.PlainPart.{deadline_of};
    ghost use Rattle.segbase.specs.Steps.{AsksReaders, MayTake, TakesStep, AddsOne};

    /// Stores a word of a row of the pass's own that isn't linked in this filling.
    pub fn row_store(&self, pass: &mut Pass, segment: u32, row: u32, word: u8, value: u64)
        requires pass { IsPassOf self.now pass.old }
        requires may { MayTake self.now pass.old (row_store segment row word value) }
        ensures step { TakesStep self.now (row_store segment row word value) pass.old pass.new }
        ensures did { AddsOne self.now (λ n. Filled n segment row word value) pass.old pass.new }
    {
        let spot = Spot::Row { segment, row, word };
        self.store_at(pass, spot, value);
    }

    /// As `row_store`, for a row whose place is known.
    pub fn row_store_at(&self, pass: &mut Pass, row: RowPlace, word: u8, value: u64)
        requires pass { IsPassOf self.now pass.old }
        requires start { IsRowAt self.now.shape row }
        requires may { MayTake self.now pass.old (row_store row.segment row.row word value) }
        ensures step { TakesStep self.now (row_store row.segment row.row word value)
            pass.old pass.new }
        ensures did { AddsOne self.now (λ n. Filled n row.segment row.row word value)
            pass.old pass.new }
    {
        let RowPlace {
            segment,
            row,
            start,
        } = row;
        let spot = Spot::Row { segment, row, word };
        self.store_index(pass, spot, start + word as usize, value);
    }

    /// A word of a row that can't change: the row is the pass's own, or the pass is in its segment
    /// and it was linked in this filling, or a word of a bucket whose bit the pass has names it.
    pub fn row_load(&self, pass: &mut Pass, segment: u32, row: u32, word: u8) -> u64
        requires pass { IsPassOf self.now pass.old }
        requires may { MayTake self.now pass.old (row_load segment row word) }
        ensures step { Stepped self.now (row_load segment row word) result pass.old pass.new }
        ensures did { AddsAtOnce self.now [] pass.old pass.new }
        ensures word { result ≡ (row_after (trace pass.new) segment row).words word }
    {
        self.load_at(pass, Spot::Row { segment, row, word })
    }

    /// A row with the place at which its words begin, for several steps at one row.
    pub fn row_at(&self, segment: u32, row: u32) -> RowPlace
        requires row { IsCell self.now.shape (OfRow segment row 0) }
        ensures row { (result.segment ≡ segment) × (result.row ≡ row) }
        ensures start { IsRowAt self.now.shape result }
    {
        RowPlace {
            segment,
            row,
            start: self.index(Spot::Row {
                segment,
                row,
                word: 0,
            }),
        }
    }

    /// The row so many rows behind this one, in its segment.
    #[inline(always)]
    pub fn row_behind(&self, row: RowPlace, rows: u32) -> RowPlace
        requires start { IsRowAt self.now.shape row }
        requires row { IsCell self.now.shape (OfRow row.segment (row.row + rows) 0) }
        ensures row { (result.segment ≡ row.segment) × (result.row ≡ row.row + rows) }
        ensures start { IsRowAt self.now.shape result }
    {
        RowPlace {
            segment: row.segment,
            row: row.row + rows,
            start: row.start + ROW_WORDS * rows as usize,
        }
    }

    /// How many rows its segment has from this row on.
    #[inline(always)]
    pub fn rows_behind(&self, row: RowPlace) -> u32
        requires row { row.row ≤ self.now.shape.rows }
        ensures { result ≡ self.now.shape.rows - row.row }
    {
        self.shape.rows - row.row
    }

    /// As `row_load`, for a row whose place is known.
    pub fn row_load_at(&self, pass: &mut Pass, row: RowPlace, word: u8) -> u64
        requires pass { IsPassOf self.now pass.old }
        requires start { IsRowAt self.now.shape row }
        requires may { MayTake self.now pass.old (row_load row.segment row.row word) }
        ensures step { Stepped self.now (row_load row.segment row.row word) result
            pass.old pass.new }
        ensures did { AddsAtOnce self.now [] pass.old pass.new }
        ensures word { result ≡ (row_after (trace pass.new) row.segment row.row).words word }
    {
        let RowPlace {
            segment,
            row,
            start,
        } = row;
        let spot = Spot::Row { segment, row, word };
        self.load_index(pass, spot, start + word as usize)
    }

    /// One reader more. It returns the segment's deadline, which stays as long as the reader.
    pub fn enter(&self, pass: &mut Pass, segment: u32) -> u32
        requires pass { IsPassOf self.now pass.old }
        requires may { MayTake self.now pass.old (enter segment) }
        ensures step { TakesStep self.now (enter segment) pass.old pass.new }
        ensures did { AddsOne self.now (λ n. Entered n segment) pass.old pass.new }
        ensures deadline { result
            ≡ (after self.now.shape (seen pass.new)).deadline segment }
    {
        SegmentWord::unpack(self.add_at(pass, Spot::Segment(segment), 1)).deadline
    }

    /// One reader fewer.
    pub fn leave(&self, pass: &mut Pass, segment: u32)
        requires pass { IsPassOf self.now pass.old }
        requires may { MayTake self.now pass.old (leave segment) }
        ensures step { TakesStep self.now (leave segment) pass.old pass.new }
        ensures did { AddsOne self.now (λ n. Left n segment) pass.old pass.new }
    {
        self.add_at(pass, Spot::Segment(segment), u64::MAX);
    }

    /// Gives this deadline to a segment of the pass's own in which no key stands, if no reader is
    /// counted there, and returns whether. If so, its refilling enters the history.
    pub fn none_reading(&self, pass: &mut Pass, segment: u32, deadline: u32) -> bool
        requires pass { IsPassOf self.now pass.old }
        requires own { IsSome (deadline_of pass.old segment) }
        requires may { (old : ℕ) → deadline_of pass.old segment ≡ Some old
            → MayTake self.now pass.old (none_reading segment old deadline) }
        ensures { AsksReaders self.now segment deadline result pass.old pass.new }
    {
        let old = pass.deadline(segment).unwrap();
        let word = unread(old);
        if self.exchange_at(pass, Spot::Segment(segment), word, unread(deadline)) != word {
            return false;
        }
        pass.set_deadline(segment, deadline);
        true
    }
}
