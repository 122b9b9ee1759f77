//! Evictions: the keys that stand in a segment of the pass's own are taken out of it,
//! one after the other, all of them or those of some rows.
ghost use Rattle.std.specs.Prelude.{◌≡◌, ◌≢◌, ◌-◌, Some};
ghost use Rattle.segmodel.specs.declared.answer.SegState.TheVariants.{InUse};
ghost use Rattle.segmodel.specs.declared.answer.EvictAnswer.TheVariants.{NotYours};
ghost use Rattle.segbase.specs.Words.{current_of, IsPassOf, state_of};
ghost use Rattle.segstore.specs.Words.{GoesOn, HasCleanBit, IsQuiet, memo, TakesAtMost};
ghost use Rattle.segevict.specs.EvictedRow.{EvictsItem};
ghost use Rattle.segevict.specs.Evicting.{CostsOfEvict, ended, EvictsRest, EvictsSegment};
ghost use Rattle.segevict.specs.Evicting.{IsEvictAnswer};
ghost use Rattle.segevict.specs.Naming.{AreUnnamed};
ghost use Rattle.segevict.specs.Rows.{IsUsedRow, IsStoredIn};
ghost use Rattle.segevict.specs.Steps.{most_steps_of_evict_row, most_steps_to_clear};
ghost use Rattle.segevict.specs.Unlinking.{TakesRow, EvictsRow};

use crate::row::{find_row, has_row};
use crate::spans::{first_from, item_at, rows_from};
use segbase::{Board, Pass};
use segmodel::{EvictAnswer, SegState};
use segstore::take_to_write;
use segword::Item;
use segwrite::clear;

/// What became of the key of a row.
#[derive(Clone, Copy, Debug, PartialEq, Eq)]
pub enum EvictRowAnswer {
    /// The key was taken out of the segment.
    Evicted,
    /// No item names the row any more.
    Left,
    /// The bit of the key's bucket was found set at each try, or the pass itself has the bucket locked.
    Busy,
    /// The segment isn't one of the pass's own.
    NotYours,
    /// The segment isn't in use, or the row isn't one of its used rows.
    NotUsed,
}

// Lets the pass store nothing more into the segment.
fn end_storing(pass: &mut Pass, segment: u32)
    ensures { pass.new ≡ record pass.old { plain = ended segment pass.old.plain } }
{
    if pass.current() == Some(segment) {
        pass.set_current(None);
    }
}

/// Takes out every key that stands in a segment of the pass's own, so that it can be refilled.
/// Nothing is stored there from then on, even if the evict is Busy.
/// Then another evict takes out the keys that are left.
pub fn evict(board: &Board, pass: &mut Pass, segment: u32) -> EvictAnswer
    requires quiet { IsQuiet board.now pass.old }
    ensures evicts { EvictsSegment board.now segment result pass.old pass.new }
{
    evict_rest(board, pass, segment, 0)
}

/// Takes out the keys of a segment as an evict does, but goes over its rows from this one on.
/// No item names a row before it.
pub fn evict_rest(board: &Board, pass: &mut Pass, segment: u32, from: u32) -> EvictAnswer
    requires quiet { IsQuiet board.now pass.old }
    requires unnamed { AreUnnamed board.now.shape segment from pass.old }
    ensures evicts { EvictsRest board.now segment from result pass.old pass.new }
{
    let Some(state) = pass.state(segment) else {
        return EvictAnswer::NotYours;
    };
    if state != SegState::InUse {
        return EvictAnswer::Evicted(0);
    }
    end_storing(pass, segment);
    evict_rows(board, pass, segment, from)
}

// Takes out the keys of the rows from this one on.
// Nothing is stored in the segment any more.
fn evict_rows(board: &Board, pass: &mut Pass, segment: u32, from: u32) -> EvictAnswer
    requires quiet { IsQuiet board.now pass.old }
    requires in_use { state_of pass.old segment ≡ Some InUse }
    requires ended { current_of pass.old ≢ Some segment }
    requires unnamed { AreUnnamed board.now.shape segment from pass.old }
    ensures on { GoesOn board.now pass.old pass.new }
    ensures answer { IsEvictAnswer board.now.shape segment result pass.old pass.new }
    ensures costs { CostsOfEvict board.now segment from result pass.old pass.new }
    ensures yours { result ≢ NotYours }
{
    let used = pass.used(segment).unwrap();
    let mut evicted = 0;
    let mut row = first_from(board, pass, segment, from);
    while row < used {
        match evict_used_row(board, pass, segment, row) {
            EvictRowAnswer::Evicted => evicted += 1,
            EvictRowAnswer::Left => {}
            EvictRowAnswer::Busy => return EvictAnswer::Busy(evicted),
            EvictRowAnswer::NotYours | EvictRowAnswer::NotUsed => unreachable!(),
        }
        row += rows_from(board, pass, segment, row);
    }
    pass.set_state(segment, SegState::Evicted);
    EvictAnswer::Evicted(evicted)
}

/// Takes out the key of one row of a segment of the pass's own, as an evict does with each row.
/// The segment stays in use, and the row used. If it is current, it stays so.
pub fn evict_row(board: &Board, pass: &mut Pass, segment: u32, row: u32) -> EvictRowAnswer
    requires quiet { IsQuiet board.now pass.old }
    ensures evicts { EvictsItem board.now segment row result pass.old pass.new }
{
    if pass.state(segment).is_none() {
        return EvictRowAnswer::NotYours;
    }
    if !has_row(pass, segment, row) {
        return EvictRowAnswer::NotUsed;
    }
    evict_used_row(board, pass, segment, row)
}

// Takes out the key of a used row, if it stands there.
// The bit of the key's bucket is taken only then.
fn evict_used_row(board: &Board, pass: &mut Pass, segment: u32, row: u32) -> EvictRowAnswer
    requires quiet { IsQuiet board.now pass.old }
    requires used { IsUsedRow segment row pass.old }
    ensures evicts { EvictsRow board.now segment row result pass.old pass.new }
    ensures steps { TakesAtMost (most_steps_of_evict_row result - 1) pass.old pass.new }
{
    let Some((bucket, item)) = item_at(board, pass, segment, row) else {
        return EvictRowAnswer::Left;
    };
    if find_row(board, pass, bucket, item).is_none() {
        return EvictRowAnswer::Left;
    }
    if !take_to_write(board, pass, bucket) {
        return EvictRowAnswer::Busy;
    }
    let is_evicted = clear_row(board, pass, bucket, item);
    board.release(pass, bucket, false);
    if is_evicted {
        EvictRowAnswer::Evicted
    } else {
        EvictRowAnswer::Left
    }
}

// Clears the word that names the row of an item, under the bit of its bucket.
// Returns false if no word names the row.
fn clear_row(board: &Board, pass: &mut Pass, bucket: u32, item: Item) -> bool
    requires pass { IsPassOf board.now pass.old }
    requires stored { IsStoredIn board.now bucket item pass.old }
    requires bit { HasCleanBit board.now pass.old bucket }
    ensures takes { TakesRow board.now bucket item result pass.old pass.new }
    ensures steps { TakesAtMost (most_steps_to_clear result) pass.old pass.new }
    ensures same { (pass.new.plain ≡ pass.old.plain) × (memo pass.new ≡ memo pass.old) }
{
    let Some(target) = find_row(board, pass, bucket, item) else {
        return false;
    };
    clear(board, pass, target);
    true
}
