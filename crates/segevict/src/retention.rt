//! Items kept over an eviction to come: those of a segment that were read often
//! are moved into the segment that the pass stores into.
ghost use Rattle.std.specs.Prelude.{◌≡◌, ◌≢◌, ℕ, ◌-◌, MatchOption, Some, true, false};
ghost use Rattle.segmodel.specs.declared.answer.SegState.TheVariants.{InUse};
ghost use Rattle.segcore.specs.Words.{Slot, span_in};
ghost use Rattle.segbase.specs.Words.{deadline_of, IsPassOf, state_of, trace};
ghost use Rattle.segstore.specs.Words.{HasCleanBit, IsQuiet, KeepsSegments, TakesAtMost};
ghost use Rattle.segwrite.specs.Words.{most_tries_to_exchange};
ghost use Rattle.segevict.specs.Keeping.{KeepsItems};
ghost use Rattle.segevict.specs.Moving.{KeepsRow, MovesRow};
ghost use Rattle.segevict.specs.OneRow.{KeepsItem, KeepsItemInto};
ghost use Rattle.segevict.specs.Relinking.{HasRelinked, Relinks, TriesToRelink};
ghost use Rattle.segevict.specs.Rows.{IsStoredIn, IsUsedRow};
ghost use Rattle.segevict.specs.Steps.{most_steps_of_keep_row, most_steps_to_move};
ghost use Rattle.segevict.specs.Target.{AreNextIn, has_rows_in, IsKeepTarget, IsMoveTarget};

use crate::row::{find_row, has_row};
use crate::spans::{item_at, rows_from};
use segbase::{Board, Pass};
use segmodel::{KeepAnswer, SegState};
use segstore::{RowRef, copy_row, span_of_row, take_to_write};
use segword::Item;
use segwrite::Target;

/// What became of the item of a row.
#[derive(Clone, Copy, Debug, PartialEq, Eq)]
pub enum KeepRowAnswer {
    /// The item was moved.
    Moved,
    /// The item was read too seldom, or doesn't stand there any more.
    Left,
    /// There is no segment to move the item into, or it has no row left.
    NoRoom,
    /// The bit of the item's bucket was found set at each try, or the pass itself has the bucket locked.
    Busy,
    /// The segment isn't one of the pass's own.
    NotYours,
    /// The segment isn't in use, or the row isn't one of its used rows.
    NotUsed,
}

/// Moves the items of a segment of the pass's own whose frequency is the cutoff or over it
/// into the pass's current segment. If no other segment with the same deadline is current,
/// the keep is NoRoom(0). If it is NoRoom or Busy, what was moved stays moved,
/// and another keep goes on.
pub fn keep(board: &Board, pass: &mut Pass, segment: u32, cutoff: u8) -> KeepAnswer
    requires quiet { IsQuiet board.now pass.old }
    ensures keeps { KeepsItems board.now segment cutoff result pass.old pass.new }
{
    let Some(state) = pass.state(segment) else {
        return KeepAnswer::NotYours;
    };
    if state != SegState::InUse {
        return KeepAnswer::Kept(0);
    }
    match keep_target(pass, segment) {
        Some(into) => keep_rows(board, pass, segment, into, cutoff),
        None => KeepAnswer::NoRoom(0),
    }
}

// Moves the items of the rows of a segment, item after item.
fn keep_rows(board: &Board, pass: &mut Pass, segment: u32, into: u32, cutoff: u8) -> KeepAnswer
    requires quiet { IsQuiet board.now pass.old }
    requires in_use { state_of pass.old segment ≡ Some InUse }
    requires target { IsKeepTarget segment into pass.old }
    ensures keeps { KeepsItems board.now segment cutoff result pass.old pass.new }
{
    let used = pass.used(segment).unwrap();
    let mut kept = 0;
    let mut row = 0;
    while row < used {
        match keep_used_row(board, pass, RowRef { segment, row }, into, cutoff) {
            KeepRowAnswer::Moved => kept += 1,
            KeepRowAnswer::Left => {}
            KeepRowAnswer::NoRoom => return KeepAnswer::NoRoom(kept),
            KeepRowAnswer::Busy => return KeepAnswer::Busy(kept),
            KeepRowAnswer::NotYours | KeepRowAnswer::NotUsed => unreachable!(),
        }
        row += rows_from(board, pass, segment, row);
    }
    KeepAnswer::Kept(kept)
}

/// Moves the item of one row of a segment of the pass's own, as a keep does with each row:
/// if its frequency is the cutoff or over it, into the pass's current segment.
pub fn keep_row(board: &Board, pass: &mut Pass, segment: u32, row: u32, cutoff: u8) -> KeepRowAnswer
    requires quiet { IsQuiet board.now pass.old }
    ensures keeps { KeepsItem board.now segment row cutoff result pass.old pass.new }
{
    if pass.state(segment).is_none() {
        return KeepRowAnswer::NotYours;
    }
    if !has_row(pass, segment, row) {
        return KeepRowAnswer::NotUsed;
    }
    match keep_target(pass, segment) {
        Some(into) => keep_used_row(board, pass, RowRef { segment, row }, into, cutoff),
        None => KeepRowAnswer::NoRoom,
    }
}

/// Moves the item of one row so into the segment that the caller names.
/// That is another segment in use of the pass's own, with the same deadline. Any other is NoRoom.
pub fn keep_row_into(
    board: &Board,
    pass: &mut Pass,
    row: RowRef,
    cutoff: u8,
    into: u32,
) -> KeepRowAnswer
    requires quiet { IsQuiet board.now pass.old }
    ensures keeps { KeepsItemInto board.now row.segment row.row cutoff into result
        pass.old pass.new }
{
    if pass.state(row.segment).is_none() {
        return KeepRowAnswer::NotYours;
    }
    if !has_row(pass, row.segment, row.row) {
        return KeepRowAnswer::NotUsed;
    }
    if !is_move_target(pass, row.segment, into) {
        return KeepRowAnswer::NoRoom;
    }
    keep_used_row(board, pass, row, into, cutoff)
}

// Whether items of a segment can be moved into this one.
fn is_move_target(pass: &Pass, segment: u32, into: u32) -> bool
    ensures yes { result ≡ true → IsMoveTarget segment into pass.now }
    ensures no { result ≡ false → ¬ (IsMoveTarget segment into pass.now) }
{
    pass.state(into) == Some(SegState::InUse) && is_alike(pass, segment, into)
}

// Whether they are two segments, with the same deadline.
fn is_alike(pass: &Pass, segment: u32, into: u32) -> bool
    ensures yes { result ≡ true → (segment ≢ into)
        × (deadline_of pass.now segment ≡ deadline_of pass.now into) }
    ensures no { result ≡ false → ¬ ((segment ≢ into)
        × (deadline_of pass.now segment ≡ deadline_of pass.now into)) }
{
    into != segment && pass.deadline(into) == pass.deadline(segment)
}

// The current segment, if items of this one can be moved into it.
fn keep_target(pass: &Pass, segment: u32) -> Option<u32>
    ensures target { MatchOption result ((into : ℕ) → ¬ (IsKeepTarget segment into pass.now))
        (λ into. IsKeepTarget segment into pass.now) }
{
    let into = pass.current()?;
    is_alike(pass, segment, into).then_some(into)
}

// Moves the item of a used row into this segment, if it was read often enough.
// The bit of the item's bucket is taken only then.
fn keep_used_row(
    board: &Board,
    pass: &mut Pass,
    row: RowRef,
    into: u32,
    cutoff: u8,
) -> KeepRowAnswer
    requires quiet { IsQuiet board.now pass.old }
    requires used { IsUsedRow row.segment row.row pass.old }
    requires target { IsMoveTarget row.segment into pass.old }
    ensures keeps { KeepsRow board.now row.segment row.row into cutoff result pass.old pass.new }
    ensures steps { TakesAtMost (most_steps_of_keep_row result - 1) pass.old pass.new }
{
    let Some((bucket, item)) = item_at(board, pass, row.segment, row.row) else {
        return KeepRowAnswer::Left;
    };
    // Nobody writes the item's rows while a word names it: the number stays so up to the move.
    let rows = rows_from(board, pass, row.segment, row.row);
    let Some(seen) = find_row(board, pass, bucket, item) else {
        return KeepRowAnswer::Left;
    };
    if Item::unpack(seen.word).unwrap().freq < cutoff {
        return KeepRowAnswer::Left;
    }
    let Some(next) = next_rows_in(board, pass, into, rows) else {
        return KeepRowAnswer::NoRoom;
    };
    if !take_to_write(board, pass, bucket) {
        return KeepRowAnswer::Busy;
    }
    let to = RowRef {
        segment: into,
        row: next,
    };
    let is_moved = move_rows(board, pass, bucket, item, to);
    board.release(pass, bucket, false);
    if is_moved {
        KeepRowAnswer::Moved
    } else {
        KeepRowAnswer::Left
    }
}

// The first row of a segment that isn't used, if so many rows are left.
fn next_rows_in(board: &Board, pass: &Pass, segment: u32, rows: u32) -> Option<u32>
    ensures next { MatchOption result (has_rows_in board.now.shape segment rows pass.now ≡ false)
        (λ row. AreNextIn board.now segment row rows pass.now) }
{
    let used = pass.used(segment)?;
    let last = board.shape().rows.checked_sub(rows)?;
    (used <= last).then_some(used)
}

// Moves the item of a row into the rows of another segment from this one on, under the bit of its
// bucket. Returns false if no word names the row any more.
fn move_rows(board: &Board, pass: &mut Pass, bucket: u32, item: Item, to: RowRef) -> bool
    requires pass { IsPassOf board.now pass.old }
    requires segments { KeepsSegments board.now pass.old }
    requires stored { IsStoredIn board.now bucket item pass.old }
    requires bit { HasCleanBit board.now pass.old bucket }
    requires target { IsMoveTarget item.seg to.segment pass.old }
    requires next { AreNextIn board.now to.segment to.row
        (span_in (trace pass.old) item.seg item.row) pass.old }
    ensures moves { MovesRow board.now bucket item to.segment to.row result pass.old pass.new }
    ensures steps { TakesAtMost (most_steps_to_move result) pass.old pass.new }
{
    let Some(target) = find_row(board, pass, bucket, item) else {
        return false;
    };
    let from = RowRef {
        segment: item.seg,
        row: item.row,
    };
    copy_row(board, pass, from, to);
    let rows = span_of_row(board, pass, to);
    relink(board, pass, target, to);
    pass.set_used(to.segment, to.row + rows);
    true
}

// Lets the item of a word name another row, under the bit of its bucket.
// If a hit raises the item's frequency meanwhile, the exchange is tried again with the higher one.
fn relink(board: &Board, pass: &mut Pass, target: Target, to: RowRef)
    ghost named: { Slot }
    requires pass { IsPassOf board.now pass.old }
    requires relinks { Relinks board.now named to.segment to.row target.place target.word
        pass.old }
    ensures relinks { HasRelinked board.now named to.segment to.row target.place
        pass.old pass.new }
    ensures steps { TakesAtMost most_tries_to_exchange pass.old pass.new }
{
    let mut old = target.word;
    while let Err(found) = try_to_relink(
        board,
        pass,
        Target {
            word: old,
            ..target
        },
        to,
    ) {
        old = found;
    }
}

// Lets the item of a place name another row if this word still stands there.
// `Err` has the word that stands there instead.
fn try_to_relink(board: &Board, pass: &mut Pass, target: Target, to: RowRef) -> Result<(), u64>
    ghost named: { Slot }
    requires pass { IsPassOf board.now pass.old }
    requires relinks { Relinks board.now named to.segment to.row target.place target.word
        pass.old }
    ensures tries { TriesToRelink board.now named to.segment to.row target.place target.word result
        pass.old pass.new }
    ensures steps { TakesAtMost 1 pass.old pass.new }
{
    let seen = Item::unpack(target.word).unwrap();
    let item = Item {
        tag: seen.tag,
        freq: seen.freq,
        seg: to.segment,
        row: to.row,
    };
    board.move_item(pass, target.place, target.word, item)
}
