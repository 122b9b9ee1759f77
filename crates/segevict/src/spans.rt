//! Items of several rows: from the first row of an item on, the next one begins behind its last row.
ghost use Rattle.std.specs.Prelude.{◌≡◌, ℕ, ◌+◌, ◌≤◌, ◌<◌, IfSome, IsNone, Some};
ghost use Rattle.segword.specs.Words.{head_width};
ghost use Rattle.segcore.specs.Words.{RowGone, span_in};
ghost use Rattle.segbase.specs.Words.{trace, used_of};
ghost use Rattle.segstore.specs.Words.{Idles, IsQuiet, TakesAtMost};
ghost use Rattle.segevict.specs.Evicting.{LooksForFirst};
ghost use Rattle.segevict.specs.Naming.{AreUnnamed};
ghost use Rattle.segevict.specs.Rows.{IsStoredIn, IsUsedRow};
ghost use Rattle.segevict.specs.Spans.{IsFirstRow, TellsSpan};

use crate::row::has_row;
use segbase::{Board, Pass};
use segstore::{RowRef, key_of_row, span_of_row};
use segword::{Item, hash, tag_of};

// How many rows the item takes whose first row this is.
pub(crate) fn rows_from(board: &Board, pass: &mut Pass, segment: u32, row: u32) -> u32
    requires quiet { IsQuiet board.now pass.old }
    requires used { IsUsedRow segment row pass.old }
    ensures idles { Idles board.now pass.old pass.new }
    ensures rows { result ≡ span_in (trace pass.new) segment row }
    ensures steps { TakesAtMost 1 pass.old pass.new }
{
    span_of_row(board, pass, RowRef { segment, row })
}

// The bucket and the item of the key of a used row, as of `item_of_row`.
// It is `None` if the row has no key, or fewer used rows behind it than an item there would take:
// then it isn't the first one of an item.
pub(crate) fn item_at(board: &Board, pass: &mut Pass, segment: u32, row: u32) -> Option<(u32, Item)>
    requires quiet { IsQuiet board.now pass.old }
    requires used { IsUsedRow segment row pass.old }
    ensures idles { Idles board.now pass.old pass.new }
    ensures steps { TakesAtMost (head_width + 1) pass.old pass.new }
    ensures place { IfSome result (λ found. (found.1.seg ≡ segment) × (found.1.row ≡ row)) }
    ensures bucket { IfSome result (λ found. found.0 < board.now.shape.buckets) }
    ensures stored { IfSome result (λ found. IsStoredIn board.now found.0 found.1 pass.new) }
    ensures gone { IsNone result → RowGone board.now.shape segment row (trace pass.new) }
{
    let rows = rows_from(board, pass, segment, row);
    if pass.used(segment)?.saturating_sub(row) < rows {
        return None;
    }
    let key = key_of_row(board, pass, segment, row)?;
    let hash = hash(&key);
    let item = Item {
        tag: tag_of(hash),
        freq: 0,
        seg: segment,
        row,
    };
    Some((board.shape().bucket_of(hash), item))
}

// The first row of an item from this row on, or the one behind the used rows.
// No item names a row before this one.
pub(crate) fn first_from(board: &Board, pass: &mut Pass, segment: u32, from: u32) -> u32
    requires quiet { IsQuiet board.now pass.old }
    requires unnamed { AreUnnamed board.now.shape segment from pass.old }
    ensures looks { LooksForFirst board.now segment from pass.old pass.new }
    ensures later { from ≤ result }
    ensures within { (used : ℕ) → used_of pass.old segment ≡ Some used → result ≤ used }
    ensures first { IsUsedRow segment result pass.new
        → IsFirstRow (trace pass.new) segment result }
    ensures behind { (row : ℕ) → from ≤ row → row < result
        → RowGone board.now.shape segment row (trace pass.new) }
{
    let used = pass.used(segment).unwrap_or(0);
    if used <= from {
        return from;
    }
    let mut row = 0;
    while row < from {
        row += rows_from(board, pass, segment, row);
    }
    row
}

/// How many rows the item of a used row of the pass's own takes, if it is the item's first row.
/// For any other row the number says nothing, but it is at least 1.
pub fn span_of(board: &Board, pass: &mut Pass, segment: u32, row: u32) -> u32
    requires quiet { IsQuiet board.now pass.old }
    ensures spans { TellsSpan board.now segment row result pass.old pass.new }
{
    if !has_row(pass, segment, row) {
        return 1;
    }
    rows_from(board, pass, segment, row)
}
