//! The words of an item, by their places in it, and how many rows it takes.
ghost use Rattle.std.specs.Prelude.{◌≡◌, ℕ, ◌+◌, ◌-◌, ◌*◌, ◌^◌, ◌<◌, ◌≤◌, slice_index};
ghost use Rattle.segword.specs.RowLayout.{value_length};
ghost use Rattle.segword.specs.Words.{place_behind, row_behind, row_width};
ghost use Rattle.segcore.specs.declared.cell.Cell.TheVariants.{OfRow};
ghost use Rattle.segcore.specs.Words.{IsCell, row_after, span_in};
ghost use Rattle.segbase.specs.Words.{IsPassOf, trace};
ghost use Rattle.segbase.specs.Spots.{IsRowAt};
ghost use Rattle.segstore.specs.Calls.{TakesAtMost};
ghost use Rattle.segstore.specs.Reading.{IsReadable, ReadsRow};

use crate::row::RowRef;
use segbase::{Board, Pass, RowPlace};
use segword::{ROW_WORDS, span_of_header};

const ROW: u32 = ROW_WORDS as u32;

/// How many rows the item takes that begins in a row, by its word 0.
pub fn span_of_row(board: &Board, pass: &mut Pass, row: RowRef) -> u32
    requires pass { IsPassOf board.now pass.old }
    requires readable { IsReadable board.now pass.old row.segment row.row }
    ensures reads { ReadsRow board.now pass.old pass.new row.segment row.row }
    ensures span { result ≡ span_in (trace pass.new) row.segment row.row }
    ensures steps { TakesAtMost 1 pass.old pass.new }
{
    span_of_header(board.row_load(pass, row.segment, row.row, 0))
}

// A word of the item that begins in a row, by its place in the item. Behind the segment's rows,
// where only the bytes of another item lead, it is 0.
#[inline(always)]
pub(crate) fn load_place(board: &Board, pass: &mut Pass, at: RowPlace, place: u32) -> u64
    requires pass { IsPassOf board.now pass.old }
    requires start { IsRowAt board.now.shape at }
    requires readable { IsReadable board.now pass.old at.segment at.row }
    requires place { place < row_width * span_in (trace pass.old) at.segment at.row }
    ensures reads { ReadsRow board.now pass.old pass.new at.segment at.row }
    ensures steps { TakesAtMost 1 pass.old pass.new }
    ensures word { result ≡ (row_after (trace pass.new) at.segment at.row).words place }
{
    if place < ROW {
        return board.row_load_at(pass, at, place as u8);
    }
    let behind = place / ROW;
    if board.rows_behind(at) <= behind {
        return 0;
    }
    board.row_load_at(pass, board.row_behind(at, behind), (place % ROW) as u8)
}

// The length of the value of an item with this word 0.
#[inline(always)]
pub(crate) fn value_length(header: u64) -> usize
    ensures { result ≡ value_length header }
{
    (header >> 8 & 0xffff) as usize
}

// Loads words of an item from a place on into these ones, from the first on and before the end.
#[inline(always)]
pub(crate) fn load_places<const N: usize>(
    board: &Board,
    pass: &mut Pass,
    at: RowPlace,
    from: u32,
    words: &mut [u64; N],
    first: usize,
    end: usize,
)
    requires pass { IsPassOf board.now pass.old }
    requires start { IsRowAt board.now.shape at }
    requires readable { IsReadable board.now pass.old at.segment at.row }
    requires order { first ≤ end }
    requires room { end ≤ N }
    requires places { from + end ≤ row_width * span_in (trace pass.old) at.segment at.row }
    requires small { from + end < 2 ^ 32 }
    ensures reads { ReadsRow board.now pass.old pass.new at.segment at.row }
    ensures steps { TakesAtMost (end - first) pass.old pass.new }
    ensures loaded { (place : ℕ) → first ≤ place → place < end → slice_index words.new place
        ≡ (row_after (trace pass.new) at.segment at.row).words (from + place) }
    ensures before { (place : ℕ) → place < first
        → slice_index words.new place ≡ slice_index words.old place }
    ensures behind { (place : ℕ) → end ≤ place
        → slice_index words.new place ≡ slice_index words.old place }
{
    for place in first..end {
        words[place] = load_place(board, pass, at, from + place as u32);
    }
}

// The row of a place of an item that begins in a row, and the place in that row.
#[inline(always)]
pub(crate) fn row_of_place(board: &Board, at: RowPlace, place: u32) -> (RowPlace, u8)
    requires start { IsRowAt board.now.shape at }
    requires row { IsCell board.now.shape (OfRow at.segment (row_behind at.row place) 0) }
    requires place { place_behind place < row_width }
    ensures row { (result.0.segment ≡ at.segment) × (result.0.row ≡ row_behind at.row place) }
    ensures place { result.1 ≡ place_behind place }
    ensures start { IsRowAt board.now.shape result.0 }
{
    (board.row_behind(at, place / ROW), (place % ROW) as u8)
}
