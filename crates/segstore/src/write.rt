//! Rows written before an item names them.
ghost use Rattle.std.specs.Prelude.{◌≡◌, ◌≢◌, ◌<◌, ◌≤◌, ◌*◌, ◌↔◌, ℕ, List, slice_index, Some, false};
ghost use Rattle.std.specs.Prelude.{IfOk, IsErr};
ghost use Rattle.segword.specs.Words.{IsKey, IsValue, item_width, place_behind, row_behind, row_of};
ghost use Rattle.segword.specs.Words.{span_of};
ghost use Rattle.segcore.specs.Words.{AreOwnRows, Holds, IsOwnRow, row_after, row_alone, span_in};
ghost use Rattle.segbase.specs.Words.{current_of, IsPassOf, number, sight, trace, used_of};
ghost use Rattle.segbase.specs.Spots.{IsRowAt};
ghost use Rattle.segstore.specs.Calls.{TakesAtMost};
ghost use Rattle.segstore.specs.Reading.{IsReadable};
ghost use Rattle.segstore.specs.Rows.{FillsRow, HoldsAlso, StoresRow};
ghost use Rattle.segstore.specs.Segments.{KeepsSegments, has_room_for};

use crate::room::{NoRoom, next_row};
use crate::row::{RowRef, load_item};
use crate::spans::row_of_place;
use segbase::{Board, Pass, RowPlace};
use segword::{ITEM_WORDS, Key, KeyWords, MOST_SPAN, ROW_WORDS, Value, ValueBytes, span_of_header};

/// Writes a key and a value into the row that the pass stores into next.
/// It returns the row's segment and the row. The call doesn't count the row as used.
pub fn write_row(
    board: &Board,
    pass: &mut Pass,
    key: &Key,
    value: &Value,
) -> Result<(u32, u32), NoRoom>
    requires pass { IsPassOf board.now pass.old }
    requires segments { KeepsSegments board.now pass.old }
    ensures next { IfOk result (λ row.
        (current_of pass.old ≡ Some row.0) × (used_of pass.old row.0 ≡ Some row.1)) }
    ensures moved { IfOk result (λ row.
        FillsRow board.now row.0 row.1 key.now value.now pass.old pass.new) }
    ensures own { IfOk result (λ row.
        AreOwnRows board.now.shape (trace pass.new) (number pass.new) row.0 row.1
        (span_of key.now value.now)) }
    ensures holds { IfOk result (λ row.
        Holds (row_after (trace pass.new) row.0 row.1) key.now value.now) }
    ensures plain { pass.new.plain ≡ pass.old.plain }
    ensures memo { (sight pass.new).memo ≡ (sight pass.old).memo }
    ensures no_room { IsErr result
        ↔ (has_room_for board.now.shape (span_of key.now value.now) pass.old ≡ false) }
    ensures untouched { IsErr result → pass.new ≡ pass.old }
{
    let words = KeyWords::new(key);
    let bytes = ValueBytes::of(value);
    let row = next_row(board, pass, &words, &bytes)?;
    fill_row(board, pass, row, &words, &bytes);
    Ok((row.segment, row.row))
}

/// Writes a key and a value into a row of the pass's own that no item named in this filling, and
/// into as many behind it as their item takes. The call doesn't count the rows as used.
#[inline(always)]
pub fn fill_row(
    board: &Board,
    pass: &mut Pass,
    row: RowRef,
    key: &KeyWords<'_>,
    value: &ValueBytes<'_>,
)
    requires pass { IsPassOf board.now pass.old }
    requires own { AreOwnRows board.now.shape (trace pass.old) (number pass.old)
        row.segment row.row (span_of key.now value.now) }
    ensures moved { FillsRow board.now row.segment row.row key.now value.now pass.old pass.new }
    ensures steps { TakesAtMost (2 * item_width) pass.old pass.new }
    ensures own { AreOwnRows board.now.shape (trace pass.new) (number pass.new)
        row.segment row.row (span_of key.now value.now) }
    ensures holds { Holds (row_after (trace pass.new) row.segment row.row) key.now value.now }
    ensures valid { IsValue value.now }
    ensures plain { pass.new.plain ≡ pass.old.plain }
    ensures memo { (sight pass.new).memo ≡ (sight pass.old).memo }
{
    store_item(board, pass, row, key, value);
}

/// Writes into a row of the pass's own, that no item named in this filling, and into as many behind
/// it as the item takes, the pair that another row has. The call doesn't count the rows as used.
pub fn copy_row(board: &Board, pass: &mut Pass, from: RowRef, to: RowRef)
    requires pass { IsPassOf board.now pass.old }
    requires readable { IsReadable board.now pass.old from.segment from.row }
    requires own { AreOwnRows board.now.shape (trace pass.old) (number pass.old)
        to.segment to.row (span_in (trace pass.old) from.segment from.row) }
    ensures moved { (words : List ℕ)
        × StoresRow board.now to.segment to.row words pass.old pass.new }
    ensures steps { TakesAtMost (3 * item_width) pass.old pass.new }
    ensures own { AreOwnRows board.now.shape (trace pass.new) (number pass.new)
        to.segment to.row (span_in (trace pass.old) from.segment from.row) }
    ensures holds { HoldsAlso (row_after (trace pass.old) from.segment from.row)
        (row_after (trace pass.new) to.segment to.row) }
    ensures plain { pass.new.plain ≡ pass.old.plain }
    ensures memo { (sight pass.new).memo ≡ (sight pass.old).memo }
{
    let words = load_item(board, pass, from.segment, from.row);
    let rows = span_of_header(words[0]).min(MOST_SPAN as u32);
    store_words(board, pass, to, rows, &words);
}

// Makes so many rows of the pass's own from one on, that no item named in this filling, have the
// first of these words.
#[inline(always)]
fn store_words(board: &Board, pass: &mut Pass, row: RowRef, rows: u32, words: &[u64; ITEM_WORDS])
    requires pass { IsPassOf board.now pass.old }
    requires own { AreOwnRows board.now.shape (trace pass.old) (number pass.old)
        row.segment row.row rows }
    requires some { 1 ≤ rows }
    requires fits { ROW_WORDS * rows ≤ ITEM_WORDS }
    ensures moved { StoresRow board.now row.segment row.row words.now pass.old pass.new }
    ensures steps { TakesAtMost (2 * (ROW_WORDS * rows)) pass.old pass.new }
    ensures own { AreOwnRows board.now.shape (trace pass.new) (number pass.new)
        row.segment row.row rows }
    ensures words { (place : ℕ) → place < ROW_WORDS * rows
        → (row_alone (trace pass.new) row.segment (row_behind row.row place)).words
        (place_behind place) ≡ slice_index words.now place }
    ensures plain { pass.new.plain ≡ pass.old.plain }
    ensures memo { (sight pass.new).memo ≡ (sight pass.old).memo }
{
    let at = board.row_at(row.segment, row.row);
    for place in 0..ROW_WORDS as u32 * rows {
        store_word(board, pass, at, place, words[place as usize]);
    }
}

// Makes rows of the pass's own, as many as the item takes, that no item named in this filling, have
// the words of this key and this value, one by one from where they stand: those of the key, and
// behind them those of the value.
#[inline(always)]
fn store_item(
    board: &Board,
    pass: &mut Pass,
    row: RowRef,
    key: &KeyWords<'_>,
    value: &ValueBytes<'_>,
)
    requires pass { IsPassOf board.now pass.old }
    requires own { AreOwnRows board.now.shape (trace pass.old) (number pass.old)
        row.segment row.row (span_of key.now value.now) }
    ensures moved { FillsRow board.now row.segment row.row key.now value.now pass.old pass.new }
    ensures steps { TakesAtMost (2 * item_width) pass.old pass.new }
    ensures own { AreOwnRows board.now.shape (trace pass.new) (number pass.new)
        row.segment row.row (span_of key.now value.now) }
    ensures words { (place : ℕ) → place < ROW_WORDS * span_of key.now value.now
        → (row_alone (trace pass.new) row.segment (row_behind row.row place)).words
        (place_behind place) ≡ slice_index (row_of key.now value.now) place }
    ensures key { IsKey key.now }
    ensures valid { IsValue value.now }
    ensures plain { pass.new.plain ≡ pass.old.plain }
    ensures memo { (sight pass.new).memo ≡ (sight pass.old).memo }
{
    let at = board.row_at(row.segment, row.row);
    let head = key.head() as u32;
    let rows = key.span(value);
    for place in 0..head {
        store_word(board, pass, at, place, key.item_word(value, place as usize));
    }
    for place in head..ROW_WORDS as u32 * rows {
        store_word(board, pass, at, place, key.item_word(value, place as usize));
    }
}

// Stores a word of an item, by its place in it, unless the row has it: a load costs less than a
// store that others see.
#[inline(always)]
fn store_word(board: &Board, pass: &mut Pass, at: RowPlace, place: u32, word: u64)
    requires pass { IsPassOf board.now pass.old }
    requires start { IsRowAt board.now.shape at }
    requires own { IsOwnRow board.now.shape (trace pass.old) (number pass.old)
        at.segment (row_behind at.row place) }
    requires place { place_behind place < ROW_WORDS }
    ensures moved { (words : List ℕ) → slice_index words place ≡ word
        → StoresRow board.now at.segment at.row words pass.old pass.new }
    ensures steps { TakesAtMost 2 pass.old pass.new }
    ensures own { IsOwnRow board.now.shape (trace pass.new) (number pass.new)
        at.segment (row_behind at.row place) }
    ensures word { (row_alone (trace pass.new) at.segment (row_behind at.row place)).words
        (place_behind place) ≡ word }
    ensures others { (other : ℕ) → other ≢ place
        → (row_alone (trace pass.new) at.segment (row_behind at.row other)).words
        (place_behind other)
        ≡ (row_alone (trace pass.old) at.segment (row_behind at.row other)).words
        (place_behind other) }
    ensures plain { pass.new.plain ≡ pass.old.plain }
    ensures memo { (sight pass.new).memo ≡ (sight pass.old).memo }
{
    let spot = row_of_place(board, at, place);
    if board.row_load_at(pass, spot.0, spot.1) == word {
        return;
    }
    board.row_store_at(pass, spot.0, spot.1, word);
}
