//! Rows that a pass may read, word by word.
ghost use Rattle.std.specs.Prelude.{◌≡◌, ℕ, ◌<◌, ◌↔◌, List, IfSome, IsSome, Some};
ghost use Rattle.std.specs.Prelude.{slice_index};
ghost use Rattle.segword.specs.Words.{head_width, IsKey, IsValue};
ghost use Rattle.segcore.specs.Words.{Holds, row_after};
ghost use Rattle.segbase.specs.Words.{IsPassOf, trace};
ghost use Rattle.segstore.specs.Calls.{TakesAtMost};
ghost use Rattle.segstore.specs.Reading.{IsReadable, ReadsRow};

use crate::spans::{load_place, load_places};
use segbase::{Board, Pass};
use segword::{
    HEAD_WORDS, ITEM_WORDS, Key, KeyWords, MOST_SPAN, ROW_WORDS, Value, read_key, read_row,
    span_of_header, value_place,
};

/// A row of a segment.
#[derive(Clone, Copy, Debug, PartialEq, Eq)]
pub struct RowRef {
    pub segment: u32,
    pub row: u32,
}

// All words of the item that begins in a row. Behind its rows is 0.
#[inline(always)]
pub(crate) fn load_item(board: &Board, pass: &mut Pass, segment: u32, row: u32) -> [u64; ITEM_WORDS]
    requires pass { IsPassOf board.now pass.old }
    requires readable { IsReadable board.now pass.old segment row }
    ensures reads { ReadsRow board.now pass.old pass.new segment row }
    ensures steps { TakesAtMost ITEM_WORDS pass.old pass.new }
    ensures words { (place : ℕ) → place < ITEM_WORDS
        → slice_index result place ≡ (row_after (trace pass.new) segment row).words place }
{
    let at = board.row_at(segment, row);
    let mut words = [0; ITEM_WORDS];
    let header = load_place(board, pass, at, 0);
    words[0] = header;
    let rows = span_of_header(header).min(MOST_SPAN as u32);
    load_places(board, pass, at, 0, &mut words, 1, ROW_WORDS * rows as usize);
    words
}

/// Word 0 of a row, if the row is one of the key:
/// its first words are compared with the key's.
#[inline(always)]
pub fn row_of_key(
    board: &Board,
    pass: &mut Pass,
    segment: u32,
    row: u32,
    key: &KeyWords<'_>,
) -> Option<u64>
    requires pass { IsPassOf board.now pass.old }
    requires readable { IsReadable board.now pass.old segment row }
    ensures reads { ReadsRow board.now pass.old pass.new segment row }
    ensures steps { TakesAtMost head_width pass.old pass.new }
    ensures header { IfSome result (λ word.
        word ≡ (row_after (trace pass.new) segment row).words 0) }
    ensures key { (held value : List ℕ) → IsKey held → IsValue value
        → Holds (row_after (trace pass.new) segment row) held value
        → IsSome result ↔ (held ≡ key.now) }
{
    let at = board.row_at(segment, row);
    let header = load_place(board, pass, at, 0);
    if !key.has_word(0, header) {
        return None;
    }
    for place in 1..key.head() {
        let word = load_place(board, pass, at, place as u32);
        if !key.has_word(place, word) {
            return None;
        }
    }
    Some(header)
}

/// The key of a row.
pub fn key_of_row(board: &Board, pass: &mut Pass, segment: u32, row: u32) -> Option<Key>
    requires pass { IsPassOf board.now pass.old }
    requires readable { IsReadable board.now pass.old segment row }
    ensures reads { ReadsRow board.now pass.old pass.new segment row }
    ensures steps { TakesAtMost head_width pass.old pass.new }
    ensures key { (key value : List ℕ) → IsKey key → IsValue value
        → Holds (row_after (trace pass.new) segment row) key value → result ≡ Some key }
{
    let at = board.row_at(segment, row);
    let mut words = [0; HEAD_WORDS];
    let header = load_place(board, pass, at, 0);
    words[0] = header;
    load_places(board, pass, at, 0, &mut words, 1, value_place(header));
    read_key(&words)
}

/// The key and the value of a row.
pub fn pair_of_row(board: &Board, pass: &mut Pass, segment: u32, row: u32) -> Option<(Key, Value)>
    requires pass { IsPassOf board.now pass.old }
    requires readable { IsReadable board.now pass.old segment row }
    ensures reads { ReadsRow board.now pass.old pass.new segment row }
    ensures pair { (key value : List ℕ) → IsKey key → IsValue value
        → Holds (row_after (trace pass.new) segment row) key value → result ≡ Some (key, value) }
{
    read_row(&load_item(board, pass, segment, row))
}
