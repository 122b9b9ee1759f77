//! Values that go from the words of a row straight to the bytes of a caller.
ghost use Rattle.std.specs.Prelude.{◌≡◌, ◌+◌, ◌*◌, ◌/◌, ◌%◌, ◌^◌, ◌<◌, ◌≤◌, ℕ, List, length};
ghost use Rattle.std.specs.Prelude.{get_or, Ok, Err};
ghost use Rattle.std.specs.Int.{div_ceil};
ghost use Rattle.segword.specs.Words.{IsKey, IsValue, row_width, value_limit, value_width};
ghost use Rattle.segword.specs.RowLayout.{value_length};
ghost use Rattle.segcore.specs.Words.{Holds, row_after, span_in};
ghost use Rattle.segbase.specs.Spots.{IsRowAt};
ghost use Rattle.segbase.specs.Words.{IsPassOf, trace};
ghost use Rattle.segstore.specs.Calls.{TakesAtMost};
ghost use Rattle.segstore.specs.Copying.{AreBytesOf, CopiesValue};
ghost use Rattle.segstore.specs.Reading.{HoldsPair, IsReadable, ReadsRow};

use crate::row::RowRef;
use crate::spans::value_length;
use segbase::{Board, Pass, RowPlace};
use segword::{ROW_WORDS, value_place};

// How many bytes the words of a row have.
const ROW_BYTES: usize = 8 * ROW_WORDS;

// A word of an item: so many rows behind its first one, and which word of that row.
#[derive(Clone, Copy)]
struct WordPlace {
    behind: u32,
    word: u8,
}

/// Copies the value of a row with this word 0, which holds a pair, to the front of a buffer.
/// Returns the value's length: as an error if the buffer is shorter, and then it is as it was.
#[inline(always)]
pub fn value_into(
    board: &Board,
    pass: &mut Pass,
    row: RowRef,
    header: u64,
    bytes: &mut [u8],
) -> Result<usize, usize>
    requires pass { IsPassOf board.now pass.old }
    requires readable { IsReadable board.now pass.old row.segment row.row }
    requires header { header ≡ (row_after (trace pass.old) row.segment row.row).words 0 }
    requires pair { HoldsPair (row_after (trace pass.old) row.segment row.row) }
    ensures reads { ReadsRow board.now pass.old pass.new row.segment row.row }
    ensures steps { TakesAtMost value_width pass.old pass.new }
    ensures copies { (key value : List ℕ) → IsKey key → IsValue value
        → Holds (row_after (trace pass.new) row.segment row.row) key value
        → CopiesValue value (result ≡ Ok (length value)) (result ≡ Err (length value))
        bytes.old bytes.new }
{
    let length = value_length(header);
    if bytes.len() < length {
        return Err(length);
    }
    load_value(board, pass, row, header, &mut bytes[..length]);
    Ok(length)
}

// Loads the value of a row with this word 0 over bytes that are as long, row by row of its item:
// what the first one has behind the key, whole rows, and what the last one has.
#[inline(always)]
fn load_value(board: &Board, pass: &mut Pass, row: RowRef, header: u64, bytes: &mut [u8])
    requires pass { IsPassOf board.now pass.old }
    requires readable { IsReadable board.now pass.old row.segment row.row }
    requires header { header ≡ (row_after (trace pass.old) row.segment row.row).words 0 }
    requires length { length bytes.old ≡ value_length header }
    requires fits { value_length header ≤ value_limit }
    ensures reads { ReadsRow board.now pass.old pass.new row.segment row.row }
    ensures steps { TakesAtMost value_width pass.old pass.new }
    ensures value { (key value : List ℕ) → IsKey key → IsValue value
        → Holds (row_after (trace pass.new) row.segment row.row) key value → bytes.new ≡ value }
{
    let at = board.row_at(row.segment, row.row);
    let from = value_place(header);
    let first = (from / ROW_WORDS) as u32;
    let word = from % ROW_WORDS;
    let head = bytes.len().min(8 * (ROW_WORDS - word));
    let begin = WordPlace {
        behind: first,
        word: word as u8,
    };
    load_part(board, pass, at, begin, &mut bytes[..head]);
    if head == bytes.len() {
        return;
    }
    let rows = ((bytes.len() - head) / ROW_BYTES) as u32;
    for number in 0..rows {
        let start = head + ROW_BYTES * number as usize;
        let part = &mut bytes[start..start + ROW_BYTES];
        let behind = first + 1 + number;
        load_part(board, pass, at, WordPlace { behind, word: 0 }, part);
    }
    let start = head + ROW_BYTES * rows as usize;
    let behind = first + 1 + rows;
    load_part(
        board,
        pass,
        at,
        WordPlace { behind, word: 0 },
        &mut bytes[start..],
    );
}

// Loads words of one row of an item, from this one on, over bytes that as many words have.
// Behind the segment's rows, where only the bytes of another item lead, they are 0.
#[inline(always)]
fn load_part(board: &Board, pass: &mut Pass, at: RowPlace, from: WordPlace, bytes: &mut [u8])
    requires pass { IsPassOf board.now pass.old }
    requires start { IsRowAt board.now.shape at }
    requires readable { IsReadable board.now pass.old at.segment at.row }
    requires row { 8 * from.word + length bytes.old ≤ 8 * row_width }
    requires places { 8 * (row_width * from.behind + from.word) + length bytes.old
        ≤ 8 * (row_width * span_in (trace pass.old) at.segment at.row) }
    ensures reads { ReadsRow board.now pass.old pass.new at.segment at.row }
    ensures steps { TakesAtMost (div_ceil (length bytes.old) 8) pass.old pass.new }
    ensures len { length bytes.new ≡ length bytes.old }
    ensures found { AreBytesOf (row_after (trace pass.new) at.segment at.row).words
        (row_width * from.behind + from.word) bytes.new (length bytes.old) }
{
    if board.rows_behind(at) <= from.behind {
        bytes.fill(0);
        return;
    }
    let row = board.row_behind(at, from.behind);
    for place in 0..bytes.len().div_ceil(8) {
        let found = board.row_load_at(pass, row, from.word + place as u8);
        put_word(bytes, 8 * place, found);
    }
}

// Writes the eight bytes of a word over those from a place on, or as many as there are.
#[inline(always)]
fn put_word(bytes: &mut [u8], from: usize, word: u64)
    requires inside { from < length bytes.old }
    ensures len { length bytes.new ≡ length bytes.old }
    ensures here { (i : ℕ) → i < 8 → from + i < length bytes.old
        → get_or bytes.new (from + i) 0 ≡ word / 2 ^ (8 * i) % 256 }
    ensures before { (i : ℕ) → i < from → get_or bytes.new i 0 ≡ get_or bytes.old i 0 }
{
    let left = bytes.len() - from;
    let rest = &mut bytes[from..];
    match rest.first_chunk_mut() {
        Some(chunk) => *chunk = word.to_le_bytes(),
        None => rest.copy_from_slice(&word.to_le_bytes()[..left]),
    }
}
