//! How many rows an item takes: as many as it needs, one behind the other.
ghost use Rattle.std.specs.Prelude.{◌≡◌, ◌≤◌};
ghost use Rattle.segword.specs.Row.{key_width};
ghost use Rattle.segword.specs.Spans.{span, span_of, span_of_header, value_place};

use crate::key::KEY_WORDS;
use crate::row::{HEAD_WORDS, ROW_WORDS};
use crate::value::VALUE_WORDS;
use crate::{Key, Value, ValueBytes};

/// How many words the longest item has, in whole rows.
pub const ITEM_WORDS: usize = (HEAD_WORDS + VALUE_WORDS + ROW_WORDS - 1) / ROW_WORDS * ROW_WORDS;

/// The most rows of an item.
pub const MOST_SPAN: usize = ITEM_WORDS / ROW_WORDS;

// The least words that an item has for its key.
const LEAST_KEY_WORDS: u32 = 3;

/// How many words an item has for a key of this length.
#[inline(always)]
pub fn key_width(key_length: u32) -> u32
    ensures { result ≡ key_width key_length }
{
    key_length
        .div_ceil(8)
        .max(LEAST_KEY_WORDS)
        .min(KEY_WORDS as u32)
}

/// How many rows the item of a key and a value with these lengths takes.
#[inline(always)]
pub fn span(key_length: u32, value_length: u32) -> u32
    ensures rows { result ≡ span key_length value_length }
    ensures some { 1 ≤ result }
{
    let words = 1 + key_width(key_length) + value_length.div_ceil(8);
    words.div_ceil(ROW_WORDS as u32)
}

/// The place at which the value begins in an item with this word 0.
#[inline(always)]
pub fn value_place(header: u64) -> usize
    ensures place { result ≡ value_place header }
    ensures inside { result ≤ HEAD_WORDS }
{
    1 + key_width((header & 0xff) as u32) as usize
}

/// How many rows the item of this key and this value takes.
#[inline(always)]
pub fn span_of(key: &Key, value: &Value) -> u32
    ensures rows { result ≡ span_of key.now value.now }
    ensures some { 1 ≤ result }
{
    span_of_bytes(key, &ValueBytes::of(value))
}

/// The same of a value in place.
#[inline(always)]
pub fn span_of_bytes(key: &Key, value: &ValueBytes<'_>) -> u32
    ensures rows { result ≡ span_of key.now value.now }
    ensures some { 1 ≤ result }
{
    span(key.as_bytes().len() as u32, value.len() as u32)
}

/// How many rows an item with this word 0 takes.
#[inline(always)]
pub fn span_of_header(header: u64) -> u32
    ensures rows { result ≡ span_of_header header }
    ensures some { 1 ≤ result }
{
    span((header & 0xff) as u32, (header >> 8 & 0xffff) as u32)
}
