//! A key in the form in which rows hold it, for comparing it with rows word by word.
ghost use Rattle.std.specs.Prelude.{◌≡◌, ◌↔◌, ◌<◌, ◌≤◌, ◌==◌, ◌+◌, IsTrue, List, ℕ, length, slice_index, if◌then◌else◌};
ghost use Rattle.segword.specs.Bytes.{IsKey, IsValue};
ghost use Rattle.segword.specs.Row.{row_of};
ghost use Rattle.segword.specs.KeyWords.{key_words};
ghost use Rattle.segword.specs.RowLayout.{key_length};
ghost use Rattle.segword.specs.Row.{key_width};
ghost use Rattle.segword.specs.Spans.{span_of};

use crate::row::HEAD_WORDS;
use crate::spans::{ITEM_WORDS, key_width, span};
use crate::{Key, ValueBytes};
use std::marker::Model;

/// A key as rows hold it: its length, and its bytes in words.
/// It is compared with rows word by word, so that no key is read out of a row. The key stays
/// where it stands: its words are loaded from there.
/// Contracts see it as the list of the key's bytes.
#[derive(Drop)]
pub struct KeyWords<'k> {
    key: &'k Key,
}

impl<'k> Model for KeyWords<'k> {
    ghost use Rattle.std.specs.Prelude.{ℕ, List};

    ghost Value = { List ℕ };

    ghost view = { λ words. words.key.now };
}

impl<'k> KeyWords<'k> {
    /// The words of a key.
    #[inline(always)]
    pub fn new(key: &'k Key) -> KeyWords<'k>
        ensures value { result ≡ key.now }
        ensures valid { IsKey key.now }
    {
        KeyWords { key: key.known() }
    }

    /// How many rows the item of this key and a value takes.
    #[inline(always)]
    pub fn span(&self, value: &ValueBytes<'_>) -> u32
        ensures rows { result ≡ span_of self.now value.now }
        ensures some { 1 ≤ result }
        ensures key { IsKey self.now }
        ensures valid { IsValue value.now }
    {
        span(self.key.len() as u32, value.len() as u32)
    }

    /// The word at a place of the item of this key and a value.
    #[inline(always)]
    pub fn item_word(&self, value: &ValueBytes<'_>, place: usize) -> u64
        requires place { place < ITEM_WORDS }
        ensures word { result ≡ slice_index (row_of self.now value.now) place }
    {
        let head = self.head();
        if head <= place {
            return value.word(place - head);
        }
        if place == 0 {
            return self.key.len() as u64 | (value.len() as u64) << 8;
        }
        self.key.word(place - 1)
    }

    /// How many of an item's words have the lengths and this key.
    #[inline(always)]
    pub fn head(&self) -> usize
        ensures words { result ≡ 1 + key_width (length self.now) }
        ensures key { IsKey self.now }
    {
        1 + key_width(self.key.len() as u32) as usize
    }

    /// Whether an item with this word at a place can be one of this key: at place 0 if its
    /// key has this length, and at any other that has a part of a key if that part is the same.
    #[inline(always)]
    pub fn has_word(&self, place: usize, word: u64) -> bool
        requires place { place < HEAD_WORDS }
        ensures { IsTrue result ↔ (slice_index (key_words self.now) place
            ≡ (if place == 0 then key_length word else word)) }
    {
        if place == 0 {
            return word & 0xff == self.key.len() as u64;
        }
        word == self.key.word(place - 1)
    }
}
