//! The three readings of words 1 to 7 of a bucket.
ghost use Rattle.std.specs.Prelude.{◌≡◌, ◌↔◌, IsSome, IfSome, Some};

use crate::{Chain, Item};

/// How many words a bucket has: its information word, and words 1 to 7.
pub const BUCKET_WORDS: usize = 8;

/// The last word of a bucket: an item word, or the one that leads on to the chain's next bucket.
pub const LAST_WORD: u8 = 7;

/// How a word 1 to 7 of a bucket is read. A bucket chains only by its word 7.
#[derive(Clone, Copy, Debug, PartialEq, Eq)]
pub enum Reading {
    /// No item stands here: the word is 0.
    Empty,
    /// An item stands here.
    Item(Item),
    /// The bucket goes on in the overflow bucket of this number, below [`Chain::LIMIT`].
    Chain(u32),
}

impl Reading {
    ghost use Rattle.segword.specs.Reading.{reading_word, IsProperReading, HasReading};

    /// The word that has this reading.
    pub fn pack(self) -> u64
        requires { IsProperReading self }
        ensures { result ≡ reading_word self }
    {
        match self {
            Reading::Empty => 0,
            Reading::Item(item) => item.pack(),
            Reading::Chain(number) => Chain::pack(number),
        }
    }

    /// The reading of a word, or `None` if the word is neither 0 nor an item's nor a chain's.
    /// No such word stands in a table.
    pub fn unpack(word: u64) -> Option<Reading>
        ensures variant { IsSome result ↔ HasReading word }
        ensures some { IfSome result (λ reading. reading_word reading ≡ word) }
        ensures valid { IfSome result IsProperReading }
        ensures packed { (reading : Reading) → IsProperReading reading
            → reading_word reading ≡ word → result ≡ Some reading }
    {
        if word == 0 {
            return Some(Reading::Empty);
        }
        match Item::unpack(word) {
            Some(item) => Some(Reading::Item(item)),
            None => Some(Reading::Chain(Chain::unpack(word)?)),
        }
    }
}
