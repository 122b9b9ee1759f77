//! The words of the table by what they are.

/// A word of the table: the overflow counter; a bucket's word, 0 to 7; an overflow bucket's word;
/// a segment's word, which has its deadline and its readers; a word of a row.
#[derive(Clone, Copy, Drop)]
pub enum Cell {
    OfCounter,
    OfBucket { bucket: u32, word: u32 },
    OfOverflow { number: u32, word: u32 },
    OfSegment(u32),
    OfRow { segment: u32, row: u32, place: u32 },
}
