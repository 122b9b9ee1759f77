//! Where words of the table are.

/// An item word: word 1 to 7 of a bucket. Overflow bucket `n` is bucket `buckets + n`.
#[derive(Clone, Copy, Debug, PartialEq, Eq)]
pub struct Place {
    pub bucket: u32,
    pub word: u8,
}

/// A row of a segment, with the place in the table at which its words begin.
#[derive(Clone, Copy, Drop)]
pub struct RowPlace {
    pub(crate) segment: u32,
    pub(crate) row: u32,
    pub(crate) start: usize,
}

// A word of the table.
#[derive(Clone, Copy, Drop)]
pub(crate) enum Spot {
    // The overflow counter, when an overflow bucket is drawn for this bucket.
    Counter(u32),
    // The information word of a bucket.
    Info(u32),
    Item(Place),
    // Word 1 of an overflow bucket.
    Overflow(u32),
    Segment(u32),
    Row { segment: u32, row: u32, word: u8 },
}
