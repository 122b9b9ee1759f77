//! Segment words, one for each segment.
ghost use Rattle.std.specs.Prelude.{◌≡◌, ◌^◌, ◌<◌};
ghost use Rattle.segword.specs.SegmentWord.{word_of_segment};

/// The content of a segment's word.
/// The layout is this project's own: deadline in bits 63..32, readers in bits 31..0.
#[derive(Clone, Copy, Debug, PartialEq, Eq)]
pub struct SegmentWord {
    /// The deadline of the segment's items.
    pub deadline: u32,
    /// How often passes are counted in at the segment. While it isn't 0, no refill succeeds.
    pub readers: u32,
}

impl SegmentWord {
    /// The word of this content.
    pub fn pack(self) -> u64
        ensures { result ≡ word_of_segment self }
    {
        u64::from(self.deadline) << 32 | u64::from(self.readers)
    }

    /// The content of a word. Each word has one.
    pub fn unpack(word: u64) -> SegmentWord
        ensures word { word_of_segment result ≡ word }
        ensures packed { (segment : SegmentWord) → segment.readers < 2 ^ 32
            → word_of_segment segment ≡ word → result ≡ segment }
    {
        SegmentWord {
            deadline: (word >> 32) as u32,
            readers: (word & 0xffff_ffff) as u32,
        }
    }
}
