//! Where each word lies in the table.
ghost use Rattle.std.specs.Prelude.{◌≡◌, ◌<◌, ◌≤◌, ◌^◌};
ghost use Rattle.segword.specs.Words.{IsValid, word_count};
ghost use Rattle.segcore.specs.Words.{address, IsCell};
ghost use Rattle.segbase.specs.Spots.{IsLayoutOf, cell_of};

use crate::place::{Place, Spot};
use segword::{BUCKET_WORDS, ROW_WORDS, Shape};

// Where the segments of a shape begin, and how many words each has.
#[derive(Clone, Copy, Drop)]
pub(crate) struct Layout {
    pub(crate) front: usize,
    pub(crate) segment_words: usize,
}

impl Layout {
    pub(crate) fn new(shape: &Shape) -> Layout
        requires { IsValid shape.now }
        ensures { IsLayoutOf shape.now result }
    {
        Layout {
            front: 1 + BUCKET_WORDS * (shape.buckets as usize + shape.overflow as usize),
            segment_words: 1 + ROW_WORDS * shape.rows as usize,
        }
    }

    // The place of a word.
    // The overflow buckets lie behind the buckets, so their numbers give their places as those of buckets do.
    pub(crate) fn index(&self, shape: &Shape, spot: Spot) -> usize
        requires layout { IsLayoutOf shape.now self.now }
        requires small { word_count shape.now ≤ 2 ^ 26 }
        requires cell { IsCell shape.now (cell_of shape.now spot) }
        ensures place { result ≡ address shape.now (cell_of shape.now spot) }
        ensures within { result < word_count shape.now }
    {
        match spot {
            Spot::Counter(_) => 0,
            Spot::Info(bucket) => 1 + BUCKET_WORDS * bucket as usize,
            Spot::Item(Place { bucket, word }) => {
                1 + BUCKET_WORDS * bucket as usize + word as usize
            }
            Spot::Overflow(number) => {
                2 + BUCKET_WORDS * (shape.buckets as usize + number as usize)
            }
            Spot::Segment(segment) => self.front + self.segment_words * segment as usize,
            Spot::Row { segment, row, word } => {
                self.front
                    + self.segment_words * segment as usize
                    + 1
                    + ROW_WORDS * row as usize
                    + word as usize
            }
        }
    }
}
