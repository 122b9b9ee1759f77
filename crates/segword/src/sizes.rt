//! Shapes by how much they hold.
ghost use Rattle.std.specs.Prelude.{◌≡◌, ◌*◌, IfErr, IfOk};

use crate::row::ROW_WORDS;
use crate::{Shape, ShapeFault};

// The most keys that the largest chains have two item words for each.
const MOST_BY_CHAINS: usize = 425_984;

// So many keys have two rows each in a table, beside the largest chains and the words of segments.
const MOST_BY_ROWS: usize = 32_000_000 / ROW_WORDS - 6_720;

/// The most keys that [`Shape::for_keys`] has a shape for.
pub const MOST_KEYS: u32 = if MOST_BY_ROWS < MOST_BY_CHAINS {
    MOST_BY_ROWS as u32
} else {
    MOST_BY_CHAINS as u32
};

// How many segments each pass has at least, so that a pass gives up few keys with one,
// and can keep what was read in some of them.
const LEAST_SEGMENTS: u32 = 64;

impl Shape {
    ghost use Rattle.segword.specs.Shape.{HasRoomFor, IsFaultOfKeys, IsValid, word_count};

    /// A shape for this number of passes, in which this number of keys has room to spare:
    /// for each key its chains have two item words, and the segments of all passes two rows.
    /// A bucket has 3.2 keys on the mean at most, unless there are more than 209,715.
    /// Each pass has 64 segments at least.
    /// There is one for up to `MOST_KEYS` keys and 1 to 64 passes.
    pub fn for_keys(keys: u32, passes: u32) -> Result<Shape, ShapeFault>
        ensures ok { IfOk result (λ shape.
            IsValid shape × (shape.passes ≡ passes) × HasRoomFor keys shape) }
        ensures err { IfErr result (IsFaultOfKeys keys passes) }
    {
        if !(1..=Self::MOST_PASSES).contains(&passes) {
            return Err(ShapeFault::BadPasses);
        }
        if keys > MOST_KEYS {
            return Err(ShapeFault::TooLarge);
        }
        let buckets = (5 * keys)
            .div_ceil(16)
            .next_power_of_two()
            .min(Self::MOST_BUCKETS);
        let rows_each = (2 * keys).div_ceil(passes).max(1);
        let segments_each = rows_each.div_ceil(Self::MOST_ROWS).max(LEAST_SEGMENTS);
        Ok(Shape {
            buckets,
            overflow: buckets,
            passes,
            segments_each,
            rows: rows_each.div_ceil(segments_each),
            first_version: 0,
        })
    }

    /// How many bytes the table of this shape has: 8 for each of its words.
    pub fn bytes(&self) -> u64
        requires { IsValid self.now }
        ensures { result ≡ 8 * word_count self.now }
    {
        8 * self.words()
    }
}
