//! The words of a table at the start.
ghost use Rattle.std.specs.Prelude.{IfOk};
ghost use Rattle.segword.specs.Words.{IsValid};
ghost use Rattle.segbase.specs.Opening.{IsOpened};

use segword::{BUCKET_WORDS, Info, ROW_WORDS, Shape};
use std::alloc::{AllocError, Global};

// All words are 0, except the information words, which have the first version.
pub(crate) fn opening_words(alloc: Global, shape: Shape) -> Result<Vec<u64>, AllocError>
    requires { IsValid shape }
    ensures { IfOk result (λ words. IsOpened shape words.items) }
{
    let buckets = shape.buckets as usize;
    let segments = shape.passes as usize * shape.segments_each as usize;
    let count = 1
        + BUCKET_WORDS * (buckets + shape.overflow as usize)
        + segments * (1 + ROW_WORDS * shape.rows as usize);
    let mut words = vec![in alloc; 0u64; count]?;
    let first = Info {
        version: shape.first_version,
        held: false,
    };
    for bucket in 0..buckets {
        words[1 + BUCKET_WORDS * bucket] = first.pack();
    }
    Ok(words)
}
