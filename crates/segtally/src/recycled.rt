//! What recycled a segment, in numbers.
ghost use Rattle.std.specs.Prelude.{◌≡◌, ◌≤◌};
ghost use Rattle.segtally.specs.Recycling.{evicted_by, refilled_by};

use segmodel::{EvictAnswer, RefillAnswer};

/// How many keys an evict took out that has this answer.
pub fn evicted_by(answer: EvictAnswer) -> u32
    ensures { result ≡ evicted_by answer }
{
    match answer {
        EvictAnswer::Evicted(keys) | EvictAnswer::Busy(keys) => keys,
        EvictAnswer::NotYours => 0,
    }
}

/// How many segments a refill refilled that has this answer.
pub fn refilled_by(answer: RefillAnswer) -> u32
    ensures value { result ≡ refilled_by answer }
    ensures most { result ≤ 1 }
{
    match answer {
        RefillAnswer::Refilled => 1,
        RefillAnswer::NotYours | RefillAnswer::NotEvicted | RefillAnswer::Held => 0,
    }
}
