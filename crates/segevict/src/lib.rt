//! What empties a segment: an eviction takes every key out of it, and a keep before it moves
//! what is read often into another segment, each key under the bit of its bucket.
//! Beside that, which item of its own a pass takes out of a full bucket, how many rows of its own
//! segments are used, and how many of these items name.
#![tactic(auto)]

mod crowded;
mod eviction;
mod named;
mod retention;
mod row;
mod spans;

pub use crowded::own_to_evict;
pub use eviction::{EvictRowAnswer, evict, evict_rest, evict_row};
pub use named::{RowCounts, count_rows};
pub use retention::{KeepRowAnswer, keep, keep_row, keep_row_into};
pub use spans::span_of;
