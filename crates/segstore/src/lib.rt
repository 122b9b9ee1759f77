//! What a pass keeps between calls, and the rows that it reads and writes. Segments are entered,
//! left and refilled; writer bits of buckets are taken for a call, or locked for longer.
#![tactic(auto)]

mod bucket;
mod chain;
mod copy;
mod enter;
mod read;
mod refilling;
mod room;
mod row;
mod spans;
mod write;

pub use bucket::{LockAnswer, TRIES, lock_bucket, take_bucket, take_to_write, unlock_bucket};
pub use chain::{Sought, next_place};
pub use copy::value_into;
pub use enter::{enter_segment, leave_segment};
pub use read::{Keyed, Linked, read_keyed, read_linked};
pub use refilling::{refill, refill_aside};
pub use room::{NoRoom, has_room, next_row};
pub use row::{RowRef, key_of_row, pair_of_row, row_of_key};
pub use spans::span_of_row;
pub use write::{copy_row, fill_row, write_row};
