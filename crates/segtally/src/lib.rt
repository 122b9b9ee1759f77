//! How an answer is counted, by clients and by loads, and the ring of segments that both begin with.
#![tactic(auto)]

mod recycled;
mod ring;
mod tally;

pub use recycled::{evicted_by, refilled_by};
pub use ring::own_ring;
pub use tally::Tally;
