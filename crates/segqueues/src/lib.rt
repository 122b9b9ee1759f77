//! What a client keeps: which of its segments is cleared next, and which items move on.
//! It is decided here, apart from the calls that do it.
#![tactic(auto)]

mod lists;
mod live;
mod needs;
mod open;
mod queues;
mod source;

pub use lists::Queue;
pub use queues::{Queues, Round, SegmentRow};
