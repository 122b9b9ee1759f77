//! The index's words in one shared table, and the steps of its passes,
//! each one atomic event of its kind on one word.
#![tactic(auto)]

mod ahead;
mod board;
mod bucket;
mod closing;
mod fault;
mod item;
mod law;
mod layout;
mod meeting;
mod note;
mod opening;
mod overflow;
mod pass;
mod place;
mod raw;
mod running;
mod segment;

pub use ahead::{Lead, RowAhead, Seeker, Seekers};
pub use board::Board;
pub use closing::Words;
pub use fault::MakeFault;
pub use law::{Held, Locked, Memo, Sight};
pub use note::Note;
pub use overflow::CHAIN_BUCKETS;
pub use pass::Pass;
pub use place::{Place, RowPlace};
pub use running::{running_step, seats_beside};
