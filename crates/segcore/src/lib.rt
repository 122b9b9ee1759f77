//! The world of the index as plain data: events, words, what a pass knows, the kinds of step,
//! and the rule that each keeps.
#![tactic(auto)]

mod cell;
mod event;
mod laws;
mod view;

pub use cell::Cell;
pub use event::{Event, Leaving};
pub use laws::{
    between_steps, chain_words, changed_word, every_schedule, example, keys_of_bucket,
    lawful_trace, miss_point, place_of_key, runs_are_seen, search, stays_within, step_keeps_law,
    told_step, version_of_bucket,
};
pub use view::View;
