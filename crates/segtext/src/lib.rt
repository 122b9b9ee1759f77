//! What scripts and traces have in common: numbers in decimal digits, and a line that has no end yet.
#![tactic(auto)]

mod digits;
mod line_buffer;

pub use digits::number_below;
pub use line_buffer::{LineBuffer, Taken};
