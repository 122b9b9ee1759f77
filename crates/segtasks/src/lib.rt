//! What the words of the command line ask the program to do.
#![tactic(auto)]

mod arguments;
mod asked;
mod command_line;
mod given;
mod task;

pub use arguments::{Refusal, read_command};
pub use asked::{Format, LoadTask, Policies, Replay, Word, WordKind};
pub use given::words_given;
pub use task::Task;
