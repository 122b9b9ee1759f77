//! The commands of the program: carried out over its devices, and ended with a status.
#![tactic(auto)]

mod bad_line;
mod command;
mod explanation;
mod fault;
mod hints;
mod json;
mod note;
mod program;
mod progress;
mod replayed;
mod stats;
mod status;
mod streams;
mod totals;
mod trace_note;

pub use bad_line::bad_line_text;
pub use command::run_command;
pub use explanation::{Meaning, explain, meaning_of};
pub use fault::{ProgramFault, print, report};
pub use hints::hints_text;
pub use program::{run_given, run_program};
pub use progress::{NoWatch, Watch, progress_line, replay_line};
pub use segload::Totals;
pub use segreplay::CacheTotals;
pub use segtasks::{
    Format, LoadTask, Policies, Refusal, Replay, Task, Word, WordKind, read_command, words_given,
};
pub use stats::{Pace, stats_text};
pub use status::ExitStatus;
pub use streams::Streams;
