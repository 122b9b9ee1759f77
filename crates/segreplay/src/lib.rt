//! Replays of traces: the commands of a trace's lines, made by clients of one cache or several, and counted.
#![tactic(auto)]

mod cache;
mod counts;
mod fault;
mod laws;
mod lives;
mod player;
mod reading;
mod run;
mod totals;

pub use cache::CacheConfig;
pub use counts::{CommandResult, Counts};
pub use fault::{ReplayFault, TraceFault};
pub use laws::traces_are_read;
pub use run::{Follow, ReplayPlan, Replayed, replay};
pub use segtraces::{
    Column, Columns, Form, Operation, Retention, Stated, TraceCommand, TraceLineFault, read_line,
};
pub use totals::CacheTotals;
