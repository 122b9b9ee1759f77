//! What stands in traces: a line's command or columns, and the words of both; and the word of a policy.
#![tactic(auto)]

mod line;
mod retention;
mod word;

pub use line::{Column, Columns, Form, Operation, Stated, TraceCommand, TraceLineFault, read_line};
pub use retention::Retention;
