//! Scripts of cache commands over the object index: read from a source, served line by line,
//! with the replies written to a sink.
#![tactic(auto)]

mod device;
mod engine;
mod explain;
mod fault;
pub mod laws;
mod limits;
mod line;
mod memory;
mod reason;
mod run;
mod script;
mod server;
mod standard;
mod text;
mod turns;
mod word;

pub use device::{Failed, Sink, Source, write_all};
pub use explain::{BadLine, Explaining};
pub use fault::RunFault;
pub use limits::{LINE_BYTES, REPLY_BYTES};
pub use line::{ReplyLine, read_line, reply_of};
pub use memory::{MemSink, MemSource, WhenFull};
pub use reason::{LineFault, Part, WordFault, line_fault};
pub use script::{run_script, serve_script};
pub use segtext::{LineBuffer, Taken, number_below};
pub use server::Server;
pub use standard::{ReadSource, WriteSink};
pub use text::{Line, line_of, put, put_number};
