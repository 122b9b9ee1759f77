//! Why a replay failed, or its trace ended early.
use segindex::MakeFault;
use segtraces::TraceLineFault;
use thiserror::Error;

/// Why a replay has no totals.
#[derive(Clone, Copy, Debug, PartialEq, Eq, Error)]
pub enum ReplayFault {
    /// A cache couldn't be made, so nothing was read.
    #[error("{0}")]
    Make(MakeFault),
    /// There was no memory for a list.
    #[error("out of memory")]
    OutOfMemory,
}

/// Why a trace ended before its end. What came before is replayed and counted.
#[derive(Clone, Copy, Debug, PartialEq, Eq, Error)]
pub enum TraceFault {
    /// The reader failed.
    #[error("read failed")]
    Read,
    /// This line states nothing, for this reason. Lines are counted from 1.
    #[error("bad line {0}")]
    Line(u64, TraceLineFault),
    /// There was no memory for a list of commands.
    #[error("out of memory")]
    OutOfMemory,
    /// After 2^64 - 1 reads the trace had no end.
    #[error("too long")]
    TooLong,
}
