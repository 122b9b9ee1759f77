//! What can go wrong in a run.
use segindex::MakeFault;
use thiserror::Error;

/// Why a run of a script stopped.
#[derive(Clone, Copy, Debug, PartialEq, Eq, Error)]
pub enum RunFault {
    /// The reader failed.
    #[error("read failed")]
    Read,
    /// The writer failed, or a write took none of its bytes.
    #[error("write failed")]
    Write,
    /// This line is the first bad one. Lines are counted from 1.
    #[error("bad line {0}")]
    Line(u64),
    /// The index couldn't be created, so nothing was read or written.
    #[error("{0}")]
    Make(MakeFault),
    /// After 2^63 bytes the script had no end.
    #[error("script too long")]
    TooLong,
}
