//! Why a load failed.
use segindex::MakeFault;
use thiserror::Error;

/// Why a load failed.
#[derive(Clone, Copy, Debug, PartialEq, Eq, Error)]
pub enum LoadFault {
    /// The index couldn't be created, so no command was made either.
    #[error("{0}")]
    Make(MakeFault),
    /// The gate stopped this pass, and none below it.
    /// Each other pass went through the gate with all its commands, or was stopped too.
    #[error("stopped pass {0}")]
    Stopped(u32),
    /// There was no memory for a list, or no thread could be started.
    #[error("out of memory")]
    OutOfMemory,
}
