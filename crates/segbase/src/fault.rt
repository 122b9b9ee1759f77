//! Why a board could not be created.
use segword::ShapeFault;
use thiserror::Error;

/// Why an index could not be created. Nothing of it is left then.
#[derive(Clone, Copy, Debug, PartialEq, Eq, Error)]
pub enum MakeFault {
    /// An index can't have this shape.
    #[error("{0}")]
    Shape(ShapeFault),
    #[error("out of memory")]
    OutOfMemory,
}
