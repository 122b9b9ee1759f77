//! The index, and how one is created.
ghost use Rattle.std.specs.Prelude.{◌≡◌, IfOk, IfErr};
ghost use Rattle.segword.specs.Words.{longest};

use segbase::{Board, MakeFault, Pass};
use segword::{Limits, Shape};
use std::alloc::Global;

/// The object index. It is used through its passes, each by one thread at a time.
#[derive(Drop)]
pub struct Index {
    pub(crate) board: Board,
    ghost limits: { board.limits ≡ longest },
}

impl Index {
    ghost use Rattle.segbase.specs.Words.{IsMakeFault};
    ghost use Rattle.segindex.specs.Index.{board_of, shape_of};
    ghost use Rattle.segindex.specs.Index.{IsNew};

    /// An index of this shape with its passes, in the order of their numbers.
    /// Of the later calls only those that close it take an allocator.
    pub fn new(alloc: Global, shape: Shape) -> Result<(Index, Vec<Pass>), MakeFault>
        ensures made { IfOk result (λ made. IsNew shape made.0 made.1.items) }
        ensures fault { IfErr result (IsMakeFault shape) }
    {
        let (board, passes) = Board::new(alloc, shape)?;
        Ok((Index { board }, passes))
    }

    /// The shape of the index.
    pub fn shape(&self) -> Shape
        ensures { result ≡ shape_of self.now }
    {
        self.board.shape()
    }

    /// How long keys and values of the index are at most.
    pub fn limits(&self) -> Limits
        ensures { result ≡ (board_of self.now).limits }
    {
        self.board.limits()
    }
}
