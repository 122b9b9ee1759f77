//! The board: the table of the index's words, and how it is created.
ghost use Rattle.std.specs.Prelude.{◌≡◌, ◌<◌, ◌≤◌, ◌^◌, [], IfOk, IfErr, replicate};
ghost use Rattle.std.specs.Box.{boxed_slice_items};
ghost use Rattle.segword.specs.Words.{longest, word_count};
ghost use Rattle.segbase.specs.Constants.{constants};
ghost use Rattle.segbase.specs.Spots.{IsLayoutOf};

use crate::fault::MakeFault;
use crate::law::{Constants, Deal, Law, Sight};
use crate::layout::Layout;
use crate::opening::opening_words;
use crate::pass::{OwnSegment, Pass, PlainPart};
use atomic_table::{Seat, Table};
use segmodel::SegState;
use segword::{Limits, Shape};
use std::alloc::{AllocError, Global};
use std::boxed::BoxedSlice;

/// The words of an index, which its passes change in single atomic steps.
#[derive(Drop)]
pub struct Board {
    pub(crate) table: Table<(), Sight, Constants, Law, Global>,
    pub(crate) shape: Shape,
    pub(crate) limits: Limits,
    pub(crate) layout: Layout,
    ghost same: { table.shared.key ≡ constants shape limits },
    ghost long: { table.shared.table_id.words ≡ word_count shape },
    ghost slots: { table.shared.table_id.slots ≡ 0 },
    ghost small: { word_count shape ≤ 2 ^ 26 },
    ghost laid: { IsLayoutOf shape layout },
}

impl Board {
    ghost use Rattle.segword.specs.Words.{IsValid};
    ghost use Rattle.segbase.specs.Ruled.{first_sight};
    ghost use Rattle.segbase.specs.Made.{IsDealt, IsNewPlain, IsMade, IsMakeFault, unfilled};

    /// A board of this shape with its passes, in the order of their numbers. It takes the longest
    /// keys and values. The calls that use them take no allocator.
    pub fn new(alloc: Global, shape: Shape) -> Result<(Board, Vec<Pass>), MakeFault>
        ensures made { IfOk result (λ made. IsMade shape longest made.0 made.1.items) }
        ensures fault { IfErr result (IsMakeFault shape) }
    {
        Board::with_limits(alloc, shape, Limits::longest())
    }

    /// The same with limits of its own: a write asks for a key and a value that are within them.
    pub fn with_limits(
        alloc: Global,
        shape: Shape,
        limits: Limits,
    ) -> Result<(Board, Vec<Pass>), MakeFault>
        ensures made { IfOk result (λ made. IsMade shape limits made.0 made.1.items) }
        ensures fault { IfErr result (IsMakeFault shape) }
    {
        if let Err(fault) = shape.check() {
            return Err(MakeFault::Shape(fault));
        }
        match Board::make(alloc, shape, limits) {
            Ok(made) => Ok(made),
            Err(AllocError) => Err(MakeFault::OutOfMemory),
        }
    }

    fn make(alloc: Global, shape: Shape, limits: Limits) -> Result<(Board, Vec<Pass>), AllocError>
        requires { IsValid shape }
        ensures { IfOk result (λ made. IsMade shape limits made.0 made.1.items) }
    {
        let words = opening_words(alloc, shape)?;
        let (table, seat) = Table::of_words(alloc, words.as_slice(), &Constants { shape, limits })?;
        let board = Board {
            table,
            shape,
            limits,
            layout: Layout::new(&shape),
        };
        let passes = board.deal(alloc, seat)?;
        Ok((board, passes))
    }

    // All passes. The first seat deals the others.
    fn deal(&self, alloc: Global, first: Seat<(), Sight>) -> Result<Vec<Pass>, AllocError>
        requires valid { IsValid self.now.shape }
        requires seat { (first.table_id ≡ self.now.table.shared.table_id)
            × (first.me ≡ (first_sight, [])) }
        ensures { IfOk result (λ passes. IsDealt self.now self.now.shape.passes passes.items) }
    {
        let mut passes = Vec::with_capacity(alloc, self.shape.passes as usize)?;
        passes.push(self.pass(alloc, first, 0)?)?;
        for number in 1..self.shape.passes {
            let seat = self.table.shared.split_seat::<Deal>(&mut passes[0].seat);
            passes.push(self.pass(alloc, seat, number)?)?;
        }
        Ok(passes)
    }

    // A pass with this seat, none of whose segments was ever filled.
    fn pass(&self, alloc: Global, seat: Seat<(), Sight>, number: u32) -> Result<Pass, AllocError>
        requires valid { IsValid self.now.shape }
        requires number { number < self.now.shape.passes }
        ensures { IfOk result (λ pass.
            (pass.seat ≡ seat) × IsNewPlain self.now.shape number pass.plain) }
    {
        let segments = Board::unfilled_segments(alloc, self.shape.segments_each)?;
        let plain = PlainPart {
            number,
            first: number * self.shape.segments_each,
            rows: self.shape.rows,
            segments,
            current: None,
            locked: None,
            is_holding: false,
        };
        Ok(Pass { seat, plain })
    }

    // So many segments, none of which was ever filled.
    fn unfilled_segments(alloc: Global, count: u32) -> Result<BoxedSlice<OwnSegment>, AllocError>
        ensures { IfOk result (λ segments. boxed_slice_items segments ≡ replicate count unfilled) }
    {
        let mut segments = Vec::with_capacity(alloc, count as usize)?;
        for _ in 0..count {
            segments.push(OwnSegment {
                state: SegState::Empty,
                used: 0,
                deadline: 0,
            })?;
        }
        Ok(segments.into_boxed_slice())
    }

    /// The shape of the board.
    pub fn shape(&self) -> Shape
        ensures { result ≡ self.now.shape }
    {
        self.shape
    }

    /// The limits of the board's keys and values.
    pub fn limits(&self) -> Limits
        ensures { result ≡ self.now.limits }
    {
        self.limits
    }
}
