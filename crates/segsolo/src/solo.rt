//! An index with its one pass, which serves commands one after the other,
//! as the cache of one thread does.
ghost use Rattle.std.specs.Prelude.{◌≡◌, IsOk, IfOk, IfErr};
ghost use Rattle.segmodel.specs.Words.{fresh, Serves};
ghost use Rattle.segbase.specs.Words.{IsMakeFault};
ghost use Rattle.segindex.specs.Words.{AnswersCommand, board_of as index_board_of};
ghost use Rattle.segsolo.specs.Alone.{IsAlone};
ghost use Rattle.segsolo.specs.Props.{IsAlone-prop};

use segindex::{Index, MakeFault, Pass};
use segmodel::{Answer, Command, PlainFault, Shelf};
use segword::Shape;
use std::alloc::Global;

// The draw of each hit. With this draw a hit raises the frequency if it may, as in the model.
const DRAW: u32 = 0;

/// An index with its one pass.
#[derive(Drop)]
pub struct Solo {
    index: Index,
    pass: Pass,
    ghost alone: { IsAlone (index_board_of index) pass } by { IsAlone-prop (index_board_of index) pass },
}

impl Solo {
    ghost use Rattle.segsolo.specs.Solo.{board_of, shape_of, state_of, pass_of};

    /// An index of this shape, which has one pass, with nothing stored.
    /// No later call takes an allocator.
    pub fn new(alloc: Global, shape: Shape) -> Result<Solo, MakeFault>
        requires one_pass { shape.passes ≡ 1 }
        ensures shape { IfOk result (λ solo. shape_of solo ≡ shape) }
        ensures start { IfOk result (λ solo. state_of solo ≡ fresh shape) }
        ensures fault { IfErr result (IsMakeFault shape) }
    {
        let (index, mut passes) = Index::new(alloc, shape)?;
        match passes.pop() {
            Some(pass) => Ok(Solo { index, pass }),
            None => unreachable!(),
        }
    }

    /// Serves one command, and never fails.
    pub fn answer(&mut self, command: &Command) -> Answer
        ensures shape { shape_of self.new ≡ shape_of self.old }
        ensures serves { Serves (shape_of self.old) (state_of self.old) command.now
            result (state_of self.new) }
        ensures answers { AnswersCommand (board_of self.old) command.now 0 result
            (pass_of self.old) (pass_of self.new) }
    {
        self.index.serve(&mut self.pass, command, DRAW)
    }
}

impl Shelf for Solo {
    ghost use Rattle.segsolo.specs.Solo.{shape_of, state_of};

    ghost shape = { shape_of };

    ghost state = { state_of };

    fn serve(&mut self, command: &Command) -> Result<Answer, PlainFault>
        ensures never_fails { IsOk result }
        ensures shape { shape_of self.new ≡ shape_of self.old }
        ensures serves { IfOk result (λ answer.
            Serves (shape_of self.old) (state_of self.old) command.now answer (state_of self.new)) }
    {
        Ok(self.answer(command))
    }
}
