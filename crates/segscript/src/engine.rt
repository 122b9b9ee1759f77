//! The engine: what takes the turns of a script.
ghost use Rattle.std.specs.Prelude.{◌≡◌, ◌<◌};
ghost use Rattle.segword.specs.declared.shape.Shape.{Shape};
ghost use Rattle.segmodel.specs.declared.answer.Outcome.{Outcome};
ghost use Rattle.segscript.specs.Spelling.{PassTurn};

use segmodel::{Outcome, Turn};

/// Takes the turns of the passes of a script, and returns their outcomes.
pub trait Engine {
    ghost shape: { Self → Shape };

    /// What is so of the engine between turns.
    ghost is_ready: { Self → Type 0 };

    /// One turn of a pass, with this outcome, leads from the one state to the other.
    ghost turns: { Self → PassTurn → Outcome → Self → Type 0 };

    /// How many passes the engine has.
    fn passes(&self) -> u32
        ensures { result ≡ (shape self.now).passes };

    /// Takes one turn of a pass.
    fn turn(&mut self, pass: u32, turn: &Turn) -> Outcome
        requires pass { pass < (shape self.old).passes }
        requires ready { is_ready self.old }
        ensures ready { is_ready self.new }
        ensures shape { shape self.new ≡ shape self.old }
        ensures turns { turns self.old (pass, turn.now) result self.new };
}
