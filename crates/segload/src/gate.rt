//! The gate: what lets the commands of a load through.
ghost use Rattle.std.specs.Prelude.{ℕ, Bool, true, ⊤};
ghost use Rattle.segload.specs.Gates.{knows_nothing, IsToldOf, lets_all_through};

/// Before each command of a pass a load calls `enter`, from the pass's own thread.
/// After the command it calls `answered`. The commands of a pass are numbered from 0.
/// By the contracts `enter` comes only after `answered` was called for each earlier command.
/// Tests show that each is called once, and `answered` only after the command.
pub trait Gate: Sync {
    /// What the gate may answer before a command of a pass.
    ghost may_answer: { Self → ℕ → ℕ → Bool → Type 0 } = { λ gate pass call answer. ⊤ };

    /// What is so of the gate once `answered` was called for a command of a pass.
    ghost told: { Self → ℕ → ℕ → Type 0 } = { λ gate. knows_nothing };

    /// Whether the pass may make the command. If it may not, the pass stops.
    /// `answered` was called for all earlier commands of the pass.
    fn enter(&self, pass: u32, call: u32) -> bool
        requires { IsToldOf (told self.now) call pass }
        ensures { may_answer self.now pass call result };

    /// The command was answered. It is one that the gate may let through.
    fn answered(&self, pass: u32, call: u32)
        requires { may_answer self.now pass call true }
        ensures { told self.now pass call };
}

/// A gate that lets every command through.
#[derive(Clone, Copy, Debug, Drop)]
pub struct OpenGate;

impl Gate for OpenGate {
    ghost may_answer = { λ gate. lets_all_through };

    fn enter(&self, _pass: u32, _call: u32) -> bool {
        true
    }

    fn answered(&self, _pass: u32, _call: u32) {}
}
