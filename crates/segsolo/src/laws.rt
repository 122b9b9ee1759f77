//! The law of a lone pass. This function does nothing: its contract is the theorem.
ghost use Rattle.segsolo.specs.Served.{StartsAlone, CommandIsServed, AnyDrawIsServed};
ghost use Rattle.segsolo.specs.Served.{LockIsServed, UnlockIsServed};
ghost use Rattle.segsolo.specs.Served.{HoldIsServed, HeldIsServed, ReleaseIsServed, NothingIsHeld};

/// If an index has one pass, each call is served as in the model, a command if the draw is 0.
/// With another draw a command is served so but for the frequencies of items.
/// The call leads from the model's state that the pass was at to the one that it is at then.
/// The call's contract is enough for this.
/// What the pass has seen and keeps determines the state. A new index is at the start state.
pub fn one_pass_is_served()
    ensures start { StartsAlone }
    ensures command { CommandIsServed }
    ensures any_draw { AnyDrawIsServed }
    ensures lock { LockIsServed }
    ensures unlock { UnlockIsServed }
    ensures hold { HoldIsServed }
    ensures held { HeldIsServed }
    ensures release { ReleaseIsServed }
    ensures nothing { NothingIsHeld }
{}
