//! What runs on the table, as runs of worlds. The functions do nothing: their contracts are laws.
ghost use Rattle.segbase.specs.Running.{RunningStepIsOfARun, SeatsLeaveTheWorld};

/// Each step that a pass takes on the table is a step of a run, by the contracts of steps and the
/// table's rule alone. So what holds of runs holds of it.
pub fn running_step()
    ensures { RunningStepIsOfARun }
{}

/// What is done with seats beside steps changes no world.
pub fn seats_beside()
    ensures { SeatsLeaveTheWorld }
{}
