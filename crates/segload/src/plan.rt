//! What the passes of a load are to do.
ghost use Rattle.std.specs.Prelude.{◌≡◌, ◌≤◌};
ghost use Rattle.std.specs.Int.NonZero.{non_zero_u32_get};

use segpolicy::Workload;
use std::num::NonZeroU32;

/// So many commands for each pass, over so many keys, drawn with this seed.
#[derive(Clone, Copy, Debug)]
pub(crate) struct LoadPlan {
    pub(crate) seed: u64,
    pub(crate) commands: u32,
    pub(crate) keys: NonZeroU32,
}

impl LoadPlan {
    ghost use Rattle.segload.specs.Working.{draws_for};

    pub(crate) fn new(seed: u64, commands: u32, keys: u32) -> LoadPlan
        requires { 1 ≤ keys }
        ensures seed { result.seed ≡ seed }
        ensures commands { result.commands ≡ commands }
        ensures keys { non_zero_u32_get result.keys ≡ keys }
    {
        LoadPlan {
            seed,
            commands,
            keys: NonZeroU32::new(keys).unwrap(),
        }
    }

    /// The workload of a pass, which draws its commands.
    pub(crate) fn workload(self, pass: u32) -> Workload
        ensures { result ≡ draws_for self pass }
    {
        Workload::with_keys(self.seed, pass, self.keys.get())
    }
}
