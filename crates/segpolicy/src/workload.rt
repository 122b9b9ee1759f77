//! The commands that a pass makes in a load, drawn so that they can be replayed.
ghost use Rattle.std.specs.Prelude.{◌≡◌, ◌≤◌};
ghost use Rattle.segpolicy.specs.Draws.{draws_of, next_load, after_load};

use crate::load::{Load, load_of};
use rand_core::utils::NextWord;
use rand_pcg::Lcg64Xsh32;
use std::marker::Model;

/// The commands of one pass: the same ones in each run with the same seed. They are drawn from the
/// generator PCG XSH RR 64/32 (O'Neill 2014), each pass from the stream of its number.
#[derive(Debug, Drop)]
pub struct Workload {
    generator: Lcg64Xsh32,
    keys: u32,
}

impl Model for Workload {
    ghost use Rattle.std.specs.Prelude.{◌≤◌};
    ghost use Rattle.segpolicy.specs.Draws.{Draws};

    ghost Value = { Draws };

    ghost view = { λ workload. record { generator = workload.generator; keys = workload.keys } };

    ghost invariant = { λ workload. 1 ≤ workload.keys };
}

impl Workload {
    /// How many keys a workload has by default: `k0` to `k63`.
    pub const KEYS: u32 = 64;

    /// The commands of a pass over the keys `k0` to `k63`.
    pub fn new(seed: u64, pass: u32) -> Workload
        ensures { result ≡ draws_of seed pass Workload.KEYS }
    {
        Workload::with_keys(seed, pass, Self::KEYS)
    }

    /// The commands of a pass over the keys `k0`, `k1`, .. of which there are `keys`, at least 1.
    pub fn with_keys(seed: u64, pass: u32, keys: u32) -> Workload
        requires { 1 ≤ keys }
        ensures { result ≡ draws_of seed pass keys }
    {
        Workload {
            generator: Lcg64Xsh32::new(seed, u64::from(pass)),
            keys,
        }
    }

    /// The next command, which takes three words of the generator and no memory.
    pub fn next(&mut self) -> Load
        ensures value { result ≡ next_load self.old }
        ensures after { self.new ≡ after_load self.old }
    {
        let first = self.generator.next_word();
        let second = self.generator.next_word();
        let third = self.generator.next_word();
        load_of(self.keys, first, second, third)
    }
}
