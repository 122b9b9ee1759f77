//! Which items a cache's clients keep, by a word.
ghost use Rattle.std.specs.Prelude.{◌≡◌};
ghost use Rattle.segtraces.specs.Policies.{cutoff_of};

use crate::word::number_of;

/// Which items the puts of a client keep.
#[derive(Clone, Copy, Debug, PartialEq, Eq)]
pub enum Retention {
    /// Those that a new client keeps.
    Default,
    Nothing,
    /// Those of at least this frequency.
    Cutoff(u8),
}

// The policy that keeps what has this frequency, if it is one.
fn cutoff_of(least: Option<u32>) -> Option<Retention>
    ensures { result ≡ cutoff_of least }
{
    match least {
        Some(least) if least < 256 => Some(Retention::Cutoff(least as u8)),
        _ => None,
    }
}

impl Retention {
    ghost use Rattle.std.specs.Prelude.{◌≡◌};
    ghost use Rattle.segtraces.specs.Policies.{policy_named};

    /// The policy of a word: `default`, `nothing`, or `cutoff:` and a frequency.
    pub fn named(word: &[u8]) -> Option<Retention>
        ensures { result ≡ policy_named word.now }
    {
        if word == b"default".as_slice() {
            return Some(Retention::Default);
        }
        if word == b"nothing".as_slice() {
            return Some(Retention::Nothing);
        }
        match word.strip_prefix(b"cutoff:".as_slice()) {
            Some(digits) => cutoff_of(number_of(digits)),
            None => None,
        }
    }
}
