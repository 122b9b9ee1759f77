//! The limits of a table: how long its keys and values are at most.
ghost use Rattle.std.specs.Prelude.{◌≡◌};
ghost use Rattle.segword.specs.Limits.{SpansAreFew, longest, most_rows};

use crate::key::KEY_BYTES;
use crate::spans::span;
use crate::value::VALUE_BYTES;

/// How many bytes a key and a value of a table have at most.
#[derive(Clone, Copy, Debug, PartialEq, Eq)]
pub struct Limits {
    /// The most bytes of a key.
    pub key: u32,
    /// The most bytes of a value.
    pub value: u32,
}

impl Limits {
    /// The longest keys and values that there are.
    pub fn longest() -> Limits
        ensures { result ≡ longest }
    {
        Limits {
            key: KEY_BYTES as u32,
            value: VALUE_BYTES as u32,
        }
    }

    /// How many rows an item of such a table takes at most.
    pub fn most_rows(self) -> u32
        ensures rows { result ≡ most_rows self }
        ensures few { SpansAreFew }
    {
        span(self.key, self.value)
    }
}
