//! Values in place: the bytes stand in a `Value` or in any slice, and aren't copied.
ghost use Rattle.std.specs.Prelude.{◌≡◌, ◌≤◌, ◌*◌, ◌↔◌, length, IsSome, IfSome};
ghost use Rattle.segword.specs.Bytes.{IsValue};
ghost use Rattle.segword.specs.Row.{word_at};

use crate::Value;
use crate::value::VALUE_BYTES;
use crate::words::word_at;
use std::marker::Model;

/// The bytes of a value where they stand: at most `VALUE_BYTES`, any bytes.
/// Contracts see them as the list of the bytes.
#[derive(Drop)]
pub struct ValueBytes<'v> {
    bytes: &'v [u8],
}

impl<'v> Model for ValueBytes<'v> {
    ghost use Rattle.std.specs.Prelude.{ℕ, List};
    ghost use Rattle.segword.specs.Bytes.{IsValue};

    ghost Value = { List ℕ };

    ghost view = { λ value. value.bytes.now };

    ghost invariant = { λ value. IsValue value.bytes.now };
}

impl<'v> ValueBytes<'v> {
    /// These bytes as a value, or `None` if there are over `VALUE_BYTES`.
    #[inline(always)]
    pub fn new(bytes: &'v [u8]) -> Option<ValueBytes<'v>>
        ensures variant { IsSome result ↔ (length bytes.now ≤ VALUE_BYTES) }
        ensures some { IfSome result (λ value. value ≡ bytes.now) }
        ensures valid { IfSome result IsValue }
    {
        if bytes.len() > VALUE_BYTES {
            return None;
        }
        Some(ValueBytes { bytes })
    }

    /// The bytes of a value.
    #[inline(always)]
    pub fn of(value: &'v Value) -> ValueBytes<'v>
        ensures value { result ≡ value.now }
        ensures valid { IsValue value.now }
    {
        ValueBytes {
            bytes: value.as_bytes(),
        }
    }

    /// How many bytes there are.
    #[inline(always)]
    pub fn len(&self) -> usize
        ensures len { result ≡ length self.now }
        ensures valid { IsValue self.now }
    {
        self.bytes.len()
    }

    // One of the words. Behind the last it is 0.
    #[inline(always)]
    pub(crate) fn word(&self, place: usize) -> u64
        requires { place ≤ 1024 }
        ensures { result ≡ word_at self.now (8 * place) }
    {
        word_at(self.bytes, 8 * place)
    }
}
