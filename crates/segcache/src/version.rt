//! The exports that return the version of the library, and its sizes.
ghost use Rattle.std.specs.Prelude.{◌≡◌, ◌+◌, ◌*◌, ◌^◌};

use segword::{KEY_BYTES, VALUE_BYTES};

/// The version: 1,000,000 times its first number, 10,000 times its second and 100 times its third.
/// A release has 1 more than what came before it.
#[unsafe(no_mangle)]
pub extern "C" fn segcache_raw_version() -> u32
    ensures { result ≡ 40000 }
{
    40_000
}

/// The longest key and value, in one number: 65,536 times the bytes of the one, and the bytes of
/// the other.
#[unsafe(no_mangle)]
pub extern "C" fn segcache_raw_sizes() -> u32
    ensures { result ≡ KEY_BYTES * 2 ^ 16 + VALUE_BYTES }
{
    (KEY_BYTES * 65_536 + VALUE_BYTES) as u32
}
