//! The exports that list the content of a closed cache.
ghost use Rattle.seghandles.specs.Ending.{FreesCursor, Listed};
ghost use Rattle.seghandles.specs.Exports.{Answers};

use seghandles::{Handle, raw_cursor_free, raw_next};
use std::alloc::Global;

#[unsafe(no_mangle)]
pub extern "C" fn segcache_raw_next(
    alloc: Global,
    cursor: &mut Handle,
    key: &mut [u8],
    key_len: &mut usize,
    value: &mut [u8],
    value_len: &mut usize,
) -> u32
    ensures { Answers result (Listed cursor.old.value cursor.new.value
        (key.old, key_len.old) (key.new, key_len.new)
        (value.old, value_len.old) (value.new, value_len.new)) }
{
    raw_next(alloc, cursor, key, key_len, value, value_len)
}

#[unsafe(no_mangle)]
pub extern "C" fn segcache_raw_cursor_free(alloc: Global, cursor: &mut Handle) -> u32
    ensures { Answers result (FreesCursor cursor.old.value cursor.new.value) }
{
    raw_cursor_free(alloc, cursor)
}
