//! The calls that list the content of a closed cache.
ghost use Rattle.seghandles.specs.Ending.{FreesCursor, Listed, ReturnsIn, SeeksIn};
ghost use Rattle.seghandles.specs.Exports.{Answers};

use crate::handle::Handle;
use crate::kept::Kept;
use crate::status::Status;
use std::alloc::Global;

/// Copies the next pair of a closed cache to the two buffers.
/// It closes the next shard first if the last one has no pair left.
/// If that can't be closed, the call is refused, and the next call goes on behind it.
pub fn raw_next(
    alloc: Global,
    cursor: &mut Handle,
    key: &mut [u8],
    key_len: &mut usize,
    value: &mut [u8],
    value_len: &mut usize,
) -> u32
    ensures { Answers result (Listed cursor.old.value cursor.new.value
        (key.old, key_len.old) (key.new, key_len.new)
        (value.old, value_len.old) (value.new, value_len.new)) }
{
    let Some(mut kept) = cursor.take(alloc) else {
        return Status::NoHandle.number();
    };
    let sought = seek(alloc, &mut kept);
    if sought != Status::Ok {
        cursor.fill(alloc, kept);
        return sought.number();
    }
    let status = next(&mut kept, key, key_len, value, value_len);
    cursor.fill(alloc, kept);
    status.number()
}

/// Frees a cursor.
pub fn raw_cursor_free(alloc: Global, cursor: &mut Handle) -> u32
    ensures { Answers result (FreesCursor cursor.old.value cursor.new.value) }
{
    let Some(kept) = cursor.take(alloc) else {
        return Status::NoHandle.number();
    };
    if !kept.is_cursor() {
        cursor.fill(alloc, kept);
        return Status::NoHandle.number();
    }
    Status::Ok.number()
}

// Closes shards until there is a next pair, if it is a cursor.
fn seek(alloc: Global, kept: &mut Kept) -> Status
    ensures { SeeksIn kept.old kept.new result }
{
    let Kept::Cursor(cursor) = kept else {
        return Status::NoHandle;
    };
    cursor.seek(alloc)
}

fn next(
    kept: &mut Kept,
    key: &mut [u8],
    key_len: &mut usize,
    value: &mut [u8],
    value_len: &mut usize,
) -> Status
    ensures { ReturnsIn kept.old kept.new
        (key.old, key_len.old) (key.new, key_len.new)
        (value.old, value_len.old) (value.new, value_len.new) result }
{
    let Kept::Cursor(cursor) = kept else {
        return Status::NoHandle;
    };
    cursor.next(key, key_len, value, value_len)
}
