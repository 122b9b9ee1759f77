//! The calls of holds: a value that is read again and again until it is released.
ghost use Rattle.std.specs.Prelude.{Some};
ghost use Rattle.seghandles.specs.Copying.{TellsHeld};
ghost use Rattle.seghandles.specs.Exports.{Answers};
ghost use Rattle.seghandles.specs.Reading.{GotHeld, Held, Released};

use crate::handle::Handle;
use crate::kept::Kept;
use crate::status::Status;
use segclient::Key;

/// Holds the item of a key. A client holds one item at most.
pub fn raw_hold(client: &mut Handle, key: &[u8], now: u32) -> u32
    ensures { Answers result (Held key.now now client.old.value client.new.value) }
{
    let Some(kept) = client.kept() else {
        return Status::NoHandle.number();
    };
    hold(kept, key, now).number()
}

/// Copies the value that is held to the buffer, as a get does.
pub fn raw_held_value(client: &mut Handle, value: &mut [u8], value_len: &mut usize) -> u32
    ensures { Answers result (GotHeld client.old.value client.new.value
        (value.old, value_len.old) (value.new, value_len.new)) }
{
    let Some(kept) = client.kept() else {
        return Status::NoHandle.number();
    };
    held_value(kept, value, value_len).number()
}

/// Ends a hold.
pub fn raw_release(client: &mut Handle) -> u32
    ensures { Answers result (Released client.old.value client.new.value) }
{
    let Some(kept) = client.kept() else {
        return Status::NoHandle.number();
    };
    release(kept).number()
}

fn hold(kept: &mut Kept, key: &[u8], now: u32) -> Status
    ensures { Held key.now now (Some kept.old) (Some kept.new) result }
{
    let Kept::Client(client) = kept else {
        return Status::NoHandle;
    };
    let bytes = key;
    let mut key = Key::zero();
    if !key.assign(bytes) {
        return Status::BadKey;
    }
    client.hold(&key, now)
}

fn held_value(kept: &mut Kept, value: &mut [u8], value_len: &mut usize) -> Status
    ensures { GotHeld (Some kept.old) (Some kept.new)
        (value.old, value_len.old) (value.new, value_len.new) result }
{
    let Kept::Client(client) = kept else {
        return Status::NoHandle;
    };
    tell_held(client.held_into(value), value_len)
}

// Writes the length of the value that is held, and returns the status of a read of it.
fn tell_held(told: Option<Result<usize, usize>>, value_len: &mut usize) -> Status
    ensures { TellsHeld told result value_len.old value_len.new }
{
    match told {
        Some(Ok(length)) => {
            *value_len = length;
            Status::Ok
        }
        Some(Err(length)) => {
            *value_len = length;
            Status::ShortBuffer
        }
        None => Status::NotHolding,
    }
}

fn release(kept: &mut Kept) -> Status
    ensures { Released (Some kept.old) (Some kept.new) result }
{
    let Kept::Client(client) = kept else {
        return Status::NoHandle;
    };
    if client.release() {
        Status::Ok
    } else {
        Status::NotHolding
    }
}
