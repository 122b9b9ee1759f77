//! The calls that read.
ghost use Rattle.std.specs.Prelude.{Some};
ghost use Rattle.seghandles.specs.Copying.{TellsLength, TellsVersion};
ghost use Rattle.seghandles.specs.Exports.{Answers};
ghost use Rattle.seghandles.specs.Reading.{Got, GotKey, GotKeyVersion, GotVersion};

use crate::client::SharedClient;
use crate::handle::Handle;
use crate::kept::Kept;
use crate::status::Status;
use segclient::{GetsIntoAnswer, IntoAnswer, Key};

/// Looks up a key at a moment, and copies its value to the buffer.
/// A buffer that is too short is left as it is, and the length says how much is wanted.
pub fn raw_get(
    client: &mut Handle,
    key: &[u8],
    value: &mut [u8],
    value_len: &mut usize,
    now: u32,
) -> u32
    ensures { Answers result (Got key.now now client.old.value client.new.value
        (value.old, value_len.old) (value.new, value_len.new)) }
{
    let Some(kept) = client.kept() else {
        return Status::NoHandle.number();
    };
    get(kept, key, value, value_len, now).number()
}

/// The same, with the version of the key's bucket, for a later compare-and-swap.
pub fn raw_gets(
    client: &mut Handle,
    key: &[u8],
    value: &mut [u8],
    value_len: &mut usize,
    version: &mut u32,
    now: u32,
) -> u32
    ensures { Answers result (GotVersion key.now now client.old.value client.new.value
        (value.old, value_len.old) (value.new, value_len.new) version.old version.new) }
{
    let Some(kept) = client.kept() else {
        return Status::NoHandle.number();
    };
    gets(kept, key, value, value_len, version, now).number()
}

fn get(kept: &mut Kept, key: &[u8], value: &mut [u8], value_len: &mut usize, now: u32) -> Status
    ensures { Got key.now now (Some kept.old) (Some kept.new)
        (value.old, value_len.old) (value.new, value_len.new) result }
{
    let Kept::Client(client) = kept else {
        return Status::NoHandle;
    };
    get_key(client, key, value, value_len, now)
}

// A client's get of a key, if it is one.
#[inline(always)]
pub(crate) fn get_key(
    client: &mut SharedClient,
    key: &[u8],
    value: &mut [u8],
    value_len: &mut usize,
    now: u32,
) -> Status
    ensures { GotKey key.now now (value.old, value_len.old) (value.new, value_len.new) result
        client.old client.new }
{
    let bytes = key;
    let mut key = Key::zero();
    if !key.assign(bytes) {
        return Status::BadKey;
    }
    tell_length(client.get_into(&key, now, value), value_len)
}

// Writes the length of the value that a get found, and returns its status.
fn tell_length(told: IntoAnswer, value_len: &mut usize) -> Status
    ensures { TellsLength told result value_len.old value_len.new }
{
    match told {
        IntoAnswer::Found(length) => {
            *value_len = length;
            Status::Ok
        }
        IntoAnswer::Short(length) => {
            *value_len = length;
            Status::ShortBuffer
        }
        IntoAnswer::Miss => Status::Miss,
        IntoAnswer::Busy => Status::Busy,
    }
}

fn gets(
    kept: &mut Kept,
    key: &[u8],
    value: &mut [u8],
    value_len: &mut usize,
    version: &mut u32,
    now: u32,
) -> Status
    ensures { GotVersion key.now now (Some kept.old) (Some kept.new)
        (value.old, value_len.old) (value.new, value_len.new) version.old version.new result }
{
    let Kept::Client(client) = kept else {
        return Status::NoHandle;
    };
    gets_key(client, key, value, value_len, version, now)
}

// The same of a gets, with the version.
#[inline(always)]
pub(crate) fn gets_key(
    client: &mut SharedClient,
    key: &[u8],
    value: &mut [u8],
    value_len: &mut usize,
    version: &mut u32,
    now: u32,
) -> Status
    ensures { GotKeyVersion key.now now (value.old, value_len.old) (value.new, value_len.new)
        version.old version.new result client.old client.new }
{
    let bytes = key;
    let mut key = Key::zero();
    if !key.assign(bytes) {
        return Status::BadKey;
    }
    tell_version(client.gets_into(&key, now, value), value_len, version)
}

// Writes the length of the value that a gets found, and the version, and returns its status.
fn tell_version(told: GetsIntoAnswer, value_len: &mut usize, version: &mut u32) -> Status
    ensures { TellsVersion told result value_len.old value_len.new version.old version.new }
{
    match told {
        GetsIntoAnswer::Found(length, of) => {
            *value_len = length;
            *version = of;
            Status::Ok
        }
        GetsIntoAnswer::Short(length, of) => {
            *value_len = length;
            *version = of;
            Status::ShortBuffer
        }
        GetsIntoAnswer::Miss => Status::Miss,
        GetsIntoAnswer::Busy => Status::Busy,
    }
}
