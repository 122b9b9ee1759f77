//! The calls that write.
ghost use Rattle.std.specs.Prelude.{◌≡◌, Some};
ghost use Rattle.seghandles.specs.Exports.{Answers};
ghost use Rattle.seghandles.specs.Writing.{delete_status, Deleted, Put, put_status, PutFor};
ghost use Rattle.seghandles.specs.Writing.{write_status, Wrote};

use crate::handle::Handle;
use crate::kept::Kept;
use crate::status::Status;
use segclient::{Condition, DeleteAnswer, Key, PutAnswer, ValueBytes, WriteAnswer};

// The status of an answer to a put.
fn of_put(answer: PutAnswer) -> Status
    ensures { result ≡ put_status answer }
{
    match answer {
        PutAnswer::Stored => Status::Ok,
        PutAnswer::NoRoom => Status::NoRoom,
        PutAnswer::BucketFull => Status::BucketFull,
        PutAnswer::Busy => Status::Busy,
    }
}

// The status of an answer to a write.
fn of_write(answer: WriteAnswer) -> Status
    ensures { result ≡ write_status answer }
{
    match answer {
        WriteAnswer::Stored => Status::Ok,
        WriteAnswer::NotStored => Status::NotStored,
        WriteAnswer::Exists => Status::Exists,
        WriteAnswer::NotFound => Status::NotFound,
        WriteAnswer::NoRoom => Status::NoRoom,
        WriteAnswer::BucketFull => Status::BucketFull,
        WriteAnswer::Busy => Status::Busy,
    }
}

// The status of an answer to a delete.
fn of_delete(answer: DeleteAnswer) -> Status
    ensures { result ≡ delete_status answer }
{
    match answer {
        DeleteAnswer::Deleted => Status::Ok,
        DeleteAnswer::NotFound => Status::NotFound,
        DeleteAnswer::Busy => Status::Busy,
    }
}

/// Stores a value under a key, and makes room for it if there is none.
pub fn raw_put(client: &mut Handle, key: &[u8], value: &[u8], now: u32) -> u32
    ensures { Answers result (Put key.now value.now now client.old.value client.new.value) }
{
    let Some(kept) = client.kept() else {
        return Status::NoHandle.number();
    };
    put(kept, key, value, now).number()
}

fn put(kept: &mut Kept, key: &[u8], value: &[u8], now: u32) -> Status
    ensures { Put key.now value.now now (Some kept.old) (Some kept.new) result }
{
    let Kept::Client(client) = kept else {
        return Status::NoHandle;
    };
    let bytes = key;
    let mut key = Key::zero();
    if !key.assign(bytes) {
        return Status::BadKey;
    }
    let Some(value) = ValueBytes::new(value) else {
        return Status::BadValue;
    };
    of_put(client.put(&key, &value, now))
}

/// Stores a value under a key as `raw_put` does, but for this time to live in place
/// of the client's own.
pub fn raw_put_for(client: &mut Handle, key: &[u8], value: &[u8], seconds: u32, now: u32) -> u32
    ensures { Answers result (PutFor seconds key.now value.now now
        client.old.value client.new.value) }
{
    let Some(kept) = client.kept() else {
        return Status::NoHandle.number();
    };
    put_for(kept, key, value, seconds, now).number()
}

fn put_for(kept: &mut Kept, key: &[u8], value: &[u8], seconds: u32, now: u32) -> Status
    ensures { PutFor seconds key.now value.now now (Some kept.old) (Some kept.new) result }
{
    let Kept::Client(client) = kept else {
        return Status::NoHandle;
    };
    let bytes = key;
    let mut key = Key::zero();
    if !key.assign(bytes) {
        return Status::BadKey;
    }
    let Some(value) = ValueBytes::new(value) else {
        return Status::BadValue;
    };
    of_put(client.put_for(&key, &value, seconds, now))
}

/// Stores a value under a key, and makes no room.
pub fn raw_set(client: &mut Handle, key: &[u8], value: &[u8], now: u32) -> u32
    ensures { Answers result (Wrote Condition.Always key.now value.now now
        client.old.value client.new.value) }
{
    write_by(client, Condition::Always, key, value, now)
}

/// Stores a value if the key is absent.
pub fn raw_add(client: &mut Handle, key: &[u8], value: &[u8], now: u32) -> u32
    ensures { Answers result (Wrote Condition.IfAbsent key.now value.now now
        client.old.value client.new.value) }
{
    write_by(client, Condition::IfAbsent, key, value, now)
}

/// Stores a value if the key is present.
pub fn raw_replace(client: &mut Handle, key: &[u8], value: &[u8], now: u32) -> u32
    ensures { Answers result (Wrote Condition.IfPresent key.now value.now now
        client.old.value client.new.value) }
{
    write_by(client, Condition::IfPresent, key, value, now)
}

/// Stores a value if the key is present and its bucket has the version.
pub fn raw_cas(client: &mut Handle, key: &[u8], value: &[u8], version: u32, now: u32) -> u32
    ensures { Answers result (Wrote (Condition.IfVersion version) key.now value.now now
        client.old.value client.new.value) }
{
    write_by(client, Condition::IfVersion(version), key, value, now)
}

// A set, an add, a replace or a compare-and-swap by what a handle has, and the status's number.
#[inline(always)]
fn write_by(client: &mut Handle, when: Condition, key: &[u8], value: &[u8], now: u32) -> u32
    ensures { Answers result (Wrote when key.now value.now now
        client.old.value client.new.value) }
{
    let Some(kept) = client.kept() else {
        return Status::NoHandle.number();
    };
    write(kept, when, key, value, now).number()
}

// The same by a client.
#[inline(always)]
fn write(kept: &mut Kept, when: Condition, key: &[u8], value: &[u8], now: u32) -> Status
    ensures { Wrote when key.now value.now now (Some kept.old) (Some kept.new) result }
{
    let Kept::Client(client) = kept else {
        return Status::NoHandle;
    };
    let bytes = key;
    let mut key = Key::zero();
    if !key.assign(bytes) {
        return Status::BadKey;
    }
    let Some(value) = ValueBytes::new(value) else {
        return Status::BadValue;
    };
    of_write(client.write(when, &key, &value, now))
}

/// Takes a key out.
pub fn raw_delete(client: &mut Handle, key: &[u8], now: u32) -> u32
    ensures { Answers result (Deleted key.now now client.old.value client.new.value) }
{
    let Some(kept) = client.kept() else {
        return Status::NoHandle.number();
    };
    delete(kept, key, now).number()
}

fn delete(kept: &mut Kept, key: &[u8], now: u32) -> Status
    ensures { Deleted key.now now (Some kept.old) (Some kept.new) result }
{
    let Kept::Client(client) = kept else {
        return Status::NoHandle;
    };
    let bytes = key;
    let mut key = Key::zero();
    if !key.assign(bytes) {
        return Status::BadKey;
    }
    of_delete(client.delete(&key, now))
}
