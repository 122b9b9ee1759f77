//! The exports that write.
ghost use Rattle.segwrite.specs.declared.condition.Condition.{Condition};
ghost use Rattle.seghandles.specs.Exports.{Answers};
ghost use Rattle.seghandles.specs.Writing.{Deleted, Put, PutFor, Wrote};

use seghandles::{
    Handle, raw_add, raw_cas, raw_delete, raw_put, raw_put_for, raw_replace, raw_set,
};

#[unsafe(no_mangle)]
pub extern "C" fn segcache_raw_put(client: &mut Handle, key: &[u8], value: &[u8], now: u32) -> u32
    ensures { Answers result (Put key.now value.now now client.old.value client.new.value) }
{
    raw_put(client, key, value, now)
}

#[unsafe(no_mangle)]
pub extern "C" fn segcache_raw_put_for(
    client: &mut Handle,
    key: &[u8],
    value: &[u8],
    seconds: u32,
    now: u32,
) -> u32
    ensures { Answers result (PutFor seconds key.now value.now now
        client.old.value client.new.value) }
{
    raw_put_for(client, key, value, seconds, now)
}

#[unsafe(no_mangle)]
pub extern "C" fn segcache_raw_set(client: &mut Handle, key: &[u8], value: &[u8], now: u32) -> u32
    ensures { Answers result (Wrote Condition.Always key.now value.now now
        client.old.value client.new.value) }
{
    raw_set(client, key, value, now)
}

#[unsafe(no_mangle)]
pub extern "C" fn segcache_raw_add(client: &mut Handle, key: &[u8], value: &[u8], now: u32) -> u32
    ensures { Answers result (Wrote Condition.IfAbsent key.now value.now now
        client.old.value client.new.value) }
{
    raw_add(client, key, value, now)
}

#[unsafe(no_mangle)]
pub extern "C" fn segcache_raw_replace(
    client: &mut Handle,
    key: &[u8],
    value: &[u8],
    now: u32,
) -> u32
    ensures { Answers result (Wrote Condition.IfPresent key.now value.now now
        client.old.value client.new.value) }
{
    raw_replace(client, key, value, now)
}

#[unsafe(no_mangle)]
pub extern "C" fn segcache_raw_cas(
    client: &mut Handle,
    key: &[u8],
    value: &[u8],
    version: u32,
    now: u32,
) -> u32
    ensures { Answers result (Wrote (Condition.IfVersion version) key.now value.now now
        client.old.value client.new.value) }
{
    raw_cas(client, key, value, version, now)
}

#[unsafe(no_mangle)]
pub extern "C" fn segcache_raw_delete(client: &mut Handle, key: &[u8], now: u32) -> u32
    ensures { Answers result (Deleted key.now now client.old.value client.new.value) }
{
    raw_delete(client, key, now)
}
