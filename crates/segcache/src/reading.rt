//! The exports that read.
ghost use Rattle.seghandles.specs.Exports.{Answers};
ghost use Rattle.seghandles.specs.Reading.{Got, GotVersion};

use seghandles::{Handle, raw_get, raw_gets};

#[unsafe(no_mangle)]
pub extern "C" fn segcache_raw_get(
    client: &mut Handle,
    key: &[u8],
    value: &mut [u8],
    value_len: &mut usize,
    now: u32,
) -> u32
    ensures { Answers result (Got key.now now client.old.value client.new.value
        (value.old, value_len.old) (value.new, value_len.new)) }
{
    raw_get(client, key, value, value_len, now)
}

#[unsafe(no_mangle)]
pub extern "C" fn segcache_raw_gets(
    client: &mut Handle,
    key: &[u8],
    value: &mut [u8],
    value_len: &mut usize,
    version: &mut u32,
    now: u32,
) -> u32
    ensures { Answers result (GotVersion key.now now client.old.value client.new.value
        (value.old, value_len.old) (value.new, value_len.new) version.old version.new) }
{
    raw_gets(client, key, value, value_len, version, now)
}
