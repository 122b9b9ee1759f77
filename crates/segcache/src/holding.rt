//! The exports of holds: a value that is read again and again until it is released.
ghost use Rattle.seghandles.specs.Exports.{Answers};
ghost use Rattle.seghandles.specs.Reading.{GotHeld, Held, Released};

use seghandles::{Handle, raw_held_value, raw_hold, raw_release};

#[unsafe(no_mangle)]
pub extern "C" fn segcache_raw_hold(client: &mut Handle, key: &[u8], now: u32) -> u32
    ensures { Answers result (Held key.now now client.old.value client.new.value) }
{
    raw_hold(client, key, now)
}

#[unsafe(no_mangle)]
pub extern "C" fn segcache_raw_held_value(
    client: &mut Handle,
    value: &mut [u8],
    value_len: &mut usize,
) -> u32
    ensures { Answers result (GotHeld client.old.value client.new.value
        (value.old, value_len.old) (value.new, value_len.new)) }
{
    raw_held_value(client, value, value_len)
}

#[unsafe(no_mangle)]
pub extern "C" fn segcache_raw_release(client: &mut Handle) -> u32
    ensures { Answers result (Released client.old.value client.new.value) }
{
    raw_release(client)
}
