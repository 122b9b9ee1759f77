//! The exports that look up several keys at a time, so that their waits for memory overlap.
ghost use Rattle.std.specs.Prelude.{false, true};
ghost use Rattle.seghandles.specs.Exports.{Answers};
ghost use Rattle.seghandles.specs.Many.{GotMany, LooksAhead};

use seghandles::{Handle, KeyPlace, Lookup, raw_get_many, raw_gets_many, raw_look_ahead};

#[unsafe(no_mangle)]
pub extern "C" fn segcache_raw_get_many(
    client: &mut Handle,
    keys: &[u8],
    lookups: &mut [Lookup],
    now: u32,
) -> u32
    ensures { Answers result (GotMany false keys.now now lookups.old lookups.new
        client.old.value client.new.value) }
{
    raw_get_many(client, keys, lookups, now)
}

#[unsafe(no_mangle)]
pub extern "C" fn segcache_raw_gets_many(
    client: &mut Handle,
    keys: &[u8],
    lookups: &mut [Lookup],
    now: u32,
) -> u32
    ensures { Answers result (GotMany true keys.now now lookups.old lookups.new
        client.old.value client.new.value) }
{
    raw_gets_many(client, keys, lookups, now)
}

#[unsafe(no_mangle)]
pub extern "C" fn segcache_raw_look_ahead(
    client: &mut Handle,
    keys: &[u8],
    places: &[KeyPlace],
) -> u32
    ensures { Answers result (LooksAhead client.old.value client.new.value) }
{
    raw_look_ahead(client, keys, places)
}
