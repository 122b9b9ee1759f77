//! The exports that give clients back, and close or free the cache.
ghost use Rattle.seghandles.specs.Closing.{Closed};
ghost use Rattle.seghandles.specs.Ending.{Freed};
ghost use Rattle.seghandles.specs.Exports.{Answers};
ghost use Rattle.seghandles.specs.Returning.{GivenBack};
ghost use Rattle.seghandles.specs.Sharing.{AreOfOneCache};

use seghandles::{Handle, raw_close, raw_free, raw_give_back};
use std::alloc::Global;

#[unsafe(no_mangle)]
pub extern "C" fn segcache_raw_give_back(
    alloc: Global,
    cache: &mut Handle,
    client: &mut Handle,
) -> u32
    requires same { AreOfOneCache cache.old.value client.old.value }
    ensures { Answers result (GivenBack cache.old.value cache.new.value
        client.old.value client.new.value) }
{
    raw_give_back(alloc, cache, client)
}

#[unsafe(no_mangle)]
pub extern "C" fn segcache_raw_close(alloc: Global, cache: &mut Handle, cursor: &mut Handle) -> u32
    ensures { Answers result (Closed cache.old.value cache.new.value
        cursor.old.value cursor.new.value) }
{
    raw_close(alloc, cache, cursor)
}

#[unsafe(no_mangle)]
pub extern "C" fn segcache_raw_free(alloc: Global, cache: &mut Handle) -> u32
    ensures { Answers result (Freed cache.old.value cache.new.value) }
{
    raw_free(alloc, cache)
}
