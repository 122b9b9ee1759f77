//! The exports that open a cache.
ghost use Rattle.seghandles.specs.Exports.{Answers};
ghost use Rattle.seghandles.specs.Opening.{one_of, Opens, OpensForBytes, OpensForWriters};
ghost use Rattle.seghandles.specs.Opening.{OpensItems, OpensKeys, shape_from};
ghost use Rattle.segshards.specs.Items.{rows_of_mean};

use seghandles::{
    CacheShape, Handle, raw_open, raw_open_bytes, raw_open_for_writers, raw_open_items,
    raw_open_shape,
};
use std::alloc::Global;

#[unsafe(no_mangle)]
pub extern "C" fn segcache_raw_open(
    alloc: Global,
    keys: u32,
    threads: u32,
    cache: &mut Handle,
    clients: &mut [Handle],
) -> u32
    ensures { Answers result (OpensKeys keys threads cache.old.value cache.new.value
        clients.old clients.new) }
{
    raw_open(alloc, keys, threads, cache, clients)
}

#[unsafe(no_mangle)]
pub extern "C" fn segcache_raw_open_for_writers(
    alloc: Global,
    keys: u32,
    writers: u32,
    cache: &mut Handle,
    clients: &mut [Handle],
) -> u32
    ensures { Answers result (OpensForWriters keys writers cache.old.value cache.new.value
        clients.old clients.new) }
{
    raw_open_for_writers(alloc, keys, writers, cache, clients)
}

#[unsafe(no_mangle)]
pub extern "C" fn segcache_raw_open_items(
    alloc: Global,
    items: u32,
    mean_bytes: u32,
    cache: &mut Handle,
    clients: &mut [Handle],
) -> u32
    ensures { Answers result (OpensItems items (rows_of_mean mean_bytes)
        cache.old.value cache.new.value clients.old clients.new) }
{
    raw_open_items(alloc, items, mean_bytes, cache, clients)
}

#[unsafe(no_mangle)]
pub extern "C" fn segcache_raw_open_bytes(
    alloc: Global,
    bytes: u64,
    cache: &mut Handle,
    clients: &mut [Handle],
) -> u32
    ensures { Answers result (OpensForBytes bytes cache.old.value cache.new.value
        clients.old clients.new) }
{
    raw_open_bytes(alloc, bytes, cache, clients)
}

#[unsafe(no_mangle)]
pub extern "C" fn segcache_raw_open_shape(
    alloc: Global,
    shape: &CacheShape,
    cache: &mut Handle,
    clients: &mut [Handle],
) -> u32
    ensures { Answers result (Opens (one_of (shape_from shape.now))
        cache.old.value cache.new.value clients.old clients.new) }
{
    raw_open_shape(alloc, shape, cache, clients)
}
