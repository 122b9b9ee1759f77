//! A cache of shards out of memory: each request of its opening, its clients, a note and its end
//! is refused in turn.
ghost use Rattle.segshards.specs.Clients.{AreAllClients};

use crate::hoard::{RUNS, STEP, hoard, leave};
use crate::refusals::check_refused;
use crate::same::same;
use segshards::{Cache, Client, Shape, clients_stay};
use std::alloc::{AllocError, Global};

const SHAPE: Shape = Shape {
    buckets: 1,
    overflow: 0,
    passes: 2,
    segments_each: 2,
    rows: 2,
    first_version: 0,
};

// How many shards the cache has.
const SHARDS: u32 = 3;

// The client at a place makes a note of all shards. All clients are that still.
fn note_by_one(
    alloc: Global,
    cache: &Cache,
    clients: &mut [Client<'_>],
    place: usize,
) -> Result<(), AllocError>
    requires { AreAllClients cache.now.shards.items clients.old }
    ensures { AreAllClients cache.now.shards.items clients.new }
{
    if place < clients.len() {
        clients_stay();
        clients[place].note(alloc)?;
    }
    Ok(())
}

// Opens a cache, makes its clients and a note, and closes it shard by shard.
// Returns how many shards were closed, or None if memory was refused before.
fn open_and_close(alloc: Global) -> Option<usize> {
    let (cache, passes) = Cache::of_shards(alloc, SHAPE, SHARDS).ok()?;
    let mut clients = cache.clients(alloc, passes).ok()?;
    note_by_one(alloc, &cache, clients.as_mut_slice(), 1).ok()?;
    let passes = cache.into_passes(alloc, clients).ok()?;
    let shards = cache.into_whole_shards(alloc, passes).ok()?;
    let mut closed = 0usize;
    for shard in shards {
        if shard.close(alloc).is_ok() {
            closed = closed.saturating_add(1);
        }
    }
    Some(closed)
}

#[test]
fn a_cache_is_opened_and_closed_or_memory_is_wanted(rt: HostRuntime) {
    let all = hoard(rt.alloc()).expect(&rt, "memory");
    let mut refused = 0;
    for run in 0..RUNS {
        let taken = leave(rt.alloc(), STEP * run).expect(&rt, "memory");
        let closed = open_and_close(rt.alloc());
        drop(taken);
        if closed.is_some() {
            same(&rt, &closed, &Some(SHARDS as usize));
            break;
        }
        refused = run + 1;
    }
    drop(all);
    check_refused(&rt, refused);
}
