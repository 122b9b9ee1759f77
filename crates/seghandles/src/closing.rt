//! The calls that give clients back, and close or free the cache.
ghost use Rattle.std.specs.Prelude.{Some};
ghost use Rattle.seghandles.specs.declared.status.Status.TheVariants.{Ok};
ghost use Rattle.seghandles.specs.Closing.{Closed, ClosesAs, ClosesCache};
ghost use Rattle.seghandles.specs.Ending.{Freed};
ghost use Rattle.seghandles.specs.Exports.{Answers};
ghost use Rattle.seghandles.specs.Returning.{GivenBack, GoesBackFrom, IsWelcome, TakesKept};
ghost use Rattle.seghandles.specs.Sharing.{AreOfOneCache, IsClientOf, MayBeClient};

use crate::cache::Cache;
use crate::cursor::{Cursor, ShardClose};
use crate::handle::Handle;
use crate::kept::Kept;
use crate::status::Status;
use std::alloc::Global;
use std::mem;

/// Gives a client back to its cache: its hold ends, and its passes go to their places.
/// The client is of this cache, which no number shows.
pub fn raw_give_back(alloc: Global, cache: &mut Handle, client: &mut Handle) -> u32
    requires same { AreOfOneCache cache.old.value client.old.value }
    ensures { Answers result (GivenBack cache.old.value cache.new.value
        client.old.value client.new.value) }
{
    let Some(mut kept) = cache.take(alloc) else {
        return Status::NoHandle.number();
    };
    let status = give_back(alloc, &mut kept, client);
    cache.fill(alloc, kept);
    status.number()
}

/// Closes a cache once all clients are back, and lists its content by a cursor in an empty handle.
/// It closes the last shard, and the cursor the others, one after another.
/// If memory for the list is refused, the cache is gone all the same.
pub fn raw_close(alloc: Global, cache: &mut Handle, cursor: &mut Handle) -> u32
    ensures { Answers result (Closed cache.old.value cache.new.value
        cursor.old.value cursor.new.value) }
{
    if !cursor.is_empty(alloc) {
        return Status::NoHandle.number();
    }
    let Some(mut kept) = cache.take(alloc) else {
        return Status::NoHandle.number();
    };
    match close(alloc, &mut kept) {
        Closing::Listed => {
            cursor.fill(alloc, kept);
            Status::Ok.number()
        }
        Closing::Refused(why) => {
            cache.fill(alloc, kept);
            why.number()
        }
        Closing::Gone => Status::OutOfMemory.number(),
    }
}

/// Gives a cache's memory back once all clients are back.
pub fn raw_free(alloc: Global, cache: &mut Handle) -> u32
    ensures { Answers result (Freed cache.old.value cache.new.value) }
{
    let Some(kept) = cache.take(alloc) else {
        return Status::NoHandle.number();
    };
    if !kept.is_cache() {
        cache.fill(alloc, kept);
        return Status::NoHandle.number();
    }
    if !kept.has_all_back() {
        cache.fill(alloc, kept);
        return Status::ClientOut.number();
    }
    Status::Ok.number()
}

// How a close went.
enum Closing {
    // The cache became a cursor.
    Listed,
    // It is as it was.
    Refused(Status),
    // It became nothing.
    Gone,
}

// Turns a cache into a cursor of its content, whose last shard is closed.
fn close(alloc: Global, kept: &mut Kept) -> Closing
    ensures { ClosesAs kept.old kept.new result }
{
    let nothing = Kept::Cursor(Cursor::new(alloc, Vec::new(alloc)));
    match mem::replace(kept, nothing) {
        Kept::Cache(cache) => close_cache(alloc, cache, kept),
        other => {
            *kept = other;
            Closing::Refused(Status::NoHandle)
        }
    }
}

// Closes the last shard of a cache, for a cursor. What comes of it is kept.
fn close_cache(alloc: Global, cache: Cache, kept: &mut Kept) -> Closing
    ensures { ClosesCache cache kept.new result }
{
    if !cache.has_all() {
        *kept = Kept::Cache(cache);
        return Closing::Refused(Status::ClientOut);
    }
    let homes = cache.into_homes();
    let mut cursor = Cursor::new(alloc, homes);
    match cursor.turn(alloc) {
        ShardClose::Listed => {
            *kept = Kept::Cursor(cursor);
            Closing::Listed
        }
        ShardClose::Refused(why) => {
            let left = cursor.into_homes();
            let same = Cache::new(left);
            *kept = Kept::Cache(same);
            Closing::Refused(why)
        }
        ShardClose::Gone => Closing::Gone,
        ShardClose::Done => unreachable!(),
    }
}

// Gives a client back to the cache that is kept.
fn give_back(alloc: Global, kept: &mut Kept, client: &mut Handle) -> Status
    requires same { AreOfOneCache (Some kept.old) client.old.value }
    ensures { GivenBack (Some kept.old) (Some kept.new) client.old.value client.new.value result }
{
    let Kept::Cache(cache) = kept else {
        return Status::NoHandle;
    };
    welcome_back(alloc, cache, client)
}

// Gives a client back to its cache.
fn welcome_back(alloc: Global, cache: &mut Cache, client: &mut Handle) -> Status
    requires same { MayBeClient cache.old client.old.value }
    ensures { GoesBackFrom client.old.value client.new.value cache.old cache.new result }
{
    let Some(guest) = client.take(alloc) else {
        return Status::NoHandle;
    };
    let status = welcome(cache, &guest);
    if status != Status::Ok {
        client.fill(alloc, guest);
        return status;
    }
    take_back(cache, Box::into_inner(guest));
    Status::Ok
}

// Whether the cache has a place for the client.
fn welcome(cache: &Cache, guest: &Kept) -> Status
    ensures { IsWelcome cache.now guest.now result }
{
    let Kept::Client(client) = guest else {
        return Status::NoHandle;
    };
    if cache.has_place_for(client) {
        Status::Ok
    } else {
        Status::Foreign
    }
}

// Puts the client's passes into their places.
fn take_back(cache: &mut Cache, guest: Kept)
    requires same { IsClientOf cache.old guest }
    requires welcome { IsWelcome cache.old guest Ok }
    ensures { TakesKept guest cache.old cache.new }
{
    let Kept::Client(client) = guest else {
        unreachable!()
    };
    cache.take_back(client);
}
