//! A client of all shards, as a handle of C's keeps it.
ghost use Rattle.std.specs.Prelude.{◌≡◌, ◌≤◌, ◌<◌, IfSome, vec_len};
ghost use Rattle.std.specs.Option.{ForSome};
ghost use Rattle.seghandles.specs.Wants.{put_wants, write_wants};

use crate::guest::Guest;
use segclient::{
    Condition, DeleteAnswer, GetsIntoAnswer, IntoAnswer, Key, PutAnswer, ValueBytes, WriteAnswer,
};
use segshards::shard_of;
use segword::hash;

/// A client of each shard of a cache. A call on a key is the call of that of the key's shard.
#[derive(Drop)]
pub struct SharedClient {
    pub(crate) guests: Vec<Guest>,
    // The shard in which it holds an item.
    pub(crate) holds: Option<usize>,
    // The shard of its last write, if there was no room for it.
    pub(crate) wants: Option<usize>,
    ghost some: { 1 ≤ vec_len guests },
    ghost few: { vec_len guests ≤ 16384 },
    ghost held: { ForSome holds (λ shard. shard < vec_len guests) },
    ghost wanted: { ForSome wants (λ shard. shard < vec_len guests) },
}

impl SharedClient {
    ghost use Rattle.std.specs.Prelude.{length, None};
    ghost use Rattle.segclient.specs.Made.{DeletesKey, GetsInto, GetsVersionInto};
    ghost use Rattle.segclient.specs.Puts.{Puts, PutsFor};
    ghost use Rattle.segshards.specs.Shards.{shard_of};
    ghost use Rattle.seghandles.specs.Calls.{CallsKey, MakesCall};
    ghost use Rattle.seghandles.specs.Guest.{At};
    ghost use Rattle.seghandles.specs.Made.{WritesWhen};

    /// A client of these clients of the shards, in the order of the shards.
    pub(crate) fn new(guests: Vec<Guest>) -> SharedClient
        requires some { 1 ≤ vec_len guests }
        requires few { vec_len guests ≤ 16384 }
        ensures guests { result.guests ≡ guests }
        ensures holds { result.holds ≡ None }
        ensures wants { result.wants ≡ None }
    {
        SharedClient {
            guests,
            holds: None,
            wants: None,
        }
    }

    // The place of the key's shard.
    #[inline(always)]
    pub(crate) fn place_of(&self, key: &Key) -> usize
        ensures shard { result ≡ shard_of (length self.now.guests.items) key.now }
        ensures within { result < length self.now.guests.items }
    {
        shard_of(hash(key), self.guests.len())
    }

    /// The value under a key, which goes to the front of a buffer, if that has room for it.
    #[inline(always)]
    pub(crate) fn get_into(&mut self, key: &Key, now: u32, bytes: &mut [u8]) -> IntoAnswer
        ensures { MakesCall key.now (At now (GetsInto key.now result bytes.old bytes.new))
            self.old self.new }
    {
        let place = self.place_of(key);
        let guest = &mut self.guests[place];
        guest.get_into(key, now, bytes)
    }

    /// The value under a key, with the version of its bucket. The value goes to the buffer so, too.
    #[inline(always)]
    pub(crate) fn gets_into(&mut self, key: &Key, now: u32, bytes: &mut [u8]) -> GetsIntoAnswer
        ensures { MakesCall key.now (At now (GetsVersionInto key.now result bytes.old bytes.new))
            self.old self.new }
    {
        let place = self.place_of(key);
        let guest = &mut self.guests[place];
        guest.gets_into(key, now, bytes)
    }

    /// Stores the value under the key, and makes room for it in its shard if there is none.
    pub(crate) fn put(&mut self, key: &Key, value: &ValueBytes<'_>, now: u32) -> PutAnswer
        ensures calls { CallsKey key.now (At now (Puts key.now value.now result))
            self.old self.new }
        ensures wants { self.new.wants
            ≡ put_wants result (shard_of (length self.old.guests.items) key.now) }
    {
        let place = self.place_of(key);
        let guest = &mut self.guests[place];
        let answer = guest.put(key, value, now);
        self.wants = put_wants(answer, place);
        answer
    }

    /// Stores the value under the key as `put` does, but for this time to live in place
    /// of the client's own.
    pub(crate) fn put_for(
        &mut self,
        key: &Key,
        value: &ValueBytes<'_>,
        seconds: u32,
        now: u32,
    ) -> PutAnswer
        ensures calls { CallsKey key.now (At now (PutsFor seconds key.now value.now result))
            self.old self.new }
        ensures wants { self.new.wants
            ≡ put_wants result (shard_of (length self.old.guests.items) key.now) }
    {
        let place = self.place_of(key);
        let guest = &mut self.guests[place];
        let answer = guest.put_for(key, value, seconds, now);
        self.wants = put_wants(answer, place);
        answer
    }

    /// Stores the value under the key, if that is to be, and makes no room.
    #[inline(always)]
    pub(crate) fn write(
        &mut self,
        when: Condition,
        key: &Key,
        value: &ValueBytes<'_>,
        now: u32,
    ) -> WriteAnswer
        ensures calls { CallsKey key.now (At now (WritesWhen when key.now value.now result))
            self.old self.new }
        ensures wants { self.new.wants
            ≡ write_wants result (shard_of (length self.old.guests.items) key.now) }
    {
        let place = self.place_of(key);
        let guest = &mut self.guests[place];
        let answer = guest.write(when, key, value, now);
        self.wants = write_wants(answer, place);
        answer
    }

    /// Takes the key out.
    pub(crate) fn delete(&mut self, key: &Key, now: u32) -> DeleteAnswer
        ensures { MakesCall key.now (At now (DeletesKey key.now result)) self.old self.new }
    {
        let place = self.place_of(key);
        let guest = &mut self.guests[place];
        guest.delete(key, now)
    }
}

// The shard that a put leaves in want of room.
fn put_wants(answer: PutAnswer, place: usize) -> Option<usize>
    ensures wants { result ≡ put_wants answer place }
    ensures same { IfSome result (λ shard. shard ≡ place) }
{
    match answer {
        PutAnswer::NoRoom => Some(place),
        PutAnswer::Stored | PutAnswer::BucketFull | PutAnswer::Busy => None,
    }
}

// The same of another write.
fn write_wants(answer: WriteAnswer, place: usize) -> Option<usize>
    ensures wants { result ≡ write_wants answer place }
    ensures same { IfSome result (λ shard. shard ≡ place) }
{
    match answer {
        WriteAnswer::NoRoom => Some(place),
        WriteAnswer::Stored
        | WriteAnswer::NotStored
        | WriteAnswer::Exists
        | WriteAnswer::NotFound
        | WriteAnswer::BucketFull
        | WriteAnswer::Busy => None,
    }
}
