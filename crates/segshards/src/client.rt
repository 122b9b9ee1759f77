//! A client of all shards, and how it reads.
ghost use Rattle.std.specs.Prelude.{◌≤◌, vec_len};

use crate::shard::shard_of;
use segclient::{GetAnswer, GetsAnswer, GetsIntoAnswer, Index, IntoAnswer, Key};
use segword::hash;

/// A client of each shard of a cache, for one thread at a time, with one clock.
///
/// A call on a key is the call of the same name by the client of the key's shard.
/// The clock stands still until the caller sets it.
#[derive(Drop)]
pub struct Client<'c> {
    pub(crate) shards: Vec<segclient::Client<'c>>,
    // The indexes of these, for looks ahead.
    pub(crate) indexes: &'c [Index],
    // The moment for which calls are made.
    pub(crate) clock: u32,
    // The shard in which it holds an item.
    pub(crate) holds: Option<usize>,
    ghost some: { 1 ≤ vec_len shards },
    ghost few: { vec_len shards ≤ 16384 },
}

impl<'c> Client<'c> {
    ghost use Rattle.std.specs.Prelude.{◌≡◌, ◌<◌, length};
    ghost use Rattle.segclient.specs.Made.{Gets, GetsInto, GetsVersion, GetsVersionInto};
    ghost use Rattle.segshards.specs.Client.{MakesCall};
    ghost use Rattle.segshards.specs.Clients.{IsSame};
    ghost use Rattle.segshards.specs.Shards.{shard_of};

    // The place of the key's shard.
    #[inline(always)]
    pub(crate) fn place_of(&self, key: &Key) -> usize
        ensures shard { result ≡ shard_of (length self.now.shards.items) key.now }
        ensures within { result < length self.now.shards.items }
    {
        shard_of(hash(key), self.shards.len())
    }

    /// The value under a key.
    #[inline(always)]
    pub fn get(&mut self, key: &Key) -> GetAnswer
        ensures reads { MakesCall key.now (Gets key.now result) self.old self.new }
        ensures same { IsSame self.old self.new }
    {
        let place = self.place_of(key);
        let shard = &mut self.shards[place];
        shard.set_now(self.clock);
        shard.get(key)
    }

    /// The value under a key, as `get` reads it, but it goes to the front of a buffer.
    /// What is behind the value stays as it was, and so does a buffer that is too short.
    #[inline(always)]
    pub fn get_into(&mut self, key: &Key, bytes: &mut [u8]) -> IntoAnswer
        ensures reads { MakesCall key.now (GetsInto key.now result bytes.old bytes.new)
            self.old self.new }
        ensures same { IsSame self.old self.new }
    {
        let place = self.place_of(key);
        let shard = &mut self.shards[place];
        shard.set_now(self.clock);
        shard.get_into(key, bytes)
    }

    /// The value under a key, with the version of the key's bucket, for a later compare-and-swap.
    pub fn gets(&mut self, key: &Key) -> GetsAnswer
        ensures reads { MakesCall key.now (GetsVersion key.now result) self.old self.new }
        ensures same { IsSame self.old self.new }
    {
        let place = self.place_of(key);
        let shard = &mut self.shards[place];
        shard.set_now(self.clock);
        shard.gets(key)
    }
    /// The value under a key with the version of its bucket, as `gets` reads them, but the value goes
    /// to the front of a buffer, as by `get_into`.
    #[inline(always)]
    pub fn gets_into(&mut self, key: &Key, bytes: &mut [u8]) -> GetsIntoAnswer
        ensures reads { MakesCall key.now (GetsVersionInto key.now result bytes.old bytes.new)
            self.old self.new }
        ensures same { IsSame self.old self.new }
    {
        let place = self.place_of(key);
        let shard = &mut self.shards[place];
        shard.set_now(self.clock);
        shard.gets_into(key, bytes)
    }
}
