//! Calls on several keys, whatever their shards.
ghost use Rattle.std.specs.Prelude.{◌≡◌, ◌<◌, length};
ghost use Rattle.segshards.specs.Many.{GetsKey, GetsKeyVersion, InTurn, LooksAhead, LooksBefore};

use crate::ahead::{Batch, LEAST_AHEAD, ROUND, Shards, is_large};
use crate::client::Client;
use segclient::{GetAnswer, GetsAnswer, Index, Key};
use segindex::Seeker;

impl<'c> Client<'c> {
    ghost use Rattle.segclient.specs.Many.{LooksAheadBy};
    ghost use Rattle.segshards.specs.Client.{MakesCall};
    ghost use Rattle.segshards.specs.Clients.{IsSame};

    /// The value under each key: one get after another, each with the answer at its key's place.
    pub fn get_many(&mut self, keys: &[Key], answers: &mut [GetAnswer])
        requires answers { length answers.old ≡ length keys.now }
        ensures gets { InTurn GetsKey keys.now answers.new self.old self.new }
        ensures same { IsSame self.old self.new }
    {
        for place in 0..keys.len() {
            self.look_ahead_from(keys, place);
            answers[place] = self.get(&keys[place]);
        }
    }

    /// As `get_many`, with the version of each key's bucket, for later compare-and-swaps.
    pub fn gets_many(&mut self, keys: &[Key], answers: &mut [GetsAnswer])
        requires answers { length answers.old ≡ length keys.now }
        ensures gets { InTurn GetsKeyVersion keys.now answers.new self.old self.new }
        ensures same { IsSame self.old self.new }
    {
        for place in 0..keys.len() {
            self.look_ahead_from(keys, place);
            answers[place] = self.gets(&keys[place]);
        }
    }

    // Looks ahead for a piece of the keys, if one begins at this place.
    fn look_ahead_from(&mut self, keys: &[Key], place: usize)
        requires place { place < length keys.now }
        ensures looks { LooksBefore place self.old self.new }
        ensures same { IsSame self.old self.new }
    {
        let end = keys.len().min(place + ROUND);
        if place % ROUND == 0 && end - place >= LEAST_AHEAD && self.is_large() {
            self.look_ahead(&keys[place..end]);
        }
    }

    // Whether a look ahead can pay.
    fn is_large(&self) -> bool {
        match self.indexes {
            [index] => is_large(index),
            _ => true,
        }
    }

    /// Loads what calls on these keys will read, in all shards, so that waits for memory overlap.
    /// It takes one step for each key. No answer depends on what is found.
    pub fn look_ahead(&mut self, keys: &[Key])
        ensures looks { LooksAhead keys.now self.old self.new }
        ensures same { IsSame self.old self.new }
    {
        let mut batch = Batch::new();
        for place in 0..keys.len() {
            if batch.is_full() {
                batch.follow(self);
            }
            let seeker = self.seek(&keys[place]);
            batch.push(self.place_of(&keys[place]), seeker);
        }
        batch.follow(self);
    }

    // Looks for the key in its shard.
    #[inline(always)]
    fn seek(&mut self, key: &Key) -> Seeker
        ensures looks { MakesCall key.now (LooksAheadBy 1) self.old self.new }
        ensures same { IsSame self.old self.new }
    {
        let place = self.place_of(key);
        let shard = &mut self.shards[place];
        shard.set_now(self.clock);
        shard.seek(key)
    }
}

impl<'c> Shards for Client<'c> {
    #[inline(always)]
    fn index_at(&self, place: usize) -> Option<&Index> {
        self.indexes.get(place)
    }
}
