//! What one client of all shards hands to another: by a note of all shards, by one of the shard
//! of a key, or as the two meet.
ghost use Rattle.std.specs.Prelude.{◌≡◌, IfErr, IfOk};

use crate::client::Client;
use segclient::{Key, Note};
use std::alloc::{AllocError, Global};

/// What a client had seen of all shards when the notes were made: a note of each, in their order.
#[derive(Drop)]
pub struct Notes {
    pub(crate) each: Vec<Note>,
}

impl<'c> Client<'c> {
    ghost use Rattle.segclient.specs.Made as made;
    ghost use Rattle.segclient.specs.Made.{Learns};
    ghost use Rattle.segshards.specs.Client.{MakesCall};
    ghost use Rattle.segshards.specs.Clients.{IsSame};
    ghost use Rattle.segshards.specs.Each.{EachAnswers};
    ghost use Rattle.segshards.specs.Noting.{AreNotesFor, AreOfSameShards, EachMeets, IsNoteForKey};

    /// A note of what the client has seen of each shard, its own puts among it.
    /// It takes a list of no bytes a shard. Send it to another thread by any means, or drop it.
    pub fn note(&mut self, alloc: Global) -> Result<Notes, AllocError>
        ensures notes { IfOk result (λ notes.
            EachAnswers made.Notes notes.each.items self.old self.new) }
        ensures refused { IfErr result (λ _. self.new ≡ self.old) }
        ensures same { IsSame self.old self.new }
    {
        let mut each = Vec::with_capacity(alloc, self.shards.len())?;
        for place in 0..self.shards.len() {
            each.push_reserved(self.shards[place].note());
        }
        Ok(Notes { each })
    }

    /// The client has then seen all that the notes have. They have to be of the client's cache.
    pub fn learn(&mut self, notes: Notes)
        requires notes { AreNotesFor self.old notes.each.items }
        ensures learns { EachAnswers Learns notes.each.items self.old self.new }
        ensures same { IsSame self.old self.new }
    {
        let Notes { each } = notes;
        let mut place = 0;
        for note in each {
            self.shards[place].learn(note);
            place += 1;
        }
    }

    /// Afterwards each of the two clients has seen what either had seen of each shard,
    /// and the other one has seen all that this one has. Both have to be of one cache.
    pub fn meet(&mut self, other: &mut Client<'_>)
        requires same { AreOfSameShards self.old other.old }
        ensures meets { EachMeets self.old other.old self.new other.new }
        ensures same { IsSame self.old self.new × IsSame other.old other.new }
    {
        for place in 0..self.shards.len() {
            self.shards[place].meet(&mut other.shards[place]);
        }
    }

    /// A note of what the client has seen of the key's shard, its own puts there among it.
    /// It takes no bytes. Send it to another thread by any means, or drop it.
    pub fn note_of(&mut self, key: &Key) -> Note
        ensures notes { MakesCall key.now (made.Notes result) self.old self.new }
        ensures same { IsSame self.old self.new }
    {
        let place = self.place_of(key);
        let shard = &mut self.shards[place];
        shard.set_now(self.clock);
        shard.note()
    }

    /// The client has then seen all that the note has. The note has to be of the key's shard.
    pub fn learn_of(&mut self, key: &Key, note: Note)
        requires note { IsNoteForKey key.now note self.old }
        ensures learns { MakesCall key.now (Learns note) self.old self.new }
        ensures same { IsSame self.old self.new }
    {
        let place = self.place_of(key);
        let shard = &mut self.shards[place];
        shard.set_now(self.clock);
        shard.learn(note);
    }
}
