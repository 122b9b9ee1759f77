//! How a client of all shards writes.
use crate::client::Client;
use segclient::{Condition, DeleteAnswer, Key, PutAnswer, Value, ValueBytes, WriteAnswer};

impl<'c> Client<'c> {
    ghost use Rattle.segmodel.specs.declared.request.Request.TheVariants.{Set, Add, Replace, Cas};
    ghost use Rattle.segwrite.specs.Words.{IsSetAnswer};
    ghost use Rattle.segclient.specs.Made.{DeletesKey, MakesWrite};
    ghost use Rattle.segclient.specs.Puts.{MakesRoomFor, Puts, PutsFor};
    ghost use Rattle.segshards.specs.Client.{MakesCall};
    ghost use Rattle.segshards.specs.Clients.{IsSame};

    /// Stores the value under the key, and makes room for it in its shard if there is none.
    #[inline(always)]
    pub fn put(&mut self, key: &Key, value: &Value) -> PutAnswer
        ensures puts { MakesCall key.now (Puts key.now value.now result) self.old self.new }
        ensures same { IsSame self.old self.new }
    {
        self.put_bytes(key, &ValueBytes::of(value))
    }

    /// Stores the value under the key as `put` does, but for this time to live in place
    /// of the client's own.
    #[inline(always)]
    pub fn put_for(&mut self, key: &Key, value: &Value, time_to_live: u32) -> PutAnswer
        ensures puts { MakesCall key.now (PutsFor time_to_live key.now value.now result)
            self.old self.new }
        ensures same { IsSame self.old self.new }
    {
        self.put_bytes_for(key, &ValueBytes::of(value), time_to_live)
    }

    /// Stores the value under the key. It makes no room, but `put` does.
    pub fn set(&mut self, key: &Key, value: &Value) -> WriteAnswer
        ensures writes { MakesCall key.now (MakesWrite (Set key.now value.now) result)
            self.old self.new }
        ensures set { IsSetAnswer result }
        ensures same { IsSame self.old self.new }
    {
        self.write(key, &ValueBytes::of(value), Condition::Always)
    }

    /// Stores the value if the key is absent. Otherwise it returns NotStored.
    pub fn add(&mut self, key: &Key, value: &Value) -> WriteAnswer
        ensures writes { MakesCall key.now (MakesWrite (Add key.now value.now) result)
            self.old self.new }
        ensures same { IsSame self.old self.new }
    {
        self.write(key, &ValueBytes::of(value), Condition::IfAbsent)
    }

    /// Stores the value if the key is present. Otherwise it returns NotStored.
    pub fn replace(&mut self, key: &Key, value: &Value) -> WriteAnswer
        ensures writes { MakesCall key.now (MakesWrite (Replace key.now value.now) result)
            self.old self.new }
        ensures same { IsSame self.old self.new }
    {
        self.write(key, &ValueBytes::of(value), Condition::IfPresent)
    }

    /// Stores the value if the key is present and its bucket has the expected version.
    /// Otherwise it returns NotFound if the key is absent, and else Exists.
    pub fn cas(&mut self, key: &Key, value: &Value, expected: u32) -> WriteAnswer
        ensures writes { MakesCall key.now (MakesWrite (Cas key.now value.now expected) result)
            self.old self.new }
        ensures same { IsSame self.old self.new }
    {
        self.write(key, &ValueBytes::of(value), Condition::IfVersion(expected))
    }

    /// Takes the key out.
    pub fn delete(&mut self, key: &Key) -> DeleteAnswer
        ensures deletes { MakesCall key.now (DeletesKey key.now result) self.old self.new }
        ensures same { IsSame self.old self.new }
    {
        let place = self.place_of(key);
        let shard = &mut self.shards[place];
        shard.set_now(self.clock);
        shard.delete(key)
    }

    /// Makes room in the key's shard for a write that returned NoRoom, as `put` does,
    /// and returns whether there is room.
    pub fn make_room(&mut self, key: &Key) -> bool
        ensures makes { MakesCall key.now (MakesRoomFor result) self.old self.new }
        ensures same { IsSame self.old self.new }
    {
        let place = self.place_of(key);
        let shard = &mut self.shards[place];
        shard.set_now(self.clock);
        shard.make_room()
    }
}
