//! How a client of all shards writes values in place.
ghost use Rattle.std.specs.Prelude.{◌≡◌};

use crate::client::Client;
use segclient::{Condition, Key, PutAnswer, ValueBytes, WriteAnswer};

impl<'c> Client<'c> {
    ghost use Rattle.segwrite.specs.declared.condition.Condition.TheVariants.{Always};
    ghost use Rattle.segwrite.specs.Words.{IsSetAnswer, request_of};
    ghost use Rattle.segclient.specs.Made.{MakesWrite};
    ghost use Rattle.segclient.specs.Puts.{Puts, PutsFor};
    ghost use Rattle.segshards.specs.Client.{MakesCall};
    ghost use Rattle.segshards.specs.Clients.{IsSame};

    /// Stores the value under the key as `put` does, from where its bytes stand.
    #[inline(always)]
    pub fn put_bytes(&mut self, key: &Key, value: &ValueBytes<'_>) -> PutAnswer
        ensures puts { MakesCall key.now (Puts key.now value.now result) self.old self.new }
        ensures same { IsSame self.old self.new }
    {
        let place = self.place_of(key);
        let shard = &mut self.shards[place];
        shard.set_now(self.clock);
        shard.put_bytes(key, value)
    }

    /// Stores the value under the key as `put_for` does, from where its bytes stand.
    #[inline(always)]
    pub fn put_bytes_for(
        &mut self,
        key: &Key,
        value: &ValueBytes<'_>,
        time_to_live: u32,
    ) -> PutAnswer
        ensures puts { MakesCall key.now (PutsFor time_to_live key.now value.now result)
            self.old self.new }
        ensures same { IsSame self.old self.new }
    {
        let place = self.place_of(key);
        let shard = &mut self.shards[place];
        shard.set_now(self.clock);
        shard.put_bytes_for(key, value, time_to_live)
    }

    /// Stores the value under the key, if that is to be, as `set`, `add`, `replace` and `cas` do,
    /// from where its bytes stand.
    pub fn write(&mut self, key: &Key, value: &ValueBytes<'_>, condition: Condition) -> WriteAnswer
        ensures writes { MakesCall key.now
            (MakesWrite (request_of condition key.now value.now) result) self.old self.new }
        ensures set { condition ≡ Always → IsSetAnswer result }
        ensures same { IsSame self.old self.new }
    {
        let place = self.place_of(key);
        let shard = &mut self.shards[place];
        shard.set_now(self.clock);
        shard.write(key, value, condition)
    }
}
