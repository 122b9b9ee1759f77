//! The settings of a client of all shards: its own clock, and the same for the client of each shard.
use crate::client::Client;

impl<'c> Client<'c> {
    ghost use Rattle.std.specs.Prelude.{None};
    ghost use Rattle.segclient.specs.Member.{SetsCutoff, SetsTimeToLive};
    ghost use Rattle.segshards.specs.Client.{ShowsNow};
    ghost use Rattle.segshards.specs.Clients.{IsSame};
    ghost use Rattle.segshards.specs.Each.{EachMakes};

    /// Sets its clock. Each call from now on is made with this moment.
    pub fn set_now(&mut self, now: u32)
        ensures sets { ShowsNow now self.old self.new }
        ensures same { IsSame self.old self.new }
    {
        self.clock = now;
    }

    /// As `segclient::Client::set_time_to_live`, in each shard.
    pub fn set_time_to_live(&mut self, time_to_live: u32)
        ensures sets { EachMakes (λ board. SetsTimeToLive time_to_live) self.old self.new }
        ensures same { IsSame self.old self.new }
    {
        for place in 0..self.shards.len() {
            self.shards[place].set_time_to_live(time_to_live);
        }
    }

    /// As `segclient::Client::keep_from`, in each shard.
    pub fn keep_from(&mut self, cutoff: Option<u8>)
        ensures sets { EachMakes (λ board. SetsCutoff cutoff) self.old self.new }
        ensures same { IsSame self.old self.new }
    {
        for place in 0..self.shards.len() {
            self.shards[place].keep_from(cutoff);
        }
    }

    /// Its puts keep nothing from now on. As `keep_from` with None.
    pub fn keep_nothing(&mut self)
        ensures sets { EachMakes (λ board. SetsCutoff None) self.old self.new }
        ensures same { IsSame self.old self.new }
    {
        self.keep_from(None);
    }
}
