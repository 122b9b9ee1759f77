//! Items held by a client of all shards: at most one, in the shard of its key.
ghost use Rattle.std.specs.Prelude.{◌≡◌, None, IfSome};

use crate::client::Client;
use segclient::{Hold, HoldAnswer, Key, Value};

impl<'c> Client<'c> {
    ghost use Rattle.segclient.specs.Made.{EndsHold, ReadsHold, ReadsHoldInto};
    ghost use Rattle.segshards.specs.Client.{CallsShard};
    ghost use Rattle.segshards.specs.Clients.{IsSame};
    ghost use Rattle.segshards.specs.Holding.{HasHold, HoldsKey, IsHoldOf};

    /// Holds the item of a key. Its value can be read until the hold is spent by `release`,
    /// whatever becomes of the key, and up to then its segment isn't refilled.
    /// A client holds one item at most, in whatever shard.
    pub fn hold(&mut self, key: &Key) -> HoldAnswer<'c>
        ensures holds { HoldsKey key.now result self.old self.new }
        ensures held { HasHold key.now result self.new }
        ensures same { IsSame self.old self.new }
    {
        if self.holds.is_some() {
            return HoldAnswer::AlreadyHolding;
        }
        let place = self.place_of(key);
        let shard = &mut self.shards[place];
        shard.set_now(self.clock);
        match shard.hold(key) {
            HoldAnswer::Holding(hold) => {
                self.holds = Some(place);
                HoldAnswer::Holding(hold)
            }
            HoldAnswer::Miss => HoldAnswer::Miss,
            HoldAnswer::Busy => HoldAnswer::Busy,
            HoldAnswer::AlreadyHolding => HoldAnswer::AlreadyHolding,
        }
    }

    /// A copy of the value that is held: the one that stood under the key when it was held.
    pub fn held_value(&mut self, hold: &Hold<'_>) -> Value
        requires hold { IsHoldOf hold.now self.old }
        ensures reads { IfSome self.old.holds (λ shard.
            CallsShard shard (ReadsHold hold.now result) self.old self.new) }
        ensures holds { self.new.holds ≡ self.old.holds }
        ensures held { IsHoldOf hold.now self.new }
        ensures same { IsSame self.old self.new }
    {
        let Some(place) = self.holds else {
            unreachable!()
        };
        let shard = &mut self.shards[place];
        shard.set_now(self.clock);
        shard.held_value(hold)
    }

    /// The value that is held goes to the front of a buffer. Returns its length: as an error if the
    /// buffer is too short, and then it is as it was.
    pub fn held_into(&mut self, hold: &Hold<'_>, bytes: &mut [u8]) -> Result<usize, usize>
        requires hold { IsHoldOf hold.now self.old }
        ensures reads { IfSome self.old.holds (λ shard.
            CallsShard shard (ReadsHoldInto hold.now result bytes.old bytes.new) self.old self.new) }
        ensures holds { self.new.holds ≡ self.old.holds }
        ensures held { IsHoldOf hold.now self.new }
        ensures same { IsSame self.old self.new }
    {
        let Some(place) = self.holds else {
            unreachable!()
        };
        let shard = &mut self.shards[place];
        shard.set_now(self.clock);
        shard.held_into(hold, bytes)
    }

    /// Ends a hold.
    pub fn release(&mut self, hold: Hold<'_>)
        requires hold { IsHoldOf hold self.old }
        ensures releases { IfSome self.old.holds (λ shard.
            CallsShard shard EndsHold self.old self.new) }
        ensures holds { self.new.holds ≡ None }
        ensures same { IsSame self.old self.new }
    {
        let Some(place) = self.holds else {
            unreachable!()
        };
        let shard = &mut self.shards[place];
        shard.set_now(self.clock);
        shard.release(hold);
        self.holds = None;
    }
}
