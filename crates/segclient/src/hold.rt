//! Items held by a client.
use crate::client::Client;
use crate::member::Member;
use segindex::{Hold, HoldAnswer, Index, RowAnswer, Share};
use segword::{Key, Value};

impl Member {
    ghost use Rattle.std.specs.Prelude.{◌≡◌, is_some, None};
    ghost use Rattle.segindex.specs.Words.{board_of, shape_of};
    ghost use Rattle.segread.specs.Words.{IsHoldOf, IsKept};
    ghost use Rattle.segclient.specs.Made.{EndsHold, HoldsKey, ReadsHold};
    ghost use Rattle.segclient.specs.Made.{EndsKept, HoldsInto, ReadsKept};
    ghost use Rattle.segclient.specs.Member.{IsMember};

    /// As `Client::hold`.
    pub fn hold<'i>(&mut self, index: &'i Index, key: &Key) -> HoldAnswer<'i>
        requires member { IsMember index.now self.old }
        ensures member { IsMember index.now self.new }
        ensures holds { HoldsKey key.now result (board_of index.now) self.old self.new }
    {
        index.hold(&mut self.pass, key, self.clock)
    }

    /// As `Client::held_value`.
    pub fn held_value(&mut self, index: &Index, hold: &Hold<'_>) -> Value
        requires member { IsMember index.now self.old }
        requires hold { IsHoldOf (shape_of index.now) hold.now self.old.pass }
        ensures member { IsMember index.now self.new }
        ensures reads { ReadsHold hold.now result (board_of index.now) self.old self.new }
    {
        index.held_value(&mut self.pass, hold)
    }

    /// As `Client::release`.
    pub fn release(&mut self, index: &Index, hold: Hold<'_>)
        requires member { IsMember index.now self.old }
        requires hold { IsHoldOf (shape_of index.now) hold self.old.pass }
        ensures member { IsMember index.now self.new }
        ensures releases { EndsHold (board_of index.now) self.old self.new }
    {
        index.release(&mut self.pass, hold);
    }

    /// As `Client::hold`, but the share keeps what is held, until `release_by`.
    pub fn hold_by(&mut self, share: &mut Share, key: &Key) -> RowAnswer
        requires member { IsMember share.old.index.value self.old }
        requires kept { IsKept (shape_of share.old.index.value) self.old.pass share.old.held }
        ensures index { share.new.index ≡ share.old.index }
        ensures member { IsMember share.old.index.value self.new }
        ensures kept { IsKept (shape_of share.old.index.value) self.new.pass share.new.held }
        ensures holds { HoldsInto key.now result share.old.held share.new.held
            (board_of share.old.index.value) self.old self.new }
    {
        share.hold(&mut self.pass, key, self.clock)
    }

    /// A copy of the value that is held by the share, if one is.
    pub fn value_by(&mut self, share: &Share) -> Option<Value>
        requires member { IsMember share.now.index.value self.old }
        requires kept { IsKept (shape_of share.now.index.value) self.old.pass share.now.held }
        ensures member { IsMember share.now.index.value self.new }
        ensures reads { ReadsKept share.now.held result
            (board_of share.now.index.value) self.old self.new }
    {
        share.held_value(&mut self.pass)
    }

    /// Ends the hold by the share, and says whether there was one.
    pub fn release_by(&mut self, share: &mut Share) -> bool
        requires member { IsMember share.old.index.value self.old }
        requires kept { IsKept (shape_of share.old.index.value) self.old.pass share.old.held }
        ensures index { share.new.index ≡ share.old.index }
        ensures free { share.new.held ≡ None }
        ensures was_held { result ≡ is_some share.old.held }
        ensures member { IsMember share.old.index.value self.new }
        ensures ends { EndsKept share.old.held (board_of share.old.index.value) self.old self.new }
    {
        share.release(&mut self.pass)
    }
}

impl<'i> Client<'i> {
    ghost use Rattle.segindex.specs.Words.{shape_of};
    ghost use Rattle.segread.specs.Words.{IsHoldOf};
    ghost use Rattle.segclient.specs.Client.{MakesCall};
    ghost use Rattle.segclient.specs.Made.{EndsHold, HoldsKey, ReadsHold};

    /// Holds the item of a key. Its value can be read until the hold is spent by `release`,
    /// whatever becomes of the key, and up to then its segment isn't refilled.
    /// A client holds one item at most.
    pub fn hold(&mut self, key: &Key) -> HoldAnswer<'i>
        ensures holds { MakesCall (HoldsKey key.now result) self.old self.new }
    {
        self.member.hold(self.index, key)
    }

    /// A copy of the value that is held: the one that stood under the key when it was held.
    pub fn held_value(&mut self, hold: &Hold<'_>) -> Value
        requires hold { IsHoldOf (shape_of self.old.index.now) hold.now self.old.member.pass }
        ensures reads { MakesCall (ReadsHold hold.now result) self.old self.new }
    {
        self.member.held_value(self.index, hold)
    }

    /// Ends a hold.
    pub fn release(&mut self, hold: Hold<'_>)
        requires hold { IsHoldOf (shape_of self.old.index.now) hold self.old.member.pass }
        ensures releases { MakesCall EndsHold self.old self.new }
    {
        self.member.release(self.index, hold);
    }
}
