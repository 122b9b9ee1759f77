//! Values that go straight into the bytes of a caller.
use crate::client::Client;
use crate::member::{Member, drawn};
use segindex::{GetsIntoAnswer, Hold, Index, IntoAnswer, Share};
use segtally::Tally;
use segword::Key;

impl Member {
    ghost use Rattle.segindex.specs.Words.{board_of, shape_of};
    ghost use Rattle.segread.specs.Words.{IsHoldOf, IsKept};
    ghost use Rattle.segclient.specs.Made.{GetsInto, GetsVersionInto, ReadsHoldInto, ReadsKeptInto};
    ghost use Rattle.segclient.specs.Member.{IsMember};

    /// As `Client::get_into`.
    #[inline(always)]
    pub fn get_into(&mut self, index: &Index, key: &Key, bytes: &mut [u8]) -> IntoAnswer
        requires member { IsMember index.now self.old }
        ensures member { IsMember index.now self.new }
        ensures reads { GetsInto key.now result bytes.old bytes.new (board_of index.now)
            self.old self.new }
    {
        self.draws = drawn(self.draws);
        let told = index.get_into(&mut self.pass, key, self.draws / 256, self.clock, bytes);
        self.stats.count(Tally::of_into(&told));
        told
    }

    /// As `Client::gets_into`.
    #[inline(always)]
    pub fn gets_into(&mut self, index: &Index, key: &Key, bytes: &mut [u8]) -> GetsIntoAnswer
        requires member { IsMember index.now self.old }
        ensures member { IsMember index.now self.new }
        ensures reads { GetsVersionInto key.now result bytes.old bytes.new (board_of index.now)
            self.old self.new }
    {
        self.draws = drawn(self.draws);
        let told = index.gets_into(&mut self.pass, key, self.draws / 256, self.clock, bytes);
        self.stats.count(Tally::of_gets_into(&told));
        told
    }

    /// As `Client::held_into`.
    pub fn held_into(
        &mut self,
        index: &Index,
        hold: &Hold<'_>,
        bytes: &mut [u8],
    ) -> Result<usize, usize>
        requires member { IsMember index.now self.old }
        requires hold { IsHoldOf (shape_of index.now) hold.now self.old.pass }
        ensures member { IsMember index.now self.new }
        ensures reads { ReadsHoldInto hold.now result bytes.old bytes.new (board_of index.now)
            self.old self.new }
    {
        index.held_into(&mut self.pass, hold, bytes)
    }

    /// The value that is held by the share, if one is, as `held_into` copies it.
    pub fn value_into_by(&mut self, share: &Share, bytes: &mut [u8]) -> Option<Result<usize, usize>>
        requires member { IsMember share.now.index.value self.old }
        requires kept { IsKept (shape_of share.now.index.value) self.old.pass share.now.held }
        ensures member { IsMember share.now.index.value self.new }
        ensures reads { ReadsKeptInto share.now.held result bytes.old bytes.new
            (board_of share.now.index.value) self.old self.new }
    {
        share.held_into(&mut self.pass, bytes)
    }
}

impl<'i> Client<'i> {
    ghost use Rattle.segindex.specs.Words.{shape_of};
    ghost use Rattle.segread.specs.Words.{IsHoldOf};
    ghost use Rattle.segclient.specs.Client.{MakesCall};
    ghost use Rattle.segclient.specs.Made.{GetsInto, GetsVersionInto, ReadsHoldInto};

    /// The value under a key, as `get` reads it, but it goes to the front of a buffer.
    /// What is behind the value stays as it was, and so does a buffer that is too short.
    #[inline(always)]
    pub fn get_into(&mut self, key: &Key, bytes: &mut [u8]) -> IntoAnswer
        ensures reads { MakesCall (GetsInto key.now result bytes.old bytes.new)
            self.old self.new }
    {
        self.member.get_into(self.index, key, bytes)
    }

    /// The value under a key with the version of its bucket, as `gets` reads them, but the value goes
    /// to the front of a buffer, as by `get_into`.
    #[inline(always)]
    pub fn gets_into(&mut self, key: &Key, bytes: &mut [u8]) -> GetsIntoAnswer
        ensures reads { MakesCall (GetsVersionInto key.now result bytes.old bytes.new)
            self.old self.new }
    {
        self.member.gets_into(self.index, key, bytes)
    }

    /// The value that is held goes to the front of a buffer. Returns its length: as an error if the
    /// buffer is too short, and then it is as it was.
    pub fn held_into(&mut self, hold: &Hold<'_>, bytes: &mut [u8]) -> Result<usize, usize>
        requires hold { IsHoldOf (shape_of self.old.index.now) hold.now self.old.member.pass }
        ensures reads { MakesCall (ReadsHoldInto hold.now result bytes.old bytes.new)
            self.old self.new }
    {
        self.member.held_into(self.index, hold, bytes)
    }
}
