//! The calls of a client of one shard by which it reads and writes there.
ghost use Rattle.seghandles.specs.Made.{WritesWhen};

use crate::guest::Guest;
use segclient::{
    Condition, DeleteAnswer, GetsIntoAnswer, IntoAnswer, Key, PutAnswer, ValueBytes, WriteAnswer,
};
use segindex::Seeker;

impl Guest {
    ghost use Rattle.segclient.specs.Made.{DeletesKey, GetsInto, GetsVersionInto};
    ghost use Rattle.segclient.specs.Many.{LooksAheadBy};
    ghost use Rattle.segclient.specs.Puts.{Puts, PutsFor};
    ghost use Rattle.seghandles.specs.Guest.{At, MakesCall};

    /// Looks ahead for a key.
    #[inline(always)]
    pub(crate) fn seek(&mut self, key: &Key) -> Seeker
        ensures { MakesCall (LooksAheadBy 1) self.old self.new }
    {
        self.member.seek(self.share.index(), key)
    }

    /// The value under a key, which goes to the front of a buffer, if that has room for it.
    #[inline(always)]
    pub(crate) fn get_into(&mut self, key: &Key, now: u32, bytes: &mut [u8]) -> IntoAnswer
        ensures { MakesCall (At now (GetsInto key.now result bytes.old bytes.new))
            self.old self.new }
    {
        self.member.set_now(now);
        self.member.get_into(self.share.index(), key, bytes)
    }

    /// The value under a key, with the version of its bucket. The value goes to the buffer so, too.
    #[inline(always)]
    pub(crate) fn gets_into(&mut self, key: &Key, now: u32, bytes: &mut [u8]) -> GetsIntoAnswer
        ensures { MakesCall (At now (GetsVersionInto key.now result bytes.old bytes.new))
            self.old self.new }
    {
        self.member.set_now(now);
        self.member.gets_into(self.share.index(), key, bytes)
    }

    /// Stores the value under the key, and makes room for it if there is none.
    pub(crate) fn put(&mut self, key: &Key, value: &ValueBytes<'_>, now: u32) -> PutAnswer
        ensures { MakesCall (At now (Puts key.now value.now result)) self.old self.new }
    {
        self.member.set_now(now);
        self.member.put_bytes(self.share.index(), key, value)
    }

    /// Stores the value under the key as `put` does, but for this time to live.
    pub(crate) fn put_for(
        &mut self,
        key: &Key,
        value: &ValueBytes<'_>,
        seconds: u32,
        now: u32,
    ) -> PutAnswer
        ensures { MakesCall (At now (PutsFor seconds key.now value.now result))
            self.old self.new }
    {
        self.member.set_now(now);
        self.member
            .put_bytes_for(self.share.index(), key, value, seconds)
    }

    /// Stores the value under the key, if that is to be, and makes no room.
    #[inline(always)]
    pub(crate) fn write(
        &mut self,
        when: Condition,
        key: &Key,
        value: &ValueBytes<'_>,
        now: u32,
    ) -> WriteAnswer
        ensures { MakesCall (At now (WritesWhen when key.now value.now result)) self.old self.new }
    {
        self.member.set_now(now);
        self.member.write(self.share.index(), key, value, when)
    }

    /// Takes the key out.
    pub(crate) fn delete(&mut self, key: &Key, now: u32) -> DeleteAnswer
        ensures { MakesCall (At now (DeletesKey key.now result)) self.old self.new }
    {
        self.member.set_now(now);
        self.member.delete(self.share.index(), key)
    }
}
