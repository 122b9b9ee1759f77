//! A client of one shard, which shares the shard's index with the cache and the other clients.
ghost use Rattle.std.specs.Prelude.{◌≡◌, None};
ghost use Rattle.segbase.specs.Words.{number_of};
ghost use Rattle.segindex.specs.Words.{board_of, shape_of};
ghost use Rattle.segstore.specs.Words.{IsQuiet};
ghost use Rattle.segclient.specs.Member.{IsMember, IsMember-prop};
ghost use Rattle.segread.specs.Words.{IsKept, IsKept-prop};

use segclient::{Index, IndexStats, Member, Pass, Share, Stats};
use std::alloc::Global;
use std::sync::Arc;

/// A client of one shard, with a share of its index and what it holds by the share.
/// A client that is dropped ends its hold first.
pub struct Guest {
    pub(crate) share: Share,
    pub(crate) member: Member,
    ghost is_member: { IsMember share.index.value
        member } by { IsMember-prop share.index.value member },
    ghost row: { IsKept (shape_of share.index.value) member.pass
        share.held } by { IsKept-prop (shape_of share.index.value) member.pass share.held },
}

impl Drop for Guest {
    fn drop(self) {
        self.into_pass();
    }
}

impl Guest {
    ghost use Rattle.segclient.specs.Made.{ReturnsTable};
    ghost use Rattle.segclient.specs.Member.{SetsCutoff, SetsTimeToLive};
    ghost use Rattle.segclient.specs.Puts.{MakesRoomFor};
    ghost use Rattle.seghandles.specs.Guest.{At, IsPassOfGuest, MakesCall};

    /// A client that shares the index, and holds nothing.
    pub(crate) fn new(index: Arc<Index, Global>, member: Member) -> Guest
        requires member { IsMember index.value member }
        requires row { IsKept (shape_of index.value) member.pass None }
        ensures index { result.share.index.value ≡ index.value }
        ensures member { result.member ≡ member }
        ensures held { result.share.held ≡ None }
    {
        Guest {
            share: Share::new(index),
            member,
        }
    }

    /// Sets how long what is stored can be read.
    pub(crate) fn set_time_to_live(&mut self, seconds: u32)
        ensures { MakesCall (λ board. SetsTimeToLive seconds) self.old self.new }
    {
        self.member.set_time_to_live(seconds);
    }

    /// Sets which items a put keeps.
    pub(crate) fn keep_from(&mut self, cutoff: Option<u8>)
        ensures { MakesCall (λ board. SetsCutoff cutoff) self.old self.new }
    {
        self.member.keep_from(cutoff);
    }

    /// Makes room for a write, and says whether that came about.
    pub(crate) fn make_room(&mut self, now: u32) -> bool
        ensures { MakesCall (At now (MakesRoomFor result)) self.old self.new }
    {
        self.member.set_now(now);
        self.member.make_room(self.share.index())
    }

    /// What its calls came to so far.
    pub(crate) fn stats(&self) -> Stats
        ensures { result ≡ self.now.member.stats }
    {
        self.member.stats()
    }

    /// What it sees of the table.
    pub(crate) fn index_stats(&mut self) -> IndexStats
        ensures { MakesCall (ReturnsTable result) self.old self.new }
    {
        self.member.index_stats(self.share.index())
    }

    /// The number of its pass.
    pub(crate) fn number(&self) -> u32
        ensures { result ≡ number_of self.now.member.pass }
    {
        self.member.number()
    }

    /// Ends its hold, if there is one. Its pass, as for the close of the index.
    pub(crate) fn into_pass(mut self) -> Pass
        ensures pass { IsPassOfGuest self result }
        ensures quiet { IsQuiet (board_of self.share.index.value) result }
    {
        self.release();
        let Guest { share, member } = self;
        share.into_index();
        member.into_pass()
    }
}
