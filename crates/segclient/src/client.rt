//! One pass of an index with what it goes by from one call to the next.
ghost use Rattle.segindex.specs.Words.{board_of};
ghost use Rattle.segstore.specs.Words.{IsQuiet};
ghost use Rattle.segclient.specs.Member.{IsMember, IsMember-prop};

use crate::member::Member;
use crate::put::PutAnswer;
use crate::stats::Stats;
use segindex::{Condition, Index, IndexStats, Pass};
use segmodel::{DeleteAnswer, GetAnswer, GetsAnswer, WriteAnswer};
use segword::{Key, Value, ValueBytes};
use std::alloc::{AllocError, Global};

/// A pass of an index, for one thread at a time.
///
/// It knows the segments of the pass, which its calls recycle, draws the random numbers
/// that raise frequencies, and has a clock, which stands still until the caller sets it.
#[derive(Drop)]
pub struct Client<'i> {
    pub(crate) index: &'i Index,
    pub(crate) member: Member,
    ghost is_member: { IsMember index.now member } by { IsMember-prop index.now member },
}

impl<'i> Client<'i> {
    ghost use Rattle.std.specs.Prelude.{◌≡◌, IfOk, None, Some};
    ghost use Rattle.segmodel.specs.declared.request.Request.TheVariants.{Set, Add, Replace, Cas};
    ghost use Rattle.segwrite.specs.Words.{IsSetAnswer};
    ghost use Rattle.segclient.specs.Client.{MakesCall, Starts};
    ghost use Rattle.segclient.specs.Made.{DeletesKey, Gets, GetsVersion, MakesWrite, ReturnsTable};
    ghost use Rattle.segclient.specs.Member.{SetsCutoff, SetsNow, SetsTimeToLive};
    ghost use Rattle.segclient.specs.Puts.{MakesRoomFor, Puts, PutsFor};

    /// A client of this pass. Its clock shows 0, what it puts expires at the largest moment,
    /// and its puts keep nothing.
    pub fn new(index: &'i Index, pass: Pass) -> Client<'i>
        requires quiet { IsQuiet (board_of index.now) pass }
        ensures starts { Starts index.now None pass result }
    {
        Client {
            index,
            member: Member::new(index, pass),
        }
    }

    /// A client of this pass as `new` makes it, but its puts keep what was read, by two queues of
    /// its segments. For these it takes 44 bytes for each segment of its own, 3 for each row there
    /// and one for each eight, and no more later.
    pub fn with_queues(
        alloc: Global,
        index: &'i Index,
        pass: Pass,
    ) -> Result<Client<'i>, AllocError>
        requires quiet { IsQuiet (board_of index.now) pass }
        ensures starts { IfOk result (Starts index.now (Some 0) pass) }
    {
        let member = Member::with_queues(alloc, index, pass)?;
        Ok(Client { index, member })
    }

    /// Its pass, as for the close of the index.
    pub fn into_pass(self) -> Pass
        ensures { result ≡ self.entry.member.pass }
    {
        self.member.into_pass()
    }

    /// Sets its clock. Each call from now on is made with this moment.
    pub fn set_now(&mut self, now: u32)
        ensures sets { MakesCall (λ board. SetsNow now) self.old self.new }
    {
        self.member.set_now(now);
    }

    /// The counts of its calls so far.
    pub fn stats(&self) -> Stats
        ensures { result ≡ self.now.member.stats }
    {
        self.member.stats()
    }

    /// What the client sees of the table: the overflow buckets in use,
    /// the used rows of its own segments, and how many used rows an item names.
    /// The others are dead. It goes over all used rows, so it takes long.
    pub fn index_stats(&mut self) -> IndexStats
        ensures reads { MakesCall (ReturnsTable result) self.old self.new }
    {
        self.member.index_stats(self.index)
    }

    /// The value under a key.
    #[inline(always)]
    pub fn get(&mut self, key: &Key) -> GetAnswer
        ensures reads { MakesCall (Gets key.now result) self.old self.new }
    {
        self.member.get(self.index, key)
    }

    /// The value under a key, with the version of the key's bucket, for a later compare-and-swap.
    pub fn gets(&mut self, key: &Key) -> GetsAnswer
        ensures reads { MakesCall (GetsVersion key.now result) self.old self.new }
    {
        self.member.gets(self.index, key)
    }

    /// Stores the value under the key. It makes no room, but `put` does.
    ///
    /// As `put` does, it stores into a segment of its own that has a row left and expires a time
    /// to live from now, or up to an eighth of that earlier. If the client finds none, it is NoRoom
    /// until `make_room`, and so are `add`, `replace` and `cas`.
    pub fn set(&mut self, key: &Key, value: &Value) -> WriteAnswer
        ensures writes { MakesCall (MakesWrite (Set key.now value.now) result) self.old self.new }
        ensures set { IsSetAnswer result }
    {
        self.write(key, &ValueBytes::of(value), Condition::Always)
    }

    /// Stores the value if the key is absent. Otherwise it returns NotStored.
    pub fn add(&mut self, key: &Key, value: &Value) -> WriteAnswer
        ensures writes { MakesCall (MakesWrite (Add key.now value.now) result) self.old self.new }
    {
        self.write(key, &ValueBytes::of(value), Condition::IfAbsent)
    }

    /// Stores the value if the key is present. Otherwise it returns NotStored.
    pub fn replace(&mut self, key: &Key, value: &Value) -> WriteAnswer
        ensures writes { MakesCall (MakesWrite (Replace key.now value.now) result)
            self.old self.new }
    {
        self.write(key, &ValueBytes::of(value), Condition::IfPresent)
    }

    /// Stores the value if the key is present and its bucket has the expected version.
    /// Otherwise it returns NotFound if the key is absent, and else Exists.
    pub fn cas(&mut self, key: &Key, value: &Value, expected: u32) -> WriteAnswer
        ensures writes { MakesCall (MakesWrite (Cas key.now value.now expected) result)
            self.old self.new }
    {
        self.write(key, &ValueBytes::of(value), Condition::IfVersion(expected))
    }

    /// Takes the key out.
    pub fn delete(&mut self, key: &Key) -> DeleteAnswer
        ensures deletes { MakesCall (DeletesKey key.now result) self.old self.new }
    {
        self.member.delete(self.index, key)
    }

    /// Sets how long what is stored from now on can be read, but for that of `put_for`: for this
    /// time at most, and for seven eighths of it at least, unless it goes before.
    /// What is stored expires with its segment, and a segment keeps its deadline.
    /// At the start it is the largest number, and then nothing expires
    /// before the largest moment.
    pub fn set_time_to_live(&mut self, time_to_live: u32)
        ensures sets { MakesCall (λ board. SetsTimeToLive time_to_live) self.old self.new }
    {
        self.member.set_time_to_live(time_to_live);
    }

    /// Sets which items a put keeps: those whose frequency is the cutoff or over it.
    /// None: it keeps nothing. The queues of `with_queues` are dropped, and don't come back:
    /// from then on its segments are taken in turn, in the order of their numbers.
    ///
    /// An item has the frequency 1 when it is stored, and gets raise it.
    /// Puts with a cutoff evict the next segment ahead of time,
    /// so the client has room for one segment less.
    /// Items are kept only where the two segments have the same deadline.
    pub fn keep_from(&mut self, cutoff: Option<u8>)
        ensures sets { MakesCall (λ board. SetsCutoff cutoff) self.old self.new }
    {
        self.member.keep_from(cutoff);
    }

    /// Its puts keep nothing from now on. As `keep_from` with None.
    pub fn keep_nothing(&mut self)
        ensures sets { MakesCall (λ board. SetsCutoff None) self.old self.new }
    {
        self.member.keep_from(None);
    }

    /// Makes room for a write that returned NoRoom, as `put` does,
    /// and returns whether there is room. A client with queues does nothing if its current segment
    /// has the deadline of clock and time to live, and enough rows left for the longest item,
    /// or all its rows where it has fewer.
    pub fn make_room(&mut self) -> bool
        ensures makes { MakesCall (MakesRoomFor result) self.old self.new }
    {
        self.member.make_room(self.index)
    }

    /// Stores the value under the key, and makes room for it if there is none.
    ///
    /// It stores into a segment of its own that has a row left and expires a time to live from now,
    /// or up to an eighth of that earlier. If it has none,
    /// it recycles segments of its own: it evicts them, and refills one to expire then.
    /// By queues it goes over up to eight items of another segment once it is stored, while few
    /// segments are free: it moves on what was read, and evicts the rest. An update moves on
    /// without being read, some times.
    /// By a cutoff, or keeping nothing, it takes the one that was filled before the others,
    /// from the second round on if it had queues before;
    /// one that can't be recycled is passed over until its next turn.
    /// If the key's bucket is full, it evicts one item of its own there and sets again: one that
    /// has expired, or else the one that was read least. If it has none there, it evicts nothing.
    /// A set is made at most 16 times in a row, while it is busy.
    #[inline(always)]
    pub fn put(&mut self, key: &Key, value: &Value) -> PutAnswer
        ensures puts { MakesCall (Puts key.now value.now result) self.old self.new }
    {
        self.put_bytes(key, &ValueBytes::of(value))
    }

    /// Stores the value under the key as `put` does, but for this time to live in place
    /// of the client's own: it can be read for this time at most, and for seven eighths of it
    /// at least, unless it is evicted, replaced or deleted before. With the largest number
    /// it doesn't expire before the largest moment.
    ///
    /// Items with different times stand in different segments, which the client fills by turns.
    /// `set`, `add`, `replace` and `cas` store for the client's own time.
    #[inline(always)]
    pub fn put_for(&mut self, key: &Key, value: &Value, time_to_live: u32) -> PutAnswer
        ensures puts { MakesCall (PutsFor time_to_live key.now value.now result)
            self.old self.new }
    {
        self.put_bytes_for(key, &ValueBytes::of(value), time_to_live)
    }
}
