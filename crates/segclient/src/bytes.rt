//! A client's writes. Those of a `Value` come here too: the bytes of a value go from where they
//! stand straight into rows.
ghost use Rattle.std.specs.Prelude.{◌≡◌};
ghost use Rattle.segindex.specs.Words.{board_of};
ghost use Rattle.segclient.specs.Member.{IsMember};

use crate::client::Client;
use crate::effort::Effort;
use crate::member::Member;
use crate::put::{PutAnswer, put_at_last, set_first};
use crate::segments::Order;
use segindex::{Condition, Index};
use segmodel::WriteAnswer;
use segword::{Key, ValueBytes};

impl Member {
    ghost use Rattle.segwrite.specs.declared.condition.Condition.TheVariants.{Always};
    ghost use Rattle.segwrite.specs.Words.{IsSetAnswer, request_of};
    ghost use Rattle.segbase.specs.Words.{Pass as BasePass};
    ghost use Rattle.segclient.specs.Made.{EndsPut, EndsWrite, MakesWrite};
    ghost use Rattle.segclient.specs.PutCalls.{IsInWindow};
    ghost use Rattle.segclient.specs.PutParts.{plan_of, SetsIfTimely, with_effort};
    ghost use Rattle.segclient.specs.Puts.{Puts, PutsFor};
    ghost use Rattle.segclient.specs.Tallies.{write_of};

    /// As `Client::write`.
    pub fn write(
        &mut self,
        index: &Index,
        key: &Key,
        value: &ValueBytes<'_>,
        condition: Condition,
    ) -> WriteAnswer
        requires member { IsMember index.now self.old }
        ensures member { IsMember index.now self.new }
        ensures writes { MakesWrite (request_of condition key.now value.now) result
            (board_of index.now) self.old self.new }
        ensures set { condition ≡ Always → IsSetAnswer result }
    {
        if !self.begin_write(index) {
            return self.refuse_write(index, key);
        }
        let (told, replaced) = index.write(&mut self.pass, key, value, condition, self.clock);
        self.end_write(index, key, told, replaced);
        told
    }

    /// As `Client::put_bytes`.
    #[inline(always)]
    pub fn put_bytes(&mut self, index: &Index, key: &Key, value: &ValueBytes<'_>) -> PutAnswer
        requires member { IsMember index.now self.old }
        ensures member { IsMember index.now self.new }
        ensures puts { Puts key.now value.now result (board_of index.now) self.old self.new }
    {
        self.put_bytes_for(index, key, value, self.time_to_live)
    }

    /// As `Client::put_bytes_for`.
    #[inline(always)]
    pub fn put_bytes_for(
        &mut self,
        index: &Index,
        key: &Key,
        value: &ValueBytes<'_>,
        time_to_live: u32,
    ) -> PutAnswer
        requires member { IsMember index.now self.old }
        ensures member { IsMember index.now self.new }
        ensures puts { PutsFor time_to_live key.now value.now result
            (board_of index.now) self.old self.new }
    {
        let policy = self.policy_for(index, time_to_live);
        let order = Order { key, value, policy };
        let first = set_first(index, &mut self.pass, &mut self.segments, order);
        if let PutAnswer::Stored = first {
            self.end_put(index, key, first, Effort::none());
            return first;
        }
        self.put_making_room(index, order, first)
    }

    // What becomes of a put whose first set was answered so.
    #[cold]
    #[inline(never)]
    fn put_making_room(&mut self, index: &Index, order: Order<'_>, first: PutAnswer) -> PutAnswer
        requires member { IsMember index.now self.old }
        requires timely { IsInWindow order.policy.window order.policy.deadline }
        ensures member { IsMember index.now self.new }
        ensures puts { (start : BasePass)
            → SetsIfTimely (board_of index.now) (plan_of order.entry) first start self.old.pass
            → EndsPut (plan_of order.entry) result (board_of index.now) start self.old self.new }
    {
        let (told, effort) = put_at_last(index, &mut self.pass, &mut self.segments, order, first);
        self.end_put(index, order.key, told, effort);
        told
    }

    // Counts a put that was answered so and took this effort. It ends as a write does.
    #[inline(always)]
    fn end_put(&mut self, index: &Index, key: &Key, told: PutAnswer, effort: Effort)
        requires member { IsMember index.now self.old }
        ensures member { IsMember index.now self.new }
        ensures ends { EndsWrite (write_of told) (board_of index.now)
            (record self.old { stats = with_effort effort self.old.stats }) self.new }
    {
        self.stats.count_effort(effort);
        let replaced = self.segments.replaced;
        self.end_write(index, key, told.as_write(), replaced);
    }
}

impl<'i> Client<'i> {
    ghost use Rattle.segwrite.specs.declared.condition.Condition.TheVariants.{Always};
    ghost use Rattle.segwrite.specs.Words.{IsSetAnswer, request_of};
    ghost use Rattle.segclient.specs.Client.{MakesCall};
    ghost use Rattle.segclient.specs.Made.{MakesWrite};
    ghost use Rattle.segclient.specs.Puts.{Puts, PutsFor};

    /// Stores the value under the key, if that is to be, as `set`, `add`, `replace` and `cas` do. The
    /// bytes of the value go from where they stand straight into a row.
    #[inline(always)]
    pub fn write(&mut self, key: &Key, value: &ValueBytes<'_>, condition: Condition) -> WriteAnswer
        ensures writes { MakesCall (MakesWrite (request_of condition key.now value.now) result)
            self.old self.new }
        ensures set { condition ≡ Always → IsSetAnswer result }
    {
        self.member.write(self.index, key, value, condition)
    }

    /// Stores the value under the key as `put` does, from where its bytes stand.
    #[inline(always)]
    pub fn put_bytes(&mut self, key: &Key, value: &ValueBytes<'_>) -> PutAnswer
        ensures puts { MakesCall (Puts key.now value.now result) self.old self.new }
    {
        self.member.put_bytes(self.index, key, value)
    }

    /// Stores the value under the key as `put_for` does, from where its bytes stand.
    #[inline(always)]
    pub fn put_bytes_for(
        &mut self,
        key: &Key,
        value: &ValueBytes<'_>,
        time_to_live: u32,
    ) -> PutAnswer
        ensures puts { MakesCall (PutsFor time_to_live key.now value.now result)
            self.old self.new }
    {
        self.member
            .put_bytes_for(self.index, key, value, time_to_live)
    }
}
