//! What a client has beside its index, as whoever shares the index has it.
ghost use Rattle.std.specs.Prelude.{◌≡◌, IfOk, None, Some};
ghost use Rattle.segindex.specs.Words.{board_of, shape_of};
ghost use Rattle.segstore.specs.Words.{IsQuiet};
ghost use Rattle.segclient.specs.Member.{next_draws};

use crate::choosing::{choose, is_filled_fine, is_fine, is_outside};
use crate::clearing::{clear_some, is_due};
use crate::effort::Effort;
use crate::lives::{FINE_PARTS, PARTS, deadline_by, window_for};
use crate::making::make_room_by;
use crate::queues::{queues_of, tell_deleted, tell_stored};
use crate::segments::{Policy, Segments, Window};
use crate::stats::Stats;
use segindex::{Index, IndexStats, Pass, RowRef};
use segmodel::{DeleteAnswer, GetAnswer, GetsAnswer, WriteAnswer};
use segtally::{Tally, own_ring};
use segword::Key;
use std::alloc::{AllocError, Global};

/// What a client has beside its index: a pass of it, the segments of the pass, its draws,
/// its clock, its settings and its counts.
///
/// Each call of a client is a call of a `Member`, which takes the index.
#[derive(Drop)]
pub struct Member {
    pub(crate) pass: Pass,
    pub(crate) segments: Segments,
    pub(crate) draws: u32,
    pub(crate) clock: u32,
    pub(crate) time_to_live: u32,
    // The least frequency of an item that a put keeps. None: it keeps nothing.
    pub(crate) cutoff: Option<u8>,
    pub(crate) stats: Stats,
}

// The state of the draws after the next one.
pub(crate) fn drawn(draws: u32) -> u32
    ensures { result ≡ next_draws draws }
{
    draws.wrapping_mul(1_664_525).wrapping_add(1_013_904_223)
}

impl Member {
    ghost use Rattle.segbase.specs.Words.{number_of};
    ghost use Rattle.segmodel.specs.declared.answer.WriteAnswer.TheVariants.{NoRoom};
    ghost use Rattle.segclient.specs.Made.{BeginsWrite, ClearsThen, DeletesKey, EndsWrite, Gets};
    ghost use Rattle.segclient.specs.Made.{GetsVersion, ReturnsTable};
    ghost use Rattle.segclient.specs.Member.{Begins, IsMember, SetsCutoff, SetsNow, SetsTimeToLive};
    ghost use Rattle.segclient.specs.Policies.{IsPolicyFor, policy_of};
    ghost use Rattle.segclient.specs.Puts.{MakesRoomFor};

    /// As `Client::new`.
    pub fn new(index: &Index, pass: Pass) -> Member
        requires quiet { IsQuiet (board_of index.now) pass }
        ensures member { IsMember index.now result }
        ensures begins { Begins (shape_of index.now) None pass result }
    {
        let number = pass.number();
        let ring = own_ring(index, &pass);
        Member {
            pass,
            segments: Segments {
                ring,
                queues: None,
                source: None,
                replaced: None,
            },
            draws: number,
            clock: 0,
            time_to_live: u32::MAX,
            cutoff: None,
            stats: Stats::new(),
        }
    }

    /// As `Client::with_queues`.
    pub fn with_queues(alloc: Global, index: &Index, pass: Pass) -> Result<Member, AllocError>
        requires quiet { IsQuiet (board_of index.now) pass }
        ensures member { IfOk result (IsMember index.now) }
        ensures begins { IfOk result (Begins (shape_of index.now) (Some 0) pass) }
    {
        let queues = queues_of(alloc, index, &pass)?;
        let mut member = Member::new(index, pass);
        member.segments.queues = Some(queues);
        member.cutoff = Some(0);
        Ok(member)
    }

    /// The number of its pass.
    pub fn number(&self) -> u32
        ensures { result ≡ number_of self.now.pass }
    {
        self.pass.number()
    }

    /// Its pass, as for the close of the index.
    pub fn into_pass(self) -> Pass
        ensures { result ≡ self.pass }
    {
        self.pass
    }

    /// As `Client::set_now`.
    pub fn set_now(&mut self, now: u32)
        ensures sets { SetsNow now self.old self.new }
    {
        self.clock = now;
    }

    /// As `Client::set_time_to_live`.
    pub fn set_time_to_live(&mut self, time_to_live: u32)
        ensures sets { SetsTimeToLive time_to_live self.old self.new }
    {
        self.time_to_live = time_to_live;
    }

    /// As `Client::keep_from`.
    pub fn keep_from(&mut self, cutoff: Option<u8>)
        ensures sets { SetsCutoff cutoff self.old self.new }
    {
        self.cutoff = cutoff;
        self.segments.queues = None;
        self.segments.source = None;
    }

    /// As `Client::stats`.
    pub fn stats(&self) -> Stats
        ensures { result ≡ self.now.stats }
    {
        self.stats
    }

    /// As `Client::index_stats`.
    pub fn index_stats(&mut self, index: &Index) -> IndexStats
        requires member { IsMember index.now self.old }
        ensures member { IsMember index.now self.new }
        ensures reads { ReturnsTable result (board_of index.now) self.old self.new }
    {
        index.stats(&mut self.pass)
    }

    /// As `Client::get`.
    #[inline(always)]
    pub fn get(&mut self, index: &Index, key: &Key) -> GetAnswer
        requires member { IsMember index.now self.old }
        ensures member { IsMember index.now self.new }
        ensures reads { Gets key.now result (board_of index.now) self.old self.new }
    {
        self.draws = drawn(self.draws);
        let told = index.get(&mut self.pass, key, self.draws / 256, self.clock);
        self.stats.count(Tally::of_get(&told));
        told
    }

    /// As `Client::gets`.
    pub fn gets(&mut self, index: &Index, key: &Key) -> GetsAnswer
        requires member { IsMember index.now self.old }
        ensures member { IsMember index.now self.new }
        ensures reads { GetsVersion key.now result (board_of index.now) self.old self.new }
    {
        self.draws = drawn(self.draws);
        let told = index.gets(&mut self.pass, key, self.draws / 256, self.clock);
        self.stats.count(Tally::of_gets(&told));
        told
    }

    // Before a write: the pass stores into an open segment with a deadline that is asked, if it has
    // one. The write can be made unless what it stores into then has another deadline.
    #[inline(always)]
    pub(crate) fn begin_write(&mut self, index: &Index) -> bool
        requires member { IsMember index.now self.old }
        ensures member { IsMember index.now self.new }
        ensures begins { BeginsWrite result (board_of index.now) self.old self.new }
    {
        let window = window_for(self.clock, self.time_to_live);
        choose(index, &mut self.pass, &self.segments, window);
        !is_outside(&self.pass, window)
    }

    // After a write that was answered so: once it is stored, the queues are told of it,
    // and clear some rows.
    #[inline(always)]
    fn clear_then(
        &mut self,
        index: &Index,
        key: &Key,
        told: WriteAnswer,
        replaced: Option<RowRef>,
    ) -> Effort
        requires member { IsMember index.now self.old }
        ensures member { IsMember index.now self.new }
        ensures clears { ClearsThen told (board_of index.now) result self.old self.new }
    {
        let WriteAnswer::Stored = told else {
            return Effort::none();
        };
        if self.segments.queues.is_none() {
            return Effort::none();
        }
        tell_stored(index, &self.pass, &mut self.segments, key, replaced);
        if !is_due(&self.segments, self.clock) {
            return Effort::none();
        }
        clear_some(
            index,
            &mut self.pass,
            &mut self.segments,
            self.cutoff,
            self.clock,
        )
    }

    // Counts a write that was answered so. Once it is stored, some rows are cleared,
    // and that is counted, too.
    #[inline(always)]
    pub(crate) fn end_write(
        &mut self,
        index: &Index,
        key: &Key,
        told: WriteAnswer,
        replaced: Option<RowRef>,
    )
        requires member { IsMember index.now self.old }
        ensures member { IsMember index.now self.new }
        ensures ends { EndsWrite told (board_of index.now) self.old self.new }
    {
        self.stats.count(Tally::of_write(told));
        let effort = self.clear_then(index, key, told, replaced);
        self.stats.count_effort(effort);
    }

    // A write that can't be made has no room.
    #[cold]
    #[inline(never)]
    pub(crate) fn refuse_write(&mut self, index: &Index, key: &Key) -> WriteAnswer
        requires member { IsMember index.now self.old }
        ensures member { IsMember index.now self.new }
        ensures refuses { result ≡ NoRoom }
        ensures ends { EndsWrite NoRoom (board_of index.now) self.old self.new }
    {
        self.end_write(index, key, WriteAnswer::NoRoom, None);
        WriteAnswer::NoRoom
    }

    /// As `Client::delete`.
    pub fn delete(&mut self, index: &Index, key: &Key) -> DeleteAnswer
        requires member { IsMember index.now self.old }
        ensures member { IsMember index.now self.new }
        ensures deletes { DeletesKey key.now result (board_of index.now) self.old self.new }
    {
        let (told, row) = index.delete_and_tell(&mut self.pass, key, self.clock);
        self.stats.count(Tally::of_delete(told));
        tell_deleted(index, &self.pass, &mut self.segments, row, told);
        told
    }

    // How room is made now.
    fn policy(&self) -> Policy
        ensures { result ≡ policy_of self.now }
    {
        let time = self.time_to_live;
        Policy {
            cutoff: self.cutoff,
            deadline: deadline_by(self.clock, time, time / PARTS),
            window: window_for(self.clock, time),
            moment: self.clock,
        }
    }

    // How room is made for what is put now for this time. While many segments are free,
    // or two fifths of what is evicted have expired, those are opened that have finer deadlines.
    #[inline(always)]
    pub(crate) fn policy_for(&self, index: &Index, time: u32) -> Policy
        requires member { IsMember index.now self.now }
        ensures { IsPolicyFor time self.now result }
    {
        let window = window_for(self.clock, time);
        let cutoff = self.cutoff;
        let moment = self.clock;
        if is_fine(index, &self.pass, &self.segments, window) {
            let deadline = deadline_by(moment, time, time / FINE_PARTS);
            let window = Window {
                earliest: deadline,
                latest: window.latest,
            };
            return Policy {
                cutoff,
                deadline,
                window,
                moment,
            };
        }
        if is_filled_fine(&self.segments) {
            return Policy {
                cutoff,
                deadline: deadline_by(moment, time, time / FINE_PARTS),
                window,
                moment,
            };
        }
        Policy {
            cutoff,
            deadline: deadline_by(moment, time, time / PARTS),
            window,
            moment,
        }
    }

    /// As `Client::make_room`.
    pub fn make_room(&mut self, index: &Index) -> bool
        requires member { IsMember index.now self.old }
        ensures member { IsMember index.now self.new }
        ensures makes { MakesRoomFor result (board_of index.now) self.old self.new }
    {
        let policy = self.policy();
        let (is_made, effort) = make_room_by(index, &mut self.pass, &mut self.segments, policy);
        self.stats.count_effort(effort);
        is_made
    }
}
