//! What a client keeps by two queues: what is put goes to segments on probation,
//! and what was read there moves on to main ones. It decides which segment is cleared next,
//! and which items of it move. Others make the calls.
//! Segments are named by their numbers among the pass's own, from 0 on.
ghost use Rattle.std.specs.Prelude.{◌≤◌};

use crate::lists::{Lists, Queue};
use crate::live::{ALL, Live};
use crate::needs::{Needs, is_of_update};
use crate::open::Open;
use crate::source::Clearing;
use std::alloc::{AllocError, Global};

// So many free segments are held ready, so that a put finds one.
const RESERVE: u32 = 2;

// From so many segments on, those that are many are enough for several times to live.
const MANY_SEGMENTS: u32 = 64;

// Of fewer segments so many free ones aren't plenty.
const PLENTY: u32 = 31;

/// How many segments were free and on probation when a round over all of them began.
#[derive(Clone, Copy)]
pub struct Round {
    free: u32,
    probation: u32,
}

impl Round {
    /// The queue of the segment that has its turn after so many others: first come the free ones,
    /// then those on probation, and then the main ones.
    pub fn queue_at(self, tried: u32) -> Queue {
        if tried < self.free {
            Queue::Free
        } else if tried < self.free.saturating_add(self.probation) {
            Queue::Probation
        } else {
            Queue::Main
        }
    }
}

/// A row of a segment.
#[derive(Clone, Copy, Debug)]
pub struct SegmentRow {
    pub segment: u32,
    pub row: u32,
}

/// The segments of a pass in three queues (free, on probation, main), what each item needs to move on,
/// and marks of keys that were put lately.
#[derive(Drop)]
pub struct Queues {
    pub(crate) segments: u32,
    pub(crate) rows: u32,
    lists: Lists,
    pub(crate) needs: Needs,
    pub(crate) live: Live,
    // Those that have a row left: for puts, and for what moves.
    pub(crate) open: Open,
    pub(crate) open_main: Open,
    // No segment in use expires earlier, as far as is known.
    pub(crate) next_expiry: u32,
    // The moment of the last look for one that has expired. Of those that had by then, the ones
    // from this number on were given up or refused.
    pub(crate) moment: u32,
    pub(crate) tried_from: u32,
    // The source, while one is being cleared.
    pub(crate) clearing: Clearing,
    // Whether a segment may be tried of which nothing is known.
    pub(crate) may_try: bool,
    // Where the next look over the segments begins.
    pub(crate) first_look: u32,
    // How many looks found no dead rows since one did.
    pub(crate) in_vain: u32,
    // How many rows the longest item took so far.
    longest: u32,
    // Whether items of the segment that is cleared now were left behind
    // since no main segment was open.
    leaves_some: bool,
    // Whether it was so with the one before. Then the next one's items need more.
    is_strict: bool,
}

impl Queues {
    /// The queues of a pass with so many segments of so many rows. All of them are free.
    pub fn new(alloc: Global, segments: u32, rows: u32) -> Result<Queues, AllocError> {
        Ok(Queues {
            segments,
            rows,
            lists: Lists::new(alloc, segments)?,
            needs: Needs::new(alloc, segments, rows)?,
            live: Live::new(alloc, segments)?,
            open: Open::new(alloc, segments)?,
            open_main: Open::new(alloc, segments)?,
            next_expiry: u32::MAX,
            moment: 0,
            tried_from: u32::MAX,
            clearing: Clearing::none(),
            may_try: true,
            first_look: 0,
            in_vain: 0,
            longest: 1,
            leaves_some: false,
            is_strict: false,
        })
    }

    /// How many segments are in the queue.
    pub fn count(&self, queue: Queue) -> u32 {
        self.lists.count(queue)
    }

    /// The segment that came into the queue before the others, this one left out.
    pub fn oldest(&self, queue: Queue, but: Option<u32>) -> Option<u32> {
        self.lists.oldest(queue, but)
    }

    /// A round over all segments, this one left out.
    pub fn round(&self, but: Option<u32>) -> Round {
        let mut round = Round {
            free: self.count(Queue::Free),
            probation: self.count(Queue::Probation),
        };
        if let Some(segment) = but {
            match self.lists.queue_of(segment) {
                Queue::Free => round.free = round.free.saturating_sub(1),
                Queue::Probation => round.probation = round.probation.saturating_sub(1),
                Queue::Main => {}
            }
        }
        round
    }

    /// The queue of a segment.
    pub fn queue_of(&self, segment: u32) -> Queue {
        self.lists.queue_of(segment)
    }

    /// The segment was refilled up to a deadline, for puts or as a main one.
    /// So many rows of it were used since.
    pub fn was_refilled(&mut self, segment: u32, is_main: bool, deadline: u32, used: u32) {
        self.was_closed(segment);
        let queue = if is_main {
            Queue::Main
        } else {
            Queue::Probation
        };
        self.lists.move_to(segment, queue);
        self.live.was_refilled(segment, deadline, used);
        self.next_expiry = self.next_expiry.min(deadline);
        if used < self.rows {
            self.open_of(is_main).add(deadline, segment);
        }
    }

    /// The segment is free, and comes last among those that are.
    pub fn was_evicted(&mut self, segment: u32) {
        self.was_closed(segment);
        self.lists.move_to(segment, Queue::Free);
    }

    /// The segment was refused, and comes last in its queue. If it has expired, it is passed over
    /// among those that have, until the next moment.
    pub fn was_refused(&mut self, segment: u32) {
        self.was_closed(segment);
        if self.live.deadline(segment) <= self.moment {
            self.tried_from = self.tried_from.min(segment);
        }
        self.lists.move_to(segment, self.lists.queue_of(segment));
    }

    // The open segments for puts, or the main ones.
    fn open_of(&mut self, is_main: bool) -> &mut Open {
        if is_main {
            &mut self.open_main
        } else {
            &mut self.open
        }
    }

    /// Nothing is stored into the segment or moved there any more, until it is refilled.
    pub fn was_closed(&mut self, segment: u32) {
        let deadline = self.live.deadline(segment);
        self.open.remove(deadline, segment);
        self.open_main.remove(deadline, segment);
    }

    // An item with this need has the next rows of the segment, up to this one. If no row is left
    // then, the segment is open no more.
    #[inline(always)]
    fn was_used(&mut self, at: SegmentRow, need: u8, is_stored: bool) {
        self.needs.set(at.segment, at.row, need);
        let is_update = is_of_update(need);
        if self.live.used(at.segment) == at.row {
            self.live.were_used(at.segment, 1, is_stored, is_update);
        } else {
            self.were_used(at, is_stored, is_update);
        }
        if at.row.wrapping_add(1) >= self.rows {
            self.was_closed(at.segment);
        }
    }

    // An item has the next rows of the segment, up to this one: more than one.
    #[inline(never)]
    fn were_used(&mut self, at: SegmentRow, is_stored: bool, is_update: bool) {
        let first = self.live.used(at.segment);
        self.needs.go_on(at.segment, first, at.row);
        let rows = at.row.saturating_add(1).saturating_sub(first);
        self.longest = self.longest.max(rows);
        self.live.were_used(at.segment, rows, is_stored, is_update);
    }

    /// An item of the source moved, which goes up to a row there, into the next rows of another
    /// segment, up to a row there. It needs more to move on again, unless all moves on.
    pub fn was_moved(&mut self, from: SegmentRow, into: SegmentRow) {
        let need = self.needs.of(from.segment, from.row);
        let more = u8::from(!self.clearing.moves_all);
        self.was_used(into, need.saturating_add(more), false);
        self.was_done(from, true);
    }

    /// A key of this hash was stored into the next rows of a segment, up to this one.
    pub fn was_stored(&mut self, at: SegmentRow, hash: u64, is_update: bool) {
        let need = self.needs.of_put(hash, is_update);
        self.was_used(at, need, true);
    }

    /// The item that has this row first was replaced or deleted by the pass.
    pub fn has_died(&mut self, at: SegmentRow) {
        if self.longest == 1 {
            let is_update = self.needs.is_update(at.segment, at.row);
            self.live.have_died(at.segment, 1, is_update);
        } else {
            self.have_died(at);
        }
    }

    // All rows died of the item that has this one first.
    #[inline(never)]
    fn have_died(&mut self, at: SegmentRow) {
        let last = self.needs.last_of(at.segment, at.row);
        let rows = last.saturating_sub(at.row).saturating_add(1);
        let is_update = self.needs.is_update(at.segment, last);
        self.live.have_died(at.segment, rows, is_update);
    }

    // How many rows of the segment can have items: all of them, or those that are used, if the
    // longest item doesn't fit into the others.
    pub(crate) fn rows_in(&self, segment: u32) -> u32 {
        if self.longest == 1 {
            return self.rows;
        }
        let used = self.live.used(segment);
        if self.rows.saturating_sub(used) < self.longest {
            used
        } else {
            self.rows
        }
    }

    // How many free segments are held ready. Of segments of one row it is one more,
    // since each put takes a segment there.
    fn reserve(&self) -> u32 {
        if self.rows > 1 { RESERVE } else { RESERVE + 1 }
    }

    /// Whether fewer segments are free than are held ready. One of which somebody holds an item
    /// doesn't count.
    pub fn are_few_free(&self) -> bool {
        self.lists.ready() < self.reserve()
    }

    /// Whether a segment is free that nobody is known to hold an item of.
    pub(crate) fn is_one_ready(&self) -> bool {
        self.lists.ready() > 0
    }

    /// How many turns a write has, of so many at most: half of them while a free segment
    /// is left for the next writes, so that each does as little as will do.
    pub fn turns(&self, most: u32) -> u32 {
        if self.lists.ready() > 0 {
            most.div_ceil(2)
        } else {
            most
        }
    }

    /// The open segment for puts with the latest deadline from the earliest one up to the latest.
    pub fn open_within(&self, earliest: u32, latest: u32) -> Option<u32> {
        self.open.within(earliest, latest)
    }

    /// The open segment that takes what moves from those with this deadline: the main one.
    /// If there is none and they expire, it is the one that puts with this deadline went to.
    pub fn target(&self, deadline: u32) -> Option<u32> {
        let main = self.open_main.at(deadline);
        if main.is_some() || deadline == u32::MAX {
            return main;
        }
        self.open.at(deadline)
    }

    /// Whether more than one segment of eight is free.
    pub fn are_many_free(&self) -> bool {
        self.lists.ready() > self.segments / 8
    }

    /// Whether many segments are free, and enough of them for several times to live.
    pub fn are_plenty_free(&self) -> bool {
        self.are_many_free() && (self.segments >= MANY_SEGMENTS || self.lists.ready() > PLENTY)
    }

    /// Whether of the rows that are given up two of five are in full segments that have expired.
    pub fn do_full_ones_expire(&self) -> bool {
        self.live.expired() > ALL / 5 * 2
    }

    /// Whether a segment in use may have expired at this moment.
    pub fn may_expire(&self, moment: u32) -> bool {
        self.next_expiry <= moment
    }

    /// Whether a free segment can become a main one: another is left for puts then,
    /// or will be before they need it. That is so if half of the rows of theirs are left;
    /// or where all moves on, if so many turns do that are left until then.
    pub fn can_open(&self, rows_left: u32, turns_left: u32, rows_to_go: u32) -> bool {
        if self.clearing.is_alone {
            return false;
        }
        let free = self.lists.ready();
        let is_in_time = if self.moves_all() {
            turns_left > rows_to_go
        } else {
            rows_left >= self.rows.div_ceil(2)
        };
        free > 1 || free == 1 && is_in_time
    }

    /// The least frequency with which the item moves on that goes up to a row: half of its need,
    /// one more if items of the last source were left behind, and at least this.
    /// Where all moves on, it is this.
    pub fn cutoff_of(&self, segment: u32, row: u32, least: u8) -> u8
        ensures enough { least ≤ result }
    {
        if self.moves_all() {
            return least;
        }
        (self.needs.of(segment, row) / 2)
            .saturating_add(u8::from(self.is_strict))
            .max(least)
    }

    /// An item was evicted that could have moved if a main segment had been open.
    pub fn was_left_behind(&mut self) {
        self.leaves_some = true;
    }

    /// The clearing of a segment has ended.
    pub fn was_cleared(&mut self) {
        self.learn();
        self.is_strict = self.leaves_some;
        self.leaves_some = false;
    }
}
