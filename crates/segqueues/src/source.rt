//! Which segment is cleared next, and what moves on from it. Dead rows come first:
//! a segment in which most rows are dead is cleared before any item is given up that can be read.
//! Once few rows are dead, what is put must be read on probation to move on, and main segments
//! alone are cleared for their dead rows, while that takes few moves.
use crate::lists::Queue;
use crate::live::{ALL, Kinds, Observation, PARTS};
use crate::queues::{Queues, SegmentRow};

// One segment of so many is on probation. From there on the oldest of these is cleared.
const PROBATION_SHARE: u32 = 12;

// In tenths: up to so many live rows a segment is cleared for its dead ones.
const MOST_LIVE: u64 = 7;

// In tenths: while fewer rows were found alive lately, a segment may be cleared for dead rows
// of which the pass knows little.
const MOST_FOUND: u64 = 8;

// While less than one row of so many is dead, the segments are full.
const FULL: u64 = 6;

// Full segments are cleared for their dead rows while more than one row of so many is dead:
// with fewer, that takes too many moves for each row that it gains.
const FEW_DEAD: u64 = 9;

// A choice is made among so many segments at most.
const LOOKS: u32 = 128;

// So many choices at most are made one after another, until one finds dead rows.
const CHOICES: u32 = 8;

// The source that is being cleared, as far as queues know.
#[derive(Clone, Copy)]
pub(crate) struct Clearing {
    // Whether all moves on that can be read, however seldom it was.
    pub(crate) moves_all: bool,
    // Whether it expires and no other segment has its deadline. Then none is opened for it.
    pub(crate) is_alone: bool,
    // What was known of it at first, and found so far in how many rows.
    known: Observation,
    looked: u32,
    alive: Kinds,
}

impl Clearing {
    pub(crate) fn none() -> Clearing {
        let none = Observation {
            known: Kinds::none(),
            used: 0,
            alive: Kinds::none(),
            age: 0,
        };
        Clearing {
            moves_all: false,
            is_alone: false,
            known: none,
            looked: 0,
            alive: Kinds::none(),
        }
    }
}

// A segment that could be cleared, and how many rows of it are alive, in parts of a row:
// in all, and how many of those that weren't stored in place of another.
#[derive(Clone, Copy)]
struct Choice {
    segment: u32,
    live: u64,
    others: u64,
}

// What was seen of the segments: which has the fewest live rows, which has of the main ones,
// and which has of those of which little is known; how many rows they have, and how many of these
// are dead.
#[derive(Clone, Copy)]
struct Seen {
    least: Option<Choice>,
    main: Option<Choice>,
    unknown: Option<Choice>,
    rows: u64,
    dead: u64,
}

impl Seen {
    fn none() -> Seen {
        Seen {
            least: None,
            main: None,
            unknown: None,
            rows: 0,
            dead: 0,
        }
    }

    // Whether few rows are dead, and some live in each segment.
    fn is_full(self) -> bool {
        let is_empty = matches!(self.least, Some(least) if least.live < PARTS / 2);
        !is_empty && self.dead.saturating_mul(FULL) < self.rows
    }
}

// The one with fewer live rows.
fn fewer(before: Option<Choice>, next: Choice) -> Option<Choice> {
    match before {
        Some(choice) if choice.live <= next.live => before,
        _ => Some(next),
    }
}

// The one with fewer live rows that weren't stored in place of another.
fn fewer_others(before: Option<Choice>, next: Choice) -> Option<Choice> {
    match before {
        Some(choice) if choice.others <= next.others => before,
        _ => Some(next),
    }
}

impl Queues {
    // So many rows, in parts.
    fn parts_of(rows: u32) -> u64 {
        PARTS.saturating_mul(u64::from(rows))
    }

    // Whether the segment takes what moves from others with its deadline.
    fn is_open_main(&self, at: u32) -> bool {
        self.open_main.at(self.live.deadline(at)) == Some(at)
    }

    // Whether the segment takes what moves, or what is put.
    fn is_open(&self, at: u32) -> bool {
        self.is_open_main(at) || self.open.at(self.live.deadline(at)) == Some(at)
    }

    // Whether the segment is in use, and isn't the current one.
    fn is_other(&self, at: u32, current: Option<u32>) -> bool {
        self.queue_of(at) != Queue::Free && current != Some(at)
    }

    // How many rows are left in the segment, in parts.
    fn room_in(&self, at: u32) -> u64 {
        Self::parts_of(self.rows_in(at).saturating_sub(self.live.used(at)))
    }

    // How many rows are left for what moves from the segment, in parts.
    fn room_for(&self, segment: u32, current: Option<u32>) -> u64 {
        match self.target(self.live.deadline(segment)) {
            Some(at) if at != segment && current != Some(at) => self.room_in(at),
            _ => 0,
        }
    }

    // How many rows of the segments with this deadline aren't alive, in parts. Of the main one
    // that is open only those count that are left.
    fn dead_in(&self, deadline: u32, current: Option<u32>, first: u32) -> u64 {
        let mut dead = 0u64;
        for look in 0..self.segments.min(LOOKS) {
            let at = first.saturating_add(look);
            if self.is_other(at, current) && self.live.deadline(at) == deadline {
                dead = dead.saturating_add(if self.is_open_main(at) {
                    self.room_in(at)
                } else {
                    Self::parts_of(self.rows_in(at)).saturating_sub(self.live.estimate(at))
                });
            }
        }
        dead
    }

    // What is seen with one segment more. The open main ones aren't chosen.
    fn seen_with(&self, seen: Seen, segment: u32) -> Seen {
        let all = Self::parts_of(self.rows_in(segment));
        let rows = seen.rows.saturating_add(all);
        if self.is_open_main(segment) {
            return Seen {
                rows,
                dead: seen.dead.saturating_add(self.room_in(segment)),
                ..seen
            };
        }
        let live = self.live.estimate(segment);
        let choice = Choice {
            segment,
            live,
            others: self.live.others(segment),
        };
        Seen {
            least: fewer(seen.least, choice),
            main: if self.queue_of(segment) == Queue::Main {
                fewer(seen.main, choice)
            } else {
                seen.main
            },
            unknown: if self.is_unknown(segment) {
                self.first_tried(seen.unknown, choice)
            } else {
                seen.unknown
            },
            rows,
            dead: seen.dead.saturating_add(all.saturating_sub(live)),
        }
    }

    // Which of two is tried first of which little is known: the one with fewer live rows. Until
    // one was tried, what was updated before is the likeliest to be updated by others.
    fn first_tried(&self, before: Option<Choice>, next: Choice) -> Option<Choice> {
        if self.live.are_updates_known() {
            fewer(before, next)
        } else {
            fewer_others(before, next)
        }
    }

    // Whether little is known of the segment: it is in use for long, and others write to it.
    fn is_unknown(&self, segment: u32) -> bool {
        let many = self.segments.saturating_mul(self.rows) / 4;
        self.live.age(segment) > many && self.live.is_unsure(segment)
    }

    // The first segment that is looked at in the next choice.
    fn next_look(&mut self) -> u32 {
        let first = self.first_look;
        if self.segments > LOOKS {
            let next = first.saturating_add(LOOKS);
            self.first_look = if next < self.segments { next } else { 0 };
        }
        first
    }

    // Whether a segment is gained if what lives of this one moves: none does, or it has room in
    // an open one, or else the dead rows of the segments with its deadline make up a whole one.
    fn gains(&self, choice: Choice, current: Option<u32>, first: u32) -> bool {
        let deadline = self.live.deadline(choice.segment);
        choice.live < PARTS / 2
            || self.room_for(choice.segment, current) >= choice.live
            || !self.is_open(choice.segment)
                && self.dead_in(deadline, current, first) >= Self::parts_of(self.rows)
    }

    // Whether what lives of the segment has room, in an open one or a free one.
    fn has_room(&self, choice: Choice, current: Option<u32>) -> bool {
        self.is_one_ready() || self.room_for(choice.segment, current) >= choice.live
    }

    // Whether so many dead rows were found lately that it is worth looking for more.
    fn finds_dead_rows(&self) -> bool {
        self.live.share().saturating_mul(10) < MOST_FOUND * ALL
    }

    // A segment of which little is known, to be cleared if that was worth it lately.
    fn to_try(&mut self, seen: Seen, current: Option<u32>) -> Option<u32> {
        let tried = seen.unknown?;
        if self.may_try && self.finds_dead_rows() && self.has_room(tried, current) {
            self.may_try = false;
            return Some(tried.segment);
        }
        None
    }

    // How many segments may be on probation.
    fn probation_share(&self) -> u32 {
        (self.segments / PROBATION_SHARE).max(1)
    }

    // Of full segments: the main one with the fewest live rows, while enough rows are dead.
    // Those on probation come first, which are cleared by frequencies.
    fn main_with_dead_rows(&self, seen: Seen) -> Option<Choice> {
        let has_few = seen.dead.saturating_mul(FEW_DEAD) <= seen.rows;
        if has_few || self.count(Queue::Probation) > self.probation_share() {
            return None;
        }
        seen.main
    }

    // The segment with the fewest live rows, if they are few enough.
    fn any_with_dead_rows(&self, seen: Seen) -> Option<Choice> {
        let least = seen.least?;
        let most = Self::parts_of(self.rows).saturating_mul(MOST_LIVE);
        if least.live.saturating_mul(10) <= most {
            Some(least)
        } else {
            None
        }
    }

    // A segment that is cleared for its dead rows, if that gains a segment,
    // and what moves has room.
    fn with_dead_rows(&mut self, seen: Seen, current: Option<u32>, first: u32) -> Option<u32> {
        let tried = self.to_try(seen, current);
        if tried.is_some() {
            return tried;
        }
        let choice = if seen.is_full() {
            self.main_with_dead_rows(seen)?
        } else {
            self.any_with_dead_rows(seen)?
        };
        if self.gains(choice, current, first) && self.has_room(choice, current) {
            return Some(choice.segment);
        }
        None
    }

    // What is seen of the segments from this one on, the current one left out.
    fn seen_from(&self, first: u32, current: Option<u32>) -> Seen {
        let mut seen = Seen::none();
        for look in 0..self.segments.min(LOOKS) {
            let at = first.saturating_add(look);
            if self.is_other(at, current) {
                seen = self.seen_with(seen, at);
            }
        }
        seen
    }

    // A segment that is cleared for its dead rows. Once a choice among each part of the segments
    // was made in vain, a single one is made until it finds some.
    fn next_with_dead_rows(&mut self, current: Option<u32>) -> Option<u32> {
        let parts = self.segments.div_ceil(LOOKS).min(CHOICES);
        for _ in 0..parts {
            let first = self.next_look();
            let seen = self.seen_from(first, current);
            let found = self.with_dead_rows(seen, current, first);
            if found.is_some() {
                self.in_vain = 0;
                return found;
            }
            self.in_vain = self.in_vain.saturating_add(1);
            if self.in_vain >= parts {
                return None;
            }
        }
        None
    }

    // The segment that is cleared next by frequencies, the current one left out: the oldest on
    // probation while there are more than their share, and else the oldest main one.
    // A lone main segment takes what moves.
    fn next_in_order(&self, current: Option<u32>) -> Option<u32> {
        let main = if self.count(Queue::Main) > 1 {
            self.oldest(Queue::Main, current)
        } else {
            None
        };
        if main.is_some() && self.count(Queue::Probation) <= self.probation_share() {
            return main;
        }
        let on_probation = self.oldest(Queue::Probation, current);
        if on_probation.is_some() {
            return on_probation;
        }
        main
    }

    // Whether the segment expires, and no other in use has its deadline.
    fn is_alone(&self, segment: u32) -> bool {
        let deadline = self.live.deadline(segment);
        if deadline == u32::MAX {
            return false;
        }
        for at in 0..self.segments {
            if self.is_other(at, Some(segment)) && self.live.deadline(at) == deadline {
                return false;
            }
        }
        true
    }

    // From now on the segment is the source.
    fn begin(&mut self, segment: u32, moves_all: bool) -> Option<u32> {
        self.was_closed(segment);
        self.clearing = Clearing {
            moves_all,
            is_alone: self.is_alone(segment),
            known: self.live.known_of(segment),
            looked: 0,
            alive: Kinds::none(),
        };
        Some(segment)
    }

    // When the segment is to be given up as one that has expired: at its deadline,
    // or if it was refused since then at this moment, at the next.
    fn expiry(&self, at: u32, moment: u32) -> u32 {
        let deadline = self.live.deadline(at);
        if at < self.tried_from {
            deadline
        } else {
            deadline.max(moment.saturating_add(1))
        }
    }

    // The last segment by number that has expired at this moment, the current one left out.
    // One that was refused at this moment isn't tried again, so that it hides no other.
    fn last_expired(&mut self, current: Option<u32>, moment: u32) -> Option<u32> {
        if !self.may_expire(moment) {
            return None;
        }
        if self.moment != moment {
            self.moment = moment;
            self.tried_from = u32::MAX;
        }
        let mut found = None;
        let mut next = u32::MAX;
        for at in 0..self.segments {
            if self.queue_of(at) != Queue::Free {
                let expiry = self.expiry(at, moment);
                next = next.min(expiry);
                if expiry <= moment && current != Some(at) {
                    found = Some(at);
                }
            }
        }
        self.next_expiry = next;
        found
    }

    /// A segment that has expired at this moment, the current one left out. It is the source from
    /// now on, also if the caller gives it up at once.
    pub fn next_expired(&mut self, current: Option<u32>, moment: u32) -> Option<u32> {
        let segment = self.last_expired(current, moment)?;
        let is_full = self.live.used(segment) >= self.rows_in(segment);
        self.live.is_given_up(segment, self.rows, is_full);
        self.begin(segment, false)
    }

    /// The segment that is cleared next, the current one left out: one that has expired at this
    /// moment, or else one with many dead rows, or else the next by frequencies.
    pub fn next_source(&mut self, current: Option<u32>, moment: u32) -> Option<u32> {
        let expired = self.next_expired(current, moment);
        if expired.is_some() {
            return expired;
        }
        if let Some(segment) = self.next_with_dead_rows(current) {
            return self.begin(segment, true);
        }
        self.may_try = true;
        let segment = self.next_in_order(current)?;
        self.live.is_given_up(segment, self.rows, false);
        self.begin(segment, false)
    }

    /// Whether all moves on from the source that can be read, however seldom it was.
    pub fn moves_all(&self) -> bool {
        self.clearing.moves_all
    }

    /// The next rows of the source are done, up to this one. Their item was alive, or wasn't.
    pub fn was_done(&mut self, at: SegmentRow, is_alive: bool) {
        let looked = at.row.wrapping_add(1);
        let rows = looked.saturating_sub(self.clearing.looked);
        self.clearing.looked = looked;
        if is_alive {
            let is_update = self.needs.is_update(at.segment, at.row);
            self.clearing.alive.add(rows, is_update);
        }
    }

    // What is learned once the source was gone over from its first row to its last.
    pub(crate) fn learn(&mut self) {
        let known = self.clearing.known;
        if self.clearing.looked < known.used {
            return;
        }
        let found = Observation {
            alive: self.clearing.alive,
            ..known
        };
        self.live.learn(found);
        if u64::from(found.alive.sum()).saturating_mul(10)
            <= u64::from(self.rows).saturating_mul(MOST_LIVE)
        {
            self.may_try = true;
        }
    }
}
