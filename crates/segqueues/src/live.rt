//! How many rows of each segment are alive, so that an item names them. A pass knows of the rows
//! that died by its own writes, and estimates how many died by those of others.
use std::alloc::{AllocError, Global};

// Live rows are counted in so many parts of a row.
pub(crate) const PARTS: u64 = 256;

// The share that is all rows.
pub(crate) const ALL: u64 = 1 << 16;

// The share of live rows that is taken for granted before any segment was gone over.
const FIRST_SHARE: u64 = ALL / 4 * 3;

// From so many halvings by others' writes on, in 2^-16, the estimate of a segment is unsure.
const UNSURE: u64 = ALL / 8;

// What is found counts for one part of so many, and what was found before for the rest.
const MEMORY: u64 = 8;

// The age of a row is summed in so many parts.
const AGE: u64 = 256;

// What was given up is kept in mind while the pass gives up so many times its rows.
const ROUNDS: u64 = 2;

// So many rows, or the most that are counted.
fn short(rows: u32) -> u16 {
    rows.min(u32::from(u16::MAX)) as u16
}

// How many rows of a segment, of two kinds: those that were stored in place of another, and the
// others. What was updated is likely to be updated once more, so they die at rates of their own.
#[derive(Clone, Copy)]
pub(crate) struct Kinds {
    pub(crate) updates: u16,
    pub(crate) others: u16,
}

impl Kinds {
    pub(crate) fn none() -> Kinds {
        Kinds {
            updates: 0,
            others: 0,
        }
    }

    // So many rows more of a kind.
    #[inline(always)]
    pub(crate) fn add(&mut self, rows: u32, is_update: bool) {
        if is_update {
            self.updates = self.updates.saturating_add(short(rows));
        } else {
            self.others = self.others.saturating_add(short(rows));
        }
    }

    // So many rows less of a kind.
    #[inline(always)]
    fn take(&mut self, rows: u32, is_update: bool) {
        if is_update {
            self.updates = self.updates.saturating_sub(short(rows));
        } else {
            self.others = self.others.saturating_sub(short(rows));
        }
    }

    pub(crate) fn sum(self) -> u32 {
        u32::from(self.updates) + u32::from(self.others)
    }
}

// What a pass knows of a segment of its own.
#[derive(Clone, Copy)]
struct Known {
    // How many of its rows were used since it was refilled.
    used: u32,
    // How many of these didn't die by writes of the pass.
    alive: Kinds,
    // How many rows the pass had stored into when the segment was refilled.
    since: u32,
    // The moment from which on nothing in it can be read.
    deadline: u32,
}

// What was observed of a segment that was gone over.
#[derive(Clone, Copy)]
pub(crate) struct Observation {
    // How many rows could be alive as far as the pass knew, of how many.
    pub(crate) known: Kinds,
    pub(crate) used: u32,
    // How many were.
    pub(crate) alive: Kinds,
    // How many rows the pass had stored into since the segment was refilled.
    pub(crate) age: u32,
}

// How fast rows of a kind die by others' writes.
#[derive(Clone, Copy)]
struct Rate {
    // How often the live ones halve while the pass stores into one row, in 2^-32.
    halvings: u64,
    // How often those halved that were gone over lately, and how many rows the pass had stored into
    // meanwhile: sums in which a segment counts by how many it had.
    halved: u64,
    ages: u64,
}

impl Rate {
    fn unknown() -> Rate {
        Rate {
            halvings: 0,
            halved: 0,
            ages: 0,
        }
    }

    fn is_known(self) -> bool {
        self.ages > 0
    }

    // How often rows of this age halved, in 2^-16.
    fn at(self, age: u32) -> u64 {
        self.halvings.saturating_mul(u64::from(age)) >> 16
    }

    // Whether many rows of this age may have died. Then an estimate may be far off.
    fn is_unsure(self, age: u32) -> bool {
        !self.is_known() || self.at(age) > UNSURE
    }

    // So many rows of a segment could be alive, and so many were. They are this share of it.
    fn learned(self, known: u16, alive: u16, age: u32, share: u64) -> Rate {
        if known == 0 || age == 0 {
            return self;
        }
        let before = log_of(u64::from(known).saturating_mul(2));
        let after = log_of(u64::from(alive).saturating_mul(2).max(1));
        let halved = summed(self.halved, before.saturating_sub(after), share);
        let ages = summed(self.ages, u64::from(age) * AGE, share);
        Rate {
            halvings: halved.saturating_mul(ALL * AGE) / ages.max(1),
            halved,
            ages,
        }
    }
}

// What a pass knows of its segments, and how fast rows die by others' writes.
#[derive(Drop)]
pub(crate) struct Live {
    segments: Vec<Known>,
    // How many rows the pass stored into. It begins again after the largest number.
    stored: u32,
    // How fast rows die by others' writes that were stored in place of another, and the others.
    updates: Rate,
    others: Rate,
    // The share of rows that were alive lately in segments that were gone over.
    share: u64,
    // The share of rows that were given up lately in full segments that had expired.
    expired: u64,
}

// The logarithm of a number to base 2, in 2^-16, of lines between the powers of 2.
fn log_of(number: u64) -> u64 {
    let power = 63_u32.saturating_sub(number.leading_zeros());
    let whole = u64::from(power) << 16;
    let mantissa = number.saturating_mul(ALL).unbounded_shr(power);
    whole.saturating_add(mantissa & 0xffff)
}

// What is left of a number that halves so often, in 2^-16.
fn halved(number: u64, halvings: u64) -> u64 {
    let whole = (halvings >> 16).min(63) as u32;
    let rest = 2 * ALL - (halvings & 0xffff);
    number.saturating_mul(rest).unbounded_shr(whole + 17)
}

impl Live {
    pub(crate) fn new(alloc: Global, segments: u32) -> Result<Live, AllocError> {
        let known = Known {
            used: 0,
            alive: Kinds::none(),
            since: 0,
            deadline: 0,
        };
        Ok(Live {
            segments: vec![in alloc; known; segments as usize]?,
            stored: 0,
            updates: Rate::unknown(),
            others: Rate::unknown(),
            share: FIRST_SHARE,
            expired: 0,
        })
    }

    // The segment was refilled up to this deadline, and has this many rows in use.
    pub(crate) fn was_refilled(&mut self, at: u32, deadline: u32, used: u32) {
        let since = self.stored;
        if let Some(place) = self.segments.get_mut(at as usize) {
            *place = Known {
                used,
                alive: Kinds {
                    updates: 0,
                    others: short(used),
                },
                since,
                deadline,
            };
        }
    }

    // So many rows more of the segment were used. The pass stored an item into them, or moved one
    // there.
    #[inline(always)]
    pub(crate) fn were_used(&mut self, at: u32, rows: u32, is_stored: bool, is_update: bool) {
        if let Some(place) = self.segments.get_mut(at as usize) {
            place.used = place.used.wrapping_add(rows);
            place.alive.add(rows, is_update);
        }
        if is_stored {
            self.stored = self.stored.wrapping_add(rows);
        }
    }

    // So many rows of the segment died by a write of the pass.
    #[inline(always)]
    pub(crate) fn have_died(&mut self, at: u32, rows: u32, is_update: bool) {
        if let Some(place) = self.segments.get_mut(at as usize) {
            place.alive.take(rows, is_update);
        }
    }

    fn known(&self, at: u32) -> Known {
        match self.segments.get(at as usize) {
            Some(place) => *place,
            None => Known {
                used: 0,
                alive: Kinds::none(),
                since: 0,
                deadline: 0,
            },
        }
    }

    pub(crate) fn used(&self, at: u32) -> u32 {
        self.known(at).used
    }

    pub(crate) fn deadline(&self, at: u32) -> u32 {
        self.known(at).deadline
    }

    // How many rows the pass stored into since the segment was refilled.
    pub(crate) fn age(&self, at: u32) -> u32 {
        self.stored.wrapping_sub(self.known(at).since)
    }

    // What would be found in the segment if nobody else had written.
    pub(crate) fn known_of(&self, at: u32) -> Observation {
        let known = self.known(at);
        Observation {
            known: known.alive,
            used: known.used,
            alive: known.alive,
            age: self.age(at),
        }
    }

    // How many rows of the segment are alive that weren't stored in place of another, in parts.
    pub(crate) fn others(&self, at: u32) -> u64 {
        let known = self.known(at);
        let parts = PARTS.saturating_mul(u64::from(known.alive.others));
        halved(parts, self.others.at(self.age(at)))
    }

    // How many rows of the segment are alive, in parts of a row: those that the pass doesn't know
    // to be dead, less what others' writes did meanwhile.
    pub(crate) fn estimate(&self, at: u32) -> u64 {
        let known = self.known(at);
        let parts = PARTS.saturating_mul(u64::from(known.alive.updates));
        halved(parts, self.updates.at(self.age(at))).saturating_add(self.others(at))
    }

    // Whether it is known how fast those die that were stored in place of another.
    pub(crate) fn are_updates_known(&self) -> bool {
        self.updates.is_known()
    }

    // Whether others' writes may have done much in the segment. Then its estimate may be far off.
    pub(crate) fn is_unsure(&self, at: u32) -> bool {
        let known = self.known(at).alive;
        let age = self.age(at);
        known.updates > 0 && self.updates.is_unsure(age)
            || known.others > 0 && self.others.is_unsure(age)
    }

    // The share of rows that were found alive lately.
    pub(crate) fn share(&self) -> u64 {
        self.share
    }

    // The share of rows that were given up lately in full segments that had expired.
    pub(crate) fn expired(&self) -> u64 {
        self.expired
    }

    // Notes that a segment of so many rows is given up: a full one that has expired, or another.
    pub(crate) fn is_given_up(&mut self, at: u32, rows: u32, has_expired: bool) {
        let used = self.known(at).used;
        let all = u64::from(rows).saturating_mul(self.segments.len() as u64);
        let part = (u64::from(used) * ALL)
            .checked_div(all.saturating_mul(ROUNDS))
            .unwrap_or(0)
            .min(ALL);
        let fades = self.expired.saturating_mul(part) >> 16;
        let more = if has_expired { part } else { 0 };
        self.expired = self.expired.saturating_sub(fades).saturating_add(more);
    }

    // A segment was gone over.
    pub(crate) fn learn(&mut self, found: Observation) {
        let used = u64::from(found.used.max(1));
        let share = u64::from(found.alive.sum())
            .saturating_mul(ALL)
            .checked_div(used)
            .unwrap_or(0);
        self.share = mixed(self.share, share);
        let (known, alive) = (found.known, found.alive);
        let updates = u64::from(known.updates) * ALL / used;
        let others = u64::from(known.others) * ALL / used;
        self.updates = self
            .updates
            .learned(known.updates, alive.updates, found.age, updates);
        self.others = self
            .others
            .learned(known.others, alive.others, found.age, others);
    }
}

// What is kept in mind of a number that was found, after what was found before.
fn mixed(before: u64, found: u64) -> u64 {
    before.saturating_mul(MEMORY - 1).saturating_add(found) / MEMORY
}

// A sum of numbers that were found, of which the last ones count most, with one more that counts
// for a share.
fn summed(before: u64, found: u64, share: u64) -> u64 {
    let fades = (before / MEMORY).saturating_mul(share) >> 16;
    let more = found.saturating_mul(share) >> 16;
    before.saturating_sub(fades).saturating_add(more)
}
