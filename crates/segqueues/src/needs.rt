//! What the item of each row needs to move on, and marks of keys that were put lately.
use std::alloc::{AllocError, Global};

// What an item needs, in halves of a frequency. Each move adds one,
// so what was read long ago runs out.
const NEED_OF_NEW: u8 = 5;

// A key that was put lately was asked for again.
const NEED_OF_RECENT: u8 = 3;

// An update keeps its standing: it moves on four times before it has to be read.
const NEED_OF_UPDATE: u8 = 0;

// In place of the need of a row behind which the item of the row goes on. The need of an item is
// that of its last row.
const GOES_ON: u8 = u8::MAX;

// Whether an item that needs so much was stored in place of another, and seldom moved since.
pub(crate) fn is_of_update(need: u8) -> bool {
    need < NEED_OF_RECENT
}

// The byte that has the bit of a row with this number, and this bit.
fn bit_of(at: usize) -> (usize, u8) {
    (at >> 3, 1u8 << (at & 7) as u32)
}

// The needs of the rows of a pass's segments, and as many marks of keys.
#[derive(Drop)]
pub(crate) struct Needs {
    rows: u32,
    needs: Vec<u8>,
    // A bit for each row, and eight rows in a byte: whether its need is an update's. A write asks
    // this of the row that it replaces, wherever that row lies, so the answers lie close together.
    updates: Vec<u8>,
    marks: Vec<u16>,
}

impl Needs {
    pub(crate) fn new(alloc: Global, segments: u32, rows: u32) -> Result<Needs, AllocError> {
        let all = segments.saturating_mul(rows) as usize;
        let bytes = segments.saturating_mul(rows.div_ceil(8)) as usize;
        Ok(Needs {
            rows,
            needs: vec![in alloc; NEED_OF_NEW; all]?,
            updates: vec![in alloc; 0u8; bytes]?,
            marks: vec![in alloc; 0u16; all]?,
        })
    }

    // The number of a row among all rows of the pass.
    fn row_at(&self, segment: u32, row: u32) -> usize {
        (segment as usize)
            .wrapping_mul(self.rows as usize)
            .wrapping_add(row as usize)
    }

    // What the item of the row needs.
    pub(crate) fn of(&self, segment: u32, row: u32) -> u8 {
        match self.needs.get(self.row_at(segment, row)) {
            Some(need) => *need,
            None => 0,
        }
    }

    // Whether the item of the row was stored in place of another, and seldom moved since.
    pub(crate) fn is_update(&self, segment: u32, row: u32) -> bool {
        let (byte, bit) = bit_of(self.row_at(segment, row));
        match self.updates.get(byte) {
            Some(updates) => *updates & bit != 0,
            None => false,
        }
    }

    // The last row of the item that has this one first.
    pub(crate) fn last_of(&self, segment: u32, first: u32) -> u32 {
        for row in first..self.rows {
            if self.of(segment, row) != GOES_ON {
                return row;
            }
        }
        first
    }

    fn set_row(&mut self, segment: u32, row: u32, need: u8) {
        let at = self.row_at(segment, row);
        if let Some(place) = self.needs.get_mut(at) {
            *place = need;
        }
        let (byte, bit) = bit_of(at);
        if let Some(updates) = self.updates.get_mut(byte) {
            *updates = if is_of_update(need) {
                *updates | bit
            } else {
                *updates & !bit
            };
        }
    }

    // From now on the item that has this row last needs so much.
    pub(crate) fn set(&mut self, segment: u32, last: u32, need: u8) {
        self.set_row(segment, last, need.min(GOES_ON - 1));
    }

    // The item of the first row goes on up to the last one.
    pub(crate) fn go_on(&mut self, segment: u32, first: u32, last: u32) {
        for row in first..last {
            self.set_row(segment, row, GOES_ON);
        }
    }

    // What an item needs whose key, of this hash, is put now. A key that is new is marked.
    pub(crate) fn of_put(&mut self, hash: u64, is_update: bool) -> u8 {
        if is_update {
            NEED_OF_UPDATE
        } else if self.mark(hash) {
            NEED_OF_RECENT
        } else {
            NEED_OF_NEW
        }
    }

    // Marks a key by its hash, and returns whether it was marked lately.
    fn mark(&mut self, hash: u64) -> bool {
        let mixed = hash.wrapping_mul(0x9e37_79b9_7f4a_7c15);
        let mark = (mixed >> 48) as u16 | 1;
        let share = mixed >> 16 & 0xffff_ffff;
        let at = (share.wrapping_mul(self.marks.len() as u64) >> 32) as usize;
        let Some(place) = self.marks.get_mut(at) else {
            return false;
        };
        let was_marked = *place == mark;
        *place = mark;
        was_marked
    }
}
