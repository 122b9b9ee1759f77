//! What the commands of a thread came to.
use segclient::PutAnswer;
use segmodel::{DeleteAnswer, GetAnswer, GetsAnswer, WriteAnswer};
use segword::Value;

/// How many commands had which outcome.
#[derive(Clone, Copy, Default)]
pub struct Tally {
    /// Those that found their key or were done.
    pub hits: u64,
    /// Those that returned anything else.
    pub misses: u64,
    pub busy: u64,
    /// Those that found no room, or no word for a new key.
    pub full: u64,
    /// What was read of the values that were found, added up.
    pub read: u64,
}

impl Tally {
    /// Both together.
    pub fn plus(self, other: Tally) -> Tally {
        Tally {
            hits: self.hits.saturating_add(other.hits),
            misses: self.misses.saturating_add(other.misses),
            busy: self.busy.saturating_add(other.busy),
            full: self.full.saturating_add(other.full),
            read: self.read.wrapping_add(other.read),
        }
    }

    /// Reads a value that was found: its length and its first byte.
    #[inline(always)]
    pub fn read(&mut self, value: &Value) {
        let bytes = value.as_bytes();
        let first = bytes.first().copied().unwrap_or(0);
        self.read = self
            .read
            .wrapping_add(bytes.len() as u64)
            .wrapping_add(u64::from(first));
    }

    /// Counts the answer to a get, and reads the value that it found.
    #[inline(always)]
    pub fn count_get(&mut self, answer: &GetAnswer) {
        match answer {
            GetAnswer::Found(value) => {
                self.read(value);
                self.hits = self.hits.saturating_add(1);
            }
            GetAnswer::Miss => self.misses = self.misses.saturating_add(1),
            GetAnswer::Busy => self.busy = self.busy.saturating_add(1),
        }
    }

    /// Counts the answer to a gets, and reads the value that it found.
    #[inline(always)]
    pub fn count_gets(&mut self, answer: &GetsAnswer) {
        match answer {
            GetsAnswer::Found(value, _) => {
                self.read(value);
                self.hits = self.hits.saturating_add(1);
            }
            GetsAnswer::Miss => self.misses = self.misses.saturating_add(1),
            GetsAnswer::Busy => self.busy = self.busy.saturating_add(1),
        }
    }

    /// Counts the answer to a write.
    pub fn count_write(&mut self, answer: WriteAnswer) {
        let number = match answer {
            WriteAnswer::Stored => &mut self.hits,
            WriteAnswer::Busy => &mut self.busy,
            WriteAnswer::NoRoom | WriteAnswer::BucketFull => &mut self.full,
            WriteAnswer::NotStored | WriteAnswer::Exists | WriteAnswer::NotFound =>
                &mut self.misses,
        };
        *number = number.saturating_add(1);
    }

    /// Counts the answer to a delete.
    pub fn count_delete(&mut self, answer: DeleteAnswer) {
        let number = match answer {
            DeleteAnswer::Deleted => &mut self.hits,
            DeleteAnswer::Busy => &mut self.busy,
            DeleteAnswer::NotFound => &mut self.misses,
        };
        *number = number.saturating_add(1);
    }
}

/// A put's answer as that of a set.
pub fn set_answer(put: PutAnswer) -> WriteAnswer {
    match put {
        PutAnswer::Stored => WriteAnswer::Stored,
        PutAnswer::NoRoom => WriteAnswer::NoRoom,
        PutAnswer::BucketFull => WriteAnswer::BucketFull,
        PutAnswer::Busy => WriteAnswer::Busy,
    }
}
