//! A client, and the calls that it makes of numbers.
use crate::asked::{Asked, How, key_of};
use crate::counts::Counts;
use crate::into::{long_bytes, value_text};
use crate::many::{get_many, gets_many, look_ahead};
use crate::told::{of_delete, of_put, of_write};
use segclient::{Client, Condition, GetAnswer, GetsAnswer, Key, Stats, ValueBytes};
use std::alloc::{AllocError, Global};

/// A client, and the most that one of its puts did.
#[derive(Drop)]
pub struct Player<'i> {
    pub client: Client<'i>,
    // Rows that a put went over, segments that it refilled, and how many went over more than four rows.
    most_rows: u64,
    most_refills: u64,
    over_four: u64,
}

// The rows that calls went over so far: items that moved, and keys that were evicted.
fn rows_of(stats: &Stats) -> u64 {
    stats.items_kept.saturating_add(stats.keys_evicted)
}

impl<'i> Player<'i> {
    pub fn new(client: Client<'i>) -> Player<'i> {
        Player {
            client,
            most_rows: 0,
            most_refills: 0,
            over_four: 0,
        }
    }

    /// Makes a call, and returns what it answered.
    pub fn make(&mut self, alloc: Global, asked: &Asked<'_>) -> Result<String, AllocError> {
        match asked.name {
            "stats" => self.stats(alloc, asked.with),
            "found" => self.found(alloc, asked),
            "missing" => self.missing(alloc, asked),
            "get_many" => get_many(alloc, &mut self.client, asked),
            "gets_many" => gets_many(alloc, &mut self.client, asked),
            "look_ahead" => look_ahead(alloc, &mut self.client, asked),
            "value" | "gets" | "get_into" | "gets_into" => {
                value_text(alloc, &mut self.client, asked)
            }
            "put"
            | "get"
            | "ask"
            | "delete"
            | "set"
            | "add"
            | "replace"
            | "cas"
            | "store"
            | "update" => self.each(alloc, asked),
            _ => self.set_up(alloc, asked),
        }
    }

    // Settings, and calls without a key.
    fn set_up(&mut self, alloc: Global, asked: &Asked<'_>) -> Result<String, AllocError> {
        let number = asked.with.parse::<u32>();
        match (asked.name, number) {
            ("now", Ok(now)) => self.client.set_now(now),
            ("live", Ok(time)) => self.client.set_time_to_live(time),
            ("keep_from", Ok(cutoff)) => self.client.keep_from(u8::try_from(cutoff).ok()),
            ("keep_nothing", _) => self.client.keep_nothing(),
            ("make_room", _) => {
                let is_made = self.client.make_room();
                return format!(in alloc; "{}", if is_made { "ROOM" } else { "NO_ROOM" });
            }
            ("named", _) => {
                let named = self.client.index_stats().named_rows;
                return format!(in alloc; "{named}");
            }
            ("table", _) => {
                let told = self.client.index_stats();
                let rows = (told.used_rows, told.named_rows);
                return format!(in alloc; "{} {} {}", told.overflow_buckets, rows.0, rows.1);
            }
            ("until", _) => {
                return match self.client.stores_until() {
                    Some(until) => format!(in alloc; "{until}"),
                    None => format!(in alloc; "NONE"),
                };
            }
            _ => return format!(in alloc; "NO_SUCH_CALL"),
        }
        format!(in alloc; "OK")
    }

    // Counts by these names, in their order.
    fn stats(&self, alloc: Global, names: &str) -> Result<String, AllocError> {
        let stats = self.client.stats();
        let mut text = String::new(alloc);
        for name in names.split(' ') {
            if !text.is_empty() {
                text.push_str(" ")?;
            }
            let count = match name {
                "most_rows" => self.most_rows,
                "most_refills" => self.most_refills,
                "over_four" => self.over_four,
                _ => count_of(&stats, name),
            };
            write!(text, "{count}")?;
        }
        Ok(text)
    }

    // How many of the numbers can be read.
    fn found(&mut self, alloc: Global, asked: &Asked<'_>) -> Result<String, AllocError> {
        let mut found = 0u32;
        for number in asked.numbers(alloc)? {
            found = found.saturating_add(u32::from(self.is_there(number)));
        }
        format!(in alloc; "{found}")
    }

    // Which of the numbers can't be read.
    fn missing(&mut self, alloc: Global, asked: &Asked<'_>) -> Result<String, AllocError> {
        let mut text = String::new(alloc);
        for number in asked.numbers(alloc)? {
            if !self.is_there(number) {
                if !text.is_empty() {
                    text.push_str(" ")?;
                }
                write!(text, "{number}")?;
            }
        }
        if text.is_empty() {
            text.push_str("NONE")?;
        }
        Ok(text)
    }

    // Makes the call for each number, and reads each so often right after. Counts what was told.
    fn each(&mut self, alloc: Global, asked: &Asked<'_>) -> Result<String, AllocError> {
        let mut counts = Counts::new();
        let how = How::new(asked);
        for number in asked.numbers(alloc)? {
            if let Some(key) = key_of(number) {
                counts.add(self.one(asked.name, &how, number, &key));
            }
            for _ in 0..how.reads {
                self.is_there(number);
            }
        }
        counts.text(alloc)
    }

    fn is_there(&mut self, number: u32) -> bool {
        match key_of(number) {
            Some(key) => self.get(&key) == "FOUND",
            None => false,
        }
    }

    fn get(&mut self, key: &Key) -> &'static str {
        match self.client.get(key) {
            GetAnswer::Found(_) => "FOUND",
            GetAnswer::Miss => "MISS",
            GetAnswer::Busy => "BUSY",
        }
    }

    // One call. An ask is a get, and a put if that misses. An update is a get, and a store if that finds the key.
    fn one(&mut self, name: &str, how: &How<'_>, number: u32, key: &Key) -> &'static str {
        match name {
            "get" => self.get(key),
            "delete" => of_delete(self.client.delete(key)),
            "ask" => match self.get(key) {
                "MISS" => match self.write("put", how, number, key) {
                    "STORED" => "MISS",
                    told => told,
                },
                told => told,
            },
            "update" => match self.get(key) {
                "FOUND" => self.store(how, number, key),
                told => told,
            },
            "store" => self.store(how, number, key),
            _ => self.write(name, how, number, key),
        }
    }

    // Writes by the call that is named, once more if room could be made for it.
    fn store(&mut self, how: &How<'_>, number: u32, key: &Key) -> &'static str {
        let told = self.write(how.by, how, number, key);
        if told == "NO_ROOM" && self.client.make_room() {
            return self.write(how.by, how, number, key);
        }
        told
    }

    // Writes a value of so many bytes, or the number itself, its highest byte first.
    fn write(&mut self, name: &str, how: &How<'_>, number: u32, key: &Key) -> &'static str {
        match how.bytes {
            Some(length) => {
                let bytes = long_bytes(length);
                self.write_bytes(name, how, key, bytes.get(..length as usize))
            }
            None => {
                let value = how.value.unwrap_or(number);
                self.write_bytes(name, how, key, Some(&value.to_be_bytes()))
            }
        }
    }

    fn write_bytes(
        &mut self,
        name: &str,
        how: &How<'_>,
        key: &Key,
        bytes: Option<&[u8]>,
    ) -> &'static str {
        let Some(bytes) = bytes else {
            return "TOO_LONG";
        };
        let Some(value) = ValueBytes::new(bytes) else {
            return "TOO_LONG";
        };
        match name {
            "put" => self.put(how, key, &value),
            "set" => of_write(self.client.write(key, &value, Condition::Always)),
            "add" => of_write(self.client.write(key, &value, Condition::IfAbsent)),
            "replace" => of_write(self.client.write(key, &value, Condition::IfPresent)),
            "cas" => self.cas(how, key, &value),
            _ => "NO_SUCH_CALL",
        }
    }

    // With the version that is named, or the one that a gets finds.
    fn cas(&mut self, how: &How<'_>, key: &Key, value: &ValueBytes<'_>) -> &'static str {
        if let Some(version) = how.version {
            return of_write(self.client.write(key, value, Condition::IfVersion(version)));
        }
        match self.client.gets(key) {
            GetsAnswer::Found(_, version) => of_write(
                self.client.write(key, value, Condition::IfVersion(version)),
            ),
            GetsAnswer::Miss => "NOT_FOUND",
            GetsAnswer::Busy => "BUSY",
        }
    }

    // A put, for the time that is named, if there is one.
    fn put(&mut self, how: &How<'_>, key: &Key, value: &ValueBytes<'_>) -> &'static str {
        let before = self.client.stats();
        let told = match how.time {
            Some(time) => self.client.put_bytes_for(key, value, time),
            None => self.client.put_bytes(key, value),
        };
        self.note(&before);
        of_put(told)
    }

    // Notes what a put did since these counts.
    fn note(&mut self, before: &Stats) {
        let after = self.client.stats();
        let rows = rows_of(&after).saturating_sub(rows_of(before));
        let refills = after
            .segments_refilled
            .saturating_sub(before.segments_refilled);
        self.most_rows = self.most_rows.max(rows);
        self.most_refills = self.most_refills.max(refills);
        self.over_four = self.over_four.saturating_add(u64::from(rows > 4));
    }
}

// The count of this name.
fn count_of(stats: &Stats, name: &str) -> u64 {
    match name {
        "hits" => stats.hits,
        "misses" => stats.misses,
        "stored" => stats.stored,
        "no_room" => stats.no_room,
        "bucket_full" => stats.bucket_full,
        "deleted" => stats.deleted,
        "busy" => stats.busy,
        "segments_refilled" => stats.segments_refilled,
        "items_kept" => stats.items_kept,
        "keys_evicted" => stats.keys_evicted,
        "rows" => rows_of(stats),
        _ => u64::MAX,
    }
}
