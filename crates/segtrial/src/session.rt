//! What a caller draws and notes, whether it makes its calls by a pass itself or by a client.
use crate::draws::Draws;
use crate::keys::{BUCKETS, Place, number_of, value_of};
use segmodel::{Answer, Command, GetAnswer, GetsAnswer, Request};
use segword::Key;
use std::alloc::Global;
use std::fmt;
use std::fmt::{Display, Formatter, Write};
use std::sync::atomic::{AtomicU64, Ordering};
use std::thread::yield_now;

/// How often a thread looks for the others. Then it goes on without them: one may not have begun.
const LOOKS: u32 = 1 << 20;

/// What all callers of a round use.
#[derive(Clone, Copy)]
pub struct Desk<'a> {
    pub keys: &'a [Key],
    /// The counter from which the stamps are drawn.
    pub clock: &'a AtomicU64,
    /// How many threads are there.
    pub there: &'a AtomicU64,
    pub passes: u32,
    pub turns: u32,
    /// Whether the callers take turns on one thread.
    pub is_in_turn: bool,
    /// How many segments each pass has, and how many rows each segment.
    pub segments: u32,
    pub rows: u32,
    pub seed: u64,
}

/// The lines of a caller, one for each of its calls.
#[derive(Drop)]
pub struct Notes {
    pub text: String,
    number: u32,
    /// Whether there was no memory to note a call.
    pub is_short: bool,
}

/// The draws and the notes of a caller.
#[derive(Drop)]
pub struct Session<'a> {
    pub desk: Desk<'a>,
    pub draws: Draws,
    pub notes: Notes,
    /// The version that the caller's last gets of each bucket found.
    versions: [u32; BUCKETS as usize],
}

/// A command on a key. What it stores comes into a segment with this number and deadline.
#[derive(Drop)]
pub struct Asked {
    pub place: Place,
    pub value: u32,
    pub segment: u32,
    pub deadline: u32,
    pub command: Command,
}

impl Notes {
    /// Notes what a client is like.
    pub fn add_client(&mut self, time_to_live: u32, has_queues: bool) {
        let keeping = if has_queues { "queues" } else { "other" };
        let line = writeln!(self.text, "client {} {time_to_live} {keeping}", self.number);
        self.is_short = self.is_short || line.is_err();
    }

    /// Notes a call with its answer, and the stamps before and after it.
    pub fn add<C: Display + Drop>(&mut self, stamps: (u64, u64), call: C) {
        let (called, returned) = stamps;
        let line = writeln!(self.text, "{} {called} {returned} {call}", self.number);
        self.is_short = self.is_short || line.is_err();
    }
}

impl<'a> Session<'a> {
    /// The session of a caller that has made no call.
    pub fn new(alloc: Global, desk: Desk<'a>, number: u32) -> Session<'a> {
        Session {
            desk,
            draws: Draws::new(desk.seed, number),
            notes: Notes {
                text: String::new(alloc),
                number,
                is_short: false,
            },
            versions: [0; BUCKETS as usize],
        }
    }

    /// The next stamp: one is drawn before a call, and one after its return.
    pub fn stamp(&self) -> u64 {
        self.desk.clock.fetch_add(1, Ordering::SeqCst)
    }

    /// Notes a call that has just returned, and its answer. Its first stamp was drawn before.
    pub fn note<C: Display + Drop>(&mut self, called: u64, call: C) {
        let returned = self.stamp();
        self.notes.add((called, returned), call);
    }

    /// Counts the calling thread as there, and waits until all are.
    pub fn meet(&self) {
        self.desk.there.fetch_add(1, Ordering::SeqCst);
        for _ in 0..LOOKS {
            if self.desk.there.load(Ordering::SeqCst) >= u64::from(self.desk.passes) {
                break;
            }
            yield_now();
        }
    }

    pub fn key(&self, place: Place) -> Option<&'a Key> {
        let keys = self.desk.keys;
        keys.get(place.number())
    }

    /// Draws the next command.
    pub fn ask(&mut self, segment: u32, deadline: u32) -> Option<Asked> {
        let place = self.draws.place();
        let number = self.draws.value();
        let (Some(key), Some(value)) = (self.key(place), value_of(number)) else {
            return None;
        };
        let version = self.versions.get(place.bucket).copied().unwrap_or(0);
        let command = self.draws.command(key.copy(), value, version);
        Some(Asked {
            place,
            value: number,
            segment,
            deadline,
            command,
        })
    }

    /// Notes the answer to a command that has just returned, and what the call recycled.
    pub fn note_answer<C: Display + Drop>(
        &mut self,
        called: u64,
        asked: &Asked,
        answer: &Answer,
        recycled: C,
    ) {
        self.note(called, format_args!("{asked} {}{recycled}", Told(answer)));
        if let Answer::Gets(GetsAnswer::Found(_, version)) = answer {
            if let Some(last) = self.versions.get_mut(asked.place.bucket) {
                *last = *version;
            }
        }
    }
}

impl Display for Asked {
    fn fmt<W: Write>(&self, f: &mut Formatter<W>) -> fmt::Result {
        let place = self.place;
        match &self.command {
            Command::Get(_, now) => write!(f, "get {place} {now}"),
            Command::Gets(_, now) => write!(f, "gets {place} {now}"),
            Command::Write(request) => {
                write!(f, "{} {place} {}", verb_of(request), request.moment())?;
                if !matches!(request, Request::Delete(_, _)) {
                    write!(f, " {} {} {}", self.value, self.segment, self.deadline)?;
                }
                match request {
                    Request::Cas(_, _, expected, _) => write!(f, " {expected}"),
                    _ => Ok(()),
                }
            }
            Command::Keep(from, cutoff) => write!(f, "keep {from} {} {cutoff}", self.segment),
            Command::Evict(segment) => write!(f, "evict {segment}"),
            Command::Refill(segment, deadline) => write!(f, "refill {segment} {deadline}"),
        }
    }
}

fn verb_of(request: &Request) -> &'static str {
    match request {
        Request::Set(_, _, _) => "set",
        Request::Add(_, _, _) => "add",
        Request::Replace(_, _, _) => "replace",
        Request::Cas(_, _, _, _) => "cas",
        Request::Delete(_, _) => "delete",
    }
}

// An answer, with the numbers of values.
#[derive(Clone, Copy)]
struct Told<'a>(&'a Answer);

impl Display for Told<'_> {
    fn fmt<W: Write>(&self, f: &mut Formatter<W>) -> fmt::Result {
        match self.0 {
            Answer::Get(answer) => write!(f, "{}", Found(answer)),
            Answer::Gets(GetsAnswer::Found(value, version)) => write!(
                f,
                "Found {} {version}",
                number_of(value)
            ),
            Answer::Gets(answer) => write!(f, "{answer:?}"),
            Answer::Write(answer) => write!(f, "{answer:?}"),
            Answer::Delete(answer) => write!(f, "{answer:?}"),
            Answer::Keep(answer) => write!(f, "{answer:?}"),
            Answer::Evict(answer) => write!(f, "{answer:?}"),
            Answer::Refill(answer) => write!(f, "{answer:?}"),
        }
    }
}

/// The answer to a get, with the number of the value.
#[derive(Clone, Copy)]
pub struct Found<'a>(pub &'a GetAnswer);

impl Display for Found<'_> {
    fn fmt<W: Write>(&self, f: &mut Formatter<W>) -> fmt::Result {
        match self.0 {
            GetAnswer::Found(value) => write!(f, "Found {}", number_of(value)),
            GetAnswer::Miss => write!(f, "Miss"),
            GetAnswer::Busy => write!(f, "Busy"),
        }
    }
}
