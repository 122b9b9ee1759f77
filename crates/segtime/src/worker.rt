//! What a thread does: commands of a mix on keys at random, by a client of its own.
use crate::draws::{Draws, Generator};
use crate::mix::{Kind, Mix, PIECE, Way};
use crate::tally::{Tally, set_answer};
use segclient::Client;
use segmodel::{GetAnswer, GetsAnswer, WriteAnswer};
use segword::{Key, Value};
use std::alloc::{AllocError, Global};
use std::io;
use std::time::{Clock, CpuClock, Duration, Instant};

/// What each thread is to do in a round.
#[derive(Clone, Copy)]
pub struct Task<'a> {
    pub mix: Mix,
    pub way: Way,
    /// Each command is timed whose number is a multiple of this. None is where this is 0.
    pub sample: u32,
    pub values: &'a Vec<Value>,
}

/// The key of a number: its four bytes, the lowest first.
#[inline(always)]
pub fn key_of(number: u32) -> Option<Key> {
    Key::new(&number.to_le_bytes())
}

// The value that a number at random, of 24 bits, chooses out of 64.
fn drawn(values: &Vec<Value>, draw: u32) -> Option<&Value> {
    values.get((draw >> 18) as usize)
}

/// A client at work, and what it goes by.
#[derive(Drop)]
pub struct Worker<'i> {
    pub client: Client<'i>,
    generator: Generator,
    /// The version that its last gets found.
    version: u32,
    /// The numbers of the keys of its next round.
    numbers: Vec<u32>,
    // The answers to gets that are made together.
    answers: Vec<GetAnswer>,
    alloc: Global,
    /// The outcome of its last round.
    pub tally: Tally,
    /// The processor time of its last round.
    pub spent: Duration,
    /// The nanoseconds that each timed command of its last round took.
    pub samples: Vec<u32>,
}

impl<'i> Worker<'i> {
    pub fn new(alloc: Global, client: Client<'i>, seed: u32) -> Worker<'i> {
        Worker {
            client,
            generator: Generator { state: seed },
            version: 0,
            numbers: Vec::new(alloc),
            answers: Vec::new(alloc),
            alloc,
            tally: Tally::default(),
            spent: Duration::ZERO,
            samples: Vec::new(alloc),
        }
    }

    /// Draws the keys of its next round, of so many commands.
    pub fn draw_keys(&mut self, draws: &Draws, commands: u32) -> Result<(), AllocError> {
        self.numbers.clear();
        for _ in 0..commands {
            self.numbers.push(draws.key(&mut self.generator))?;
        }
        Ok(())
    }

    /// Makes the commands of a round.
    pub fn work<R: Clock + CpuClock>(mut self, rt: &R, task: Task<'_>) -> io::Result<Worker<'i>> {
        self.tally = Tally::default();
        self.samples.clear();
        for _ in self.answers.len()..PIECE {
            self.answers.push(GetAnswer::Miss)?;
        }
        let before = rt.thread_cpu_time()?;
        match task.way {
            Way::Alone => self.work_one_by_one(rt, task)?,
            _ => self.work_in_pieces(task)?,
        }
        self.spent = rt.thread_cpu_time()?.saturating_sub(before);
        Ok(self)
    }

    // The key of one of the round's commands, made anew as a server makes it of what it received.
    #[inline(always)]
    fn key_at(&self, place: usize) -> Option<Key> {
        match self.numbers.get(place) {
            Some(number) => key_of(*number),
            None => None,
        }
    }

    fn work_one_by_one<R: Clock>(&mut self, rt: &R, task: Task<'_>) -> io::Result<()> {
        if task.sample > 0 {
            return self.work_and_time(rt, task);
        }
        for place in 0..self.numbers.len() {
            let Some(key) = self.key_at(place) else {
                break;
            };
            self.serve(&key, task);
        }
        Ok(())
    }

    // Makes the commands of a round, and times one of so many.
    #[inline(never)]
    fn work_and_time<R: Clock>(&mut self, rt: &R, task: Task<'_>) -> io::Result<()> {
        let mut next = 0;
        for place in 0..self.numbers.len() {
            let Some(key) = self.key_at(place) else {
                break;
            };
            if place != next {
                self.serve(&key, task);
                continue;
            }
            let start = Instant::now(rt)?;
            self.serve(&key, task);
            let nanoseconds = start.elapsed(rt)?.as_nanos();
            self.samples
                .push(u32::try_from(nanoseconds).unwrap_or(u32::MAX))?;
            next = next.saturating_add(task.sample as usize);
        }
        Ok(())
    }

    // Makes the commands of a round, so many at a time.
    fn work_in_pieces(&mut self, task: Task<'_>) -> Result<(), AllocError> {
        let mut at_hand = Vec::with_capacity(self.alloc, PIECE)?;
        for piece in 0..self.numbers.len() / PIECE {
            at_hand.clear();
            for place in piece * PIECE..(piece + 1) * PIECE {
                if let Some(key) = self.key_at(place) {
                    at_hand.push(key)?;
                }
            }
            match task.way {
                Way::Together => self.get_together(&at_hand),
                Way::Ahead => {
                    self.client.look_ahead(&at_hand);
                    self.serve_each(&at_hand, task);
                }
                Way::Apart | Way::Alone => self.serve_each(&at_hand, task),
            }
        }
        Ok(())
    }

    fn get_together(&mut self, keys: &Vec<Key>) {
        if keys.len() == self.answers.len() {
            self.client.get_many(keys, &mut self.answers);
        }
        for answer in self.answers.iter() {
            self.generator.next();
            self.tally.count_get(answer);
        }
    }

    fn serve_each(&mut self, keys: &Vec<Key>, task: Task<'_>) {
        for key in keys {
            self.serve(key, task);
        }
    }

    // Makes a drawn command, and counts its answer.
    #[inline(always)]
    fn serve(&mut self, key: &Key, task: Task<'_>) {
        let draw = self.generator.next();
        let Some(value) = drawn(task.values, draw) else {
            return;
        };
        match task.mix.kind(draw) {
            Kind::Get => self.tally.count_get(&self.client.get(key)),
            Kind::Gets => {
                let told = self.gets(key);
                self.tally.count_gets(&told);
            }
            Kind::Set => self.set(key, value),
            Kind::Delete => self.delete(key),
            Kind::Modify => self.modify(key, value),
            Kind::Fetch => self.fetch(key, value),
            kind => {
                let told = self.write(kind, key, value);
                self.tally.count_write(told);
            }
        }
    }

    // These stand apart, so that the loop saves no registers for them at a get.
    #[inline(never)]
    fn set(&mut self, key: &Key, value: &Value) {
        self.tally
            .count_write(set_answer(self.client.put(key, value)));
    }

    #[inline(never)]
    fn delete(&mut self, key: &Key) {
        self.tally.count_delete(self.client.delete(key));
    }

    // A gets, and if it found the key, a cas with the version that it found. They count as one.
    #[inline(never)]
    fn modify(&mut self, key: &Key, value: &Value) {
        let told = self.gets(key);
        if let GetsAnswer::Found(value_found, _) = &told {
            self.tally.read(value_found);
            let told = self.write(Kind::Cas, key, value);
            self.tally.count_write(told);
        } else {
            self.tally.count_gets(&told);
        }
    }

    // A get, and a put if it missed. They count as one: as a miss, unless the put was refused.
    #[inline(never)]
    fn fetch(&mut self, key: &Key, value: &Value) {
        let told = self.client.get(key);
        if let GetAnswer::Miss = &told {
            match set_answer(self.client.put(key, value)) {
                WriteAnswer::Stored => {}
                refused => return self.tally.count_write(refused),
            }
        }
        self.tally.count_get(&told);
    }

    // A gets, whose version is kept for the next cas.
    fn gets(&mut self, key: &Key) -> GetsAnswer {
        let told = self.client.gets(key);
        if let GetsAnswer::Found(_, version) = &told {
            self.version = *version;
        }
        told
    }

    // An add, a replace or a cas, which is made once more if it had no room.
    #[inline(never)]
    fn write(&mut self, kind: Kind, key: &Key, value: &Value) -> WriteAnswer {
        match self.write_once(kind, key, value) {
            WriteAnswer::NoRoom if self.client.make_room() => self.write_once(kind, key, value),
            told => told,
        }
    }

    fn write_once(&mut self, kind: Kind, key: &Key, value: &Value) -> WriteAnswer {
        match kind {
            Kind::Add => self.client.add(key, value),
            Kind::Replace => self.client.replace(key, value),
            _ => self.client.cas(key, value, self.version),
        }
    }
}
