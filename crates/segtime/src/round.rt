//! Rounds: all threads make commands at once, and a line prints what they came to.
ghost use Rattle.std.specs.Prelude.{All};
ghost use Rattle.segindex.specs.Words.{board_of};
ghost use Rattle.segstore.specs.Words.{IsQuiet};

use crate::asked::Asked;
use crate::draws::Draws;
use crate::tally::Tally;
use crate::worker::{Task, Worker, key_of};
use segclient::clients;
use segindex::{Index, Pass};
use segword::Value;
use std::alloc::{AllocError, AllocGlobal, Global};
use std::io::{Input, Print};
use std::sync::atomic::{AtomicU64, Ordering};
use std::sync::{RwLock, Wait};
use std::thread::{Threads, sleep};
use std::time::{Clock, CpuClock, Duration, Instant};
use std::{io, thread};

/// An odd number, whose multiples differ in all their bytes.
const SPREAD: u128 = 0x9e37_79b9_7f4a_7c15_f39c_c060_5ced_c835;

/// How many values there are to draw from, of sixteen bytes each.
const VALUES: u32 = 64;

/// How often it is looked whether all threads are there. Then they begin without those that aren't.
const LOOKS: u32 = 1 << 16;

/// So long it sleeps between two looks. Without sleep the looks would count as processor time.
const MICROSECONDS: u64 = 50;

/// Prints the numbers of a shape.
pub fn tell_plan<R: Print>(rt: &R, asked: &Asked) -> io::Result<()> {
    let shape = asked.shape;
    println!(rt;
        "{} {} {} {}",
        shape.buckets, shape.overflow, shape.segments_each, shape.rows
    )
}

fn bytes_of(number: u32) -> [u8; 16] {
    u128::from(number).wrapping_mul(SPREAD).to_le_bytes()
}

// The values from which each write draws one.
fn values_to_draw(alloc: Global) -> Result<Vec<Value>, AllocError> {
    let mut values = Vec::new(alloc);
    for number in 1..=VALUES {
        if let Some(value) = Value::new(&bytes_of(number)) {
            values.push(value)?;
        }
    }
    Ok(values)
}

// A worker for each of the passes.
fn workers_of<'i>(
    alloc: Global,
    index: &'i Index,
    passes: Vec<Pass>,
    keeps: bool,
) -> Result<Vec<Worker<'i>>, AllocError>
    requires { All (IsQuiet (board_of index.now)) passes.items }
{
    let mut workers = Vec::new(alloc);
    let mut state = 0u32;
    for mut client in clients(alloc, index, passes)? {
        if !keeps {
            client.keep_nothing();
        }
        workers.push(Worker::new(alloc, client, state))?;
        state = state.wrapping_add(1);
    }
    Ok(workers)
}

// Stores each key once, by the workers in turn, and with the values in turn.
fn fill(workers: &mut Vec<Worker<'_>>, keys: u32, values: &Vec<Value>) {
    let count = workers.len().max(1);
    for number in 0..keys {
        let place = number as usize;
        let value = values.get(place % VALUES as usize);
        if let (Some(worker), Some(key), Some(value)) = (
            workers.get_mut(place % count),
            key_of(number),
            value,
        ) {
            worker.client.put(&key, value);
        }
    }
}

/// Makes the index, and then a round for each two lines of input. At the first all keys are drawn, and at the
/// second the commands are made, so that their processor time can be looked at from outside.
pub fn measure<R: Threads + Wait + Sync + AllocGlobal + Input + Print + Clock + CpuClock>(
    rt: &R,
    asked: &Asked,
) -> io::Result<()> {
    let alloc = rt.alloc();
    let Ok((index, passes)) = Index::new(alloc, asked.shape) else {
        return Err(io::Error::other("no such table, or out of memory"));
    };
    let values = values_to_draw(alloc)?;
    let draws = Draws::new(alloc, asked.keys, asked.is_zipf)?;
    let mut workers = workers_of(alloc, &index, passes, asked.keeps)?;
    fill(&mut workers, asked.keys, &values);
    let task = Task {
        mix: asked.mix,
        way: asked.way,
        sample: asked.sample.unwrap_or(0),
        values: &values,
    };
    for _ in 0..u64::MAX {
        if !wait_for_line(rt)? {
            break;
        }
        for worker in workers.iter_mut() {
            worker.draw_keys(&draws, asked.times)?;
        }
        println!(rt; "ready")?;
        if !wait_for_line(rt)? {
            break;
        }
        let (worked, wall) = work_at_once(rt, workers, task)?;
        workers = worked;
        round_of(alloc, &workers, wall)?.tell(rt, asked)?;
    }
    Ok(())
}

// Whether there was one more line of input.
fn wait_for_line<R: AllocGlobal + Input>(rt: &R) -> io::Result<bool> {
    let mut line = String::new(rt.alloc());
    Ok(rt.read_line(&mut line)? > 0)
}

// Each worker at work on a thread of its own, and the time from their common start to the end of the last.
// All threads are started from here, and wait at the gate until all are there.
fn work_at_once<'i, R: Threads + Wait + Sync + AllocGlobal + Clock + CpuClock>(
    rt: &R,
    workers: Vec<Worker<'i>>,
    task: Task<'_>,
) -> io::Result<(Vec<Worker<'i>>, Duration)> {
    let gate = RwLock::new(());
    let there = AtomicU64::new(0);
    let (gate, there) = (&gate, &there);
    thread::scope(
        thread::scope_env(),
        rt,
        move |scope| -> io::Result<(Vec<Worker>, Duration)> {
            let count = workers.len();
            let mut threads = Vec::with_capacity(rt.alloc(), count)?;
            let shut = gate.write(rt);
            for worker in workers {
                let work = move || -> io::Result<Worker> {
                    there.fetch_add(1, Ordering::SeqCst);
                    drop(gate.read(rt));
                    worker.work(rt, task)
                };
                threads.push(scope.spawn(work)?)?;
            }
            for _ in 0..LOOKS {
                if there.load(Ordering::SeqCst) >= count as u64 {
                    break;
                }
                sleep(rt, Duration::from_micros(MICROSECONDS));
            }
            let start = Instant::now(rt)?;
            drop(shut);
            let mut worked = Vec::with_capacity(rt.alloc(), count)?;
            for thread in threads {
                worked.push(thread.join(rt)?)?;
            }
            Ok((worked, start.elapsed(rt)?))
        },
    )
}

// What the workers' round came to.
fn round_of(alloc: Global, workers: &Vec<Worker<'_>>, wall: Duration) -> Result<Round, AllocError> {
    let mut round = Round {
        wall,
        spent: Duration::ZERO,
        tally: Tally::default(),
        samples: Vec::new(alloc),
    };
    for worker in workers.iter() {
        round.spent = round.spent.saturating_add(worker.spent);
        round.tally = round.tally.plus(worker.tally);
        round.samples.extend_from_slice(&worker.samples)?;
    }
    round.samples.sort_unstable();
    Ok(round)
}

// The outcome of a round.
#[derive(Drop)]
struct Round {
    wall: Duration,
    // The processor time of all threads.
    spent: Duration,
    tally: Tally,
    // The nanoseconds of each timed command, the shortest first.
    samples: Vec<u32>,
}

impl Round {
    // Writes its line.
    fn tell<R: Print>(&self, rt: &R, asked: &Asked) -> io::Result<()> {
        let commands = u64::from(asked.times).saturating_mul(u64::from(asked.threads));
        let tally = self.tally;
        print!(rt;
            "{{\"commands\": {commands}, \"hits\": {}, \"misses\": {}",
            tally.hits, tally.misses
        )?;
        print!(rt;
            ", \"busy\": {}, \"full\": {}, \"read\": {}",
            tally.busy, tally.full, tally.read
        )?;
        if asked.sample.is_some() {
            tell_each(rt, "wall", self.wall, u64::from(asked.times))?;
            tell_each(rt, "thread", self.spent, commands)?;
            for (name, part) in [("p50", 500), ("p99", 990), ("p99.9", 999)] {
                if let Some(time) = self.within(part) {
                    print!(rt; ", \"{name}_ns\": {time}")?;
                }
            }
        }
        println!(rt; "}}")
    }

    // The nanoseconds that so many of a thousand timed commands stayed within.
    fn within(&self, part: usize) -> Option<u32> {
        let place = self.samples.len().saturating_mul(part).div_ceil(1000);
        self.samples.get(place.saturating_sub(1)).copied()
    }
}

// Writes the nanoseconds of each of so many commands.
fn tell_each<R: Print>(rt: &R, name: &str, time: Duration, commands: u64) -> io::Result<()> {
    let picoseconds = time.as_nanos().saturating_mul(1000) / u128::from(commands.max(1));
    let (whole, part) = (picoseconds / 1000, picoseconds % 1000);
    print!(rt; ", \"{name}_ns\": {whole}.{part:03}")
}
