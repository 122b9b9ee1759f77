//! Lets passes make calls at random, each on a thread of its own, and writes what each asked and was told.
//! The program `tools/checker`, which knows nothing of the index, looks for an order that explains it.
#![tactic(auto)]

ghost use Rattle.std.specs.Prelude.{All, IfSome};
ghost use Rattle.segindex.specs.Words.{board_of};
ghost use Rattle.segstore.specs.Words.{IsQuiet};

mod caller;
mod client;
mod draws;
mod keys;
mod pass;
mod session;

use caller::{work_of_clients, work_of_passes};
use draws::Draws;
use keys::{Place, colliding_keys, number_of};
use segindex::{Index, Pass};
use segword::{Key, Shape, Value};
use session::{Desk, Notes};
use std::alloc::AllocGlobal;
use std::io::Print;
use std::process::ExitCode;
use std::sync::atomic::AtomicU64;
use std::thread::Threads;
use std::{env, io};

const USAGE: &str = "Usage: segtrial passes|clients threads|in-turn ROUNDS TURNS PASSES SEED

In each round a new index is made, and each of its PASSES (1 to 8), or a client of each, makes calls at random in
TURNS turns: on a thread of its own, or in turn with the others. The keys are few, share four buckets, and have the
same tag. How many rows, segments and overflow buckets there are is drawn. Each call is stamped before and after it
by one counter. For example

  segtrial clients threads 25 10000 4 1 | tools/checker/target/release/checker

says whether a cache of one thread explains all that four clients were told in 25 rounds.";

const BAD_USAGE: u8 = 2;

/// What the program is to do.
#[derive(Clone, Copy)]
struct Options {
    has_clients: bool,
    is_in_turn: bool,
    rounds: u32,
    turns: u32,
    passes: u32,
    /// The number from which the first round is drawn.
    seed: u32,
}

fn main(rt: HostRuntime) -> io::Result<ExitCode> {
    let mut words = Vec::new(rt.alloc());
    for word in env::args(&rt)?.skip(1) {
        words.push(word)?;
    }
    let Some(options) = read_options(&words) else {
        eprintln!(rt; "{USAGE}")?;
        return Ok(ExitCode::from(BAD_USAGE));
    };
    for round in 0..options.rounds {
        let seed = u64::from(options.seed).wrapping_add(u64::from(round));
        run_round(&rt, options, seed)?;
    }
    Ok(ExitCode::SUCCESS)
}

// Reads the words behind the program's name.
fn read_options(words: &Vec<String>) -> Option<Options> {
    let passes = number_at(words, 4)?;
    let is_known = words.len() == 6 && 0 < passes && passes <= 8;
    is_known.then_some(Options {
        has_clients: is_second(words, 0, "passes", "clients")?,
        is_in_turn: is_second(words, 1, "threads", "in-turn")?,
        rounds: number_at(words, 2)?,
        turns: number_at(words, 3)?,
        passes,
        seed: number_at(words, 5)?,
    })
}

// Whether the word at a place is the second of two, or none if it is neither.
fn is_second(words: &Vec<String>, place: usize, first: &str, second: &str) -> Option<bool> {
    let word = words.get(place)?.as_str();
    (word == first || word == second).then_some(word == second)
}

fn number_at(words: &Vec<String>, place: usize) -> Option<u32> {
    words.get(place)?.parse().ok()
}

// Lets the passes of a new index make their calls. The index has one pass more, which makes no call and ends it.
fn run_round<R: Threads + Sync + AllocGlobal + Print>(
    rt: &R,
    options: Options,
    seed: u64,
) -> io::Result<()> {
    let alloc = rt.alloc();
    let keys = colliding_keys(alloc)?;
    let mut draws = Draws::new(seed, options.passes);
    let shape = draws.shape(options.passes.saturating_add(1), options.has_clients);
    tell_round(rt, options, seed, &shape)?;
    let Ok((index, mut passes)) = Index::new(alloc, shape) else {
        return Err(out_of_memory());
    };
    let Some(last) = pop(&index, &mut passes) else {
        return Err(out_of_memory());
    };
    let clock = AtomicU64::new(0);
    let there = AtomicU64::new(0);
    let desk = Desk {
        keys: &keys,
        clock: &clock,
        there: &there,
        passes: options.passes,
        turns: options.turns,
        is_in_turn: options.is_in_turn,
        segments: shape.segments_each,
        rows: shape.rows,
        seed,
    };
    let notes = if options.has_clients {
        work_of_clients(rt, alloc, &index, passes, desk)?
    } else {
        work_of_passes(rt, alloc, &index, passes, desk)?
    };
    tell_notes(rt, &notes)?;
    let Ok(content) = index.close(alloc, last) else {
        return Err(out_of_memory());
    };
    tell_content(rt, &keys, &content)
}

fn out_of_memory() -> io::Error {
    io::Error::other("out of memory")
}

// Takes the last pass out of the list.
fn pop(index: &Index, passes: &mut Vec<Pass>) -> Option<Pass>
    requires { All (IsQuiet (board_of index.now)) passes.old.items }
    ensures last { IfSome result (IsQuiet (board_of index.now)) }
    ensures others { All (IsQuiet (board_of index.now)) passes.new.items }
{
    passes.pop()
}

// Writes the head of a round.
fn tell_round<R: Print>(rt: &R, options: Options, seed: u64, shape: &Shape) -> io::Result<()> {
    let callers = if options.has_clients {
        "clients"
    } else {
        "passes"
    };
    let way = if options.is_in_turn {
        "in-turn"
    } else {
        "threads"
    };
    println!(rt;
        "round {callers} {way} seed {seed} calling {} buckets {} overflow {} rows {} version {}",
        options.passes, shape.buckets, shape.overflow, shape.rows, shape.first_version
    )
}

fn tell_notes<R: Print>(rt: &R, notes: &Vec<Notes>) -> io::Result<()> {
    for of_caller in notes.iter() {
        if of_caller.is_short {
            return Err(out_of_memory());
        }
        print!(rt; "{}", of_caller.text)?;
    }
    Ok(())
}

// Writes what the index lists at its end. A key that is none of these comes into no bucket.
fn tell_content<R: Print>(rt: &R, keys: &Vec<Key>, content: &Vec<(Key, Value)>) -> io::Result<()> {
    println!(rt; "listed")?;
    for (key, value) in content.iter() {
        let number = keys.iter().position(|other| other == key);
        let place = Place::of_number(number.unwrap_or(keys.len()));
        println!(rt; "left {place} {}", number_of(value))?;
    }
    println!(rt; "close")
}
