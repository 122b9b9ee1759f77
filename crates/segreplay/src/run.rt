//! A replay: the commands of a trace, made by the clients of one cache or several.
ghost use Rattle.std.specs.Prelude.{◌≡◌, ◌++◌, [], ℕ, List, false, IfErr, IfOk, OnOk};
ghost use Rattle.segreplay.specs.declared.player.Assignment.{Assignment};
ghost use Rattle.segreplay.specs.declared.player.Player.{Player};
ghost use Rattle.segreplay.specs.Caches.{IsReplayFault};
ghost use Rattle.segreplay.specs.Playing.{CountsItems, Plays};
ghost use Rattle.segreplay.specs.Replays.{AddsLives, AllCount, AllPlay, is_memory_end};
ghost use Rattle.segreplay.specs.Replays.{is_read_end, IsReplay, MakesSome, planned};
ghost use Rattle.segreplay.specs.Traces.{EndsTrace, HandsOn, HasRead};

use crate::cache::{Made, caches_of, make_all, players_of};
use crate::fault::{ReplayFault, TraceFault};
use crate::lives::Lives;
use crate::player::{Assignment, Player, value_of};
use crate::reading::{Rules, TracePosition};
use crate::totals::{CacheTotals, totals_of};
use segscript::Source;
use segtraces::{Form, Retention};
use segword::Shape;
use std::alloc::{AllocError, Global};
use std::thread::{Threads, for_each_mut};

/// How many bytes are read at a time, at most.
const PIECE: usize = 4096;

/// How many commands are collected before they are made.
const BATCH: usize = 16_384;

/// What is replayed how.
#[derive(Clone, Copy, Debug)]
pub struct ReplayPlan<'p> {
    pub form: Form,
    /// How many bytes a value has whose line doesn't say it, at most `VALUE_BYTES`.
    pub value_bytes: usize,
    /// How many commands are left out of the counts.
    pub warm: u64,
    /// The largest cache.
    pub shape: Shape,
    /// How many sizes there are. Each is half of the one before.
    pub sizes: u32,
    pub policies: &'p [Retention],
}

/// Looks on while a trace is replayed.
pub trait Follow {
    /// So many commands were made.
    fn made(&self, commands: u64);
}

/// What was counted for each cache, and why the trace ended before its end, if it did.
#[derive(Drop)]
pub struct Replayed {
    pub totals: Vec<CacheTotals>,
    pub end: Result<(), TraceFault>,
}

// Who makes the commands: players on at most so many threads. `follow` looks on.
#[derive(Drop)]
struct Crew<'c, R, F> {
    rt: &'c R,
    threads: u32,
    follow: &'c F,
}

// Each player makes its turns.
fn play_all<R: Threads + Sync, F: Follow>(
    crew: &Crew<'_, R, F>,
    players: &mut [Player<'_>],
    turns: &[Assignment],
)
    ensures { AllPlay turns.now players.old players.new }
{
    for_each_mut(
        crew.rt,
        players,
        crew.threads.max(1) as usize,
        &|_number, player: &mut Player<'_>|
            ensures { Plays turns.entry.now player.old player.new }
        { player.play(turns) },
    );
}

// Each player counts its items.
fn count_all<R: Threads + Sync, F: Follow>(crew: &Crew<'_, R, F>, players: &mut [Player<'_>])
    ensures { AllCount players.old players.new }
{
    for_each_mut(
        crew.rt,
        players,
        crew.threads.max(1) as usize,
        &|_number, player: &mut Player<'_>|
            ensures { CountsItems player.old player.new }
        { player.count_items() },
    );
}

// Makes the commands that were read, and adds their times to live.
fn make_turns<R: Threads + Sync, F: Follow>(
    crew: &Crew<'_, R, F>,
    players: &mut [Player<'_>],
    lives: &mut Lives,
    reading: &mut TracePosition,
)
    ensures plays { AllPlay reading.old.turns.items players.old players.new }
    ensures lives { AddsLives reading.old.turns.items lives.old lives.new }
    ensures cleared { HandsOn reading.old.turns.items reading.old reading.new }
{
    lives.add_all(reading.turns.as_slice());
    play_all(crew, players, reading.turns.as_slice());
    reading.clear();
    crew.follow.made(reading.commands);
}

// Makes the commands that were read, once they are many.
fn make_many<R: Threads + Sync, F: Follow>(
    crew: &Crew<'_, R, F>,
    players: &mut [Player<'_>],
    lives: &mut Lives,
    reading: &mut TracePosition,
)
    ensures { MakesSome reading.old reading.new players.old players.new lives.old lives.new }
{
    if reading.turns.len() >= BATCH {
        make_turns(crew, players, lives, reading);
    }
}

// Reads the trace to its end. Its commands are made, but for those that the reading still has.
fn read_all<R: Threads + Sync, S: Source, F: Follow>(
    crew: &Crew<'_, R, F>,
    source: &mut S,
    players: &mut [Player<'_>],
    lives: &mut Lives,
    reading: &mut TracePosition,
) -> Result<(), TraceFault>
    requires works { S.has_failed source.old ≡ false }
    requires begun { HasRead reading.old.rules [] [] reading.old }
    ensures outcome { (seen : List ℕ) × (made : List Assignment)
        × S.hands source.old seen source.new
        × AllPlay made players.old players.new
        × EndsTrace reading.old.rules (S.is_at_end source.new) seen
        (made ++ reading.new.turns.items) result
        × AddsLives made lives.old lives.new }
    ensures whole { OnOk result (S.is_at_end source.new) }
    ensures read { S.has_failed source.new ≡ is_read_end result }
{
    let mut piece = [0u8; PIECE];
    for _read in 0..u64::MAX {
        let Ok(n) = source.read(&mut piece) else {
            return Err(TraceFault::Read);
        };
        if n == 0 {
            return reading.end_line();
        }
        if let Err(fault) = reading.feed_all(&piece[..n]) {
            return Err(fault);
        }
        make_many(crew, players, lives, reading);
    }
    Err(TraceFault::TooLong)
}

// Reads the trace to its end, makes its commands, and counts the items that stand then.
fn run<R: Threads + Sync, S: Source, F: Follow>(
    crew: &Crew<'_, R, F>,
    source: &mut S,
    players: &mut [Player<'_>],
    lives: &mut Lives,
    mut reading: TracePosition,
) -> Result<(), TraceFault>
    requires works { S.has_failed source.old ≡ false }
    requires begun { HasRead reading.rules [] [] reading }
    ensures outcome { (seen : List ℕ) × (turns : List Assignment) × (made : List Player)
        × S.hands source.old seen source.new
        × AllPlay turns players.old made
        × AllCount made players.new
        × EndsTrace reading.rules (S.is_at_end source.new) seen turns result
        × AddsLives turns lives.old lives.new }
    ensures whole { OnOk result (S.is_at_end source.new) }
    ensures read { S.has_failed source.new ≡ is_read_end result }
{
    let end = read_all(crew, source, players, lives, &mut reading);
    make_turns(crew, players, lives, &mut reading);
    count_all(crew, players);
    end
}

/// Replays the trace that the reader hands out.
/// Each cache of the plan has a client for each pass of its shape.
/// If the replay's end is Ok, the reader had nothing more to hand out.
/// A trace that ends for want of memory has no totals: the replay is out of memory then.
///
/// The contract doesn't cover threads. Tests do.
pub fn replay<R: Threads + Sync, S: Source, F: Follow>(
    rt: &R,
    alloc: Global,
    source: &mut S,
    plan: &ReplayPlan<'_>,
    follow: &F,
) -> Result<Replayed, ReplayFault>
    requires works { S.has_failed source.old ≡ false }
    ensures outcome { IfOk result (λ replayed. (seen : List ℕ)
        × S.hands source.old seen source.new
        × IsReplay plan.now (S.is_at_end source.new) seen replayed) }
    ensures whole { IfOk result (λ replayed. OnOk replayed.end (S.is_at_end source.new)) }
    ensures read { IfOk result (λ replayed.
        S.has_failed source.new ≡ is_read_end replayed.end) }
    ensures memory { IfOk result (λ replayed. is_memory_end replayed.end ≡ false) }
    ensures fault { IfErr result (IsReplayFault (planned plan.now) (source.new ≡ source.old)) }
{
    let Ok(caches) = caches_of(alloc, plan.policies, plan.shape, plan.sizes) else {
        return Err(ReplayFault::OutOfMemory);
    };
    let Made { indexes, dealt } = match make_all(alloc, caches.as_slice()) {
        Ok(made) => made,
        Err(fault) => return Err(fault),
    };
    let value = value_of(plan.value_bytes);
    let Ok(mut players) = players_of(alloc, indexes.as_slice(), dealt, &value) else {
        return Err(ReplayFault::OutOfMemory);
    };
    let rules = Rules {
        form: plan.form,
        clients: plan.shape.passes,
        warm: plan.warm,
    };
    let reading = TracePosition::new(alloc, rules);
    let crew = Crew {
        rt,
        threads: plan.shape.passes,
        follow,
    };
    let mut lives = Lives::new();
    let end = run(&crew, source, players.as_mut_slice(), &mut lives, reading);
    if let Err(TraceFault::OutOfMemory) = end {
        return Err(ReplayFault::OutOfMemory);
    }
    match totals_of(alloc, caches.as_slice(), players.as_slice(), lives.count()) {
        Ok(totals) => Ok(Replayed { totals, end }),
        Err(AllocError) => Err(ReplayFault::OutOfMemory),
    }
}
