//! How a load is run: a thread for each pass.
ghost use Rattle.std.specs.Prelude.{◌≡◌, ◌≤◌, List, None, IfOk, IfErr, IfSome, vec_len};
ghost use Rattle.std.specs.Int.NonZero.{non_zero_u32_get};
ghost use Rattle.std.specs.Thread.{IsSync};
ghost use Rattle.segmodel.specs.declared.entry.Entry.{Entry};
ghost use Rattle.segmodel.specs.Words.{after};
ghost use Rattle.segbase.specs.Words.{number};
ghost use Rattle.segindex.specs.Words.{AreAllQuiet, board_of, IsEndOfAll, IsNew, shape_of};
ghost use Rattle.segload.specs.Working.{BeginsLoad, BeginsPlan, HasMadePlan, HasWorked};
ghost use Rattle.segload.specs.Working.{AreQuiet, EndsAll, IsFirstStopped, NoneStopped};
ghost use Rattle.segload.specs.Lists.{AllAt};
ghost use Rattle.segload.specs.Loads.{keys_of, IsLoad, IsLetThrough, IsToldOfAll, IsLoadFault};

use crate::fault::LoadFault;
use crate::gate::Gate;
use crate::plan::LoadPlan;
use crate::totals::{PassTotals, Totals};
use crate::worker::Worker;
use segindex::{Index, Pass};
use segpolicy::Workload;
use segword::Shape;
use std::alloc::{AllocError, AllocGlobal, Global};
use std::sync::Wait;
use std::thread;
use std::thread::{Promise, Threads};

// What a thread promises: it returns the worker of the pass of this number.
// That pass has made its commands of the plan over the index, or was stopped.
#[derive(Drop)]
struct Worked<'i, G> {
    index: &'i Index,
    gate: &'i G,
    plan: LoadPlan,
    pass: u32,
}

impl<'i, G: Gate> Promise<Worker> for Worked<'i, G> {
    ghost use Rattle.segindex.specs.Words.{board_of};
    ghost use Rattle.segload.specs.Working.{HasMadePlan};

    ghost kept_by = { λ promise worker. HasMadePlan (board_of promise.index.now)
        (G.may_answer promise.gate.now) (G.told promise.gate.now)
        promise.plan promise.pass worker };
}

// Lets each worker work on a thread of its own. If a thread can't be started, the others still run.
fn work_at_once<R: Threads + Wait + AllocGlobal + Sync, G: Gate>(
    rt: &R,
    index: &Index,
    gate: &G,
    plan: LoadPlan,
    workers: Vec<Worker>,
) -> Result<Vec<Worker>, AllocError>
    requires ready { AllAt (BeginsPlan (board_of index.now) plan) workers.items }
    ensures long { IfOk result (λ worked. vec_len worked ≡ vec_len workers) }
    ensures each { IfOk result (λ worked.
        AllAt (HasMadePlan (board_of index.now) (G.may_answer gate.now) (G.told gate.now) plan)
        worked.items) }
{
    thread::scope(
        thread::scope_env(),
        rt,
        move |scope| -> Result<Vec<Worker>, AllocError>
            requires { IsSync G.row × AllAt (BeginsPlan (board_of index.now) plan) workers.items }
            ensures { IfOk result (λ worked. (vec_len worked ≡ vec_len workers) × AllAt
                (HasMadePlan (board_of index.entry.now) (G.may_answer gate.entry.now)
                (G.told gate.entry.now) plan)
                worked.items) }
        {
            let count = workers.len();
            let mut threads = Vec::with_capacity(rt.alloc(), count)?;
            for worker in workers {
                let worked = Worked {
                    index,
                    gate,
                    plan,
                    pass: worker.number(),
                };
                let work = move || -> Worker
                    requires { IsSync G.row × BeginsLoad (board_of index.now)
                        worker.workload (number worker.client.pass) worker }
                    ensures { HasWorked (board_of index.entry.now) (G.may_answer gate.entry.now)
                        (G.told gate.entry.now) worker.workload worker.client.pass
                        (number worker.client.pass) plan.commands result }
                { worker.work(index, gate, plan.commands) };
                if let Ok(thread) = scope.spawn_with(worked, work) {
                    threads.push_reserved(thread);
                }
            }
            if threads.len() < count {
                return Err(AllocError);
            }
            Ok(thread::join_promised(rt, threads)?)
        },
    )
}

// A worker for each of the passes, in the same order.
fn begin_all(
    alloc: Global,
    index: &Index,
    plan: LoadPlan,
    passes: Vec<Pass>,
) -> Result<Vec<Worker>, AllocError>
    requires new { IsNew (shape_of index.now) index.now passes.items }
    ensures long { IfOk result (λ workers. vec_len workers ≡ (shape_of index.now).passes) }
    ensures each { IfOk result (λ workers.
        AllAt (BeginsPlan (board_of index.now) plan) workers.items) }
{
    let mut workers = Vec::with_capacity(alloc, passes.len())?;
    for pass in passes {
        workers.push_reserved(Worker::new(index, plan, pass));
    }
    Ok(workers)
}

// The number of the first pass that the gate stopped.
fn first_stopped(workers: &Vec<Worker>) -> Option<u32>
    ensures some { IfSome result (IsFirstStopped workers.now.items) }
    ensures none { result ≡ None → NoneStopped workers.now.items }
{
    for worker in workers.iter() {
        if worker.is_stopped {
            return Some(worker.number());
        }
    }
    None
}

// The totals of passes, and these passes, in the order of their numbers.
#[derive(Drop)]
struct AllEnded {
    totals: Vec<PassTotals>,
    passes: Vec<Pass>,
}

// Ends each of the workers, one after the other.
fn end_all(
    alloc: Global,
    index: &Index,
    commands: u32,
    workers: Vec<Worker>,
) -> Result<AllEnded, AllocError>
    requires quiet { AreQuiet (board_of index.now) workers.items }
    ensures { IfOk result (λ all. EndsAll (board_of index.now) commands workers.items
        all.totals.items all.passes.items) }
{
    let mut totals = Vec::with_capacity(alloc, workers.len())?;
    let mut passes = Vec::with_capacity(alloc, workers.len())?;
    for worker in workers {
        let ended = worker.end(index, commands);
        totals.push_reserved(ended.totals);
        passes.push_reserved(ended.pass);
    }
    Ok(AllEnded { totals, passes })
}

// Ends the index, and returns how many keys stand then.
fn count_keys(alloc: Global, index: Index, passes: Vec<Pass>) -> Option<u32>
    requires { AreAllQuiet (board_of index) passes.items }
    ensures { IfSome result (λ keys. (history : List Entry)
        × IsEndOfAll (shape_of index) passes.items history
        × (keys ≡ keys_of (after (shape_of index) history))) }
{
    let content = index.close_all(alloc, passes).ok()?;
    Some(content.len() as u32)
}

// Runs a load on a new index: each pass makes the commands of the plan.
fn run_plan<R: Threads + Wait + AllocGlobal + Sync, G: Gate>(
    rt: &R,
    alloc: Global,
    shape: Shape,
    plan: LoadPlan,
    gate: &G,
) -> Result<Totals, LoadFault>
    ensures load { IfOk result
        (IsLoad shape plan.seed (non_zero_u32_get plan.keys) plan.commands) }
    ensures let_through { IfOk result
        (λ _. IsLetThrough shape plan.commands (G.may_answer gate.now)) }
    ensures told { IfOk result (λ _. IsToldOfAll shape plan.commands (G.told gate.now)) }
    ensures fault { IfErr result (IsLoadFault shape plan.commands
        (G.may_answer gate.now) (G.told gate.now)) }
{
    let (index, passes) = match Index::new(alloc, shape) {
        Ok(made) => made,
        Err(fault) => return Err(LoadFault::Make(fault)),
    };
    let Ok(workers) = begin_all(alloc, &index, plan, passes) else {
        return Err(LoadFault::OutOfMemory);
    };
    let Ok(workers) = work_at_once(rt, &index, gate, plan, workers) else {
        return Err(LoadFault::OutOfMemory);
    };
    if let Some(pass) = first_stopped(&workers) {
        return Err(LoadFault::Stopped(pass));
    }
    let Ok(ended) = end_all(alloc, &index, plan.commands, workers) else {
        return Err(LoadFault::OutOfMemory);
    };
    let Some(standing) = count_keys(alloc, index, ended.passes) else {
        return Err(LoadFault::OutOfMemory);
    };
    Ok(Totals {
        passes: ended.totals,
        keys: standing,
    })
}

/// Runs a load on a new index: each pass makes so many commands, drawn with the seed over `keys` keys.
/// There is at least one key. The totals count how the commands were answered.
///
/// The call waits for its threads, one for each pass. Its contract holds if it returns.
/// The contract doesn't cover threads, or how often the gate is asked. Tests do.
pub fn run_crowd<R: Threads + Wait + AllocGlobal + Sync, G: Gate>(
    rt: &R,
    alloc: Global,
    shape: Shape,
    seed: u64,
    commands: u32,
    keys: u32,
    gate: &G,
) -> Result<Totals, LoadFault>
    requires some { 1 ≤ keys }
    ensures load { IfOk result (IsLoad shape seed keys commands) }
    ensures let_through { IfOk result (λ _. IsLetThrough shape commands (G.may_answer gate.now)) }
    ensures told { IfOk result (λ _. IsToldOfAll shape commands (G.told gate.now)) }
    ensures fault { IfErr result (IsLoadFault shape commands
        (G.may_answer gate.now) (G.told gate.now)) }
{
    run_plan(rt, alloc, shape, LoadPlan::new(seed, commands, keys), gate)
}

/// Runs a load over the 64 keys `k0` to `k63`, as `run_crowd` does.
///
/// The call waits for its threads, one for each pass. Its contract holds if it returns.
pub fn run_load<R: Threads + Wait + AllocGlobal + Sync, G: Gate>(
    rt: &R,
    alloc: Global,
    shape: Shape,
    seed: u64,
    commands: u32,
    gate: &G,
) -> Result<Totals, LoadFault>
    ensures load { IfOk result (IsLoad shape seed 64 commands) }
    ensures let_through { IfOk result (λ _. IsLetThrough shape commands (G.may_answer gate.now)) }
    ensures told { IfOk result (λ _. IsToldOfAll shape commands (G.told gate.now)) }
    ensures fault { IfErr result (IsLoadFault shape commands
        (G.may_answer gate.now) (G.told gate.now)) }
{
    run_crowd(rt, alloc, shape, seed, commands, Workload::KEYS, gate)
}
