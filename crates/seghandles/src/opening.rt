//! The calls that open a cache.
ghost use Rattle.std.specs.Prelude.{◌≡◌, ◌≤◌, IfErr, IfOk, length, map};
ghost use Rattle.seghandles.specs.Exports.{Answers};
ghost use Rattle.seghandles.specs.Opening.{are_empty, one_of, Opens};
ghost use Rattle.seghandles.specs.Opening.{OpensForBytes, OpensForWriters, OpensItems, OpensKeys};
ghost use Rattle.seghandles.specs.Opening.{IsPlanToOpen, IsPlanToOpenItems, put_in, shape_from};
ghost use Rattle.seghandles.specs.Opening.{values_of};
ghost use Rattle.segshards.specs.Items.{IsFaultOfItems, rows_of_mean};
ghost use Rattle.segshards.specs.Plan.{IsFaultOfPlan};
ghost use Rattle.segshards.specs.declared.shard.TheConstants.{MOST_SHARDS};

use crate::handle::Handle;
use crate::kept::Kept;
use crate::making::make;
use crate::status::Status;
use segclient::{MakeFault, Shape, ShapeFault};
use segshards::{ShardPlan, rows_of_mean};
use std::alloc::Global;

// So many keys the table of a small cache has rows for, at most.
const ROOMY_KEYS: u32 = 65_536;

// For so many times all keys each client of a small cache has rows, at most.
const ROOMY_TIMES: u32 = 8;

/// The shape of a cache.
#[repr(C)]
#[derive(Clone, Copy, Drop)]
pub struct CacheShape {
    pub buckets: u32,
    pub overflow: u32,
    pub passes: u32,
    pub segments_each: u32,
    pub rows: u32,
    pub first_version: u32,
}

/// Opens a cache for so many keys, with a client for each thread, in empty handles.
pub fn raw_open(
    alloc: Global,
    keys: u32,
    threads: u32,
    cache: &mut Handle,
    clients: &mut [Handle],
) -> u32
    ensures { Answers result (OpensKeys keys threads cache.old.value cache.new.value
        clients.old clients.new) }
{
    match plan_to_open(keys, threads) {
        Ok(plan) => open(alloc, plan, cache, clients).number(),
        Err(_) => Status::BadShape.number(),
    }
}

// The plan of a cache for so many keys. A thread that runs while the others wait can store most
// of them. So in a small cache each client has room for all keys, and to spare.
fn plan_to_open(keys: u32, threads: u32) -> Result<ShardPlan, ShapeFault>
    ensures plan { IfOk result (IsPlanToOpen keys threads) }
    ensures fault { IfErr result (IsFaultOfPlan threads) }
{
    if threads < 2 || keys > ROOMY_KEYS / threads {
        return ShardPlan::for_keys(keys, threads);
    }
    let keys_each = (ROOMY_TIMES * keys).min(ROOMY_KEYS / threads);
    ShardPlan::for_writers(keys_each, threads, 1)
}

/// Opens a cache for so many keys, and a client for each handle, in empty handles.
/// So many of the clients have room for all keys together.
pub fn raw_open_for_writers(
    alloc: Global,
    keys: u32,
    writers: u32,
    cache: &mut Handle,
    clients: &mut [Handle],
) -> u32
    ensures { Answers result (OpensForWriters keys writers cache.old.value cache.new.value
        clients.old clients.new) }
{
    let Ok(threads) = u32::try_from(clients.len()) else {
        return Status::BadShape.number();
    };
    match ShardPlan::for_writers(keys, threads, writers) {
        Ok(plan) => open(alloc, plan, cache, clients).number(),
        Err(_) => Status::BadShape.number(),
    }
}

/// Opens a cache for so many items whose keys and values have so many bytes together on the mean,
/// and a client for each handle, in empty handles.
pub fn raw_open_items(
    alloc: Global,
    items: u32,
    mean_bytes: u32,
    cache: &mut Handle,
    clients: &mut [Handle],
) -> u32
    ensures { Answers result (OpensItems items (rows_of_mean mean_bytes)
        cache.old.value cache.new.value clients.old clients.new) }
{
    let Ok(threads) = u32::try_from(clients.len()) else {
        return Status::BadShape.number();
    };
    match plan_for_items(items, mean_bytes, threads) {
        Ok(plan) => open(alloc, plan, cache, clients).number(),
        Err(_) => Status::BadShape.number(),
    }
}

// The plan of a cache for so many items. In a small one each client has room for all of them,
// as if each of their rows were a key.
fn plan_for_items(items: u32, mean_bytes: u32, threads: u32) -> Result<ShardPlan, ShapeFault>
    ensures plan { IfOk result (IsPlanToOpenItems items (rows_of_mean mean_bytes) threads) }
    ensures fault { IfErr result (IsFaultOfItems items (rows_of_mean mean_bytes) threads) }
{
    let rows = items.saturating_mul(rows_of_mean(mean_bytes));
    if threads >= 2 && rows <= ROOMY_KEYS / threads {
        plan_to_open(rows, threads)
    } else {
        ShardPlan::for_items(items, mean_bytes, threads)
    }
}

/// Opens a cache that takes no more than so many bytes, and a client for each handle,
/// in empty handles.
pub fn raw_open_bytes(alloc: Global, bytes: u64, cache: &mut Handle, clients: &mut [Handle]) -> u32
    ensures { Answers result (OpensForBytes bytes cache.old.value cache.new.value
        clients.old clients.new) }
{
    let Ok(threads) = u32::try_from(clients.len()) else {
        return Status::BadShape.number();
    };
    match ShardPlan::for_bytes(bytes, threads) {
        Ok(plan) => open(alloc, plan, cache, clients).number(),
        Err(_) => Status::BadShape.number(),
    }
}

/// Opens a cache of one shard of this shape, with a client for each of its passes,
/// in empty handles.
pub fn raw_open_shape(
    alloc: Global,
    shape: &CacheShape,
    cache: &mut Handle,
    clients: &mut [Handle],
) -> u32
    ensures { Answers result (Opens (one_of (shape_from shape.now))
        cache.old.value cache.new.value clients.old clients.new) }
{
    let shape = Shape {
        buckets: shape.buckets,
        overflow: shape.overflow,
        passes: shape.passes,
        segments_each: shape.segments_each,
        rows: shape.rows,
        first_version: shape.first_version,
    };
    open(alloc, ShardPlan { shape, count: 1 }, cache, clients).number()
}

// The cache of the plan in empty handles. They stay empty unless it is Ok.
fn open(alloc: Global, plan: ShardPlan, cache: &mut Handle, handles: &mut [Handle]) -> Status
    requires some { 1 ≤ plan.count }
    requires few { plan.count ≤ MOST_SHARDS }
    ensures { Opens plan cache.old.value cache.new.value handles.old handles.new result }
{
    if handles.len() != plan.shape.passes as usize {
        return Status::BadShape;
    }
    if !cache.is_empty(alloc) || !are_empty(alloc, handles) {
        return Status::NoHandle;
    }
    match make(alloc, plan) {
        Ok((home, clients)) => {
            cache.fill(alloc, home);
            hand_out(alloc, clients, handles);
            Status::Ok
        }
        Err(MakeFault::Shape(_)) => Status::BadShape,
        Err(MakeFault::OutOfMemory) => Status::OutOfMemory,
    }
}

// Whether no handle has a value.
fn are_empty(alloc: Global, handles: &mut [Handle]) -> bool
    ensures empty { result ≡ are_empty (values_of handles.old) }
    ensures same { values_of handles.new ≡ values_of handles.old }
{
    for at in 0..handles.len() {
        if !handles[at].is_empty(alloc) {
            return false;
        }
    }
    true
}

// Puts a client into each handle, in their order.
fn hand_out(alloc: Global, clients: Vec<Box<Kept, Global>>, handles: &mut [Handle])
    requires same { length handles.old ≡ length clients.items }
    ensures { values_of handles.new ≡ map put_in clients.items }
{
    let mut at = 0;
    for client in clients {
        handles[at].fill(alloc, client);
        at += 1;
    }
}
