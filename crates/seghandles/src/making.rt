//! A new cache with its clients: shards that are opened one after another.
ghost use Rattle.std.specs.Prelude.{◌≡◌, ◌≤◌, All, IfErr, IfOk, length, map, None, vec_len};
ghost use Rattle.std.specs.Int.{IsInRange};
ghost use Rattle.std.specs.List.{AllZip};
ghost use Rattle.segbase.specs.Words.{holding, IsMakeFault};
ghost use Rattle.segindex.specs.Words.{board_of};
ghost use Rattle.segstore.specs.Words.{IsQuiet};
ghost use Rattle.segshards.specs.declared.shard.TheConstants.{MOST_SHARDS};
ghost use Rattle.seghandles.specs.Making.{AddsShard, AreEmptyRows, Deals, IsClientOf, IsNewGuest};
ghost use Rattle.seghandles.specs.Making.{OpensShards};
ghost use Rattle.seghandles.specs.Opening.{in_box, IsOpened};
ghost use Rattle.segword.specs.Words.{IsValid};

use crate::cache::Cache;
use crate::client::SharedClient;
use crate::guest::Guest;
use crate::home::Home;
use crate::kept::Kept;
use segclient::{Index, MakeFault, Member, Pass, Shape};
use segshards::ShardPlan;
use std::alloc::{AllocError, Global};
use std::sync::Arc;

/// The cache of a plan, and its clients in the order of their numbers.
pub(crate) fn make(
    alloc: Global,
    plan: ShardPlan,
) -> Result<(Box<Kept, Global>, Vec<Box<Kept, Global>>), MakeFault>
    requires some { 1 ≤ plan.count }
    requires few { plan.count ≤ MOST_SHARDS }
    ensures opened { IfOk result (λ made. IsOpened plan made.0.value (map in_box made.1.items)) }
    ensures fault { IfErr result (IsMakeFault plan.shape) }
{
    if let Err(fault) = plan.shape.check() {
        return Err(MakeFault::Shape(fault));
    }
    let (homes, rows) = open_shards(alloc, plan)?;
    let Ok(clients) = box_clients(alloc, rows) else {
        return Err(MakeFault::OutOfMemory);
    };
    let cache = Cache::new(homes);
    let Ok(home) = Box::new(alloc, Kept::Cache(cache)) else {
        return Err(MakeFault::OutOfMemory);
    };
    Ok((home, clients))
}

// The shards of a plan, and a row of guests for each client: one of each shard.
// If a shard can't be opened, those before it are dropped.
fn open_shards(alloc: Global, plan: ShardPlan) -> Result<(Vec<Home>, Vec<Vec<Guest>>), MakeFault>
    requires valid { IsValid plan.shape }
    ensures opened { IfOk result (λ made. OpensShards plan made.0.items made.1.items) }
    ensures fault { IfErr result (IsMakeFault plan.shape) }
{
    let Ok(mut rows) = empty_rows(alloc, plan) else {
        return Err(MakeFault::OutOfMemory);
    };
    let Ok(mut homes) = Vec::with_capacity(alloc, plan.count as usize) else {
        return Err(MakeFault::OutOfMemory);
    };
    for _ in 0..plan.count {
        let home = open_shard(alloc, plan.shape, &mut rows)?;
        homes.push_reserved(home);
    }
    Ok((homes, rows))
}

// An empty row for each client, with room for a guest of each shard.
fn empty_rows(alloc: Global, plan: ShardPlan) -> Result<Vec<Vec<Guest>>, AllocError>
    ensures { IfOk result (λ rows. AreEmptyRows plan.shape.passes rows.items) }
{
    let mut rows = Vec::with_capacity(alloc, plan.shape.passes as usize)?;
    for _ in 0..plan.shape.passes {
        rows.push_reserved(Vec::with_capacity(alloc, plan.count as usize)?);
    }
    Ok(rows)
}

// A new shard, and a guest of it in each row.
fn open_shard(alloc: Global, shape: Shape, rows: &mut Vec<Vec<Guest>>) -> Result<Home, MakeFault>
    requires valid { IsValid shape }
    requires rows { length rows.old.items ≡ shape.passes }
    ensures opened { IfOk result (λ home. AddsShard shape home rows.old.items rows.new.items) }
    ensures fault { IfErr result (IsMakeFault shape) }
{
    let (index, passes) = Index::new(alloc, shape)?;
    let Ok(index) = Arc::new(alloc, index) else {
        return Err(MakeFault::OutOfMemory);
    };
    let Ok(guests) = guests(alloc, &index, passes) else {
        return Err(MakeFault::OutOfMemory);
    };
    let Ok(()) = deal(guests, rows) else {
        return Err(MakeFault::OutOfMemory);
    };
    let Ok(home) = Home::new(alloc, index) else {
        return Err(MakeFault::OutOfMemory);
    };
    Ok(home)
}

// A client for each of the passes, in their order.
fn guests(
    alloc: Global,
    index: &Arc<Index, Global>,
    passes: Vec<Pass>,
) -> Result<Vec<Guest>, AllocError>
    requires quiet { All (IsQuiet (board_of index.now.value)) passes.items }
    requires bare { All (λ p. holding p ≡ None) passes.items }
    ensures { IfOk result (λ guests.
        AllZip (IsNewGuest index.now.value) passes.items guests.items) }
{
    let mut guests = Vec::with_capacity(alloc, passes.len())?;
    for pass in passes {
        let member = Member::with_queues(alloc, index, pass)?;
        let guest = Guest::new(Arc::try_clone(index)?, member);
        guests.push_reserved(guest);
    }
    Ok(guests)
}

// Adds to each row the guest of its place.
fn deal(guests: Vec<Guest>, rows: &mut Vec<Vec<Guest>>) -> Result<(), AllocError>
    requires long { length rows.old.items ≡ length guests.items }
    ensures { IfOk result (λ _. Deals guests.items rows.old.items rows.new.items) }
{
    let mut place = 0;
    for guest in guests {
        rows[place].push(guest)?;
        place += 1;
    }
    Ok(())
}

// A client of each row, in a box.
fn box_clients(alloc: Global, rows: Vec<Vec<Guest>>) -> Result<Vec<Box<Kept, Global>>, AllocError>
    requires some { All (λ row. IsInRange 1 16384 (vec_len row)) rows.items }
    ensures { IfOk result (λ clients.
        AllZip IsClientOf rows.items (map in_box clients.items)) }
{
    let mut clients = Vec::with_capacity(alloc, rows.len())?;
    for row in rows {
        let client = SharedClient::new(row);
        let Ok(boxed) = Box::new(alloc, Kept::Client(client)) else {
            return Err(AllocError);
        };
        clients.push_reserved(boxed);
    }
    Ok(clients)
}
