//! A cache of several indexes, and how it is opened.
ghost use Rattle.std.specs.Prelude.{◌≡◌, ◌≤◌, [], All, Any, IfErr, IfNone, IfOk, IfSome, vec_len};
ghost use Rattle.segword.specs.Words.{Shape};
ghost use Rattle.segbase.specs.Words.{IsMakeFault};
ghost use Rattle.segindex.specs.Words.{shape_of};
ghost use Rattle.segshards.specs.Budget.{AreWithin, IsFaultOfBudget, IsPlanWithin};
ghost use Rattle.segshards.specs.Items.{HaveRoomForItems, rows_of_mean};
ghost use Rattle.segshards.specs.Items.{IsFaultOfItems, IsPlanForItems};
ghost use Rattle.segshards.specs.Plan.{IsFaultOfPlan, IsPlanFor};
ghost use Rattle.segshards.specs.Shards.{AreNew, AreOfPlan, AreOfShards, HaveRoomFor};
ghost use Rattle.segshards.specs.Shards.{IsFaultOfShards};
ghost use Rattle.segshards.specs.Writers.{HaveRoomForWriters, IsFaultOfWriters, IsPlanForWriters};

use crate::client::Client;
use crate::plan::ShardPlan;
use crate::shard::MOST_SHARDS;
use segclient::{Index, MakeFault, Pass, Shape, keep_back};
use std::alloc::{AllocError, Global};

/// Indexes of one shape, the shards. Each key belongs to one of them by its hash.
#[derive(Drop)]
pub struct Cache {
    pub(crate) shards: Vec<Index>,
    ghost some: { 1 ≤ vec_len shards },
    ghost few: { vec_len shards ≤ 16384 },
}

impl Cache {
    ghost use Rattle.segshards.specs.Client.{IsNewClient};
    ghost use Rattle.segshards.specs.Clients.{AreAllClients};
    ghost use Rattle.segshards.specs.Closing.{AreTaken};

    /// A cache in which this number of keys has room to spare, for so many threads,
    /// and the passes of each of its shards, from which `clients` makes clients.
    /// If a shard can't be opened, those before it are dropped.
    pub fn for_keys(
        alloc: Global,
        keys: u32,
        threads: u32,
    ) -> Result<(Cache, Vec<Vec<Pass>>), MakeFault>
        ensures passes { IfOk result (λ made. AreOfShards made.0.shards.items made.1.items) }
        ensures new { IfOk result (λ made.
            (shape : Shape) × AreNew shape made.0.shards.items made.1.items) }
        ensures room { IfOk result (λ made. HaveRoomFor keys threads made.0.shards.items) }
        ensures plan { IfOk result (λ made.
            AreOfPlan (IsPlanFor keys threads) made.0.shards.items) }
        ensures fault { IfErr result (IsFaultOfShards (IsPlanFor keys threads)
            (IsFaultOfPlan threads)) }
    {
        match ShardPlan::for_keys(keys, threads) {
            Ok(plan) => Cache::of_shards(alloc, plan.shape, plan.count),
            Err(fault) => Err(MakeFault::Shape(fault)),
        }
    }

    /// A cache in which this number of keys has room to spare if so many of the threads store them,
    /// whichever these are, and each about as many. The rest is as of `for_keys`.
    pub fn for_writers(
        alloc: Global,
        keys: u32,
        threads: u32,
        writers: u32,
    ) -> Result<(Cache, Vec<Vec<Pass>>), MakeFault>
        ensures passes { IfOk result (λ made. AreOfShards made.0.shards.items made.1.items) }
        ensures new { IfOk result (λ made.
            (shape : Shape) × AreNew shape made.0.shards.items made.1.items) }
        ensures room { IfOk result (λ made.
            HaveRoomForWriters keys threads writers made.0.shards.items) }
        ensures plan { IfOk result (λ made.
            AreOfPlan (IsPlanForWriters keys threads writers) made.0.shards.items) }
        ensures fault { IfErr result (IsFaultOfShards (IsPlanForWriters keys threads writers)
            (IsFaultOfWriters keys threads writers)) }
    {
        match ShardPlan::for_writers(keys, threads, writers) {
            Ok(plan) => Cache::of_shards(alloc, plan.shape, plan.count),
            Err(fault) => Err(MakeFault::Shape(fault)),
        }
    }

    /// A cache in which this number of items has room to spare, if keys and values together have so
    /// many bytes on the mean (`ShardPlan::for_items`). The rest is as of `for_keys`.
    pub fn for_items(
        alloc: Global,
        items: u32,
        mean_bytes: u32,
        threads: u32,
    ) -> Result<(Cache, Vec<Vec<Pass>>), MakeFault>
        ensures passes { IfOk result (λ made. AreOfShards made.0.shards.items made.1.items) }
        ensures new { IfOk result (λ made.
            (shape : Shape) × AreNew shape made.0.shards.items made.1.items) }
        ensures room { IfOk result (λ made.
            HaveRoomForItems items (rows_of_mean mean_bytes) threads made.0.shards.items) }
        ensures plan { IfOk result (λ made.
            AreOfPlan (IsPlanForItems items (rows_of_mean mean_bytes) threads)
            made.0.shards.items) }
        ensures fault { IfErr result
            (IsFaultOfShards (IsPlanForItems items (rows_of_mean mean_bytes) threads)
            (IsFaultOfItems items (rows_of_mean mean_bytes) threads)) }
    {
        match ShardPlan::for_items(items, mean_bytes, threads) {
            Ok(plan) => Cache::of_shards(alloc, plan.shape, plan.count),
            Err(fault) => Err(MakeFault::Shape(fault)),
        }
    }

    /// A cache that takes no more than this number of bytes, also while it is opened, with room for
    /// as many keys as that allows (`ShardPlan::for_bytes`). The rest is as of `for_keys`.
    pub fn for_bytes(
        alloc: Global,
        bytes: u64,
        threads: u32,
    ) -> Result<(Cache, Vec<Vec<Pass>>), MakeFault>
        ensures passes { IfOk result (λ made. AreOfShards made.0.shards.items made.1.items) }
        ensures new { IfOk result (λ made.
            (shape : Shape) × AreNew shape made.0.shards.items made.1.items) }
        ensures within { IfOk result (λ made. AreWithin bytes threads made.0.shards.items) }
        ensures fault { IfErr result (IsFaultOfShards (IsPlanWithin bytes threads)
            (IsFaultOfBudget bytes threads)) }
    {
        match ShardPlan::for_bytes(bytes, threads) {
            Ok(plan) => Cache::of_shards(alloc, plan.shape, plan.count),
            Err(fault) => Err(MakeFault::Shape(fault)),
        }
    }

    /// A cache of so many shards of this shape, opened one after another, and the passes of each.
    /// If a shard can't be opened, those before it are dropped.
    pub fn of_shards(
        alloc: Global,
        shape: Shape,
        count: u32,
    ) -> Result<(Cache, Vec<Vec<Pass>>), MakeFault>
        requires some { 1 ≤ count }
        requires few { count ≤ MOST_SHARDS }
        ensures passes { IfOk result (λ made. AreOfShards made.0.shards.items made.1.items) }
        ensures new { IfOk result (λ made.
            AreNew shape made.0.shards.items made.1.items) }
        ensures count { IfOk result (λ made. vec_len made.0.shards ≡ count) }
        ensures shapes { IfOk result (λ made.
            All (λ i. shape_of i ≡ shape) made.0.shards.items) }
        ensures fault { IfErr result (IsMakeFault shape) }
    {
        if let Err(fault) = shape.check() {
            return Err(MakeFault::Shape(fault));
        }
        let Ok(mut shards) = Vec::with_capacity(alloc, count as usize) else {
            return Err(MakeFault::OutOfMemory);
        };
        let Ok(mut lists) = Vec::with_capacity(alloc, count as usize) else {
            return Err(MakeFault::OutOfMemory);
        };
        for _ in 0..count {
            let (index, passes) = Index::new(alloc, shape)?;
            shards.push_reserved(index);
            lists.push_reserved(passes);
        }
        Ok((Cache { shards }, lists))
    }

    /// How many shards there are.
    pub fn count(&self) -> usize
        ensures { result ≡ vec_len self.now.shards }
    {
        self.shards.len()
    }

    /// A client for each thread, as long as each shard has a pass left.
    /// Its clients of the shards are as `segclient::Client::with_queues` makes them.
    /// If memory is refused, the passes are gone.
    pub fn clients<'c>(
        &'c self,
        alloc: Global,
        lists: Vec<Vec<Pass>>,
    ) -> Result<Vec<Client<'c>>, AllocError>
        requires passes { AreOfShards self.now.shards.items lists.items }
        ensures each { IfOk result (λ clients.
            All (IsNewClient self.now.shards.items) clients.items) }
        ensures all { (shape : Shape) → AreNew shape self.now.shards.items lists.items
            → IfOk result (λ clients. AreAllClients self.now.shards.items clients.items) }
    {
        let mut lists = lists;
        let threads = lists[0].len();
        let mut clients = Vec::with_capacity(alloc, threads)?;
        for _ in 0..threads {
            let Some(client) = self.client(alloc, &mut lists)? else {
                break;
            };
            clients.push_reserved(client);
        }
        Ok(clients)
    }

    // A client of one pass of each shard, or None if a shard has no pass left.
    fn client<'c>(
        &'c self,
        alloc: Global,
        lists: &mut Vec<Vec<Pass>>,
    ) -> Result<Option<Client<'c>>, AllocError>
        requires passes { AreOfShards self.now.shards.items lists.old.items }
        ensures passes { AreOfShards self.now.shards.items lists.new.items }
        ensures client { IfOk result (λ found.
            IfSome found (IsNewClient self.now.shards.items)) }
        ensures taken { IfOk result (λ found. IfSome found (λ client.
            AreTaken client.shards.items lists.old.items lists.new.items)) }
        ensures none { IfOk result (λ found.
            IfNone found (Any (λ passes. passes.items ≡ []) lists.old.items)) }
    {
        let mut shards = Vec::with_capacity(alloc, self.shards.len())?;
        for place in 0..self.shards.len() {
            let index = &self.shards[place];
            let Some(pass) = keep_back(index, &mut lists[place]) else {
                return Ok(None);
            };
            let shard = segclient::Client::with_queues(alloc, index, pass)?;
            shards.push_reserved(shard);
        }
        Ok(Some(Client {
            shards,
            indexes: self.shards.as_slice(),
            clock: 0,
            holds: None,
        }))
    }
}
