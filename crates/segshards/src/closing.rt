//! What is left at the end: the passes of the clients, and each shard with all of its own.
ghost use Rattle.std.specs.Prelude.{◌≡◌, IfErr, IfOk, OnOk, map};
ghost use Rattle.segindex.specs.Words.{AreAllQuiet, board_of, shape_of, IsContentOfAll};
ghost use Rattle.segindex.specs.Closing.{WantsMemoryOfAll};
ghost use Rattle.segshards.specs.Whole.{HasAll, HasAll-prop};
ghost use Rattle.segshards.specs.Shards.{AreAllOfShards};

use crate::cache::Cache;
use crate::client::Client;
use segclient::{Index, Key, OutOfMemory, Pass, Value};
use std::alloc::{AllocError, Global};

/// A shard with all its passes, which has no clients any more and can be closed.
#[derive(Drop)]
pub struct WholeShard {
    pub(crate) index: Index,
    pub(crate) passes: Vec<Pass>,
    ghost all: { HasAll (board_of index) passes.items } by { HasAll-prop (board_of index) passes.items },
}

impl WholeShard {
    /// The index with all its passes, in any order.
    pub fn new(index: Index, passes: Vec<Pass>) -> WholeShard
        requires all { AreAllQuiet (board_of index) passes.items }
        ensures index { result.index ≡ index }
        ensures passes { result.passes ≡ passes }
    {
        WholeShard { index, passes }
    }

    /// Ends the shard, frees it and lists its content, as `Index::close_all` does.
    pub fn close(self, alloc: Global) -> Result<Vec<(Key, Value)>, OutOfMemory>
        ensures content { IfOk result (λ content.
            IsContentOfAll (shape_of self.index) self.passes.items content.items) }
        ensures wanted { IfErr result (λ _.
            WantsMemoryOfAll (shape_of self.index) self.passes.items) }
    {
        let WholeShard { index, passes } = self;
        index.close_all(alloc, passes)
    }
}

impl Cache {
    ghost use Rattle.segshards.specs.Clients.{AreAllClients};

    /// Its indexes, in their order, so that each can be closed by passes of its own.
    pub fn into_shards(self) -> Vec<Index>
        ensures shards { result.items ≡ self.shards.items }
    {
        let Cache { shards } = self;
        shards
    }

    /// The passes of the clients, a list for each shard, in the order of the shards.
    /// The clients are of all passes of the cache, in any order.
    /// If memory for a list is refused, the passes are gone.
    pub fn into_passes(
        &self,
        alloc: Global,
        clients: Vec<Client<'_>>,
    ) -> Result<Vec<Vec<Pass>>, AllocError>
        requires all { AreAllClients self.now.shards.items clients.items }
        ensures all { IfOk result (λ lists.
            AreAllOfShards self.now.shards.items lists.items) }
    {
        let mut lists = Vec::with_capacity(alloc, self.shards.len())?;
        for _ in 0..self.shards.len() {
            lists.push_reserved(Vec::with_capacity(alloc, clients.len())?);
        }
        for client in clients {
            client.add_passes(&mut lists)?;
        }
        Ok(lists)
    }

    /// Its shards, each with all its passes, in their order. Close one after another:
    /// each has its content, and no content is of two shards.
    /// If memory for the list is refused, the shards are gone.
    pub fn into_whole_shards(
        self,
        alloc: Global,
        lists: Vec<Vec<Pass>>,
    ) -> Result<Vec<WholeShard>, AllocError>
        requires all { AreAllOfShards self.shards.items lists.items }
        ensures shards { IfOk result (λ whole.
            map (λ shard. shard.index) whole.items ≡ self.shards.items) }
        ensures passes { IfOk result (λ whole.
            map (λ shard. shard.passes) whole.items ≡ lists.items) }
    {
        let Cache { shards } = self;
        let mut whole = Vec::with_capacity(alloc, shards.len())?;
        let mut lists = lists.into_iter();
        for index in shards {
            let Some(passes) = lists.next() else {
                unreachable!()
            };
            whole.push_reserved(WholeShard::new(index, passes));
        }
        Ok(whole)
    }
}

impl<'c> Client<'c> {
    ghost use Rattle.std.specs.Prelude.{length};
    ghost use Rattle.segshards.specs.Closing.{AreAdded};

    /// Its passes, one of each shard, in their order.
    /// If memory for the list is refused, the passes are gone.
    pub fn into_passes(self, alloc: Global) -> Result<Vec<Pass>, AllocError>
        ensures passes { IfOk result (λ passes.
            passes.items ≡ map (λ client. client.member.pass) self.entry.shards.items) }
    {
        let Client { shards, .. } = self;
        let mut passes = Vec::with_capacity(alloc, shards.len())?;
        for shard in shards {
            passes.push_reserved(shard.into_pass());
        }
        Ok(passes)
    }

    // Adds its pass of each shard to the list of the shard.
    fn add_passes(self, lists: &mut Vec<Vec<Pass>>) -> Result<(), AllocError>
        requires long { length lists.old.items ≡ length self.shards.items }
        ensures added { OnOk result (AreAdded self.entry.shards.items
            lists.old.items lists.new.items) }
    {
        let Client { shards, .. } = self;
        let mut place = 0;
        for shard in shards {
            lists[place].push(shard.into_pass())?;
            place += 1;
        }
        Ok(())
    }
}
