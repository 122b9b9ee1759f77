//! How many shards a cache has for a number of keys, and of which shape.
ghost use Rattle.std.specs.Prelude.{◌≡◌, ◌≤◌, ◌⊎◌, IfErr, IfOk, max};

use crate::items::{rows_of_mean, shape_for_items};
use crate::shard::MOST_SHARDS;
use segclient::{Shape, ShapeFault};

// So many keys a shard has at most.
pub(crate) const MOST_KEYS: u32 = 262_144;

// So many it has if there may be as many shards. Its buckets then have three keys each, and six
// rows: few of them are ever full, also where every row is alive.
const KEYS_OF_SHARD: u32 = 200_000;

/// A shape, and the number of shards that have it.
#[derive(Clone, Copy, Debug, PartialEq, Eq)]
pub struct ShardPlan {
    pub shape: Shape,
    pub count: u32,
}

// As many shards as are wanted, but no fewer than these, and no more than there may be.
fn shards_for(least: u32, wanted: u64) -> u32
    requires fits { least ≤ MOST_SHARDS }
    ensures least { least ≤ result }
    ensures most { result ≤ MOST_SHARDS }
    ensures needed { result ≤ max least wanted }
    ensures wanted { (wanted ≤ result) ⊎ (result ≡ MOST_SHARDS) }
{
    wanted.clamp(u64::from(least), MOST_SHARDS as u64) as u32
}

impl ShardPlan {
    ghost use Rattle.segshards.specs.Items.{IsFaultOfItems, IsPlanForItems, rows_of_mean};
    ghost use Rattle.segshards.specs.Plan.{IsFaultOfPlan, IsPlanFor};
    ghost use Rattle.segshards.specs.Writers.{IsFaultOfWriters, IsPlanForWriters};

    /// Shards in which this number of keys has room to spare, for so many threads:
    /// one for every 200,000 keys, with as many keys each.
    pub fn for_keys(keys: u32, threads: u32) -> Result<ShardPlan, ShapeFault>
        ensures plan { IfOk result (IsPlanFor keys threads) }
        ensures fault { IfErr result (IsFaultOfPlan threads) }
    {
        let least = keys.div_ceil(MOST_KEYS).max(1);
        let count = shards_for(least, u64::from(keys.div_ceil(KEYS_OF_SHARD)));
        match Shape::for_keys(keys.div_ceil(count), threads) {
            Ok(shape) => Ok(ShardPlan { shape, count }),
            Err(fault) => Err(fault),
        }
    }

    /// Shards in which this number of keys has room to spare if so many of the threads store them,
    /// whichever these are, and each about as many. Their chains are for the keys, and the rows of
    /// each thread for a writer's part. If all threads store, it is the plan of `for_keys`.
    pub fn for_writers(keys: u32, threads: u32, writers: u32) -> Result<ShardPlan, ShapeFault>
        ensures plan { IfOk result (IsPlanForWriters keys threads writers) }
        ensures fault { IfErr result (IsFaultOfWriters keys threads writers) }
    {
        if !(1..=Shape::MOST_PASSES).contains(&threads) || !(1..=threads).contains(&writers) {
            return Err(ShapeFault::BadPasses);
        }
        let wide = u64::from(keys) * u64::from(threads);
        let least = wide.div_ceil(u64::from(MOST_KEYS * writers)).max(1);
        if least > MOST_SHARDS as u64 {
            return Err(ShapeFault::TooLarge);
        }
        let wanted = wide.div_ceil(u64::from(KEYS_OF_SHARD * writers));
        let count = shards_for(least as u32, wanted);
        let keys_each = keys.div_ceil(count);
        let chains = Shape::for_keys(keys_each, threads)?;
        let rows = Shape::for_keys((keys_each * threads).div_ceil(writers), threads)?;
        let shape = Shape {
            buckets: chains.buckets,
            overflow: chains.overflow,
            ..rows
        };
        Ok(ShardPlan { shape, count })
    }
    /// Shards in which this number of items has room to spare, for so many threads, if keys and
    /// values together have so many bytes on the mean. Where each item takes one row, it is a plan
    /// of `for_keys`, and the bytes change nothing.
    pub fn for_items(items: u32, mean_bytes: u32, threads: u32) -> Result<ShardPlan, ShapeFault>
        ensures plan { IfOk result (IsPlanForItems items (rows_of_mean mean_bytes) threads) }
        ensures fault { IfErr result (IsFaultOfItems items (rows_of_mean mean_bytes) threads) }
    {
        if !(1..=Shape::MOST_PASSES).contains(&threads) {
            return Err(ShapeFault::BadPasses);
        }
        let rows_each = rows_of_mean(mean_bytes);
        let rows = u64::from(items) * u64::from(rows_each);
        let least = rows.div_ceil(u64::from(MOST_KEYS)).max(1);
        if least > MOST_SHARDS as u64 {
            return Err(ShapeFault::TooLarge);
        }
        let wanted = rows.div_ceil(u64::from(KEYS_OF_SHARD));
        let count = shards_for(least as u32, wanted);
        let shape = shape_for_items(items.div_ceil(count), rows_each, threads);
        Ok(ShardPlan { shape, count })
    }
}
