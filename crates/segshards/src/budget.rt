//! How large a cache is that may take a number of bytes.
ghost use Rattle.std.specs.Prelude.{◌≡◌, ◌+◌, ◌*◌, ◌^◌, ◌<◌, ◌≤◌, ◌⊎◌, IfErr, IfOk, IfSome, IsNone};
ghost use Rattle.std.specs.Int.{IsInRange};
ghost use Rattle.segword.specs.Words.{IsValid};
ghost use Rattle.segshards.specs.Budget.{bytes_of, IsShapeFor, most_items, TakesOver};
ghost use Rattle.segshards.specs.Budget.{IsFaultOfBudget, IsPlanOf, IsPlanWithin};

use crate::items::{mean_rows, shape_for_items};
use crate::plan::{MOST_KEYS, ShardPlan};
use crate::shard::MOST_SHARDS;
use segclient::{Shape, ShapeFault};

// There is a shard for so many bytes, up to so many shards: while a cache is opened, one table
// more than it has is in use.
const BYTES_OF_SMALL_SHARD: u64 = 1 << 23;

const SMALL_SHARDS: u64 = 8;

// Beyond that, there is a shard for so many bytes: those of about 190,000 keys.
const BYTES_OF_SHARD: u64 = 1 << 25;

// What the client of a shard keeps beside the table: a byte for so many rows, and so many bytes
// for each row, for each segment, and once.
const ROWS_OF_BYTE: u32 = 8;

const ROW_BYTES: u64 = 3;

const SEGMENT_BYTES: u64 = 64;

const CLIENT_BYTES: u64 = 4096;

// How many shards a cache has that may take so many bytes.
fn shards_within(bytes: u64) -> u32
    ensures some { 1 ≤ result }
    ensures few { result ≤ MOST_SHARDS }
    ensures enough { (bytes ≤ 2 ^ 25 * result) ⊎ (result ≡ MOST_SHARDS) }
    ensures needed { 2 ^ 25 * result < bytes + 2 ^ 25 * 9 }
{
    let small = bytes.div_ceil(BYTES_OF_SMALL_SHARD).min(SMALL_SHARDS);
    let large = bytes.div_ceil(BYTES_OF_SHARD);
    small.max(large).clamp(1, MOST_SHARDS as u64) as u32
}

// So many keys a shard has at most, if their items have the mean length.
fn most_items() -> u32
    ensures { result ≡ most_items }
{
    MOST_KEYS / mean_rows()
}

// A shape for so many keys, which few enough keys have.
fn shape_for(keys: u32, threads: u32) -> Shape
    requires few { keys ≤ most_items }
    requires threads { IsInRange 1 64 threads }
    ensures { IsShapeFor keys threads result }
{
    shape_for_items(keys, mean_rows(), threads)
}

// How many bytes a cache takes at most, from its opening on.
fn bytes_of(shape: &Shape, count: u32) -> u64
    requires valid { IsValid shape.now }
    requires few { count ≤ MOST_SHARDS }
    ensures { result ≡ bytes_of shape.now count }
{
    let bits = u64::from(shape.rows.div_ceil(ROWS_OF_BYTE));
    let segment = ROW_BYTES * u64::from(shape.rows) + bits + SEGMENT_BYTES;
    let client = u64::from(shape.segments_each) * segment + CLIENT_BYTES;
    let clients = u64::from(shape.passes) * client;
    let count = u64::from(count);
    (count + 1) * shape.bytes() + count * clients
}

// So many shards, with room for as many keys as take no more than the bytes.
// There is none if even those for no key take more.
fn largest_plan(bytes: u64, threads: u32, count: u32) -> Option<ShardPlan>
    requires threads { IsInRange 1 64 threads }
    requires some { 1 ≤ count }
    requires few { count ≤ MOST_SHARDS }
    ensures plan { IfSome result (IsPlanOf bytes threads count) }
    ensures none { IsNone result → TakesOver bytes threads 0 count }
{
    let mut shape = shape_for(0, threads);
    if bytes_of(&shape, count) > bytes {
        return None;
    }
    let mut keys = 0;
    let mut over = most_items() + 1;
    while over - keys > 1 {
        let middle = keys + (over - keys) / 2;
        let tried = shape_for(middle, threads);
        if bytes_of(&tried, count) > bytes {
            over = middle;
        } else {
            keys = middle;
            shape = tried;
        }
    }
    Some(ShardPlan { shape, count })
}

impl ShardPlan {
    /// Shards that take no more than this number of bytes, for so many threads: their tables, one
    /// table more while they are opened, and what their clients keep beside the tables.
    /// They have room for as many keys as that allows, whose items take one row each. In a build
    /// for longer ones they take four on the mean. Notes and a close take more.
    /// `TooLarge`: even the smallest cache takes more.
    pub fn for_bytes(bytes: u64, threads: u32) -> Result<ShardPlan, ShapeFault>
        ensures plan { IfOk result (IsPlanWithin bytes threads) }
        ensures fault { IfErr result (IsFaultOfBudget bytes threads) }
    {
        if !(1..=Shape::MOST_PASSES).contains(&threads) {
            return Err(ShapeFault::BadPasses);
        }
        if let Some(plan) = largest_plan(bytes, threads, shards_within(bytes)) {
            return Ok(plan);
        }
        largest_plan(bytes, threads, 1).ok_or(ShapeFault::TooLarge)
    }
}
