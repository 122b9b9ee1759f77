//! A cache of more keys than one index takes: several indexes, the shards, and each key belongs to
//! one of them by its hash. A thread's client has a client of each shard, and a call on a key
//! is one call of the client of the key's shard.
#![tactic(auto)]

mod ahead;
mod budget;
mod bytes;
mod cache;
mod client;
mod closing;
mod hold;
mod items;
mod laws;
mod many;
mod note;
mod plan;
mod settings;
mod shard;
mod stats;
mod write;

pub use ahead::{Batch, LEAST_AHEAD, ROUND, Shards, is_large};
pub use cache::Cache;
pub use client::Client;
pub use closing::WholeShard;
pub use items::rows_of_mean;
pub use laws::{clients_stay, locality};
pub use note::Notes;
pub use plan::ShardPlan;
pub use segclient::{
    Condition, DeleteAnswer, GetAnswer, GetsAnswer, GetsIntoAnswer, Hold, HoldAnswer, Index,
    IndexStats, IntoAnswer, Key, MakeFault, Note, OutOfMemory, Pass, PutAnswer, Shape, ShapeFault,
    Stats, Value, ValueBytes, WriteAnswer,
};
pub use shard::{MOST_SHARDS, shard_of};
pub use stats::{no_stats, stats_sum, table_sum};
