//! What a client of all shards counts: the sums of what the clients of the shards count.
ghost use Rattle.std.specs.Prelude.{◌≡◌};
ghost use Rattle.segclient.specs.Counting.{no_stats};
ghost use Rattle.segshards.specs.Sums.{stats_sum, table_sum};

use crate::client::Client;
use segclient::{IndexStats, Stats};

impl<'c> Client<'c> {
    ghost use Rattle.segshards.specs.Clients.{IsSame};
    ghost use Rattle.segshards.specs.Sums.{ReturnsTables, stats_of};

    /// The counts of its calls so far, in all shards.
    pub fn stats(&self) -> Stats
        ensures { result ≡ stats_of self.now.shards.items }
    {
        let mut sum = no_stats();
        for shard in self.shards.as_slice() {
            sum = stats_sum(sum, shard.stats());
        }
        sum
    }

    /// What it sees of the tables of all shards, as `segclient::Client::index_stats` says it of one.
    pub fn index_stats(&mut self) -> IndexStats
        ensures reads { ReturnsTables result self.old self.new }
        ensures same { IsSame self.old self.new }
    {
        let mut sum = IndexStats {
            overflow_buckets: 0,
            used_rows: 0,
            named_rows: 0,
        };
        for place in 0..self.shards.len() {
            let stats = self.shards[place].index_stats();
            sum = table_sum(sum, stats);
        }
        sum
    }
}

/// Counts of nothing yet.
pub fn no_stats() -> Stats
    ensures { result ≡ no_stats }
{
    Stats {
        hits: 0,
        misses: 0,
        stored: 0,
        not_stored: 0,
        exists: 0,
        not_found: 0,
        deleted: 0,
        no_room: 0,
        bucket_full: 0,
        busy: 0,
        segments_refilled: 0,
        items_kept: 0,
        keys_evicted: 0,
    }
}

/// The sum of each number, or the largest one.
pub fn stats_sum(sum: Stats, more: Stats) -> Stats
    ensures { result ≡ stats_sum sum more }
{
    Stats {
        hits: sum.hits.saturating_add(more.hits),
        misses: sum.misses.saturating_add(more.misses),
        stored: sum.stored.saturating_add(more.stored),
        not_stored: sum.not_stored.saturating_add(more.not_stored),
        exists: sum.exists.saturating_add(more.exists),
        not_found: sum.not_found.saturating_add(more.not_found),
        deleted: sum.deleted.saturating_add(more.deleted),
        no_room: sum.no_room.saturating_add(more.no_room),
        bucket_full: sum.bucket_full.saturating_add(more.bucket_full),
        busy: sum.busy.saturating_add(more.busy),
        segments_refilled: sum.segments_refilled.saturating_add(more.segments_refilled),
        items_kept: sum.items_kept.saturating_add(more.items_kept),
        keys_evicted: sum.keys_evicted.saturating_add(more.keys_evicted),
    }
}

/// The sum of each number, or the largest one.
pub fn table_sum(sum: IndexStats, more: IndexStats) -> IndexStats
    ensures { result ≡ table_sum sum more }
{
    IndexStats {
        overflow_buckets: sum.overflow_buckets.saturating_add(more.overflow_buckets),
        used_rows: sum.used_rows.saturating_add(more.used_rows),
        named_rows: sum.named_rows.saturating_add(more.named_rows),
    }
}
