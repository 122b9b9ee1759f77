//! What a replay counted for each cache.
ghost use Rattle.std.specs.Prelude.{◌≡◌, ◌<◌, ◌^◌, All, IfOk};
ghost use Rattle.segreplay.specs.Counting.{no_counts};
ghost use Rattle.segreplay.specs.Caches.{bytes_of, counts_after, HasValidShape, queue_bytes};
ghost use Rattle.segreplay.specs.Replays.{totals_from};

use crate::cache::CacheConfig;
use crate::counts::Counts;
use crate::player::Player;
use segtraces::Retention;
use std::alloc::{AllocError, Global};

/// A cache, and what its clients counted together.
#[derive(Clone, Copy, Debug)]
pub struct CacheTotals {
    pub cache: CacheConfig,
    /// How many bytes its table and its clients' queues have.
    pub bytes: u64,
    pub counts: Counts,
    /// How many different times to live the trace's commands had. 64 stands for 64 or more.
    pub lives: usize,
}

// How many bytes the clients' queues have: 44 for each segment, 3 for each of its rows,
// and one for each eight.
fn queue_bytes(cache: CacheConfig) -> u64
    requires { HasValidShape cache }
    ensures value { result ≡ queue_bytes cache.policy cache.shape }
    ensures few { result < 2 ^ 32 }
{
    let shape = cache.shape;
    match cache.policy {
        Retention::Default => {
            let of_segment = 44 + 3 * shape.rows + shape.rows.div_ceil(8);
            u64::from(shape.passes * shape.segments_each) * u64::from(of_segment)
        }
        Retention::Nothing | Retention::Cutoff(_) => 0,
    }
}

// How many bytes a cache has.
fn bytes_of(cache: CacheConfig) -> u64
    requires { HasValidShape cache }
    ensures { result ≡ bytes_of cache }
{
    cache.shape.bytes() + queue_bytes(cache)
}

// What the players of a cache counted together.
fn counts_of(players: &[Player<'_>], cache: usize) -> Counts
    ensures { result ≡ counts_after no_counts cache players.now }
{
    let mut counts = Counts::new();
    for player in players {
        if player.cache == cache {
            counts = counts.plus(player.counts);
        }
    }
    counts
}

/// The totals of each cache, by its players, over a trace with so many times to live.
pub(crate) fn totals_of(
    alloc: Global,
    caches: &[CacheConfig],
    players: &[Player<'_>],
    lives: usize,
) -> Result<Vec<CacheTotals>, AllocError>
    requires { All HasValidShape caches.now }
    ensures { IfOk result (λ totals. totals.items ≡ totals_from lives 0 players.now caches.now) }
{
    let mut totals = Vec::new(alloc);
    for (place, cache) in caches.iter().enumerate() {
        totals.push(CacheTotals {
            cache: *cache,
            bytes: bytes_of(*cache),
            counts: counts_of(players, place),
            lives,
        })?;
    }
    Ok(totals)
}
