//! The shard of a hash.
ghost use Rattle.std.specs.Prelude.{◌≡◌, ◌<◌, ◌≤◌};
ghost use Rattle.segshards.specs.Shards.{shard_from_hash};

/// The most shards of a cache.
pub const MOST_SHARDS: usize = 16_384;

/// The shard of a hash, out of this many. It goes by bits 20 to 51 of the hash,
/// by which neither the bucket nor the tag goes.
#[inline(always)]
pub fn shard_of(hash: u64, count: usize) -> usize
    requires some { 1 ≤ count }
    requires few { count ≤ MOST_SHARDS }
    ensures shard { result ≡ shard_from_hash count hash }
    ensures within { result < count }
{
    let share = hash >> 20 & 0xffff_ffff;
    (share * count as u64 >> 32) as usize
}
