//! Caches that one trace is sent through: their shapes, and what their clients keep.
ghost use Rattle.std.specs.Prelude.{◌≡◌, ◌++◌, ⊤, All, IfErr, IfOk, List, OnOk};
ghost use Rattle.std.specs.List.{AllZip};
ghost use Rattle.segindex.specs.Words.{board_of};
ghost use Rattle.segstore.specs.Words.{IsQuiet};
ghost use Rattle.segreplay.specs.Caches.{AreFresh, caches_in, caches_of, half_of, HasValidShape};
ghost use Rattle.segreplay.specs.Caches.{IsDealt, IsFresh, IsReplayFault, SetsPolicy, sizes_of};
ghost use Rattle.segreplay.specs.declared.player.Player.{Player};

use crate::fault::ReplayFault;
use crate::player::Player;
use segclient::Client;
use segindex::{Index, Pass};
use segtraces::Retention;
use segword::{Shape, Value};
use std::alloc::{AllocError, Global};

/// A cache: its shape, and what its clients keep.
#[derive(Clone, Copy, Debug)]
pub struct CacheConfig {
    pub policy: Retention,
    pub shape: Shape,
}

// Lets a new client keep by this policy.
fn set_policy(client: &mut Client<'_>, policy: Retention)
    ensures { SetsPolicy policy client.old client.new }
{
    match policy {
        Retention::Default => {}
        Retention::Nothing => client.keep_nothing(),
        Retention::Cutoff(cutoff) => client.keep_from(Some(cutoff)),
    }
}

// The shape with half of the buckets and half of the rows.
fn half_of(shape: Shape) -> Shape
    ensures { result ≡ half_of shape }
{
    Shape {
        buckets: (shape.buckets / 2).max(1),
        overflow: shape.overflow / 2,
        rows: (shape.rows / 2).max(1),
        ..shape
    }
}

// Puts so many caches at the end of the list, each half of the one before.
fn add_sizes(
    caches: &mut Vec<CacheConfig>,
    policy: Retention,
    shape: Shape,
    sizes: u32,
) -> Result<(), AllocError>
    ensures { OnOk result (caches.new.items ≡ caches.old.items ++ sizes_of policy shape sizes) }
{
    let mut shape = shape;
    for size in 0..sizes {
        caches.push(CacheConfig { policy, shape })?;
        shape = half_of(shape);
    }
    Ok(())
}

/// A cache for each policy and each size. Each size is half of the one before.
pub(crate) fn caches_of(
    alloc: Global,
    policies: &[Retention],
    shape: Shape,
    sizes: u32,
) -> Result<Vec<CacheConfig>, AllocError>
    ensures { IfOk result (λ caches. caches.items ≡ caches_of policies.now shape sizes) }
{
    let mut caches = Vec::new(alloc);
    for policy in policies {
        add_sizes(&mut caches, *policy, shape, sizes)?;
    }
    Ok(caches)
}

/// The passes of an index, and the cache that it was made for.
#[derive(Drop)]
pub(crate) struct Dealt {
    cache: CacheConfig,
    passes: Vec<Pass>,
}

/// The indexes of caches, and the passes of each.
#[derive(Drop)]
pub(crate) struct Made {
    pub(crate) indexes: Vec<Index>,
    pub(crate) dealt: Vec<Dealt>,
}

/// Makes the index of each cache.
pub(crate) fn make_all(alloc: Global, caches: &[CacheConfig]) -> Result<Made, ReplayFault>
    ensures valid { IfOk result (λ _. All HasValidShape caches.now) }
    ensures each { IfOk result (λ made. caches_in made.dealt.items ≡ caches.now) }
    ensures new { IfOk result (λ made. AllZip IsDealt made.indexes.items made.dealt.items) }
    ensures fault { IfErr result (IsReplayFault caches.now ⊤) }
{
    let mut indexes = Vec::new(alloc);
    let mut dealt = Vec::new(alloc);
    for cache in caches {
        let (index, passes) = match Index::new(alloc, cache.shape) {
            Ok(made) => made,
            Err(fault) => return Err(ReplayFault::Make(fault)),
        };
        let Ok(()) = indexes.push(index) else {
            return Err(ReplayFault::OutOfMemory);
        };
        let Ok(()) = dealt.push(Dealt {
            cache: *cache,
            passes,
        }) else {
            return Err(ReplayFault::OutOfMemory);
        };
    }
    Ok(Made { indexes, dealt })
}

// With what a player starts.
#[derive(Clone, Copy)]
struct Start<'v> {
    // Which of the caches it is of.
    place: usize,
    policy: Retention,
    value: &'v Value,
}

// Puts a player for each pass of an index at the end of the list.
fn add_players<'i>(
    alloc: Global,
    players: &mut Vec<Player<'i>>,
    index: &'i Index,
    passes: Vec<Pass>,
    start: Start<'_>,
) -> Result<(), AllocError>
    requires quiet { All (IsQuiet (board_of index.now)) passes.items }
    ensures { OnOk result ((more : List Player)
        × (players.new.items ≡ players.old.items ++ more)
        × AllZip (IsFresh start.entry.place start.entry.value.now start.entry.policy index.now)
        passes.items more) }
{
    for pass in passes {
        let number = pass.number();
        let mut client = Client::with_queues(alloc, index, pass)?;
        set_policy(&mut client, start.policy);
        players.push(Player::new(client, start.place, number, start.value.copy()))?;
    }
    Ok(())
}

/// A player for each pass of each index, in their order.
pub(crate) fn players_of<'i>(
    alloc: Global,
    indexes: &'i [Index],
    dealt: Vec<Dealt>,
    value: &Value,
) -> Result<Vec<Player<'i>>, AllocError>
    requires new { AllZip IsDealt indexes.now dealt.items }
    ensures { IfOk result (λ players.
        AreFresh 0 value.now (caches_in dealt.items) players.items) }
{
    let mut players = Vec::new(alloc);
    let mut place: usize = 0;
    for each in dealt {
        let Dealt { cache, passes } = each;
        let start = Start {
            place,
            policy: cache.policy,
            value,
        };
        add_players(alloc, &mut players, &indexes[place], passes, start)?;
        place += 1;
    }
    Ok(players)
}
