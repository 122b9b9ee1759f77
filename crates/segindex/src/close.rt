//! The content of an index at its end, read from its words at rest.
ghost use Rattle.std.specs.Prelude.{◌≡◌, ℕ, ◌+◌, ◌*◌, ◌<◌, ◌≤◌, List, IfOk, IfErr, OnOk, OnErr};
ghost use Rattle.std.specs.Prelude.{[], ◌++◌, ◌∷◌, vec_len};
ghost use Rattle.segcore.specs.declared.event.Event.{Event};
ghost use Rattle.segcore.specs.Words.{seen};
ghost use Rattle.segbase.specs.Words.{IsAtRest, shape_of};
ghost use Rattle.segindex.specs.Closing.{HasContent, HasPairs, IsListed, IsWordIn, IsBucketIn};
ghost use Rattle.segindex.specs.Closing.{IsCompact, IsPairAt, IsPairsAtRest};

use crate::index::Index;
use segbase::{CHAIN_BUCKETS, Pass, Place, Words};
use segword::{BUCKET_WORDS, Chain, Item, Key, LAST_WORD, Value, read_row};
use std::alloc::{AllocError, Global};
use thiserror::Error;

/// The most pairs of a bucket: its chain has at most four buckets of seven item words.
pub const BUCKET_PAIRS: u32 = CHAIN_BUCKETS * LAST_WORD as u32;

/// The memory for the content of an index was refused. The index is gone.
#[derive(Clone, Copy, Debug, PartialEq, Eq, Error)]
#[error("out of memory")]
pub struct OutOfMemory;

impl Index {
    ghost use Rattle.segindex.specs.Index as index;
    ghost use Rattle.segstore.specs.Words.{IsQuiet};
    ghost use Rattle.segindex.specs.Closing.{IsContent, WantsMemory, IsContentSeen};
    ghost use Rattle.segindex.specs.Closing.{AreAllQuiet, IsContentOfAll, WantsMemoryOfAll};

    /// Ends the index with one of its passes, and lists its content: each key with its value,
    /// in the order of the keys.
    /// The content is that after some legal history,
    /// which goes on from what this pass has seen by entries of other passes.
    /// If the index has one pass, the content is that after just what the pass has seen.
    /// With several passes the contract leaves open which entries of others these are.
    /// `close_all` is the close that leaves nothing open.
    /// The index can't be closed while an item is held.
    ///
    /// A bucket's chain has at most four buckets of seven words, so it has at most 28 pairs.
    /// The list takes memory, if a key stands at all: room for at most twice its pairs, and seven
    /// more. With several passes the contract leaves open whether a key stands.
    /// If that memory is refused, the index and the pass are gone all the same.
    pub fn close(self, alloc: Global, pass: Pass) -> Result<Vec<(Key, Value)>, OutOfMemory>
        requires { IsQuiet (index.board_of self) pass }
        ensures content { IfOk result (λ content.
            IsContent (index.shape_of self) pass content.items) }
        ensures few { IfOk result (λ content.
            vec_len content ≤ BUCKET_PAIRS * (index.shape_of self).buckets) }
        ensures room { IfOk result IsCompact }
        ensures wanted { IfErr result (λ _. WantsMemory (index.shape_of self) pass) }
        ensures alone { (index.shape_of self).passes ≡ 1
            → IfOk result (λ content. IsContentSeen (index.shape_of self) pass content.items) }
    {
        let Index { board } = self;
        list_content(alloc, board.close(pass))
    }

    /// Ends the index with all its passes, in any order, and lists its content as `close` does.
    /// The content is that after the history that one of the passes has seen.
    /// What each pass has seen begins this history, which has every entry of each.
    /// The list takes memory, if a key stands at all.
    /// If that memory is refused, the index and the passes are gone all the same.
    pub fn close_all(
        self,
        alloc: Global,
        passes: Vec<Pass>,
    ) -> Result<Vec<(Key, Value)>, OutOfMemory>
        requires { AreAllQuiet (index.board_of self) passes.items }
        ensures content { IfOk result (λ content.
            IsContentOfAll (index.shape_of self) passes.items content.items) }
        ensures few { IfOk result (λ content.
            vec_len content ≤ BUCKET_PAIRS * (index.shape_of self).buckets) }
        ensures room { IfOk result IsCompact }
        ensures wanted { IfErr result (λ _. WantsMemoryOfAll (index.shape_of self) passes.items) }
    {
        let Index { board } = self;
        list_content(alloc, board.close_all(passes))
    }
}

// The pairs of all buckets, in the order of their keys.
fn list_content(alloc: Global, words: Words) -> Result<Vec<(Key, Value)>, OutOfMemory>
    requires rest { (trace : List Event) × IsAtRest words trace }
    ensures lists { IfOk result (λ content. IsPairsAtRest words content.items) }
    ensures few { IfOk result (λ content.
        vec_len content ≤ BUCKET_PAIRS * (shape_of words).buckets) }
    ensures room { IfOk result IsCompact }
    ensures wanted { IfErr result (λ _. HasPairs words) }
{
    let Ok(mut content) = list_pairs(alloc, &words) else {
        return Err(OutOfMemory);
    };
    content.sort_unstable_by(|left, right| left.0.cmp(&right.0));
    Ok(content)
}

// The pairs of all buckets.
fn list_pairs(alloc: Global, words: &Words) -> Result<Vec<(Key, Value)>, AllocError>
    requires rest { (trace : List Event) × IsAtRest words.now trace }
    ensures lists { IfOk result (λ pairs. (trace : List Event) → IsAtRest words.now trace
        → IsListed words.now trace (shape_of words.now).buckets 1 pairs.items) }
    ensures few { IfOk result (λ pairs.
        vec_len pairs ≤ BUCKET_PAIRS * (shape_of words.now).buckets) }
    ensures room { IfOk result IsCompact }
    ensures wanted { IfErr result (λ _. HasPairs words.now) }
{
    let mut pairs = Vec::new(alloc);
    for bucket in 0..words.shape().buckets {
        list_chain(words, bucket, &mut pairs)?;
    }
    Ok(pairs)
}

// Adds the pairs of a bucket's chain at the end of the list.
fn list_chain(words: &Words, home: u32, pairs: &mut Vec<(Key, Value)>) -> Result<(), AllocError>
    requires rest { (trace : List Event) × IsAtRest words.now trace }
    requires home { home < (shape_of words.now).buckets }
    ensures lists { OnOk result ((trace : List Event) → IsAtRest words.now trace
        → IsListed words.now trace home 1 pairs.old.items
        → IsListed words.now trace (home + 1) 1 pairs.new.items) }
    ensures few { OnOk result (vec_len pairs.new ≤ vec_len pairs.old + BUCKET_PAIRS) }
    ensures room { OnOk result (IsCompact pairs.old → IsCompact pairs.new) }
    ensures wanted { OnErr result (HasPairs words.now) }
{
    let mut bucket = home;
    for depth in 0..CHAIN_BUCKETS {
        list_bucket(words, bucket, pairs)?;
        let Some(number) = Chain::unpack(words.item(Place {
            bucket,
            word: LAST_WORD,
        })) else {
            return Ok(());
        };
        bucket = words.shape().buckets + number;
    }
    Ok(())
}

// Adds the pairs of one bucket of a chain at the end of the list.
fn list_bucket(words: &Words, bucket: u32, pairs: &mut Vec<(Key, Value)>) -> Result<(), AllocError>
    requires { (trace : List Event) × (home : ℕ) × (depth : ℕ)
        × IsAtRest words.now trace × IsBucketIn words.now trace home depth bucket }
    ensures lists { OnOk result ((trace : List Event) (home depth : ℕ)
        → IsAtRest words.now trace → IsBucketIn words.now trace home depth bucket
        → IsListed words.now trace home (8 * depth + 1) pairs.old.items
        → IsListed words.now trace home (8 * depth + 8) pairs.new.items) }
    ensures few { OnOk result (vec_len pairs.new ≤ vec_len pairs.old + LAST_WORD) }
    ensures room { OnOk result (IsCompact pairs.old → IsCompact pairs.new) }
    ensures wanted { OnErr result ((trace : List Event) (home depth : ℕ)
        → IsAtRest words.now trace → IsBucketIn words.now trace home depth bucket
        → HasContent (shape_of words.now) (seen trace)) }
{
    for word in 1..BUCKET_WORDS as u8 {
        if let Some(pair) = pair_at(words, Place { bucket, word }) {
            push_pair(pairs, pair)?;
        }
    }
    Ok(())
}

// Adds a pair at the end of the list. A full list takes room for as many more, at least for seven.
fn push_pair(pairs: &mut Vec<(Key, Value)>, pair: (Key, Value)) -> Result<(), AllocError>
    ensures items { OnOk result (pairs.new.items ≡ pairs.old.items ++ pair ∷ []) }
    ensures len { OnOk result (vec_len pairs.new ≡ vec_len pairs.old + 1) }
    ensures room { OnOk result (IsCompact pairs.old → IsCompact pairs.new) }
{
    if pairs.len() == pairs.capacity() {
        pairs.reserve_exact(pairs.len().max(LAST_WORD as usize))?;
    }
    pairs.push_reserved(pair);
    Ok(())
}

// The pair that a word of a chain names, if it names one.
fn pair_at(words: &Words, place: Place) -> Option<(Key, Value)>
    requires { (trace : List Event) × (home : ℕ) × (at : ℕ)
        × IsAtRest words.now trace × IsWordIn words.now trace home at place }
    ensures { (trace : List Event) (home at : ℕ)
        → IsAtRest words.now trace → IsWordIn words.now trace home at place
        → IsPairAt (shape_of words.now) trace home at result }
{
    let item = Item::unpack(words.item(place))?;
    read_row(&words.row(item.seg, item.row))
}
