//! What is told on standard error of a replay that shows less than it may seem.
ghost use Rattle.std.specs.Prelude.{◌≡◌, IfOk};
ghost use Rattle.segcli.specs.Hints.{are_many_lives, are_mostly_first, first_hint, hints_text};
ghost use Rattle.segcli.specs.Hints.{lives_hint, miss_hint, small_hint, taken_away, trace_hint};

use crate::replayed::rows_of;
use crate::totals::put;
use segreplay::{CacheTotals, Counts};
use segtasks::Replay;
use std::alloc::{AllocError, Global};

fn small_hint(rows: u128) -> &'static [u8]
    ensures { result.now ≡ small_hint rows }
{
    if rows < 9 {
        b"the cache has at most 8 rows: --for-keys N makes room for N keys\n"
    } else {
        b""
    }
}

// At most so many counted gets missed a key that was put before and had not expired.
fn taken_away(counts: &Counts) -> u128
    ensures { result ≡ taken_away counts.now }
{
    u128::from(counts.evicted)
        + u128::from(counts.deletes)
        + u128::from(counts.refused)
        + u128::from(counts.busy)
}

fn are_mostly_first(warm: u64, counts: &Counts) -> bool
    ensures { result ≡ are_mostly_first warm counts.now }
{
    warm == 0 && 2 * taken_away(counts) < u128::from(counts.gets.saturating_sub(counts.hits))
}

fn first_hint(are_first: bool) -> &'static [u8]
    ensures { result.now ≡ first_hint are_first }
{
    if are_first {
        b"most misses are first requests of their keys, or came after a time to live\n"
    } else {
        b""
    }
}

fn miss_hint(warm: u64, totals: &[CacheTotals]) -> &'static [u8]
    ensures { result.now ≡ miss_hint warm totals.now }
{
    if totals.is_empty() {
        return b"";
    }
    first_hint(are_mostly_first(warm, &totals[0].counts))
}

// Each time to live takes segments of its own.
fn are_many_lives(lives: usize, segments: u32) -> bool
    ensures { result ≡ are_many_lives lives segments }
{
    lives > 1 && 4 * lives as u128 > u128::from(segments)
}

fn lives_hint(are_many: bool) -> &'static [u8]
    ensures { result.now ≡ lives_hint are_many }
{
    if are_many {
        b"the trace has many times to live for so few segments: items can be evicted early\n"
    } else {
        b""
    }
}

fn trace_hint(segments: u32, totals: &[CacheTotals]) -> &'static [u8]
    ensures { result.now ≡ trace_hint segments totals.now }
{
    if totals.is_empty() {
        return b"";
    }
    lives_hint(are_many_lives(totals[0].lives, segments))
}

/// The lines that are told of a replay, if there are any.
pub fn hints_text(
    alloc: Global,
    asked: &Replay<'_>,
    totals: &[CacheTotals],
) -> Result<Vec<u8>, AllocError>
    ensures text { IfOk result (λ text. text.items ≡ hints_text asked.now totals.now) }
{
    let mut text = Vec::new(alloc);
    put(&mut text, small_hint(rows_of(asked.shape)))?;
    put(&mut text, miss_hint(asked.warm, totals))?;
    put(&mut text, trace_hint(asked.shape.segments_each, totals))?;
    Ok(text)
}
