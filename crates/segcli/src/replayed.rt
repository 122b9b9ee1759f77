//! What the program prints of a replay, and the plan of one that is asked for.
ghost use Rattle.std.specs.Prelude.{◌≡◌, ◌++◌, codes, IfOk};
ghost use Rattle.std.specs.List.{flat_map};
ghost use Rattle.segcli.specs.Replayed.{cache_line, cache_object, IsPlanOf, mean, next_object};
ghost use Rattle.segcli.specs.Replayed.{point, policies_of, policy_text, rate_part, replay_json};
ghost use Rattle.segcli.specs.Replayed.{replay_text, rows_of, share, sizes_of};

use crate::totals::{put, put_count};
use segreplay::{CacheTotals, ReplayPlan};
use segtasks::{Format, Policies, Replay};
use segtraces::Retention;
use segword::Shape;
use std::alloc::{AllocError, Global};
use std::slice;

/// The policies of `--policy all`.
const ALL: [Retention; 3] = [Retention::Default, Retention::Nothing, Retention::Cutoff(3)];

/// How many sizes `--sizes` compares.
const SIZES: u32 = 6;

/// The plan of a replay that is asked for.
pub(crate) fn plan_of<'p>(asked: &'p Replay<'_>) -> ReplayPlan<'p>
    ensures { IsPlanOf asked.entry.now result }
{
    ReplayPlan {
        form: asked.form,
        value_bytes: asked.value_bytes as usize,
        warm: asked.warm,
        shape: asked.shape,
        sizes: sizes_of(asked.sizes),
        policies: policies_of(&asked.policies),
    }
}

// How many sizes there are, if they are to be compared or not.
fn sizes_of(are_compared: bool) -> u32
    ensures { result ≡ sizes_of are_compared }
{
    if are_compared { SIZES } else { 1 }
}

fn policies_of<'p>(policies: &'p Policies) -> &'p [Retention]
    ensures { result.now ≡ policies_of policies.entry.now }
{
    match policies {
        Policies::One(policy) => slice::from_ref(policy),
        Policies::All => &ALL,
    }
}

fn put_policy(text: &mut Vec<u8>, policy: Retention) -> Result<(), AllocError>
    ensures text { IfOk result (λ _. text.new.items ≡ text.old.items ++ policy_text policy) }
{
    match policy {
        Retention::Default => put(text, b"default"),
        Retention::Nothing => put(text, b"nothing"),
        Retention::Cutoff(cutoff) => put_count(text, b"cutoff:", cutoff),
    }
}

// Which share of the gets hit, in hundredths of a hundredth.
fn share(hits: u64, gets: u64) -> u128
    ensures { result ≡ share hits gets }
{
    u128::from(hits) * 10_000 / u128::from(gets.max(1))
}

// Which share of its time to live a put was given on average, in hundredths of a hundredth.
fn mean(given: u64, stored: u64) -> u128
    ensures { result ≡ mean given stored }
{
    u128::from(given) / u128::from(stored.max(1))
}

// What stands before the places of a rate.
fn point(places: u128) -> &'static [u8]
    ensures { result.now ≡ point places }
{
    if places < 10 { b".0" } else { b"." }
}

/// How many rows a shape has.
pub(crate) fn rows_of(shape: Shape) -> u128
    ensures { result ≡ rows_of shape }
{
    u128::from(shape.passes) * u128::from(shape.segments_each) * u128::from(shape.rows)
}

// Puts a share in hundredths behind a name, with two places.
fn put_rate(text: &mut Vec<u8>, name: &[u8], rate: u128) -> Result<(), AllocError>
    ensures text { IfOk result (λ _. text.new.items ≡ text.old.items ++ rate_part name.now rate) }
{
    put_count(text, name, rate / 100)?;
    put_count(text, point(rate % 100), rate % 100)
}

// Puts the line of a cache at the end of the text.
fn put_line(text: &mut Vec<u8>, totals: &CacheTotals) -> Result<(), AllocError>
    ensures text { IfOk result (λ _. text.new.items ≡ text.old.items ++ cache_line totals.now) }
{
    let counts = totals.counts;
    put_policy(text, totals.cache.policy)?;
    put_count(text, b" rows=", rows_of(totals.cache.shape))?;
    put_count(text, b" bytes=", totals.bytes)?;
    put_count(text, b" gets=", counts.gets)?;
    put_count(text, b" hits=", counts.hits)?;
    put_rate(text, b" rate=", share(counts.hits, counts.gets))?;
    put_count(text, b" sets=", counts.sets)?;
    put_count(text, b" deletes=", counts.deletes)?;
    put_count(text, b" evicted=", counts.evicted)?;
    put_count(text, b" kept=", counts.kept)?;
    put_count(text, b" refused=", counts.refused)?;
    put_count(text, b" busy=", counts.busy)?;
    put_count(text, b" items=", counts.items)?;
    put_count(text, b" lives=", totals.lives)?;
    put_rate(text, b" given=", mean(counts.given, counts.stored))?;
    put(text, b"\n")
}

// Puts the object of a cache at the end of the text.
fn put_object(text: &mut Vec<u8>, totals: &CacheTotals) -> Result<(), AllocError>
    ensures text { IfOk result (λ _. text.new.items ≡ text.old.items ++ cache_object totals.now) }
{
    let counts = totals.counts;
    put(text, b"{\"policy\":\"")?;
    put_policy(text, totals.cache.policy)?;
    put_count(text, b"\",\"rows\":", rows_of(totals.cache.shape))?;
    put_count(text, b",\"bytes\":", totals.bytes)?;
    put_count(text, b",\"gets\":", counts.gets)?;
    put_count(text, b",\"hits\":", counts.hits)?;
    put_rate(text, b",\"rate\":", share(counts.hits, counts.gets))?;
    put_count(text, b",\"sets\":", counts.sets)?;
    put_count(text, b",\"deletes\":", counts.deletes)?;
    put_count(text, b",\"evicted\":", counts.evicted)?;
    put_count(text, b",\"kept\":", counts.kept)?;
    put_count(text, b",\"refused\":", counts.refused)?;
    put_count(text, b",\"busy\":", counts.busy)?;
    put_count(text, b",\"items\":", counts.items)?;
    put_count(text, b",\"lives\":", totals.lives)?;
    put_rate(text, b",\"given\":", mean(counts.given, counts.stored))?;
    put(text, b"}")
}

// Puts the object of one more cache at the end of the text.
fn put_next_object(text: &mut Vec<u8>, totals: &CacheTotals) -> Result<(), AllocError>
    ensures text { IfOk result (λ _. text.new.items ≡ text.old.items ++ next_object totals.now) }
{
    put(text, b",")?;
    put_object(text, totals)
}

// Puts the objects of more caches at the end of the text.
fn put_next_objects(text: &mut Vec<u8>, totals: &[CacheTotals]) -> Result<(), AllocError>
    ensures text { IfOk result (λ _. text.new.items
        ≡ text.old.items ++ flat_map next_object totals.now) }
{
    for each in totals {
        put_next_object(text, each)?;
    }
    Ok(())
}

fn put_json(text: &mut Vec<u8>, totals: &[CacheTotals]) -> Result<(), AllocError>
    ensures text { IfOk result (λ _. text.new.items ≡ text.old.items ++ replay_json totals.now) }
{
    if totals.is_empty() {
        return put(text, b"{\"caches\":[]}");
    }
    if totals.len() == 1 {
        return put_object(text, &totals[0]);
    }
    put(text, b"{\"caches\":[")?;
    put_object(text, &totals[0])?;
    put_next_objects(text, &totals[1..])?;
    put(text, b"]}")
}

fn put_json_line(text: &mut Vec<u8>, totals: &[CacheTotals]) -> Result<(), AllocError>
    ensures text { IfOk result (λ _. text.new.items
        ≡ text.old.items ++ (replay_json totals.now ++ codes "\n")) }
{
    put_json(text, totals)?;
    put(text, b"\n")
}

fn put_lines(text: &mut Vec<u8>, totals: &[CacheTotals]) -> Result<(), AllocError>
    ensures text { IfOk result (λ _. text.new.items
        ≡ text.old.items ++ flat_map cache_line totals.now) }
{
    for each in totals {
        put_line(text, each)?;
    }
    Ok(())
}

fn put_totals(text: &mut Vec<u8>, format: Format, totals: &[CacheTotals]) -> Result<(), AllocError>
    ensures text { IfOk result (λ _. text.new.items
        ≡ text.old.items ++ replay_text format totals.now) }
{
    match format {
        Format::Text => put_lines(text, totals),
        Format::Json => put_json_line(text, totals),
    }
}

/// The text of a replay's totals: a line for each cache, or one object for all.
pub(crate) fn text_of_replay(
    alloc: Global,
    format: Format,
    totals: &[CacheTotals],
) -> Result<Vec<u8>, AllocError>
    ensures text { IfOk result (λ text. text.items ≡ replay_text format totals.now) }
{
    let mut text = Vec::new(alloc);
    put_totals(&mut text, format, totals)?;
    Ok(text)
}
