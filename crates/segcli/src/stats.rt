//! What a load did to the table, by its totals.
ghost use Rattle.std.specs.Prelude.{◌≡◌, ◌++◌, IfOk};
ghost use Rattle.segcli.specs.Stats.{advice, counted_line, evictions, full_advice, full_buckets};
ghost use Rattle.segcli.specs.Stats.{overflow_buckets, pace_text, recycled_text, refillings};
ghost use Rattle.segcli.specs.Stats.{room_advice, stats_text, table_text, used_rows, without_room};

use crate::totals::{put, put_count};
use segload::Totals;
use std::alloc::{AllocError, Global};

/// How long a load took, and how many commands it made in a second.
#[derive(Clone, Copy, Debug, PartialEq, Eq)]
pub struct Pace {
    pub milliseconds: u64,
    pub each_second: u128,
}

// How many commands found no word left in a bucket.
fn full_buckets(totals: &Totals) -> u128
    ensures { result ≡ full_buckets totals.now }
{
    let mut full = 0;
    for pass in totals.passes.iter() {
        full += u128::from(pass.tallies.bucket_full);
    }
    full
}

// How many commands found no row left.
fn without_room(totals: &Totals) -> u128
    ensures { result ≡ without_room totals.now }
{
    let mut refused = 0;
    for pass in totals.passes.iter() {
        refused += u128::from(pass.tallies.no_room);
    }
    refused
}

// How many overflow buckets were drawn, as pass 0 saw it at the end.
fn overflow_buckets(totals: &Totals) -> u128
    ensures { result ≡ overflow_buckets totals.now }
{
    match totals.passes.first() {
        Some(pass) => u128::from(pass.table.overflow_buckets),
        None => 0,
    }
}

// How many rows of their segments the passes have used.
fn used_rows(totals: &Totals) -> u128
    ensures { result ≡ used_rows totals.now }
{
    let mut used = 0;
    for pass in totals.passes.iter() {
        used += u128::from(pass.table.used_rows);
    }
    used
}

// How many keys the passes evicted.
fn evictions(totals: &Totals) -> u128
    ensures { result ≡ evictions totals.now }
{
    let mut evicted = 0;
    for pass in totals.passes.iter() {
        evicted += u128::from(pass.recycled.evictions);
    }
    evicted
}

// How many segments the passes refilled.
fn refillings(totals: &Totals) -> u128
    ensures { result ≡ refillings totals.now }
{
    let mut refilled = 0;
    for pass in totals.passes.iter() {
        refilled += u128::from(pass.recycled.refillings);
    }
    refilled
}

// Puts how long the load took at the end of the text, if there is a clock.
fn put_pace(text: &mut Vec<u8>, pace: Option<Pace>) -> Result<(), AllocError>
    ensures text { IfOk result (λ _. text.new.items ≡ text.old.items ++ pace_text pace) }
{
    let Some(pace) = pace else {
        return put(text, b" commands\n");
    };
    put_count(text, b" commands in ", pace.milliseconds)?;
    put_count(text, b" ms, ", pace.each_second)?;
    put(text, b" a second\n")
}

// Puts a line with a name and a number at the end of the text.
fn put_line(text: &mut Vec<u8>, name: &[u8], count: u128) -> Result<(), AllocError>
    ensures text { IfOk result (λ _. text.new.items
        ≡ text.old.items ++ counted_line name.now count) }
{
    put_count(text, name, count)?;
    put(text, b"\n")
}

// Puts what the table has at the end of the load.
fn put_table(text: &mut Vec<u8>, totals: &Totals) -> Result<(), AllocError>
    ensures text { IfOk result (λ _. text.new.items ≡ text.old.items ++ table_text totals.now) }
{
    put_line(text, b"overflow buckets: ", overflow_buckets(totals))?;
    put_line(text, b"used rows: ", used_rows(totals))?;
    put_line(text, b"rows that items name: ", u128::from(totals.keys))
}

// Puts what the passes recycled to make room.
fn put_recycled(text: &mut Vec<u8>, totals: &Totals) -> Result<(), AllocError>
    ensures text { IfOk result (λ _. text.new.items ≡ text.old.items ++ recycled_text totals.now) }
{
    put_line(text, b"evictions: ", evictions(totals))?;
    put_line(text, b"refillings: ", refillings(totals))
}

// Puts at the end of the text which options to raise, if anything was refused.
fn put_advice(
    text: &mut Vec<u8>,
    name: &[u8],
    refused: u128,
    options: &[u8],
) -> Result<(), AllocError>
    ensures text { IfOk result (λ _. text.new.items
        ≡ text.old.items ++ advice name.now refused options.now) }
{
    if refused == 0 {
        return Ok(());
    }
    put_count(text, name, refused)?;
    put(text, options)
}

fn put_full(text: &mut Vec<u8>, totals: &Totals) -> Result<(), AllocError>
    ensures text { IfOk result (λ _. text.new.items ≡ text.old.items ++ full_advice totals.now) }
{
    let options = b", raise --buckets or --overflow\n";
    put_advice(text, b"bucketfull: ", full_buckets(totals), options)
}

fn put_without_room(text: &mut Vec<u8>, totals: &Totals) -> Result<(), AllocError>
    ensures text { IfOk result (λ _. text.new.items ≡ text.old.items ++ room_advice totals.now) }
{
    let options = b", raise --segments or --rows\n";
    put_advice(text, b"noroom: ", without_room(totals), options)
}

/// The lines of a load with these totals, which was made at this pace.
pub fn stats_text(alloc: Global, totals: &Totals, pace: Option<Pace>) -> Result<Vec<u8>, AllocError>
    ensures text { IfOk result (λ text. text.items ≡ stats_text totals.now pace) }
{
    let mut text = Vec::new(alloc);
    put_count(&mut text, b"", totals.commands())?;
    put_pace(&mut text, pace)?;
    put_table(&mut text, totals)?;
    put_recycled(&mut text, totals)?;
    put_full(&mut text, totals)?;
    put_without_room(&mut text, totals)?;
    Ok(text)
}
