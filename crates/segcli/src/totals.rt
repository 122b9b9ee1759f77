//! What the program prints of a load.
ghost use Rattle.std.specs.Prelude.{◌≡◌, ◌++◌, IfOk};
ghost use Rattle.segcli.specs.Totals.{pass_line, tallies_text, total_line, totals_text, text_in};

use crate::json::json_of;
use itoa::{Buffer, Integer};
use segload::{PassTotals, Tallies, Totals};
use segtasks::Format;
use std::alloc::{AllocError, Global};

/// Puts bytes at the end of the text.
pub(crate) fn put(text: &mut Vec<u8>, bytes: &[u8]) -> Result<(), AllocError>
    ensures text { IfOk result (λ _. text.new.items ≡ text.old.items ++ bytes.now) }
{
    text.extend_from_slice(bytes)
}

/// Puts a name and the decimal digits of a number at the end of the text.
pub(crate) fn put_count<I: Integer>(
    text: &mut Vec<u8>,
    name: &[u8],
    count: I,
) -> Result<(), AllocError>
    ensures text { IfOk result (λ _. text.new.items ≡ text.old.items ++ name.now ++ I.text count) }
{
    put(text, name)?;
    let mut buffer = Buffer::new();
    put(text, buffer.format(count).as_bytes())
}

fn put_tallies(text: &mut Vec<u8>, tallies: &Tallies) -> Result<(), AllocError>
    ensures text { IfOk result (λ _. text.new.items ≡ text.old.items ++ tallies_text tallies.now) }
{
    put_count(text, b" hit=", tallies.hit)?;
    put_count(text, b" miss=", tallies.miss)?;
    put_count(text, b" stored=", tallies.stored)?;
    put_count(text, b" not_stored=", tallies.not_stored)?;
    put_count(text, b" exists=", tallies.exists)?;
    put_count(text, b" not_found=", tallies.not_found)?;
    put_count(text, b" deleted=", tallies.deleted)?;
    put_count(text, b" noroom=", tallies.no_room)?;
    put_count(text, b" bucketfull=", tallies.bucket_full)?;
    put_count(text, b" busy=", tallies.busy)
}

// Puts the line of the pass of this number at the end of the text.
fn put_pass(text: &mut Vec<u8>, number: usize, pass: &PassTotals) -> Result<(), AllocError>
    ensures text { IfOk result (λ _. text.new.items ≡ text.old.items ++ pass_line number pass.now) }
{
    put_count(text, b"p", number)?;
    put_count(text, b" commands=", pass.commands)?;
    put_tallies(text, &pass.tallies)?;
    put(text, b"\n")
}

// Puts the line of all passes at the end of the text.
fn put_total(text: &mut Vec<u8>, commands: u128, keys: u32) -> Result<(), AllocError>
    ensures text { IfOk result (λ _. text.new.items ≡ text.old.items ++ total_line commands keys) }
{
    put_count(text, b"total commands=", commands)?;
    put_count(text, b" keys=", keys)?;
    put(text, b"\n")
}

/// The totals of a load in this format.
pub(crate) fn text_in(alloc: Global, format: Format, totals: &Totals) -> Result<Vec<u8>, AllocError>
    ensures text { IfOk result (λ text. text.items ≡ text_in format totals.now) }
{
    match format {
        Format::Text => text_of(alloc, totals),
        Format::Json => json_of(alloc, totals),
    }
}

/// The text of a load's totals: a line for each pass, in the order of their numbers, and one for all.
pub(crate) fn text_of(alloc: Global, totals: &Totals) -> Result<Vec<u8>, AllocError>
    ensures text { IfOk result (λ text. text.items ≡ totals_text totals.now) }
{
    let mut text = Vec::new(alloc);
    for (number, pass) in totals.passes.iter().enumerate() {
        put_pass(&mut text, number, pass)?;
    }
    put_total(&mut text, totals.commands(), totals.keys)?;
    Ok(text)
}
