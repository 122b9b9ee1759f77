//! The totals of a load as one JSON object.
ghost use Rattle.std.specs.Prelude.{◌≡◌, ◌++◌, IfOk};
ghost use Rattle.segcli.specs.Totals.{json_pass, json_start, json_tallies, json_text, json_total};

use crate::totals::{put, put_count};
use segload::{PassTotals, Tallies, Totals};
use std::alloc::{AllocError, Global};

fn put_tallies(text: &mut Vec<u8>, tallies: &Tallies) -> Result<(), AllocError>
    ensures text { IfOk result (λ _. text.new.items ≡ text.old.items ++ json_tallies tallies.now) }
{
    put_count(text, b",\"hit\":", tallies.hit)?;
    put_count(text, b",\"miss\":", tallies.miss)?;
    put_count(text, b",\"stored\":", tallies.stored)?;
    put_count(text, b",\"not_stored\":", tallies.not_stored)?;
    put_count(text, b",\"exists\":", tallies.exists)?;
    put_count(text, b",\"not_found\":", tallies.not_found)?;
    put_count(text, b",\"deleted\":", tallies.deleted)?;
    put_count(text, b",\"noroom\":", tallies.no_room)?;
    put_count(text, b",\"bucketfull\":", tallies.bucket_full)?;
    put_count(text, b",\"busy\":", tallies.busy)
}

// What stands before the object of the pass of this number.
fn start(number: usize) -> &'static [u8]
    ensures { result.now ≡ json_start number }
{
    if number == 0 {
        b"{\"passes\":[{\"pass\":"
    } else {
        b",{\"pass\":"
    }
}

// Puts the object of the pass of this number at the end of the text.
fn put_pass(text: &mut Vec<u8>, number: usize, pass: &PassTotals) -> Result<(), AllocError>
    ensures text { IfOk result (λ _. text.new.items ≡ text.old.items ++ json_pass number pass.now) }
{
    put_count(text, start(number), number)?;
    put_count(text, b",\"commands\":", pass.commands)?;
    put_tallies(text, &pass.tallies)?;
    put(text, b"}")
}

// Puts the object of all passes, and the end, at the end of the text.
fn put_total(text: &mut Vec<u8>, commands: u128, keys: u32) -> Result<(), AllocError>
    ensures text { IfOk result (λ _. text.new.items ≡ text.old.items ++ json_total commands keys) }
{
    put_count(text, b"],\"total\":{\"commands\":", commands)?;
    put_count(text, b",\"keys\":", keys)?;
    put(text, b"}}\n")
}

/// One object on one line: an object for each pass, in the order of their numbers, and one for all.
pub(crate) fn json_of(alloc: Global, totals: &Totals) -> Result<Vec<u8>, AllocError>
    ensures text { IfOk result (λ text. text.items ≡ json_text totals.now) }
{
    let mut text = Vec::new(alloc);
    for (number, pass) in totals.passes.iter().enumerate() {
        put_pass(&mut text, number, pass)?;
    }
    put_total(&mut text, totals.commands(), totals.keys)?;
    Ok(text)
}
