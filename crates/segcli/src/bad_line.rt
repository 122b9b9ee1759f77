//! What the program prints of the fault of a bad line.
ghost use Rattle.std.specs.Prelude.{◌≡◌, ◌++◌, IfOk, codes, decimal};
ghost use Rattle.segcli.specs.BadLines.{part_text, word_fault_text, place_text, fault_text};
ghost use Rattle.segcli.specs.BadLines.{bad_line_text, length_text};

use crate::totals::{put, put_count};
use segscript::{BadLine, LINE_BYTES, LineFault, Part, WordFault};
use segword::{KEY_BYTES, VALUE_BYTES};
use std::alloc::{AllocError, Global};

fn part_text(part: Part) -> &'static [u8]
    ensures { result.now ≡ part_text part }
{
    match part {
        Part::Pass => b"a pass",
        Part::Command => b"a command",
        Part::Segment => b"a segment",
        Part::Deadline => b"a deadline",
        Part::Cutoff => b"a cutoff",
        Part::Key => b"a key",
        Part::Value => b"a value",
        Part::Version => b"a version",
        Part::Moment => b"a moment",
    }
}

// Puts a name, a number and what stands behind it at the end of the text.
fn put_number(text: &mut Vec<u8>, name: &[u8], number: usize, rest: &[u8]) -> Result<(), AllocError>
    ensures text { IfOk result (λ _. text.new.items
        ≡ text.old.items ++ (name.now ++ decimal number ++ rest.now)) }
{
    put_count(text, name, number)?;
    put(text, rest)
}

// Puts a name, and how many bytes a word has and may have, at the end of the text.
fn put_length(text: &mut Vec<u8>, name: &[u8], length: usize, most: usize) -> Result<(), AllocError>
    ensures text { IfOk result (λ _. text.new.items
        ≡ text.old.items ++ (name.now ++ length_text length most)) }
{
    put_number(text, name, length, b" bytes, of ")?;
    put_number(text, b"", most, b" at most")
}

fn put_place(text: &mut Vec<u8>, place: usize) -> Result<(), AllocError>
    ensures text { IfOk result (λ _. text.new.items ≡ text.old.items ++ place_text place) }
{
    put_number(text, b", word ", place, b": ")
}

fn put_word_fault(text: &mut Vec<u8>, why: WordFault) -> Result<(), AllocError>
    ensures text { IfOk result (λ _. text.new.items ≡ text.old.items ++ word_fault_text why) }
{
    match why {
        WordFault::LongKey(length) => put_length(text, b"the key has ", length, KEY_BYTES),
        WordFault::LongValue(length) => put_length(text, b"the value has ", length, VALUE_BYTES),
        WordFault::Empty => put(text, b"no word stands between two spaces, or at an end"),
        WordFault::NotPass => put(text, b"a pass is p and its number, as p0"),
        WordFault::NoPass => put(text, b"no pass has this number (see --passes)"),
        WordFault::NoCommand => put(text, b"no command has this name"),
        WordFault::NotPrintable => put(text, b"it has a byte that is not printable"),
        WordFault::NoAt => put(text, b"a moment is @ and a number, as @0"),
        WordFault::NoNumber => put(text, b"a number is written in decimal digits alone"),
        WordFault::LeadingZero => { put(text, b"a number does not begin with 0, but for 0 itself") }
        WordFault::LargeNumber => put(text, b"the number is over 4294967295"),
        WordFault::LargeCutoff => put(text, b"the cutoff is over 255"),
    }
}

fn put_bad_word(text: &mut Vec<u8>, place: usize, why: WordFault) -> Result<(), AllocError>
    ensures text { IfOk result (λ _. text.new.items
        ≡ text.old.items ++ (place_text place ++ word_fault_text why)) }
{
    put_place(text, place)?;
    put_word_fault(text, why)
}

fn put_missing(text: &mut Vec<u8>, place: usize, part: Part) -> Result<(), AllocError>
    ensures text { IfOk result (λ _. text.new.items
        ≡ text.old.items ++ (place_text place ++ part_text part ++ codes " is missing")) }
{
    put_place(text, place)?;
    put(text, part_text(part))?;
    put(text, b" is missing")
}

fn put_extra(text: &mut Vec<u8>, place: usize) -> Result<(), AllocError>
    ensures text { IfOk result (λ _. text.new.items
        ≡ text.old.items ++ (place_text place ++ codes "no word stands here")) }
{
    put_place(text, place)?;
    put(text, b"no word stands here")
}

fn put_fault(text: &mut Vec<u8>, fault: LineFault) -> Result<(), AllocError>
    ensures text { IfOk result (λ _. text.new.items ≡ text.old.items ++ fault_text fault) }
{
    match fault {
        LineFault::TooLong => put_number(text, b": it has more than ", LINE_BYTES, b" bytes"),
        LineFault::Word { place, why } => put_bad_word(text, place, why),
        LineFault::Missing { place, part } => put_missing(text, place, part),
        LineFault::Extra { place } => put_extra(text, place),
    }
}

/// The line that explains why a line of a script is bad.
pub fn bad_line_text(alloc: Global, bad: BadLine) -> Result<Vec<u8>, AllocError>
    ensures text { IfOk result (λ text. text.items ≡ bad_line_text bad.number bad.fault) }
{
    let mut text = Vec::new(alloc);
    put_count(&mut text, b"line ", bad.number)?;
    put_fault(&mut text, bad.fault)?;
    put(&mut text, b"\n")?;
    Ok(text)
}
