//! Reads one word of a trace: an operation, a key, a number, or a moment.
ghost use Rattle.std.specs.Prelude.{◌≡◌, [], ◌∷◌, ◌++◌, ◌==◌, false, All, MatchOption, length};
ghost use Rattle.std.specs.Prelude.{slice_index_or};
ghost use Rattle.std.specs.List.{list_all};
ghost use Rattle.std.specs.Char.{is_ascii_digit};
ghost use Rattle.segtraces.specs.Lines.{field_at, fields_of};
ghost use Rattle.segtraces.specs.Words.{is_change, is_get, is_name, is_set, key_named, lasting};
ghost use Rattle.segtraces.specs.Words.{moment_named, moment_of, number_named, seconds_of, shown};
ghost use Rattle.segtraces.specs.Words.{trimmed, verb_named, whole_named, without_return};

use crate::line::Operation;
use segtext::number_below;
use segword::{KEY_BYTES, Key, hash_of};

/// From this number on a moment is one of milliseconds.
const MILLISECONDS: u64 = 1_000_000_000_000;

/// The whole part of a decimal is below this number.
const WHOLES: u64 = 1 << 60;

// ---- texts

/// A line that ends with a carriage return, without it.
pub(crate) fn without_return(line: &[u8]) -> &[u8]
    ensures { result.now ≡ without_return line.now }
{
    let length = line.len();
    if length > 0 && line[length - 1] == b'\r' {
        return &line[..length - 1];
    }
    line
}

// The text without the white space at its beginning and at its end.
fn trimmed(text: &[u8]) -> &[u8]
    ensures { result.now ≡ trimmed text.now }
{
    text.trim_ascii()
}

// What stands before the first such byte, and what is behind it.
fn cut(text: &[u8], at: u8) -> Option<(&[u8], &[u8])>
    ensures { MatchOption result (All (λ byte. (byte == at) ≡ false) text.now)
        (λ parts. (text.now ≡ parts.0.now ++ at ∷ parts.1.now)
        × All (λ byte. (byte == at) ≡ false) parts.0.now) }
{
    let place = text.iter().position(|byte| *byte == at)?;
    Some((&text[..place], &text[place + 1..]))
}

/// How many fields stand between such bytes.
pub(crate) fn count(text: &[u8], at: u8) -> usize
    ensures { result ≡ length (fields_of at text.now) }
{
    text.iter().filter(|byte| **byte == at).count() + 1
}

// What stands before the first such byte.
fn first(text: &[u8], at: u8) -> &[u8]
    ensures { result.now ≡ slice_index_or (fields_of at text.now) 0 [] }
{
    match cut(text, at) {
        None => text,
        Some((first, _)) => first,
    }
}

/// The field at this place, counted from 0, without the white space around it.
/// It is empty if there are fewer fields.
pub(crate) fn field(text: &[u8], at: u8, place: usize) -> &[u8]
    ensures { result.now ≡ field_at place (fields_of at text.now) }
{
    let mut rest = text;
    for _skipped in 0..place {
        match cut(rest, at) {
            None => return &[],
            Some((_, behind)) => rest = behind,
        }
    }
    trimmed(first(rest, at))
}

// ---- operations

// Whether the text is this name, in any case.
pub(crate) fn is_name(text: &[u8], name: &[u8]) -> bool
    ensures { result ≡ is_name text.now name.now }
{
    text.eq_ignore_ascii_case(name)
}

fn is_get(text: &[u8]) -> bool
    ensures { result ≡ is_get text.now }
{
    is_name(text, b"get") || is_name(text, b"gets")
}

// Whether it is a write that counts as a set.
fn is_set(text: &[u8]) -> bool
    ensures { result ≡ is_set text.now }
{
    is_name(text, b"set")
        || is_name(text, b"put")
        || is_name(text, b"add")
        || is_name(text, b"replace")
        || is_name(text, b"cas")
}

// Whether it is a write of a client to the value that stands.
fn is_change(text: &[u8]) -> bool
    ensures { result ≡ is_change text.now }
{
    is_name(text, b"append")
        || is_name(text, b"prepend")
        || is_name(text, b"incr")
        || is_name(text, b"decr")
}

pub(crate) fn verb_of(text: &[u8]) -> Option<Operation>
    ensures { result ≡ verb_named text.now }
{
    if is_get(text) {
        return Some(Operation::Get);
    }
    if is_set(text) || is_change(text) {
        return Some(Operation::Set);
    }
    if is_name(text, b"delete") {
        return Some(Operation::Delete);
    }
    None
}

// ---- keys

/// The key of a text: its bytes, or those of their hash if they are too many.
pub(crate) fn key_of(text: &[u8]) -> Option<Key>
    ensures { result ≡ key_named text.now }
{
    if text.len() <= KEY_BYTES {
        return Key::new(text);
    }
    Key::new(&hash_of(text).to_be_bytes())
}

// ---- numbers

/// The number below 2^32 of decimal digits.
pub(crate) fn number_of(text: &[u8]) -> Option<u32>
    ensures { result ≡ number_named text.now }
{
    let number = number_below(text, 1 << 32)?;
    Some(number as u32)
}

/// A time to live of 0 stands for none.
pub(crate) fn lasting(time_to_live: Option<u32>) -> Option<u32>
    ensures { result ≡ lasting time_to_live }
{
    match time_to_live {
        Some(0) => Some(u32::MAX),
        other => other,
    }
}

// ---- moments

fn are_digits(text: &[u8]) -> bool
    ensures { result ≡ list_all is_ascii_digit text.now }
{
    text.iter().all(|byte| byte.is_ascii_digit())
}

// The whole part of a decimal.
fn whole_of(text: &[u8]) -> Option<u64>
    ensures { result ≡ whole_named text.now }
{
    match cut(text, b'.') {
        None => number_below(text, WHOLES),
        Some((whole, part)) => {
            if are_digits(part) {
                number_below(whole, WHOLES)
            } else {
                None
            }
        }
    }
}

fn seconds_of(number: u64) -> u64
    ensures { result ≡ seconds_of number }
{
    if number < MILLISECONDS {
        number
    } else {
        number / 1000
    }
}

// The seconds, if the clock can show them.
fn shown(seconds: u64) -> Option<u32>
    ensures { result ≡ shown seconds }
{
    if seconds < 1 << 32 {
        Some(seconds as u32)
    } else {
        None
    }
}

fn moment(number: Option<u64>) -> Option<u32>
    ensures { result ≡ moment_of number }
{
    shown(seconds_of(number?))
}

/// The moment of a decimal: its whole seconds.
pub(crate) fn moment_of(text: &[u8]) -> Option<u32>
    ensures { result ≡ moment_named text.now }
{
    moment(whole_of(text))
}
