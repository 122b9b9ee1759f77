//! Reads single words of a line.
ghost use Rattle.std.specs.Prelude.{◌≡◌, ◌↔◌, decimal, IsTrue};
ghost use Rattle.std.specs.List.{AllByRecursion};
ghost use Rattle.segscript.specs.Spelling.{IsNumber, IsFrequency, IsKeyWord, IsValueWord};
ghost use Rattle.segscript.specs.Spelling.{IsPass, IsWordByte, moment_word, pass_word, value_word};
ghost use Rattle.segscript.specs.Reading.{has_leading_zero, ReadsAs};

use segtext::number_below;
use segword::{Key, Value};

/// Whether a zero stands in front of more bytes.
pub(crate) fn has_leading_zero(word: &[u8]) -> bool
    ensures { result ≡ has_leading_zero word.now }
{
    word.len() > 1 && word[0] == b'0'
}

/// A number below 2^32 in decimal digits, with no leading zero but `0` itself.
pub fn number(word: &[u8]) -> Option<u32>
    ensures { ReadsAs IsNumber decimal word.now result }
{
    if has_leading_zero(word) {
        return None;
    }
    let number = number_below(word, 1 << 32)?;
    Some(number as u32)
}

/// A frequency: a number below 256.
pub fn frequency(word: &[u8]) -> Option<u8>
    ensures { ReadsAs IsFrequency decimal word.now result }
{
    let number = number(word)?;
    u8::try_from(number).ok()
}

// Whether each byte may stand in a word.
fn is_plain(bytes: &[u8]) -> bool
    ensures { IsTrue result ↔ AllByRecursion IsWordByte bytes.now }
{
    bytes.iter().all(|byte| 33 <= *byte && *byte <= 126)
}

/// A key: 1 to `KEY_BYTES` bytes, each from 33 to 126.
pub fn key(word: &[u8]) -> Option<Key>
    ensures { ReadsAs IsKeyWord (λ key. key) word.now result }
{
    if is_plain(word) { Key::new(word) } else { None }
}

/// A value: `-` for the empty one, else 1 to `VALUE_BYTES` bytes, each from 33 to 126.
pub fn value(word: &[u8]) -> Option<Value>
    ensures { ReadsAs IsValueWord value_word word.now result }
{
    if word.is_empty() || !is_plain(word) {
        return None;
    }
    if word == b"-".as_slice() {
        return Value::new(b"");
    }
    Value::new(word)
}

/// The moment of a word: `@` and its number.
pub fn moment(word: &[u8]) -> Option<u32>
    ensures { ReadsAs IsNumber moment_word word.now result }
{
    if word.is_empty() || word[0] != b'@' {
        return None;
    }
    number(&word[1..])
}

/// The pass of a word: `p` and its number, which is below the number of passes.
pub fn pass(word: &[u8], passes: u32) -> Option<u32>
    ensures { ReadsAs (IsPass passes) pass_word word.now result }
{
    if word.is_empty() || word[0] != b'p' {
        return None;
    }
    let pass = number(&word[1..])?;
    if pass < passes { Some(pass) } else { None }
}
