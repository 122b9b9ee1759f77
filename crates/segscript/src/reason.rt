//! Why a line is bad: its first fault.
ghost use Rattle.std.specs.Prelude.{◌≡◌, ◌<◌, map, length};
ghost use Rattle.std.specs.Char.{is_ascii_digit};
ghost use Rattle.std.specs.List.{list_all};
ghost use Rattle.segscript.specs.Reasons.{is_word_byte, are_no_digits};
ghost use Rattle.segscript.specs.Reasons.{or_else, number_fault, below_fault};
ghost use Rattle.segscript.specs.Reasons.{ReturnsNumber, bytes_fault, part_fault, command_fault};
ghost use Rattle.segscript.specs.Reasons.{word_fault, words_fault, line_fault, extra_fault};
ghost use Rattle.segscript.specs.Spelling.{commands, line_parts, named_among};

use crate::limits::LINE_BYTES;
use crate::line::{parts_of, parts_of_line, verb_of};
use crate::word::{has_leading_zero, number};
use segword::{KEY_BYTES, VALUE_BYTES};

/// What a word of a line is to be.
#[derive(Clone, Copy, Debug, PartialEq, Eq)]
pub enum Part {
    Pass,
    Command,
    Segment,
    Deadline,
    Cutoff,
    Key,
    Value,
    Version,
    Moment,
}

/// What is wrong with a word.
#[derive(Clone, Copy, Debug, PartialEq, Eq)]
pub enum WordFault {
    /// Two spaces follow each other, or one stands at an end of the line.
    Empty,
    /// It doesn't begin with `p`.
    NotPass,
    /// There is no pass of this number.
    NoPass,
    /// No command has this name.
    NoCommand,
    /// A key of so many bytes is too long.
    LongKey(usize),
    /// A value of so many bytes is too long.
    LongValue(usize),
    /// One of its bytes isn't printable.
    NotPrintable,
    /// A moment doesn't begin with `@`.
    NoAt,
    /// It isn't written in decimal digits.
    NoNumber,
    LeadingZero,
    /// The number is over 4294967295.
    LargeNumber,
    /// The cutoff is over 255.
    LargeCutoff,
}

/// The first fault of a line. Words are counted from 1.
#[derive(Clone, Copy, Debug, PartialEq, Eq)]
pub enum LineFault {
    /// The line has more than `LINE_BYTES` bytes.
    TooLong,
    /// This word is bad.
    Word { place: usize, why: WordFault },
    /// The line ends before this word.
    Missing { place: usize, part: Part },
    /// No word is to stand here.
    Extra { place: usize },
}

fn are_digits(word: &[u8]) -> bool
    ensures { result ≡ list_all is_ascii_digit word.now }
{
    word.iter().all(|byte| byte.is_ascii_digit())
}

fn are_no_digits(word: &[u8]) -> bool
    ensures { result ≡ are_no_digits word.now }
{
    word.is_empty() || !are_digits(word)
}

fn are_printable(word: &[u8]) -> bool
    ensures { result ≡ list_all is_word_byte word.now }
{
    word.iter().all(|byte| 32 < *byte && *byte < 127)
}

// The number that the digits write, or their fault.
fn number_of(digits: &[u8]) -> Result<u32, WordFault>
    ensures { ReturnsNumber digits.now result }
{
    if are_no_digits(digits) {
        return Err(WordFault::NoNumber);
    }
    if has_leading_zero(digits) {
        return Err(WordFault::LeadingZero);
    }
    match number(digits) {
        Some(number) => Ok(number),
        None => Err(WordFault::LargeNumber),
    }
}

fn number_fault(digits: &[u8]) -> Option<WordFault>
    ensures { result ≡ number_fault digits.now }
{
    match number_of(digits) {
        Ok(_) => None,
        Err(why) => Some(why),
    }
}

// The fault of digits that are to write a number below this limit.
fn below_fault(digits: &[u8], limit: u32, large: WordFault) -> Option<WordFault>
    ensures { result ≡ or_else (number_fault digits.now) (below_fault limit large digits.now) }
{
    match number_of(digits) {
        Ok(number) if number < limit => None,
        Ok(_) => Some(large),
        Err(why) => Some(why),
    }
}

// The fault of a word that is to have at most so many bytes.
fn bytes_fault(word: &[u8], most: usize, long: WordFault) -> Option<WordFault>
    ensures { result ≡ bytes_fault most long word.now }
{
    if word.len() > most {
        Some(long)
    } else if are_printable(word) {
        None
    } else {
        Some(WordFault::NotPrintable)
    }
}

fn pass_fault(word: &[u8], passes: u32) -> Option<WordFault>
    requires { 0 < length word.now }
    ensures { result ≡ part_fault passes Part.Pass word.now }
{
    if word[0] != b'p' {
        return Some(WordFault::NotPass);
    }
    below_fault(&word[1..], passes, WordFault::NoPass)
}

fn command_fault(word: &[u8]) -> Option<WordFault>
    ensures { result ≡ command_fault (named_among commands word.now) }
{
    match verb_of(word) {
        Some(_) => None,
        None => Some(WordFault::NoCommand),
    }
}

fn moment_fault(word: &[u8]) -> Option<WordFault>
    requires { 0 < length word.now }
    ensures { result ≡ part_fault 0 Part.Moment word.now }
{
    if word[0] != b'@' {
        return Some(WordFault::NoAt);
    }
    number_fault(&word[1..])
}

// The fault of a word that is to be this part of a line, for so many passes.
fn word_fault(word: &[u8], part: Part, passes: u32) -> Option<WordFault>
    ensures { result ≡ word_fault passes part word.now }
{
    if word.is_empty() {
        return Some(WordFault::Empty);
    }
    match part {
        Part::Pass => pass_fault(word, passes),
        Part::Command => command_fault(word),
        Part::Cutoff => below_fault(word, 256, WordFault::LargeCutoff),
        Part::Key => bytes_fault(word, KEY_BYTES, WordFault::LongKey(word.len())),
        Part::Value => bytes_fault(word, VALUE_BYTES, WordFault::LongValue(word.len())),
        Part::Moment => moment_fault(word),
        Part::Segment | Part::Deadline | Part::Version => number_fault(word),
    }
}

// The parts that a line with these words is to have.
fn line_parts(words: &[&[u8]]) -> &'static [Part]
    ensures { result.now ≡ line_parts (map (λ word. word.now) words.now) }
{
    if words.len() < 2 {
        return parts_of_line(None);
    }
    parts_of_line(verb_of(words[1]))
}

// The first fault of words that are to be these parts.
fn words_fault(words: &[&[u8]], parts: &[Part], passes: u32) -> Option<LineFault>
    ensures { result ≡ words_fault passes 1 parts.now (map (λ word. word.now) words.now) }
{
    for (i, part) in parts.iter().enumerate() {
        if i >= words.len() {
            return Some(LineFault::Missing {
                place: i + 1,
                part: *part,
            });
        }
        if let Some(why) = word_fault(words[i], *part, passes) {
            return Some(LineFault::Word { place: i + 1, why });
        }
    }
    if words.len() > parts.len() {
        return Some(extra_fault(words[parts.len()], parts.len() + 1));
    }
    None
}

// The fault of a word behind the last part.
fn extra_fault(word: &[u8], place: usize) -> LineFault
    ensures { result ≡ extra_fault place word.now }
{
    if word.is_empty() {
        LineFault::Word {
            place,
            why: WordFault::Empty,
        }
    } else {
        LineFault::Extra { place }
    }
}

/// The first fault of a line, for so many passes.
/// Exactly a bad line has one (`bad_lines_have_a_fault`).
pub fn line_fault(line: &[u8], passes: u32) -> Option<LineFault>
    ensures { result ≡ line_fault passes line.now }
{
    if line.len() > LINE_BYTES {
        return Some(LineFault::TooLong);
    }
    if line.is_empty() {
        return None;
    }
    let Some(words) = parts_of(line) else {
        return Some(LineFault::Extra { place: 8 });
    };
    words_fault(words.as_slice(), line_parts(words.as_slice()), passes)
}
