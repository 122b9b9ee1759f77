//! Explains a word of the table, written in hexadecimal digits.
ghost use Rattle.std.specs.Prelude.{◌≡◌, ◌<◌, Some, IfSome};
ghost use Rattle.std.specs.Str.Parse.{digits_value};
ghost use Rattle.segword.specs.declared.reading.Reading.{Reading};
ghost use Rattle.segcli.specs.declared.explanation.Meaning.{Meaning};
ghost use Rattle.segcli.specs.Explained.{IsHexWord, Means, SpellsWord, explanation, information_line};
ghost use Rattle.segcli.specs.Explained.{reading_line, segment_line, tag_digits};

use segscript::{Line, line_of, put, put_number};
use segtasks::WordKind;
use segword::{Info, Item, Reading, SegmentWord};

const DIGITS: [u8; 16] = *b"0123456789abcdef";

/// What a word of the table holds.
#[derive(Clone, Copy, Debug, PartialEq, Eq)]
pub enum Meaning {
    /// A word 1 to 7 of a bucket.
    Item(Reading),
    /// The first word of a bucket.
    Information(Info),
    /// The word of a segment.
    Segment(SegmentWord),
}

// The word of exactly 16 hexadecimal digits, of either case.
fn word_of(text: &str) -> Option<u64>
    ensures some { IfSome result (λ word. IsHexWord text.now × (word ≡ digits_value 16 text.now)) }
    ensures all { IsHexWord text.now → result ≡ Some (digits_value 16 text.now) }
{
    if text.len() != 16 || text.as_bytes()[0] == b'+' {
        return None;
    }
    u64::from_str_radix(text, 16).ok()
}

// What a word of this kind holds.
fn unpack(kind: WordKind, word: u64) -> Option<Meaning>
    ensures some { IfSome result (Means kind word) }
    ensures all { (meaning : Meaning) → Means kind word meaning → result ≡ Some meaning }
{
    match kind {
        WordKind::Item => Some(Meaning::Item(Reading::unpack(word)?)),
        WordKind::Information => Some(Meaning::Information(Info::unpack(word)?)),
        WordKind::Segment => Some(Meaning::Segment(SegmentWord::unpack(word))),
    }
}

/// The meaning of the word of this kind that the text writes in 16 hexadecimal digits.
/// It is `None` if the text isn't 16 such digits, or if no word of this kind is the one that it writes.
pub fn meaning_of(kind: WordKind, text: &str) -> Option<Meaning>
    ensures some { IfSome result (SpellsWord kind text.now) }
    ensures all { (meaning : Meaning) → SpellsWord kind text.now meaning
        → result ≡ Some meaning }
{
    unpack(kind, word_of(text)?)
}

/// The line that explains a meaning.
pub fn explain(meaning: Meaning) -> Line
    ensures { result.items ≡ explanation meaning }
{
    match meaning {
        Meaning::Item(reading) => explain_reading(reading),
        Meaning::Information(info) => explain_information(info),
        Meaning::Segment(word) => explain_segment(word),
    }
}

fn explain_reading(reading: Reading) -> Line
    ensures { result.items ≡ reading_line reading }
{
    match reading {
        Reading::Empty => line_of(b"empty\n"),
        Reading::Item(item) => explain_item(item),
        Reading::Chain(number) => {
            let mut text = line_of(b"chain ");
            put_number(&mut text, number);
            put(&mut text, b"\n");
            text
        }
    }
}

fn explain_item(item: Item) -> Line
    ensures { result.items ≡ reading_line (Reading.Item item) }
{
    let mut text = line_of(b"item tag=");
    put(&mut text, &tag_text(item.tag));
    put(&mut text, b" freq=");
    put_number(&mut text, item.freq);
    put(&mut text, b" seg=");
    put_number(&mut text, item.seg);
    put(&mut text, b" row=");
    put_number(&mut text, item.row);
    put(&mut text, b"\n");
    text
}

fn explain_information(info: Info) -> Line
    ensures { result.items ≡ information_line info }
{
    let mut text = line_of(b"information version=");
    put_number(&mut text, info.version);
    put(&mut text, if info.held { b" bit=1\n" } else { b" bit=0\n" });
    text
}

fn explain_segment(word: SegmentWord) -> Line
    ensures { result.items ≡ segment_line word }
{
    let mut text = line_of(b"segment deadline=");
    put_number(&mut text, word.deadline);
    put(&mut text, b" readers=");
    put_number(&mut text, word.readers);
    put(&mut text, b"\n");
    text
}

// Three lower-case hexadecimal digits.
fn tag_text(tag: u16) -> [u8; 3]
    requires { tag < 4096 }
    ensures { result ≡ tag_digits tag }
{
    let tag = usize::from(tag);
    [DIGITS[tag / 256], DIGITS[tag / 16 % 16], DIGITS[tag % 16]]
}
