//! Lines of scripts: the turn that a line says, and the line of its reply.
ghost use Rattle.std.specs.Prelude.{◌≡◌, ◌<◌, ◌≤◌, ◌==◌, ◌+◌, ◌++◌, ◌∷◌, [], length, map};
ghost use Rattle.std.specs.Prelude.{codes, decimal, IfSome, IfNone};
ghost use Rattle.std.specs.List.{slice_split};
ghost use Rattle.arrayvec.specs.ArrayVec.{array_vec_len};
ghost use Rattle.segscript.specs.Reading.{ReadsAs};
ghost use Rattle.segscript.specs.Spelling.{AreFour, AreNumbers, IsCutoff, IsKeyWord, IsNumber};
ghost use Rattle.segscript.specs.Spelling.{IsPair, IsSayable, IsTriple, IsTurnOf, IsVerb};
ghost use Rattle.segscript.specs.Spelling.{arguments_of, four_words, line_words, number_words};
ghost use Rattle.segscript.specs.Spelling.{pair_words, parts_behind, spelling, triple_words};
ghost use Rattle.segscript.specs.Spelling.{value_word, verb_word};
ghost use Rattle.segscript.specs.Spelling.{reply, answer_reply, write_reply, delete_reply};
ghost use Rattle.segscript.specs.Spelling.{get_reply, gets_reply, evict_reply, keep_reply};
ghost use Rattle.segscript.specs.Spelling.{refill_reply, value_reply};

use crate::limits::REPLY_BYTES;
use crate::reason::Part;
use crate::text::{Line, line_of, put, put_number};
use crate::word::{frequency, key, moment, number, pass, value};
use arrayvec::ArrayVec;
use segmodel::{
    Answer, Command, DeleteAnswer, EvictAnswer, GetAnswer, GetsAnswer, KeepAnswer, Outcome,
    RefillAnswer, Request, Turn, WriteAnswer,
};
use segword::{Key, VALUE_BYTES, Value};

/// The command of a line.
#[derive(Clone, Copy, Debug, PartialEq, Eq)]
pub enum Verb {
    Refill,
    Evict,
    Keep,
    Set,
    Add,
    Replace,
    Cas,
    Delete,
    Get,
    Gets,
    Hold,
    Held,
    Release,
    Lock,
    Unlock,
}

/// The command with this word.
pub fn verb_of(word: &[u8]) -> Option<Verb>
    ensures { ReadsAs IsVerb verb_word word.now result }
{
    if word == b"refill".as_slice() {
        Some(Verb::Refill)
    } else if word == b"evict".as_slice() {
        Some(Verb::Evict)
    } else if word == b"keep".as_slice() {
        Some(Verb::Keep)
    } else if word == b"set".as_slice() {
        Some(Verb::Set)
    } else if word == b"add".as_slice() {
        Some(Verb::Add)
    } else if word == b"replace".as_slice() {
        Some(Verb::Replace)
    } else if word == b"cas".as_slice() {
        Some(Verb::Cas)
    } else if word == b"delete".as_slice() {
        Some(Verb::Delete)
    } else if word == b"get".as_slice() {
        Some(Verb::Get)
    } else if word == b"gets".as_slice() {
        Some(Verb::Gets)
    } else if word == b"hold".as_slice() {
        Some(Verb::Hold)
    } else if word == b"held".as_slice() {
        Some(Verb::Held)
    } else if word == b"release".as_slice() {
        Some(Verb::Release)
    } else if word == b"lock".as_slice() {
        Some(Verb::Lock)
    } else if word == b"unlock".as_slice() {
        Some(Verb::Unlock)
    } else {
        None
    }
}

// The parts of a line of this command.
pub(crate) fn parts_of_line(verb: Option<Verb>) -> &'static [Part]
    ensures { result.now ≡ Part.Pass ∷ Part.Command ∷ parts_behind verb }
{
    use Part::{Command, Cutoff, Deadline, Key, Moment, Pass, Segment, Value, Version};

    let Some(verb) = verb else {
        return &[Pass, Command];
    };
    match verb {
        Verb::Refill => &[Pass, Command, Segment, Deadline],
        Verb::Evict => &[Pass, Command, Segment],
        Verb::Keep => &[Pass, Command, Segment, Cutoff],
        Verb::Set | Verb::Add | Verb::Replace => &[Pass, Command, Key, Value, Moment],
        Verb::Cas => &[Pass, Command, Key, Value, Version, Moment],
        Verb::Delete | Verb::Get | Verb::Gets | Verb::Hold => &[Pass, Command, Key, Moment],
        Verb::Lock => &[Pass, Command, Key],
        Verb::Held | Verb::Release | Verb::Unlock => &[Pass, Command],
    }
}

// The parts of a line between its spaces, if it has no more than 7.
pub(crate) fn parts_of(line: &[u8]) -> Option<ArrayVec<&[u8], 7>>
    ensures some { IfSome result (λ parts.
        map (λ part. part.now) parts.items ≡ slice_split (λ byte. byte == 32) line.now) }
    ensures none { IfNone result (7 < length (slice_split (λ byte. byte == 32) line.now)) }
{
    let mut parts = ArrayVec::new();
    let mut start = 0;
    for (i, byte) in line.iter().enumerate() {
        if *byte == b' ' {
            if parts.is_full() {
                return None;
            }
            parts.push(&line[start..i]);
            start = i + 1;
        }
    }
    if parts.is_full() {
        return None;
    }
    parts.push(&line[start..]);
    Some(parts)
}

fn one_number(words: &[&[u8]]) -> Option<u32>
    ensures { ReadsAs IsNumber (λ n. decimal n ∷ []) (map (λ word. word.now) words.now) result }
{
    match words {
        [word] => number(word),
        _ => None,
    }
}

fn two_numbers(words: &[&[u8]]) -> Option<(u32, u32)>
    ensures { ReadsAs AreNumbers number_words (map (λ word. word.now) words.now) result }
{
    match words {
        [first, second] => {
            let first = number(first)?;
            let second = number(second)?;
            Some((first, second))
        }
        _ => None,
    }
}

fn segment_and_cutoff(words: &[&[u8]]) -> Option<(u32, u8)>
    ensures { ReadsAs IsCutoff number_words (map (λ word. word.now) words.now) result }
{
    match words {
        [segment, cutoff] => {
            let segment = number(segment)?;
            let cutoff = frequency(cutoff)?;
            Some((segment, cutoff))
        }
        _ => None,
    }
}

fn one_key(words: &[&[u8]]) -> Option<Key>
    ensures { ReadsAs IsKeyWord (λ key. key ∷ []) (map (λ word. word.now) words.now) result }
{
    match words {
        [word] => key(word),
        _ => None,
    }
}

fn key_and_moment(words: &[&[u8]]) -> Option<(Key, u32)>
    ensures { ReadsAs IsPair pair_words (map (λ word. word.now) words.now) result }
{
    match words {
        [first, second] => {
            let key = key(first)?;
            let now = moment(second)?;
            Some((key, now))
        }
        _ => None,
    }
}

fn key_value_moment(words: &[&[u8]]) -> Option<(Key, Value, u32)>
    ensures { ReadsAs IsTriple triple_words (map (λ word. word.now) words.now) result }
{
    match words {
        [first, second, third] => {
            let key = key(first)?;
            let value = value(second)?;
            let now = moment(third)?;
            Some((key, value, now))
        }
        _ => None,
    }
}

fn key_value_number_moment(words: &[&[u8]]) -> Option<(Key, Value, u32, u32)>
    ensures { ReadsAs AreFour four_words (map (λ word. word.now) words.now) result }
{
    match words {
        [first, second, third, fourth] => {
            let key = key(first)?;
            let value = value(second)?;
            let number = number(third)?;
            let now = moment(fourth)?;
            Some((key, value, number, now))
        }
        _ => None,
    }
}

// The turn of a command with these words behind it.
fn turn_of(verb: Verb, words: &[&[u8]]) -> Option<Turn>
    ensures { ReadsAs (IsTurnOf verb) arguments_of (map (λ word. word.now) words.now) result }
{
    match verb {
        Verb::Refill => {
            let (segment, deadline) = two_numbers(words)?;
            Some(Turn::Serve(Command::Refill(segment, deadline)))
        }
        Verb::Evict => Some(Turn::Serve(Command::Evict(one_number(words)?))),
        Verb::Keep => {
            let (segment, cutoff) = segment_and_cutoff(words)?;
            Some(Turn::Serve(Command::Keep(segment, cutoff)))
        }
        Verb::Set => {
            let (key, value, now) = key_value_moment(words)?;
            Some(Turn::Serve(Command::Write(Request::Set(key, value, now))))
        }
        Verb::Add => {
            let (key, value, now) = key_value_moment(words)?;
            Some(Turn::Serve(Command::Write(Request::Add(key, value, now))))
        }
        Verb::Replace => {
            let (key, value, now) = key_value_moment(words)?;
            Some(Turn::Serve(Command::Write(Request::Replace(key, value, now))))
        }
        Verb::Cas => {
            let (key, value, expected, now) = key_value_number_moment(words)?;
            Some(Turn::Serve(Command::Write(Request::Cas(key, value, expected, now))))
        }
        Verb::Delete => {
            let (key, now) = key_and_moment(words)?;
            Some(Turn::Serve(Command::Write(Request::Delete(key, now))))
        }
        Verb::Get => {
            let (key, now) = key_and_moment(words)?;
            Some(Turn::Serve(Command::Get(key, now)))
        }
        Verb::Gets => {
            let (key, now) = key_and_moment(words)?;
            Some(Turn::Serve(Command::Gets(key, now)))
        }
        Verb::Hold => {
            let (key, now) = key_and_moment(words)?;
            Some(Turn::Hold(key, now))
        }
        Verb::Held if words.is_empty() => Some(Turn::Held),
        Verb::Release if words.is_empty() => Some(Turn::Release),
        Verb::Lock => Some(Turn::Lock(one_key(words)?)),
        Verb::Unlock if words.is_empty() => Some(Turn::Unlock),
        Verb::Held | Verb::Release | Verb::Unlock => None,
    }
}

// The pass and the turn of a line with these words.
fn said_by(words: &[&[u8]], passes: u32) -> Option<(u32, Turn)>
    ensures { ReadsAs (IsSayable passes) line_words (map (λ word. word.now) words.now) result }
{
    if words.len() < 2 {
        return None;
    }
    let pass = pass(words[0], passes)?;
    let verb = verb_of(words[1])?;
    let turn = turn_of(verb, &words[2..])?;
    Some((pass, turn))
}

/// The pass and the turn that a line spells, if it spells them.
pub fn read_line(line: &[u8], passes: u32) -> Option<(u32, Turn)>
    ensures { ReadsAs (IsSayable passes) spelling line.now result }
{
    let parts = parts_of(line)?;
    said_by(parts.as_slice(), passes)
}

/// A reply: at most `VALUE`, a value of `VALUE_BYTES` bytes and a number of ten digits.
pub type ReplyLine = Line;

/// The line of an outcome.
pub fn reply_of(outcome: &Outcome) -> ReplyLine
    ensures { result.items ≡ reply outcome.now }
{
    match outcome {
        Outcome::Answered(answer) => answer_reply(answer),
        Outcome::Value(value) => value_reply(value),
        Outcome::Holding => line_of(b"HOLDING\n"),
        Outcome::Miss => line_of(b"MISS\n"),
        Outcome::Busy => line_of(b"BUSY\n"),
        Outcome::AlreadyHolding => line_of(b"ALREADY_HOLDING\n"),
        Outcome::NotHolding => line_of(b"NOT_HOLDING\n"),
        Outcome::Released => line_of(b"RELEASED\n"),
        Outcome::Locked => line_of(b"LOCKED\n"),
        Outcome::AlreadyLocked => line_of(b"ALREADY_LOCKED\n"),
        Outcome::Unlocked => line_of(b"UNLOCKED\n"),
        Outcome::NotLocked => line_of(b"NOT_LOCKED\n"),
    }
}

fn answer_reply(answer: &Answer) -> ReplyLine
    ensures { result.items ≡ answer_reply answer.now }
{
    match answer {
        Answer::Write(answer) => line_of(write_line(*answer)),
        Answer::Delete(answer) => line_of(delete_line(*answer)),
        Answer::Get(answer) => get_reply(answer),
        Answer::Gets(answer) => gets_reply(answer),
        Answer::Evict(answer) => evict_reply(*answer),
        Answer::Keep(answer) => keep_reply(*answer),
        Answer::Refill(answer) => line_of(refill_line(*answer)),
    }
}

fn write_line(answer: WriteAnswer) -> &'static [u8]
    ensures text { result.now ≡ write_reply answer }
    ensures short { length result.now ≤ REPLY_BYTES }
{
    match answer {
        WriteAnswer::Stored => b"STORED\n",
        WriteAnswer::NotStored => b"NOT_STORED\n",
        WriteAnswer::Exists => b"EXISTS\n",
        WriteAnswer::NotFound => b"NOT_FOUND\n",
        WriteAnswer::NoRoom => b"NOROOM\n",
        WriteAnswer::BucketFull => b"BUCKETFULL\n",
        WriteAnswer::Busy => b"BUSY\n",
    }
}

fn delete_line(answer: DeleteAnswer) -> &'static [u8]
    ensures text { result.now ≡ delete_reply answer }
    ensures short { length result.now ≤ REPLY_BYTES }
{
    match answer {
        DeleteAnswer::Deleted => b"DELETED\n",
        DeleteAnswer::NotFound => b"NOT_FOUND\n",
        DeleteAnswer::Busy => b"BUSY\n",
    }
}

fn refill_line(answer: RefillAnswer) -> &'static [u8]
    ensures text { result.now ≡ refill_reply answer }
    ensures short { length result.now ≤ REPLY_BYTES }
{
    match answer {
        RefillAnswer::Refilled => b"REFILLED\n",
        RefillAnswer::NotYours => b"NOT_YOURS\n",
        RefillAnswer::NotEvicted => b"NOT_EVICTED\n",
        RefillAnswer::Held => b"HELD\n",
    }
}

fn get_reply(answer: &GetAnswer) -> ReplyLine
    ensures { result.items ≡ get_reply answer.now }
{
    match answer {
        GetAnswer::Found(value) => value_reply(value),
        GetAnswer::Miss => line_of(b"MISS\n"),
        GetAnswer::Busy => line_of(b"BUSY\n"),
    }
}

fn gets_reply(answer: &GetsAnswer) -> ReplyLine
    ensures { result.items ≡ gets_reply answer.now }
{
    match answer {
        GetsAnswer::Found(value, version) => {
            let mut text = line_of(b"VALUE ");
            put_value(&mut text, value);
            put(&mut text, b" ");
            put_number(&mut text, *version);
            put(&mut text, b"\n");
            text
        }
        GetsAnswer::Miss => line_of(b"MISS\n"),
        GetsAnswer::Busy => line_of(b"BUSY\n"),
    }
}

fn evict_reply(answer: EvictAnswer) -> ReplyLine
    ensures { result.items ≡ evict_reply answer }
{
    match answer {
        EvictAnswer::Evicted(count) => counted(b"EVICTED ", count),
        EvictAnswer::NotYours => line_of(b"NOT_YOURS\n"),
        EvictAnswer::Busy(count) => counted(b"BUSY ", count),
    }
}

fn keep_reply(answer: KeepAnswer) -> ReplyLine
    ensures { result.items ≡ keep_reply answer }
{
    match answer {
        KeepAnswer::Kept(count) => counted(b"KEPT ", count),
        KeepAnswer::NotYours => line_of(b"NOT_YOURS\n"),
        KeepAnswer::NoRoom(count) => counted(b"NOROOM ", count),
        KeepAnswer::Busy(count) => counted(b"BUSY ", count),
    }
}

// The line of a value.
fn value_reply(value: &Value) -> ReplyLine
    ensures { result.items ≡ value_reply value.now }
{
    let mut text = line_of(b"VALUE ");
    put_value(&mut text, value);
    put(&mut text, b"\n");
    text
}

// The line of a word and a number.
fn counted(word: &[u8], count: u32) -> ReplyLine
    requires { length word.now ≤ 40 }
    ensures { result.items ≡ word.now ++ decimal count ++ codes "\n" }
{
    let mut text = line_of(word);
    put_number(&mut text, count);
    put(&mut text, b"\n");
    text
}

fn put_value(text: &mut ReplyLine, value: &Value)
    requires { array_vec_len text.old ≤ 32 }
    ensures text { text.new.items ≡ text.old.items ++ value_word value.now }
    ensures room { array_vec_len text.new ≤ array_vec_len text.old + VALUE_BYTES }
{
    if value.as_bytes().is_empty() {
        put(text, b"-");
    } else {
        put(text, value.as_bytes());
    }
}
