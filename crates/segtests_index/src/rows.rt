//! Rows of calls, each a line of a script with the reply that is wanted:
//! a test of one thread is a table. They are texts, since a row of enums costs ten times the proof.
ghost use Rattle.segindex.specs.Words.{board_of};
ghost use Rattle.segstore.specs.Words.{IsQuiet};

use crate::calls::{lock, probe, serve, unlock};
use crate::commands::is_reply;
use crate::holds::{hold_over_a_set, hold_over_an_eviction};
use segindex::{Index, LockAnswer, Pass};
use segmodel::{Answer, EvictAnswer, Turn};
use segscript::read_line;
use segword::{Key, Value};

/// A row: a script's line, as "p0 set a 1 @0", and its reply, as "STORED".
///
/// Beside the lines of a script there are the calls "set_held" and "evict_held": the key is held,
/// this value is set or this segment evicted, and the answer has what the hold reads then.
/// A "probe" has both of its answers, as "STORED VALUE 1".
pub type Row<'t> = (&'t str, &'t str);

/// The call of the first row that has another answer, or that is no call.
pub fn first_wrong<'t>(
    index: &Index,
    first: &mut Pass,
    second: &mut Pass,
    rows: &[Row<'t>],
) -> Option<&'t str>
    requires { IsQuiet (board_of index.now) first.old × IsQuiet (board_of index.now) second.old }
    ensures { IsQuiet (board_of index.now) first.new × IsQuiet (board_of index.now) second.new }
{
    for &(text, wanted) in rows {
        if !is_right(index, first, second, text, wanted) {
            return Some(text);
        }
    }
    None
}

/// The first line of a script that has another answer, or that is no call.
/// A line has a call and its answer, as "p0 set a 1 @0 -> STORED".
/// Empty lines and comments are passed over.
pub fn first_wrong_line<'t>(
    index: &Index,
    first: &mut Pass,
    second: &mut Pass,
    script: &'t str,
) -> Option<&'t str>
    requires { IsQuiet (board_of index.now) first.old × IsQuiet (board_of index.now) second.old }
    ensures { IsQuiet (board_of index.now) first.new × IsQuiet (board_of index.now) second.new }
{
    for line in script.lines() {
        let is_well = match row_of(line) {
            Some((text, wanted)) => is_right(index, first, second, text, wanted),
            None => true,
        };
        if !is_well {
            return Some(line);
        }
    }
    None
}

// The row of a line, if it is neither empty nor a comment.
// A line with no answer is a row that is wrong.
fn row_of(line: &str) -> Option<Row<'_>> {
    let line = line.trim();
    if line.is_empty() || line.starts_with("//") {
        return None;
    }
    Some(line.split_once(" -> ").unwrap_or(("", "")))
}

// No line of a row names a pass from this number on.
const PASSES: u32 = 8;

// Whether a row has the answer that it wants.
fn is_right(index: &Index, first: &mut Pass, second: &mut Pass, text: &str, wanted: &str) -> bool
    requires { IsQuiet (board_of index.now) first.old × IsQuiet (board_of index.now) second.old }
    ensures { IsQuiet (board_of index.now) first.new × IsQuiet (board_of index.now) second.new }
{
    if text.starts_with("p0 ") {
        return is_answered(index, first, text, wanted);
    }
    text.starts_with("p1 ") && is_answered(index, second, text, wanted)
}

// Whether the pass answers the call so.
fn is_answered(index: &Index, pass: &mut Pass, text: &str, wanted: &str) -> bool
    requires { IsQuiet (board_of index.now) pass.old }
    ensures { IsQuiet (board_of index.now) pass.new }
{
    match read_line(text.as_bytes(), PASSES) {
        Some((_, turn)) => is_replied(index, pass, &turn, wanted),
        None => is_told(index, pass, call_of(text), wanted),
    }
}

// Whether the pass has this reply to a turn. Holds have calls of their own.
fn is_replied(index: &Index, pass: &mut Pass, turn: &Turn, wanted: &str) -> bool
    requires { IsQuiet (board_of index.now) pass.old }
    ensures { IsQuiet (board_of index.now) pass.new }
{
    match turn {
        Turn::Serve(command) => {
            let answer = serve(index, pass, command);
            is_reply(wanted, answer)
        }
        Turn::Lock(key) => locked(lock(index, pass, key)) == wanted,
        Turn::Unlock => unlocked(unlock(index, pass)) == wanted,
        Turn::Hold(..) | Turn::Held | Turn::Release => false,
    }
}

// The words of a call that is no line of a script.
// A word that isn't there is empty, and so it is no key, no value and no number.
#[derive(Clone, Copy)]
struct Call<'t> {
    name: &'t str,
    first: &'t str,
    second: &'t str,
    moment: &'t str,
}

fn call_of(text: &str) -> Call<'_> {
    let (front, moment) = text.split_once('@').unwrap_or((text, ""));
    let mut words = front.split(' ').skip(1);
    Call {
        name: words.next().unwrap_or(""),
        first: words.next().unwrap_or(""),
        second: words.next().unwrap_or(""),
        moment,
    }
}

// Whether a call that is no line of a script is answered so.
fn is_told(index: &Index, pass: &mut Pass, call: Call<'_>, wanted: &str) -> bool
    requires { IsQuiet (board_of index.now) pass.old }
    ensures { IsQuiet (board_of index.now) pass.new }
{
    let (Some(key), Ok(now)) = (Key::new(call.first.as_bytes()), call.moment.parse()) else {
        return false;
    };
    if call.name == "evict_held" {
        return match call.second.parse() {
            Ok(segment) => is_held_over(
                wanted,
                &hold_over_an_eviction(index, pass, &key, segment, now),
            ),
            Err(_) => false,
        };
    }
    let Some(value) = Value::new(call.second.as_bytes()) else {
        return false;
    };
    match call.name {
        "probe" => {
            let (told, read) = probe(index, pass, &key, &value, now);
            match wanted.split_once(' ') {
                Some((first, second)) => {
                    is_reply(first, Answer::Write(told)) && is_reply(second, Answer::Get(read))
                }
                None => false,
            }
        }
        "set_held" => match hold_over_a_set(index, pass, &key, &value, now) {
            Some(held) => is_value(wanted, &held),
            None => wanted == "NOT_HOLDING",
        },
        _ => false,
    }
}

fn locked(answer: LockAnswer) -> &'static str {
    match answer {
        LockAnswer::Locked => "LOCKED",
        LockAnswer::Busy => "BUSY",
        LockAnswer::AlreadyLocked => "ALREADY_LOCKED",
    }
}

fn unlocked(was_locked: bool) -> &'static str {
    if was_locked { "UNLOCKED" } else { "NOT_LOCKED" }
}

// Whether "VALUE 1 7" is wanted, for the value 1 that was held while 7 keys were evicted.
fn is_held_over(wanted: &str, held: &Option<(Value, EvictAnswer)>) -> bool {
    match held {
        Some((value, EvictAnswer::Evicted(keys))) => is_value_with(wanted, value, *keys),
        Some(_) => false,
        None => wanted == "NOT_HOLDING",
    }
}

// Whether "VALUE 1" is wanted, for the value 1.
fn is_value(wanted: &str, value: &Value) -> bool {
    match wanted.strip_prefix("VALUE ") {
        Some(text) => text.as_bytes() == value.as_bytes(),
        None => false,
    }
}

// Whether "VALUE 1 7" is wanted, for the value 1 and the number 7.
fn is_value_with(wanted: &str, value: &Value, number: u32) -> bool {
    match wanted.rsplit_once(' ') {
        Some((front, last)) => is_value(front, value) && last.parse() == Ok(number),
        None => false,
    }
}
