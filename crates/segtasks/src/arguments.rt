//! Reads the words of the command line.
ghost use Rattle.std.specs.Prelude.{◌≡◌, ◌⊎◌, string_bytes, map, max, false, None, IfSome, codes, if◌then◌else◌};
ghost use Rattle.std.specs.Int.NonZero.{non_zero_u32_get};
ghost use Rattle.std.specs.Option.{option_map};
ghost use Rattle.clap.specs.Walk.{first_of};
ghost use Rattle.clap.specs.Words.{found_of, kind_of, rows_of};
ghost use Rattle.segtasks.specs.CommandLine.{default_shape, explain_flag, for_keys_option};
ghost use Rattle.segtasks.specs.CommandLine.{format_choice, keys_option, kind_choice};
ghost use Rattle.segtasks.specs.CommandLine.{csv_flag, policy_choice, script_file};
ghost use Rattle.segtasks.specs.Asked.{IsAsked, IsBase, IsCommandName, IsLoadAsked, IsMisnamed};
ghost use Rattle.segtasks.specs.Asked.{IsReadAsCommand, IsReadByClap, IsRefused, IsShapeFor};
ghost use Rattle.segtasks.specs.Asked.{IsShapeGiven};
ghost use Rattle.segtasks.specs.Asked.{IsSized, IsWordAsked, asks_help_twice, format_named, is_given};
ghost use Rattle.segtasks.specs.Asked.{IsReplayAsked, kind_named, number_found, number_given};
ghost use Rattle.segtasks.specs.Asked.{plain_words, policies_named};

use crate::asked::{Format, LoadTask, Policies, Replay, Word, WordKind};
use crate::command_line::program;
use crate::task::Task;
use clap::ArgMatches;
use clap::error::{Error, ErrorKind};
use segtraces::{Form, Retention};
use segword::Shape;
use std::alloc::{AllocError, Global};
use std::num::NonZeroU32;

/// The shape that no option changes: one bucket, one pass, and one segment of eight rows.
pub const SHAPE: Shape = Shape {
    buckets: 1,
    overflow: 0,
    passes: 1,
    segments_each: 1,
    rows: 8,
    first_version: 0,
};

/// The seed of a load, how many commands each of its passes makes, and over how many keys, if no option sets it.
const SEED: u64 = 1;

const COMMANDS: u32 = 1000;

const KEYS: u32 = 64;

/// How many bytes a replay's value has where neither its line nor an option says it.
const VALUE_BYTES: u32 = 32;

/// Why no command was read.
#[derive(Debug, Drop)]
pub enum Refusal {
    /// The words are no command; the text has the reason.
    Usage(String),
    /// The words aren't text.
    BadArguments,
    OutOfMemory,
}

impl From<AllocError> for Refusal {
    ghost use Rattle.segtasks.specs.declared.arguments.Refusal.{Refusal};

    ghost from_gives = { λ _ refusal. refusal ≡ Refusal.OutOfMemory };

    fn from(_error: AllocError) -> Refusal {
        Refusal::OutOfMemory
    }
}

/// Reads the words after the program's name. No words at all are the command `script` without options.
pub fn read_command<'a>(alloc: Global, words: &'a [String]) -> Result<Task<'a>, Refusal>
    ensures { IsReadAsCommand (map (λ word. string_bytes word) words.entry.now) result }
{
    if words.is_empty() {
        return Ok(script_alone());
    }
    read_words(alloc, plain_words(words))
}

// Whether help is asked for of the command `help`.
fn asks_help_twice(words: &[String]) -> bool
    ensures { result ≡ asks_help_twice (map (λ word. string_bytes word) words.now) }
{
    if words.len() != 2 {
        return false;
    }
    let flag = words[1].as_str();
    words[0].as_str() == "help" && (flag == "-h" || flag == "--help")
}

// The words without a second word that asks for help of the command `help`.
fn plain_words<'a>(words: &'a [String]) -> &'a [String]
    ensures { map (λ word. string_bytes word) result.now
        ≡ plain_words (map (λ word. string_bytes word) words.entry.now) }
{
    if asks_help_twice(words) {
        &words[..1]
    } else {
        words
    }
}

// Reads these words by `clap`.
fn read_words<'a>(alloc: Global, words: &'a [String]) -> Result<Task<'a>, Refusal>
    ensures { IsReadByClap (map (λ word. string_bytes word) words.entry.now) result }
{
    match program(alloc)?.try_get_matches_from(words) {
        Ok(matches) => match matches.subcommand() {
            Some((name, matches)) => match command_of(name, matches) {
                Some(command) => Ok(command),
                None => Err(Refusal::Usage(misnamed(alloc, name, matches)?)),
            },
            None => Ok(script_alone()),
        },
        Err(error) => refused(alloc, &error),
    }
}

// The script of standard input, over the default shape.
fn script_alone<'a>() -> Task<'a>
    ensures { result ≡ Task.Script default_shape false None }
{
    Task::Script {
        shape: SHAPE,
        explain: false,
        file: None,
    }
}

// Shows help or the version if they are asked for, and refuses anything else.
fn refused<'a>(alloc: Global, error: &Error) -> Result<Task<'a>, Refusal>
    ensures { IsRefused (kind_of error.now) result }
{
    match error.kind() {
        ErrorKind::OutOfMemory => Err(Refusal::OutOfMemory),
        ErrorKind::DisplayHelp | ErrorKind::DisplayVersion => {
            Ok(Task::Show(format!(in alloc; "{error}")?))
        }
        _ => Err(Refusal::Usage(format!(in alloc; "{error}")?)),
    }
}

// The text for a format or a kind that is none.
fn misnamed(alloc: Global, name: &str, matches: &ArgMatches<'_>) -> Result<String, AllocError> {
    let (option, values) = match name {
        "load" => ("format", "text, json"),
        "replay" if format_of(matches).is_none() => ("format", "text, json"),
        "replay" => ("policy", "default, nothing, cutoff:N, all"),
        _ => ("kind", "item, information, segment"),
    };
    let word = matches.get_str(option).unwrap_or("");
    Ok(format!(in alloc;
        "error: invalid value '{word}' for '--{option} <WORD>'
  [possible values: {values}]

For more information, try '--help'.
"
    )?)
}

// The command of this name. It is `None` if a format or a kind is none.
fn command_of<'a>(name: &str, matches: &ArgMatches<'a>) -> Option<Task<'a>>
    requires { IsCommandName name.now }
    ensures some { IfSome result (IsAsked (name.now, rows_of (found_of matches.now))) }
    ensures none { result ≡ None → IsMisnamed (name.now, rows_of (found_of matches.now)) }
{
    match name {
        "load" => Some(Task::Load(load_of(matches)?)),
        "replay" => Some(Task::Replay(replay_of(matches)?)),
        "word" => Some(Task::Word(word_of(matches)?)),
        _ => Some(script_of(matches)),
    }
}

fn script_of<'a>(matches: &ArgMatches<'a>) -> Task<'a>
    ensures { IsAsked (codes "script", rows_of (found_of matches.now)) result }
{
    Task::Script {
        shape: shape_of(matches),
        explain: explain_of(matches),
        file: file_of(matches),
    }
}

fn load_of(matches: &ArgMatches<'_>) -> Option<LoadTask>
    ensures some { IfSome result (IsLoadAsked (rows_of (found_of matches.now))) }
    ensures none { result ≡ None
        → format_named (first_of format_choice (rows_of (found_of matches.now))) ≡ None }
{
    let format = format_of(matches)?;
    Some(LoadTask {
        shape: shape_of(matches),
        seed: matches.get_one("seed").unwrap_or(SEED),
        commands: matches.get_one("commands").unwrap_or(COMMANDS),
        keys: keys_of(matches),
        format,
        stats: matches.get_one("stats").unwrap_or(false),
        progress: matches.get_one("progress").unwrap_or(false),
        explain: explain_of(matches),
    })
}

fn replay_of<'a>(matches: &ArgMatches<'a>) -> Option<Replay<'a>>
    ensures some { IfSome result (IsReplayAsked (rows_of (found_of matches.now))) }
    ensures none { result ≡ None
        → (format_named (first_of format_choice (rows_of (found_of matches.now))) ≡ None)
        ⊎ (policies_named (first_of policy_choice (rows_of (found_of matches.now))) ≡ None) }
{
    let format = format_of(matches)?;
    let policies = policies_of(matches)?;
    let threads = matches.get_one("threads");
    Some(Replay {
        shape: shape_for(matches, threads.or(matches.get_one("passes"))),
        file: file_of(matches),
        form: form_of(matches),
        value_bytes: matches.get_one("value-bytes").unwrap_or(VALUE_BYTES),
        warm: matches.get_one("warm").unwrap_or(0),
        policies,
        sizes: matches.get_one("sizes").unwrap_or(false),
        format,
        progress: matches.get_one("progress").unwrap_or(false),
        explain: explain_of(matches),
    })
}

// How the lines of a trace are written.
fn form_of(matches: &ArgMatches<'_>) -> Form
    ensures { result ≡ (if is_given csv_flag (rows_of (found_of matches.now))
        then Form.Csv else Form.Plain) }
{
    if matches.get_one("csv").unwrap_or(false) {
        Form::Csv
    } else {
        Form::Plain
    }
}

fn policies_of(matches: &ArgMatches<'_>) -> Option<Policies>
    ensures { result ≡ policies_named (first_of policy_choice (rows_of (found_of matches.now))) }
{
    policies_named(matches.get_str("policy"))
}

fn policies_named(word: Option<&str>) -> Option<Policies>
    ensures { result ≡ policies_named (option_map (λ text. text.now) word.entry) }
{
    match word {
        None => Some(Policies::One(Retention::Default)),
        Some("all") => Some(Policies::All),
        Some(word) => Some(Policies::One(Retention::named(word.as_bytes())?)),
    }
}

fn word_of<'a>(matches: &ArgMatches<'a>) -> Option<Word<'a>>
    ensures some { IfSome result (IsWordAsked (rows_of (found_of matches.now))) }
    ensures none { result ≡ None
        → kind_named (first_of kind_choice (rows_of (found_of matches.now))) ≡ None }
{
    let kind = kind_of_word(matches)?;
    Some(Word {
        text: matches.get_str("HEX").unwrap_or(""),
        kind,
        explain: explain_of(matches),
    })
}

fn format_of(matches: &ArgMatches<'_>) -> Option<Format>
    ensures { result ≡ format_named (first_of format_choice (rows_of (found_of matches.now))) }
{
    format_named(matches.get_str("format"))
}

fn format_named(word: Option<&str>) -> Option<Format>
    ensures { result ≡ format_named (option_map (λ text. text.now) word.entry) }
{
    match word {
        None | Some("text") => Some(Format::Text),
        Some("json") => Some(Format::Json),
        Some(_) => None,
    }
}

fn kind_of_word(matches: &ArgMatches<'_>) -> Option<WordKind>
    ensures { result ≡ kind_named (first_of kind_choice (rows_of (found_of matches.now))) }
{
    kind_named(matches.get_str("kind"))
}

fn kind_named(word: Option<&str>) -> Option<WordKind>
    ensures { result ≡ kind_named (option_map (λ text. text.now) word.entry) }
{
    match word {
        None | Some("item") => Some(WordKind::Item),
        Some("information") => Some(WordKind::Information),
        Some("segment") => Some(WordKind::Segment),
        Some(_) => None,
    }
}

fn explain_of(matches: &ArgMatches<'_>) -> bool
    ensures { result ≡ is_given explain_flag (rows_of (found_of matches.now)) }
{
    matches.get_one("explain").unwrap_or(false)
}

// The file of a script, if one is named.
fn file_of<'a>(matches: &ArgMatches<'a>) -> Option<&'a str>
    ensures { option_map (λ text. text.now) result
        ≡ first_of script_file (rows_of (found_of matches.now)) }
{
    matches.get_str("FILE")
}

// How many keys a load is over: `clap` lets no 0 through.
fn keys_of(matches: &ArgMatches<'_>) -> NonZeroU32
    ensures { non_zero_u32_get result
        ≡ max 1 (number_given keys_option (rows_of (found_of matches.now))) }
{
    NonZeroU32::new(matches.get_one("keys").unwrap_or(KEYS)).unwrap_or(NonZeroU32::MIN)
}

// The shape that the options give. An option that isn't there leaves its part as it is before them.
fn shape_of(matches: &ArgMatches<'_>) -> Shape
    ensures { IsShapeGiven (rows_of (found_of matches.now)) result }
{
    shape_for(matches, matches.get_one("passes"))
}

// The shape that the options give, with this number of passes, if there is one.
fn shape_for(matches: &ArgMatches<'_>, passes: Option<u32>) -> Shape
    ensures { IsShapeFor passes (rows_of (found_of matches.now)) result }
{
    let base = base_of(matches, passes.unwrap_or(SHAPE.passes));
    Shape {
        buckets: matches.get_one("buckets").unwrap_or(base.buckets),
        overflow: matches.get_one("overflow").unwrap_or(base.overflow),
        passes: passes.unwrap_or(base.passes),
        segments_each: matches.get_one("segments").unwrap_or(base.segments_each),
        rows: matches.get_one("rows").unwrap_or(base.rows),
        first_version: matches
            .get_one("first-version")
            .unwrap_or(base.first_version),
    }
}

// The shape before the options for its parts.
fn base_of(matches: &ArgMatches<'_>, passes: u32) -> Shape
    ensures { IsBase (number_found for_keys_option (rows_of (found_of matches.now))) passes result }
{
    match matches.get_one("for-keys") {
        Some(keys) => sized(keys, passes),
        None => SHAPE,
    }
}

// A shape with room for so many keys, or one that is as bad.
fn sized(keys: u32, passes: u32) -> Shape
    ensures { IsSized keys passes result }
{
    match Shape::for_keys(keys, passes) {
        Ok(shape) => shape,
        Err(_) => Shape { passes, ..SHAPE },
    }
}
