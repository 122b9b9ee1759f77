//! The command line of the program: its commands and options with their texts, as `clap` takes them.
ghost use Rattle.std.specs.Prelude.{◌≡◌, false, IfOk};
ghost use Rattle.clap.specs.Words.{App, rule_of};
ghost use Rattle.segtasks.specs.CommandLine.{Builds, alone, with_parts, shape_options, file_rule};
ghost use Rattle.segtasks.specs.CommandLine.{choice_rule, flag_rule, option_rule, part_rule};
ghost use Rattle.segtasks.specs.CommandLine.{for_keys_option, keys_option, number_parser};
ghost use Rattle.segtasks.specs.CommandLine.{program_rules, script_rules, load_rules, word_rules};
ghost use Rattle.segtasks.specs.CommandLine.{command_line, replay_options, replay_rules};
ghost use Rattle.segtasks.specs.CommandLine.{value_bytes_option, with_rules};

use clap::builder::{ValueParser, ValueParserFactory};
use clap::{Arg, ArgAction, Command, value_parser};
use segword::VALUE_BYTES;
use std::alloc::{AllocError, Global};

const ABOUT: &str = "Runs scripts and loads over the object index of a segment-structured cache";

const AFTER: &str =
    "Such a cache keeps items in segments, which are filled, evicted and refilled as a whole. Its object
index finds an item by its key. Without a command segrun does what `segrun script` does.

Example:
  printf 'p0 refill 0 4294967295\\np0 set a 1 @0\\np0 get a @0\\n' | segrun
writes REFILLED, STORED and VALUE 1, a line each.

Exit status:
  0  done
  2  a bad line, a bad word, or a bad command line
  3  any other fault

A shape is bad for the first of these that does not hold. The line has its number, and with
--explain a second line has the range:
  1  --buckets: a power of two, 1 to 65536
  2  --overflow: 0 to 65536
  3  --passes: 1 to 64
  4  --segments: 1 to 1024
  5  --rows: 1 to 4096
  6  the table: at most 67108864 words of 8 bytes";

const SCRIPT: &str = "Runs a script, and writes the reply of each line";

const AFTER_SCRIPT: &str = "Lines, here of pass 0, and their replies:
  p0 refill SEGMENT DEADLINE        REFILLED, NOT_YOURS, NOT_EVICTED or HELD
  p0 evict SEGMENT                  EVICTED or BUSY with how many keys went, or NOT_YOURS
  p0 keep SEGMENT CUTOFF            KEPT, NOROOM or BUSY with how many items moved, or NOT_YOURS
  p0 get KEY @MOMENT                VALUE with the value, MISS or BUSY
  p0 gets KEY @MOMENT               VALUE with the value and its version, MISS or BUSY
  p0 set KEY VALUE @MOMENT          STORED, NOROOM, BUCKETFULL or BUSY
  p0 add KEY VALUE @MOMENT          STORED, NOT_STORED, NOROOM, BUCKETFULL or BUSY
  p0 replace KEY VALUE @MOMENT      STORED, NOT_STORED, NOROOM or BUSY
  p0 cas KEY VALUE VERSION @MOMENT  STORED, EXISTS, NOT_FOUND, NOROOM or BUSY
  p0 delete KEY @MOMENT             DELETED, NOT_FOUND or BUSY
  p0 hold KEY @MOMENT               HOLDING, MISS, BUSY or ALREADY_HOLDING
  p0 held                           VALUE with the value that is held, or NOT_HOLDING
  p0 release                        RELEASED or NOT_HOLDING
  p0 lock KEY                       LOCKED, BUSY or ALREADY_LOCKED
  p0 unlock                         UNLOCKED or NOT_LOCKED
A key has 1 to 24 printable bytes. A value has 1 to 32, or is - for the empty one. CUTOFF is at most
255, and each other number 4294967295. A pass refills a segment before it sets its first key. A key
is absent from the deadline of its segment on. One space stands between two words, and there are no
comments. The first bad line ends the script, with status 2; --explain says why it is bad.";

const LOAD: &str = "Runs a load, in which all passes make commands at once, and prints its totals";

const AFTER_LOAD: &str =
    "Each pass makes its commands on a thread of its own. The totals are a line for each pass, and one for
all, with how many keys stand at the end. What they count, each command once:
  hit, miss    gets, with a version or without, that found their key or didn't
  stored, not_stored, exists, not_found, deleted
               the replies to writes and deletes
  noroom       writes that had no row left, for which the pass couldn't give up its next segment:
               another pass was reading there, or at work in the bucket of a key of it
  bucketfull   sets and adds of a new key that found no word left in its bucket
  busy         commands in whose bucket others were at work 64 times meanwhile
With one pass nothing is counted as noroom or busy. One bucket holds 7 keys: a load wants more.

Examples:
  segrun load --for-keys 64
has room for the 64 keys, and writes the lines of p0 and total.
  segrun load --keys 1000000 --buckets 65536 --segments 64 --rows 4096
does the same over a million keys.
  segrun load --passes 4 --commands 100000000 --progress
writes to standard error, about twice a second, a line as
  41231360 of 100000000, 41 %, 17023488 a second";

const REPLAY: &str = "Replays a trace through a cache, and writes how often its gets hit";

const AFTER_REPLAY: &str =
    "Lines: get KEY, which puts what it misses; KEY, the same; set KEY; delete KEY. With --csv TIME,KEY,OP,TTL,
Twitter's seven fields, or columns that a header names (timestamp, key, op, ttl, value_size; others are
skipped). The clock shows TIME (from 10^12 on milliseconds). What is put lives for TTL at most, for 7/8 of
it at least (0: it lasts). A key over 24 bytes goes by its hash, a value has value_size or --value-bytes.
Empty lines count for nothing. A bad line ends the replay with status 2, behind the totals of the lines
before it; --explain says why it is bad.

The totals are a line or an object for each cache: its rows, its bytes with those of its clients' queues,
gets, hits, their rate in %, sets, deletes, evicted keys, items kept, puts refused for want of room, busy
commands. --policy all compares default, nothing and cutoff:3, --sizes six caches, each half of the last.

Examples:
  segrun replay --for-keys 100000 trace
  zcat trace.csv.gz | segrun replay --csv --for-keys 100000 --policy all --sizes --progress";

const WORD: &str = "Explains a word of the table of an index";

const AFTER_WORD: &str =
    "A bucket has an information word, with its version and its writer bit, and seven item words. An item
word is empty, says in which row of which segment an item lies, or leads on to an overflow bucket. The
word of a segment has its deadline, and how many passes read there; it can look like an item word.

Examples:
  segrun word af60100000200003
writes item tag=af6 freq=1 seg=2 row=3.
  segrun word --kind information 0000000700000001
writes information version=7 bit=1.
  segrun word --kind segment ffffffff00000002
writes segment deadline=4294967295 readers=2.

Any other word is a bad word, with status 2; --explain says what is wrong with it.";

/// The command line, of which a parse reads the words after the program's name.
pub(crate) fn program<'a>(alloc: Global) -> Result<Command<'a>, AllocError>
    ensures { IfOk result (Builds command_line) }
{
    named(alloc)?
        .subcommand(script(alloc)?)?
        .subcommand(load(alloc)?)?
        .subcommand(replay(alloc)?)?
        .subcommand(word(alloc)?)
}

// The program without its commands.
fn named<'a>(alloc: Global) -> Result<Command<'a>, AllocError>
    ensures { IfOk result (Builds (alone program_rules)) }
{
    Command::new(alloc, "segrun")
        .version("0.4.0-dev")
        .about(ABOUT)
        .after_help(AFTER)
        .override_usage("segrun [COMMAND]")
        .no_binary_name(true)
        .subcommand_required(true)
        .bin_name("segrun")
}

fn script<'a>(alloc: Global) -> Result<Command<'a>, AllocError>
    ensures { IfOk result (Builds (alone script_rules)) }
{
    let command = Command::new(alloc, "script")
        .about(SCRIPT)
        .after_help(AFTER_SCRIPT);
    let explain = flag(
        alloc,
        "explain",
        "Says on standard error why a line or a shape is bad",
    );
    with_shape(alloc, command)?
        .arg(script_file(alloc))?
        .arg(explain)
}

fn script_file<'a>(alloc: Global) -> Arg<'a>
    ensures rule { rule_of result ≡ file_rule }
    ensures local { result.global ≡ false }
{
    Arg::new(alloc, "FILE").help("The script; without it, or if it is -, standard input is read")
}

fn trace_file<'a>(alloc: Global) -> Arg<'a>
    ensures rule { rule_of result ≡ file_rule }
    ensures local { result.global ≡ false }
{
    Arg::new(alloc, "FILE").help("The trace; without it, or if it is -, standard input is read")
}

fn load<'a>(alloc: Global) -> Result<Command<'a>, AllocError>
    ensures { IfOk result (Builds (alone load_rules)) }
{
    let seed = number::<u64>(
        alloc,
        "seed",
        "1",
        "The number from which the commands are drawn",
    );
    let commands = number::<u32>(
        alloc,
        "commands",
        "1000",
        "How many commands each pass makes",
    );
    let keys = taking(
        alloc,
        "keys",
        keys_parser(),
        "64",
        "Keys that the commands are over: 1 to 1000000",
    );
    let format = choice(
        alloc,
        "format",
        "FORMAT",
        "How totals are written: text or json [default: text]",
    );
    let stats = flag(
        alloc,
        "stats",
        "Tells on standard error what the load did to the table",
    );
    let progress = flag(
        alloc,
        "progress",
        "Tells on standard error, about twice a second, how far the load is",
    );
    let explain = flag(
        alloc,
        "explain",
        "Says on standard error why a shape is bad",
    );
    let command = Command::new(alloc, "load")
        .about(LOAD)
        .after_help(AFTER_LOAD);
    with_shape(alloc, command)?
        .arg(seed)?
        .arg(commands)?
        .arg(keys)?
        .arg(format)?
        .arg(stats)?
        .arg(progress)?
        .arg(explain)
}

fn replay<'a>(alloc: Global) -> Result<Command<'a>, AllocError>
    ensures { IfOk result (Builds (alone replay_rules)) }
{
    let csv = flag(
        alloc,
        "csv",
        "The lines are TIME,KEY,OP,TTL, Twitter's, or as a header names them",
    );
    let format = choice(
        alloc,
        "format",
        "FORMAT",
        "How totals are written: text or json [default: text]",
    );
    let progress = flag(
        alloc,
        "progress",
        "Tells on standard error, about twice a second, how far the replay is",
    );
    let explain = flag(
        alloc,
        "explain",
        "Says on standard error why a line or a shape is bad",
    );
    let command = Command::new(alloc, "replay")
        .about(REPLAY)
        .after_help(AFTER_REPLAY);
    with_replay(
        alloc,
        with_shape(alloc, command)?
            .arg(trace_file(alloc))?
            .arg(csv)?,
    )?
    .arg(format)?
    .arg(progress)?
    .arg(explain)
}

// Gives a command the options of a replay.
fn with_replay<'a>(alloc: Global, command: Command<'a>) -> Result<Command<'a>, AllocError>
    ensures { (app : App) → Builds app command.entry
        → IfOk result (Builds (with_rules app replay_options)) }
{
    let bytes = taking(
        alloc,
        "value-bytes",
        value_bytes_parser(),
        "32",
        "Bytes of a value whose line doesn't say it",
    );
    let threads = part::<u32>(
        alloc,
        "threads",
        "In place of --passes: N clients, each with a thread and the keys of a hash",
    );
    let warm = number::<u64>(
        alloc,
        "warm",
        "0",
        "How many commands at the start aren't counted",
    );
    let policy = choice(
        alloc,
        "policy",
        "POLICY",
        "What puts keep: default, nothing, cutoff:N, or all to compare [default: default]",
    );
    let sizes = flag(
        alloc,
        "sizes",
        "Compares six sizes, each half of the one before",
    );
    command
        .arg(bytes)?
        .arg(threads)?
        .arg(warm)?
        .arg(policy)?
        .arg(sizes)
}

fn value_bytes_parser<'a>() -> ValueParser<'a>
    ensures { result ≡ number_parser value_bytes_option }
{
    value_parser!(u32).range(0..=VALUE_BYTES as i64)
}

fn keys_parser<'a>() -> ValueParser<'a>
    ensures { result ≡ number_parser keys_option }
{
    value_parser!(u32).range(1..=1_000_000)
}

fn word<'a>(alloc: Global) -> Result<Command<'a>, AllocError>
    ensures { IfOk result (Builds (alone word_rules)) }
{
    let digits = Arg::new(alloc, "HEX")
        .required(true)
        .help("The word, in 16 hexadecimal digits");
    let kind = choice(
        alloc,
        "kind",
        "KIND",
        "Which word it is: item, information or segment [default: item]",
    );
    let explain = flag(
        alloc,
        "explain",
        "Says on standard error what is wrong with a bad word",
    );
    Command::new(alloc, "word")
        .about(WORD)
        .after_help(AFTER_WORD)
        .arg(digits)?
        .arg(kind)?
        .arg(explain)
}

// Gives a command the options of a shape.
fn with_shape<'a>(alloc: Global, command: Command<'a>) -> Result<Command<'a>, AllocError>
    ensures { (app : App) → Builds app command.entry
        → IfOk result (Builds (with_parts app shape_options)) }
{
    let buckets = part::<u32>(
        alloc,
        "buckets",
        "Buckets: a power of two, 1 to 65536 [default: 1]",
    );
    let overflow = part::<u32>(
        alloc,
        "overflow",
        "Overflow buckets: 0 to 65536 [default: 0]",
    );
    let passes = part::<u32>(alloc, "passes", "Passes: 1 to 64 [default: 1]");
    let segments = part::<u32>(
        alloc,
        "segments",
        "Segments that each pass owns: 1 to 1024 [default: 1]",
    );
    let rows = part::<u32>(
        alloc,
        "rows",
        "Rows of each segment, one for an item: 1 to 4096 [default: 8]",
    );
    let version = part::<u32>(
        alloc,
        "first-version",
        "The version with which each bucket begins [default: 0]",
    );
    let keys = part_taking(
        alloc,
        "for-keys",
        for_keys_parser(),
        "In place of these: room to spare for N keys, 1 to 425984",
    );
    command
        .arg(buckets)?
        .arg(overflow)?
        .arg(passes)?
        .arg(segments)?
        .arg(rows)?
        .arg(version)?
        .arg(keys)
}

fn for_keys_parser<'a>() -> ValueParser<'a>
    ensures { result ≡ number_parser for_keys_option }
{
    value_parser!(u32).range(1..=425_984)
}

// An option with a number of any value of its type, which has none if it isn't given.
fn part<'a, T: ValueParserFactory>(alloc: Global, name: &'a str, help: &'a str) -> Arg<'a>
    ensures rule { rule_of result ≡ part_rule name.entry.now T.parser }
    ensures local { result.global ≡ false }
{
    part_taking(alloc, name, T::value_parser(), help)
}

// An option with a number that the parser takes, which has none if it isn't given.
fn part_taking<'a>(alloc: Global, name: &'a str, parser: ValueParser<'a>, help: &'a str) -> Arg<'a>
    ensures rule { rule_of result ≡ part_rule name.entry.now parser.entry }
    ensures local { result.global ≡ false }
{
    choice(alloc, name, "N", help).value_parser(parser)
}

// An option with a word, which has none if it isn't given.
fn choice<'a>(alloc: Global, name: &'a str, value: &'a str, help: &'a str) -> Arg<'a>
    ensures rule { rule_of result ≡ choice_rule name.entry.now }
    ensures local { result.global ≡ false }
{
    Arg::new(alloc, name)
        .long(name)
        .value_name(value)
        .help(help)
}

// An option with a number of any value of its type.
fn number<'a, T: ValueParserFactory>(
    alloc: Global,
    name: &'a str,
    default: &'a str,
    help: &'a str,
) -> Arg<'a>
    ensures rule { rule_of result ≡ option_rule name.entry.now T.parser default.entry.now }
    ensures local { result.global ≡ false }
{
    taking(alloc, name, T::value_parser(), default, help)
}

// An option with a number that the parser takes.
fn taking<'a>(
    alloc: Global,
    name: &'a str,
    parser: ValueParser<'a>,
    default: &'a str,
    help: &'a str,
) -> Arg<'a>
    ensures rule { rule_of result ≡ option_rule name.entry.now parser.entry default.entry.now }
    ensures local { result.global ≡ false }
{
    Arg::new(alloc, name)
        .long(name)
        .value_name("N")
        .value_parser(parser)
        .default_value(default)
        .help(help)
}

// An option that takes no value.
fn flag<'a>(alloc: Global, option: &'a str, help: &'a str) -> Arg<'a>
    ensures rule { rule_of result ≡ flag_rule option.entry.now }
    ensures local { result.global ≡ false }
{
    Arg::new(alloc, option)
        .long(option)
        .action(ArgAction::SetTrue)
        .help(help)
}
