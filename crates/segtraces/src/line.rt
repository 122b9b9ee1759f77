//! Reads one line of a trace: the command that it states, or the columns that it names.
ghost use Rattle.std.specs.Prelude.{◌≡◌, length};
ghost use Rattle.segtraces.specs.Lines.{client_of, columns_named, columns_of, fields_of};
ghost use Rattle.segtraces.specs.Lines.{fields_stated, header_in, is_named, life_at, moment_at};
ghost use Rattle.segtraces.specs.Lines.{place_in, place_named, request_at, request_of, separator};
ghost use Rattle.segtraces.specs.Lines.{size_at, stated, verb_at};

use crate::word::{
    count, field, is_name, key_of, lasting, moment_of, number_of, verb_of, without_return,
};
use segword::{Key, hash};

/// Which field of a line has what. Fields are counted from 0.
#[derive(Clone, Copy, Debug, PartialEq, Eq)]
pub struct Columns {
    /// How many fields a line has.
    pub fields: usize,
    /// Without this column, each line has moment 0.
    pub time: Option<usize>,
    pub key: usize,
    /// Without this column, each line is a get.
    pub verb: Option<usize>,
    /// Without this column, what a line puts lasts.
    pub life: Option<usize>,
    /// Without this column, each value has as many bytes as the plan says.
    pub size: Option<usize>,
}

/// A column that is read.
#[derive(Clone, Copy, Debug, PartialEq, Eq)]
pub enum Column {
    Time,
    Key,
    Verb,
    Life,
    Size,
}

/// How the lines of a trace are written.
#[derive(Clone, Copy, Debug, PartialEq, Eq)]
pub enum Form {
    /// `get KEY`, `set KEY`, `delete KEY`, or a bare `KEY` for a get.
    Plain,
    /// `time,key,op,ttl`, or Twitter's seven columns.
    Csv,
    /// As a header has named them.
    Named(Columns),
}

#[derive(Clone, Copy, Debug, PartialEq, Eq)]
pub enum Operation {
    /// Reads the key, and puts it if it isn't there.
    Get,
    Set,
    Delete,
}

/// A command of a trace.
#[derive(Drop)]
pub struct TraceCommand {
    pub verb: Operation,
    pub key: Key,
    /// The moment that the clock shows.
    pub moment: u32,
    /// How long what it puts is to live.
    pub time_to_live: u32,
    /// How many bytes the value has that it puts, if the line says so.
    pub value_bytes: Option<u32>,
}

/// What a line states.
#[derive(Drop)]
pub enum Stated {
    /// It is empty.
    Nothing,
    Command(TraceCommand),
    /// It names the columns of the lines behind it.
    Header(Columns),
}

/// Why a line is bad.
#[derive(Clone, Copy, Debug, PartialEq, Eq)]
pub enum TraceLineFault {
    /// It has more than 4096 bytes.
    TooLong,
    /// It has the first number of words. The columns need the second.
    Count(usize, usize),
    /// The word of this column, with this number, is none. Words are counted from 1.
    Word(Column, usize),
}

// A key and nothing more.
const BARE: Columns = Columns {
    fields: 1,
    time: None,
    key: 0,
    verb: None,
    life: None,
    size: None,
};

// An operation and a key.
const PAIR: Columns = Columns {
    fields: 2,
    time: None,
    key: 1,
    verb: Some(0),
    life: None,
    size: None,
};

// time,key,op,ttl
const CSV: Columns = Columns {
    fields: 4,
    time: Some(0),
    key: 1,
    verb: Some(2),
    life: Some(3),
    size: None,
};

// timestamp, key, key size, value size, client, operation, time to live
const TWITTER: Columns = Columns {
    fields: 7,
    time: Some(0),
    key: 1,
    verb: Some(5),
    life: Some(6),
    size: Some(3),
};

// The columns of a line with so many fields.
fn columns_of(form: Form, fields: usize) -> Columns
    ensures { result ≡ columns_of form fields }
{
    match form {
        Form::Plain if fields == 1 => BARE,
        Form::Plain => PAIR,
        Form::Csv if fields == 7 => TWITTER,
        Form::Csv => CSV,
        Form::Named(columns) => columns,
    }
}

// What stands between two fields.
fn separator(form: Form) -> u8
    ensures { result ≡ separator form }
{
    match form {
        Form::Plain => b' ',
        Form::Csv | Form::Named(_) => b',',
    }
}

// A line and the byte between its fields.
#[derive(Clone, Copy)]
struct Row<'l> {
    line: &'l [u8],
    at: u8,
}

fn moment_at(row: Row<'_>, place: Option<usize>) -> Option<u32>
    ensures { result ≡ moment_at place (fields_of row.entry.at row.entry.line.now) }
{
    match place {
        None => Some(0),
        Some(place) => moment_of(field(row.line, row.at, place)),
    }
}

fn verb_at(row: Row<'_>, place: Option<usize>) -> Option<Operation>
    ensures { result ≡ verb_at place (fields_of row.entry.at row.entry.line.now) }
{
    match place {
        None => Some(Operation::Get),
        Some(place) => verb_of(field(row.line, row.at, place)),
    }
}

fn life_at(row: Row<'_>, place: Option<usize>) -> Option<u32>
    ensures { result ≡ life_at place (fields_of row.entry.at row.entry.line.now) }
{
    match place {
        None => Some(u32::MAX),
        Some(place) => lasting(number_of(field(row.line, row.at, place))),
    }
}

// The inner option is None where the line doesn't say it.
fn size_at(row: Row<'_>, place: Option<usize>) -> Option<Option<u32>>
    ensures { result ≡ size_at place (fields_of row.entry.at row.entry.line.now) }
{
    let Some(place) = place else {
        return Some(None);
    };
    let bytes = number_of(field(row.line, row.at, place))?;
    Some(Some(bytes))
}

// The command, or the first of its parts that is none.
fn request_of(
    moment: Option<u32>,
    key: Option<Key>,
    verb: Option<Operation>,
    time_to_live: Option<u32>,
    value_bytes: Option<Option<u32>>,
) -> Result<TraceCommand, Column>
    ensures { result ≡ request_of moment key verb time_to_live value_bytes }
{
    let Some(moment) = moment else {
        return Err(Column::Time);
    };
    let Some(key) = key else {
        return Err(Column::Key);
    };
    let Some(verb) = verb else {
        return Err(Column::Verb);
    };
    let Some(time_to_live) = time_to_live else {
        return Err(Column::Life);
    };
    let Some(value_bytes) = value_bytes else {
        return Err(Column::Size);
    };
    Ok(TraceCommand {
        verb,
        key,
        moment,
        time_to_live,
        value_bytes,
    })
}

// The place of a column that is read, or 0.
fn place_in(columns: Columns, column: Column) -> usize
    ensures { result ≡ place_in columns column }
{
    match column {
        Column::Time => columns.time.unwrap_or(0),
        Column::Key => columns.key,
        Column::Verb => columns.verb.unwrap_or(0),
        Column::Life => columns.life.unwrap_or(0),
        Column::Size => columns.size.unwrap_or(0),
    }
}

// The command that a line with these columns states.
fn request_at(row: Row<'_>, columns: Columns, fields: usize) -> Result<TraceCommand, TraceLineFault>
    requires { fields ≡ length (fields_of row.at row.line.now) }
    ensures { result ≡ request_at columns (fields_of row.entry.at row.entry.line.now) }
{
    if fields != columns.fields {
        return Err(TraceLineFault::Count(fields, columns.fields));
    }
    let request = request_of(
        moment_at(row, columns.time),
        key_of(field(row.line, row.at, columns.key)),
        verb_at(row, columns.verb),
        life_at(row, columns.life),
        size_at(row, columns.size),
    );
    match request {
        Ok(request) => Ok(request),
        Err(column) => Err(TraceLineFault::Word(
            column,
            place_in(columns, column).saturating_add(1),
        )),
    }
}

// Whether the text is a name of the column, in any case.
fn is_named(column: Column, text: &[u8]) -> bool
    ensures { result ≡ is_named column text.now }
{
    match column {
        Column::Time => is_name(text, b"timestamp") || is_name(text, b"time"),
        Column::Key => is_name(text, b"key"),
        Column::Verb => is_name(text, b"op") || is_name(text, b"operation"),
        Column::Life => is_name(text, b"ttl"),
        Column::Size => is_name(text, b"value_size"),
    }
}

// The place of the first field that names the column.
fn place_of(row: Row<'_>, column: Column, fields: usize) -> Option<usize>
    requires { fields ≡ length (fields_of row.at row.line.now) }
    ensures { result ≡ place_named column 0 (fields_of row.entry.at row.entry.line.now) }
{
    for place in 0..fields {
        if is_named(column, field(row.line, row.at, place)) {
            return Some(place);
        }
    }
    None
}

// The columns that a line names, if it names moments and keys.
fn columns_named(row: Row<'_>, fields: usize) -> Option<Columns>
    requires { fields ≡ length (fields_of row.at row.line.now) }
    ensures { result ≡ columns_named (fields_of row.entry.at row.entry.line.now) }
{
    let time = place_of(row, Column::Time, fields)?;
    let key = place_of(row, Column::Key, fields)?;
    Some(Columns {
        fields,
        time: Some(time),
        key,
        verb: place_of(row, Column::Verb, fields),
        life: place_of(row, Column::Life, fields),
        size: place_of(row, Column::Size, fields),
    })
}

fn header_in(form: Form, row: Row<'_>, fields: usize) -> Option<Columns>
    requires { fields ≡ length (fields_of row.at row.line.now) }
    ensures { result ≡ header_in form (fields_of row.entry.at row.entry.line.now) }
{
    match form {
        Form::Plain => None,
        Form::Csv | Form::Named(_) => columns_named(row, fields),
    }
}

// What the fields of a line state.
fn fields_stated(form: Form, row: Row<'_>) -> Result<Stated, TraceLineFault>
    ensures { result ≡ fields_stated form (fields_of row.entry.at row.entry.line.now) }
{
    let fields = count(row.line, row.at);
    match request_at(row, columns_of(form, fields), fields) {
        Ok(request) => Ok(Stated::Command(request)),
        Err(fault) => match header_in(form, row, fields) {
            Some(columns) => Ok(Stated::Header(columns)),
            None => Err(fault),
        },
    }
}

/// What a line states.
pub fn read_line(form: Form, line: &[u8]) -> Result<Stated, TraceLineFault>
    ensures { result ≡ stated form line.now }
{
    let line = without_return(line);
    if line.is_empty() {
        return Ok(Stated::Nothing);
    }
    let at = separator(form);
    fields_stated(form, Row { line, at })
}

impl TraceCommand {
    /// Which of so many clients makes it: the same one for each command of its key.
    pub fn client(&self, clients: u32) -> u32
        ensures { result ≡ client_of clients self.now.key }
    {
        ((hash(&self.key) >> 32) % u64::from(clients.max(1))) as u32
    }
}
