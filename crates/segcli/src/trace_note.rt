//! What `--explain` says of a bad line of a trace.
ghost use Rattle.std.specs.Prelude.{◌≡◌, ◌≤◌, length};
ghost use Rattle.segcli.specs.TraceNotes.{column_note, column_reason, count_note, trace_note};

use segscript::{Line, line_of, put, put_number};
use segtraces::{Column, TraceLineFault};

// What the word of a column isn't.
fn column_reason(column: Column) -> &'static [u8]
    ensures text { result.now ≡ column_reason column }
    ensures short { length result.now ≤ 39 }
{
    match column {
        Column::Time => b": no time in seconds or milliseconds\n",
        Column::Key => b": no key stands here\n",
        Column::Verb => b": no operation has this name\n",
        Column::Life => b": no time to live below 2^32\n",
        Column::Size => b": no number of bytes below 2^32\n",
    }
}

fn column_note(column: Column, place: usize) -> Line
    ensures { result.items ≡ column_note column place }
{
    let mut text = line_of(b"word ");
    put_number(&mut text, place);
    put(&mut text, column_reason(column));
    text
}

fn count_note(found: usize, wanted: usize) -> Line
    ensures { result.items ≡ count_note found wanted }
{
    let mut text = line_of(b"it has ");
    put_number(&mut text, found);
    put(&mut text, b" words, not ");
    put_number(&mut text, wanted);
    put(&mut text, b"\n");
    text
}

/// Why a line of a trace states nothing.
pub(crate) fn trace_note(fault: TraceLineFault) -> Line
    ensures { result.items ≡ trace_note fault }
{
    match fault {
        TraceLineFault::TooLong => line_of(b"it has more than 4096 bytes\n"),
        TraceLineFault::Count(found, wanted) => count_note(found, wanted),
        TraceLineFault::Word(column, place) => column_note(column, place),
    }
}
