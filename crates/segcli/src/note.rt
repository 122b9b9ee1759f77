//! What `--explain` adds behind the line of a fault.
ghost use Rattle.std.specs.Prelude.{◌≡◌, ◌++◌, false, is_err, length};
ghost use Rattle.segcli.specs.Streams.{output};
ghost use Rattle.segcli.specs.Faults.{fault_line, fault_status};
ghost use Rattle.segcli.specs.Notes.{explains, has_prefix, kind_note, length_note, letter_from};
ghost use Rattle.segcli.specs.Notes.{letter_note, note_of, note_of_fault, note_of_word};
ghost use Rattle.segcli.specs.Notes.{shape_note, word_note};
ghost use Rattle.segcli.specs.Printing.{PrintOutcome, IsPrinted, IsFlushed, WasFlushed};

use crate::fault::{ProgramFault, print};
use crate::trace_note::trace_note;
use segscript::{Failed, Line, Sink, line_of, put, put_number, write_all};
use segtasks::{Task, Word, WordKind};
use segword::ShapeFault;

// The option that has this fault, and its range.
fn shape_note(fault: ShapeFault) -> Line
    ensures { result.items ≡ shape_note fault }
{
    match fault {
        ShapeFault::BadBuckets => line_of(b"buckets: a power of two, 1 to 65536\n"),
        ShapeFault::BadOverflow => line_of(b"overflow: 0 to 65536\n"),
        ShapeFault::BadPasses => line_of(b"passes: 1 to 64\n"),
        ShapeFault::BadSegments => line_of(b"segments: 1 to 1024\n"),
        ShapeFault::BadRows => line_of(b"rows: 1 to 4096\n"),
        ShapeFault::TooLarge => line_of(b"the table: at most 67108864 words of 8 bytes\n"),
    }
}

fn has_prefix(text: &[u8]) -> bool
    ensures { result ≡ has_prefix text.now }
{
    text.len() > 1 && text[0] == b'0' && (text[1] == b'x' || text[1] == b'X')
}

// The place of the first byte that isn't a hexadecimal digit. The first byte has place 1.
fn letter(text: &[u8]) -> Option<usize>
    ensures { result ≡ letter_from 1 text.now }
{
    for (i, byte) in text.iter().enumerate() {
        if !byte.is_ascii_hexdigit() {
            return Some(i + 1);
        }
    }
    None
}

fn kind_note(kind: WordKind) -> Line
    ensures { result.items ≡ kind_note kind }
{
    match kind {
        WordKind::Item => line_of(b"HEX: tag 0, and over 65536: no item, no chain (see --kind)\n"),
        WordKind::Information => line_of(b"HEX: one of its bits 1 to 31 is set\n"),
        WordKind::Segment => Line::new(),
    }
}

fn length_note(kind: WordKind, length: usize) -> Line
    ensures { result.items ≡ length_note kind length }
{
    if length == 16 {
        return kind_note(kind);
    }
    let mut text = line_of(b"HEX: it has ");
    put_number(&mut text, length);
    put(&mut text, b" digits, not 16\n");
    text
}

fn letter_note(kind: WordKind, length: usize, letter: Option<usize>) -> Line
    ensures { result.items ≡ letter_note kind length letter }
{
    let Some(place) = letter else {
        return length_note(kind, length);
    };
    let mut text = line_of(b"HEX: character ");
    put_number(&mut text, place);
    put(&mut text, b" is not a hexadecimal digit\n");
    text
}

// What is wrong with a text that is no word of this kind.
fn word_note(kind: WordKind, text: &[u8]) -> Line
    ensures { result.items ≡ word_note kind text.now }
{
    if has_prefix(text) {
        return line_of(b"HEX: the digits stand without 0x\n");
    }
    letter_note(kind, text.len(), letter(text))
}

fn note_of_word(command: &Task<'_>) -> Line
    ensures { result.items ≡ note_of_word command.now }
{
    match command {
        Task::Word(word) => word_note(word.kind, word.text.as_bytes()),
        _ => Line::new(),
    }
}

fn note_of_fault(command: &Task<'_>, fault: ProgramFault) -> Line
    ensures { result.items ≡ note_of_fault command.now fault }
{
    match fault {
        ProgramFault::BadShape(fault) => shape_note(fault),
        ProgramFault::BadRow(_, why) => trace_note(why),
        ProgramFault::BadWord => note_of_word(command),
        _ => Line::new(),
    }
}

// Whether the command is to be explained.
fn explains(command: &Task<'_>) -> bool
    ensures { result ≡ explains command.now }
{
    match command {
        Task::Script { explain, .. } => *explain,
        Task::Load(load) => load.explain,
        Task::Replay(replay) => replay.explain,
        Task::Word(word) => word.explain,
        Task::Show(_) => false,
    }
}

// What is added behind the line of a fault.
fn note_of(command: &Task<'_>, fault: ProgramFault) -> Line
    ensures { result.items ≡ note_of command.now fault }
{
    if explains(command) {
        note_of_fault(command, fault)
    } else {
        Line::new()
    }
}

// Writes two texts, one behind the other, and flushes.
fn print_both<W: Sink>(writer: &mut W, first: &[u8], second: &[u8]) -> Result<(), Failed>
    requires works { W.has_failed writer.old ≡ false }
    ensures outcome { PrintOutcome (first.now ++ second.now)
        (output W.Sink writer.old writer.new) result }
    ensures failed { W.has_failed writer.new ≡ is_err result }
{
    write_all(writer, first)?;
    print(writer, second)
}

// Prints the line of a fault and its note. Before it does, the writer was asked to flush.
fn print_both_after<W: Sink, E: Sink>(_writer: &W, errors: &mut E, line: &[u8], note: &[u8])
    requires flushed { WasFlushed W.Sink _writer.now }
    requires errors_work { E.has_failed errors.old ≡ false }
    ensures { IsPrinted (line.now ++ note.now) (output E.Sink errors.old errors.new) }
{
    let _ = print_both(errors, line, note);
}

/// Flushes the writer, then prints the line of a fault and what the command has explained of it,
/// and returns the fault's status. It does so even if the flush or the printing fails.
pub(crate) fn report_explained<W: Sink, E: Sink>(
    command: &Task<'_>,
    fault: ProgramFault,
    writer: &mut W,
    errors: &mut E,
) -> u8
    requires errors_work { E.has_failed errors.old ≡ false }
    ensures status { result ≡ fault_status fault }
    ensures writer { IsFlushed (output W.Sink writer.old writer.new) }
    ensures errors { IsPrinted (fault_line fault ++ note_of command.now fault)
        (output E.Sink errors.old errors.new) }
{
    let note = note_of(command, fault);
    let _ = writer.flush();
    print_both_after(writer, errors, fault.line().as_slice(), note.as_slice());
    fault.status()
}
