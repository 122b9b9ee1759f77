//! Runs of the program over memory: its words, and what it writes, prints and returns.
ghost use Rattle.std.specs.Prelude.{◌≡◌, false, IfOk};

use crate::same::same;
use segcli::{Streams, Watch, read_command, run_given, run_program};
use segscript::{MemSink, MemSource, Sink, Source, WhenFull};
use std::alloc::{AllocError, AllocGlobal, Global};
use std::process::Abort;
use std::sync::Wait;
use std::thread::Threads;

/// What is given to a run, and what its devices do.
/// Of a pair the first is the writer's, the second the error writer's.
#[derive(Clone, Copy)]
pub struct Devices<'d> {
    pub given: &'d [u8],
    /// After how many bytes the reader fails.
    pub good: Option<usize>,
    /// How many bytes each writer takes.
    pub rooms: (usize, usize),
    pub when_full: WhenFull,
    pub flush_fails: (bool, bool),
}

/// Devices that don't fail, over a script of three lines.
pub const SOUND: Devices<'static> = Devices {
    given: b"p0 refill 0 4294967295\np0 set a 1 @0\np0 get a @0\n",
    good: None,
    rooms: (10_000, 10_000),
    when_full: WhenFull::Fails,
    flush_fails: (false, false),
};

/// How a run of the program has to end: its status, what it writes and what it prints.
pub type End<'e> = (u8, &'e [u8], &'e [u8]);

// The words of a command line, which spaces part.
fn words_of(alloc: Global, line: &str) -> Result<Vec<String>, AllocError> {
    let mut list = Vec::new(alloc);
    for word in line.split(' ') {
        list.push(String::from_str(alloc, word)?)?;
    }
    Ok(list)
}

/// Runs the program over these devices. The tests stand on this call:
/// at one of `run_program` the proof of a test would have to read its whole contract.
pub fn run_over<R: Threads + Wait + AllocGlobal + Abort + Sync, S: Source, W: Sink, E: Sink>(
    rt: &R,
    line: &str,
    streams: &mut Streams<S, W, E>,
) -> u8
    requires source_works { S.has_failed streams.old.source ≡ false }
    requires writer_works { W.has_failed streams.old.writer ≡ false }
    requires errors_work { E.has_failed streams.old.errors ≡ false }
{
    let words = words_of(rt.alloc(), line).expect(rt, "memory for words");
    let Streams {
        source,
        writer,
        errors,
    } = streams;
    run_program(rt, rt.alloc(), words.as_slice(), source, writer, errors)
}

fn reader_of(devices: Devices<'_>) -> MemSource<'_>
    ensures { result.failed ≡ false }
{
    let mut reader = MemSource::new(devices.given);
    reader.good = devices.good;
    reader
}

fn writer_of(
    alloc: Global,
    room: usize,
    when_full: WhenFull,
    flush_fails: bool,
) -> Result<MemSink, AllocError>
    ensures { IfOk result (λ sink. sink.failed ≡ false) }
{
    let mut writer = MemSink::new(alloc, room)?;
    writer.when_full = when_full;
    writer.flush_fails = flush_fails;
    Ok(writer)
}

// A reader and two writers, which do this.
fn streams_of<'s, R: AllocGlobal + Abort>(
    rt: &R,
    devices: Devices<'s>,
) -> Streams<MemSource<'s>, MemSink, MemSink>
    ensures source { result.source.failed ≡ false }
    ensures writer { result.writer.failed ≡ false }
    ensures errors { result.errors.failed ≡ false }
{
    let (room, error_room) = devices.rooms;
    let (fails, error_fails) = devices.flush_fails;
    let writer = writer_of(rt.alloc(), room, devices.when_full, fails);
    let errors = writer_of(rt.alloc(), error_room, devices.when_full, error_fails);
    Streams {
        source: reader_of(devices),
        writer: writer.expect(rt, "memory for a writer"),
        errors: errors.expect(rt, "memory for a writer"),
    }
}

/// Checks that a run over sound devices ends well while a watch looks on.
pub fn check_watched<R: Threads + Wait + AllocGlobal + Abort + Sync, V: Watch>(
    rt: &R,
    line: &str,
    given: &[u8],
    watch: &V,
) {
    let words = words_of(rt.alloc(), line).expect(rt, "memory for words");
    let mut streams = streams_of(rt, Devices { given, ..SOUND });
    let read = read_command(rt.alloc(), words.as_slice());
    let status = run_given(rt, rt.alloc(), &read, &mut streams, watch);
    let printed = streams.errors.taken.as_slice();
    same(rt, &(line, status, printed), &(line, 0, b"".as_slice()));
}

/// Checks what the program writes, prints and returns over these devices.
pub fn check<R: Threads + Wait + AllocGlobal + Abort + Sync>(
    rt: &R,
    line: &str,
    devices: Devices<'_>,
    end: End<'_>,
) {
    let mut streams = streams_of(rt, devices);
    let status = run_over(rt, line, &mut streams);
    let Streams { writer, errors, .. } = &streams;
    let ended = (status, writer.taken.as_slice(), errors.taken.as_slice());
    same(rt, &(line, ended), &(line, end));
}
