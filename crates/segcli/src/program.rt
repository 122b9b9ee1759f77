//! The program, over the words after its name, or over what was read from them.
ghost use Rattle.std.specs.Prelude.{◌≡◌, false, map, string_bytes, Result};
ghost use Rattle.segcli.specs.Streams.{input, output};
ghost use Rattle.segtasks.specs.declared.arguments.Refusal.{Refusal};
ghost use Rattle.segtasks.specs.declared.task.Task.{Task as Asked};
ghost use Rattle.segcli.specs.Printing.{IsPrinted, IsFlushed};
ghost use Rattle.segtasks.specs.Asked.{IsReadAsCommand};
ghost use Rattle.segcli.specs.Program.{refusal_status, refusal_text, ProgramOutcome};

use crate::command::{Host, carry_out};
use crate::fault::{ProgramFault, print_after, report};
use crate::progress::{NoWatch, Watch};
use crate::status::ExitStatus;
use crate::streams::Streams;
use segscript::{Sink, Source};
use segtasks::{Refusal, Task, read_command};
use std::alloc::{AllocGlobal, Global};
use std::sync::Wait;
use std::thread::Threads;

/// Does what the words after the program's name ask for, with a script from the source.
/// It returns the exit status: 0 if that was done,
/// 2 for a bad line, a bad word or a bad command line, and else 3.
/// Faults are printed to the error writer. Nobody looks on at a load or a replay.
///
/// A load waits for its threads. The contract holds if this returns.
pub fn run_program<R: Threads + Wait + AllocGlobal + Sync, S: Source, W: Sink, E: Sink>(
    rt: &R,
    alloc: Global,
    words: &[String],
    source: &mut S,
    writer: &mut W,
    errors: &mut E,
) -> u8
    requires source_works { S.has_failed source.old ≡ false }
    requires writer_works { W.has_failed writer.old ≡ false }
    requires errors_work { E.has_failed errors.old ≡ false }

    // The command that is read from the words is carried out, or the words are refused.
    ensures outcome { (read : Result Asked Refusal)
        × IsReadAsCommand (map (λ word. string_bytes word) words.now) read
        × ProgramOutcome (input S.Source source.old source.new)
        (output W.Sink writer.old writer.new)
        (output E.Sink errors.old errors.new) read result }
{
    let host = Host {
        rt,
        alloc,
        watch: &NoWatch,
    };
    run_read(&host, &read_command(alloc, words), source, writer, errors)
}

/// Carries out the command that was read from the words, or prints why none was.
/// It returns the exit status, as `run_program` does.
/// If the command asks for it, the watch looks on at a load or a replay.
///
/// A load waits for its threads. The contract holds if this returns.
pub fn run_given<R: Threads + Wait + AllocGlobal + Sync, S: Source, W: Sink, E: Sink, V: Watch>(
    rt: &R,
    alloc: Global,
    read: &Result<Task<'_>, Refusal>,
    streams: &mut Streams<S, W, E>,
    watch: &V,
) -> u8
    requires source_works { S.has_failed streams.old.source ≡ false }
    requires writer_works { W.has_failed streams.old.writer ≡ false }
    requires errors_work { E.has_failed streams.old.errors ≡ false }
    ensures outcome { ProgramOutcome (input S.Source streams.old.source streams.new.source)
        (output W.Sink streams.old.writer streams.new.writer)
        (output E.Sink streams.old.errors streams.new.errors) read.now result }
{
    let host = Host { rt, alloc, watch };
    let Streams {
        source,
        writer,
        errors,
    } = streams;
    run_read(&host, read, source, writer, errors)
}

// Does what was read from the words, over these devices.
fn run_read<R: Threads + Wait + AllocGlobal + Sync, S: Source, W: Sink, E: Sink, V: Watch>(
    host: &Host<'_, R, V>,
    read: &Result<Task<'_>, Refusal>,
    source: &mut S,
    writer: &mut W,
    errors: &mut E,
) -> u8
    requires source_works { S.has_failed source.old ≡ false }
    requires writer_works { W.has_failed writer.old ≡ false }
    requires errors_work { E.has_failed errors.old ≡ false }
    ensures outcome { ProgramOutcome (input S.Source source.old source.new)
        (output W.Sink writer.old writer.new)
        (output E.Sink errors.old errors.new) read.now result }
{
    match read {
        Ok(command) => carry_out(host, command, source, writer, errors),
        Err(refusal) => refuse(refusal, writer, errors),
    }
}

// Prints why no command was read, as a fault is printed.
fn refuse<W: Sink, E: Sink>(refusal: &Refusal, writer: &mut W, errors: &mut E) -> u8
    requires errors_work { E.has_failed errors.old ≡ false }
    ensures status { result ≡ refusal_status refusal.now }
    ensures writer { IsFlushed (output W.Sink writer.old writer.new) }
    ensures errors { IsPrinted (refusal_text refusal.now) (output E.Sink errors.old errors.new) }
{
    match refusal {
        Refusal::Usage(text) => {
            let _ = writer.flush();
            print_after(writer, errors, text.as_str().as_bytes());
            ExitStatus::BadInput.code()
        }
        Refusal::BadArguments => report(ProgramFault::BadArguments, writer, errors),
        Refusal::OutOfMemory => report(ProgramFault::OutOfMemory, writer, errors),
    }
}
