//! The commands of the program, and how each ends.
ghost use Rattle.std.specs.Prelude.{◌≡◌, false, Result, IfOk, IfErr};
ghost use Rattle.std.specs.Int.NonZero.{non_zero_u32_get};
ghost use Rattle.segcli.specs.Streams.{input, output};
ghost use Rattle.segload.specs.declared.totals.Totals.{Totals};
ghost use Rattle.segload.specs.Words.{IsLoad};
ghost use Rattle.segcli.specs.declared.fault.ProgramFault.{ProgramFault};
ghost use Rattle.segcli.specs.Faults.{fault_of_load, is_write_end};
ghost use Rattle.segcli.specs.Totals.{text_in};
ghost use Rattle.segcli.specs.Commands.{ScriptOutcome, IsFaultOfLoad, LoadOutcome, WordOutcome};
ghost use Rattle.segcli.specs.Commands.{CommandOutcome, Concludes, end_of_replay, end_of_trace};
ghost use Rattle.segcli.specs.Commands.{ReplayOutcome, ShowOutcome};

use crate::explanation::{explain, meaning_of};
use crate::fault::{ProgramFault, print};
use crate::note::report_explained;
use crate::progress::{Followed, Watch, Watched};
use crate::replayed::{plan_of, text_of_replay};
use crate::status::ExitStatus;
use crate::streams::Streams;
use crate::totals::text_in;
use segload::{LoadFault, OpenGate, Totals, run_crowd};
use segreplay::{TraceFault, replay};
use segscript::{Sink, Source, run_script};
use segtasks::{LoadTask, Replay, Task, Word};
use segword::Shape;
use std::alloc::{AllocGlobal, Global};
use std::sync::Wait;
use std::thread::Threads;

/// Where a command is carried out, and who looks on.
#[derive(Drop)]
pub(crate) struct Host<'h, R, V> {
    pub(crate) rt: &'h R,
    pub(crate) alloc: Global,
    pub(crate) watch: &'h V,
}

/// Carries out a command, and returns the exit status.
/// Replies, totals and explanations go to the writer.
/// For a fault the writer is asked to flush, and then one line goes to the error writer,
/// with a second one if the command is to be explained.
/// (That order is a condition of `print_both_after`.)
/// If the command asks for it, the watch looks on at a load or a replay, and is called at its end.
///
/// A load waits for its threads. The contract holds if this returns.
pub fn run_command<R: Threads + Wait + AllocGlobal + Sync, S: Source, W: Sink, E: Sink, V: Watch>(
    rt: &R,
    alloc: Global,
    command: &Task<'_>,
    streams: &mut Streams<S, W, E>,
    watch: &V,
) -> u8
    requires source_works { S.has_failed streams.old.source ≡ false }
    requires writer_works { W.has_failed streams.old.writer ≡ false }
    requires errors_work { E.has_failed streams.old.errors ≡ false }

    // The command ends with the writer at `there`. Then its fault, if it has one, is reported.
    ensures outcome { (there : W) × (end : Result (Unit {0}) ProgramFault)
        × CommandOutcome (input S.Source streams.old.source streams.new.source)
        (output W.Sink streams.old.writer there) command.now end
        × Concludes (output W.Sink there streams.new.writer)
        (output E.Sink streams.old.errors streams.new.errors) command.now end result }
{
    let host = Host { rt, alloc, watch };
    let Streams {
        source,
        writer,
        errors,
    } = streams;
    carry_out(&host, command, source, writer, errors)
}

/// Carries out a command over these devices.
pub(crate) fn carry_out<
    R: Threads + Wait + AllocGlobal + Sync,
    S: Source,
    W: Sink,
    E: Sink,
    V: Watch,
>(host: &Host<'_, R, V>, command: &Task<'_>, source: &mut S, writer: &mut W, errors: &mut E) -> u8
    requires source_works { S.has_failed source.old ≡ false }
    requires writer_works { W.has_failed writer.old ≡ false }
    requires errors_work { E.has_failed errors.old ≡ false }
    ensures outcome { (there : W) × (end : Result (Unit {0}) ProgramFault)
        × CommandOutcome (input S.Source source.old source.new)
        (output W.Sink writer.old there) command.now end
        × Concludes (output W.Sink there writer.new)
        (output E.Sink errors.old errors.new) command.now end result }
{
    let end = perform(host, command, source, writer);
    conclude(command, end, writer, errors)
}

// Carries out a command, whose fault isn't reported yet.
fn perform<R: Threads + Wait + AllocGlobal + Sync, S: Source, W: Sink, V: Watch>(
    host: &Host<'_, R, V>,
    command: &Task<'_>,
    source: &mut S,
    writer: &mut W,
) -> Result<(), ProgramFault>
    requires source_works { S.has_failed source.old ≡ false }
    requires writer_works { W.has_failed writer.old ≡ false }
    ensures { CommandOutcome (input S.Source source.old source.new)
        (output W.Sink writer.old writer.new) command.now result }
{
    match command {
        Task::Script { shape, .. } => perform_script(host.alloc, *shape, source, writer),
        Task::Load(load) => perform_load(host, load, writer),
        Task::Replay(replay) => perform_replay(host, replay, source, writer),
        Task::Word(word) => perform_word(word, writer),
        Task::Show(text) => show(text.as_bytes(), writer),
    }
}

fn perform_script<S: Source, W: Sink>(
    alloc: Global,
    shape: Shape,
    source: &mut S,
    writer: &mut W,
) -> Result<(), ProgramFault>
    requires source_works { S.has_failed source.old ≡ false }
    requires writer_works { W.has_failed writer.old ≡ false }
    ensures { ScriptOutcome (input S.Source source.old source.new)
        (output W.Sink writer.old writer.new) shape result }
{
    Ok(run_script(alloc, source, writer, shape)?)
}

fn perform_load<R: Threads + Wait + AllocGlobal + Sync, W: Sink, V: Watch>(
    host: &Host<'_, R, V>,
    load: &LoadTask,
    writer: &mut W,
) -> Result<(), ProgramFault>
    requires writer_works { W.has_failed writer.old ≡ false }
    ensures outcome { LoadOutcome load.now (output W.Sink writer.old writer.new) result }
    ensures failed { W.has_failed writer.new ≡ is_write_end result }
{
    let text = load_text(host, load)?;
    show(text.as_slice(), writer)
}

// Runs a load, and returns the text of its totals.
fn load_text<R: Threads + Wait + AllocGlobal + Sync, V: Watch>(
    host: &Host<'_, R, V>,
    load: &LoadTask,
) -> Result<Vec<u8>, ProgramFault>
    ensures text { IfOk result (λ text. (totals : Totals)
        × IsLoad load.now.shape load.now.seed (non_zero_u32_get load.now.keys)
        load.now.commands totals
        × (text.items ≡ text_in load.now.format totals)) }
    ensures fault { IfErr result (IsFaultOfLoad load.now.shape) }
{
    let totals = totals_of(host, load)?;
    let text = text_in(host.alloc, load.format, &totals)?;
    if load.stats {
        host.watch.ended(&totals);
    }
    Ok(text)
}

// Runs a load, at which the watch looks on if it is asked to.
fn totals_of<R: Threads + Wait + AllocGlobal + Sync, V: Watch>(
    host: &Host<'_, R, V>,
    load: &LoadTask,
) -> Result<Totals, LoadFault>
    ensures load { IfOk result (IsLoad load.now.shape load.now.seed
        (non_zero_u32_get load.now.keys) load.now.commands) }
    ensures fault { IfErr result (λ why. IsFaultOfLoad load.now.shape (fault_of_load why)) }
{
    let Host { rt, alloc, watch } = *host;
    let LoadTask {
        shape,
        seed,
        commands,
        ..
    } = *load;
    let keys = load.keys.get();
    if load.progress {
        let gate = Watched::new(watch, shape.passes, commands);
        run_crowd(rt, alloc, shape, seed, commands, keys, &gate)
    } else {
        run_crowd(rt, alloc, shape, seed, commands, keys, &OpenGate)
    }
}

fn perform_replay<R: Threads + Wait + AllocGlobal + Sync, S: Source, W: Sink, V: Watch>(
    host: &Host<'_, R, V>,
    asked: &Replay<'_>,
    source: &mut S,
    writer: &mut W,
) -> Result<(), ProgramFault>
    requires source_works { S.has_failed source.old ≡ false }
    requires writer_works { W.has_failed writer.old ≡ false }
    ensures outcome { ReplayOutcome asked.now (input S.Source source.old source.new)
        (output W.Sink writer.old writer.new) result }
    ensures failed { W.has_failed writer.new ≡ is_write_end result }
{
    let follow = Followed {
        watch: host.watch,
        is_asked: asked.progress,
    };
    let replayed = replay(host.rt, host.alloc, source, &plan_of(asked), &follow)?;
    let text = text_of_replay(host.alloc, asked.format, replayed.totals.as_slice())?;
    host.watch.replayed(asked, replayed.totals.as_slice());
    let shown = show(text.as_slice(), writer);
    end_of_replay(shown, replayed.end)
}

// How a replay ends whose totals were shown so, and whose trace ended so.
fn end_of_replay(
    shown: Result<(), ProgramFault>,
    end: Result<(), TraceFault>,
) -> Result<(), ProgramFault>
    ensures end { result ≡ end_of_replay shown end }
    ensures failed { is_write_end result ≡ is_write_end shown }
{
    shown?;
    end_of_trace(end)
}

fn end_of_trace(end: Result<(), TraceFault>) -> Result<(), ProgramFault>
    ensures end { result ≡ end_of_trace end }
    ensures failed { is_write_end result ≡ false }
{
    Ok(end?)
}

fn perform_word<W: Sink>(word: &Word<'_>, writer: &mut W) -> Result<(), ProgramFault>
    requires writer_works { W.has_failed writer.old ≡ false }
    ensures outcome { WordOutcome word.now (output W.Sink writer.old writer.new) result }
    ensures failed { W.has_failed writer.new ≡ is_write_end result }
{
    match meaning_of(word.kind, word.text) {
        Some(meaning) => show(explain(meaning).as_slice(), writer),
        None => Err(ProgramFault::BadWord),
    }
}

// Prints a text to the writer.
fn show<W: Sink>(text: &[u8], writer: &mut W) -> Result<(), ProgramFault>
    requires writer_works { W.has_failed writer.old ≡ false }
    ensures outcome { ShowOutcome text.now (output W.Sink writer.old writer.new) result }
    ensures failed { W.has_failed writer.new ≡ is_write_end result }
{
    print(writer, text).map_err(|_| ProgramFault::Write)
}

// Returns the status of a command that ended so. A fault is reported.
fn conclude<W: Sink, E: Sink>(
    command: &Task<'_>,
    end: Result<(), ProgramFault>,
    writer: &mut W,
    errors: &mut E,
) -> u8
    requires errors_work { E.has_failed errors.old ≡ false }
    ensures { Concludes (output W.Sink writer.old writer.new)
        (output E.Sink errors.old errors.new) command.now end result }
{
    match end {
        Ok(()) => ExitStatus::Done.code(),
        Err(fault) => report_explained(command, fault, writer, errors),
    }
}
