//! Runs a script from a reader to a writer, over an engine.
ghost use Rattle.std.specs.Prelude.{◌≡◌, ◌+◌, ◌<◌, ◌≤◌, ◌^◌, ◌++◌, ◌∷◌, [], ℕ, List, length};
ghost use Rattle.std.specs.Prelude.{take, false, IfOk, OnErr, is_err};
ghost use Rattle.segscript.specs.Running.{AllReplied};
ghost use Rattle.segscript.specs.Device.{ends_after};
ghost use Rattle.segscript.specs.Run.{EndOfRun, EndsOnce, is_read_fault, is_write_fault};
ghost use Rattle.segscript.specs.Run.{is_make_fault};

use crate::device::{Failed, Sink, Source, write_all};
use crate::engine::Engine;
use crate::fault::RunFault;
use crate::limits::LINE_BYTES;
use crate::line::{read_line, reply_of};
use segtext::{LineBuffer, Taken};

/// One more than the number of bytes that a script can have.
const LIMIT: u64 = 1 << 63;

/// How many bytes are read at a time, at most.
const PIECE: usize = 4096;

/// The line whose end has not come yet: its bytes so far, and its number.
#[derive(Drop)]
struct OpenLine {
    bytes: LineBuffer<LINE_BYTES>,
    number: u64,
}

impl OpenLine {
    ghost use Rattle.segscript.specs.Running.{HasServed, LineOutcome, FeedOutcome, FinishOutcome};

    // Serves the line, whose end has come.
    fn serve<E: Engine, W: Sink>(&self, engine: &mut E, writer: &mut W) -> Result<(), RunFault>
        requires works { W.has_failed writer.old ≡ false }
        requires ready { E.is_ready engine.old }
        ensures shape { E.shape engine.new ≡ E.shape engine.old }
        ensures ready { E.is_ready engine.new }
        ensures outcome { LineOutcome (E.shape engine.old).passes E.turns engine.old engine.new
            (λ text. W.takes writer.old text writer.new)
            self.now.bytes self.now.number result }
        ensures failed { W.has_failed writer.new ≡ is_write_fault result }
        ensures flushes { W.flushes writer.new ≡ W.flushes writer.old }
        ensures no_read { is_read_fault result ≡ false }
        ensures made { is_make_fault result ≡ false }
    {
        if self.bytes.is_empty() {
            return Ok(());
        }
        let Some((pass, turn)) = read_line(self.bytes.as_slice(), engine.passes()) else {
            return Err(RunFault::Line(self.number));
        };
        let outcome = engine.turn(pass, &turn);
        match write_all(writer, reply_of(&outcome).as_slice()) {
            Ok(()) => Ok(()),
            Err(Failed) => Err(RunFault::Write),
        }
    }

    // Takes the next byte of the script, and serves the line if the byte ends it.
    fn feed<E: Engine, W: Sink>(
        &mut self,
        engine: &mut E,
        writer: &mut W,
        byte: u8,
    ) -> Result<(), RunFault>
        requires works { W.has_failed writer.old ≡ false }
        requires ready { E.is_ready engine.old }
        requires few { self.old.number + 1 < 2 ^ 64 }
        ensures number { self.new.number ≤ self.old.number + 1 }
        ensures shape { E.shape engine.new ≡ E.shape engine.old }
        ensures ready { E.is_ready engine.new }
        ensures outcome { (start : E) (seen told : List ℕ) →
            HasServed (E.shape engine.old).passes E.turns start engine.old seen told
            self.old.bytes self.old.number →
            FeedOutcome (E.shape engine.old).passes E.turns start engine.new
            (λ text. W.takes writer.old text writer.new)
            (seen ++ byte ∷ []) told self.new.bytes self.new.number result }
        ensures failed { W.has_failed writer.new ≡ is_write_fault result }
        ensures flushes { W.flushes writer.new ≡ W.flushes writer.old }
        ensures no_read { is_read_fault result ≡ false }
        ensures made { is_make_fault result ≡ false }
    {
        match self.bytes.take(byte) {
            Taken::Kept => return Ok(()),
            Taken::NoRoom => return Err(RunFault::Line(self.number)),
            Taken::End => {}
        }
        match self.serve(engine, writer) {
            Ok(()) => {
                self.bytes.clear();
                self.number += 1;
                Ok(())
            }
            Err(fault) => Err(fault),
        }
    }

    // Takes the next bytes of the script, and serves the lines that they end.
    fn feed_all<E: Engine, W: Sink>(
        &mut self,
        engine: &mut E,
        writer: &mut W,
        bytes: &[u8],
    ) -> Result<(), RunFault>
        requires works { W.has_failed writer.old ≡ false }
        requires ready { E.is_ready engine.old }
        requires few { self.old.number + length bytes.now < 2 ^ 64 }
        ensures number { self.new.number ≤ self.old.number + length bytes.now }
        ensures shape { E.shape engine.new ≡ E.shape engine.old }
        ensures ready { E.is_ready engine.new }
        ensures outcome { (start : E) (seen told : List ℕ) →
            HasServed (E.shape engine.old).passes E.turns start engine.old seen told
            self.old.bytes self.old.number →
            FeedOutcome (E.shape engine.old).passes E.turns start engine.new
            (λ text. W.takes writer.old text writer.new)
            (seen ++ bytes.now) told self.new.bytes self.new.number result }
        ensures failed { W.has_failed writer.new ≡ is_write_fault result }
        ensures flushes { W.flushes writer.new ≡ W.flushes writer.old }
        ensures no_read { is_read_fault result ≡ false }
        ensures made { is_make_fault result ≡ false }
    {
        for byte in bytes {
            if let Err(fault) = self.feed(engine, writer, *byte) {
                return Err(fault);
            }
        }
        Ok(())
    }

    // Serves the last line, after which no more bytes come, and flushes the writer.
    fn finish<E: Engine, W: Sink>(&self, engine: &mut E, writer: &mut W) -> Result<(), RunFault>
        requires works { W.has_failed writer.old ≡ false }
        requires ready { E.is_ready engine.old }
        ensures ready { E.is_ready engine.new }
        ensures outcome { (start : E) (seen told : List ℕ) →
            HasServed (E.shape engine.old).passes E.turns start engine.old seen told
            self.now.bytes self.now.number →
            FinishOutcome (E.shape engine.old).passes E.turns start engine.new
            (λ text. W.takes writer.old text writer.new)
            (W.flushes writer.old) (W.flushes writer.new) seen told result }
        ensures failed { W.has_failed writer.new ≡ is_write_fault result }
        ensures no_read { is_read_fault result ≡ false }
        ensures made { is_make_fault result ≡ false }
    {
        if let Err(fault) = self.serve(engine, writer) {
            return Err(fault);
        }
        match writer.flush() {
            Ok(()) => Ok(()),
            Err(Failed) => Err(RunFault::Write),
        }
    }
}

// Reads once. Before it does, the replies to all whole lines so far are written.
fn read_piece<R: Source, W: Sink, E: Engine>(
    reader: &mut R,
    _writer: &W,
    _engine: &E,
    _line: &OpenLine,
    piece: &mut [u8],
) -> Result<usize, Failed>
    requires works { R.has_failed reader.old ≡ false }
    requires room { 0 < length piece.old }
    requires replied { AllReplied (E.shape _engine.now).passes E.turns R.hands W.takes _engine.now
        reader.old _writer.now _line.now.bytes _line.now.number }
    ensures count { IfOk result (λ n. n ≤ length piece.new) }
    ensures bytes { IfOk result (λ n. R.hands reader.old (take n piece.new) reader.new) }
    ensures end { IfOk result (λ n. n ≡ 0 → R.is_at_end reader.new) }
    ensures err { OnErr result (R.hands reader.old [] reader.new) }
    ensures failed { R.has_failed reader.new ≡ is_err result }
    ensures ends { IfOk result (λ n. R.ends reader.new ≡ ends_after (R.ends reader.old) n) }
    ensures unended { OnErr result (R.ends reader.new ≡ R.ends reader.old) }
{
    reader.read(piece)
}

/// Runs the script that the reader hands out over an engine, and writes the replies.
/// No more is read before the whole lines that came have their replies.
/// The engine takes the turns of the lines that were served, and no turn after them.
pub fn run<R: Source, W: Sink, E: Engine>(
    reader: &mut R,
    writer: &mut W,
    engine: &mut E,
) -> Result<(), RunFault>
    requires reader_works { R.has_failed reader.old ≡ false }
    requires writer_works { W.has_failed writer.old ≡ false }
    requires ready { E.is_ready engine.old }
    ensures ready { E.is_ready engine.new }
    ensures outcome { EndOfRun (E.shape engine.old).passes E.turns engine.old engine.new
        (λ seen. R.hands reader.old seen reader.new) (R.is_at_end reader.new)
        (λ text. W.takes writer.old text writer.new)
        (W.flushes writer.old) (W.flushes writer.new) result }
    ensures read { R.has_failed reader.new ≡ is_read_fault result }
    ensures write { W.has_failed writer.new ≡ is_write_fault result }
    ensures made { is_make_fault result ≡ false }

    // Once the reader has handed out nothing, it is not asked again.
    ensures ends { EndsOnce (R.ends reader.old) (R.ends reader.new) result }
{
    let mut line = OpenLine {
        bytes: LineBuffer::new(),
        number: 1,
    };
    let mut piece = [0u8; PIECE];
    let mut total: u64 = 0;
    while total < LIMIT {
        let room = (LIMIT - total).min(PIECE as u64) as usize;
        let Ok(n) = read_piece(reader, writer, engine, &line, &mut piece[..room]) else {
            return Err(RunFault::Read);
        };
        if n == 0 {
            return line.finish(engine, writer);
        }
        if let Err(fault) = line.feed_all(engine, writer, &piece[..n]) {
            return Err(fault);
        }
        total += n as u64;
    }
    Err(RunFault::TooLong)
}
