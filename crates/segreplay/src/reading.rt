//! Reads the lines of a trace, byte by byte, into turns: commands, each with its client.
use crate::fault::TraceFault;
use crate::player::Assignment;
use segtext::{LineBuffer, Taken};
use segtraces::{Form, Stated, TraceCommand, TraceLineFault, read_line};
use std::alloc::Global;

/// The most bytes of a line.
const LINE: usize = 4096;

/// Which lines a trace begins with, which client makes each command, and which are counted.
#[derive(Clone, Copy, Debug)]
pub(crate) struct Rules {
    pub(crate) form: Form,
    pub(crate) clients: u32,
    /// How many commands are left out of the counts.
    pub(crate) warm: u64,
}

/// How far a trace is read.
#[derive(Drop)]
pub(crate) struct TracePosition {
    rules: Rules,
    // How the next line is written.
    form: Form,
    // The bytes of the line that has no end yet, and its number.
    line: LineBuffer<LINE>,
    number: u64,
    /// How many commands were read.
    pub(crate) commands: u64,
    /// Those of them that weren't handed on yet.
    pub(crate) turns: Vec<Assignment>,
}

impl TracePosition {
    ghost use Rattle.std.specs.Prelude.{[], ◌∷◌};
    ghost use Rattle.segreplay.specs.Traces.{FeedsMore, HandsOn, HasRead, TakesCommand};
    ghost use Rattle.segreplay.specs.Traces.{TakesLine, TakesStated};

    /// Nothing is read yet.
    pub(crate) fn new(alloc: Global, rules: Rules) -> TracePosition
        ensures { HasRead rules [] [] result }
    {
        TracePosition {
            rules,
            form: rules.form,
            line: LineBuffer::new(),
            number: 1,
            commands: 0,
            turns: Vec::new(alloc),
        }
    }

    /// Forgets the commands that were read, which have been handed on.
    pub(crate) fn clear(&mut self)
        ensures { HandsOn self.old.turns.items self.old self.new }
    {
        self.turns.clear();
    }

    /// Takes the next bytes of the trace.
    pub(crate) fn feed_all(&mut self, bytes: &[u8]) -> Result<(), TraceFault>
        ensures { FeedsMore bytes.now self.old self.new result }
    {
        for byte in bytes {
            if let Err(fault) = self.feed(*byte) {
                return Err(fault);
            }
        }
        Ok(())
    }

    // Takes the next byte of the trace.
    fn feed(&mut self, byte: u8) -> Result<(), TraceFault>
        ensures { FeedsMore (byte ∷ []) self.old self.new result }
    {
        match self.line.take(byte) {
            Taken::Kept => Ok(()),
            Taken::NoRoom => Err(TraceFault::Line(self.number, TraceLineFault::TooLong)),
            Taken::End => self.end_line(),
        }
    }

    /// Takes the line, whose end has come. A blank one states no command.
    pub(crate) fn end_line(&mut self) -> Result<(), TraceFault>
        ensures { TakesLine self.old self.new result }
    {
        if let Err(fault) = self.take_line() {
            return Err(fault);
        }
        self.line.clear();
        self.number = self.number.saturating_add(1);
        Ok(())
    }

    // Takes the line, but for its end.
    fn take_line(&mut self) -> Result<(), TraceFault>
        ensures { TakesCommand self.old self.new result }
    {
        match read_line(self.form, self.line.as_slice()) {
            Ok(stated) => self.take_stated(stated),
            Err(fault) => Err(TraceFault::Line(self.number, fault)),
        }
    }

    // Takes what a line has stated.
    fn take_stated(&mut self, stated: Stated) -> Result<(), TraceFault>
        ensures { TakesStated stated self.old self.new result }
    {
        match stated {
            Stated::Nothing => Ok(()),
            Stated::Command(request) => self.take_request(request),
            Stated::Header(columns) => {
                self.form = Form::Named(columns);
                Ok(())
            }
        }
    }

    // Puts the turn of a command behind the others.
    fn take_request(&mut self, request: TraceCommand) -> Result<(), TraceFault>
        ensures { TakesStated (Stated.Command request) self.old self.new result }
    {
        let turn = Assignment {
            client: request.client(self.rules.clients),
            request,
            is_counted: self.commands >= self.rules.warm,
        };
        let Ok(()) = self.turns.push(turn) else {
            return Err(TraceFault::OutOfMemory);
        };
        self.commands = self.commands.saturating_add(1);
        Ok(())
    }
}
