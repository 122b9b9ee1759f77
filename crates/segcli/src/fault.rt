//! The faults of the program, with their statuses and lines, and the printing of lines and of other texts.
ghost use Rattle.std.specs.Prelude.{◌≡◌, false, is_err};
ghost use Rattle.segcli.specs.Streams.{output};
ghost use Rattle.segcli.specs.Faults.{fault_line, fault_status};
ghost use Rattle.segcli.specs.Printing.{PrintOutcome, IsPrinted, IsFlushed, WasFlushed};

use crate::status::ExitStatus;
use segindex::MakeFault;
use segload::LoadFault;
use segreplay::{ReplayFault, TraceFault, TraceLineFault};
use segscript::{Failed, Line, RunFault, Sink, line_of, put, put_number, write_all};
use segword::ShapeFault;
use std::alloc::AllocError;

/// Why the program failed.
#[derive(Clone, Copy, Debug, PartialEq, Eq)]
pub enum ProgramFault {
    /// This line of the script is the first bad one. Lines are counted from 1.
    BadLine(u64),
    /// This line of the trace is the first bad one, for this reason. Lines are counted from 1.
    BadRow(u64, TraceLineFault),
    /// A word isn't 16 hexadecimal digits, or has no reading as a word of its kind.
    BadWord,
    /// The arguments aren't text.
    BadArguments,
    /// An index can't have this shape.
    BadShape(ShapeFault),
    /// There was no memory left.
    OutOfMemory,
    /// The reader failed.
    Read,
    /// The writer failed, or a write took none of its bytes.
    Write,
    /// After 2^63 bytes the script or the trace had no end.
    TooLong,
    /// This pass of a load was stopped.
    Stopped(u32),
}

impl From<RunFault> for ProgramFault {
    ghost use Rattle.segcli.specs.Faults.{fault_of_run};

    ghost from_gives = { λ fault result. result ≡ fault_of_run fault };

    fn from(fault: RunFault) -> ProgramFault {
        match fault {
            RunFault::Read => ProgramFault::Read,
            RunFault::Write => ProgramFault::Write,
            RunFault::Line(number) => ProgramFault::BadLine(number),
            RunFault::Make(MakeFault::Shape(fault)) => ProgramFault::BadShape(fault),
            RunFault::Make(MakeFault::OutOfMemory) => ProgramFault::OutOfMemory,
            RunFault::TooLong => ProgramFault::TooLong,
        }
    }
}

impl From<LoadFault> for ProgramFault {
    ghost use Rattle.segcli.specs.Faults.{fault_of_load};

    ghost from_gives = { λ fault result. result ≡ fault_of_load fault };

    fn from(fault: LoadFault) -> ProgramFault {
        match fault {
            LoadFault::Make(MakeFault::Shape(fault)) => ProgramFault::BadShape(fault),
            LoadFault::Make(MakeFault::OutOfMemory) | LoadFault::OutOfMemory => {
                ProgramFault::OutOfMemory
            }
            LoadFault::Stopped(pass) => ProgramFault::Stopped(pass),
        }
    }
}

impl From<ReplayFault> for ProgramFault {
    ghost use Rattle.segcli.specs.Faults.{fault_of_replay};

    ghost from_gives = { λ fault result. result ≡ fault_of_replay fault };

    fn from(fault: ReplayFault) -> ProgramFault {
        match fault {
            ReplayFault::Make(MakeFault::Shape(fault)) => ProgramFault::BadShape(fault),
            ReplayFault::Make(MakeFault::OutOfMemory) | ReplayFault::OutOfMemory => {
                ProgramFault::OutOfMemory
            }
        }
    }
}

impl From<TraceFault> for ProgramFault {
    ghost use Rattle.segcli.specs.Faults.{fault_of_trace};

    ghost from_gives = { λ fault result. result ≡ fault_of_trace fault };

    fn from(fault: TraceFault) -> ProgramFault {
        match fault {
            TraceFault::Read => ProgramFault::Read,
            TraceFault::Line(number, why) => ProgramFault::BadRow(number, why),
            TraceFault::OutOfMemory => ProgramFault::OutOfMemory,
            TraceFault::TooLong => ProgramFault::TooLong,
        }
    }
}

impl From<AllocError> for ProgramFault {
    ghost use Rattle.segcli.specs.declared.fault.ProgramFault.{ProgramFault};

    ghost from_gives = { λ _ result. result ≡ ProgramFault.OutOfMemory };

    fn from(_error: AllocError) -> ProgramFault {
        ProgramFault::OutOfMemory
    }
}

impl ProgramFault {
    /// The exit status: 2 for a bad line, a bad word or bad arguments, else 3.
    pub fn status(self) -> u8
        ensures { result ≡ fault_status self }
    {
        match self {
            ProgramFault::BadLine(_)
            | ProgramFault::BadRow(_, _)
            | ProgramFault::BadWord
            | ProgramFault::BadArguments => ExitStatus::BadInput.code(),
            ProgramFault::BadShape(_)
            | ProgramFault::OutOfMemory
            | ProgramFault::Read
            | ProgramFault::Write
            | ProgramFault::TooLong
            | ProgramFault::Stopped(_) => ExitStatus::Failed.code(),
        }
    }

    /// The line that is printed.
    pub fn line(self) -> Line
        ensures { result.items ≡ fault_line self }
    {
        match self {
            ProgramFault::BadLine(number) | ProgramFault::BadRow(number, _) => {
                let mut text = line_of(b"bad line ");
                put_number(&mut text, number);
                put(&mut text, b"\n");
                text
            }
            ProgramFault::BadWord => line_of(b"bad word\n"),
            ProgramFault::BadArguments => line_of(b"bad arguments: not UTF-8\n"),
            ProgramFault::BadShape(fault) => {
                let mut text = line_of(b"bad shape ");
                put_number(&mut text, fault.number());
                put(&mut text, b"\n");
                text
            }
            ProgramFault::OutOfMemory => line_of(b"out of memory\n"),
            ProgramFault::Read => line_of(b"read failed\n"),
            ProgramFault::Write => line_of(b"write failed\n"),
            ProgramFault::TooLong => line_of(b"script too long\n"),
            ProgramFault::Stopped(pass) => {
                let mut text = line_of(b"stopped pass ");
                put_number(&mut text, pass);
                put(&mut text, b"\n");
                text
            }
        }
    }
}

/// Writes a text and flushes.
pub fn print<W: Sink>(writer: &mut W, text: &[u8]) -> Result<(), Failed>
    requires works { W.has_failed writer.old ≡ false }
    ensures outcome { PrintOutcome text.now (output W.Sink writer.old writer.new) result }
    ensures failed { W.has_failed writer.new ≡ is_err result }
{
    write_all(writer, text)?;
    writer.flush()
}

// Prints the line of a fault. Before it does, the writer was asked to flush.
pub(crate) fn print_after<W: Sink, E: Sink>(_writer: &W, errors: &mut E, text: &[u8])
    requires flushed { WasFlushed W.Sink _writer.now }
    requires errors_work { E.has_failed errors.old ≡ false }
    ensures { IsPrinted text.now (output E.Sink errors.old errors.new) }
{
    let _ = print(errors, text);
}

/// Flushes the writer, then prints the line of a fault, and returns the fault's status.
/// It does so even if the flush or the line fails.
pub fn report<W: Sink, E: Sink>(fault: ProgramFault, writer: &mut W, errors: &mut E) -> u8
    requires errors_work { E.has_failed errors.old ≡ false }
    ensures status { result ≡ fault_status fault }
    ensures writer { IsFlushed (output W.Sink writer.old writer.new) }
    ensures errors { IsPrinted (fault_line fault) (output E.Sink errors.old errors.new) }
{
    let _ = writer.flush();
    print_after(writer, errors, fault.line().as_slice());
    fault.status()
}
