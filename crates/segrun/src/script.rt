//! What `run_program` can't do with a source and two sinks: it opens files, explains a bad line of a script, and prints
//! what a watch sees of a load or a replay.
ghost use Rattle.std.specs.Prelude.{◌≡◌, false};

use crate::progress::Teller;
use segcli::{ExitStatus, Refusal, Streams, Task, bad_line_text, run_given};
use segscript::{Explaining, ReadSource, Source, WriteSink};
use std::alloc::{AllocError, AllocGlobal};
use std::fs::File;
use std::io;
use std::io::{ErrorKind, IsTerminal, Read, Write};
use std::sync::Wait;
use std::thread::Threads;

// For who has to type the lines.
const SCRIPT_HINT: &[u8] =
    b"segrun: reads a script from the terminal (segrun script --help has its lines, Ctrl-D ends it)\n";

const TRACE_HINT: &[u8] =
    b"segrun: reads a trace from the terminal (segrun replay --help has its lines, Ctrl-D ends it)\n";

const MEMORY_IS_WANTED: &[u8] = b"out of memory\n";

/// What was read from the words, and where it is carried out.
#[derive(Drop)]
pub struct Program<'p, T> {
    threads: &'p T,
    rt: &'p HostRuntime,
    read: &'p Result<Task<'p>, Refusal>,
}

impl<'p, T: Threads + Wait + AllocGlobal + Sync> Program<'p, T> {
    pub fn new(
        threads: &'p T,
        rt: &'p HostRuntime,
        read: &'p Result<Task<'p>, Refusal>,
    ) -> Program<'p, T> {
        Program { threads, rt, read }
    }
}

impl<T: Threads + Wait + AllocGlobal + Sync> Program<'_, T> {
    /// Whether `run_program` can't do it. Words that weren't read for lack of memory aren't read again,
    /// since they may name a file.
    pub fn needs_more(&self) -> bool {
        match self.read {
            Ok(Task::Script { explain, file, .. }) => *explain || path_of(*file).is_some(),
            Ok(Task::Load(load)) => load.stats || load.progress,
            Ok(Task::Replay(_)) => true,
            Ok(Task::Word(_) | Task::Show(_)) => false,
            Err(refusal) => !matches!(refusal, Refusal::Usage(_)),
        }
    }

    /// Prints a hint if somebody has to type a script or a trace.
    pub fn hint(&self) {
        let hint = match self.read {
            Ok(Task::Script { file, .. }) if path_of(*file).is_none() => SCRIPT_HINT,
            Ok(Task::Replay(replay)) if path_of(replay.file).is_none() => TRACE_HINT,
            _ => return,
        };
        if self.rt.stdin().is_terminal() {
            let _ = self.rt.stderr().write_all(hint);
        }
    }

    /// Carries out what was read, over a file if one is named, and returns the exit status.
    pub fn run(&self) -> u8 {
        match self.read {
            Ok(
                Task::Script {
                    shape,
                    explain,
                    file,
                },
            ) => self.run_script(*file, explain.then_some(shape.passes)),
            Ok(Task::Replay(replay)) => self.run_trace(replay.file),
            _ => self.run_over(ReadSource::new(self.rt.reader())).0,
        }
    }

    // Runs a script of a file or of standard input. With passes it explains a bad line.
    fn run_script(&self, file: Option<&str>, passes: Option<u32>) -> u8 {
        let Some(path) = path_of(file) else {
            return self.run_lines(self.rt.reader(), passes);
        };
        match File::open(self.rt, path) {
            Ok(file) => self.run_lines(file, passes),
            Err(error) => self.cant_open(
                &error,
                format!(in self.rt.alloc(); "read failed\n{path}: {error}\n"),
            ),
        }
    }

    // Replays a trace of a file or of standard input.
    fn run_trace(&self, file: Option<&str>) -> u8 {
        let Some(path) = path_of(file) else {
            return self.run_over(ReadSource::new(self.rt.reader())).0;
        };
        match File::open(self.rt, path) {
            Ok(file) => self.run_over(ReadSource::new(file)).0,
            Err(error) => self.cant_open(
                &error,
                format!(in self.rt.alloc(); "read failed: {path}: {error}\n"),
            ),
        }
    }

    // Prints why a file can't be opened: by this text, or that memory is wanted.
    fn cant_open(&self, error: &io::Error, text: Result<String, AllocError>) -> u8 {
        let line = match &text {
            Ok(text) if error.kind() != ErrorKind::OutOfMemory => text.as_bytes(),
            _ => MEMORY_IS_WANTED,
        };
        let _ = self.rt.stderr().write_all(line);
        ExitStatus::Failed.code()
    }

    // Runs a script of these lines.
    fn run_lines<R: Read + Drop>(&self, lines: R, passes: Option<u32>) -> u8 {
        let Some(passes) = passes else {
            return self.run_over(ReadSource::new(lines)).0;
        };
        let source = Explaining::new(ReadSource::new(lines), passes);
        let (status, source) = self.run_over(source);
        if status == ExitStatus::BadInput.code() {
            explain(self.rt, &source);
        }
        status
    }

    // Runs the program with a script or a trace of this source. Returns the status, and the source.
    fn run_over<S: Source>(&self, source: S) -> (u8, S)
        requires { S.has_failed source ≡ false }
    {
        let mut streams = Streams {
            source,
            writer: WriteSink::new(self.rt.stdout()),
            errors: WriteSink::new(self.rt.stderr()),
        };
        let teller = Teller::new(self.rt);
        let status = run_given(
            self.threads,
            self.rt.alloc(),
            self.read,
            &mut streams,
            &teller,
        );
        (status, streams.source)
    }
}

// The path of a file. `-` is none, but standard input.
fn path_of(file: Option<&str>) -> Option<&str> {
    file.filter(|path| *path != "-")
}

// Explains the first bad line. A text that can't be written is left out.
fn explain<S: Source>(rt: &HostRuntime, source: &Explaining<S>) {
    let Some(bad) = source.bad_line() else {
        return;
    };
    if let Ok(text) = bad_line_text(rt.alloc(), bad) {
        let _ = rt.stderr().write_all(text.as_slice());
    }
}
