//! The object index of a segment-structured cache as a program,
//! which runs scripts, loads and replays, and explains words of its table.
#![tactic(auto)]

mod progress;
mod script;

use script::Program;
use segcli::{read_command, run_program, words_given};
use segscript::{ReadSource, WriteSink};
use std::alloc::AllocGlobal;
use std::env;
use std::process::ExitCode;
use std::sync::Wait;
use std::thread::Threads;

fn main(rt: HostRuntime) -> ExitCode {
    ExitCode::from(run(&rt, &rt))
}

// Does what the words of the program ask for, and returns the exit status.
fn run<T: Threads + Wait + AllocGlobal + Sync>(threads: &T, rt: &HostRuntime) -> u8 {
    match words_given(rt.alloc(), env::args(rt)) {
        Ok(words) => run_words(threads, rt, words.as_slice()),
        Err(refusal) => Program::new(threads, rt, &Err(refusal)).run(),
    }
}

// Does what these words ask for, by `run_program` if the standard streams are enough for it.
fn run_words<T: Threads + Wait + AllocGlobal + Sync>(
    threads: &T,
    rt: &HostRuntime,
    words: &[String],
) -> u8 {
    let read = read_command(rt.alloc(), words);
    let program = Program::new(threads, rt, &read);
    program.hint();
    if program.needs_more() {
        return program.run();
    }
    run_program(
        threads,
        rt.alloc(),
        words,
        &mut ReadSource::new(rt.reader()),
        &mut WriteSink::new(rt.stdout()),
        &mut WriteSink::new(rt.stderr()),
    )
}
