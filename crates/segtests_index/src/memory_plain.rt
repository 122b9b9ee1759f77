//! The plain cache out of memory: a command that is refused changes nothing,
//! and the answers before it are kept.
use crate::calls::MOMENT;
use crate::commands::{command_of, is_reply};
use crate::hoard::{RUNS, STEP, hoard, leave};
use crate::memory_tables::{LONGEST_CHAIN, MOVED_ITEMS, TWO_SEGMENTS, Table};
use crate::refusals::check_refused;
use crate::rows::Row;
use crate::same::{check_that, same};
use segmodel::{Answer, Command, Plain, PlainFault, Shelf, run};
use segword::{Key, Shape};
use std::alloc::AllocGlobal;
use std::process::Abort;

// The keys of the tables.
const KEYS: &[u8] = b"abcdefghijklmnopqrstuvwxyz";

fn plain<R: AllocGlobal + Abort>(rt: &R, shape: &Shape) -> Plain {
    shape.check().expect(rt, "a shape");
    assert!(rt; shape.passes == 1);
    Plain::new(rt.alloc(), shape).expect(rt, "memory")
}

// What each key of the tables reads, with its version.
fn content<R: AllocGlobal + Abort>(rt: &R, plain: &mut Plain) -> Vec<Answer> {
    let mut content = Vec::new(rt.alloc());
    for byte in KEYS {
        let key = Key::new(&[*byte]).expect(rt, "a key");
        let read = serve(plain, &Command::Gets(key, MOMENT)).expect(rt, "memory");
        content.push(read).expect(rt, "memory");
    }
    content
}

// Serves a command. This function has no contract, so that the proof of a test needn't read the cache's.
fn serve(plain: &mut Plain, command: &Command) -> Result<Answer, PlainFault> {
    plain.serve(command)
}

// A plain cache that has served these rows.
fn after<R: AllocGlobal + Abort>(rt: &R, shape: &Shape, rows: &[Row<'_>]) -> Plain {
    let mut plain = plain(rt, shape);
    for &(text, _) in rows {
        let command = command_of(text).expect(rt, "a command");
        serve(&mut plain, &command).expect(rt, "memory");
    }
    plain
}

// Serves the rows with so many bytes left at each command, and returns how many commands were refused.
// A refused command is served again with memory left: its answer is then the row's.
// The keys and versions at the end are those of a cache that was never refused memory.
// They are read at the end alone, since a read raises a frequency, on which a keep depends.
fn refused_commands<R: AllocGlobal + Abort>(rt: &R, table: Table<'_>, bytes: usize) -> usize {
    let (shape, rows) = table;
    let mut plain = plain(rt, &shape);
    let mut refused = 0usize;
    for &(text, wanted) in rows {
        let command = command_of(text).expect(rt, "a command");
        let taken = leave(rt.alloc(), bytes).expect(rt, "memory");
        let mut served = serve(&mut plain, &command);
        drop(taken);
        if served == Err(PlainFault::OutOfMemory) {
            refused = refused.saturating_add(1);
            served = serve(&mut plain, &command);
        }
        let answer = served.expect(rt, "memory");
        assert!(rt; is_reply(wanted, answer), "{text}");
    }
    let mut other = after(rt, &shape, rows);
    same(rt, &content(rt, &mut plain), &content(rt, &mut other));
    refused
}

#[test]
fn a_refused_command_changes_nothing(rt: HostRuntime) {
    for table in [LONGEST_CHAIN, TWO_SEGMENTS, MOVED_ITEMS] {
        let all = hoard(rt.alloc()).expect(&rt, "memory");
        let mut refused = 0;
        for run in 0..RUNS {
            if refused_commands(&rt, table, STEP * run) == 0 {
                break;
            }
            refused = run + 1;
        }
        drop(all);
        check_refused(&rt, refused);
    }
}

// Whether the answers are those of the first rows.
fn are_answers(rows: &[Row<'_>], answers: &[Answer]) -> bool {
    rows.iter().zip(answers).all(|((_, wanted), answer)| answer
        .clone()
        .is_ok_and(|told| is_reply(wanted, told)))
}

// The commands of the rows.
fn commands_of<R: AllocGlobal + Abort>(rt: &R, rows: &[Row<'_>]) -> Vec<Command> {
    let mut commands = Vec::new(rt.alloc());
    for &(text, _) in rows {
        let command = command_of(text).expect(rt, "a command");
        commands.push(command).expect(rt, "memory");
    }
    commands
}

// Runs commands. This function has no contract either.
fn run_all(
    plain: &mut Plain,
    commands: &[Command],
    answers: &mut Vec<Answer>,
) -> Result<(), PlainFault> {
    run(plain, commands, answers)
}

// Runs the commands of the rows with so many bytes left, and returns whether the run was refused memory.
// A refused run has the answers of the commands before. The commands that are left go on from there.
// At the end the keys and versions are those of a cache that was never refused memory.
fn is_run_refused<R: AllocGlobal + Abort>(rt: &R, table: Table<'_>, bytes: usize) -> bool {
    let (shape, rows) = table;
    let commands = commands_of(rt, rows);
    let mut refused = plain(rt, &shape);
    let mut answers = Vec::new(rt.alloc());
    let taken = leave(rt.alloc(), bytes).expect(rt, "memory");
    let ended = run_all(&mut refused, commands.as_slice(), &mut answers);
    drop(taken);
    let done = answers.len();
    assert!(rt; are_answers(rows, answers.as_slice()), "{done} answers");
    if ended.is_ok() {
        same(rt, &done, &rows.len());
        return false;
    }
    let (_, left) = commands
        .as_slice()
        .split_at_checked(done)
        .expect(rt, "no more answers than commands");
    check_that(rt, !left.is_empty());
    run_all(&mut refused, left, &mut answers).expect(rt, "memory");
    same(rt, &answers.len(), &rows.len());
    check_that(rt, are_answers(rows, answers.as_slice()));
    let mut other = after(rt, &shape, rows);
    same(rt, &content(rt, &mut refused), &content(rt, &mut other));
    true
}

#[test]
fn a_refused_run_has_the_answers_before(rt: HostRuntime) {
    for table in [LONGEST_CHAIN, TWO_SEGMENTS, MOVED_ITEMS] {
        let all = hoard(rt.alloc()).expect(&rt, "memory");
        let mut refused = 0;
        for run in 0..RUNS {
            if !is_run_refused(&rt, table, STEP * run) {
                break;
            }
            refused = run + 1;
        }
        drop(all);
        check_refused(&rt, refused);
    }
}
