//! Scripts out of memory: each request of creating the index is refused in turn, and none is made after it.
ghost use Rattle.std.specs.Prelude.{◌≡◌, ◌++◌, [], false, refl};
ghost use Rattle.segscript.specs.Words.{hands_more};

use crate::hoard::{RUNS, STEP, hoard, is_none_left, leave};
use crate::memory_tables::{
    HELD_OVER_EVICTION, LOCKED_AND_HELD, LONGEST_CHAIN, TWO_SEGMENTS, Table,
};
use crate::refusals::check_refused;
use crate::same::{check_that, same};
use segindex::MakeFault;
use segscript::{Failed, MemSink, MemSource, RunFault, Sink, Source, run_script};
use segword::Shape;
use std::alloc::{AllocError, AllocGlobal, Global};
use std::process::Abort;

// The lines of a table, and the replies that it wants.
fn texts_of(alloc: Global, table: Table<'_>) -> Result<(Vec<u8>, Vec<u8>), AllocError> {
    let (_, rows) = table;
    let mut script = Vec::new(alloc);
    let mut replies = Vec::new(alloc);
    for &(line, reply) in rows {
        script.extend_from_slice(line.as_bytes())?;
        script.push(b'\n')?;
        replies.extend_from_slice(reply.as_bytes())?;
        replies.push(b'\n')?;
    }
    Ok((script, replies))
}

// Runs a script. This function has no contract but what a run asks for,
// so that the proof of a test needn't read that of a run.
fn run_over<S: Source, W: Sink>(
    alloc: Global,
    reader: &mut S,
    writer: &mut W,
    shape: Shape,
) -> Result<(), RunFault>
    requires reader_works { S.has_failed reader.old ≡ false }
    requires writer_works { W.has_failed writer.old ≡ false }
{
    run_script(alloc, reader, writer, shape)
}

// Runs a table with so many bytes left, and returns whether its index was refused memory.
// If it was, nothing was read and nothing written.
fn is_refused<R: AllocGlobal + Abort>(rt: &R, table: Table<'_>, bytes: usize) -> bool {
    let (shape, _) = table;
    let (script, replies) = texts_of(rt.alloc(), table).expect(rt, "memory");
    let mut reader = MemSource::new(script.as_slice());
    let mut writer = MemSink::new(rt.alloc(), 1_000).expect(rt, "memory");
    let taken = leave(rt.alloc(), bytes).expect(rt, "memory");
    let ended = run_over(rt.alloc(), &mut reader, &mut writer, shape);
    drop(taken);
    if ended.is_ok() {
        same(rt, &writer.taken.as_slice(), &replies.as_slice());
        return false;
    }
    same(rt, &ended, &Err(RunFault::Make(MakeFault::OutOfMemory)));
    same(rt, &reader.left, &script.as_slice());
    same(
        rt,
        &(writer.taken.as_slice(), writer.flushes),
        &(b"".as_slice(), 0),
    );
    true
}

#[test]
fn a_script_has_its_index_or_memory_is_wanted(rt: HostRuntime) {
    for table in [LONGEST_CHAIN, LOCKED_AND_HELD] {
        let all = hoard(rt.alloc()).expect(&rt, "memory");
        let mut refused = 0;
        for run in 0..RUNS {
            if !is_refused(&rt, table, STEP * run) {
                break;
            }
            refused = run + 1;
        }
        drop(all);
        check_refused(&rt, refused);
    }
}

/// A reader that takes all memory before it hands out its first byte.
#[derive(Drop)]
struct TakingSource<'a> {
    inner: MemSource<'a>,
    alloc: Global,
    taken: Option<(Vec<Vec<u8>>, Vec<Vec<u8>>)>,
    is_none_left: bool,
}

impl TakingSource<'_> {
    // Takes all memory, unless it was taken before.
    fn take(&mut self)
        ensures { self.new.inner ≡ self.old.inner }
    {
        if self.taken.is_some() {
            return;
        }
        let Ok(all) = hoard(self.alloc) else {
            return;
        };
        let Ok(rest) = leave(self.alloc, 0) else {
            return;
        };
        self.is_none_left = is_none_left(self.alloc);
        self.taken = Some((all, rest));
    }
}

impl<'a> Source for TakingSource<'a> {
    ghost hands = { λ old bytes new. old.inner.left.now ≡ bytes ++ new.inner.left.now };

    ghost is_at_end = { λ s. s.inner.left.now ≡ [] };

    ghost has_failed = { λ s. s.inner.failed };

    ghost ends = { λ s. s.inner.ends };

    fn read(&mut self, buffer: &mut [u8]) -> Result<usize, Failed> {
        self.take();
        self.inner.read(buffer)
    }

    ghost hands_none = { λ s. refl };

    ghost hands_more = { λ s t u a b. hands_more s.inner.left.now t.inner.left.now u.inner.left.now a b };
}

#[test]
fn a_script_asks_for_nothing_once_its_index_is_made(rt: HostRuntime) {
    for table in [
        LONGEST_CHAIN,
        HELD_OVER_EVICTION,
        TWO_SEGMENTS,
        LOCKED_AND_HELD,
    ] {
        let (shape, _) = table;
        let (script, replies) = texts_of(rt.alloc(), table).expect(&rt, "memory");
        let mut reader = TakingSource {
            inner: MemSource::new(script.as_slice()),
            alloc: rt.alloc(),
            taken: None,
            is_none_left: false,
        };
        let mut writer = MemSink::new(rt.alloc(), 1_000).expect(&rt, "memory");
        let ended = run_over(rt.alloc(), &mut reader, &mut writer, shape);
        reader.taken = None;
        check_that(&rt, reader.is_none_left);
        same(&rt, &ended, &Ok(()));
        same(&rt, &writer.taken.as_slice(), &replies.as_slice());
    }
}
