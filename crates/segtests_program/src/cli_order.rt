//! What comes first if a command ends with a fault: both writers look at one clock.
ghost use Rattle.std.specs.Prelude.{◌≡◌, ◌++◌, false, IfOk};
ghost use Rattle.segscript.specs.Words.{takes_more, takes_none};

use crate::cli_runs::run_over;
use segcli::Streams;
use segscript::{Failed, MemSink, MemSource, Sink};
use std::alloc::{AllocError, Global};
use std::cell::Cell;

/// A writer that keeps when it was flushed last, and when it was written to first.
/// Each call of the writer is a tick of the clock. 0 stands for never.
#[derive(Drop)]
struct TimedSink<'a> {
    inner: MemSink,
    clock: &'a Cell<u32>,
    flushed_at: u32,
    written_at: u32,
}

impl TimedSink<'_> {
    fn tick(&self) -> u32 {
        let now = self.clock.get().wrapping_add(1);
        self.clock.set(now);
        now
    }
}

impl Sink for TimedSink<'_> {
    ghost takes = { λ old bytes new. new.inner.taken.items ≡ old.inner.taken.items ++ bytes };

    ghost has_failed = { λ s. s.inner.failed };

    ghost flushes = { λ s. s.inner.flushes };

    fn write(&mut self, bytes: &[u8]) -> Result<usize, Failed> {
        let now = self.tick();
        if self.written_at == 0 {
            self.written_at = now;
        }
        self.inner.write(bytes)
    }

    fn flush(&mut self) -> Result<(), Failed> {
        self.flushed_at = self.tick();
        self.inner.flush()
    }

    ghost takes_none = { λ s. takes_none s.inner.taken.items };

    ghost takes_more = { λ s t u a b. takes_more s.inner.taken.items t.inner.taken.items u.inner.taken.items a b };
}

// A writer over memory that has not been called yet.
fn timed(alloc: Global, clock: &Cell<u32>) -> Result<TimedSink<'_>, AllocError>
    ensures { IfOk result (λ sink. sink.inner.failed ≡ false) }
{
    Ok(TimedSink {
        inner: MemSink::new(alloc, 1_000)?,
        clock,
        flushed_at: 0,
        written_at: 0,
    })
}

#[test]
fn the_writer_is_flushed_before_a_fault_is_printed(rt: HostRuntime) {
    for line in ["script --buckets 3", "script --rows 2", "word 0", "scrpt"] {
        let clock = Cell::new(0);
        let mut streams = Streams {
            source: MemSource::new(b"p0 refill 0 4294967295\nx\n"),
            writer: timed(rt.alloc(), &clock).expect(&rt, "memory for a writer"),
            errors: timed(rt.alloc(), &clock).expect(&rt, "memory for a writer"),
        };
        let status = run_over(&rt, line, &mut streams);
        let (flushed, printed) = (streams.writer.flushed_at, streams.errors.written_at);
        assert!(rt; status != 0 && 0 < flushed && flushed < printed, "{line}");
    }
}
