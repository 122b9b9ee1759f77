//! When the replies are written: a reader that knows what the writer took.
ghost use Rattle.std.specs.Prelude.{◌≡◌, ◌++◌, [], refl};
ghost use Rattle.segscript.specs.Words.{hands_more, takes_more, takes_none};

use crate::script_runs::{REPLIES, SCRIPT, check_same, reader_of, run_over};
use segscript::{Failed, MemSink, MemSource, Sink, Source};
use std::cell::Cell;

/// A reader that keeps, for each read, how many bytes the writer had taken.
#[derive(Drop)]
struct WatchingSource<'a> {
    inner: MemSource<'a>,
    written: &'a Cell<usize>,
    at_reads: Vec<usize>,
}

impl<'a> Source for WatchingSource<'a> {
    ghost hands = { λ old bytes new. old.inner.left.now ≡ bytes ++ new.inner.left.now };

    ghost is_at_end = { λ s. s.inner.left.now ≡ [] };

    ghost has_failed = { λ s. s.inner.failed };

    ghost ends = { λ s. s.inner.ends };

    fn read(&mut self, buffer: &mut [u8]) -> Result<usize, Failed> {
        let _ = self.at_reads.push(self.written.get());
        self.inner.read(buffer)
    }

    ghost hands_none = { λ s. refl };

    ghost hands_more = { λ s t u a b. hands_more s.inner.left.now t.inner.left.now u.inner.left.now a b };
}

/// A writer that counts the bytes that it took, where the reader can see the count.
#[derive(Drop)]
struct TellingSink<'a> {
    inner: MemSink,
    written: &'a Cell<usize>,
}

impl Sink for TellingSink<'_> {
    ghost takes = { λ old bytes new. new.inner.taken.items ≡ old.inner.taken.items ++ bytes };

    ghost has_failed = { λ s. s.inner.failed };

    ghost flushes = { λ s. s.inner.flushes };

    fn write(&mut self, bytes: &[u8]) -> Result<usize, Failed> {
        let result = self.inner.write(bytes);
        self.written.set(self.inner.taken.len());
        result
    }

    fn flush(&mut self) -> Result<(), Failed> {
        self.inner.flush()
    }

    ghost takes_none = { λ s. takes_none s.inner.taken.items };

    ghost takes_more = { λ s t u a b. takes_more s.inner.taken.items t.inner.taken.items u.inner.taken.items a b };
}

#[test]
fn the_reply_of_each_whole_line_is_written_before_the_next_read(rt: HostRuntime) {
    let written = Cell::new(0);
    let mut reader = WatchingSource {
        inner: reader_of(SCRIPT, 7, None),
        written: &written,
        at_reads: Vec::new(rt.alloc()),
    };
    let mut writer = TellingSink {
        inner: MemSink::new(rt.alloc(), 1000).expect(&rt, "memory for a writer"),
        written: &written,
    };
    let found = run_over(rt.alloc(), &mut reader, &mut writer);
    check_same(&rt, 7, found, Ok(()));
    check_same(&rt, 7, writer.inner.taken.as_slice(), REPLIES);
    // The lines end at bytes 23, 37 and 49.
    // The reads begin at bytes 0, 7, 14, 21, 28, 35, 42 and 49.
    let taken = [0, 0, 0, 0, 9, 9, 16, 24];
    check_same(&rt, 7, reader.at_reads.as_slice(), taken.as_slice());
}
