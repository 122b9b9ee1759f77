//! A source over a reader of std, and a sink over a writer of std.
//! Standard input and output are such a reader and such a writer.
ghost use Rattle.std.specs.Prelude.{◌≡◌, false};
ghost use Rattle.std.specs.Io.KnownBytes.{Consumes, Appends, IsAtEnd};
ghost use Rattle.segscript.specs.Known.{Consumes-none, Consumes-more, Appends-none, Appends-more};

use crate::device::{Failed, Sink, Source, count_end};
use std::io::{Read, Write};

/// A reader of std. Contracts know its bytes if they know those of the std reader.
#[derive(Drop)]
pub struct ReadSource<R: Read> {
    inner: R,
    failed: bool,
    // How many reads handed out nothing, modulo 2^64.
    ends: u64,
}

impl<R: Read> ReadSource<R> {
    /// A source over this reader, which has read nothing yet.
    pub fn new(inner: R) -> ReadSource<R>
        ensures inner { result.inner ≡ inner }
        ensures works { result.failed ≡ false }
        ensures ends { result.ends ≡ 0 }
    {
        ReadSource {
            inner,
            failed: false,
            ends: 0,
        }
    }
}

impl<R: Read> Source for ReadSource<R> {
    ghost hands = { λ old bytes new.
        Consumes (R.remaining old.inner) (R.remaining new.inner) bytes };

    ghost is_at_end = { λ s. IsAtEnd (R.remaining s.inner) };

    ghost has_failed = { λ s. s.failed };

    ghost ends = { λ s. s.ends };

    fn read(&mut self, buffer: &mut [u8]) -> Result<usize, Failed> {
        match self.inner.read(buffer) {
            Ok(n) => {
                self.ends = count_end(self.ends, n);
                Ok(n)
            }
            Err(_) => {
                self.failed = true;
                Err(Failed)
            }
        }
    }

    ghost hands_none = { λ s. Consumes-none (R.remaining s.inner) };

    ghost hands_more = { λ s t u a b.
        Consumes-more (R.remaining s.inner) (R.remaining t.inner) (R.remaining u.inner) a b };
}

/// A writer of std. Contracts know its bytes if they know those of the std writer.
#[derive(Drop)]
pub struct WriteSink<W: Write> {
    inner: W,
    failed: bool,
    // How many flushes were asked for, modulo 2^64.
    flushes: u64,
}

impl<W: Write> WriteSink<W> {
    /// A sink over this writer, which has written nothing yet.
    pub fn new(inner: W) -> WriteSink<W>
        ensures inner { result.inner ≡ inner }
        ensures works { result.failed ≡ false }
        ensures flushes { result.flushes ≡ 0 }
    {
        WriteSink {
            inner,
            failed: false,
            flushes: 0,
        }
    }
}

impl<W: Write> Sink for WriteSink<W> {
    ghost takes = { λ old bytes new. Appends (W.contents old.inner) (W.contents new.inner) bytes };

    ghost has_failed = { λ s. s.failed };

    ghost flushes = { λ s. s.flushes };

    fn write(&mut self, bytes: &[u8]) -> Result<usize, Failed> {
        match self.inner.write(bytes) {
            Ok(n) => {
                self.failed = n == 0;
                Ok(n)
            }
            Err(_) => {
                self.failed = true;
                Err(Failed)
            }
        }
    }

    fn flush(&mut self) -> Result<(), Failed> {
        self.flushes = self.flushes.wrapping_add(1);
        match self.inner.flush() {
            Ok(()) => Ok(()),
            Err(_) => {
                self.failed = true;
                Err(Failed)
            }
        }
    }

    ghost takes_none = { λ s. Appends-none (W.contents s.inner) };

    ghost takes_more = { λ s t u a b.
        Appends-more (W.contents s.inner) (W.contents t.inner) (W.contents u.inner) a b };
}
