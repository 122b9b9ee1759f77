//! A reader that looks at what it hands out, for the first bad line of a script.
ghost use Rattle.std.specs.Prelude.{◌≡◌, ◌∷◌, [], ℕ, List, None, MatchOption};
ghost use Rattle.segscript.specs.Explaining.{FindsBad, HasLooked, look_at};
ghost use Rattle.segscript.specs.Explaining.{looks_more, looks_none, LooksAt};
ghost use Rattle.segscript.specs.Reasons.{line_fault};

use crate::device::{Failed, Source};
use crate::limits::KEPT_BYTES;
use crate::reason::{LineFault, line_fault};
use segtext::{LineBuffer, Taken};

/// The first bad line of a script, and its first fault. Lines are counted from 1.
#[derive(Clone, Copy, Debug, PartialEq, Eq)]
pub struct BadLine {
    pub number: u64,
    pub fault: LineFault,
}

/// Hands out what another reader does, and finds the first bad line in it.
#[derive(Drop)]
pub struct Explaining<R: Source> {
    inner: R,
    passes: u32,
    // The line that has no end yet: its first bytes, and its number modulo 2^64.
    line: LineBuffer<KEPT_BYTES>,
    number: u64,
    bad: Option<BadLine>,
}

impl<R: Source> Explaining<R> {
    /// A reader over this one, for a script with so many passes.
    pub fn new(inner: R, passes: u32) -> Explaining<R>
        ensures inner { result.inner ≡ inner }
        ensures passes { result.passes ≡ passes }
        ensures looked { HasLooked
            (look_at result.passes result.line result.number result.bad) [] }
    {
        Explaining {
            inner,
            passes,
            line: LineBuffer::new(),
            number: 1,
            bad: None,
        }
    }

    /// The first bad line of what was handed out. What has no end yet counts as a line.
    pub fn bad_line(&self) -> Option<BadLine>
        ensures { (seen : List ℕ) → HasLooked
            (look_at self.now.passes self.now.line self.now.number self.now.bad) seen
            → FindsBad self.now.passes seen result }
    {
        if self.bad.is_some() {
            return self.bad;
        }
        self.fault_of_line()
    }

    // The fault of the line that has no end yet, as if it ended here.
    fn fault_of_line(&self) -> Option<BadLine>
        ensures { MatchOption result
            (line_fault self.now.passes self.now.line ≡ None)
            (λ bad. (line_fault self.now.passes self.now.line ≡ Some bad.fault)
            × (bad.number ≡ self.now.number)) }
    {
        let fault = line_fault(self.line.as_slice(), self.passes)?;
        Some(BadLine {
            number: self.number,
            fault,
        })
    }

    // Looks at the next byte of the script.
    fn look(&mut self, byte: u8)
        requires none { self.old.bad ≡ None }
        ensures inner { self.new.inner ≡ self.old.inner }
        ensures looks { LooksAt
            (look_at self.old.passes self.old.line self.old.number self.old.bad)
            (byte ∷ [])
            (look_at self.new.passes self.new.line self.new.number self.new.bad) }
    {
        match self.line.take(byte) {
            Taken::Kept => return,
            Taken::NoRoom => return,
            Taken::End => {}
        }
        self.bad = self.fault_of_line();
        self.line.clear();
        self.number = self.number.wrapping_add(1);
    }

    // Looks at the next bytes of the script, until a bad line is found.
    fn look_at_all(&mut self, bytes: &[u8])
        ensures inner { self.new.inner ≡ self.old.inner }
        ensures looks { LooksAt
            (look_at self.old.passes self.old.line self.old.number self.old.bad)
            bytes.now
            (look_at self.new.passes self.new.line self.new.number self.new.bad) }
    {
        for byte in bytes {
            if self.bad.is_some() {
                return;
            }
            self.look(*byte);
        }
    }
}

impl<R: Source> Source for Explaining<R> {
    ghost hands = { λ old bytes new. R.hands old.inner bytes new.inner
        × LooksAt (look_at old.passes old.line old.number old.bad) bytes
        (look_at new.passes new.line new.number new.bad) };

    ghost is_at_end = { λ s. R.is_at_end s.inner };

    ghost has_failed = { λ s. R.has_failed s.inner };

    ghost ends = { λ s. R.ends s.inner };

    fn read(&mut self, buffer: &mut [u8]) -> Result<usize, Failed> {
        match self.inner.read(buffer) {
            Ok(n) => {
                self.look_at_all(&buffer[..n]);
                Ok(n)
            }
            Err(failed) => Err(failed),
        }
    }

    ghost hands_none = { λ s. (
      R.hands_none s.inner,
      looks_none (look_at s.passes s.line s.number s.bad),
    ) };

    ghost hands_more = { λ s t u a b first then. (
      R.hands_more s.inner t.inner u.inner a b first.0 then.0,
      looks_more (look_at s.passes s.line s.number s.bad)
          (look_at t.passes t.line t.number t.bad)
          (look_at u.passes u.line u.number u.bad) a b first.1 then.1,
    ) };
}
