//! Readers and writers whose contracts state the bytes that went through them.
ghost use Rattle.std.specs.Prelude.{◌≡◌, ◌+◌, ◌%◌, ◌^◌, ◌<◌, ◌≤◌, ◌||◌, ◌++◌, [], Bool, false, ℕ};
ghost use Rattle.std.specs.Prelude.{List, length, take, IfOk, OnOk, OnErr, is_err};
ghost use Rattle.segscript.specs.Device.{ends_after, took_nothing, TakesPart};

/// A call of a reader or of a writer failed.
#[derive(Clone, Copy, Debug, PartialEq, Eq)]
pub struct Failed;

/// Where the bytes of a script or a trace come from.
pub trait Source {
    /// From one state to the other the reader handed out these bytes.
    ghost hands: { Self → List ℕ → Self → Type 0 };

    /// The reader has nothing more to hand out.
    ghost is_at_end: { Self → Type 0 };

    /// A call of the reader has failed. Such a reader is not asked again.
    ghost has_failed: { Self → Bool };

    /// How many reads handed out nothing, modulo 2^64.
    ghost ends: { Self → ℕ };

    /// Puts some bytes at the front of the buffer, and returns how many: none only at the end.
    fn read(&mut self, buffer: &mut [u8]) -> Result<usize, Failed>
        requires works { has_failed self.old ≡ false }
        requires room { 0 < length buffer.old }
        ensures count { IfOk result (λ n. n ≤ length buffer.new) }
        ensures bytes { IfOk result (λ n. hands self.old (take n buffer.new) self.new) }
        ensures end { IfOk result (λ n. n ≡ 0 → is_at_end self.new) }
        ensures err { OnErr result (hands self.old [] self.new) }
        ensures failed { has_failed self.new ≡ is_err result }
        ensures ends { IfOk result (λ n. ends self.new ≡ ends_after (ends self.old) n) }
        ensures unended { OnErr result (ends self.new ≡ ends self.old) };

    ghost hands_none: { (s : Self) → hands s [] s };

    ghost hands_more: { (s t u : Self) (a b : List ℕ) → hands s a t → hands t b u
        → hands s (a ++ b) u };
}

/// Where the replies go.
pub trait Sink {
    /// From one state to the other the writer took these bytes.
    ghost takes: { Self → List ℕ → Self → Type 0 };

    /// A call of the writer has failed, or a write took none of its bytes.
    /// Such a writer is not asked to write again; it can still be flushed.
    ghost has_failed: { Self → Bool };

    /// How many flushes were asked for, modulo 2^64.
    ghost flushes: { Self → ℕ };

    /// Takes some of the bytes from their front, and returns how many.
    fn write(&mut self, bytes: &[u8]) -> Result<usize, Failed>
        requires works { has_failed self.old ≡ false }
        requires some { 0 < length bytes.now }
        ensures count { IfOk result (λ n. n ≤ length bytes.now) }
        ensures bytes { IfOk result (λ n. takes self.old (take n bytes.now) self.new) }
        ensures err { OnErr result (takes self.old [] self.new) }
        ensures failed { has_failed self.new ≡ took_nothing result }
        ensures flushes { flushes self.new ≡ flushes self.old };

    /// Passes on what the writer holds back.
    fn flush(&mut self) -> Result<(), Failed>
        ensures bytes { takes self.old [] self.new }
        ensures failed { has_failed self.new ≡ (has_failed self.old || is_err result) }
        ensures flushes { flushes self.new ≡ (flushes self.old + 1) % 2 ^ 64 };

    ghost takes_none: { (s : Self) → takes s [] s };

    ghost takes_more: { (s t u : Self) (a b : List ℕ) → takes s a t → takes t b u
        → takes s (a ++ b) u };
}

/// The count of reads that handed out nothing, after one that handed out so many bytes.
pub(crate) fn count_end(count: u64, handed: usize) -> u64
    ensures { result ≡ ends_after count handed }
{
    if handed == 0 {
        count.wrapping_add(1)
    } else {
        count
    }
}

/// Writes all of the bytes, or a beginning of them and then fails.
pub fn write_all<W: Sink>(writer: &mut W, bytes: &[u8]) -> Result<(), Failed>
    requires works { W.has_failed writer.old ≡ false }
    ensures ok { OnOk result (W.takes writer.old bytes.now writer.new) }
    ensures err { OnErr result (TakesPart W.takes writer.old bytes.now writer.new) }
    ensures failed { W.has_failed writer.new ≡ is_err result }
    ensures flushes { W.flushes writer.new ≡ W.flushes writer.old }
{
    let mut rest = bytes;
    while !rest.is_empty() {
        match writer.write(rest) {
            Ok(taken) if taken > 0 => rest = &rest[taken..],
            _ => return Err(Failed),
        }
    }
    Ok(())
}
