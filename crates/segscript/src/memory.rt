//! A reader and a writer over memory, which can be set to fail.
ghost use Rattle.std.specs.Prelude.{◌≡◌, ◌+◌, ◌-◌, ◌^◌, ◌%◌, ◌<◌, ◌≤◌, ◌||◌, ◌++◌, [], false};
ghost use Rattle.std.specs.Prelude.{vec_len, length, take, drop, min, None, IfOk, OnErr};
ghost use Rattle.std.specs.Prelude.{is_err, refl};
ghost use Rattle.std.specs.Vec.{vec_capacity};
ghost use Rattle.segscript.specs.Device.{ends_after, took_nothing};
ghost use Rattle.segscript.specs.Memory.{hands_more, takes_more, takes_none, is_spent, handed};
ghost use Rattle.segscript.specs.Memory.{good_after, when_full};

use crate::device::{Failed, Sink, Source, count_end};
use std::alloc::{AllocError, Global};

/// Hands out a slice, in pieces of at most `step` bytes.
#[derive(Drop)]
pub struct MemSource<'a> {
    /// What is left to hand out.
    pub left: &'a [u8],
    pub step: usize,
    /// The reader fails once this many more bytes were handed out. Without a number it doesn't fail.
    pub good: Option<usize>,
    /// A call of the reader has failed.
    pub failed: bool,
    /// How many reads handed out nothing, modulo 2^64.
    pub ends: u64,
    ghost moves: { 0 < step },
}

impl<'a> MemSource<'a> {
    /// A reader of the bytes, which hands out as many at a time as are asked for,
    /// and doesn't fail.
    pub fn new(bytes: &'a [u8]) -> MemSource<'a>
        ensures bytes { result.left.now ≡ bytes.now }
        ensures all { (result.step ≡ 2 ^ 64 - 1) × (result.good ≡ None) }
        ensures works { result.failed ≡ false }
        ensures ends { result.ends ≡ 0 }
    {
        MemSource {
            left: bytes,
            step: usize::MAX,
            good: None,
            failed: false,
            ends: 0,
        }
    }
}

impl<'a> Source for MemSource<'a> {
    ghost hands = { λ old bytes new. old.left.now ≡ bytes ++ new.left.now };

    ghost is_at_end = { λ s. s.left.now ≡ [] };

    ghost has_failed = { λ s. s.failed };

    ghost ends = { λ s. s.ends };

    fn read(&mut self, buffer: &mut [u8]) -> Result<usize, Failed>
        requires works { self.old.failed ≡ false }
        requires room { 0 < length buffer.old }
        ensures count { IfOk result (λ n. n ≤ length buffer.new) }
        ensures bytes { IfOk result (λ n.
            self.old.left.now ≡ take n buffer.new ++ self.new.left.now) }
        ensures end { IfOk result (λ n. n ≡ 0 → self.new.left.now ≡ []) }
        ensures err { OnErr result (self.old.left.now ≡ [] ++ self.new.left.now) }
        ensures failed { self.new.failed ≡ is_err result }
        ensures ends { IfOk result (λ n. self.new.ends ≡ ends_after self.old.ends n) }
        ensures unended { OnErr result (self.new.ends ≡ self.old.ends) }

        // The reader fails if it may hand out no more bytes, and else hands out as many as it may.
        ensures fails { is_err result ≡ is_spent self.old.good }
        ensures handed { IfOk result (λ n. n
            ≡ handed self.old.good self.old.step (length self.old.left.now) (length buffer.old)) }
        ensures good { IfOk result (λ n. self.new.good ≡ good_after self.old.good n) }
        ensures same { self.new.step ≡ self.old.step }

        // A failure changes nothing else, and behind what was handed out the buffer is as it was.
        ensures stays { OnErr result
            ((self.new.good ≡ self.old.good) × (buffer.new ≡ buffer.old)) }
        ensures rest { IfOk result (λ n. drop n buffer.new ≡ drop n buffer.old) }
    {
        let mut n = self.step.min(self.left.len()).min(buffer.len());
        if let Some(good) = self.good {
            if good == 0 {
                self.failed = true;
                return Err(Failed);
            }
            n = n.min(good);
            self.good = Some(good - n);
        }
        let (front, back) = self.left.split_at(n);
        buffer[..n].copy_from_slice(front);
        self.left = back;
        self.ends = count_end(self.ends, n);
        Ok(n)
    }

    ghost hands_none = { λ s. refl };

    ghost hands_more = { λ s t u a b. hands_more s.left.now t.left.now u.left.now a b };
}

/// What a writer over memory does once it has no room left.
#[derive(Clone, Copy, Debug, PartialEq, Eq)]
pub enum WhenFull {
    Fails,
    /// A write takes none of its bytes.
    TakesNone,
}

/// Keeps up to `room` more bytes, at most `step` of a call.
/// The memory for them is reserved when the writer is created, so no byte that it takes is lost.
#[derive(Drop)]
pub struct MemSink {
    /// The bytes that the writer took.
    pub taken: Vec<u8>,
    pub step: usize,
    /// How many more bytes the writer takes.
    pub room: usize,
    pub when_full: WhenFull,
    pub flush_fails: bool,
    /// A call of the writer has failed, or a write took none of its bytes.
    pub failed: bool,
    /// How many flushes were asked for, modulo 2^64.
    pub flushes: u64,
    ghost moves: { 0 < step },
    ghost reserved: { vec_len taken + room ≤ vec_capacity taken },
}

impl MemSink {
    /// A writer that takes this many bytes in all, as many of a call as are offered,
    /// and then fails.
    pub fn new(alloc: Global, room: usize) -> Result<MemSink, AllocError>
        ensures empty { IfOk result (λ sink. sink.taken.items ≡ []) }
        ensures room { IfOk result (λ sink. sink.room ≡ room) }
        ensures all { IfOk result (λ sink. sink.step ≡ 2 ^ 64 - 1) }
        ensures full { IfOk result (λ sink. sink.when_full ≡ WhenFull.Fails) }
        ensures flushes { IfOk result (λ sink. (sink.flush_fails ≡ false) × (sink.flushes ≡ 0)) }
        ensures works { IfOk result (λ sink. sink.failed ≡ false) }
    {
        Ok(MemSink {
            taken: Vec::with_capacity(alloc, room)?,
            step: usize::MAX,
            room,
            when_full: WhenFull::Fails,
            flush_fails: false,
            failed: false,
            flushes: 0,
        })
    }
}

impl Sink for MemSink {
    ghost takes = { λ old bytes new. new.taken.items ≡ old.taken.items ++ bytes };

    ghost has_failed = { λ s. s.failed };

    ghost flushes = { λ s. s.flushes };

    fn write(&mut self, bytes: &[u8]) -> Result<usize, Failed>
        requires works { self.old.failed ≡ false }
        requires some { 0 < length bytes.now }
        ensures count { IfOk result (λ n. n ≤ length bytes.now) }
        ensures bytes { IfOk result (λ n.
            self.new.taken.items ≡ self.old.taken.items ++ take n bytes.now) }
        ensures err { OnErr result (self.new.taken.items ≡ self.old.taken.items ++ []) }
        ensures failed { self.new.failed ≡ took_nothing result }
        ensures flushes { self.new.flushes ≡ self.old.flushes }

        // The writer takes as many bytes as it may. If it has no room, it does what `when_full` says.
        ensures full { self.old.room ≡ 0 → when_full self.old.when_full result }
        ensures takes { 0 < self.old.room
            → result ≡ Ok (min (min self.old.step self.old.room) (length bytes.now)) }
        ensures room { IfOk result (λ n. self.new.room + n ≡ self.old.room) }
        ensures none_left { OnErr result (self.new.room ≡ 0) }
        ensures same { (self.new.step ≡ self.old.step) × (self.new.when_full ≡ self.old.when_full)
            × (self.new.flush_fails ≡ self.old.flush_fails) }
    {
        let n = self.step.min(self.room).min(bytes.len());
        if n == 0 {
            self.failed = true;
            return match self.when_full {
                WhenFull::Fails => Err(Failed),
                WhenFull::TakesNone => Ok(0),
            };
        }
        let Ok(()) = self.taken.extend_from_slice(&bytes[..n]) else {
            unreachable!();
        };
        self.room -= n;
        Ok(n)
    }

    fn flush(&mut self) -> Result<(), Failed>
        ensures bytes { self.new.taken.items ≡ self.old.taken.items ++ [] }
        ensures failed { self.new.failed ≡ (self.old.failed || is_err result) }
        ensures flushes { self.new.flushes ≡ (self.old.flushes + 1) % 2 ^ 64 }
        ensures fails { is_err result ≡ self.old.flush_fails }
        ensures same { (self.new.room ≡ self.old.room) × (self.new.step ≡ self.old.step)
            × (self.new.when_full ≡ self.old.when_full)
            × (self.new.flush_fails ≡ self.old.flush_fails) }
    {
        self.flushes = self.flushes.wrapping_add(1);
        if self.flush_fails {
            self.failed = true;
            Err(Failed)
        } else {
            Ok(())
        }
    }

    ghost takes_none = { λ s. takes_none s.taken.items };

    ghost takes_more = { λ s t u a b. takes_more s.taken.items t.taken.items u.taken.items a b };
}
