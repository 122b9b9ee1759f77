//! Readers and writers of std, and the texts of faults.
//! No contract states how often a reader or a writer of std was called, so these count their calls.
use crate::same::same;
use crate::script_runs::{REPLIES, SCRIPT, run_over};
use segindex::MakeFault;
use segscript::{Failed, ReadSource, RunFault, Sink, Source, WriteSink};
use std::io;
use std::io::{ErrorKind, Read, Write};

/// A reader and a writer of std, which counts its calls and the bytes that it took.
/// It hands out as many letters as it has left and the buffer takes.
#[derive(Drop)]
struct Device {
    left: usize,
    is_bad: bool,
    flush_fails: bool,
    reads: u32,
    writes: u32,
    flushes: u32,
    bytes: usize,
}

// One that nothing has reached. A bad one fails at each write, and at a read that finds nothing left.
fn new_device(left: usize, is_bad: bool, flush_fails: bool) -> Device {
    Device {
        left,
        is_bad,
        flush_fails,
        reads: 0,
        writes: 0,
        flushes: 0,
        bytes: 0,
    }
}

impl Read for Device {
    fn read(&mut self, buffer: &mut [u8]) -> io::Result<usize> {
        self.reads = self.reads.wrapping_add(1);
        let count = self.left.min(buffer.len());
        if count == 0 && self.is_bad {
            return Err(io::Error::from(ErrorKind::Other));
        }
        buffer[..count].fill(b'a');
        self.left -= count;
        Ok(count)
    }
}

impl Write for Device {
    fn write(&mut self, bytes: &[u8]) -> io::Result<usize> {
        self.writes = self.writes.wrapping_add(1);
        if self.is_bad {
            return Err(io::Error::from(ErrorKind::Other));
        }
        self.bytes = self.bytes.wrapping_add(bytes.len());
        Ok(bytes.len())
    }

    fn flush(&mut self) -> io::Result<()> {
        self.flushes = self.flushes.wrapping_add(1);
        if self.flush_fails {
            return Err(io::Error::from(ErrorKind::Other));
        }
        Ok(())
    }
}

#[test]
fn a_flush_is_passed_on_and_an_end_is_no_failure(rt: HostRuntime) {
    for (flush_fails, end) in [(false, Ok(())), (true, Err(RunFault::Write))] {
        let mut device = new_device(0, false, flush_fails);
        let mut reader = ReadSource::new(SCRIPT);
        let mut writer = WriteSink::new(&mut device);
        same(&rt, &run_over(rt.alloc(), &mut reader, &mut writer), &end);
        same(&rt, &(device.bytes, device.flushes), &(REPLIES.len(), 1));
    }
}

#[test]
fn a_read_is_one_read_of_std(rt: HostRuntime) {
    for (left, fails, told) in [(2, false, Ok(2)), (0, false, Ok(0)), (0, true, Err(Failed))] {
        let mut device = new_device(left, fails, false);
        let mut source = ReadSource::new(&mut device);
        let mut buffer = [0; 8];
        same(&rt, &source.read(&mut buffer), &told);
        same(&rt, &device.reads, &1);
    }
}

#[test]
fn a_write_and_a_flush_are_each_one_of_std(rt: HostRuntime) {
    for (fails, written, flushed) in [(false, Ok(2), Ok(())), (true, Err(Failed), Err(Failed))] {
        let mut device = new_device(0, fails, fails);
        let mut sink = WriteSink::new(&mut device);
        same(&rt, &sink.write(b"ab"), &written);
        same(&rt, &(device.writes, device.flushes), &(1, 0));
        let mut sink = WriteSink::new(&mut device);
        same(&rt, &sink.flush(), &flushed);
        same(&rt, &sink.flush(), &flushed);
        same(&rt, &(device.writes, device.flushes), &(1, 2));
    }
}

#[test]
fn the_texts_of_faults(rt: HostRuntime) {
    for (fault, text) in [
        (RunFault::Read, "read failed"),
        (RunFault::Write, "write failed"),
        (RunFault::Line(3), "bad line 3"),
        (RunFault::TooLong, "script too long"),
        (RunFault::Make(MakeFault::OutOfMemory), "out of memory"),
    ] {
        let shown = format!(in rt.alloc(); "{fault}").expect(&rt, "memory for a text");
        same(&rt, &shown.as_str(), &text);
    }
}
