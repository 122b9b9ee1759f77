//! Whole runs over memory, in pieces of 1, 3 and 5000 bytes.
ghost use Rattle.std.specs.Prelude.{◌≡◌, false, IfOk};

use segscript::{MemSink, MemSource, RunFault, Sink, Source, WhenFull, run_script};
use segword::Shape;
use std::alloc::{AllocError, AllocGlobal, Global};
use std::fmt::Debug;
use std::process::Abort;

/// A script of three lines, and its replies.
pub const SCRIPT: &[u8] = b"p0 refill 0 4294967295\np0 set a 1 @0\np0 get a @0\n";

pub const REPLIES: &[u8] = b"REFILLED\nSTORED\nVALUE 1\n";

/// One bucket, one pass, and one segment of two rows.
const SHAPE: Shape = Shape {
    buckets: 1,
    overflow: 0,
    passes: 1,
    segments_each: 1,
    rows: 2,
    first_version: 0,
};

/// Runs a script over these devices. The tests stand on this call:
/// at one of `run_script` the proof of a test would have to read its whole contract.
pub fn run_over<S: Source, W: Sink>(
    alloc: Global,
    reader: &mut S,
    writer: &mut W,
) -> Result<(), RunFault>
    requires reader_works { S.has_failed reader.old ≡ false }
    requires writer_works { W.has_failed writer.old ≡ false }
{
    run_script(alloc, reader, writer, SHAPE)
}

/// A reader of the script in pieces, which can fail after some bytes.
pub fn reader_of(script: &[u8], step: usize, good: Option<usize>) -> MemSource<'_>
    ensures { result.failed ≡ false }
{
    let mut reader = MemSource::new(script);
    reader.step = step.max(1);
    reader.good = good;
    reader
}

/// What the devices of a run do.
#[derive(Clone, Copy)]
pub struct Devices {
    /// After how many bytes the reader fails.
    pub good: Option<usize>,
    /// How many bytes the writer takes.
    pub room: usize,
    pub when_full: WhenFull,
    pub flush_fails: bool,
}

/// Devices that don't fail.
pub const SOUND: Devices = Devices {
    good: None,
    room: 1000,
    when_full: WhenFull::Fails,
    flush_fails: false,
};

// A writer of pieces that does what the devices of a run do.
fn writer_of(alloc: Global, step: usize, devices: Devices) -> Result<MemSink, AllocError>
    ensures { IfOk result (λ sink. sink.failed ≡ false) }
{
    let mut writer = MemSink::new(alloc, devices.room)?;
    writer.step = step.max(1);
    writer.when_full = devices.when_full;
    writer.flush_fails = devices.flush_fails;
    Ok(writer)
}

/// Checks one thing that a run came to, which moved so many bytes at a time.
pub fn check_same<T: Copy + PartialEq + Debug>(rt: &impl Abort, step: usize, found: T, wanted: T) {
    assert_eq!(rt; found, wanted, "in pieces of {step}");
}

/// Runs a script, and checks how the run ends and what it wrote.
/// The run flushes once if it ended well or the flush failed, else not at all.
/// It meets the end of the script at most once.
pub fn check<R: AllocGlobal + Abort>(
    rt: &R,
    script: &[u8],
    devices: Devices,
    end: Result<(), RunFault>,
    replies: &[u8],
) {
    let is_flushed = end.is_ok() || devices.flush_fails;
    for step in [1, 3, 5000] {
        let mut reader = reader_of(script, step, devices.good);
        let mut writer = writer_of(rt.alloc(), step, devices).expect(rt, "memory for a writer");
        let found = run_over(rt.alloc(), &mut reader, &mut writer);
        check_same(rt, step, found, end);
        check_same(rt, step, writer.taken.as_slice(), replies);
        check_same(rt, step, writer.flushes, u64::from(is_flushed));
        check_same(rt, step, reader.ends <= 1, true);
    }
}
