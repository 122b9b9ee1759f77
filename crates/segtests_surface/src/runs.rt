//! The forms of runs: of scripts and loads, with their devices and their counts.
ghost use Rattle.std.specs.Prelude.{◌≡◌, ◌<◌, false, length};

use crate::same::same;
use segload::{Gate, LoadFault, OpenGate, PassTotals, Tallies, Totals, run_crowd, run_load};
use segscript::{Failed, MemSink, MemSource, RunFault, Sink, Source, run_script};
use segword::Shape;

/// One bucket, and a segment of eight rows.
const SHAPE: Shape = Shape {
    buckets: 1,
    overflow: 0,
    passes: 1,
    segments_each: 1,
    rows: 8,
    first_version: 0,
};

// A reader over memory has a lifetime, so its read can't be a pointer.
fn read_of<S: Source>(source: &mut S, buffer: &mut [u8]) -> Result<usize, Failed>
    requires works { S.has_failed source.old ≡ false }
    requires room { 0 < length buffer.old }
{
    source.read(buffer)
}

#[test]
fn devices_keep_their_forms(rt: HostRuntime) {
    let mut buffer = [0; 2];
    let read = read_of(&mut MemSource::new(b"ab"), &mut buffer);
    same(&rt, &(read, &buffer), &(Ok(2), b"ab"));
    let _: fn(&mut MemSink, &[u8]) -> Result<usize, Failed> = MemSink::write;
    let _: fn(&mut MemSink) -> Result<(), Failed> = MemSink::flush;
    let _: fn(&OpenGate, u32, u32) -> bool = OpenGate::enter;
    let _: fn(&OpenGate, u32, u32) = OpenGate::answered;
    let _: fn(&Totals) -> u128 = Totals::commands;
}

// The commands and the ten counts of a pass.
fn counts_of(pass: &PassTotals) -> [u32; 11] {
    let Tallies {
        hit,
        miss,
        stored,
        not_stored,
        exists,
        not_found,
        deleted,
        no_room,
        bucket_full,
        busy,
    } = pass.tallies;
    [
        pass.commands,
        hit,
        miss,
        stored,
        not_stored,
        exists,
        not_found,
        deleted,
        no_room,
        bucket_full,
        busy,
    ]
}

#[test]
fn loads_keep_their_forms(rt: HostRuntime) {
    let load: Result<Totals, LoadFault> = run_load(&rt, rt.alloc(), SHAPE, 7, 0, &OpenGate);
    let totals = load.expect(&rt, "a load");
    let passes: Option<[u32; 11]> = totals.passes.first().map(counts_of);
    same(&rt, &(passes, totals.keys), &(Some([0; 11]), 0));
    let crowd: Result<Totals, LoadFault> = run_crowd(&rt, rt.alloc(), SHAPE, 7, 0, 1, &OpenGate);
    same(&rt, &crowd, &Ok(totals));
}

#[test]
fn scripts_keep_their_forms(rt: HostRuntime) {
    let mut reader = MemSource::new(b"p0 get a @0\n");
    let mut writer = MemSink::new(rt.alloc(), 100).expect(&rt, "memory");
    let ran: Result<(), RunFault> = run_script(rt.alloc(), &mut reader, &mut writer, SHAPE);
    same(&rt, &ran, &Ok(()));
    same(&rt, &writer.taken.as_slice(), &b"MISS\n".as_slice());
}
