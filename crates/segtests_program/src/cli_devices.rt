//! Readers and writers that fail under the program. `tools/devices` fails those of the built one, byte by byte.
//! Here a writer can also take nothing, and a flush can fail.
use crate::cli_runs::{Devices, End, SOUND, check};
use segscript::WhenFull;
use std::alloc::AllocGlobal;
use std::process::Abort;
use std::sync::Wait;
use std::thread::Threads;

const REPLIES: &[u8] = b"REFILLED\nSTORED\nVALUE 1\n";

/// What a load without commands prints.
const NO_TOTALS: &[u8] =
    b"p0 commands=0 hit=0 miss=0 stored=0 not_stored=0 exists=0 not_found=0 deleted=0 noroom=0 bucketfull=0 busy=0\ntotal commands=0 keys=0\n";

/// What a replay counts of the first two lines of a trace.
const TOTALS: &[u8] =
    b"default rows=8 bytes=661 gets=2 hits=1 rate=50.00 sets=0 deletes=0 evicted=0 kept=0 refused=0 busy=0 items=1 lives=1 given=100.00\n";

// Checks a run whose writers take so many bytes, before they fail, or take nothing any more.
fn check_full<R: Threads + Wait + AllocGlobal + Abort + Sync>(
    rt: &R,
    line: &str,
    devices: Devices<'_>,
    rooms: (usize, usize),
    end: End<'_>,
) {
    for when_full in [WhenFull::Fails, WhenFull::TakesNone] {
        let devices = Devices {
            rooms,
            when_full,
            ..devices
        };
        check(rt, line, devices, end);
    }
}

#[test]
fn a_writer_that_fails_is_told(rt: HostRuntime) {
    for (line, whole) in [
        ("script", REPLIES),
        (
            "word af60100000200003",
            b"item tag=af6 freq=1 seg=2 row=3\n",
        ),
        ("load --commands 0", NO_TOTALS),
        ("--version", b"segrun 0.4.0-dev\n"),
    ] {
        for room in 0..whole.len() {
            let end = (3, &whole[..room], b"write failed\n".as_slice());
            check_full(&rt, line, SOUND, (room, 100), end);
        }
        let devices = Devices {
            flush_fails: (true, false),
            ..SOUND
        };
        check(&rt, line, devices, (3, whole, b"write failed\n"));
    }
}

// What was counted before a reader failed is written.
#[test]
fn a_fault_that_can_not_be_printed_keeps_its_status(rt: HostRuntime) {
    let read = b"read failed\n".as_slice();
    let trace = b"a\na\nget b\nset a\ndelete b\nget b\n".as_slice();
    for (line, given, good, status, written, fault) in [
        (
            "word 0",
            trace,
            None,
            2,
            b"".as_slice(),
            b"bad word\n".as_slice(),
        ),
        ("script", SOUND.given, Some(30), 3, b"REFILLED\n", read),
        ("replay", trace, Some(4), 3, TOTALS, read),
    ] {
        let devices = Devices {
            given,
            good,
            ..SOUND
        };
        for room in 0..fault.len() {
            let end = (status, written, &fault[..room]);
            check_full(&rt, line, devices, (10_000, room), end);
        }
        let end = (status, written, fault);
        check_full(&rt, line, devices, (10_000, fault.len()), end);
    }
}

#[test]
fn a_fault_keeps_its_line_if_a_flush_before_it_fails(rt: HostRuntime) {
    let devices = Devices {
        given: b"p0 refill 0 4294967295\nx\n",
        flush_fails: (true, true),
        ..SOUND
    };
    check(&rt, "script", devices, (2, b"REFILLED\n", b"bad line 2\n"));
}
