//! Devices that fail under a script. How a script ends that is bad or cut short is shown by cases.
use crate::script_runs::{Devices, REPLIES, SCRIPT, SOUND, check};
use segscript::{RunFault, WhenFull};

// A line that is too long for any turn.
const LONG: &[u8] = &[b'x'; 129];

// The script's three lines end at bytes 23, 37 and 49.
#[test]
fn a_reader_that_fails_ends_the_run(rt: HostRuntime) {
    for good in 0..=49usize {
        let replies = match good {
            0..=22 => 0,
            23..=36 => 9,
            37..=48 => 16,
            _ => 24,
        };
        let devices = Devices {
            good: Some(good),
            ..SOUND
        };
        check(
            &rt,
            SCRIPT,
            devices,
            Err(RunFault::Read),
            &REPLIES[..replies],
        );
    }
    for good in 0..=129usize {
        let is_whole = good == 129;
        let fault = if is_whole {
            RunFault::Line(1)
        } else {
            RunFault::Read
        };
        let devices = Devices {
            good: Some(good),
            ..SOUND
        };
        check(&rt, LONG, devices, Err(fault), b"");
    }
}

#[test]
fn a_writer_that_fails_ends_the_run(rt: HostRuntime) {
    for when_full in [WhenFull::Fails, WhenFull::TakesNone] {
        for room in 0..=REPLIES.len() {
            let devices = Devices {
                room,
                when_full,
                ..SOUND
            };
            let is_enough = room == REPLIES.len();
            let end = if is_enough {
                Ok(())
            } else {
                Err(RunFault::Write)
            };
            check(&rt, SCRIPT, devices, end, &REPLIES[..room]);
        }
    }
    let devices = Devices {
        flush_fails: true,
        ..SOUND
    };
    check(&rt, SCRIPT, devices, Err(RunFault::Write), REPLIES);
}
