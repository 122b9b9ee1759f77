//! How far a load or a replay has come: a line on standard error, at most twice a second if there is a clock.
//! And at its end, what a load did to the table, or which hints a replay has.
use segcli::{
    CacheTotals, Pace, Replay, Totals, Watch, hints_text, progress_line, replay_line, stats_text,
};
use std::alloc::AllocError;
use std::io::Write;
use std::sync::atomic::{AtomicU64, Ordering};
use std::time::Instant;

/// The least time between two lines, in milliseconds.
const INTERVAL: u64 = 500;

/// The least number of commands between two lines, if there is no clock.
const COMMANDS: u64 = 1 << 20;

/// Writes the lines. Only the thread of pass 0, or of the reader, calls it, so it needs no lock.
#[derive(Drop)]
pub struct Teller<'r> {
    rt: &'r HostRuntime,
    // The moment of the start, if there is a clock.
    start: Option<Instant>,
    // How many commands were made at the last line or, before one, at the first call. 0 before that call.
    made: AtomicU64,
    // The time of that line or call, in milliseconds since the start.
    time: AtomicU64,
}

impl<'r> Teller<'r> {
    pub fn new(rt: &'r HostRuntime) -> Teller<'r> {
        Teller {
            rt,
            start: Instant::now(rt).ok(),
            made: AtomicU64::new(0),
            time: AtomicU64::new(0),
        }
    }

    // Milliseconds since the start.
    fn now(&self) -> Option<u64> {
        let since = self.start?.elapsed(self.rt).ok()?;
        u64::try_from(since.as_millis()).ok()
    }

    // How long a load with so many commands took, if there is a clock.
    fn pace(&self, commands: u128) -> Option<Pace> {
        let milliseconds = self.now()?;
        Some(Pace {
            milliseconds,
            each_second: commands.saturating_mul(1000) / u128::from(milliseconds.max(1)),
        })
    }

    // Writes a text. One that can't be written is left out.
    fn tell(&self, text: Result<Vec<u8>, AllocError>) {
        if let Ok(text) = text {
            let _ = self.rt.stderr().write_all(text.as_slice());
        }
    }
}

impl Teller<'_> {
    // Whether a line is due after so many commands, and then how many were made in a second since
    // the last one, if there is a clock. The first call starts the count, and no line is due.
    fn due(&self, made: u64) -> Option<Option<u128>> {
        let before = self.made.load(Ordering::SeqCst);
        let new = made.saturating_sub(before);
        let (time, each_second) = match self.now() {
            Some(now) => {
                let passed = now.saturating_sub(self.time.load(Ordering::SeqCst));
                if before != 0 && passed < INTERVAL {
                    return None;
                }
                (
                    now,
                    Some(u128::from(new) * 1000 / u128::from(passed.max(1))),
                )
            }
            None => {
                if before != 0 && new < COMMANDS {
                    return None;
                }
                (0, None)
            }
        };
        self.made.store(made, Ordering::SeqCst);
        self.time.store(time, Ordering::SeqCst);
        if before == 0 { None } else { Some(each_second) }
    }
}

impl Watch for Teller<'_> {
    fn saw(&self, made: u64, of: u64) {
        if let Some(each_second) = self.due(made) {
            self.tell(progress_line(self.rt.alloc(), made, of, each_second));
        }
    }

    fn made(&self, commands: u64) {
        if let Some(each_second) = self.due(commands) {
            self.tell(replay_line(self.rt.alloc(), commands, each_second));
        }
    }

    fn ended(&self, totals: &Totals) {
        self.tell(stats_text(self.rt.alloc(), totals, self.pace(totals.commands())));
    }

    fn replayed(&self, asked: &Replay<'_>, totals: &[CacheTotals]) {
        self.tell(hints_text(self.rt.alloc(), asked, totals));
    }
}
