//! What a watch sees of a load or a replay, and the line of progress.
use crate::cli_runs::check_watched;
use crate::same::same;
use segcli::{Watch, progress_line};
use std::sync::atomic::AtomicU64;
use std::sync::atomic::Ordering::SeqCst;
use std::thread::yield_now;

// How often the first call of a watch lets other threads go first.
const YIELDS: u32 = 100_000;

// After so many commands of pass 0 the watch is called.
const EACH: u64 = 1024;

/// A watch over a load of so many commands, of which others make some.
/// At the first call it leaves the passes that are not watched time for their commands.
#[derive(Drop)]
struct Seen {
    of: u64,
    others: u64,
    /// How often it was called, how often not as it should be, and what it was told last.
    calls: AtomicU64,
    wrong: AtomicU64,
    last: AtomicU64,
}

fn watch_over(of: u64, others: u64) -> Seen {
    Seen {
        of,
        others,
        calls: AtomicU64::new(0),
        wrong: AtomicU64::new(0),
        last: AtomicU64::new(0),
    }
}

impl Watch for Seen {
    fn saw(&self, made: u64, of: u64) {
        let calls = self.calls.fetch_add(1, SeqCst).saturating_add(1);
        let before = self.last.load(SeqCst);
        self.last.store(made, SeqCst);
        let own = calls.saturating_mul(EACH);
        let has_others = calls > 1 && self.others > 0;
        let is_enough = own <= made && before < made && (!has_others || own < made);
        if !is_enough || made > own.saturating_add(self.others) || of != self.of {
            self.wrong.fetch_add(1, SeqCst);
        }
        if calls == 1 {
            for _ in 0..YIELDS {
                yield_now();
            }
        }
    }

    fn made(&self, commands: u64) {
        self.calls.fetch_add(1, SeqCst);
        self.last.store(commands, SeqCst);
    }
}

// The calls are those of pass 0, and they tell the commands of all passes: in the last line 3 times 2,048.
#[test]
fn a_watch_sees_each_1024_commands(rt: HostRuntime) {
    for (line, calls, of, others) in [
        ("load --progress --commands 0", 0, 0, 0),
        ("load --progress --commands 1023", 0, 1023, 0),
        ("load --progress --commands 1024", 1, 1024, 0),
        ("load --progress --commands 4096", 4, 4096, 0),
        ("load --progress --commands 5119", 4, 5119, 0),
        ("load --commands 4096", 0, 4096, 0),
        (
            "load --passes=3 --buckets=16 --commands=2048 --progress",
            2,
            6144,
            4096,
        ),
    ] {
        let seen = watch_over(of, others);
        check_watched(&rt, line, b"", &seen);
        let told = (seen.calls.load(SeqCst), seen.wrong.load(SeqCst));
        same(&rt, &(line, told), &(line, (calls, 0)));
    }
}

// A blank line is no command, and a replay has no whole.
#[test]
fn a_watch_sees_the_commands_of_a_replay(rt: HostRuntime) {
    let seen = watch_over(0, 0);
    check_watched(&rt, "replay --progress", b"a\n\nset b\nget a\n", &seen);
    same(
        &rt,
        &(seen.calls.load(SeqCst), seen.last.load(SeqCst)),
        &(1, 3),
    );
}

#[test]
fn a_line_tells_commands_share_and_rate(rt: HostRuntime) {
    let most = (u64::MAX, u64::MAX);
    let all =
        "18446744073709551615 of 18446744073709551615, 100 %, 340282366920938463463374607431768211455 a second\n";
    // Two thirds are 66.7 hundredths.
    for ((made, of), each_second, line) in [
        ((0, 0), None, "0 of 0, 0 %\n"),
        (
            (1024, 4096),
            Some(2048),
            "1024 of 4096, 25 %, 2048 a second\n",
        ),
        ((2, 3), Some(0), "2 of 3, 66 %, 0 a second\n"),
        ((99, 100), None, "99 of 100, 99 %\n"),
        (most, Some(u128::MAX), all),
    ] {
        let text = progress_line(rt.alloc(), made, of, each_second);
        let text = text.expect(&rt, "memory for a line");
        same(&rt, &text.as_slice(), &line.as_bytes());
    }
}
