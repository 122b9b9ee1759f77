//! How far a load or a replay has come: a gate that reports it to a watch,
//! and the texts of progress lines.
ghost use Rattle.std.specs.Prelude.{◌≡◌, ◌*◌, ◌/◌, ◌++◌, max, IfOk};
ghost use Rattle.segload.specs.Words.{lets_all_through};
ghost use Rattle.segcli.specs.Progress.{progress_text, rate_text, replay_line};

use crate::totals::{put, put_count};
use segload::{Gate, Totals};
use segreplay::{CacheTotals, Follow};
use segtasks::Replay;
use std::alloc::{AllocError, Global};
use std::sync::atomic::{AtomicU64, Ordering};

/// What looks on while a load or a replay runs.
pub trait Watch: Sync {
    /// So many commands of the load were made, of so many in all. The thread of pass 0 makes this call.
    fn saw(&self, made: u64, of: u64);

    /// So many commands of a trace were made. The call is made if the replay is to be watched.
    fn made(&self, _commands: u64) {}

    /// The load has ended with these totals. The call is made if the load is asked for its stats.
    fn ended(&self, _totals: &Totals) {}

    /// The replay has ended with these totals, which aren't written yet.
    fn replayed(&self, _asked: &Replay<'_>, _totals: &[CacheTotals]) {}
}

/// A watch that does nothing.
#[derive(Drop)]
pub struct NoWatch;

impl Watch for NoWatch {
    fn saw(&self, _made: u64, _of: u64) {}
}

/// The watch is called each time that pass 0 has made so many more commands.
const BETWEEN: u32 = 1024;

/// A gate that lets every command through, counts those that were answered, and calls a watch.
#[derive(Drop)]
pub struct Watched<'w, V> {
    watch: &'w V,
    made: AtomicU64,
    of: u64,
}

impl<'w, V: Watch> Watched<'w, V> {
    /// A gate for a load in which so many passes make so many commands each.
    pub fn new(watch: &'w V, passes: u32, commands: u32) -> Watched<'w, V>
        ensures whole { result.of ≡ passes * commands }
    {
        Watched {
            watch,
            made: AtomicU64::new(0),
            of: u64::from(passes) * u64::from(commands),
        }
    }
}

impl<V: Watch> Gate for Watched<'_, V> {
    ghost may_answer = { λ gate. lets_all_through };

    fn enter(&self, _pass: u32, _call: u32) -> bool {
        true
    }

    fn answered(&self, pass: u32, call: u32) {
        let made = self.made.fetch_add(1, Ordering::SeqCst).saturating_add(1);
        if pass == 0 && call % BETWEEN == BETWEEN - 1 {
            self.watch.saw(made, self.of);
        }
    }
}

/// What follows a replay: it calls a watch, if it is asked to.
#[derive(Drop)]
pub(crate) struct Followed<'w, V> {
    pub(crate) watch: &'w V,
    pub(crate) is_asked: bool,
}

impl<V: Watch> Follow for Followed<'_, V> {
    fn made(&self, commands: u64) {
        if self.is_asked {
            self.watch.made(commands);
        }
    }
}

// How many hundredths of the whole were made. If the whole is nothing it counts as one.
fn percent(made: u64, of: u64) -> u128
    ensures { result ≡ made * 100 / max 1 of }
{
    u128::from(made) * 100 / u128::from(of.max(1))
}

// Puts how many commands are made in a second at the end of the text, if that is known.
fn put_rate(text: &mut Vec<u8>, each_second: Option<u128>) -> Result<(), AllocError>
    ensures text { IfOk result (λ _. text.new.items ≡ text.old.items ++ rate_text each_second) }
{
    let Some(rate) = each_second else {
        return Ok(());
    };
    put_count(text, b", ", rate)?;
    put(text, b" a second")
}

/// The line of a load that has made so many commands, of so many in all, and so many a second if
/// that is known.
pub fn progress_line(
    alloc: Global,
    made: u64,
    of: u64,
    each_second: Option<u128>,
) -> Result<Vec<u8>, AllocError>
    ensures text { IfOk result (λ text. text.items ≡ progress_text made of each_second) }
{
    let mut text = Vec::new(alloc);
    put_count(&mut text, b"", made)?;
    put_count(&mut text, b" of ", of)?;
    put_count(&mut text, b", ", percent(made, of))?;
    put(&mut text, b" %")?;
    put_rate(&mut text, each_second)?;
    put(&mut text, b"\n")?;
    Ok(text)
}

/// The line of a replay that has made so many commands, and so many a second if that is known.
pub fn replay_line(
    alloc: Global,
    made: u64,
    each_second: Option<u128>,
) -> Result<Vec<u8>, AllocError>
    ensures text { IfOk result (λ text. text.items ≡ replay_line made each_second) }
{
    let mut text = Vec::new(alloc);
    put_count(&mut text, b"", made)?;
    put_rate(&mut text, each_second)?;
    put(&mut text, b"\n")?;
    Ok(text)
}
