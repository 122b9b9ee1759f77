//! A client that makes its commands of a trace, and counts what they came to.
ghost use Rattle.std.specs.Prelude.{◌≡◌};
ghost use Rattle.segreplay.specs.Playing.{value_of};

use crate::counts::{CommandResult, Counts};
use crate::lives::share_given;
use segclient::{Client, GetAnswer, PutAnswer};
use segtraces::{Operation, TraceCommand};
use segword::{VALUE_BYTES, Value};

/// A value of so many bytes, all 0, or of `VALUE_BYTES` if that is less.
pub(crate) fn value_of(bytes: usize) -> Value
    ensures { result ≡ value_of bytes }
{
    let zeros = [0u8; VALUE_BYTES];
    match Value::new(&zeros[..bytes.min(VALUE_BYTES)]) {
        Some(value) => value,
        None => unreachable!(),
    }
}

/// A turn: a command, the client that is to make it, and whether it is counted.
#[derive(Drop)]
pub(crate) struct Assignment {
    pub(crate) request: TraceCommand,
    pub(crate) client: u32,
    pub(crate) is_counted: bool,
}

/// A client with its number, the value that it puts where a command has no size, and its counts.
#[derive(Drop)]
pub(crate) struct Player<'i> {
    pub(crate) client: Client<'i>,
    /// Which of the caches it is a client of.
    pub(crate) cache: usize,
    pub(crate) number: u32,
    pub(crate) value: Value,
    pub(crate) counts: Counts,
}

impl<'i> Player<'i> {
    ghost use Rattle.std.specs.Prelude.{◌≡◌};
    ghost use Rattle.segreplay.specs.Counting.{no_counts};
    ghost use Rattle.segreplay.specs.Playing.{CountsItems, given_to, Makes, Plays, PutsFor, Serves};
    ghost use Rattle.segreplay.specs.Playing.{Takes, TakesOwn};

    pub(crate) fn new(client: Client<'i>, cache: usize, number: u32, value: Value) -> Player<'i>
        ensures client { result.client ≡ client.entry }
        ensures cache { result.cache ≡ cache }
        ensures number { result.number ≡ number }
        ensures value { result.value ≡ value }
        ensures counts { result.counts ≡ no_counts }
    {
        Player {
            client,
            cache,
            number,
            value,
            counts: Counts::new(),
        }
    }

    /// Makes those of the commands that are its own, in their order.
    pub(crate) fn play(&mut self, turns: &[Assignment])
        ensures { Plays turns.now self.old self.new }
    {
        for turn in turns {
            self.take_own(turn);
        }
    }

    /// Counts the items that stand in its segments.
    pub(crate) fn count_items(&mut self)
        ensures { CountsItems self.old self.new }
    {
        self.counts.items = u64::from(self.client.index_stats().named_rows);
    }

    // Makes a command if it is its own.
    fn take_own(&mut self, turn: &Assignment)
        ensures { TakesOwn turn.now self.old self.new }
    {
        if turn.client == self.number {
            self.take(turn);
        }
    }

    // Makes a command, and counts it if it is to be counted.
    fn take(&mut self, turn: &Assignment)
        ensures { Takes turn.now self.old self.new }
    {
        let before = self.client.stats();
        let outcome = self.serve(&turn.request);
        if turn.is_counted {
            let after = self.client.stats();
            let given = self.given_to(&turn.request);
            self.counts.count(outcome);
            self.counts.count_effort(
                after.keys_evicted.saturating_sub(before.keys_evicted),
                after.items_kept.saturating_sub(before.items_kept),
            );
            self.counts.count_given(outcome, given);
        }
    }

    // Which share of its time to live a command is given, if it stores now.
    fn given_to(&self, request: &TraceCommand) -> u64
        ensures { result ≡ given_to request.now self.now.client }
    {
        share_given(
            request.moment,
            request.time_to_live,
            self.client.stores_until().unwrap_or(0),
        )
    }

    // Makes a command at its moment.
    fn serve(&mut self, request: &TraceCommand) -> CommandResult
        ensures serves { Serves self.old.value request.now result self.old.client self.new.client }
        ensures cache { self.new.cache ≡ self.old.cache }
        ensures number { self.new.number ≡ self.old.number }
        ensures value { self.new.value ≡ self.old.value }
        ensures counts { self.new.counts ≡ self.old.counts }
    {
        self.client.set_now(request.moment);
        self.client.set_time_to_live(request.time_to_live);
        match request.verb {
            Operation::Get => self.get(request),
            Operation::Set => CommandResult::Set(self.put(request)),
            Operation::Delete => CommandResult::Delete(self.client.delete(&request.key)),
        }
    }

    // Reads the key, and puts it if it isn't there.
    fn get(&mut self, request: &TraceCommand) -> CommandResult
        requires { request.now.verb ≡ Operation.Get }
        ensures makes { Makes self.old.value request.now result self.old.client self.new.client }
        ensures cache { self.new.cache ≡ self.old.cache }
        ensures number { self.new.number ≡ self.old.number }
        ensures value { self.new.value ≡ self.old.value }
        ensures counts { self.new.counts ≡ self.old.counts }
    {
        match self.client.get(&request.key) {
            GetAnswer::Found(_) => CommandResult::Hit,
            GetAnswer::Miss => CommandResult::Miss(self.put(request)),
            GetAnswer::Busy => CommandResult::GetBusy,
        }
    }

    // Puts a value of the command's size, or else the player's own.
    fn put(&mut self, request: &TraceCommand) -> PutAnswer
        ensures puts { PutsFor self.old.value request.now result self.old.client self.new.client }
        ensures cache { self.new.cache ≡ self.old.cache }
        ensures number { self.new.number ≡ self.old.number }
        ensures value { self.new.value ≡ self.old.value }
        ensures counts { self.new.counts ≡ self.old.counts }
    {
        match request.value_bytes {
            None => self.client.put(&request.key, &self.value),
            Some(bytes) => self.client.put(&request.key, &value_of(bytes as usize)),
        }
    }
}
