//! What a client does in all shards, one after another.
use crate::client::SharedClient;
use segclient::{IndexStats, Note, Stats};
use segshards::{no_stats, stats_sum, table_sum};
use std::alloc::{AllocError, Global};

impl SharedClient {
    ghost use Rattle.std.specs.Prelude.{◌≡◌, IfErr, IfOk};
    ghost use Rattle.segclient.specs.Made.{Learns, Notes};
    ghost use Rattle.segclient.specs.Member.{SetsCutoff, SetsTimeToLive};
    ghost use Rattle.seghandles.specs.All.{AreNotesFor, EachAnswers, EachMakes, ReturnsTables};
    ghost use Rattle.seghandles.specs.All.{stats_of};

    /// Sets how long what is stored can be read.
    pub(crate) fn set_time_to_live(&mut self, seconds: u32)
        ensures { EachMakes (λ board. SetsTimeToLive seconds) self.old self.new }
    {
        for place in 0..self.guests.len() {
            self.guests[place].set_time_to_live(seconds);
        }
    }

    /// Sets which items a put keeps.
    pub(crate) fn keep_from(&mut self, cutoff: Option<u8>)
        ensures { EachMakes (λ board. SetsCutoff cutoff) self.old self.new }
    {
        for place in 0..self.guests.len() {
            self.guests[place].keep_from(cutoff);
        }
    }

    /// What its calls came to so far: the sums over all shards.
    pub(crate) fn stats(&self) -> Stats
        ensures { result ≡ stats_of self.now.guests.items }
    {
        let mut sum = no_stats();
        for guest in self.guests.as_slice() {
            sum = stats_sum(sum, guest.stats());
        }
        sum
    }

    /// What it sees of the tables of all shards: the sums.
    pub(crate) fn index_stats(&mut self) -> IndexStats
        ensures { ReturnsTables result self.old self.new }
    {
        let mut sum = IndexStats {
            overflow_buckets: 0,
            used_rows: 0,
            named_rows: 0,
        };
        for place in 0..self.guests.len() {
            let stats = self.guests[place].index_stats();
            sum = table_sum(sum, stats);
        }
        sum
    }

    /// A note of what it has seen of each shard, in the order of the shards.
    pub(crate) fn note(&mut self, alloc: Global) -> Result<Vec<Note>, AllocError>
        ensures notes { IfOk result (λ notes. EachAnswers Notes notes.items self.old self.new) }
        ensures nothing { IfErr result (λ refused. self.new ≡ self.old) }
    {
        let mut notes = Vec::with_capacity(alloc, self.guests.len())?;
        for place in 0..self.guests.len() {
            notes.push_reserved(self.guests[place].note());
        }
        Ok(notes)
    }

    /// It has then seen all that the notes have.
    pub(crate) fn learn(&mut self, notes: Vec<Note>)
        requires notes { AreNotesFor self.old notes.items }
        ensures { EachAnswers Learns notes.items self.old self.new }
    {
        let mut place = 0;
        for note in notes {
            self.guests[place].learn(note);
            place += 1;
        }
    }
}
