//! Steps that lengthen a bucket's chain: an overflow bucket is drawn, its word 1 is stored,
//! and the chain then leads on to it.
ghost use Rattle.std.specs.Prelude.{◌≡◌, ◌<◌, [], OnOk, IfErr};
ghost use Rattle.segword.specs.Words.{chain_word, item_word};
ghost use Rattle.segcore.specs.declared.event.Event.TheVariants.{Drew, Put, Chained};
ghost use Rattle.segcore.specs.Words.{drawn_in, Step};

use crate::board::Board;
use crate::pass::Pass;
use crate::place::{Place, Spot};
use segword::{Chain, Item};

/// The most buckets that a chain has: the bucket itself, and three overflow buckets.
pub const CHAIN_BUCKETS: u32 = 4;

impl Board {
    ghost use Rattle.segbase.specs.Passes.{trace, AddsAtOnce, IsPassOf, CanStep, Stepped};
    ghost use Rattle.segbase.specs.Spots.{item_spot, home_bucket_of};
    ghost use Rattle.segbase.specs.Steps.{MayTake, TakesStep, drawing, copying, chaining};
    ghost use Rattle.segbase.specs.Steps.{exchanging, AddsOne, home_at, depth_to_draw, Missed};
    ghost use Rattle.segbase.specs.Steps.{counting, CounterMissed};

    /// How many overflow buckets are allocated. None of them is ever freed.
    pub fn drawn_overflow(&self, pass: &mut Pass) -> u32
        requires pass { IsPassOf self.now pass.old }
        ensures step { Stepped self.now counting result pass.old pass.new }
        ensures did { AddsAtOnce self.now [] pass.old pass.new }
        ensures drawn { result ≡ drawn_in (trace pass.new) }
    {
        // Which bucket one would be drawn for is no matter to a look.
        self.load_at(pass, Spot::Counter(0)) as u32
    }

    /// Draws overflow bucket `from` for a bucket whose bit the pass has.
    /// `Err` has the counter, which is over `from`: others drew that bucket.
    pub fn draw_overflow(&self, pass: &mut Pass, bucket: u32, from: u32) -> Result<(), u32>
        requires pass { IsPassOf self.now pass.old }
        requires may { MayTake self.now pass.old (drawing self.now pass.old bucket from) }
        ensures step { TakesStep self.now (drawing self.now pass.old bucket from)
            pass.old pass.new }
        ensures drawn { OnOk result (AddsOne self.now
            (λ n. Drew n bucket (depth_to_draw self.now bucket pass.old) from) pass.old pass.new) }
        ensures missed { IfErr result (λ counter.
            CounterMissed self.now from counter pass.old pass.new) }
    {
        let from = u64::from(from);
        let found = self.exchange_at(pass, Spot::Counter(bucket), from, from + 1);
        if found == from {
            Ok(())
        } else {
            Err(found as u32)
        }
    }

    /// Stores word 1 of an overflow bucket that was drawn and isn't chained yet:
    /// the item that is to move there.
    pub fn fill_overflow(&self, pass: &mut Pass, overflow: u32, item: Item)
        requires pass { IsPassOf self.now pass.old }
        requires may { MayTake self.now pass.old (copying pass.old overflow item) }
        ensures step { TakesStep self.now (copying pass.old overflow item) pass.old pass.new }
        ensures did { AddsOne self.now
            (λ n. Put n (home_bucket_of (trace pass.old) overflow) (item_word item))
            pass.old pass.new }
    {
        self.store_at(pass, Spot::Overflow(overflow), item.pack());
    }

    // A chain word comes into a word that has the old one.
    fn put_chain(&self, pass: &mut Pass, place: Place, old: u64, overflow: u32) -> u64
        ghost step: { Step }
        requires number { overflow < 65536 }
        requires can { CanStep self.now pass.old step (item_spot place)
            (exchanging old (chain_word overflow)) }
        ensures { Stepped self.now step result pass.old pass.new }
    {
        self.exchange_at(pass, Spot::Item(place), old, Chain::pack(overflow))
    }

    /// The last word of a chain becomes the chain word of the overflow bucket that was drawn and
    /// filled for it. `Err` is as for `replace`.
    pub fn chain(&self, pass: &mut Pass, place: Place, old: u64, overflow: u32) -> Result<(), u64>
        requires pass { IsPassOf self.now pass.old }
        requires may { MayTake self.now pass.old (chaining self.now pass.old place old overflow) }
        ensures step { TakesStep self.now (chaining self.now pass.old place old overflow)
            pass.old pass.new }
        ensures chained { OnOk result (AddsOne self.now
            (λ n. Chained n (home_at self.now place pass.old) overflow) pass.old pass.new) }
        ensures missed { IfErr result (λ found. Missed self.now place old found pass.old pass.new) }
    {
        let found = self.put_chain(pass, place, old, overflow);
        if found == old { Ok(()) } else { Err(found) }
    }
}
