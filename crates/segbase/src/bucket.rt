//! Steps at a bucket's information word: the writer bit and the version.
ghost use Rattle.std.specs.Prelude.{◌≡◌, ℕ, ◌%◌, ◌<◌, ◌==◌, Option, None, true, [], ◌∷◌};
ghost use Rattle.segword.specs.Words.{info_word};
ghost use Rattle.segmodel.specs.declared.request.Request.{Request};
ghost use Rattle.segmodel.specs.declared.request.Reply.{Reply};
ghost use Rattle.segcore.specs.declared.event.Event.TheVariants.{Freed};
ghost use Rattle.segcore.specs.Words.{bucket_after, HasBit, info_look, release, told};

use crate::board::Board;
use crate::pass::Pass;
use crate::place::Spot;
use segword::Info;

impl Board {
    ghost use Rattle.segbase.specs.Passes.{number, trace, IsPassOf, AddsAtOnce, Stepped};
    ghost use Rattle.segbase.specs.Steps.{MayTake, TakesStep, taking, glancing, version_in};
    ghost use Rattle.segbase.specs.Steps.{Takes, Glances};

    /// Tries to take the writer bit of a bucket.
    /// Returns true if the bit was clear; the pass then has it.
    pub fn take(&self, pass: &mut Pass, bucket: u32) -> bool
        requires pass { IsPassOf self.now pass.old }
        requires bucket { bucket < self.now.shape.buckets }
        ensures step { (found : ℕ)
            × Stepped self.now (taking self.now pass.old bucket) found pass.old pass.new
            × (result ≡ (found % 2 == 0)) }
        ensures takes { Takes self.now bucket result pass.old pass.new }
    {
        self.or_at(pass, Spot::Info(bucket), 1) % 2 == 0
    }

    /// Gives the bit back, and with it raises the version if the write is to be counted.
    /// A refused write enters the history with this step.
    pub fn release(&self, pass: &mut Pass, bucket: u32, counted: bool)
        ghost said: { Option (Request × Reply) }
        requires pass { IsPassOf self.now pass.old }
        requires may { MayTake self.now pass.old (release bucket counted said) }
        ensures step { TakesStep self.now (release bucket counted said) pass.old pass.new }
        ensures did { AddsAtOnce self.now
            (Freed (number pass.old) bucket counted ∷ told (number pass.old) said)
            pass.old pass.new }
        ensures free { (bucket_after self.now.shape (trace pass.new) bucket).holder ≡ None }
    {
        // Bit 0 goes down; with 2^32 more the version goes up as well.
        let amount = if counted {
            u64::from(u32::MAX)
        } else {
            u64::MAX
        };
        self.add_at(pass, Spot::Info(bucket), amount);
    }

    /// The information word of a bucket whose bit the pass has.
    pub fn info_look(&self, pass: &mut Pass, bucket: u32) -> Info
        requires pass { IsPassOf self.now pass.old }
        requires bit { HasBit self.now.shape (trace pass.old) (number pass.old) bucket }
        ensures step { Stepped self.now (info_look bucket) (info_word result) pass.old pass.new }
        ensures did { AddsAtOnce self.now [] pass.old pass.new }
        ensures held { result.held ≡ true }
        ensures version { result.version ≡ version_in self.now pass.old bucket }
    {
        Info::unpack(self.load_at(pass, Spot::Info(bucket))).unwrap()
    }

    /// The information word of a bucket, without its bit.
    pub fn glance(&self, pass: &mut Pass, bucket: u32) -> Info
        requires pass { IsPassOf self.now pass.old }
        requires bucket { bucket < self.now.shape.buckets }
        ensures step { Stepped self.now (glancing self.now pass.old bucket) (info_word result)
            pass.old pass.new }
        ensures glances { Glances self.now bucket result pass.old pass.new }
        ensures version { result.version ≡ version_in self.now pass.new bucket }
    {
        let word = self.load_at(pass, Spot::Info(bucket));
        Info::unpack(word).unwrap()
    }
}
