//! Steps at item words.
ghost use Rattle.std.specs.Prelude.{◌≡◌, ℕ, ◌+◌, ◌<◌, ◌==◌, List, [], ◌∷◌, if◌then◌else◌};
ghost use Rattle.std.specs.Prelude.{OnOk, IfErr};
ghost use Rattle.segword.specs.Words.{item_word};
ghost use Rattle.segmodel.specs.Words.{key_of, tag_of};
ghost use Rattle.segmodel.specs.declared.request.Request.{Request};
ghost use Rattle.segcore.specs.declared.event.Event.TheVariants.{Bumped};
ghost use Rattle.segcore.specs.Words.{Leaving, packed, raised, Slot, Step};

use crate::board::Board;
use crate::pass::Pass;
use crate::place::{Place, Spot};
use segword::Item;

impl Board {
    ghost use Rattle.segbase.specs.Passes.{number, count, IsPassOf, CanStep, AddsAtOnce, Stepped};
    ghost use Rattle.segbase.specs.Spots.{item_spot, IsPlace};
    ghost use Rattle.segbase.specs.Steps.{MayTake, TakesStep, linking, unlinking, bumping, looking};
    ghost use Rattle.segbase.specs.Steps.{exchanging, relinking, AddsLink, AddsRelink, AddsUnlink};
    ghost use Rattle.segbase.specs.Steps.{IsWordAt, word_at};
    ghost use Rattle.segbase.specs.Steps.{IsItemPlace, IsFree, HasItemOf, Missed};

    /// The item word, under its bucket's bit or without it.
    pub fn look(&self, pass: &mut Pass, place: Place) -> u64
        requires pass { IsPassOf self.now pass.old }
        requires place { IsPlace self.now.shape place }
        ensures step { Stepped self.now (looking self.now place) result pass.old pass.new }
        ensures did { AddsAtOnce self.now [] pass.old pass.new }
        ensures found { result ≡ word_at self.now place pass.new }
        ensures reads { IsWordAt self.now place result pass.new }
    {
        self.load_at(pass, Spot::Item(place))
    }

    // An item comes into a word that has the old one.
    fn put(&self, pass: &mut Pass, place: Place, old: u64, item: Item) -> u64
        ghost step: { Step }
        requires can { CanStep self.now pass.old step (item_spot place)
            (exchanging old (item_word item)) }
        ensures { Stepped self.now step result pass.old pass.new }
    {
        self.exchange_at(pass, Spot::Item(place), old, item.pack())
    }

    /// The item of a stored write comes into an empty word of its key's chain,
    /// under the bucket's bit.
    pub fn link(&self, pass: &mut Pass, place: Place, item: Item)
        ghost request: { Request }
        requires pass { IsPassOf self.now pass.old }
        requires item { (item.tag ≡ tag_of (key_of request)) × (item.freq ≡ 1) }
        requires may { MayTake self.now pass.old (linking self.now pass.old place request item 0) }
        requires free { IsFree self.now (key_of request) place pass.old }
        ensures step { TakesStep self.now (linking self.now pass.old place request item 0)
            pass.old pass.new }
        ensures did { AddsLink self.now place request item pass.old pass.new }
    {
        self.put(pass, place, 0, item);
    }

    /// The item of a stored write comes in the place of an item of its key, under the bucket's bit.
    /// `Err` has the word that stands there, the same item with a higher frequency.
    pub fn replace(&self, pass: &mut Pass, place: Place, old: u64, item: Item) -> Result<(), u64>
        ghost request: { Request }
        requires pass { IsPassOf self.now pass.old }
        requires item { (item.tag ≡ tag_of (key_of request)) × (item.freq ≡ 1) }
        requires may { MayTake self.now pass.old
            (linking self.now pass.old place request item old) }
        requires present { HasItemOf self.now (key_of request) place pass.old }
        ensures step { TakesStep self.now (linking self.now pass.old place request item old)
            pass.old pass.new }
        ensures replaced { OnOk result (AddsLink self.now place request item pass.old pass.new) }
        ensures missed { IfErr result (λ found. Missed self.now place old found pass.old pass.new) }
    {
        let found = self.put(pass, place, old, item);
        if found == old { Ok(()) } else { Err(found) }
    }

    /// The item of a key comes to name a row of another segment of the pass's own, in the item's word
    /// and under the bucket's bit. That row has the item's pair, and the frequency stays.
    /// `Err` is as for `replace`.
    pub fn move_item(&self, pass: &mut Pass, place: Place, old: u64, item: Item) -> Result<(), u64>
        ghost named: { Slot }
        requires pass { IsPassOf self.now pass.old }
        requires item { (item.tag ≡ tag_of named.key)
            × (old ≡ packed item.tag item.freq named.segment named.row) }
        requires may { MayTake self.now pass.old (relinking self.now pass.old place named item) }
        ensures step { TakesStep self.now (relinking self.now pass.old place named item)
            pass.old pass.new }
        ensures moved { OnOk result (AddsRelink self.now place named item pass.old pass.new) }
        ensures missed { IfErr result (λ found. Missed self.now place old found pass.old pass.new) }
    {
        let there = self.put(pass, place, old, item);
        if there == old { Ok(()) } else { Err(there) }
    }

    /// The item of a key leaves its word, under the bucket's bit: deleted,
    /// or evicted from a segment of the pass's own. `Err` is as for `replace`.
    pub fn clear(&self, pass: &mut Pass, place: Place, old: u64) -> Result<(), u64>
        ghost left: { List ℕ × Leaving }
        requires pass { IsPassOf self.now pass.old }
        requires may { MayTake self.now pass.old (unlinking self.now pass.old place left old) }
        ensures step { TakesStep self.now (unlinking self.now pass.old place left old)
            pass.old pass.new }
        ensures cleared { OnOk result (AddsUnlink self.now place left pass.old pass.new) }
        ensures missed { IfErr result (λ found. Missed self.now place old found pass.old pass.new) }
    {
        let found = self.exchange_at(pass, Spot::Item(place), old, 0);
        if found == old { Ok(()) } else { Err(found) }
    }

    /// Raises the frequency of an item, without its bucket's bit.
    /// The exchange is tried once. Returns true if the frequency was raised.
    #[inline(always)]
    pub fn bump(&self, pass: &mut Pass, place: Place, old: Item, new: Item) -> bool
        requires pass { IsPassOf self.now pass.old }
        requires item { (new.tag ≡ old.tag) × (new.seg ≡ old.seg) × (new.row ≡ old.row) }
        requires higher { old.freq < new.freq }
        requires chain { IsItemPlace self.now pass.old place }
        ensures step { (found : ℕ)
            × Stepped self.now (bumping self.now pass.old place old new.freq) found
            pass.old pass.new
            × (result ≡ (found == item_word old)) }
        ensures did { AddsAtOnce self.now
            (if result then Bumped (number pass.old) old.seg old.row new.freq ∷ [] else [])
            pass.old pass.new }
        ensures raises { count raised pass.new ≡ (if result then 1 else 0) + count raised pass.old }
    {
        let expected = old.pack();
        self.put(pass, place, expected, new) == expected
    }
}
