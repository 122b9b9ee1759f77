//! The theorems of the core. Each function does nothing: its contract is the law.
ghost use Rattle.std.specs.Prelude.{◌≡◌, ◌∷◌, ℕ, Option, Some, None, false};
ghost use Rattle.segmodel.specs.Words.{after, present, standing};
ghost use Rattle.segcore.specs.declared.cell.Cell.TheVariants.{OfCounter, OfBucket, OfOverflow};
ghost use Rattle.segcore.specs.declared.cell.Cell.TheVariants.{OfSegment};
ghost use Rattle.segcore.specs.declared.event.Event.TheVariants.{Took};
ghost use Rattle.segcore.specs.Event.{seen};
ghost use Rattle.segcore.specs.Lawful.{IsLawful};
ghost use Rattle.segcore.specs.Word.{word};
ghost use Rattle.segcore.specs.Mark.{marked};
ghost use Rattle.segcore.specs.Scan.{IsScanOf};
ghost use Rattle.segcore.specs.Standing.{cached};
ghost use Rattle.segcore.specs.World.{Reaches, ReachesOn};
ghost use Rattle.segcore.specs.Example.{shape, a, two, stored, bumped, moved, replaced};
ghost use Rattle.segcore.specs.Example.{relinked, read};
ghost use Rattle.segcore.specs.Example.{evicted, refilled, elsewhere, looks, view_in, after_steps};
ghost use Rattle.segcore.specs.Example.{refusing, to_added, to_refilled, to_refused};
ghost use Rattle.segcore.specs.Kind.{take};
ghost use Rattle.segcore.specs.Laws.{EveryScheduleIsLawful, SightOnlyGrows, EveryScheduleSaysAll};
ghost use Rattle.segcore.specs.Laws.{StepSeesAll, CallsAreInOrder, EveryStepIsTold, ToldStepSeesAll};
ghost use Rattle.segcore.specs.Laws.{LawfulWorldsAreSeen, StepsAreSeen, RunsAreSeen};
ghost use Rattle.segcore.specs.Laws.{ScanPassesAMiss, SeenHistoryIsLegal, MarksArePlaced};
ghost use Rattle.segcore.specs.Laws.{MarksAreOrderly, MarksLeaveTheHistory, MarksCountTheChain};
ghost use Rattle.segcore.specs.Laws.{LawfulKeyFacts, LawfulBucketFacts, LawfulSegmentFacts};
ghost use Rattle.segcore.specs.Laws.{AllowedStepKeepsTheRule, OthersLeaveItAlone, OwnStepIsCounted};
ghost use Rattle.segcore.specs.Laws.{OwnStepOnlyAdds, EverySearchBeginsAhead, AheadStaysAhead};
ghost use Rattle.segcore.specs.Laws.{SearchPassesAnother, SearchSkipsWordZero, EndedSearchMissed};
ghost use Rattle.segcore.specs.Laws.{SoughtWordNamesIt, WordOfItsRowIsTheKeys, KeyIsAtItsPlace};
ghost use Rattle.segcore.specs.Laws.{PlaceHasTheKey, OtherTagIsNotTheKeys, OtherPlaceIsNotTheRows};
ghost use Rattle.segcore.specs.Laws.{ChainWordLeadsOn, OtherLastWordEndsTheChain, ChainsOnlyGrow};
ghost use Rattle.segcore.specs.Laws.{PositionsStay, EntriesOnlyGrow, ChangedWordHadAnEntry};
ghost use Rattle.segcore.specs.Laws.{EntryStirsTheKey, FreeWordHasTheVersion};
ghost use Rattle.segcore.specs.Laws.{UnwrittenWordHasTheVersion, VersionIsOfTheWrites};
ghost use Rattle.segcore.specs.Laws.{KeysAreAsManyAsItems, KeysFitTheirChain};
ghost use Rattle.segcore.specs.Laws.{FullChainHasAllItsKeys, ChainIsAsLongAsWide};
ghost use Rattle.segcore.specs.Laws.{FilledWordHasContent};
ghost use Rattle.segcore.specs.Within.{ReadsAreWithin, StepsStayWithin};

/// Whatever steps the passes take, in whatever order, the world that they reach is lawful, and has
/// all that a lawful world has. What each pass has seen only grows,
/// and each step sees all that has happened, and is told to its pass.
/// If all steps of one call come before all steps of another, of any passes,
/// the other has seen from its first step on what the one had seen.
pub fn every_schedule()
    ensures lawful { EveryScheduleIsLawful }
    ensures seen { SightOnlyGrows }
    ensures whole { StepSeesAll }
    ensures told { EveryStepIsTold }
    ensures in_order { CallsAreInOrder }
    ensures says { EveryScheduleSaysAll }
{}

/// A step sees all that has happened, by whatever body it is taken: it is enough that the pass is
/// told of the step, and that the rule holds before and after.
pub fn told_step()
    ensures { ToldStepSeesAll }
{}

/// Each run of the table is one by what its passes see alone. So a law that asks for no more of a
/// run holds of them all.
pub fn runs_are_seen()
    ensures world { LawfulWorldsAreSeen }
    ensures step { StepsAreSeen }
    ensures run { RunsAreSeen }
{}

/// A scan looks at all words of a chain. If it finds what it seeks in none of them, it passed a
/// point at which that was nowhere.
/// What a scan seeks is a key, or the word of the key that names a row.
pub fn miss_point()
    ensures { ScanPassesAMiss }
{}

/// What holds of each lawful trace; a pass has one at every moment.
pub fn lawful_trace()
    ensures legal { SeenHistoryIsLegal }
    ensures placed { MarksArePlaced }
    ensures orderly { MarksAreOrderly }
    ensures unmarked { MarksLeaveTheHistory }
    ensures chained { MarksCountTheChain }
    ensures keys { LawfulKeyFacts }
    ensures buckets { LawfulBucketFacts }
    ensures segments { LawfulSegmentFacts }
{}

/// A step that a pass can take by what it has seen leaves words and trace as the rule wants them,
/// if only others added to the trace since.
pub fn step_keeps_law()
    ensures { AllowedStepKeepsTheRule }
{}

/// What others don't change while a pass does nothing, and what a step of its own adds to its
/// counts.
pub fn between_steps()
    ensures others { OthersLeaveItAlone }
    ensures counts { OwnStepIsCounted }
    ensures grows { OwnStepOnlyAdds }
{}

/// A search along a chain, for the item of a key or for the item that names a row: what is sought
/// was gone at some point, or is ahead of the words that were passed.
pub fn search()
    ensures first { EverySearchBeginsAhead }
    ensures later { AheadStaysAhead }
    ensures passed { SearchPassesAnother }
    ensures skipped { SearchSkipsWordZero }
    ensures ended { EndedSearchMissed }
    ensures word { SoughtWordNamesIt }
{}

/// The position of a key's item is the key's place in the marked history, and a word that names a
/// row of the key is there.
pub fn place_of_key()
    ensures named { WordOfItsRowIsTheKeys }
    ensures placed { KeyIsAtItsPlace }
    ensures there { PlaceHasTheKey }
{}

/// What a chain's words show to one who has no bit. A word with another tag isn't the key's, and
/// one that names another row isn't the row's. The last word of a bucket leads on to the next or
/// ends the chain. A chain only grows, and its places stay where they are.
pub fn chain_words()
    ensures tag { OtherTagIsNotTheKeys }
    ensures row { OtherPlaceIsNotTheRows }
    ensures leads_on { ChainWordLeadsOn }
    ensures ends { OtherLastWordEndsTheChain }
    ensures grows { ChainsOnlyGrow }
    ensures stays { PositionsStay }
{}

/// An item word that has two different items at two moments, frequencies aside, had an entry of its
/// bucket between them.
pub fn changed_word()
    ensures grows { EntriesOnlyGrow }
    ensures changed { ChangedWordHadAnEntry }
    ensures stirred { EntryStirsTheKey }
{}

/// If the bit of a bucket is clear, or nothing was written under it yet, the bucket's information
/// word has the version of the cache. That is the first version and as many more as the bucket had
/// writes, modulo 2^32.
pub fn version_of_bucket()
    ensures free { FreeWordHasTheVersion }
    ensures unwritten { UnwrittenWordHasTheVersion }
    ensures writes { VersionIsOfTheWrites }
{}

/// As many keys of a bucket stand as positions of its chain have an item: at most seven, and six
/// for each overflow bucket of the chain, since one word leads on to it. They are exactly so many if
/// no item word is empty. If no overflow bucket waits to join it, the chain is as long as the bucket
/// is wide.
pub fn keys_of_bucket()
    ensures counted { KeysAreAsManyAsItems }
    ensures few { KeysFitTheirChain }
    ensures full { FullChainHasAllItsKeys }
    ensures wide { ChainIsAsLongAsWide }
    ensures filled { FilledWordHasContent }
{}

/// In a table with limits each step that links only what is within them keeps all that is stored
/// within them. So whatever a get reads at any moment is within them, too.
pub fn stays_within()
    ensures steps { StepsStayWithin }
    ensures reads { ReadsAreWithin }
{}

/// The example is lawful, and its words are those of the format. A scan for a key that moves on,
/// and then goes, finds the key nowhere, and no word of it that names a row. Two passes reach the
/// example by steps of each kind, and have then seen it up to different points.
/// One call of it begins where others ended,
/// and its two steps look at all that had happened by then.
pub fn example()
    ensures lawful { IsLawful shape refilled }
    ensures item { (word shape stored (OfBucket 0 7) ≡ 0xaf60_1000_0000_0000)
        × (word shape bumped (OfBucket 0 7) ≡ 0xaf60_2000_0000_0000) }
    ensures chained { (word shape moved (OfBucket 0 7) ≡ 1)
        × (word shape moved (OfOverflow 0 1) ≡ 0xaf60_2000_0000_0000)
        × (word shape moved OfCounter ≡ 1) }
    ensures replaced { (word shape replaced (OfOverflow 0 1) ≡ 0xaf60_1000_0000_0001)
        × (word shape replaced (OfBucket 0 1) ≡ 0xaf60_1000_0020_0000)
        × (word shape replaced (OfBucket 0 0) ≡ 0x3_0000_0000) }
    ensures relinked { (word shape relinked (OfOverflow 0 1) ≡ 0xaf60_2000_0010_0000)
        × (word shape relinked (OfBucket 0 0) ≡ 0x3_0000_0000)
        × (standing (after shape (seen relinked)) a ≡ Some (cached two 1)) }
    ensures held { word shape (Took 1 0 ∷ moved) (OfBucket 0 0) ≡ 0x1_0000_0001 }
    ensures emptied { (word shape refilled (OfOverflow 0 1) ≡ 0)
        × (word shape refilled (OfBucket 0 1) ≡ 0)
        × (word shape refilled (OfSegment 2) ≡ 0x9_0000_0001) }
    ensures versions { (standing (after shape (seen replaced)) a ≡ Some (cached two 0))
        × (standing (after shape (seen refilled)) a ≡ None)
        × ((after shape (seen refilled)).version 0 ≡ 4) }
    ensures expires { (present (after shape (seen replaced)) 8 a ≡ Some (cached two 0))
        × (present (after shape (seen replaced)) 9 a ≡ None) }
    ensures scanned { (row : Option (ℕ × ℕ))
        → IsScanOf shape a row (marked stored) looks (marked evicted) }
    ensures reached { Reaches shape to_refilled (after_steps to_refilled) }
    ensures traced { (after_steps to_refilled).trace ≡ refilled }
    ensures waited { (word shape read (OfSegment 0) ≡ 0x9_0000_0001)
        × (word shape elsewhere (OfSegment 0) ≡ 0x9_0000_0000) }
    ensures in_order { ReachesOn shape (after_steps to_added) refusing (after_steps to_refused)
        × ((view_in (after_steps to_refused) 1).looks
        ≡ (after_steps ((1, take 0 false) ∷ to_added)).trace ∷ (after_steps to_added).trace
        ∷ (view_in (after_steps to_added) 1).looks) }
    ensures different { ((view_in (after_steps to_refilled) 0).trace ≡ refilled)
        × ((view_in (after_steps to_refilled) 1).trace ≡ elsewhere) }
{}
