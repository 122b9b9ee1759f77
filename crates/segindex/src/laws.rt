//! Laws of quiet passes and of replies, beside the contracts of the calls.
//! These functions do nothing: their contracts are the theorems.
ghost use Rattle.segindex.specs.Answered.{CommandAddsEntries, CommandGoesOn, CommandHasEffect};
ghost use Rattle.segindex.specs.Answered.{CommandHasItsAnswer, CommandIsRefused};
ghost use Rattle.segindex.specs.Answered.{CommandLeavesSegment};
ghost use Rattle.segindex.specs.Laws.{SeenIsLegal, MarksAreBeside, KnowsItsOwn, OwnAreInTable};
ghost use Rattle.segindex.specs.Laws.{UsedAreLinked, CurrentIsInUse, UnusedIsEmpty, LockedIsStill};
ghost use Rattle.segindex.specs.Laws.{DeadlinesAreKnown, ItemsAreWithin, EachUsedIsLinked};
ghost use Rattle.segindex.specs.Laws.{KeysAreFew, ChainsAreShort, AllAreOwn, NoTakeBounced};
ghost use Rattle.segindex.specs.Laws.{NoLookGlanced, NobodyIsInside, BusyIsLocked, DrawnHaveJoined};
ghost use Rattle.segindex.specs.Laws.{KeptAllLeavesNone, NothingIsStirred, WritesAtAMoment, DeletesAtAMoment};
ghost use Rattle.segindex.specs.Laws.{CasFailsWhereWrittenSince, CasCalledLaterFails};
ghost use Rattle.segindex.specs.NewPasses.{NewHasEmptySegments, NewHasItsNumber, NewHasItsShape};
ghost use Rattle.segindex.specs.NewPasses.{NewHasNewPasses, NewHasNothing, NewHasSeenNothing};
ghost use Rattle.segindex.specs.NewPasses.{NewIsQuiet};
ghost use Rattle.segindex.specs.LaterReads.{NotedIsRead, SeenIsRead, StoodIsRead, StoredStands};
ghost use Rattle.segindex.specs.Linearizable.{CallsAreLinearizable, DeleteHasEffect};
ghost use Rattle.segindex.specs.Linearizable.{GetHasEffect, GetsHasEffect, HoldHasEffect};
ghost use Rattle.segindex.specs.Linearizable.{WriteHasEffect};
ghost use Rattle.segindex.specs.Order.{PointsAreInOrder};
ghost use Rattle.segindex.specs.UnnamedRows.{EvictedIsUnnamed, MovedIsUnnamed, UnnamedStay};
ghost use Rattle.segindex.specs.StatsLaws.{StatsCountDrawn, StatsCountNamed, StatsCountNoMore};
ghost use Rattle.segindex.specs.StatsLaws.{StatsCountUsed, StatsOnlyLook};
ghost use Rattle.segindex.specs.Steps.{NoGetWithoutAStep, NoGetsWithoutAStep, NoHoldWithoutAStep};

/// What a quiet pass has seen is a history of a cache of one thread, with marks.
/// The pass knows just its own segments,
/// and of their rows those are used that are rows of items that were linked.
/// No item takes more rows than the table's limits allow, and where these allow only one,
/// those rows are used that an item was linked to.
/// The segment that the pass stores into is in use, and no key stands in one of its own that isn't.
/// A deadline that the pass keeps of a segment is the segment's deadline in that cache.
/// No entry came into the bucket that the pass has locked, since it was locked.
/// At most seven keys of a bucket stand,
/// and six more for each overflow bucket that joined its chain.
/// No more overflow buckets joined than there are.
pub fn quiet_pass()
    ensures legal { SeenIsLegal }
    ensures unmarked { MarksAreBeside }
    ensures owned { KnowsItsOwn }
    ensures in_table { OwnAreInTable }
    ensures rows { UsedAreLinked }
    ensures within { ItemsAreWithin }
    ensures short { EachUsedIsLinked }
    ensures current { CurrentIsInUse }
    ensures deadlines { DeadlinesAreKnown }
    ensures unused { UnusedIsEmpty }
    ensures locked { LockedIsStill }
    ensures few_keys { KeysAreFew }
    ensures few_chained { ChainsAreShort }
{}

/// A new pass is quiet, has its number and has seen nothing.
/// Each of its segments is empty. It stores into none, has no bucket locked and holds no item.
pub fn new_pass()
    ensures quiet { NewIsQuiet }
    ensures number { NewHasItsNumber }
    ensures nothing { NewHasSeenNothing }
    ensures empty { NewHasEmptySegments }
    ensures free { NewHasNothing }
{}

/// A new index has the shape that was asked for, which is valid, and as many passes as that says.
/// Each is new, and has its place for its number.
pub fn new_index()
    ensures shape { NewHasItsShape }
    ensures passes { NewHasNewPasses }
{}

/// What a command is answered, but for what its call costs.
/// The answer is one to such a command. The pass is quiet again, and what it has seen only grew.
/// What is read, or replied to a write, is what a cache of one thread returns
/// at a moment of the call.
/// The pass adds as many entries as the answer tells of, each of the command.
/// What a keep that is Kept left in its segment was read too seldom.
/// No key stands in a segment that was evicted. The pass stores into a segment that was refilled.
/// A command is refused for a reason: too few rows are left, a bucket is full or in the way,
/// the segment isn't the pass's own, is in use, or is being read.
pub fn commands_are_answered()
    ensures kind { CommandHasItsAnswer }
    ensures on { CommandGoesOn }
    ensures effect { CommandHasEffect }
    ensures entries { CommandAddsEntries }
    ensures leaves { CommandLeavesSegment }
    ensures refused { CommandIsRefused }
{}

/// What a pass sees of the table in numbers, but for what the look costs.
/// The pass is quiet again, and all that it keeps is as it was.
/// It counts the used rows of its own segments.
/// It counts as named at least as many of these rows as items name at the end,
/// and at most as many as are used. Where the table's limits allow an item only one row,
/// these are at most as many as items named at some moment of the call.
/// It counts the overflow buckets that were drawn, at some moment of the call.
pub fn stats_are_counted()
    ensures looks { StatsOnlyLook }
    ensures drawn { StatsCountDrawn }
    ensures used { StatsCountUsed }
    ensures named { StatsCountNamed }
    ensures no_more { StatsCountNoMore }
{}

/// A keep with the cutoff 0 that returns Kept leaves no key in the segment.
pub fn keep_of_all()
    ensures { KeptAllLeavesNone }
{}

/// Rows of a pass's own segment that no item names stay so until the pass refills the segment,
/// whatever calls the pass makes meanwhile.
/// So a pass that clears rows one by one can evict the rest of the segment from the next row on.
/// Each evict of the next row that is Evicted or Left makes them one more,
/// and so does each keep of it that is Moved.
pub fn unnamed_rows_stay()
    ensures stay { UnnamedStay }
    ensures evicted { EvictedIsUnnamed }
    ensures moved { MovedIsUnnamed }
{}

/// If an index has one pass, each entry that the pass has seen is its own.
/// No bit that it met, by a take or a look, was another's, and nobody else is in a segment.
/// Only the bucket that it has locked itself is Busy.
/// Each overflow bucket that was allocated has joined its chain.
/// While the pass adds no entry, nothing comes into a bucket.
pub fn one_pass()
    ensures own { AllAreOwn }
    ensures free { NoTakeBounced }
    ensures unglanced { NoLookGlanced }
    ensures nobody { NobodyIsInside }
    ensures unbusy { BusyIsLocked }
    ensures joined { DrawnHaveJoined }
    ensures still { NothingIsStirred }
{}

/// A reply to a write or a delete is that of a cache of one thread at one moment of the call,
/// at which its entry came into the history.
pub fn replies_at_a_moment()
    ensures writes { WritesAtAMoment }
    ensures deletes { DeletesAtAMoment }
{}

/// If all steps of one call come before all steps of another, of any passes,
/// then no moment at which the answer of the one holds is later than any for that of the other.
pub fn calls_are_in_order()
    ensures { PointsAreInOrder }
{}

/// Any calls of any passes, in any run, are linearizable: there is one order of them all, in which
/// each comes at a point between its first step and its return, each answer is there what a cache
/// of one thread answers, and none comes before one that had returned when it began.
/// Two writes have different points, but for two of one pass that overlap in time.
pub fn calls_are_linearizable()
    ensures { CallsAreLinearizable }
{}

/// The calls that have one point: what each does there, by its contract.
pub fn calls_have_an_effect()
    ensures get { GetHasEffect }
    ensures gets { GetsHasEffect }
    ensures hold { HoldHasEffect }
    ensures write { WriteHasEffect }
    ensures delete { DeleteHasEffect }
{}

/// No get or gets returns without a step of its own, and no hold but one that is AlreadyHolding.
/// So what a pass saw in an earlier call is never all that such an answer rests on.
pub fn readers_take_a_step()
    ensures get { NoGetWithoutAStep }
    ensures gets { NoGetsWithoutAStep }
    ensures hold { NoHoldWithoutAStep }
{}

/// A cas that expects the version that a gets of its key returned, and that is entered later,
/// is NotFound if the key is absent then.
/// Otherwise the cas is Exists exactly if the numbers of its bucket's writes
/// at the moments of the two calls differ modulo 2^32, and else Stored.
/// The cas is entered later if its pass, when it called, had seen all that the gets had seen.
pub fn cas_fails_where_written()
    ensures entered_later { CasFailsWhereWrittenSince }
    ensures called_later { CasCalledLaterFails }
{}

/// A write that is Stored has a moment of its call right after which its value stood.
/// If the first step of a get of the key saw such a moment, or the pass had seen it when it called,
/// the get finds this value, or another one that was stored since.
/// It is a Miss only if the key was deleted or evicted since, or its deadline had come.
/// A pass has seen such a moment also if it learned a note that has the moment.
pub fn what_stood_is_read()
    ensures stored { StoredStands }
    ensures seen { SeenIsRead }
    ensures stood { StoodIsRead }
    ensures noted { NotedIsRead }
{}
