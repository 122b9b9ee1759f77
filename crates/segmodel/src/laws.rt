//! The laws of the model. Each function does nothing: its contract is the law.
ghost use Rattle.std.specs.Prelude.{◌≡◌, Some, None};
ghost use Rattle.segmodel.specs.declared.answer.Command.TheVariants.{Refill};
ghost use Rattle.segmodel.specs.declared.answer.RefillAnswer.TheVariants.{Refilled};
ghost use Rattle.segmodel.specs.declared.answer.Answer.TheVariants as answer;
ghost use Rattle.segmodel.specs.Cache.{reads_version, segment_under, value_under};
ghost use Rattle.segmodel.specs.History.{after, Begins, IsLegal, stirred};
ghost use Rattle.segmodel.specs.State.{fresh};
ghost use Rattle.segmodel.specs.Serving.{after_refill, Serves};
ghost use Rattle.segmodel.specs.Example.{shape, a, one, two, added, deleted, relocated, whole};
ghost use Rattle.segmodel.specs.Laws.{LongerIsLegal, EarlierIsLegal, ItemsAreInOrder, StandsAsLeft};
ghost use Rattle.segmodel.specs.Laws.{ReadsAsLeft, DeadlineAsSet, MovesAreUnread};
ghost use Rattle.segmodel.specs.Laws.{GoneIsTakenOut, ChangedIsStored};
ghost use Rattle.segmodel.specs.Laws.{ExpiredReadsNothing, NothingUntilStored};
ghost use Rattle.segmodel.specs.Laws.{VersionCountsWrites, OthersKeepVersion};
ghost use Rattle.segmodel.specs.Laws.{EvictionKeepsVersions, UnwrittenKeepsCache};
ghost use Rattle.segmodel.specs.Laws.{CasFailsWhereWritten, AddNeedsAbsent, ReplaceNeedsPresent};
ghost use Rattle.segmodel.specs.Laws.{CasNeedsVersion, OtherBucketsAreKept, StirredCountsAdded};
ghost use Rattle.segmodel.specs.Laws.{UnstirredReadsTheSame, IsKeptAtTheStart, ServingKeeps};
ghost use Rattle.segmodel.specs.Laws.{CommandsKeep, TurnsKeep, RefilledWhereNoneStands};
ghost use Rattle.segmodel.specs.Laws.{HeldIsNotRefilled, StoreIsAnEntry, DeleteIsAnEntry};
ghost use Rattle.segmodel.specs.Laws.{EveryTurnIsAnswered, OnlyEvictChooses, ServingIsHistory};

/// A legal history is legal with one more entry that follows, and was legal at each earlier moment.
/// After any history the items are in the order of their keys, each key once.
pub fn legal_histories()
    ensures longer { LongerIsLegal }
    ensures earlier { EarlierIsLegal }
    ensures ordered { ItemsAreInOrder }
{}

/// Under a key stands the value that its last store, deletion or eviction left.
/// The key stands in the segment in which it was stored, or to which it was moved last.
/// It reads that value before the deadline of this segment, and none from then on.
/// A segment has the deadline that its last refilling set, and 0 before the first.
pub fn last_change_decides()
    ensures stands { StandsAsLeft }
    ensures reads { ReadsAsLeft }
    ensures deadline { DeadlineAsSet }
{}

/// A move leaves what every key reads at every moment, and every version.
pub fn moves_are_unread()
    ensures { MovesAreUnread }
{}

/// If a key under which a value stood reads none later, it was deleted or evicted in between,
/// or its deadline has come. If it reads another value later, that one was stored in between.
pub fn reads_change_by_entries()
    ensures gone { GoneIsTakenOut }
    ensures changed { ChangedIsStored }
{}

/// From the deadline of its segment on, a key reads nothing until it is stored again.
pub fn expired_keys_read_nothing()
    ensures expired { ExpiredReadsNothing }
    ensures until { NothingUntilStored }
{}

/// The version of a bucket counts the keys stored and deleted in it, modulo 2^32, and nothing else.
pub fn versions_count_writes()
    ensures counted { VersionCountsWrites }
    ensures others { OthersKeepVersion }
    ensures evicted { EvictionKeepsVersions }
    ensures unwritten { UnwrittenKeepsCache }
{}

/// A cas with the version that a gets of its key returned at an earlier moment
/// is NotFound if the key is absent.
/// Otherwise the cas is Exists exactly if the numbers of its bucket's writes differ, modulo 2^32,
/// at the two moments, else Stored.
pub fn cas_fails_where_written()
    ensures { CasFailsWhereWritten }
{}

/// An add stores only under an absent key, and a replace only under a present one.
/// A cas stores only under a present key whose bucket has the expected version.
pub fn stores_need()
    ensures add { AddNeedsAbsent }
    ensures replace { ReplaceNeedsPresent }
    ensures cas { CasNeedsVersion }
{}

/// What is done in one bucket leaves the keys of the others, and their versions.
pub fn buckets_are_apart()
    ensures entry { OtherBucketsAreKept }
    ensures stirred { StirredCountsAdded }
    ensures still { UnstirredReadsTheSame }
{}

/// What always holds of a state (`IsSound`) holds at the start, and commands and turns keep it.
/// So a segment is refilled only if no key stands in it, and not while an item of it is held.
pub fn serving_keeps()
    ensures start { IsKeptAtTheStart }
    ensures command { ServingKeeps }
    ensures commands { CommandsKeep }
    ensures turns { TurnsKeep }
    ensures refilled { RefilledWhereNoneStands }
    ensures held { HeldIsNotRefilled }
{}

/// A write or delete that is served with a reply is an entry that can come next,
/// and leaves the cache that this entry leaves.
pub fn served_writes_are_entries()
    ensures store { StoreIsAnEntry }
    ensures delete { DeleteIsAnEntry }
{}

/// Every turn has an outcome, and all but an eviction have only one.
pub fn turns_are_answered()
    ensures every { EveryTurnIsAnswered }
    ensures one { OnlyEvictChooses }
{}

/// Serving a command adds the entries that its answer implies to the history,
/// and leaves the cache that the longer history leaves.
pub fn serving_is_history()
    ensures { ServingIsHistory }
{}

/// A history with each kind of entry is legal, and meets what the laws ask for.
pub fn example()
    ensures legal { IsLegal shape whole }
    ensures earlier { Begins added whole }
    ensures read { reads_version shape (after shape added) 1 a ≡ Some (one, 1) }
    ensures later { reads_version shape (after shape deleted) 7 a ≡ Some (two, 5) }
    ensures expired { reads_version shape (after shape deleted) 10 a ≡ None }
    ensures stands { value_under (after shape deleted) a ≡ Some two }
    ensures same { reads_version shape (after shape relocated) 9 a ≡ Some (two, 5) }
    ensures moved { segment_under (after shape relocated) a ≡ Some 1 }
    ensures gone { reads_version shape (after shape whole) 7 a ≡ None }
    ensures stirred { stirred shape a added whole ≡ 8 }
    ensures refilled { Serves shape (fresh shape) (Refill 0 10) (answer.Refill Refilled)
        (after_refill 0 10 Refilled (fresh shape)) }
{}
