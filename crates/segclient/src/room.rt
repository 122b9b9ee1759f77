//! Which segments of its own a pass clears for room, in the order in which they were filled
//! or by queues, and how it keeps what was read often.
ghost use Rattle.std.specs.Prelude.{◌≡◌, ◌≢◌, ◌+◌, ◌<◌, ◌≤◌, ◌^◌, ℕ, true, false, is_some, Some, None};
ghost use Rattle.segmodel.specs.Words.{owner};
ghost use Rattle.segbase.specs.Words.{current_of, number};
ghost use Rattle.segstore.specs.Words.{GoesOn, IsQuiet};
ghost use Rattle.segindex.specs.Words.{board_of, shape_of};
ghost use Rattle.segtally.specs.Rings.{IsOwnRing};
ghost use Rattle.segclient.specs.Clearing.{IsCleared};
ghost use Rattle.segclient.specs.PutParts.{Arranges, effort_from, GivesUp, MakesRoom};
ghost use Rattle.segclient.specs.PutParts.{most_in_turn};
ghost use Rattle.segclient.specs.PutParts.{StoresAfresh, StoresAsBefore, TakesFree};

use crate::effort::{Effort, moved_by};
use crate::queues::{first_to_go, oldest, round, was_given_up, was_refilled};
use crate::segments::{Policy, Segments, SourceSegment};
use segindex::{Index, KeepRowAnswer, Pass};
use segmodel::{EvictAnswer, RefillAnswer};
use segpolicy::Ring;
use segqueues::{Queue, Queues};
use segtally::evicted_by;

// Evicts a segment of the pass's own, and refills it. One that isn't in use has no key to evict.
// It says whether that came about, and how many keys were evicted.
fn give_up(index: &Index, pass: &mut Pass, segment: u32, deadline: u32) -> (bool, u32)
    requires quiet { IsQuiet (board_of index.now) pass.old }
    requires own { owner (shape_of index.now) segment ≡ number pass.old }
    ensures on { GoesOn (board_of index.now) pass.old pass.new }
    ensures gives_up { GivesUp (board_of index.now) segment deadline
        result.0 result.1 pass.old pass.new }
{
    match index.evict(pass, segment) {
        EvictAnswer::Evicted(keys) => match index.refill(pass, segment, deadline) {
            RefillAnswer::Refilled => (true, keys),
            RefillAnswer::Held => (false, keys),
            RefillAnswer::NotYours | RefillAnswer::NotEvicted => unreachable!(),
        },
        EvictAnswer::Busy(keys) => (false, keys),
        EvictAnswer::NotYours => unreachable!(),
    }
}

// Gives up the first segment in turn for which that comes about.
// The one that the pass stores into was filled last, so it comes last.
pub(crate) fn make_room(
    index: &Index,
    pass: &mut Pass,
    ring: &mut Ring,
    deadline: u32,
) -> (bool, Effort)
    requires quiet { IsQuiet (board_of index.now) pass.old }
    requires own { IsOwnRing (shape_of index.now) (number pass.old) ring.old }
    ensures on { GoesOn (board_of index.now) pass.old pass.new }
    ensures own { IsOwnRing (shape_of index.now) (number pass.new) ring.new }
    ensures few { (result.1.refilled ≤ 1) × (result.1.kept ≡ 0) × (result.1.keys < 2 ^ 57) }
    ensures room { MakesRoom (board_of index.now) None deadline
        (most_in_turn (shape_of index.now)) result.0 result.1 pass.old pass.new }
    ensures afresh { result.0 ≡ true → StoresAfresh pass.new }
{
    let current = pass.current();
    let mut keys = 0;
    for tried in 0..index.shape().segments_each {
        let segment = ring.next();
        if current != Some(segment) {
            let (is_refilled, more) = give_up(index, pass, segment, deadline);
            keys += u64::from(more);
            if is_refilled {
                return (
                    true,
                    Effort {
                        refilled: 1,
                        kept: 0,
                        keys,
                    },
                );
            }
        }
    }
    let Some(last) = current else {
        return (
            false,
            Effort {
                refilled: 0,
                kept: 0,
                keys,
            },
        );
    };
    let (is_made, more) = give_up(index, pass, last, deadline);
    (
        is_made,
        Effort {
            refilled: u32::from(is_made),
            kept: 0,
            keys: keys + u64::from(more),
        },
    )
}

// Moves what has the cutoff's frequency or a higher one from a segment of the pass's own into the
// one that it stores into, row by row, until something is in the way. It returns how many.
fn keep_rows(index: &Index, pass: &mut Pass, segment: u32, cutoff: u8) -> u32
    requires quiet { IsQuiet (board_of index.now) pass.old }
    requires own { owner (shape_of index.now) segment ≡ number pass.old }
    ensures on { GoesOn (board_of index.now) pass.old pass.new }
    ensures current { current_of pass.new ≡ current_of pass.old }
    ensures until { StoresAsBefore pass.old pass.new }
    ensures few { result ≤ (shape_of index.now).rows }
    ensures keeps { (deadline : ℕ) → Arranges (board_of index.now) (Some cutoff) deadline
        (shape_of index.now).rows (effort_from 0 result 0) pass.old pass.new }
{
    let mut kept = 0;
    for row in 0..index.shape().rows {
        let told = index.keep_row(pass, segment, row, cutoff);
        kept += moved_by(told);
        match told {
            KeepRowAnswer::Moved | KeepRowAnswer::Left => {}
            KeepRowAnswer::NoRoom
            | KeepRowAnswer::Busy
            | KeepRowAnswer::NotYours
            | KeepRowAnswer::NotUsed => return kept,
        }
    }
    kept
}

// Clears the segment that is next in turn, so that the next time it can be refilled at once.
// What was read often is moved into the one that the pass stores into, and the rest is evicted,
// unless others are in the way. It stays next. One that the pass stores into is left.
pub(crate) fn clear_next(index: &Index, pass: &mut Pass, ring: &Ring, cutoff: u8) -> Effort
    requires quiet { IsQuiet (board_of index.now) pass.old }
    requires own { IsOwnRing (shape_of index.now) (number pass.old) ring.now }
    ensures on { GoesOn (board_of index.now) pass.old pass.new }
    ensures until { StoresAsBefore pass.old pass.new }
    ensures few { (result.refilled ≡ 0) × (result.kept < 2 ^ 32) × (result.keys < 2 ^ 32) }
    ensures clears { (deadline : ℕ) → Arranges (board_of index.now) (Some cutoff) deadline
        ((shape_of index.now).rows + 1) result pass.old pass.new }
{
    let segment = ring.peek();
    if pass.current() == Some(segment) {
        return Effort::none();
    }
    let kept = keep_rows(index, pass, segment, cutoff);
    let keys = evicted_by(index.evict(pass, segment));
    Effort {
        refilled: 0,
        kept: u64::from(kept),
        keys: u64::from(keys),
    }
}

// Gives up the first segment in the queues' order for which that comes about, for puts:
// one that has expired comes before all others.
// One that is refused comes last. The current one isn't given up.
pub(crate) fn make_room_in_order(
    index: &Index,
    pass: &mut Pass,
    queues: &mut Queues,
    policy: Policy,
) -> (bool, Effort)
    requires quiet { IsQuiet (board_of index.now) pass.old }
    ensures on { GoesOn (board_of index.now) pass.old pass.new }
    ensures few { (result.1.refilled ≤ 1) × (result.1.kept ≡ 0) × (result.1.keys < 2 ^ 57) }
    ensures arranges { Arranges (board_of index.now) None policy.deadline
        (most_in_turn (shape_of index.now)) result.1 pass.old pass.new }
    ensures room { result.0 ≡ true → MakesRoom (board_of index.now) None policy.deadline
        (most_in_turn (shape_of index.now)) true result.1 pass.old pass.new }
    ensures afresh { result.0 ≡ true → StoresAfresh pass.new }
{
    let round = round(index, pass, queues);
    let mut keys = 0;
    for tried in 0..index.shape().segments_each {
        let queue = round.queue_at(tried);
        let Some(segment) = first_to_go(index, pass, queues, queue, policy.moment) else {
            return (false, Effort::evicting(keys));
        };
        let (is_refilled, more) = give_up(index, pass, segment, policy.deadline);
        keys += u64::from(more);
        if is_refilled {
            was_refilled(index, pass, queues, segment, false);
            let refilled = Effort {
                refilled: 1,
                kept: 0,
                keys,
            };
            return (true, refilled);
        }
        was_given_up(index, pass, queues, segment);
    }
    (false, Effort::evicting(keys))
}

// Whether the segment is the one that is being cleared.
fn is_source(source: Option<SourceSegment>, segment: u32) -> bool
    ensures { result ≡ false → (one : SourceSegment) → source ≡ Some one → one.segment ≢ segment }
{
    match source {
        Some(source) => source.segment == segment,
        None => false,
    }
}

// Refills the free segment that was evicted before the others, for puts, and returns whether it
// could. One that is held comes last. The one that is being cleared is left.
pub(crate) fn take_free(
    index: &Index,
    pass: &mut Pass,
    segments: &mut Segments,
    deadline: u32,
) -> bool
    requires quiet { IsQuiet (board_of index.now) pass.old }
    requires cleared { IsCleared (shape_of index.now) segments.old.source pass.old }
    ensures on { GoesOn (board_of index.now) pass.old pass.new }
    ensures ring { segments.new.ring ≡ segments.old.ring }
    ensures queues { is_some segments.new.queues ≡ is_some segments.old.queues }
    ensures cleared { IsCleared (shape_of index.now) segments.new.source pass.new }
    ensures takes { TakesFree (board_of index.now) deadline result pass.old pass.new }
    ensures afresh { result ≡ true → StoresAfresh pass.new }
{
    let Some(queues) = segments.queues.as_mut() else {
        return false;
    };
    let Some(segment) = oldest(index, pass, queues, Queue::Free) else {
        return false;
    };
    if is_source(segments.source, segment) {
        return false;
    }
    let RefillAnswer::Refilled = index.refill(pass, segment, deadline) else {
        was_given_up(index, pass, queues, segment);
        return false;
    };
    was_refilled(index, pass, queues, segment, false);
    true
}
