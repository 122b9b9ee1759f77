//! A set that makes room.
ghost use Rattle.std.specs.Prelude.{◌≡◌, ◌<◌, ◌^◌, is_some, false};
ghost use Rattle.segbase.specs.Words.{number, Pass as BasePass};
ghost use Rattle.segindex.specs.Words.{board_of, shape_of};
ghost use Rattle.segstore.specs.Words.{GoesOn, IsQuiet};
ghost use Rattle.segwrite.specs.Words.{IsSetAnswer, Writes};
ghost use Rattle.segtally.specs.Rings.{IsOwnRing};
ghost use Rattle.segclient.specs.Clearing.{IsCleared};
ghost use Rattle.segclient.specs.PutCalls.{IsInWindow};
ghost use Rattle.segclient.specs.PutParts.{is_outside, MakesPut, most_for_set};
ghost use Rattle.segclient.specs.PutParts.{plan_of, PutsWhole, request_of, Sets, SetsIfTimely};
ghost use Rattle.segclient.specs.Puts.{SetsFirst};
ghost use Rattle.segclient.specs.Putting.{most_calls};
ghost use Rattle.segclient.specs.Tallies.{write_of};

use crate::choosing::{choose, is_outside};
use crate::crowded::take_out;
use crate::effort::Effort;
use crate::making::make_room_for;
use crate::rows::has_room;
use crate::segments::{Order, Segments};
use segindex::{Condition, Index, Pass, RowRef};
use segmodel::WriteAnswer;

/// The answer to a put.
#[derive(Clone, Copy, Debug, PartialEq, Eq)]
pub enum PutAnswer {
    Stored,
    /// No segment of the client could be refilled: in each somebody was reading
    /// or held an item, or others were at work in the bucket of a key of it.
    /// Or the items that were kept used up the one that was refilled, and then no other could be.
    /// Or the item takes more rows than a segment has.
    NoRoom,
    /// No word of the bucket is left for a new key. The client had no item of its own there that it
    /// could evict, or another thread took the word of the one that it evicted.
    BucketFull,
    /// The bucket is locked, or others were at work in it, at each of 16 sets in a row.
    Busy,
}

impl PutAnswer {
    // The answer of a set that is counted so.
    pub(crate) fn as_write(self) -> WriteAnswer
        ensures { result ≡ write_of self }
    {
        match self {
            PutAnswer::Stored => WriteAnswer::Stored,
            PutAnswer::NoRoom => WriteAnswer::NoRoom,
            PutAnswer::BucketFull => WriteAnswer::BucketFull,
            PutAnswer::Busy => WriteAnswer::Busy,
        }
    }
}

// How often a set is made at most while it is busy.
const TRIES: u32 = 16;

// A set. It stores in `replaced` which row the key had before.
#[inline(always)]
fn set_once(
    index: &Index,
    pass: &mut Pass,
    order: Order<'_>,
    replaced: &mut Option<RowRef>,
) -> WriteAnswer
    requires quiet { IsQuiet (board_of index.now) pass.old }
    ensures writes { Writes (board_of index.now) (request_of order.entry) result pass.old pass.new }
    ensures set { IsSetAnswer result }
{
    let (told, before) = index.write(
        pass,
        order.key,
        order.value,
        Condition::Always,
        order.policy.moment,
    );
    *replaced = before;
    told
}

// A set, made again while it is busy. It stores in `replaced` which row the key had before.
#[inline(always)]
fn set_while_busy(
    index: &Index,
    pass: &mut Pass,
    order: Order<'_>,
    replaced: &mut Option<RowRef>,
) -> PutAnswer
    requires quiet { IsQuiet (board_of index.now) pass.old }
    requires timely { is_outside order.policy.window pass.old ≡ false }
    ensures on { GoesOn (board_of index.now) pass.old pass.new }
    ensures sets { Sets (board_of index.now) (plan_of order.entry) result pass.old pass.new }
{
    for tries in 0..TRIES {
        match set_once(index, pass, order, replaced) {
            WriteAnswer::Stored => return PutAnswer::Stored,
            WriteAnswer::NoRoom => return PutAnswer::NoRoom,
            WriteAnswer::BucketFull => return PutAnswer::BucketFull,
            WriteAnswer::Busy => {}
            WriteAnswer::NotStored | WriteAnswer::Exists | WriteAnswer::NotFound => unreachable!(),
        }
    }
    PutAnswer::Busy
}

// A set, unless the segment that the pass stores into has another deadline than those that are
// asked: then there is no room.
#[inline(always)]
fn set_if_timely(
    index: &Index,
    pass: &mut Pass,
    order: Order<'_>,
    replaced: &mut Option<RowRef>,
) -> PutAnswer
    requires quiet { IsQuiet (board_of index.now) pass.old }
    ensures on { GoesOn (board_of index.now) pass.old pass.new }
    ensures sets { SetsIfTimely (board_of index.now) (plan_of order.entry) result
        pass.old pass.new }
{
    if is_outside(pass, order.policy.window) {
        return PutAnswer::NoRoom;
    }
    set_while_busy(index, pass, order, replaced)
}

// As `set_first`, where the pass stores into no such segment.
#[cold]
#[inline(never)]
fn set_elsewhere(
    index: &Index,
    pass: &mut Pass,
    segments: &mut Segments,
    order: Order<'_>,
) -> PutAnswer
    requires quiet { IsQuiet (board_of index.now) pass.old }
    ensures on { GoesOn (board_of index.now) pass.old pass.new }
    ensures keeps { segments.new ≡ record segments.old { replaced = segments.new.replaced } }
    ensures sets { SetsFirst (board_of index.now) (plan_of order.entry) result
        pass.old pass.new }
{
    choose(index, pass, segments, order.policy.window);
    set_if_timely(index, pass, order, &mut segments.replaced)
}

// The first set of a put. It goes into the segment that the pass stores into, if that has a row left
// and a deadline that is asked, or else into another open one, if there is one.
#[inline(always)]
pub(crate) fn set_first(
    index: &Index,
    pass: &mut Pass,
    segments: &mut Segments,
    order: Order<'_>,
) -> PutAnswer
    requires quiet { IsQuiet (board_of index.now) pass.old }
    ensures on { GoesOn (board_of index.now) pass.old pass.new }
    ensures keeps { segments.new ≡ record segments.old { replaced = segments.new.replaced } }
    ensures sets { SetsFirst (board_of index.now) (plan_of order.entry) result
        pass.old pass.new }
{
    if is_outside(pass, order.policy.window) || !has_room(index, pass) {
        return set_elsewhere(index, pass, segments, order);
    }
    set_while_busy(index, pass, order, &mut segments.replaced)
}

// What becomes of a set that was answered so.
// One that lacked room is made again once room was made.
fn set_in_room(
    index: &Index,
    pass: &mut Pass,
    segments: &mut Segments,
    order: Order<'_>,
    told: PutAnswer,
) -> (PutAnswer, Effort)
    requires quiet { IsQuiet (board_of index.now) pass.old }
    requires own { IsOwnRing (shape_of index.now) (number pass.old) segments.old.ring }
    requires cleared { IsCleared (shape_of index.now) segments.old.source pass.old }
    requires timely { IsInWindow order.policy.window order.policy.deadline }
    ensures on { GoesOn (board_of index.now) pass.old pass.new }
    ensures own { IsOwnRing (shape_of index.now) (number pass.new) segments.new.ring }
    ensures queues { is_some segments.new.queues ≡ is_some segments.old.queues }
    ensures cleared { IsCleared (shape_of index.now) segments.new.source pass.new }
    ensures few { (result.1.refilled < 2 ^ 30) × (result.1.kept < 2 ^ 60)
        × (result.1.keys < 2 ^ 59) }
    ensures sets { (start : BasePass)
        → SetsIfTimely (board_of index.now) (plan_of order.entry) told start pass.old
        → MakesPut (board_of index.now) (plan_of order.entry)
        (most_for_set (shape_of index.now)) result.0 result.1 start pass.new }
{
    let PutAnswer::NoRoom = told else {
        return (told, Effort::none());
    };
    let (is_made, effort) = make_room_for(index, pass, segments, order);
    if !is_made {
        return (PutAnswer::NoRoom, effort);
    }
    (
        set_while_busy(index, pass, order, &mut segments.replaced),
        effort,
    )
}

// What becomes of a put whose first set was answered so. It makes room for its row. If its bucket
// is full, it evicts one item of its own there, and sets again. If it has none, it leaves it at that.
pub(crate) fn put_at_last(
    index: &Index,
    pass: &mut Pass,
    segments: &mut Segments,
    order: Order<'_>,
    told: PutAnswer,
) -> (PutAnswer, Effort)
    requires quiet { IsQuiet (board_of index.now) pass.old }
    requires own { IsOwnRing (shape_of index.now) (number pass.old) segments.old.ring }
    requires cleared { IsCleared (shape_of index.now) segments.old.source pass.old }
    requires timely { IsInWindow order.policy.window order.policy.deadline }
    ensures on { GoesOn (board_of index.now) pass.old pass.new }
    ensures own { IsOwnRing (shape_of index.now) (number pass.new) segments.new.ring }
    ensures queues { is_some segments.new.queues ≡ is_some segments.old.queues }
    ensures cleared { IsCleared (shape_of index.now) segments.new.source pass.new }
    ensures puts { (start : BasePass)
        → SetsIfTimely (board_of index.now) (plan_of order.entry) told start pass.old
        → PutsWhole (board_of index.now) (plan_of order.entry)
        (most_calls (shape_of index.now)) result.0 result.1 start pass.new }
{
    let (told, first) = set_in_room(index, pass, segments, order, told);
    let PutAnswer::BucketFull = told else {
        return (told, first);
    };
    let Some(row) = index.own_to_evict(pass, order.key, order.policy.moment) else {
        return (PutAnswer::BucketFull, first);
    };
    let effort = first.plus(take_out(index, pass, segments, row));
    let told = set_if_timely(index, pass, order, &mut segments.replaced);
    (told, effort)
}
