//! How room is made for what is put: for an item that takes any number of rows, by the client's
//! policy.
ghost use Rattle.std.specs.Prelude.{◌≡◌, ◌<◌, ◌^◌, ℕ, is_some, min};
ghost use Rattle.std.specs.Int.{IsInRange};
ghost use Rattle.segword.specs.Words.{most_rows};
ghost use Rattle.segbase.specs.Words.{number};
ghost use Rattle.segindex.specs.Words.{board_of, shape_of};
ghost use Rattle.segstore.specs.Words.{GoesOn, IsQuiet};
ghost use Rattle.segwrite.specs.Words.{rows_of};
ghost use Rattle.segtally.specs.Rings.{IsOwnRing};
ghost use Rattle.segclient.specs.Clearing.{IsCleared};
ghost use Rattle.segclient.specs.PutParts.{MakesRows, MakesRowsIfNone, most_at_last};
ghost use Rattle.segclient.specs.PutParts.{most_for_room, request_of};

use crate::effort::Effort;
use crate::queues::was_refilled;
use crate::room::{clear_next, make_room, make_room_in_order, take_free};
use crate::rows::rows_until;
use crate::segments::{Order, Policy, Segments};
use segindex::{Index, Pass};
use segword::span_of_bytes;

// Makes room by the client's policy, at this moment, for an item of any length.
// With queues it does nothing where that room is there.
pub(crate) fn make_room_by(
    index: &Index,
    pass: &mut Pass,
    segments: &mut Segments,
    policy: Policy,
) -> (bool, Effort)
    requires quiet { IsQuiet (board_of index.now) pass.old }
    requires own { IsOwnRing (shape_of index.now) (number pass.old) segments.old.ring }
    requires cleared { IsCleared (shape_of index.now) segments.old.source pass.old }
    ensures on { GoesOn (board_of index.now) pass.old pass.new }
    ensures own { IsOwnRing (shape_of index.now) (number pass.new) segments.new.ring }
    ensures queues { is_some segments.new.queues ≡ is_some segments.old.queues }
    ensures cleared { IsCleared (shape_of index.now) segments.new.source pass.new }
    ensures few { (result.1.refilled < 2 ^ 30) × (result.1.kept < 2 ^ 60)
        × (result.1.keys < 2 ^ 59) }
    ensures room { MakesRowsIfNone (board_of index.now) (is_some segments.old.queues)
        policy.cutoff policy.deadline (most_for_room (shape_of index.now))
        (min (most_rows (board_of index.now).limits) (shape_of index.now).rows)
        result.0 result.1 pass.old pass.new }
{
    let rows = index.limits().most_rows().min(index.shape().rows);
    if segments.queues.is_some() && rows <= rows_until(index, pass, policy.deadline) {
        return (true, Effort::none());
    }
    make_rows(index, pass, segments, policy, rows)
}

// Makes room for what is put, by its policy.
pub(crate) fn make_room_for(
    index: &Index,
    pass: &mut Pass,
    segments: &mut Segments,
    order: Order<'_>,
) -> (bool, Effort)
    requires quiet { IsQuiet (board_of index.now) pass.old }
    requires own { IsOwnRing (shape_of index.now) (number pass.old) segments.old.ring }
    requires cleared { IsCleared (shape_of index.now) segments.old.source pass.old }
    ensures on { GoesOn (board_of index.now) pass.old pass.new }
    ensures own { IsOwnRing (shape_of index.now) (number pass.new) segments.new.ring }
    ensures queues { is_some segments.new.queues ≡ is_some segments.old.queues }
    ensures cleared { IsCleared (shape_of index.now) segments.new.source pass.new }
    ensures few { (result.1.refilled < 2 ^ 30) × (result.1.kept < 2 ^ 60)
        × (result.1.keys < 2 ^ 59) }
    ensures room { MakesRows (board_of index.now) order.entry.policy.cutoff
        order.entry.policy.deadline (most_for_room (shape_of index.now))
        (rows_of (request_of order.entry)) result.0 result.1 pass.old pass.new }
{
    let rows = span_of_bytes(order.key, order.value);
    if index.shape().rows < rows {
        return (false, Effort::none());
    }
    make_rows(index, pass, segments, order.policy, rows)
}

// Makes room for an item of so many rows, by the client's policy. Where a free segment is taken
// for it, the clearing of another goes on, and else it ends.
#[cold]
#[inline(never)]
fn make_rows(
    index: &Index,
    pass: &mut Pass,
    segments: &mut Segments,
    policy: Policy,
    rows: u32,
) -> (bool, Effort)
    requires quiet { IsQuiet (board_of index.now) pass.old }
    requires own { IsOwnRing (shape_of index.now) (number pass.old) segments.old.ring }
    requires cleared { IsCleared (shape_of index.now) segments.old.source pass.old }
    requires fits { IsInRange 1 (shape_of index.now).rows rows }
    ensures on { GoesOn (board_of index.now) pass.old pass.new }
    ensures own { IsOwnRing (shape_of index.now) (number pass.new) segments.new.ring }
    ensures queues { is_some segments.new.queues ≡ is_some segments.old.queues }
    ensures cleared { IsCleared (shape_of index.now) segments.new.source pass.new }
    ensures few { (result.1.refilled < 2 ^ 30) × (result.1.kept < 2 ^ 60)
        × (result.1.keys < 2 ^ 59) }
    ensures room { MakesRows (board_of index.now) policy.cutoff policy.deadline
        (most_for_room (shape_of index.now)) rows result.0 result.1 pass.old pass.new }
{
    if take_free(index, pass, segments, policy.deadline) {
        let effort = Effort {
            refilled: 1,
            kept: 0,
            keys: 0,
        };
        return (true, effort);
    }
    segments.source = None;
    if segments.queues.is_some() {
        return make_rows_in_queues(index, pass, segments, policy);
    }
    make_rows_in_turn(index, pass, segments, policy, rows)
}

// Gives up a segment by the queues, for an item of any number of rows. If none could be given up in their
// order, each is tried once more, and the current one at last.
fn make_rows_in_queues(
    index: &Index,
    pass: &mut Pass,
    segments: &mut Segments,
    policy: Policy,
) -> (bool, Effort)
    requires quiet { IsQuiet (board_of index.now) pass.old }
    requires own { IsOwnRing (shape_of index.now) (number pass.old) segments.old.ring }
    ensures on { GoesOn (board_of index.now) pass.old pass.new }
    ensures own { IsOwnRing (shape_of index.now) (number pass.new) segments.new.ring }
    ensures queues { is_some segments.new.queues ≡ is_some segments.old.queues }
    ensures source { segments.new.source ≡ segments.old.source }
    ensures few { (result.1.refilled < 2 ^ 30) × (result.1.kept < 2 ^ 60)
        × (result.1.keys < 2 ^ 59) }
    ensures room { (rows : ℕ) → IsInRange 1 (shape_of index.now).rows rows
        → MakesRows (board_of index.now) policy.cutoff policy.deadline
        (most_at_last (shape_of index.now)) rows result.0 result.1 pass.old pass.new }
{
    let Some(queues) = segments.queues.as_mut() else {
        return make_room(index, pass, &mut segments.ring, policy.deadline);
    };
    let (is_made, first) = make_room_in_order(index, pass, queues, policy);
    if is_made {
        return (true, first);
    }
    let (is_made, last) = make_room(index, pass, &mut segments.ring, policy.deadline);
    if let Some(segment) = pass.current() {
        was_refilled(index, pass, queues, segment, false);
    }
    (is_made, first.plus(last))
}

// Gives up the segment that is next in turn for an item of so many rows, and keeps what has the
// cutoff's frequency or a higher one. If what was kept left too few rows, one more is given up.
fn make_rows_in_turn(
    index: &Index,
    pass: &mut Pass,
    segments: &mut Segments,
    policy: Policy,
    rows: u32,
) -> (bool, Effort)
    requires quiet { IsQuiet (board_of index.now) pass.old }
    requires own { IsOwnRing (shape_of index.now) (number pass.old) segments.old.ring }
    requires fits { IsInRange 1 (shape_of index.now).rows rows }
    ensures on { GoesOn (board_of index.now) pass.old pass.new }
    ensures own { IsOwnRing (shape_of index.now) (number pass.new) segments.new.ring }
    ensures queues { is_some segments.new.queues ≡ is_some segments.old.queues }
    ensures source { segments.new.source ≡ segments.old.source }
    ensures few { (result.1.refilled < 2 ^ 30) × (result.1.kept < 2 ^ 60)
        × (result.1.keys < 2 ^ 59) }
    ensures room { MakesRows (board_of index.now) policy.cutoff policy.deadline
        (most_at_last (shape_of index.now)) rows result.0 result.1 pass.old pass.new }
{
    let (is_made, first) = make_room(index, pass, &mut segments.ring, policy.deadline);
    let Some(least) = policy.cutoff else {
        return (is_made, first);
    };
    if !is_made {
        return (false, first);
    }
    let effort = first.plus(clear_next(index, pass, &segments.ring, least));
    if rows <= rows_until(index, pass, policy.deadline) {
        return (true, effort);
    }
    let (is_made, last) = make_room(index, pass, &mut segments.ring, policy.deadline);
    (is_made, effort.plus(last))
}
