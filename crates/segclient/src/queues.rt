//! The segments of a pass in its queues (`segqueues`), which count them from 0 on: what the queues
//! are asked, and what they are told.
ghost use Rattle.std.specs.Prelude.{◌≡◌, ◌≢◌, false, is_some, IfSome, Some};
ghost use Rattle.segmodel.specs.Words.{owner};
ghost use Rattle.segbase.specs.Words.{current_of, number};
ghost use Rattle.segindex.specs.Words.{board_of, shape_of};
ghost use Rattle.segstore.specs.Words.{IsQuiet};

use crate::rows::are_left;
use crate::segments::Segments;
use segindex::{Index, Pass, RowRef};
use segmodel::{DeleteAnswer, SegState};
use segqueues::{Queue, Queues, Round, SegmentRow};
use segword::{Key, hash};
use std::alloc::{AllocError, Global};

// The queues of a pass. What is in use is on probation, the current segment the newest.
pub(crate) fn queues_of(alloc: Global, index: &Index, pass: &Pass) -> Result<Queues, AllocError>
    requires quiet { IsQuiet (board_of index.now) pass.now }
{
    let shape = index.shape();
    let mut queues = Queues::new(alloc, shape.segments_each, shape.rows)?;
    let first = pass.number() * shape.segments_each;
    for at in 0..shape.segments_each {
        if pass.state(first + at) == Some(SegState::InUse) {
            was_refilled(index, pass, &mut queues, first + at, false);
        }
    }
    if let Some(current) = pass.current() {
        was_refilled(index, pass, &mut queues, current, false);
    }
    Ok(queues)
}

// The number of a segment among those of its pass.
pub(crate) fn place_of(index: &Index, segment: u32) -> u32 {
    segment
        .checked_rem(index.shape().segments_each)
        .unwrap_or(0)
}

// The number of a segment among the pass's own, without a division. Of a segment of another pass
// it is no number of theirs.
#[inline(always)]
fn own_place(index: &Index, pass: &Pass, segment: u32) -> u32 {
    let first = pass.number().wrapping_mul(index.shape().segments_each);
    segment.wrapping_sub(first)
}

// The segment of this number among the pass's own.
pub(crate) fn segment_at(index: &Index, pass: &Pass, at: u32) -> Option<u32>
    requires quiet { IsQuiet (board_of index.now) pass.now }
    ensures own { IfSome result (λ segment.
        owner (shape_of index.now) segment ≡ number pass.now) }
{
    let segments = index.shape().segments_each;
    if at >= segments {
        return None;
    }
    Some(pass.number() * segments + at)
}

// The segment of this number among the pass's own, unless it is the current one.
fn other_at(index: &Index, pass: &Pass, at: u32) -> Option<u32>
    requires quiet { IsQuiet (board_of index.now) pass.now }
    ensures own { IfSome result (λ segment.
        (owner (shape_of index.now) segment ≡ number pass.now)
        × (current_of pass.now ≢ Some segment)) }
{
    let segment = segment_at(index, pass, at)?;
    if pass.current() == Some(segment) {
        return None;
    }
    Some(segment)
}

// The number of the current segment.
fn current_place(index: &Index, pass: &Pass) -> Option<u32> {
    Some(place_of(index, pass.current()?))
}

// The segment that came into the queue before the others, the current one left out.
pub(crate) fn oldest(index: &Index, pass: &Pass, queues: &Queues, queue: Queue) -> Option<u32>
    requires quiet { IsQuiet (board_of index.now) pass.now }
    ensures own { IfSome result (λ segment.
        (owner (shape_of index.now) segment ≡ number pass.now)
        × (current_of pass.now ≢ Some segment)) }
{
    let at = queues.oldest(queue, current_place(index, pass))?;
    other_at(index, pass, at)
}

// The segment that is given up for puts, the current one left out: one that has expired,
// or else the one that came into the queue before the others.
pub(crate) fn first_to_go(
    index: &Index,
    pass: &Pass,
    queues: &mut Queues,
    queue: Queue,
    moment: u32,
) -> Option<u32>
    requires quiet { IsQuiet (board_of index.now) pass.now }
    ensures own { IfSome result (λ segment.
        (owner (shape_of index.now) segment ≡ number pass.now)
        × (current_of pass.now ≢ Some segment)) }
{
    let expired = next_expired(index, pass, queues, moment);
    if expired.is_some() {
        return expired;
    }
    oldest(index, pass, queues, queue)
}

// The segment that is cleared next, the current one left out.
pub(crate) fn next_source(
    index: &Index,
    pass: &Pass,
    queues: &mut Queues,
    moment: u32,
) -> Option<u32>
    requires quiet { IsQuiet (board_of index.now) pass.now }
    ensures own { IfSome result (λ segment.
        (owner (shape_of index.now) segment ≡ number pass.now)
        × (current_of pass.now ≢ Some segment)) }
{
    let at = queues.next_source(current_place(index, pass), moment)?;
    other_at(index, pass, at)
}

// A segment that has expired, the current one left out. It is cleared next, or for a put that finds
// no room it is given up at once.
pub(crate) fn next_expired(
    index: &Index,
    pass: &Pass,
    queues: &mut Queues,
    moment: u32,
) -> Option<u32>
    requires quiet { IsQuiet (board_of index.now) pass.now }
    ensures own { IfSome result (λ segment.
        (owner (shape_of index.now) segment ≡ number pass.now)
        × (current_of pass.now ≢ Some segment)) }
{
    let at = queues.next_expired(current_place(index, pass), moment)?;
    other_at(index, pass, at)
}

// The segment, if an item of this one that takes so many rows can move there:
// it has these rows left and the same deadline.
fn if_open(index: &Index, pass: &Pass, into: u32, source: u32, rows: u32) -> Option<u32> {
    let is_open = pass.state(into) == Some(SegState::InUse)
        && are_left(index, pass.used(into)?, rows)
        && pass.deadline(into) == pass.deadline(source);
    if is_open && into != source {
        Some(into)
    } else {
        None
    }
}

// The segment that takes an item of so many rows that moves from this one: the main one with its
// deadline, or else another one with it, unless puts go there now.
pub(crate) fn target_of(
    index: &Index,
    pass: &Pass,
    queues: &Queues,
    source: u32,
    rows: u32,
) -> Option<u32>
    requires quiet { IsQuiet (board_of index.now) pass.now }
{
    let at = queues.target(pass.deadline(source)?)?;
    if_open(index, pass, other_at(index, pass, at)?, source, rows)
}

// The current segment, if it takes an item of so many rows that moves from this one.
// It does where all moves on.
pub(crate) fn current_for(
    index: &Index,
    pass: &Pass,
    queues: &Queues,
    source: u32,
    rows: u32,
) -> Option<u32> {
    if !queues.moves_all() {
        return None;
    }
    if_open(index, pass, pass.current()?, source, rows)
}

// A round over the segments, the current one left out.
pub(crate) fn round(index: &Index, pass: &Pass, queues: &Queues) -> Round {
    queues.round(current_place(index, pass))
}

// A call on the segment has ended: an evict, or a refill that was refused. If it is free, it comes
// last among those that are, and if it is in use still, last in its queue.
pub(crate) fn was_given_up(index: &Index, pass: &Pass, queues: &mut Queues, segment: u32) {
    let at = place_of(index, segment);
    if pass.state(segment) == Some(SegState::InUse) {
        queues.was_refused(at);
    } else {
        queues.was_evicted(at);
    }
}

// The segment was refilled, for puts or as a main one.
pub(crate) fn was_refilled(
    index: &Index,
    pass: &Pass,
    queues: &mut Queues,
    segment: u32,
    is_main: bool,
) {
    let deadline = pass.deadline(segment).unwrap_or(0);
    let used = pass.used(segment).unwrap_or(0);
    queues.was_refilled(place_of(index, segment), is_main, deadline, used);
}

// The row of a segment of the pass's own that was used last.
fn last_row(index: &Index, pass: &Pass, segment: u32) -> SegmentRow {
    SegmentRow {
        segment: own_place(index, pass, segment),
        row: pass.used(segment).unwrap_or(0).saturating_sub(1),
    }
}

// The item of a row of the source is done. It was alive, or wasn't.
pub(crate) fn note_done(index: &Index, queues: &mut Queues, row: RowRef, is_alive: bool) {
    let at = SegmentRow {
        segment: place_of(index, row.segment),
        row: row.row,
    };
    queues.was_done(at, is_alive);
}

// The item of a row of the source moved into this segment.
pub(crate) fn note_moved(index: &Index, pass: &Pass, queues: &mut Queues, from: RowRef, into: u32) {
    let place = SegmentRow {
        segment: place_of(index, from.segment),
        row: from.row,
    };
    queues.was_moved(place, last_row(index, pass, into));
}

// The item of this row was replaced, deleted, or evicted alone.
pub(crate) fn note_dead(index: &Index, pass: &Pass, queues: &mut Queues, row: RowRef) {
    let segment = own_place(index, pass, row.segment);
    if segment < index.shape().segments_each {
        queues.has_died(SegmentRow {
            segment,
            row: row.row,
        });
    }
}

// The queues are told that the key was stored into the row that was used last,
// in place of this one.
#[inline(always)]
pub(crate) fn tell_stored(
    index: &Index,
    pass: &Pass,
    segments: &mut Segments,
    key: &Key,
    replaced: Option<RowRef>,
)
    ensures ring { segments.new.ring ≡ segments.old.ring }
    ensures source { segments.new.source ≡ segments.old.source }
    ensures queues { is_some segments.new.queues ≡ is_some segments.old.queues }
{
    let Some(queues) = segments.queues.as_mut() else {
        return;
    };
    if let Some(row) = replaced {
        note_dead(index, pass, queues, row);
    }
    if let Some(segment) = pass.current() {
        let at = last_row(index, pass, segment);
        queues.was_stored(at, hash(key), replaced.is_some());
    }
}

// The queues are told that the item of this row was deleted, if there was one,
// by a delete that was answered so.
pub(crate) fn tell_deleted(
    index: &Index,
    pass: &Pass,
    segments: &mut Segments,
    row: Option<RowRef>,
    told: DeleteAnswer,
)
    ensures ring { segments.new.ring ≡ segments.old.ring }
    ensures source { segments.new.source ≡ segments.old.source }
    ensures queues { is_some segments.new.queues ≡ is_some segments.old.queues }
    ensures unqueued { is_some segments.old.queues ≡ false → segments.new ≡ segments.old }
{
    let DeleteAnswer::Deleted = told else {
        return;
    };
    let Some(queues) = segments.queues.as_mut() else {
        return;
    };
    if let Some(row) = row {
        note_dead(index, pass, queues, row);
    }
}
