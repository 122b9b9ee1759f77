//! How a put or another write that was stored clears a segment of its pass: some rows at each.
ghost use Rattle.std.specs.Prelude.{◌≡◌, ◌+◌, ◌<◌, ◌≤◌, ◌^◌, ℕ, true, false, is_some, Option, IfSome, Some, None};
ghost use Rattle.segbase.specs.Words.{deadline_of, number};
ghost use Rattle.segindex.specs.Words.{board_of, shape_of};
ghost use Rattle.segstore.specs.Words.{GoesOn, IsQuiet};
ghost use Rattle.segtally.specs.Rings.{IsOwnRing};
ghost use Rattle.segclient.specs.Clearing.{ClearsAtMost, ClearsRow, ClearsSome, IsCleared};
ghost use Rattle.segclient.specs.Clearing.{AreDone, IsClearing};
ghost use Rattle.segclient.specs.Clearing.{ClearsTurn, TakesRows};

use crate::effort::{Effort, moved_by, row_evicted_by};
use crate::queues::{
    current_for, next_expired, next_source, note_done, note_moved, oldest, place_of, target_of,
    was_given_up, was_refilled,
};
use crate::rows::{last_of, row_behind, rows_left};
use crate::segments::{Segments, SourceSegment};
use segindex::{EvictRowAnswer, Index, KeepRowAnswer, Pass, RowRef};
use segqueues::{Queue, Queues};
use segtally::{evicted_by, refilled_by};

// How a segment is cleared: the least frequency of what is kept, the moment, how many turns are
// left, and how many rows the item takes whose turn it is.
#[derive(Clone, Copy)]
struct Terms {
    least: u8,
    moment: u32,
    turns: u32,
    rows: u32,
}

impl Terms {
    // The same, where the item whose turn it is takes so many rows.
    fn of_rows(self, rows: u32) -> Terms
        ensures { result ≡ record self { rows = rows } }
    {
        Terms { rows, ..self }
    }
}

// What a turn came to: where the clearing is then, whether the put has done its part,
// and in numbers.
#[derive(Clone, Copy)]
pub(crate) struct ClearingTurn {
    pub(crate) source: Option<SourceSegment>,
    pub(crate) is_over: bool,
    pub(crate) effort: Effort,
}

// How many turns a put has, each of which goes over one item at most.
const TURNS: u32 = 8;

// How many turns a put has now.
fn turns_of(queues: &Queues) -> u32
    ensures few { result ≤ 8 }
{
    queues.turns(TURNS).min(TURNS)
}

// The item of the source's row is done, which takes so many rows.
fn next_row(source: SourceSegment, rows: u32, effort: Effort) -> ClearingTurn
    requires fits { source.row + rows < 2 ^ 32 }
    ensures { result ≡ record {
      source = Some (record { segment = source.segment; row = source.row + rows });
      is_over = false;
      effort = effort;
    } }
{
    ClearingTurn {
        source: Some(SourceSegment {
            segment: source.segment,
            row: row_behind(source.row, rows),
        }),
        is_over: false,
        effort,
    }
}

// The source is left as it is, and comes last in its queue.
fn leave(index: &Index, queues: &mut Queues, source: SourceSegment, effort: Effort) -> ClearingTurn
    ensures { result ≡ record { source = None; is_over = true; effort = effort } }
{
    queues.was_refused(place_of(index, source.segment));
    queues.was_cleared();
    ClearingTurn {
        source: None,
        is_over: true,
        effort,
    }
}

// Evicts what is left of the source, of which each used row is done.
fn end_source(
    index: &Index,
    pass: &mut Pass,
    queues: &mut Queues,
    source: SourceSegment,
) -> ClearingTurn
    requires quiet { IsQuiet (board_of index.now) pass.old }
    requires clearing { IsClearing (shape_of index.now) source pass.old }
    requires done { AreDone source.segment source.row pass.old }
    ensures on { GoesOn (board_of index.now) pass.old pass.new }
    ensures cleared { IsCleared (shape_of index.now) result.source pass.new }
    ensures few { (result.effort.refilled ≤ 1) × (result.effort.kept ≤ 1)
        × (result.effort.keys < 2 ^ 32) }
    ensures clears { (cutoff : Option ℕ)
        → ClearsAtMost (board_of index.now) cutoff 1 result.effort pass.old pass.new }
{
    let told = index.evict_rest(pass, source.segment, source.row);
    was_given_up(index, pass, queues, source.segment);
    queues.was_cleared();
    ClearingTurn {
        source: None,
        is_over: false,
        effort: Effort {
            refilled: 0,
            kept: 0,
            keys: u64::from(evicted_by(told)),
        },
    }
}

// Evicts the item of the row, which takes so many rows.
fn evict_one(
    index: &Index,
    pass: &mut Pass,
    queues: &mut Queues,
    source: SourceSegment,
    rows: u32,
) -> ClearingTurn
    requires quiet { IsQuiet (board_of index.now) pass.old }
    requires clearing { IsClearing (shape_of index.now) source pass.old }
    requires spans { TakesRows source rows pass.old }
    ensures on { GoesOn (board_of index.now) pass.old pass.new }
    ensures cleared { IsCleared (shape_of index.now) result.source pass.new }
    ensures few { (result.effort.refilled ≤ 1) × (result.effort.kept ≤ 1)
        × (result.effort.keys < 2 ^ 32) }
    ensures clears { (cutoff : Option ℕ)
        → ClearsAtMost (board_of index.now) cutoff 1 result.effort pass.old pass.new }
{
    let told = index.evict_row(pass, source.segment, source.row);
    let effort = Effort::evicting(u64::from(row_evicted_by(told)));
    let last = RowRef {
        segment: source.segment,
        row: last_of(source.row, rows),
    };
    note_done(index, queues, last, told == EvictRowAnswer::Evicted);
    match told {
        EvictRowAnswer::Evicted | EvictRowAnswer::Left => next_row(source, rows, effort),
        EvictRowAnswer::NotYours | EvictRowAnswer::NotUsed | EvictRowAnswer::Busy => {
            leave(index, queues, source, effort)
        }
    }
}

// Where the item of a row is moved, the least frequency of what is, and how many rows it takes.
#[derive(Clone, Copy)]
struct Move {
    into: u32,
    least: u8,
    rows: u32,
}

// Moves the item of the row if it was read often enough, and else evicts it.
fn move_one(
    index: &Index,
    pass: &mut Pass,
    queues: &mut Queues,
    source: SourceSegment,
    to: Move,
) -> ClearingTurn
    requires quiet { IsQuiet (board_of index.now) pass.old }
    requires clearing { IsClearing (shape_of index.now) source pass.old }
    requires spans { TakesRows source to.rows pass.old }
    ensures on { GoesOn (board_of index.now) pass.old pass.new }
    ensures cleared { IsCleared (shape_of index.now) result.source pass.new }
    ensures few { (result.effort.refilled ≤ 1) × (result.effort.kept ≤ 1)
        × (result.effort.keys < 2 ^ 32) }
    ensures clears { ClearsRow (board_of index.now) to.least
        result.effort pass.old pass.new }
{
    let at = place_of(index, source.segment);
    let last = last_of(source.row, to.rows);
    let cutoff = queues.cutoff_of(at, last, to.least);
    let row = RowRef {
        segment: source.segment,
        row: source.row,
    };
    let told = index.keep_row_into(pass, row, cutoff, to.into);
    let effort = Effort {
        refilled: 0,
        kept: u64::from(moved_by(told)),
        keys: 0,
    };
    match told {
        KeepRowAnswer::Moved => {
            let last = RowRef { row: last, ..row };
            note_moved(index, pass, queues, last, to.into);
            next_row(source, to.rows, effort)
        }
        KeepRowAnswer::Left => evict_one(index, pass, queues, source, to.rows),
        KeepRowAnswer::NoRoom
        | KeepRowAnswer::Busy
        | KeepRowAnswer::NotYours
        | KeepRowAnswer::NotUsed => leave(index, queues, source, effort),
    }
}

// Opens a free segment for what moves, up to the deadline of the source.
// One that is held comes last, and the put has done its part.
fn open_main(
    index: &Index,
    pass: &mut Pass,
    queues: &mut Queues,
    source: SourceSegment,
    until: u32,
) -> ClearingTurn
    requires quiet { IsQuiet (board_of index.now) pass.old }
    requires clearing { IsClearing (shape_of index.now) source pass.old }
    requires until { deadline_of pass.old source.segment ≡ Some until }
    ensures on { GoesOn (board_of index.now) pass.old pass.new }
    ensures cleared { IsCleared (shape_of index.now) result.source pass.new }
    ensures few { (result.effort.refilled ≤ 1) × (result.effort.kept ≤ 1)
        × (result.effort.keys < 2 ^ 32) }
    ensures clears { (cutoff : Option ℕ)
        → ClearsAtMost (board_of index.now) cutoff 1 result.effort pass.old pass.new }
{
    let unopened = ClearingTurn {
        source: Some(source),
        is_over: true,
        effort: Effort::none(),
    };
    let Some(segment) = oldest(index, pass, queues, Queue::Free) else {
        return unopened;
    };
    if segment == source.segment {
        return unopened;
    }
    let refilled = refilled_by(index.refill_aside(pass, segment, until));
    if refilled > 0 {
        was_refilled(index, pass, queues, segment, true);
    } else {
        was_given_up(index, pass, queues, segment);
    }
    ClearingTurn {
        source: Some(source),
        is_over: refilled == 0,
        effort: Effort {
            refilled,
            kept: 0,
            keys: 0,
        },
    }
}

// Whether what is in the source can be read still.
fn is_fresh(pass: &Pass, source: SourceSegment, moment: u32) -> bool {
    match pass.deadline(source.segment) {
        Some(deadline) => moment < deadline,
        None => false,
    }
}

// Whether a free segment can become a main one.
fn can_open(
    index: &Index,
    pass: &Pass,
    queues: &Queues,
    source: SourceSegment,
    turns: u32,
) -> bool {
    let rows = rows_left(index, pass);
    let turns = rows.saturating_mul(TURNS).saturating_add(turns);
    let used = pass.used(source.segment).unwrap_or(0);
    queues.can_open(rows, turns, used.saturating_sub(source.row))
}

// As `clear_row`, where it is known how many rows the item takes (`terms.rows`).
fn clear_one_row(
    index: &Index,
    pass: &mut Pass,
    queues: &mut Queues,
    source: SourceSegment,
    terms: Terms,
) -> ClearingTurn
    requires quiet { IsQuiet (board_of index.now) pass.old }
    requires clearing { IsClearing (shape_of index.now) source pass.old }
    requires spans { TakesRows source terms.rows pass.old }
    ensures on { GoesOn (board_of index.now) pass.old pass.new }
    ensures cleared { IsCleared (shape_of index.now) result.source pass.new }
    ensures few { (result.effort.refilled ≤ 1) × (result.effort.kept ≤ 1)
        × (result.effort.keys < 2 ^ 32) }
    ensures clears { ClearsRow (board_of index.now) terms.least
        result.effort pass.old pass.new }
{
    if pass.used(source.segment).unwrap_or(0) <= source.row {
        return end_source(index, pass, queues, source);
    }
    if !is_fresh(pass, source, terms.moment) {
        return evict_one(index, pass, queues, source, terms.rows);
    }
    if let Some(into) = target_of(index, pass, queues, source.segment, terms.rows) {
        let to = Move {
            into,
            least: terms.least,
            rows: terms.rows,
        };
        return move_one(index, pass, queues, source, to);
    }
    let Some(until) = pass.deadline(source.segment) else {
        return evict_one(index, pass, queues, source, terms.rows);
    };
    if can_open(index, pass, queues, source, terms.turns) {
        return open_main(index, pass, queues, source, until);
    }
    if let Some(into) = current_for(index, pass, queues, source.segment, terms.rows) {
        let to = Move {
            into,
            least: terms.least,
            rows: terms.rows,
        };
        return move_one(index, pass, queues, source, to);
    }
    queues.was_left_behind();
    evict_one(index, pass, queues, source, terms.rows)
}

// Where the clearing goes on, or where another begins: if few segments are free, or one has
// expired.
fn source_of(
    index: &Index,
    pass: &Pass,
    queues: &mut Queues,
    was: Option<SourceSegment>,
    terms: Terms,
) -> Option<SourceSegment>
    requires quiet { IsQuiet (board_of index.now) pass.now }
    requires cleared { IsCleared (shape_of index.now) was pass.now }
    ensures clearing { IfSome result (λ source. IsClearing (shape_of index.now) source pass.now) }
{
    if let Some(source) = was {
        if pass.current() != Some(source.segment) {
            return Some(source);
        }
    }
    let segment = if queues.are_few_free() {
        next_source(index, pass, queues, terms.moment)?
    } else {
        next_expired(index, pass, queues, terms.moment)?
    };
    Some(SourceSegment { segment, row: 0 })
}

// Goes over one item of the source, or opens a main segment for what moves from it.
// Behind its last row it is free.
fn clear_row(
    index: &Index,
    pass: &mut Pass,
    queues: &mut Queues,
    source: SourceSegment,
    terms: Terms,
) -> ClearingTurn
    requires quiet { IsQuiet (board_of index.now) pass.old }
    requires clearing { IsClearing (shape_of index.now) source pass.old }
    ensures on { GoesOn (board_of index.now) pass.old pass.new }
    ensures cleared { IsCleared (shape_of index.now) result.source pass.new }
    ensures few { (result.effort.refilled ≤ 1) × (result.effort.kept ≤ 1)
        × (result.effort.keys < 2 ^ 32) }
    ensures clears { ClearsTurn (board_of index.now) terms.least
        result.effort pass.old pass.new }
{
    let rows = index.span_of(pass, source.segment, source.row);
    clear_one_row(index, pass, queues, source, terms.of_rows(rows))
}

// Clears some rows by the queues.
fn clear_rows(
    index: &Index,
    pass: &mut Pass,
    queues: &mut Queues,
    was: Option<SourceSegment>,
    terms: Terms,
) -> ClearingTurn
    requires quiet { IsQuiet (board_of index.now) pass.old }
    requires cleared { IsCleared (shape_of index.now) was pass.old }
    ensures on { GoesOn (board_of index.now) pass.old pass.new }
    ensures cleared { IsCleared (shape_of index.now) result.source pass.new }
    ensures few { (result.effort.refilled ≤ 16) × (result.effort.kept ≤ 16)
        × (result.effort.keys < 2 ^ 36) }
    ensures clears { ClearsSome (board_of index.now) (Some terms.least)
        result.effort pass.old pass.new }
{
    let mut source = was;
    let mut effort = Effort::none();
    let turns = turns_of(queues);
    for tried in 0..turns {
        let Some(next) = source_of(index, pass, queues, source, terms) else {
            return ClearingTurn {
                source: None,
                is_over: true,
                effort,
            };
        };
        let terms = Terms {
            turns: turns - tried,
            ..terms
        };
        let turn = clear_row(index, pass, queues, next, terms);
        source = turn.source;
        effort = effort.plus(turn.effort);
        if turn.is_over {
            return ClearingTurn {
                source,
                is_over: true,
                effort,
            };
        }
    }
    ClearingTurn {
        source,
        is_over: true,
        effort,
    }
}

// Whether rows are to be cleared: a segment is being cleared, or too few are free,
// or one may have expired at this moment.
#[inline(always)]
pub(crate) fn is_due(segments: &Segments, moment: u32) -> bool
    ensures unqueued { is_some segments.now.queues ≡ false → result ≡ false }
{
    match &segments.queues {
        Some(queues) => {
            segments.source.is_some() || queues.are_few_free() || queues.may_expire(moment)
        }
        None => false,
    }
}

// Clears some rows of segments of the pass, by the queues: by at most 24 calls of the index, of which
// up to eight look how many rows an item takes. What has the cutoff's frequency or a higher one can
// be kept.
pub(crate) fn clear_some(
    index: &Index,
    pass: &mut Pass,
    segments: &mut Segments,
    cutoff: Option<u8>,
    moment: u32,
) -> Effort
    requires quiet { IsQuiet (board_of index.now) pass.old }
    requires own { IsOwnRing (shape_of index.now) (number pass.old) segments.old.ring }
    requires cleared { IsCleared (shape_of index.now) segments.old.source pass.old }
    ensures on { GoesOn (board_of index.now) pass.old pass.new }
    ensures own { IsOwnRing (shape_of index.now) (number pass.new) segments.new.ring }
    ensures queues { is_some segments.new.queues ≡ is_some segments.old.queues }
    ensures cleared { IsCleared (shape_of index.now) segments.new.source pass.new }
    ensures few { (result.refilled ≤ 16) × (result.kept ≤ 16) × (result.keys < 2 ^ 36) }
    ensures clears { ClearsSome (board_of index.now) cutoff result pass.old pass.new }
{
    let Some(least) = cutoff else {
        return Effort::none();
    };
    let Some(queues) = segments.queues.as_mut() else {
        return Effort::none();
    };
    let terms = Terms {
        least,
        moment,
        turns: TURNS,
        rows: 1,
    };
    let turn = clear_rows(index, pass, queues, segments.source, terms);
    segments.source = turn.source;
    turn.effort
}
