//! Which rows an item takes, and whether the segment that a pass stores into has rows left.
ghost use Rattle.std.specs.Prelude.{◌≡◌, ◌+◌, ◌<◌, ◌≤◌, ◌^◌, ℕ, true};
ghost use Rattle.std.specs.Int.{IsInRange};
ghost use Rattle.segindex.specs.Words.{shape_of};
ghost use Rattle.segstore.specs.Words.{has_room, has_room_for};
ghost use Rattle.segclient.specs.PutCalls.{StoresUntil};

use segindex::{Index, Pass};

// The last row of an item that takes so many from this one on. The queues know an item by it.
#[inline(always)]
pub(crate) fn last_of(first: u32, rows: u32) -> u32 {
    first.saturating_add(rows.saturating_sub(1))
}

// The row behind an item that takes so many from this one on.
#[inline(always)]
pub(crate) fn row_behind(first: u32, rows: u32) -> u32
    requires fits { first + rows < 2 ^ 32 }
    ensures { result ≡ first + rows }
{
    first + rows
}

// Whether so many rows of a segment are left, of which these are used.
#[inline(always)]
pub(crate) fn are_left(index: &Index, used: u32, rows: u32) -> bool {
    rows <= index.shape().rows.saturating_sub(used)
}

// How many rows of the current segment are left.
pub(crate) fn rows_left(index: &Index, pass: &Pass) -> u32 {
    let Some(segment) = pass.current() else {
        return 0;
    };
    let used = pass.used(segment).unwrap_or(0);
    index.shape().rows.saturating_sub(used)
}

// Whether the segment that the pass stores into has a row left.
pub(crate) fn has_room(index: &Index, pass: &Pass) -> bool
    ensures { result ≡ has_room (shape_of index.now) pass.now }
{
    let Some(segment) = pass.current() else {
        return false;
    };
    let Some(used) = pass.used(segment) else {
        return false;
    };
    used < index.shape().rows
}

// How many rows of the segment that the pass stores into are left, if it has this deadline,
// and else 0.
pub(crate) fn rows_until(index: &Index, pass: &Pass, deadline: u32) -> u32
    ensures left { (rows : ℕ) → IsInRange 1 result rows
        → has_room_for (shape_of index.now) rows pass.now ≡ true }
    ensures all { StoresUntil deadline pass.now
        → (rows : ℕ) → has_room_for (shape_of index.now) rows pass.now ≡ true → rows ≤ result }
    ensures until { 1 ≤ result → StoresUntil deadline pass.now }
{
    let Some(segment) = pass.current() else {
        return 0;
    };
    if pass.deadline(segment) != Some(deadline) {
        return 0;
    }
    let Some(used) = pass.used(segment) else {
        return 0;
    };
    index.shape().rows.saturating_sub(used)
}
