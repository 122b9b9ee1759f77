//! Items held: a pass stays in the segment of an item, so that the item's value stands there until
//! the hold is released, even if the key is deleted, stored again or evicted.
ghost use Rattle.std.specs.Prelude.{◌≡◌, Option, is_some, IfSome};
ghost use Rattle.segbase.specs.declared.law.Held.{Held};
ghost use Rattle.segbase.specs.declared.pass.Pass.{Pass};
ghost use Rattle.segbase.specs.Words.{HasHeld, holding, IsPassOf, trace, view};
ghost use Rattle.segword.specs.declared.shape.Shape.{Shape};
ghost use Rattle.segbase.specs.declared.board.Board.{Board};
ghost use Rattle.segread.specs.declared.held.Hold.{Hold};
ghost use Rattle.segstore.specs.Words.{IsQuiet};
ghost use Rattle.segread.specs.Holds.{IsHeldRow, IsHoldOf, IsRowOf, HoldsItem, ReleasesHold};
ghost use Rattle.segread.specs.Holds.{SetsHold};
ghost use Rattle.segread.specs.Rows.{HoldsRow, IsKept};

use crate::scan::{Scan, scan_for};
use segbase::{Board, Pass};
use segstore::leave_segment;
use segword::Key;

/// The row of an item that a pass holds. It has to be released, with the pass that holds the item.
/// No call makes one of a `Hold`, which borrows the index.
pub struct HeldRow {
    pub(crate) segment: u32,
    pub(crate) row: u32,
}

/// An item that a pass holds. The hold has to be released, with the pass that holds the item.
pub struct Hold<'i> {
    // While the hold stands, this borrow keeps the index from being closed.
    pub(crate) board: &'i Board,
    pub(crate) row: HeldRow,
}

/// The answer to a hold.
pub enum HoldAnswer<'i> {
    Holding(Hold<'i>),
    Miss,
    /// The words of the key's chain changed at each try.
    Busy,
    /// The pass holds an item.
    AlreadyHolding,
}

/// The answer to a hold whose row goes into a place of the caller's.
#[derive(Clone, Copy, Debug, PartialEq, Eq, Drop)]
pub enum RowAnswer {
    Holding,
    Miss,
    /// As of a `HoldAnswer`.
    Busy,
    /// The pass holds an item.
    AlreadyHolding,
}

/// Holds the item of a key at a moment.
/// The value can be read until the hold is released. A pass holds one item at most.
/// No frequency changes.
pub fn hold_item<'i>(board: &'i Board, pass: &mut Pass, key: &Key, now: u32) -> HoldAnswer<'i>
    requires pass { IsQuiet board.now pass.old }
    ensures holds { HoldsItem board.now key.now now result pass.old pass.new }
{
    if pass.is_holding() {
        return HoldAnswer::AlreadyHolding;
    }
    match scan_for(board, pass, key) {
        Scan::Found(hit) => {
            if hit.deadline <= now {
                leave_segment(board, pass, hit.item.seg);
                return HoldAnswer::Miss;
            }
            let row = HeldRow {
                segment: hit.item.seg,
                row: hit.item.row,
            };
            set_hold(board, pass, Some((key, &row)));
            HoldAnswer::Holding(Hold { board, row })
        }
        Scan::Passed { .. } => HoldAnswer::Miss,
        Scan::Busy => HoldAnswer::Busy,
    }
}

/// Ends a hold. Until then the segment wasn't filled again.
pub fn release(board: &Board, pass: &mut Pass, hold: Hold<'_>)
    requires pass { IsQuiet board.now pass.old }
    requires hold { IsHoldOf board.now.shape hold pass.old }
    ensures releases { ReleasesHold board.now pass.old pass.new }
{
    let Hold { board: _, row } = hold;
    release_row(board, pass, row);
}

/// Holds the item of a key as `hold_item` does, but the row goes into a place of the caller's.
/// The caller has to see that the board stays while the row is there.
pub fn hold_row(
    board: &Board,
    pass: &mut Pass,
    key: &Key,
    now: u32,
    kept: &mut Option<HeldRow>,
) -> RowAnswer
    requires pass { IsQuiet board.now pass.old }
    requires kept { IsKept board.now.shape pass.old kept.old }
    ensures kept { IsKept board.now.shape pass.new kept.new }
    ensures holds { HoldsRow board.now key.now now result kept.old kept.new pass.old pass.new }
{
    match hold_item(board, pass, key, now) {
        HoldAnswer::Holding(hold) => {
            let Hold { board: _, row } = hold;
            match kept.replace(row) {
                None => RowAnswer::Holding,
                Some(_other) => unreachable!(),
            }
        }
        HoldAnswer::Miss => RowAnswer::Miss,
        HoldAnswer::Busy => RowAnswer::Busy,
        HoldAnswer::AlreadyHolding => RowAnswer::AlreadyHolding,
    }
}

/// Ends the hold of a row. Until then the segment wasn't filled again.
pub fn release_row(board: &Board, pass: &mut Pass, row: HeldRow)
    requires pass { IsQuiet board.now pass.old }
    requires row { IsHeldRow board.now.shape row pass.old }
    ensures releases { ReleasesHold board.now pass.old pass.new }
{
    let HeldRow { segment, row: _ } = row;
    board.leave(pass, segment);
    set_hold(board, pass, None);
}

// Names what the pass holds: the item of this key, whose row this is, or nothing.
fn set_hold(board: &Board, pass: &mut Pass, item: Option<(&Key, &HeldRow)>)
    ghost held: { Option Held }
    requires pass { IsPassOf board.now pass.old }
    requires held { IfSome held (HasHeld board.now.shape (trace pass.old)) }
    requires item { is_some item ≡ is_some held }
    ensures pass { IsPassOf board.now pass.new }
    ensures view { view pass.new ≡ view pass.old }
    ensures sets { SetsHold held pass.old pass.new }
{
    pass.set_holding(item.is_some());
    board.remember(pass);
}

/// A hold is a pass's own as long as the pass holds the same, whatever else the pass does, and its
/// row holds the pair that long. This function does nothing: its contract is the theorem.
pub fn hold_stays()
    ensures stays { (shape : Shape) (hold : Hold) (p q : Pass)
        → IsHoldOf shape hold p → holding q ≡ holding p → IsHoldOf shape hold q }
    ensures row { (board : Board) (hold : Hold) (p : Pass) (is : IsHoldOf board.shape hold p)
        → IsQuiet board p → IsRowOf (trace p) hold.row is.held }
{}
