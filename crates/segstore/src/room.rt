//! Whether a pass has a row left to store into.
ghost use Rattle.std.specs.Prelude.{◌≡◌, ◌↔◌, Some, false, IfOk, IsErr};
ghost use Rattle.segbase.specs.Words.{current_of, IsPassOf, used_of};
ghost use Rattle.segbase.specs.declared.board.Board.{Board};
ghost use Rattle.segstore.specs.Segments.{AreRows, has_room, has_room_for};
ghost use Rattle.segword.specs.Words.{span_of};

use crate::row::RowRef;
use segbase::{Board, Pass};
use segword::{KeyWords, ValueBytes};

/// No segment is current, or the current one has fewer rows left than an item takes.
#[derive(Clone, Copy, Debug, PartialEq, Eq)]
pub struct NoRoom;

/// Whether the pass can store one more: it has a current segment, and not all rows of it are used.
pub fn has_room(pass: &Pass) -> bool
    ensures { (board : Board) → IsPassOf board pass.now → result ≡ has_room board.shape pass.now }
{
    let Some(segment) = pass.current() else {
        return false;
    };
    match pass.used(segment) {
        Some(used) => used < pass.rows(),
        None => false,
    }
}

/// The row that the pass stores this key and this value into next: the first of its current
/// segment that isn't used, if as many are left as their item takes.
pub fn next_row(
    board: &Board,
    pass: &Pass,
    key: &KeyWords<'_>,
    value: &ValueBytes<'_>,
) -> Result<RowRef, NoRoom>
    ensures next { IfOk result (λ next.
        (current_of pass.now ≡ Some next.segment) × (used_of pass.now next.segment ≡ Some next.row)
        × AreRows board.now.shape next.row (span_of key.now value.now)) }
    ensures no_room { IsErr result
        ↔ (has_room_for board.now.shape (span_of key.now value.now) pass.now ≡ false) }
{
    let segment = pass.current().ok_or(NoRoom)?;
    let row = pass.used(segment).ok_or(NoRoom)?;
    let left = board.shape().rows.saturating_sub(row);
    if left < key.span(value) {
        return Err(NoRoom);
    }
    Ok(RowRef { segment, row })
}
