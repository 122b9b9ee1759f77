//! How many rows of a pass's own segments are used, and how many of these items name.
ghost use Rattle.std.specs.Prelude.{◌≡◌, ◌≤◌, Some};
ghost use Rattle.segcore.specs.Words.{row_after};
ghost use Rattle.segbase.specs.Words.{HasStep, trace, used_of};
ghost use Rattle.segstore.specs.Words.{HoldsPair, Idles, IsQuiet};
ghost use Rattle.segevict.specs.Rows.{IsUsedRow};
ghost use Rattle.segevict.specs.Naming.{ReturnsNamed, CountsRows, FindsNamed};

use crate::row::{find_row, item_of_row};
use crate::spans::rows_from;
use segbase::{Board, Pass};

/// Rows of the segments of a pass's own.
#[derive(Clone, Copy, Debug, PartialEq, Eq)]
pub struct RowCounts {
    /// The rows that are used.
    pub used: u32,
    /// Of these, the ones that an item named.
    pub named: u32,
}

// Whether an item names a used row of a segment of the pass's own.
fn is_named(board: &Board, pass: &mut Pass, segment: u32, row: u32) -> bool
    requires quiet { IsQuiet board.now pass.old }
    requires used { IsUsedRow segment row pass.old }
    requires pair { HoldsPair (row_after (trace pass.old) segment row) }
    ensures idles { Idles board.now pass.old pass.new }
    ensures looks { HasStep pass.old pass.new }
    ensures told { ReturnsNamed board.now.shape segment row result pass.new }
{
    let (bucket, item) = item_of_row(board, pass, segment, row);
    find_row(board, pass, bucket, item).is_some()
}

// How many of the used rows of a segment of the pass's own are rows of items that stood there.
fn named_rows(board: &Board, pass: &mut Pass, segment: u32, used: u32) -> u32
    requires quiet { IsQuiet board.now pass.old }
    requires used { used_of pass.old segment ≡ Some used }
    ensures idles { Idles board.now pass.old pass.new }
    ensures few { result ≤ used }
    ensures named { FindsNamed board.now.shape segment used result pass.old pass.new }
{
    let mut named = 0;
    let mut row = 0;
    while row < used {
        let rows = rows_from(board, pass, segment, row);
        if is_named(board, pass, segment, row) {
            named += rows;
        }
        row += rows;
    }
    named
}

/// How many rows of its own segments the pass has used, and how many used rows items named,
/// each at a moment of the call. At its end no item names any of the others.
pub fn count_rows(board: &Board, pass: &mut Pass) -> RowCounts
    requires quiet { IsQuiet board.now pass.old }
    ensures idles { Idles board.now pass.old pass.new }
    ensures counts { CountsRows board.now.shape result.used result.named
        pass.old pass.new }
{
    let segments = board.shape().segments_each;
    let first = pass.number() * segments;
    let mut used = 0;
    let mut named = 0;
    for at in 0..segments {
        let rows = pass.used(first + at).unwrap();
        used += rows;
        named += named_rows(board, pass, first + at, rows);
    }
    RowCounts { used, named }
}
