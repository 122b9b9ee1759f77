//! Values read without any bit: they go from the words of their rows straight into the bytes of a
//! caller.
ghost use Rattle.std.specs.Prelude.{◌≡◌};
ghost use Rattle.segstore.specs.Words.{IsQuiet};
ghost use Rattle.segread.specs.Holds.{IsHeldRow, IsHoldOf};
ghost use Rattle.segread.specs.Into.{ReadsHeldInto, ReadsInto, ReadsRowInto, ReadsVersionInto};
ghost use Rattle.segread.specs.Into.{told_of, told_with};

use crate::held::{HeldRow, Hold};
use crate::hit::count_hit;
use crate::scan::{Scan, scan_for};
use crate::version::{Versioned, version_for};
use segbase::{Board, Pass};
use segstore::{RowRef, leave_segment, value_into};
use segword::Key;

/// The answer to a get whose value goes into a buffer.
#[derive(Clone, Copy, Debug, PartialEq, Eq, Drop)]
pub enum IntoAnswer {
    /// The value has this length, and is at the front of the buffer.
    Found(usize),
    /// The value has this length. The buffer is shorter, and as it was.
    Short(usize),
    Miss,
    /// As of a `GetAnswer`.
    Busy,
}

/// The answer to a gets whose value goes into a buffer.
#[derive(Clone, Copy, Debug, PartialEq, Eq, Drop)]
pub enum GetsIntoAnswer {
    /// The value has this length, and is at the front of the buffer. The version is that of the
    /// key's bucket.
    Found(usize, u32),
    /// The value has this length and its bucket this version. The buffer is shorter, and as it was.
    Short(usize, u32),
    Miss,
    /// As of a `GetsAnswer`.
    Busy,
}

/// The value under a key at a moment goes to the front of a buffer, from the words of its row. What is
/// behind it stays as it was. From the deadline of the key's segment on it is a Miss.
/// A hit raises the frequency of the key's item if the draw, a random number, counts.
#[inline(always)]
pub fn get_into(
    board: &Board,
    pass: &mut Pass,
    key: &Key,
    draw: u32,
    now: u32,
    bytes: &mut [u8],
) -> IntoAnswer
    requires pass { IsQuiet board.now pass.old }
    ensures reads { ReadsInto board.now key.now draw now result bytes.old bytes.new
        pass.old pass.new }
{
    match scan_for(board, pass, key) {
        Scan::Found(hit) => {
            if hit.deadline <= now {
                leave_segment(board, pass, hit.item.seg);
                return IntoAnswer::Miss;
            }
            let row = RowRef {
                segment: hit.item.seg,
                row: hit.item.row,
            };
            let copied = value_into(board, pass, row, hit.header, bytes);
            count_hit(board, pass, hit.place, hit.item, draw);
            leave_segment(board, pass, hit.item.seg);
            told_of(copied)
        }
        Scan::Passed { .. } => IntoAnswer::Miss,
        Scan::Busy => IntoAnswer::Busy,
    }
}

// What is told of a copy of a value.
#[inline(always)]
fn told_of(copied: Result<usize, usize>) -> IntoAnswer
    ensures { result ≡ told_of copied }
{
    match copied {
        Ok(length) => IntoAnswer::Found(length),
        Err(length) => IntoAnswer::Short(length),
    }
}

/// The value under a key at a moment with the version of the key's bucket, for a later
/// compare-and-swap. The value goes into a buffer as of `get_into`, once it is known that value and
/// version are of one moment.
/// It is Busy if the pass itself has the bucket locked and the key is present.
#[inline(always)]
pub fn gets_into(
    board: &Board,
    pass: &mut Pass,
    key: &Key,
    draw: u32,
    now: u32,
    bytes: &mut [u8],
) -> GetsIntoAnswer
    requires pass { IsQuiet board.now pass.old }
    ensures reads { ReadsVersionInto board.now key.now draw now result bytes.old bytes.new
        pass.old pass.new }
{
    match version_for(board, pass, key, now) {
        Versioned::Found { hit, version } => {
            let row = RowRef {
                segment: hit.item.seg,
                row: hit.item.row,
            };
            let copied = value_into(board, pass, row, hit.header, bytes);
            count_hit(board, pass, hit.place, hit.item, draw);
            leave_segment(board, pass, hit.item.seg);
            told_with(copied, version)
        }
        Versioned::Miss => GetsIntoAnswer::Miss,
        Versioned::Busy => GetsIntoAnswer::Busy,
    }
}

// What is told of a copy of a value with this version.
#[inline(always)]
fn told_with(copied: Result<usize, usize>, version: u32) -> GetsIntoAnswer
    ensures { result ≡ told_with version copied }
{
    match copied {
        Ok(length) => GetsIntoAnswer::Found(length, version),
        Err(length) => GetsIntoAnswer::Short(length, version),
    }
}

/// The value that is held goes to the front of a buffer. Returns its length: as an error if the
/// buffer is shorter, and then it is as it was.
pub fn held_into(
    board: &Board,
    pass: &mut Pass,
    hold: &Hold<'_>,
    bytes: &mut [u8],
) -> Result<usize, usize>
    requires pass { IsQuiet board.now pass.old }
    requires hold { IsHoldOf board.now.shape hold.now pass.old }
    ensures reads { ReadsHeldInto board.now hold.now result bytes.old bytes.new pass.old pass.new }
{
    row_into(board, pass, &hold.row, bytes)
}

/// The value in a row that is held, as `held_into` copies it.
pub fn row_into(
    board: &Board,
    pass: &mut Pass,
    row: &HeldRow,
    bytes: &mut [u8],
) -> Result<usize, usize>
    requires pass { IsQuiet board.now pass.old }
    requires row { IsHeldRow board.now.shape row.now pass.old }
    ensures reads { ReadsRowInto board.now row.now result bytes.old bytes.new pass.old pass.new }
{
    let header = board.row_load(pass, row.segment, row.row, 0);
    let held = RowRef {
        segment: row.segment,
        row: row.row,
    };
    value_into(board, pass, held, header, bytes)
}
