//! The rows that an item is stored into: as many as its lengths need.
ghost use Rattle.std.specs.Prelude.{◌≡◌, ◌+◌, ◌<◌, ◌^◌, IsSome};
ghost use Rattle.segbase.specs.Words.{used_of, with_used};

use segbase::Pass;
use segstore::RowRef;

// Counts so many rows from this one on as used.
#[inline(always)]
pub(crate) fn use_rows(pass: &mut Pass, row: RowRef, rows: u32)
    requires own { IsSome (used_of pass.old row.segment) }
    requires fits { row.row + rows < 2 ^ 32 }
    ensures { pass.new
        ≡ record pass.old { plain = with_used row.segment (row.row + rows) pass.old.plain } }
{
    pass.set_used(row.segment, row.row + rows);
}
