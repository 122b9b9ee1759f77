//! What a put takes out of a full bucket: the item of one row.
ghost use Rattle.std.specs.Prelude.{◌≡◌, ◌≤◌, is_some};
ghost use Rattle.segindex.specs.Words.{board_of, shape_of};
ghost use Rattle.segstore.specs.Words.{GoesOn, IsQuiet};
ghost use Rattle.segclient.specs.Clearing.{IsCleared};
ghost use Rattle.segclient.specs.PutParts.{TakesRowOut};

use crate::effort::{Effort, row_evicted_by};
use crate::queues::note_dead;
use crate::segments::Segments;
use segindex::{EvictRowAnswer, Index, Pass, RowRef};

// Evicts the item of one row of the pass's own, for the word that it has in its bucket.
pub(crate) fn take_out(
    index: &Index,
    pass: &mut Pass,
    segments: &mut Segments,
    row: RowRef,
) -> Effort
    requires quiet { IsQuiet (board_of index.now) pass.old }
    requires cleared { IsCleared (shape_of index.now) segments.old.source pass.old }
    ensures on { GoesOn (board_of index.now) pass.old pass.new }
    ensures ring { segments.new.ring ≡ segments.old.ring }
    ensures queues { is_some segments.new.queues ≡ is_some segments.old.queues }
    ensures cleared { IsCleared (shape_of index.now) segments.new.source pass.new }
    ensures few { (result.refilled ≡ 0) × (result.kept ≡ 0) × (result.keys ≤ 1) }
    ensures takes { TakesRowOut (board_of index.now) row result pass.old pass.new }
{
    let told = index.evict_row(pass, row.segment, row.row);
    if told == EvictRowAnswer::Evicted {
        if let Some(queues) = segments.queues.as_mut() {
            note_dead(index, pass, queues, row);
        }
    }
    Effort::evicting(u64::from(row_evicted_by(told)))
}
