//! What a pass can take out of a full bucket: an item of its own along the bucket's chain.
ghost use Rattle.std.specs.Prelude.{◌≡◌, ◌⊎◌, IfSome, Some};
ghost use Rattle.segmodel.specs.declared.answer.SegState.TheVariants.{InUse};
ghost use Rattle.segbase.specs.Words.{state_of};
ghost use Rattle.segstore.specs.Words.{IsQuiet};
ghost use Rattle.segevict.specs.Crowded.{FindsOwn};

use segbase::{Board, Pass, Place};
use segmodel::SegState;
use segstore::{RowRef, next_place};
use segword::{Item, Key, hash};

// An item in a segment of the pass's own: its row, whether it has expired, and its frequency.
#[derive(Clone, Copy)]
struct OwnItem {
    row: RowRef,
    is_expired: bool,
    frequency: u8,
}

impl OwnItem {
    // Whether it is taken out before another one: as one that has expired,
    // or else as one that is read less often.
    fn goes_before(self, other: OwnItem) -> bool {
        if self.is_expired != other.is_expired {
            return self.is_expired;
        }
        self.frequency < other.frequency
    }
}

// The item of a word, if it is in a segment of the pass's own that is in use.
fn own_item(pass: &Pass, word: u64, now: u32) -> Option<OwnItem>
    ensures own { IfSome result (λ item. state_of pass.now item.row.segment ≡ Some InUse) }
{
    let item = Item::unpack(word)?;
    if pass.state(item.seg) != Some(SegState::InUse) {
        return None;
    }
    Some(OwnItem {
        row: RowRef {
            segment: item.seg,
            row: item.row,
        },
        is_expired: pass.deadline(item.seg)? <= now,
        frequency: item.freq,
    })
}

// Of two items the one that is taken out before the other.
fn sooner(one: Option<OwnItem>, other: Option<OwnItem>) -> Option<OwnItem>
    ensures either { (result ≡ one) ⊎ (result ≡ other) }
{
    match (one, other) {
        (Some(first), Some(next)) if next.goes_before(first) => other,
        (Some(_), _) => one,
        (None, _) => other,
    }
}

/// Looks along the chain of a key, without the bucket's bit, for an item in a segment of the pass's
/// own that is in use. Returns its row.
/// It is an item that has expired at this moment, if there is one, and else one of the lowest
/// frequency.
pub fn own_to_evict(board: &Board, pass: &mut Pass, key: &Key, now: u32) -> Option<RowRef>
    requires quiet { IsQuiet board.now pass.old }
    ensures finds { FindsOwn board.now result pass.old pass.new }
{
    let mut place = Place {
        bucket: board.shape().bucket_of(hash(key)),
        word: 1,
    };
    let mut first = None;
    loop {
        let word = board.look(pass, place);
        first = sooner(first, own_item(pass, word, now));
        match next_place(board, place, word) {
            Some(next) => place = next,
            None => return Some(first?.row),
        }
    }
}
