//! Rows of a segment of the pass's own: whose key was stored in each, and which word names it.
ghost use Rattle.std.specs.Prelude.{◌≡◌, ◌<◌, true, false};
ghost use Rattle.segword.specs.Words.{head_width};
ghost use Rattle.segcore.specs.Words.{row_after};
ghost use Rattle.segbase.specs.Words.{HasStep, IsPassOf, trace};
ghost use Rattle.segstore.specs.Words.{HoldsPair, Idles, IsQuiet, TakesAtMost};
ghost use Rattle.segevict.specs.Rows.{HasRow, IsUsedRow, IsStoredIn, FindsRow};
ghost use Rattle.segevict.specs.Steps.{most_looks};

use segbase::{Board, Pass, Place};
use segmodel::SegState;
use segstore::next_place;
use segword::{Item, hash, same_item, tag_of};
use segwrite::Target;

// Whether the segment is in use, and the row is one of its used rows.
pub(crate) fn has_row(pass: &Pass, segment: u32, row: u32) -> bool
    ensures yes { result ≡ true → HasRow segment row pass.now }
    ensures no { result ≡ false → ¬ (HasRow segment row pass.now) }
{
    let Some(used) = pass.used(segment) else {
        return false;
    };
    pass.state(segment) == Some(SegState::InUse) && row < used
}

// The bucket and the item of the key that was stored in a row. The frequency is left open.
// The row has to hold a pair, as the first one of an item does.
pub(crate) fn item_of_row(board: &Board, pass: &mut Pass, segment: u32, row: u32) -> (u32, Item)
    requires quiet { IsQuiet board.now pass.old }
    requires used { IsUsedRow segment row pass.old }
    requires pair { HoldsPair (row_after (trace pass.old) segment row) }
    ensures idles { Idles board.now pass.old pass.new }
    ensures steps { TakesAtMost head_width pass.old pass.new }
    ensures place { (result.1.seg ≡ segment) × (result.1.row ≡ row) }
    ensures bucket { result.0 < board.now.shape.buckets }
    ensures stored { IsStoredIn board.now result.0 result.1 pass.new }
{
    let key = segstore::key_of_row(board, pass, segment, row).unwrap();
    let hash = hash(&key);
    let item = Item {
        tag: tag_of(hash),
        freq: 0,
        seg: segment,
        row,
    };
    (board.shape().bucket_of(hash), item)
}

// The word of a bucket's chain that names the row of an item, under the bucket's bit or without it.
pub(crate) fn find_row(board: &Board, pass: &mut Pass, bucket: u32, item: Item) -> Option<Target>
    requires pass { IsPassOf board.now pass.old }
    requires stored { IsStoredIn board.now bucket item pass.old }
    ensures idles { Idles board.now pass.old pass.new }
    ensures looks { HasStep pass.old pass.new }
    ensures steps { TakesAtMost most_looks pass.old pass.new }
    ensures finds { FindsRow board.now bucket item result pass.new }
{
    let sought = item.pack();
    let mut place = Place { bucket, word: 1 };
    loop {
        let word = board.look(pass, place);
        if same_item(word, sought) {
            return Some(Target { place, word });
        }
        match next_place(board, place, word) {
            Some(next) => place = next,
            None => return None,
        }
    }
}
