//! Second looks at item words, by a pass that is in their segment, and what their rows hold.
ghost use Rattle.std.specs.Prelude.{◌+◌, ◌<◌, IfOk, IfErr};
ghost use Rattle.segword.specs.Words.{head_width, IsSameItem};
ghost use Rattle.segcore.specs.Words.{inside};
ghost use Rattle.segbase.specs.Words.{IsPassOf, number, trace};
ghost use Rattle.segstore.specs.Calls.{TakesAtMost};
ghost use Rattle.segstore.specs.Reading.{OnlyLooks};
ghost use Rattle.segstore.specs.Linked.{segment_part, IsChained, SawWord, SeesAgain, IsLinked};
ghost use Rattle.segstore.specs.Linked.{IsKeyed};

use crate::row::{pair_of_row, row_of_key};
use segbase::{Board, Pass, Place};
use segword::{Item, Key, KeyWords, Value, same_item};

/// What a second look found.
#[derive(Clone, Debug, Drop, PartialEq, Eq)]
pub enum Linked {
    /// The same item, its frequency aside: the pair of its row.
    Same(Key, Value),
    /// Another word.
    Changed(u64),
}

/// What a second look for a key found.
#[derive(Clone, Debug, Drop, PartialEq, Eq)]
pub enum Keyed {
    /// The same item, its frequency aside, and the key's: the item as it stands now,
    /// and word 0 of its row.
    Same { item: Item, header: u64 },
    /// The same item, and another key's: the item as it stands now.
    Other(Item),
    /// Another word.
    Changed(u64),
}

/// Looks again at a word of a chain that had this item, whose segment the pass is in,
/// and reads the item's row.
pub fn read_linked(board: &Board, pass: &mut Pass, place: Place, word: u64) -> Linked
    requires pass { IsPassOf board.now pass.old }
    requires place { IsChained board.now.shape (trace pass.old) place }
    requires inside { 0 < inside (trace pass.old) (number pass.old) (segment_part word) }
    ensures looked { OnlyLooks board.now pass.old pass.new }
    ensures linked { IsLinked board.now.shape place word result (trace pass.old) (trace pass.new) }
{
    match look_again(board, pass, place, word) {
        Ok(item) => {
            let (key, value) = pair_of_row(board, pass, item.seg, item.row).unwrap();
            Linked::Same(key, value)
        }
        Err(now) => Linked::Changed(now),
    }
}

/// Looks again as `read_linked` does, for a key in hand.
/// The key is compared with the row word by word, and the value isn't read.
#[inline(always)]
pub fn read_keyed(
    board: &Board,
    pass: &mut Pass,
    place: Place,
    word: u64,
    key: &KeyWords<'_>,
) -> Keyed
    requires pass { IsPassOf board.now pass.old }
    requires place { IsChained board.now.shape (trace pass.old) place }
    requires inside { 0 < inside (trace pass.old) (number pass.old) (segment_part word) }
    ensures looked { OnlyLooks board.now pass.old pass.new }
    ensures steps { TakesAtMost (1 + head_width) pass.old pass.new }
    ensures keyed { IsKeyed board.now.shape place word key.now result
        (trace pass.old) (trace pass.new) }
{
    match look_again(board, pass, place, word) {
        Ok(item) => match row_of_key(board, pass, item.seg, item.row, key) {
            Some(header) => Keyed::Same { item, header },
            None => Keyed::Other(item),
        },
        Err(now) => Keyed::Changed(now),
    }
}

// The second look: the item as it stands now, if that is the same but for its frequency,
// or else the word that stands there. The item's segment and row are those of the word that was
// given, so that its row is found without a wait for the look.
fn look_again(board: &Board, pass: &mut Pass, place: Place, word: u64) -> Result<Item, u64>
    requires pass { IsPassOf board.now pass.old }
    requires place { IsChained board.now.shape (trace pass.old) place }
    requires inside { 0 < inside (trace pass.old) (number pass.old) (segment_part word) }
    ensures looked { OnlyLooks board.now pass.old pass.new }
    ensures steps { TakesAtMost 1 pass.old pass.new }
    ensures same { IfOk result (λ item. SeesAgain board.now place word item pass.new) }
    ensures other { IfErr result (λ now.
        SawWord board.now.shape place now (trace pass.old) (trace pass.new)
        × ¬ (IsSameItem word now)) }
{
    let now = board.look(pass, place);
    if !same_item(word, now) {
        return Err(now);
    }
    let item = Item::unpack(word).unwrap();
    Ok(item.with_frequency_of(now))
}
