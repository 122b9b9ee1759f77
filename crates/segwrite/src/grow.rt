//! Growing of a chain none of whose words is empty, under the bit of its bucket:
//! an overflow bucket is drawn, and joins the chain with the item of the chain's last word.
ghost use Rattle.std.specs.Prelude.{◌<◌, ◌*◌, MatchOption};
ghost use Rattle.segcore.specs.Words.{HasNoEmptyWord};
ghost use Rattle.segbase.specs.Words.{home_at, IsPassOf};
ghost use Rattle.segstore.specs.Words.{HasCleanBit, TakesAtMost};
ghost use Rattle.segwrite.specs.Growing.{bucket_seen, IsLast, IsChainEnd, IsAsFound, MakesRoom};
ghost use Rattle.segwrite.specs.Growing.{Grows, DrawsSpare, HasSpare, TriesToJoin, Joins};
ghost use Rattle.segwrite.specs.Steps.{most_steps_of_draw, most_steps_of_growth};
ghost use Rattle.segwrite.specs.Steps.{most_steps_of_room, most_tries_to_exchange};

use crate::find::{ChainEnd, Found, Target};
use segbase::{Board, CHAIN_BUCKETS, Pass, Place};
use segword::Item;

// Room in a bucket's chain, not in a segment. The word for a key: the one that a search found,
// or one of an overflow bucket that joins the chain.
// It is `None` if the chain is full and can't grow.
pub(crate) fn make_room(board: &Board, pass: &mut Pass, bucket: u32, found: Found) -> Option<Target>
    requires pass { IsPassOf board.now pass.old }
    requires clean { HasCleanBit board.now pass.old bucket }
    requires found { IsAsFound board.now bucket found pass.old }
    ensures makes { MakesRoom board.now bucket found result pass.old pass.new }
    ensures steps { TakesAtMost (most_steps_of_room board.now.shape found result)
        pass.old pass.new }
{
    match found {
        Found::Word(target) => Some(target),
        Found::Full(end) => grow(board, pass, bucket, end),
    }
}

// Makes room for a new key of a bucket whose chain has no empty word: word 2 of an overflow bucket
// that joins the chain. It is `None` if the chain can't grow.
fn grow(board: &Board, pass: &mut Pass, bucket: u32, end: ChainEnd) -> Option<Target>
    requires pass { IsPassOf board.now pass.old }
    requires clean { HasCleanBit board.now pass.old bucket }
    requires full { HasNoEmptyWord (bucket_seen board.now bucket pass.old) }
    requires end { IsChainEnd board.now bucket end pass.old }
    ensures grows { Grows board.now bucket result pass.old pass.new }
    ensures steps { MatchOption result
        (TakesAtMost (most_steps_of_draw board.now.shape) pass.old pass.new)
        (λ target. TakesAtMost (most_steps_of_growth board.now.shape) pass.old pass.new) }
{
    if end.buckets == CHAIN_BUCKETS {
        return None;
    }
    let overflow = draw(board, pass, bucket)?;
    join(board, pass, end.place, end.word, overflow);
    let place = Place {
        bucket: board.shape().buckets + overflow,
        word: 2,
    };
    Some(Target { place, word: 0 })
}

// Draws the next overflow bucket for a bucket whose chain may grow.
// It is `None` if all of them are drawn.
fn draw(board: &Board, pass: &mut Pass, bucket: u32) -> Option<u32>
    requires pass { IsPassOf board.now pass.old }
    requires clean { HasCleanBit board.now pass.old bucket }
    requires short { (bucket_seen board.now bucket pass.old).chained < 3 }
    ensures draws { DrawsSpare board.now bucket result pass.old pass.new }
    ensures steps { TakesAtMost (most_steps_of_draw board.now.shape) pass.old pass.new }
{
    let mut from = 0;
    while from < board.shape().overflow {
        match board.draw_overflow(pass, bucket, from) {
            Ok(()) => return Some(from),
            Err(counter) => from = counter,
        }
    }
    None
}

// Lets the overflow bucket that waits for the chain of a place join it.
// If a hit raises the frequency of the item that moves there, the word is copied again.
fn join(board: &Board, pass: &mut Pass, place: Place, word: u64, overflow: u32)
    requires pass { IsPassOf board.now pass.old }
    requires spare { HasSpare board.now (home_at board.now place pass.old) overflow pass.old }
    requires last { IsLast board.now (home_at board.now place pass.old) place word pass.old }
    ensures joins { Joins board.now (home_at board.now place pass.old) overflow pass.old pass.new }
    ensures steps { TakesAtMost (2 * most_tries_to_exchange) pass.old pass.new }
{
    let mut old = word;
    while let Err(found) = try_to_join(board, pass, place, old, overflow) {
        old = found;
    }
}

// Copies the word of the chain's last item to the overflow bucket,
// and lets the chain lead on to it if that word still stands. `Err` has the word that stands there.
fn try_to_join(
    board: &Board,
    pass: &mut Pass,
    place: Place,
    word: u64,
    overflow: u32,
) -> Result<(), u64>
    requires pass { IsPassOf board.now pass.old }
    requires spare { HasSpare board.now (home_at board.now place pass.old) overflow pass.old }
    requires last { IsLast board.now (home_at board.now place pass.old) place word pass.old }
    ensures tries { TriesToJoin board.now (home_at board.now place pass.old) overflow
        place word result pass.old pass.new }
    ensures steps { TakesAtMost 2 pass.old pass.new }
{
    let item = Item::unpack(word).unwrap();
    board.fill_overflow(pass, overflow, item);
    board.chain(pass, place, word, overflow)
}
