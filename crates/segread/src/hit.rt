//! Hits: an item that was read often has a higher frequency.
ghost use Rattle.std.specs.Prelude.{◌≡◌};
ghost use Rattle.segcore.specs.Words.{entered};
ghost use Rattle.segbase.specs.Words.{count, IsPassOf, trace};
ghost use Rattle.segstore.specs.Words.{IsChained, IsReader, TakesAtMost};
ghost use Rattle.segread.specs.Hits.{GlancesNothing, RaisesFound};

use segbase::{Board, Pass, Place};
use segpolicy::next_frequency;
use segword::Item;

// Raises the frequency of an item that was read, if the draw says so. The exchange is tried once.
#[inline(always)]
pub(crate) fn count_hit(board: &Board, pass: &mut Pass, place: Place, item: Item, draw: u32)
    requires pass { IsPassOf board.now pass.old }
    requires place { IsChained board.now.shape (trace pass.old) place }
    ensures reads { IsReader board.now pass.old pass.new }
    ensures steps { TakesAtMost 1 pass.old pass.new }
    ensures stays_out { count entered pass.new ≡ count entered pass.old }
    ensures glances { GlancesNothing pass.old pass.new }
    ensures raises { RaisesFound board.now place item draw pass.old pass.new }
{
    let mut hit = item;
    hit.freq = next_frequency(item.freq, draw);
    if hit.freq > item.freq {
        board.bump(pass, place, item, hit);
    }
}
