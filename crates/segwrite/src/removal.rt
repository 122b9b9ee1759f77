//! Keys taken out, each under the bit of its bucket.
ghost use Rattle.std.specs.Prelude.{◌≡◌, List, ℕ};
ghost use Rattle.segmodel.specs.declared.request.Request.{Request};
ghost use Rattle.segmodel.specs.declared.request.Request.TheVariants.{Delete};
ghost use Rattle.segmodel.specs.Words.{bucket_of};
ghost use Rattle.segcore.specs.declared.event.Event.TheVariants.{Unlinked};
ghost use Rattle.segcore.specs.Words.{Fits, Leaving};
ghost use Rattle.segbase.specs.Words.{AddsUnlink, HasItemOf, IsPassOf, number, position_at, trace};
ghost use Rattle.segstore.specs.Words.{HasCleanBit, IsQuiet, IsSought, MayEnterAny, memo};
ghost use Rattle.segstore.specs.Words.{TakesAtMost};
ghost use Rattle.segwrite.specs.Writing.{IsInChain, IsEarlier};
ghost use Rattle.segwrite.specs.Writes.{Deletes};
ghost use Rattle.segwrite.specs.Refusing.{Removes};
ghost use Rattle.segwrite.specs.Steps.{most_steps_to_remove, most_tries_to_exchange};

use crate::find::{Target, find, present_word};
use crate::writing::refuse;
use segbase::{Board, Pass};
use segmodel::DeleteAnswer;
use segstore::{RowRef, Sought, take_to_write};
use segword::Key;

/// Takes the key out, and tells which row the key had before. A delete needs no row.
/// No contract says what the second part is.
pub fn delete(board: &Board, pass: &mut Pass, key: &Key, now: u32) -> (DeleteAnswer, Option<RowRef>)
    requires quiet { IsQuiet board.now pass.old }
    ensures deletes { Deletes board.now key.now now result.0 pass.old pass.new }
{
    let sought = Sought::of(key, board);
    if !take_to_write(board, pass, sought.bucket) {
        return (DeleteAnswer::Busy, None);
    }
    remove(board, pass, &sought, now)
}

// Takes the key out of its bucket, if the key is present, under the bit that the pass has,
// gives the bit back, and tells which row the key had.
fn remove(
    board: &Board,
    pass: &mut Pass,
    sought: &Sought<'_>,
    now: u32,
) -> (DeleteAnswer, Option<RowRef>)
    ghost request: { Request }
    requires pass { IsPassOf board.now pass.old }
    requires clean { HasCleanBit board.now pass.old sought.now.bucket }
    requires sought { IsSought board.now.shape sought.now }
    requires enter { MayEnterAny pass.old }
    requires request { request ≡ Delete sought.now.key now }
    ensures removes { Removes board.now request result.0 pass.old pass.new }
    ensures steps { TakesAtMost (most_steps_to_remove result.0) pass.old pass.new }
{
    let found = find(board, pass, sought);
    let Some(target) = present_word(board, pass, found, now) else {
        refuse(board, pass, sought.bucket);
        return (DeleteAnswer::NotFound, None);
    };
    clear(board, pass, target);
    board.release(pass, sought.bucket, true);
    (DeleteAnswer::Deleted, target.row())
}

/// Lets the item of a key leave its word, under the bit of its bucket.
/// If a hit raises the item's frequency meanwhile, the exchange is tried again.
pub fn clear(board: &Board, pass: &mut Pass, target: Target)
    ghost left: { List ℕ × Leaving }
    requires pass { IsPassOf board.now pass.old }
    requires fits { Fits board.now.shape (trace pass.old)
        (Unlinked (number pass.old) left.0 (position_at board.now target.place pass.old) left.1) }
    requires chain { IsInChain board.now (bucket_of board.now.shape left.0) target.place pass.old }
    requires has { HasItemOf board.now left.0 target.place pass.old }
    requires earlier { IsEarlier board.now target.place target.word pass.old }
    ensures did { AddsUnlink board.now target.place left pass.old pass.new }
    ensures steps { TakesAtMost most_tries_to_exchange pass.old pass.new }
    ensures same { (pass.new.plain ≡ pass.old.plain) × (memo pass.new ≡ memo pass.old) }
{
    let mut old = target.word;
    while let Err(found) = board.clear(pass, target.place, old) {
        old = found;
    }
}
