//! The turns of a pass, each of which is one call of the index.
ghost use Rattle.std.specs.Prelude.{◌≡◌, None};
ghost use Rattle.segmodel.specs.declared.answer.Turn.TheVariants as turn;
ghost use Rattle.segbase.specs.Words.{holding, locked_of};
ghost use Rattle.segindex.specs.Words.{board_of, shape_of};
ghost use Rattle.segstore.specs.Words.{IsQuiet};
ghost use Rattle.segscript.specs.Passes.{IsHoldKept, Leaves, TakesTurn};

use segindex::{Hold, HoldAnswer, Index, LockAnswer, Pass};
use segmodel::{Outcome, Turn};
use segword::Key;

/// The draw of each hit. With this draw a hit raises the frequency if it can, as in the model.
const DRAW: u32 = 0;

/// Takes one turn of a pass, whose hold is kept in `held`.
pub fn take_turn<'i>(
    index: &'i Index,
    pass: &mut Pass,
    held: &mut Option<Hold<'i>>,
    turn: &Turn,
) -> Outcome
    requires quiet { IsQuiet (board_of index.now) pass.old }
    requires hold { IsHoldKept (shape_of index.now) held.old pass.old }
    ensures turn { TakesTurn (board_of index.now) turn.now result pass.old pass.new }
    ensures hold { IsHoldKept (shape_of index.now) held.new pass.new }
{
    match turn {
        Turn::Serve(command) => Outcome::Answered(index.serve(pass, command, DRAW)),
        Turn::Hold(key, now) => hold(index, pass, held, key, *now),
        Turn::Held => read_held(index, pass, held),
        Turn::Release => release(index, pass, held.take()),
        Turn::Lock(key) => lock(index, pass, key),
        Turn::Unlock => unlock(index, pass),
    }
}

/// Releases the hold of a pass, and unlocks its bucket.
pub fn leave(index: &Index, pass: &mut Pass, held: Option<Hold<'_>>)
    requires quiet { IsQuiet (board_of index.now) pass.old }
    requires hold { IsHoldKept (shape_of index.now) held pass.old }
    ensures left { (holding pass.new ≡ None) × (locked_of pass.new ≡ None) }
    ensures leaves { Leaves (board_of index.now) pass.old pass.new }
{
    release(index, pass, held);
    unlock(index, pass);
}

fn hold<'i>(
    index: &'i Index,
    pass: &mut Pass,
    held: &mut Option<Hold<'i>>,
    key: &Key,
    now: u32,
) -> Outcome
    requires quiet { IsQuiet (board_of index.now) pass.old }
    requires hold { IsHoldKept (shape_of index.now) held.old pass.old }
    ensures turn { TakesTurn (board_of index.now) (turn.Hold key.now now) result pass.old pass.new }
    ensures hold { IsHoldKept (shape_of index.now) held.new pass.new }
{
    match index.hold(pass, key, now) {
        HoldAnswer::Holding(hold) => match held.replace(hold) {
            None => Outcome::Holding,
            Some(_other) => unreachable!(),
        },
        HoldAnswer::Miss => Outcome::Miss,
        HoldAnswer::Busy => Outcome::Busy,
        HoldAnswer::AlreadyHolding => Outcome::AlreadyHolding,
    }
}

fn read_held(index: &Index, pass: &mut Pass, held: &Option<Hold<'_>>) -> Outcome
    requires quiet { IsQuiet (board_of index.now) pass.old }
    requires hold { IsHoldKept (shape_of index.now) held.now pass.old }
    ensures turn { TakesTurn (board_of index.now) turn.Held result pass.old pass.new }
    ensures holding { holding pass.new ≡ holding pass.old }
{
    match held {
        Some(hold) => Outcome::Value(index.held_value(pass, hold)),
        None => Outcome::NotHolding,
    }
}

fn release(index: &Index, pass: &mut Pass, held: Option<Hold<'_>>) -> Outcome
    requires quiet { IsQuiet (board_of index.now) pass.old }
    requires hold { IsHoldKept (shape_of index.now) held pass.old }
    ensures turn { TakesTurn (board_of index.now) turn.Release result pass.old pass.new }
    ensures released { holding pass.new ≡ None }
{
    match held {
        Some(hold) => {
            index.release(pass, hold);
            Outcome::Released
        }
        None => Outcome::NotHolding,
    }
}

fn lock(index: &Index, pass: &mut Pass, key: &Key) -> Outcome
    requires quiet { IsQuiet (board_of index.now) pass.old }
    ensures turn { TakesTurn (board_of index.now) (turn.Lock key.now) result pass.old pass.new }
    ensures holding { holding pass.new ≡ holding pass.old }
{
    match index.lock_bucket(pass, key) {
        LockAnswer::Locked => Outcome::Locked,
        LockAnswer::Busy => Outcome::Busy,
        LockAnswer::AlreadyLocked => Outcome::AlreadyLocked,
    }
}

fn unlock(index: &Index, pass: &mut Pass) -> Outcome
    requires quiet { IsQuiet (board_of index.now) pass.old }
    ensures turn { TakesTurn (board_of index.now) turn.Unlock result pass.old pass.new }
    ensures holding { holding pass.new ≡ holding pass.old }
    ensures unlocked { locked_of pass.new ≡ None }
{
    if index.unlock_bucket(pass) {
        Outcome::Unlocked
    } else {
        Outcome::NotLocked
    }
}
