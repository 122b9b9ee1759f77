//! Holds, with contracts by which only the pass stays quiet and the hold is its own.
ghost use Rattle.std.specs.Prelude.{IfSome};
ghost use Rattle.segindex.specs.Words.{board_of, shape_of};
ghost use Rattle.segstore.specs.Words.{IsQuiet};
ghost use Rattle.segread.specs.Words.{IsHoldOf};

use segindex::{Hold, HoldAnswer, Index, Pass, hold_stays};
use segmodel::EvictAnswer;
use segword::{Key, Value};

/// Holds the item of a key, if that is possible.
pub fn hold<'i>(index: &'i Index, pass: &mut Pass, key: &Key, now: u32) -> Option<Hold<'i>>
    requires { IsQuiet (board_of index.now) pass.old }
    ensures quiet { IsQuiet (board_of index.now) pass.new }
    ensures hold { IfSome result (λ hold. IsHoldOf (shape_of index.now) hold pass.new) }
{
    match index.hold(pass, key, now) {
        HoldAnswer::Holding(hold) => Some(hold),
        HoldAnswer::Miss | HoldAnswer::Busy | HoldAnswer::AlreadyHolding => None,
    }
}

/// Reads the held value.
pub fn held_value(index: &Index, pass: &mut Pass, hold: &Hold<'_>) -> Value
    requires { IsQuiet (board_of index.now) pass.old
        × IsHoldOf (shape_of index.now) hold.now pass.old }
    ensures { IsQuiet (board_of index.now) pass.new
        × IsHoldOf (shape_of index.now) hold.now pass.new }
{
    index.held_value(pass, hold)
}

/// Ends a hold.
pub fn release(index: &Index, pass: &mut Pass, hold: Hold<'_>)
    requires { IsQuiet (board_of index.now) pass.old × IsHoldOf (shape_of index.now) hold pass.old }
    ensures { IsQuiet (board_of index.now) pass.new }
{
    index.release(pass, hold);
}

/// Holds the key while it is set to another value. Returns what the hold reads after that.
pub fn hold_over_a_set(
    index: &Index,
    pass: &mut Pass,
    key: &Key,
    value: &Value,
    now: u32,
) -> Option<Value>
    requires { IsQuiet (board_of index.now) pass.old }
    ensures { IsQuiet (board_of index.now) pass.new }
{
    let hold = hold(index, pass, key, now)?;
    hold_stays();
    index.set(pass, key, value, now);
    let held = held_value(index, pass, &hold);
    release(index, pass, hold);
    Some(held)
}

/// Holds the key while its segment is evicted.
/// Returns what the hold reads after that, and what the eviction returned.
pub fn hold_over_an_eviction(
    index: &Index,
    pass: &mut Pass,
    key: &Key,
    segment: u32,
    now: u32,
) -> Option<(Value, EvictAnswer)>
    requires { IsQuiet (board_of index.now) pass.old }
    ensures { IsQuiet (board_of index.now) pass.new }
{
    let hold = hold(index, pass, key, now)?;
    hold_stays();
    let answer = index.evict(pass, segment);
    let held = held_value(index, pass, &hold);
    release(index, pass, hold);
    Some((held, answer))
}
