//! Boards with quiet passes, and calls on them with contracts by which a pass only stays quiet.
ghost use Rattle.std.specs.Prelude.{◌≡◌, All, IfOk, IfSome};
ghost use Rattle.segstore.specs.Words.{IsQuiet};

use segbase::{Board, Pass};
use segmodel::{DeleteAnswer, EvictAnswer, GetAnswer, KeepAnswer, RefillAnswer, WriteAnswer};
use segread::IntoAnswer;
use segword::{Key, Shape, VALUE_BYTES, Value, ValueBytes};
use segwrite::Condition;
use std::alloc::Global;
use std::test::Fail;

/// The moment of each call.
const MOMENT: u32 = 0;

/// A board of this shape with its passes.
pub fn quiet_board(alloc: Global, shape: Shape) -> Result<(Board, Vec<Pass>), Fail>
    ensures { IfOk result (λ made.
        (made.0.shape ≡ shape) × All (IsQuiet made.0) made.1.items) }
{
    let (board, passes) = Board::new(alloc, shape)?;
    Ok((board, passes))
}

/// Takes the last of the passes.
pub fn pop(board: &Board, passes: &mut Vec<Pass>) -> Option<Pass>
    requires { All (IsQuiet board.now) passes.old.items }
    ensures last { IfSome result (IsQuiet board.now) }
    ensures others { All (IsQuiet board.now) passes.new.items }
{
    passes.pop()
}

/// Makes a segment current, up to a deadline.
pub fn refill(board: &Board, pass: &mut Pass, segment: u32, deadline: u32) -> RefillAnswer
    requires quiet { IsQuiet board.now pass.old }
    ensures quiet { IsQuiet board.now pass.new }
{
    segstore::refill(board, pass, segment, deadline)
}

/// Stores the value. A pair that is longer than the board's limits allow is NoRoom.
pub fn set(board: &Board, pass: &mut Pass, key: &Key, value: &Value) -> WriteAnswer
    requires { IsQuiet board.now pass.old }
    ensures { IsQuiet board.now pass.new }
{
    let limits = board.limits();
    let has_key = key.as_bytes().len() <= limits.key as usize;
    let has_value = value.as_bytes().len() <= limits.value as usize;
    if !has_key || !has_value {
        return WriteAnswer::NoRoom;
    }
    let bytes = ValueBytes::of(value);
    segwrite::write(board, pass, key, &bytes, Condition::Always, MOMENT).0
}

/// Takes the key out.
pub fn delete(board: &Board, pass: &mut Pass, key: &Key) -> DeleteAnswer
    requires { IsQuiet board.now pass.old }
    ensures { IsQuiet board.now pass.new }
{
    segwrite::delete(board, pass, key, MOMENT).0
}

/// Reads the value.
pub fn get(board: &Board, pass: &mut Pass, key: &Key, draw: u32) -> GetAnswer
    requires { IsQuiet board.now pass.old }
    ensures { IsQuiet board.now pass.new }
{
    let mut room = [0; VALUE_BYTES];
    match segread::get_into(board, pass, key, draw, MOMENT, &mut room) {
        IntoAnswer::Found(length) => found(room.get(..length)),
        IntoAnswer::Short(_) => found(None),
        IntoAnswer::Miss => GetAnswer::Miss,
        IntoAnswer::Busy => GetAnswer::Busy,
    }
}

// The answer with these bytes. A get that cut its value short is taken for a Miss.
fn found(bytes: Option<&[u8]>) -> GetAnswer {
    match bytes.and_then(Value::new) {
        Some(value) => GetAnswer::Found(value),
        None => GetAnswer::Miss,
    }
}

/// Moves the items of a segment whose frequency is at least the cutoff into the current one.
pub fn keep(board: &Board, pass: &mut Pass, segment: u32, cutoff: u8) -> KeepAnswer
    requires { IsQuiet board.now pass.old }
    ensures { IsQuiet board.now pass.new }
{
    segevict::keep(board, pass, segment, cutoff)
}

/// Takes every key out of a segment.
pub fn evict(board: &Board, pass: &mut Pass, segment: u32) -> EvictAnswer
    requires { IsQuiet board.now pass.old }
    ensures { IsQuiet board.now pass.new }
{
    segevict::evict(board, pass, segment)
}
