//! The calls of the index with contracts by which the pass only stays quiet.
//! At a call of the index itself the proof of a test would have to read the whole contract.
ghost use Rattle.std.specs.Prelude.{◌≡◌, ◌∷◌, [], IfOk};
ghost use Rattle.segindex.specs.Words.{board_of};
ghost use Rattle.segstore.specs.Words.{IsQuiet};

use segindex::{Index, LockAnswer, OutOfMemory, Pass};
use segmodel::{
    Answer, Command, EvictAnswer, GetAnswer, GetsAnswer, KeepAnswer, RefillAnswer, WriteAnswer,
};
use segword::{Key, Value};
use std::alloc::{AllocError, Global};

/// The moment of each call of a test that isn't about moments.
pub const MOMENT: u32 = 0;

/// Serves a command. A hit raises the frequency if it can, as in the model.
pub fn serve(index: &Index, pass: &mut Pass, command: &Command) -> Answer
    requires { IsQuiet (board_of index.now) pass.old }
    ensures { IsQuiet (board_of index.now) pass.new }
{
    index.serve(pass, command, 0)
}

/// Stores the value.
pub fn set(index: &Index, pass: &mut Pass, key: &Key, value: &Value, now: u32) -> WriteAnswer
    requires { IsQuiet (board_of index.now) pass.old }
    ensures { IsQuiet (board_of index.now) pass.new }
{
    index.set(pass, key, value, now)
}

/// Stores the value if the key is absent.
pub fn add(index: &Index, pass: &mut Pass, key: &Key, value: &Value, now: u32) -> WriteAnswer
    requires { IsQuiet (board_of index.now) pass.old }
    ensures { IsQuiet (board_of index.now) pass.new }
{
    index.add(pass, key, value, now)
}

/// Reads the value.
pub fn get(index: &Index, pass: &mut Pass, key: &Key, draw: u32, now: u32) -> GetAnswer
    requires { IsQuiet (board_of index.now) pass.old }
    ensures { IsQuiet (board_of index.now) pass.new }
{
    index.get(pass, key, draw, now)
}

/// Reads the value with its version.
pub fn gets(index: &Index, pass: &mut Pass, key: &Key, draw: u32, now: u32) -> GetsAnswer
    requires { IsQuiet (board_of index.now) pass.old }
    ensures { IsQuiet (board_of index.now) pass.new }
{
    index.gets(pass, key, draw, now)
}

/// Stores the value and, if it was stored, reads the key. A hit raises the frequency if it can.
pub fn probe(
    index: &Index,
    pass: &mut Pass,
    key: &Key,
    value: &Value,
    now: u32,
) -> (WriteAnswer, GetAnswer)
    requires { IsQuiet (board_of index.now) pass.old }
    ensures { IsQuiet (board_of index.now) pass.new }
{
    index.probe(pass, key, value, 0, now)
}

/// Takes every key out of a segment.
pub fn evict(index: &Index, pass: &mut Pass, segment: u32) -> EvictAnswer
    requires { IsQuiet (board_of index.now) pass.old }
    ensures { IsQuiet (board_of index.now) pass.new }
{
    index.evict(pass, segment)
}

/// Moves the items of a segment whose frequency is at least the cutoff into the current one.
pub fn keep(index: &Index, pass: &mut Pass, segment: u32, cutoff: u8) -> KeepAnswer
    requires { IsQuiet (board_of index.now) pass.old }
    ensures { IsQuiet (board_of index.now) pass.new }
{
    index.keep(pass, segment, cutoff)
}

/// Makes a segment current, up to a deadline.
pub fn refill(index: &Index, pass: &mut Pass, segment: u32, deadline: u32) -> RefillAnswer
    requires { IsQuiet (board_of index.now) pass.old }
    ensures { IsQuiet (board_of index.now) pass.new }
{
    index.refill(pass, segment, deadline)
}

/// Locks the bucket of the key.
pub fn lock(index: &Index, pass: &mut Pass, key: &Key) -> LockAnswer
    requires { IsQuiet (board_of index.now) pass.old }
    ensures { IsQuiet (board_of index.now) pass.new }
{
    index.lock_bucket(pass, key)
}

/// Unlocks the bucket that the pass has locked.
pub fn unlock(index: &Index, pass: &mut Pass) -> bool
    requires { IsQuiet (board_of index.now) pass.old }
    ensures { IsQuiet (board_of index.now) pass.new }
{
    index.unlock_bucket(pass)
}

/// Lets two passes meet.
pub fn meet(index: &Index, first: &mut Pass, second: &mut Pass)
    requires { IsQuiet (board_of index.now) first.old × IsQuiet (board_of index.now) second.old }
    ensures { IsQuiet (board_of index.now) first.new × IsQuiet (board_of index.now) second.new }
{
    index.meet(first, second);
}

/// Ends the index, and returns whether it had just these keys and values, in this order.
pub fn lists(
    alloc: Global,
    index: Index,
    pass: Pass,
    pairs: &[(&str, &str)],
) -> Result<bool, OutOfMemory>
    requires { IsQuiet (board_of index) pass }
{
    let content = index.close(alloc, pass)?;
    Ok(is_just(&content, pairs))
}

/// Does the same with both passes of an index that has two.
pub fn lists_all(
    alloc: Global,
    index: Index,
    first: Pass,
    second: Pass,
    pairs: &[(&str, &str)],
) -> Result<bool, OutOfMemory>
    requires { IsQuiet (board_of index) first × IsQuiet (board_of index) second }
{
    if index.shape().passes != 2 || first.number() != 0 || second.number() != 1 {
        return Ok(false);
    }
    let Ok(passes) = vec_of(alloc, first, second) else {
        return Err(OutOfMemory);
    };
    let content = index.close_all(alloc, passes)?;
    Ok(is_just(&content, pairs))
}

// The two passes in a list, the second first.
fn vec_of(alloc: Global, first: Pass, second: Pass) -> Result<Vec<Pass>, AllocError>
    ensures { IfOk result (λ passes. passes.items ≡ second ∷ first ∷ []) }
{
    let mut passes = Vec::with_capacity(alloc, 2)?;
    passes.push_reserved(second);
    passes.push_reserved(first);
    Ok(passes)
}

// Whether the content is just these keys and values, in this order.
fn is_just(content: &[(Key, Value)], pairs: &[(&str, &str)]) -> bool {
    content.len() == pairs.len()
        && content.iter().zip(pairs).all(|((key, value), (name, text))| {
            key.as_bytes() == name.as_bytes() && value.as_bytes() == text.as_bytes()
        })
}
