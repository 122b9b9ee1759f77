//! The bits of buckets: taken and given back in a call, or kept by a lock for longer.
ghost use Rattle.std.specs.Prelude.{◌≡◌, ◌<◌, IfSome};
ghost use Rattle.segcore.specs.Words.{HasBit};
ghost use Rattle.segstore.specs.Taking.{TakesToWrite};
ghost use Rattle.segbase.specs.Words.{IsPassOf, number, trace, view};
ghost use Rattle.segstore.specs.Quiet.{IsQuiet};
ghost use Rattle.segstore.specs.Calls.{memo, TakesAtMost};
ghost use Rattle.segstore.specs.Locks.{LocksBucket, SetsLock, UnlocksBucket};
ghost use Rattle.segstore.specs.Taking.{TakesBucket};

use segbase::{Board, Pass};
use segword::{Key, hash};

/// The answer to a lock of a bucket.
#[derive(Clone, Copy, Debug, PartialEq, Eq)]
pub enum LockAnswer {
    Locked,
    /// The writer bit of the bucket was found set at each try.
    Busy,
    /// The pass has a bucket locked.
    AlreadyLocked,
}

/// How often a call tries before it returns Busy: to take a bucket's bit, or to read an item that
/// others change.
pub const TRIES: u32 = 64;

/// Locks the bucket of a key. Until the bucket is unlocked no other pass writes in it.
/// The pass's own deletes in it, and its own writes that have room, are Busy.
pub fn lock_bucket(board: &Board, pass: &mut Pass, key: &Key) -> LockAnswer
    requires quiet { IsQuiet board.now pass.old }
    ensures locks { LocksBucket board.now key.now result pass.old pass.new }
{
    if pass.locked().is_some() {
        return LockAnswer::AlreadyLocked;
    }
    let bucket = board.shape().bucket_of(hash(key));
    if !take_bucket(board, pass, bucket) {
        return LockAnswer::Busy;
    }
    set_lock(board, pass, Some(bucket));
    LockAnswer::Locked
}

/// Unlocks the bucket that the pass has locked. Returns false if there is none.
pub fn unlock_bucket(board: &Board, pass: &mut Pass) -> bool
    requires quiet { IsQuiet board.now pass.old }
    ensures unlocks { UnlocksBucket board.now result pass.old pass.new }
{
    let Some(bucket) = pass.locked() else {
        return false;
    };
    board.release(pass, bucket, false);
    set_lock(board, pass, None);
    true
}

// Names the bucket that the pass has locked, as of what it has seen now.
fn set_lock(board: &Board, pass: &mut Pass, bucket: Option<u32>)
    requires pass { IsPassOf board.now pass.old }
    requires bit { IfSome bucket (HasBit board.now.shape (trace pass.old) (number pass.old)) }
    ensures pass { IsPassOf board.now pass.new }
    ensures view { view pass.new ≡ view pass.old }
    ensures sets { SetsLock bucket pass.old pass.new }
{
    pass.set_locked(bucket);
    board.remember(pass);
}

/// Takes the writer bit of a bucket. Returns false if each try found the bit set.
pub fn take_bucket(board: &Board, pass: &mut Pass, bucket: u32) -> bool
    requires pass { IsPassOf board.now pass.old }
    requires bucket { bucket < board.now.shape.buckets }
    ensures takes { TakesBucket board.now bucket result pass.old pass.new }
    ensures steps { TakesAtMost TRIES pass.old pass.new }
    ensures same { (pass.new.plain ≡ pass.old.plain) × (memo pass.new ≡ memo pass.old) }
{
    for tries in 0..TRIES {
        if board.take(pass, bucket) {
            return true;
        }
    }
    false
}

/// Takes the bit of a bucket for a write. Returns false if the pass itself has the bucket locked,
/// or found the bit set at each try.
pub fn take_to_write(board: &Board, pass: &mut Pass, bucket: u32) -> bool
    requires pass { IsQuiet board.now pass.old }
    requires bucket { bucket < board.now.shape.buckets }
    ensures takes { TakesToWrite board.now bucket result pass.old pass.new }
    ensures steps { TakesAtMost TRIES pass.old pass.new }
{
    pass.locked() != Some(bucket) && take_bucket(board, pass, bucket)
}
