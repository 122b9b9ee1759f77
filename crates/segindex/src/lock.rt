//! Buckets locked for longer than a call.
use crate::index::Index;
use segbase::Pass;
use segstore::LockAnswer;
use segword::Key;

impl Index {
    ghost use Rattle.segstore.specs.Words.{IsQuiet, LocksBucket, UnlocksBucket};
    ghost use Rattle.segindex.specs.Index.{board_of};

    /// Locks the bucket of a key.
    /// Until the bucket is unlocked, no other pass writes in it,
    /// and a delete and every write that has room are Busy.
    pub fn lock_bucket(&self, pass: &mut Pass, key: &Key) -> LockAnswer
        requires quiet { IsQuiet (board_of self.now) pass.old }
        ensures locks { LocksBucket (board_of self.now) key.now result pass.old pass.new }
    {
        segstore::lock_bucket(&self.board, pass, key)
    }

    /// Unlocks the bucket that the pass has locked, and returns false if there is none.
    pub fn unlock_bucket(&self, pass: &mut Pass) -> bool
        requires quiet { IsQuiet (board_of self.now) pass.old }
        ensures unlocks { UnlocksBucket (board_of self.now) result pass.old pass.new }
    {
        segstore::unlock_bucket(&self.board, pass)
    }
}
