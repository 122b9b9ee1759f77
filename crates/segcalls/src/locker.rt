//! A pass that locks buckets.
ghost use Rattle.segindex.specs.Words.{board_of};
ghost use Rattle.segstore.specs.Words.{IsQuiet, IsQuiet-prop};

use segclient::{Index, Key, Pass};
use segindex::LockAnswer;

/// A pass that is kept back from the clients.
#[derive(Drop)]
pub struct Locker<'i> {
    index: &'i Index,
    pass: Pass,
    ghost quiet: { IsQuiet (board_of index.now) pass } by { IsQuiet-prop (board_of index.now) pass },
}

impl<'i> Locker<'i> {
    pub fn new(index: &'i Index, pass: Pass) -> Locker<'i>
        requires { IsQuiet (board_of index.now) pass }
    {
        Locker { index, pass }
    }

    /// Locks the bucket of a key.
    pub fn lock(&mut self, key: &Key) -> &'static str {
        match self.index.lock_bucket(&mut self.pass, key) {
            LockAnswer::Locked => "LOCKED",
            LockAnswer::Busy => "BUSY",
            LockAnswer::AlreadyLocked => "ALREADY_LOCKED",
        }
    }

    pub fn unlock(&mut self) -> &'static str {
        if self.index.unlock_bucket(&mut self.pass) {
            "UNLOCKED"
        } else {
            "NOT_LOCKED"
        }
    }
}
