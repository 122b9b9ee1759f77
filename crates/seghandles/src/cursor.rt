//! The content of a closed cache, shard by shard, and pair by pair.
ghost use Rattle.std.specs.Prelude.{◌≡◌};

use crate::home::{End, Home};
use crate::status::Status;
use segclient::{Key, Value};
use std::alloc::Global;

/// The shards that aren't closed yet, the pairs of the last that was, and the place of the next.
#[derive(Drop)]
pub struct Cursor {
    homes: Vec<Home>,
    pairs: Vec<(Key, Value)>,
    next: usize,
}

/// How the close of one more shard went.
pub(crate) enum ShardClose {
    /// Its content is listed.
    Listed,
    /// It didn't come about, and the shard is as it was.
    Refused(Status),
    /// The memory for the list was refused, and the shard is gone.
    Gone,
    /// Each shard is closed.
    Done,
}

impl Cursor {
    ghost use Rattle.std.specs.Prelude.{slice_get, []};
    ghost use Rattle.seghandles.specs.Ending.{ReturnsNext, Seeks, TurnsAs};

    /// Before the first pair of the first shard that is closed.
    pub(crate) fn new(alloc: Global, homes: Vec<Home>) -> Cursor
        ensures homes { result.homes ≡ homes }
        ensures pairs { result.pairs.items ≡ [] }
        ensures next { result.next ≡ 0 }
    {
        Cursor {
            homes,
            pairs: Vec::new(alloc),
            next: 0,
        }
    }

    /// The shards that aren't closed.
    pub(crate) fn into_homes(self) -> Vec<Home>
        ensures homes { result ≡ self.homes }
    {
        let Cursor { homes, .. } = self;
        homes
    }

    /// Closes the last of the shards that are left, and lists its content.
    pub(crate) fn turn(&mut self, alloc: Global) -> ShardClose
        ensures { TurnsAs self.old self.new result }
    {
        let Some(home) = self.homes.pop() else {
            return ShardClose::Done;
        };
        self.pairs = Vec::new(alloc);
        self.next = 0;
        match home.end(alloc) {
            End::Content { pairs } => {
                self.pairs = pairs;
                ShardClose::Listed
            }
            End::Refused { home, why } => {
                self.homes.push_reserved(home);
                ShardClose::Refused(why)
            }
            End::Gone => ShardClose::Gone,
        }
    }

    /// Closes shards until there is a next pair. It is Ok if there is one.
    /// A shard that can't be closed is left out, so that the next call goes on behind it.
    pub(crate) fn seek(&mut self, alloc: Global) -> Status
        ensures { Seeks result self.old self.new }
    {
        while self.next >= self.pairs.len() {
            match self.turn(alloc) {
                ShardClose::Listed => {}
                ShardClose::Refused(why) => {
                    self.homes.pop();
                    return why;
                }
                ShardClose::Gone => return Status::OutOfMemory,
                ShardClose::Done => return Status::End,
            }
        }
        Status::Ok
    }

    /// Copies the next pair out. If one of the buffers is too short, the next pair stays the next.
    pub(crate) fn next(
        &mut self,
        key: &mut [u8],
        key_len: &mut usize,
        value: &mut [u8],
        value_len: &mut usize,
    ) -> Status
        ensures { ReturnsNext (slice_get self.old.pairs.items self.old.next) self.old self.new
            (key.old, key_len.old) (key.new, key_len.new)
            (value.old, value_len.old) (value.new, value_len.new) result }
    {
        let Some((next_key, next_value)) = self.pairs.get(self.next) else {
            return Status::End;
        };
        let key_bytes = next_key.as_bytes();
        let value_bytes = next_value.as_bytes();
        *key_len = key_bytes.len();
        *value_len = value_bytes.len();
        if key.len() < key_bytes.len() || value.len() < value_bytes.len() {
            return Status::ShortBuffer;
        }
        key[..key_bytes.len()].copy_from_slice(key_bytes);
        value[..value_bytes.len()].copy_from_slice(value_bytes);
        self.next += 1;
        Status::Ok
    }
}
