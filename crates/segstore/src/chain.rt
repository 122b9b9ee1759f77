//! A walk along the chain of a key: what is looked for, and which place comes next.
ghost use Rattle.std.specs.Prelude.{◌≡◌, ◌<◌, ◌≤◌, ◌^◌};
ghost use Rattle.segword.specs.Words.{IsKey, IsValid};
ghost use Rattle.segstore.specs.Chains.{IsNext};

use segbase::{Board, Place};
use segword::{Chain, Key, KeyWords, LAST_WORD, hash, tag_of};

/// What a call looks for: a key as rows hold it, its tag, and the bucket in which its chain begins.
/// It is computed once a call.
#[derive(Drop)]
pub struct Sought<'k> {
    pub bucket: u32,
    pub tag: u16,
    pub key: KeyWords<'k>,
}

impl<'k> Sought<'k> {
    ghost use Rattle.segstore.specs.Sought.{IsSought};

    /// What a call for this key looks for.
    #[inline(always)]
    pub fn of(key: &'k Key, board: &Board) -> Sought<'k>
        requires { IsValid board.now.shape }
        ensures key { result.key ≡ key.now }
        ensures sought { IsSought board.now.shape result }
        ensures valid { IsKey key.now }
        ensures versions { board.now.shape.first_version < 2 ^ 32 }
    {
        let hash = hash(key);
        Sought {
            bucket: board.shape().bucket_of(hash),
            tag: tag_of(hash),
            key: KeyWords::new(key),
        }
    }
}

/// The place that comes next along the chain of a place with this word, if one does:
/// the next word of the bucket, or word 1 of the bucket that its last word leads to.
#[inline(always)]
pub fn next_place(board: &Board, place: Place, word: u64) -> Option<Place>
    requires valid { IsValid board.now.shape }
    requires word { place.word ≤ LAST_WORD }
    ensures { IsNext board.now.shape place word result }
{
    if place.word < LAST_WORD {
        return Some(Place {
            word: place.word + 1,
            ..place
        });
    }
    let number = Chain::unpack(word)?;
    Some(Place {
        bucket: board.shape().buckets + number,
        word: 1,
    })
}
