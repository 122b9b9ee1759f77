//! The word of a key's chain that a write changes, or the end of the chain if there is none.
//! One walk along the chain, under the bucket's bit, finds it.
ghost use Rattle.std.specs.Prelude.{◌≡◌, ◌↔◌, IsTrue, List, ℕ};
ghost use Rattle.segword.specs.Words.{head_width};
ghost use Rattle.segmodel.specs.Words.{bucket_of};
ghost use Rattle.segcore.specs.Words.{HasBit};
ghost use Rattle.segwrite.specs.Writing.{own_word, IsInChain, Finds};
ghost use Rattle.segbase.specs.Words.{content_for, HasItemOf, IsPassOf, IsWordOfContent};
ghost use Rattle.segbase.specs.Words.{number, trace};
ghost use Rattle.segstore.specs.Words.{Idles, IsSought, MayEnterAny, TakesAtMost};
ghost use Rattle.segwrite.specs.Presence.{IsPresentWord, Peeks};
ghost use Rattle.segwrite.specs.Growing.{Searches};
ghost use Rattle.segwrite.specs.Steps.{most_steps_of_search};

use segbase::{Board, Pass, Place};
use segstore::{RowRef, Sought, enter_segment, leave_segment, next_place, row_of_key};
use segword::{Item, LAST_WORD};

/// A word of a chain, and what stood there: the item of a key,
/// or 0 if the key doesn't stand and the word is free for it.
#[derive(Clone, Copy, Drop)]
pub struct Target {
    pub place: Place,
    pub word: u64,
}

/// The last word of a chain none of whose words is empty: its place,
/// the item word that stood there, and how many buckets the chain has.
#[derive(Clone, Copy, Drop)]
pub(crate) struct ChainEnd {
    pub(crate) place: Place,
    pub(crate) word: u64,
    pub(crate) buckets: u32,
}

/// What a search finds: a word for the key, or the end of its chain.
#[derive(Clone, Copy, Drop)]
pub(crate) enum Found {
    Word(Target),
    Full(ChainEnd),
}

impl Target {
    ghost use Rattle.segwrite.specs.Writing.{Updates};

    // The first empty word of a search: the earlier one, or else this one if it is empty.
    fn or_earlier(self, earlier: Option<Target>) -> Option<Target>
        ensures { Updates self earlier result }
    {
        if self.word == 0 && earlier.is_none() {
            Some(self)
        } else {
            earlier
        }
    }

    // The row that the item of the word has, if the word isn't empty.
    #[inline(always)]
    pub(crate) fn row(self) -> Option<RowRef> {
        let item = Item::unpack(self.word)?;
        Some(RowRef {
            segment: item.seg,
            row: item.row,
        })
    }
}

impl ChainEnd {
    ghost use Rattle.segwrite.specs.Growing.{or_end};

    // The first empty word of a chain that ends here, or else the end.
    fn or_empty(self, empty: Option<Target>) -> Found
        ensures { result ≡ or_end self empty }
    {
        empty.map_or(Found::Full(self), Found::Word)
    }
}

impl Found {
    ghost use Rattle.segwrite.specs.Growing.{target_of};

    // The word for the key, if there is one.
    pub(crate) fn target(self) -> Option<Target>
        ensures { result ≡ target_of self }
    {
        match self {
            Found::Word(target) => Some(target),
            Found::Full(_) => None,
        }
    }
}

// The key's own word, if a search found it, and not a word that is free for the key.
pub(crate) fn own_word(found: Option<Target>) -> Option<Target>
    ensures { result ≡ own_word found }
{
    match found {
        Some(target) if target.word != 0 => Some(target),
        _ => None,
    }
}

// The key's word; or the first empty one, if the key doesn't stand; or neither.
pub(crate) fn find(board: &Board, pass: &mut Pass, sought: &Sought<'_>) -> Option<Target>
    requires pass { IsPassOf board.now pass.old }
    requires sought { IsSought board.now.shape sought.now }
    requires bit { HasBit board.now.shape (trace pass.old) (number pass.old) sought.now.bucket }
    ensures idles { Idles board.now pass.old pass.new }
    ensures steps { TakesAtMost most_steps_of_search pass.old pass.new }
    ensures finds { Finds board.now sought.now.key result pass.new }
{
    search(board, pass, sought).target()
}

// As `find`, but if there is neither, it returns the end of the chain.
#[inline(always)]
pub(crate) fn search(board: &Board, pass: &mut Pass, sought: &Sought<'_>) -> Found
    requires pass { IsPassOf board.now pass.old }
    requires sought { IsSought board.now.shape sought.now }
    requires bit { HasBit board.now.shape (trace pass.old) (number pass.old) sought.now.bucket }
    ensures idles { Idles board.now pass.old pass.new }
    ensures steps { TakesAtMost most_steps_of_search pass.old pass.new }
    ensures searches { Searches board.now sought.now.key result pass.new }
{
    let mut bucket = sought.bucket;
    let mut buckets = 1;
    let mut empty = None;
    loop {
        for word in 1..LAST_WORD {
            let place = Place { bucket, word };
            let target = Target {
                place,
                word: board.look(pass, place),
            };
            if is_item_of(board, pass, target, sought) {
                return Found::Word(target);
            }
            empty = target.or_earlier(empty);
        }
        let place = Place {
            bucket,
            word: LAST_WORD,
        };
        let last = Target {
            place,
            word: board.look(pass, place),
        };
        if is_item_of(board, pass, last, sought) {
            return Found::Word(last);
        }
        empty = last.or_earlier(empty);
        let Some(next) = next_place(board, place, last.word) else {
            let end = ChainEnd {
                place,
                word: last.word,
                buckets,
            };
            return end.or_empty(empty);
        };
        bucket = next.bucket;
        buckets += 1;
    }
}

// Whether a word that the pass reads under the bit is that of an item of the key.
#[inline(always)]
fn is_item_of(board: &Board, pass: &mut Pass, target: Target, sought: &Sought<'_>) -> bool
    requires pass { IsPassOf board.now pass.old }
    requires sought { IsSought board.now.shape sought.now }
    requires chain { IsInChain board.now (bucket_of board.now.shape sought.now.key) target.place
        pass.old }
    requires bit { HasBit board.now.shape (trace pass.old) (number pass.old)
        (bucket_of board.now.shape sought.now.key) }
    requires word { IsWordOfContent (content_for board.now sought.now.key target.place pass.old)
        target.word }
    ensures idles { Idles board.now pass.old pass.new }
    ensures steps { TakesAtMost head_width pass.old pass.new }
    ensures is { IsTrue result ↔ HasItemOf board.now sought.now.key target.place pass.new }
{
    if !Item::has_tag(target.word, sought.tag) {
        return false;
    }
    match Item::unpack(target.word) {
        Some(item) => row_of_key(board, pass, item.seg, item.row, &sought.key).is_some(),
        None => false,
    }
}

// The key's own word, if the key is present at a moment, under the bit of the key's bucket.
// The pass comes into the segment of the key's item, sees the deadline, and leaves at once.
pub(crate) fn present_word(
    board: &Board,
    pass: &mut Pass,
    found: Option<Target>,
    now: u32,
) -> Option<Target>
    ghost key: { List ℕ }
    requires pass { IsPassOf board.now pass.old }
    requires enter { MayEnterAny pass.old }
    requires bit { HasBit board.now.shape (trace pass.old) (number pass.old)
        (bucket_of board.now.shape key) }
    requires found { Finds board.now key found pass.old }
    ensures peeks { Peeks board.now key pass.old pass.new }
    ensures steps { TakesAtMost 2 pass.old pass.new }
    ensures presents { IsPresentWord board.now key now found result pass.new }
{
    let target = own_word(found)?;
    let item = Item::unpack(target.word).unwrap();
    let deadline = enter_segment(board, pass, item.seg);
    leave_segment(board, pass, item.seg);
    (now < deadline).then_some(target)
}
