//! A reader's way along the chain of a key, without the bucket's bit. It looks at each word, and at
//! a word with the key's tag it looks a second time, from within the item's segment.
//! A scan can begin at any place of the chain.
ghost use Rattle.std.specs.Prelude.{◌≡◌, ◌≢◌, ◌+◌, ◌<◌, ◌≤◌, IfSome, IsNone};
ghost use Rattle.segword.specs.Words.{item_word, tag_part};
ghost use Rattle.segcore.specs.Words.{enter, May};
ghost use Rattle.segbase.specs.Words.{IsPassOf, number, position, trace};
ghost use Rattle.segstore.specs.Words.{IsChained, IsQuiet, IsSought, MayEnterAny};
ghost use Rattle.segread.specs.Looking.{AfterLook};
ghost use Rattle.segread.specs.Scanning.{place_of, GoesAlong, IsPlaceOf, IsScanner, ScansChain};
ghost use Rattle.segread.specs.Scanning.{left_of_scan, Paces, PacesTo, ScansOn, TriesInSeven};
ghost use Rattle.segread.specs.Scanning.{TriesItem};

use segbase::{Board, Pass, Place};
use segstore::{Keyed, Sought, TRIES, enter_segment, leave_segment, next_place, read_keyed};
use segword::{Item, Key, KeyWords, LAST_WORD};

// An item of the key, in whose segment the pass is: where the item stands, word 0 of its row,
// the deadline of the segment, and how many tries were counted before.
#[derive(Clone, Copy, Drop)]
pub(crate) struct Hit {
    pub(crate) place: Place,
    pub(crate) item: Item,
    pub(crate) header: u64,
    pub(crate) deadline: u32,
    pub(crate) tries: u32,
}

// What a scan of words of a chain found.
#[derive(Drop)]
pub(crate) enum Scan {
    Found(Hit),
    // None was the key's: the word of the last one, and how many tries are counted so far.
    Passed { word: u64, tries: u32 },
    // The words changed at each try.
    Busy,
}

// The item of a word, if the word is an item word with this tag.
pub(crate) fn item_of_tag(word: u64, tag: u16) -> Option<Item>
    requires { 1 ≤ tag }
    ensures some { IfSome result (λ item. (item_word item ≡ word) × (item.tag ≡ tag)) }
    ensures none { IsNone result → tag_part word ≢ tag }
{
    if !Item::has_tag(word, tag) {
        return None;
    }
    Item::unpack(word)
}

// Comes into the segment of an item that was seen, and looks a second time.
// The pass stays there if the item is the key's, and else leaves. The number is the deadline.
#[inline(always)]
pub(crate) fn try_item(
    board: &Board,
    pass: &mut Pass,
    place: Place,
    item: Item,
    key: &KeyWords<'_>,
) -> (Keyed, u32)
    requires pass { IsPassOf board.now pass.old }
    requires place { IsChained board.now.shape (trace pass.old) place }
    requires may { May board.now.shape (trace pass.old) (number pass.old) (enter item.seg) }
    ensures tries { TriesItem board.now place item key.now result.0 result.1 pass.old pass.new }
    ensures steps { TriesInSeven result.0 pass.old pass.new }
{
    let deadline = enter_segment(board, pass, item.seg);
    let keyed = read_keyed(board, pass, place, item.pack(), key);
    if let Keyed::Same { .. } = keyed {
        return (keyed, deadline);
    }
    leave_segment(board, pass, item.seg);
    (keyed, deadline)
}

// Looks at a word until that is found to be the key's or not, or all tries are counted.
#[inline(always)]
fn visit_word(board: &Board, pass: &mut Pass, place: Place, sought: &Sought<'_>, tries: u32) -> Scan
    requires pass { IsPassOf board.now pass.old }
    requires reader { MayEnterAny pass.old }
    requires place { IsPlaceOf board.now.shape (trace pass.old) sought.now.key place }
    requires sought { IsSought board.now.shape sought.now }
    requires tries { tries < TRIES }
    ensures reads { IsScanner board.now result pass.old pass.new }
    ensures steps { PacesTo board.now place
        (position board.now.shape (trace pass.old) place + 1) result pass.old pass.new }
    ensures way { AfterLook board.now pass.old
        (λ first. GoesAlong board.now sought.now.key place place tries result first pass.new) }
{
    let word = board.look(pass, place);
    let Some(mut item) = item_of_tag(word, sought.tag) else {
        return Scan::Passed { word, tries };
    };
    for count in tries..TRIES {
        let (keyed, deadline) = try_item(board, pass, place, item, &sought.key);
        match keyed {
            Keyed::Same { item, header } => {
                return Scan::Found(Hit {
                    place,
                    item,
                    header,
                    deadline,
                    tries: count,
                });
            }
            Keyed::Other(now) => {
                return Scan::Passed {
                    word: now.pack(),
                    tries: count,
                };
            }
            Keyed::Changed(word) => match item_of_tag(word, sought.tag) {
                Some(other) => item = other,
                None => return Scan::Passed { word, tries: count },
            },
        }
    }
    Scan::Busy
}

// Visits the words of one bucket of the chain, from a place on, up to the key's item.
#[inline(always)]
fn visit_bucket(
    board: &Board,
    pass: &mut Pass,
    start: Place,
    sought: &Sought<'_>,
    mut tries: u32,
) -> Scan
    requires pass { IsPassOf board.now pass.old }
    requires reader { MayEnterAny pass.old }
    requires start { IsPlaceOf board.now.shape (trace pass.old) sought.now.key start }
    requires sought { IsSought board.now.shape sought.now }
    requires tries { tries < TRIES }
    ensures reads { IsScanner board.now result pass.old pass.new }
    ensures steps { PacesTo board.now start
        (position board.now.shape (trace pass.old) (place_of start.bucket LAST_WORD) + 1) result
        pass.old pass.new }
    ensures way { AfterLook board.now pass.old
        (λ first. GoesAlong board.now sought.now.key start (place_of start.bucket LAST_WORD) tries result
        first pass.new) }
{
    for word in start.word..LAST_WORD {
        match visit_word(board, pass, Place { word, ..start }, sought, tries) {
            Scan::Passed { tries: counted, .. } => tries = counted,
            found => return found,
        }
    }
    let last = Place {
        word: LAST_WORD,
        ..start
    };
    visit_word(board, pass, last, sought, tries)
}

// Looks for a key along its chain, from a place on. `tries` are counted so far.
#[inline(always)]
pub(crate) fn scan_from(
    board: &Board,
    pass: &mut Pass,
    mut place: Place,
    sought: &Sought<'_>,
    mut tries: u32,
) -> Scan
    requires pass { IsPassOf board.now pass.old }
    requires reader { MayEnterAny pass.old }
    requires place { IsPlaceOf board.now.shape (trace pass.old) sought.now.key place }
    requires sought { IsSought board.now.shape sought.now }
    requires tries { tries < TRIES }
    ensures reads { IsScanner board.now result pass.old pass.new }
    ensures steps { PacesTo board.now place 32 result pass.old pass.new }
    ensures scan { AfterLook board.now pass.old
        (λ first. ScansOn board.now sought.now.key place tries result first pass.new) }
{
    loop {
        match visit_bucket(board, pass, place, sought, tries) {
            Scan::Passed {
                word,
                tries: counted,
            } => {
                let last = Place {
                    word: LAST_WORD,
                    ..place
                };
                let Some(next) = next_place(board, last, word) else {
                    return Scan::Passed {
                        word,
                        tries: counted,
                    };
                };
                place = next;
                tries = counted;
            }
            found => return found,
        }
    }
}

// Looks for a key along its whole chain.
#[inline(always)]
pub(crate) fn scan_for(board: &Board, pass: &mut Pass, key: &Key) -> Scan
    requires pass { IsQuiet board.now pass.old }
    ensures reads { IsScanner board.now result pass.old pass.new }
    ensures steps { Paces 1 32 (left_of_scan result) pass.old pass.new }
    ensures scan { AfterLook board.now pass.old
        (λ first. ScansChain board.now key.now result first pass.new) }
{
    let sought = Sought::of(key, board);
    let start = Place {
        bucket: sought.bucket,
        word: 1,
    };
    scan_from(board, pass, start, &sought, 0)
}
