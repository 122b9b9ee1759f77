//! Items with the version of their bucket, both of one moment, and both found without any bit.
ghost use Rattle.std.specs.Prelude.{◌≡◌, ◌≢◌, ℕ, ◌^◌, ◌<◌, Some};
ghost use Rattle.segmodel.specs.Words.{bucket_of};
ghost use Rattle.segbase.specs.Words.{IsPassOf, locked_of, trace};
ghost use Rattle.segstore.specs.Words.{IsQuiet, IsSought, MayEnterAny};
ghost use Rattle.segread.specs.declared.scan.Hit.{Hit};
ghost use Rattle.segread.specs.declared.version.Versioned.TheVariants as versioned;
ghost use Rattle.segread.specs.Scanning.{IsPlaceOf};
ghost use Rattle.segread.specs.Looking.{AfterLook};
ghost use Rattle.segread.specs.Gets.{HasNoBit, Attempted, FindsVersion, Sees};
ghost use Rattle.segread.specs.Gets.{left_of_version, Strides, StridesTo, StridesToSight};

use crate::scan::{Hit, Scan, item_of_tag, scan_for, scan_from};
use segbase::{Board, Pass, Place};
use segstore::{Sought, TRIES, leave_segment, next_place};
use segword::{Info, Key, same_item};

// A gets: what it looks for, and its clock.
#[derive(Drop)]
struct GetsCall<'k> {
    sought: Sought<'k>,
    clock: u32,
}

// What one scan for a key and its version saw.
#[derive(Drop)]
enum VersionLook {
    // The key's item, the information of its bucket,
    // and the word that stood in the item's place after that look.
    Found { hit: Hit, info: Info, word: u64 },
    // The key was absent at a moment: it didn't stand, or its deadline had come.
    Absent,
    // The words changed at each try.
    Busy,
}

// What scans for a key and its version found.
#[derive(Drop)]
pub(crate) enum Versioned {
    // The key's item, in whose segment the pass still is, and the version of its bucket.
    // Its value and the version are of one moment.
    Found { hit: Hit, version: u32 },
    // The key was absent at a moment.
    Miss,
    // As of a `GetsAnswer`.
    Busy,
}

// What one scan for a key and its version gives: an answer, or where to go on.
#[derive(Drop)]
enum Attempt {
    Answered(Versioned),
    // The bit was set, or another word stood in the item's place. The next scan begins at this place,
    // with this many tries counted.
    GoesOn { place: Place, tries: u32 },
}

// Looks for a key and its version, as a gets does.
#[inline(always)]
pub(crate) fn version_for(board: &Board, pass: &mut Pass, key: &Key, now: u32) -> Versioned
    requires pass { IsQuiet board.now pass.old }
    ensures steps { Strides 1 32 (left_of_version result) pass.old pass.new }
    ensures answer { AfterLook board.now pass.old
        (λ first. FindsVersion board.now key.now now result first pass.new) }
    ensures unlocked { (hit : Hit) (version : ℕ) → result ≡ versioned.Found hit version
        → locked_of pass.old ≢ Some (bucket_of board.now.shape key.now) }
{
    let sought = Sought::of(key, board);
    if pass.locked() == Some(sought.bucket) {
        return find_locked(board, pass, key, now);
    }
    find_version(board, pass, &GetsCall { sought, clock: now })
}

// Whether a key is present whose bucket the pass itself has locked. The answer is Busy if it is,
// or if the scan gave up, and else Miss.
fn find_locked(board: &Board, pass: &mut Pass, key: &Key, now: u32) -> Versioned
    requires pass { IsQuiet board.now pass.old }
    requires locked { locked_of pass.old ≡ Some (bucket_of board.now.shape key.now) }
    ensures answer { AfterLook board.now pass.old
        (λ first. FindsVersion board.now key.now now result first pass.new) }
    ensures steps { Strides 1 32 (left_of_version result) pass.old pass.new }
    ensures none { (hit : Hit) (version : ℕ) → result ≢ versioned.Found hit version }
{
    match scan_for(board, pass, key) {
        Scan::Found(hit) => {
            leave_segment(board, pass, hit.item.seg);
            if hit.deadline <= now {
                Versioned::Miss
            } else {
                Versioned::Busy
            }
        }
        Scan::Passed { .. } => Versioned::Miss,
        Scan::Busy => Versioned::Busy,
    }
}

// Looks for a key and its version along its chain.
// If a scan was disturbed, the next one begins where that one stopped.
fn find_version(board: &Board, pass: &mut Pass, call: &GetsCall<'_>) -> Versioned
    requires pass { IsPassOf board.now pass.old }
    requires reader { MayEnterAny pass.old }
    requires sought { IsSought board.now.shape call.now.sought }
    requires free { HasNoBit board.now.shape call.now.sought.key pass.old }
    requires versions { board.now.shape.first_version < 2 ^ 32 }
    ensures steps { Strides 1 32 (left_of_version result) pass.old pass.new }
    ensures answer { AfterLook board.now pass.old
        (λ first. FindsVersion board.now call.now.sought.key call.now.clock result
        first pass.new) }
{
    let mut place = Place {
        bucket: call.sought.bucket,
        word: 1,
    };
    let mut tries = 0;
    while tries < TRIES {
        match try_version(board, pass, call, place, tries) {
            Attempt::Answered(answer) => return answer,
            Attempt::GoesOn {
                place: next,
                tries: counted,
            } => {
                place = next;
                tries = counted;
            }
        }
    }
    Versioned::Busy
}

// One scan from a place on. The item and the version are of one moment if the bit is clear
// and the item still stands at its place. Then the pass stays in the item's segment.
fn try_version(
    board: &Board,
    pass: &mut Pass,
    call: &GetsCall<'_>,
    place: Place,
    tries: u32,
) -> Attempt
    requires pass { IsPassOf board.now pass.old }
    requires reader { MayEnterAny pass.old }
    requires sought { IsSought board.now.shape call.now.sought }
    requires place { IsPlaceOf board.now.shape (trace pass.old) call.now.sought.key place }
    requires free { HasNoBit board.now.shape call.now.sought.key pass.old }
    requires versions { board.now.shape.first_version < 2 ^ 32 }
    requires tries { tries < TRIES }
    ensures steps { StridesTo board.now place result pass.old pass.new }
    ensures attempt { AfterLook board.now pass.old
        (λ first. Attempted board.now call.now.sought.key call.now.clock place tries result
        first pass.new) }
{
    match see_version(board, pass, call, place, tries) {
        VersionLook::Found { hit, info, word } => {
            if info.held {
                leave_segment(board, pass, hit.item.seg);
                return Attempt::GoesOn {
                    place: hit.place,
                    tries: hit.tries + 1,
                };
            }
            if same_item(hit.item.pack(), word) {
                return Attempt::Answered(Versioned::Found {
                    hit,
                    version: info.version,
                });
            }
            leave_segment(board, pass, hit.item.seg);
            if let Some(_other) = item_of_tag(word, call.sought.tag) {
                return Attempt::GoesOn {
                    place: hit.place,
                    tries: hit.tries + 1,
                };
            }
            match next_place(board, hit.place, word) {
                Some(next) => Attempt::GoesOn {
                    place: next,
                    tries: hit.tries,
                },
                None => Attempt::Answered(Versioned::Miss),
            }
        }
        VersionLook::Absent => Attempt::Answered(Versioned::Miss),
        VersionLook::Busy => Attempt::Answered(Versioned::Busy),
    }
}

// Looks for a key from a place on. At the key's item, the pass looks at the bucket's information
// between two looks at the item's word.
#[inline(always)]
fn see_version(
    board: &Board,
    pass: &mut Pass,
    call: &GetsCall<'_>,
    place: Place,
    tries: u32,
) -> VersionLook
    requires pass { IsPassOf board.now pass.old }
    requires reader { MayEnterAny pass.old }
    requires sought { IsSought board.now.shape call.now.sought }
    requires place { IsPlaceOf board.now.shape (trace pass.old) call.now.sought.key place }
    requires free { HasNoBit board.now.shape call.now.sought.key pass.old }
    requires versions { board.now.shape.first_version < 2 ^ 32 }
    requires tries { tries < TRIES }
    ensures steps { StridesToSight board.now place result pass.old pass.new }
    ensures sight { AfterLook board.now pass.old
        (λ first. Sees board.now call.now.sought.key call.now.clock place tries result
        first pass.new) }
{
    match scan_from(board, pass, place, &call.sought, tries) {
        Scan::Found(hit) => {
            if hit.deadline <= call.clock {
                leave_segment(board, pass, hit.item.seg);
                return VersionLook::Absent;
            }
            let info = board.glance(pass, call.sought.bucket);
            let word = board.look(pass, hit.place);
            VersionLook::Found { hit, info, word }
        }
        Scan::Passed { .. } => VersionLook::Absent,
        Scan::Busy => VersionLook::Busy,
    }
}
