//! Which of the open segments of a pass is stored into: one with a deadline that is asked.
ghost use Rattle.std.specs.Prelude.{◌≡◌, true, false, is_some, IfSome};
ghost use Rattle.segindex.specs.Words.{board_of, shape_of};
ghost use Rattle.segstore.specs.Words.{IsQuiet};
ghost use Rattle.segclient.specs.PutParts.{is_outside, IsOpen};
ghost use Rattle.segclient.specs.Puts.{Chooses, ChoosesFor, Moves};

use crate::queues::segment_at;
use crate::rows::has_room;
use crate::segments::{Segments, Window};
use segindex::{Index, Pass};
use segmodel::SegState;

// Whether the segment that the pass stores into has another deadline than those that are asked.
#[inline(always)]
pub(crate) fn is_outside(pass: &Pass, window: Window) -> bool
    ensures { result ≡ is_outside window pass.now }
{
    let Some(segment) = pass.current() else {
        return false;
    };
    let Some(deadline) = pass.deadline(segment) else {
        return false;
    };
    deadline < window.earliest || window.latest < deadline
}

// Whether the segment is in use, with such a deadline and a row left.
fn is_open(index: &Index, pass: &Pass, segment: u32, window: Window) -> bool
    ensures { result ≡ true → IsOpen (shape_of index.now) window pass.now segment }
{
    let (Some(used), Some(deadline)) = (pass.used(segment), pass.deadline(segment)) else {
        return false;
    };
    pass.state(segment) == Some(SegState::InUse)
        && used < index.shape().rows
        && window.earliest <= deadline
        && deadline <= window.latest
}

// The first segment of the pass that is open so.
fn first_open(index: &Index, pass: &Pass, window: Window) -> Option<u32>
    ensures { IfSome result (IsOpen (shape_of index.now) window pass.now) }
{
    let segments = index.shape().segments_each;
    let first = pass.number().saturating_mul(segments);
    for at in 0..segments {
        let segment = first.saturating_add(at);
        if is_open(index, pass, segment, window) {
            return Some(segment);
        }
    }
    None
}

// A segment of the pass that is open so. The queues know one without a look at all.
fn open_for(index: &Index, pass: &Pass, segments: &Segments, window: Window) -> Option<u32>
    requires quiet { IsQuiet (board_of index.now) pass.now }
    ensures { IfSome result (IsOpen (shape_of index.now) window pass.now) }
{
    let Some(queues) = segments.queues.as_ref() else {
        return first_open(index, pass, window);
    };
    let at = queues.open_within(window.earliest, window.latest)?;
    let segment = segment_at(index, pass, at)?;
    if is_open(index, pass, segment, window) {
        Some(segment)
    } else {
        None
    }
}

// Whether a put stores only into a segment with a finer deadline, which it opens if there is none:
// plenty are free; or many are, and at least half of the one that it would store into else is used.
// Where only one deadline is asked, none is finer.
#[inline(always)]
pub(crate) fn is_fine(index: &Index, pass: &Pass, segments: &Segments, window: Window) -> bool
    requires quiet { IsQuiet (board_of index.now) pass.now }
    ensures unqueued { is_some segments.now.queues ≡ false → result ≡ false }
{
    if window.earliest == window.latest {
        return false;
    }
    let has_plenty = matches!(&segments.queues, Some(queues) if queues.are_plenty_free());
    if has_plenty {
        return true;
    }
    let has_many = matches!(&segments.queues, Some(queues) if queues.are_many_free());
    if !has_many {
        return false;
    }
    let found = if is_outside(pass, window) {
        open_for(index, pass, segments, window)
    } else {
        pass.current()
    };
    let Some(segment) = found else {
        return true;
    };
    pass.used(segment).unwrap_or(0) >= index.shape().rows.div_ceil(2)
}

// Whether a segment that is opened has a finer deadline, though others are filled before:
// two fifths of what is evicted have expired in full segments, so few deadlines have to be equal.
#[inline(always)]
pub(crate) fn is_filled_fine(segments: &Segments) -> bool
    ensures unqueued { is_some segments.now.queues ≡ false → result ≡ false }
{
    matches!(&segments.queues, Some(queues) if queues.do_full_ones_expire())
}

// The pass stores into an open segment with such a deadline, if it has one.
#[cold]
#[inline(never)]
fn switch(index: &Index, pass: &mut Pass, segments: &Segments, window: Window)
    requires quiet { IsQuiet (board_of index.now) pass.old }
    ensures chooses { Chooses (board_of index.now) pass.old pass.new }
    ensures moves { Moves (shape_of index.now) window pass.old pass.new }
{
    if let Some(segment) = open_for(index, pass, segments, window) {
        index.make_current(pass, segment);
    }
}

// Before a put or another write: the pass stores into a segment with a row left and a deadline that
// is asked, if it has one.
#[inline(always)]
pub(crate) fn choose(index: &Index, pass: &mut Pass, segments: &Segments, window: Window)
    requires quiet { IsQuiet (board_of index.now) pass.old }
    ensures { ChoosesFor window (board_of index.now) pass.old pass.new }
{
    if is_outside(pass, window) || !has_room(index, pass) {
        switch(index, pass, segments, window);
    }
}
