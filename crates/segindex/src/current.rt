//! Which of its segments a pass stores into.
use crate::index::Index;
use segbase::Pass;
use segmodel::SegState;

/// The answer to a call that makes a segment the current one.
#[derive(Clone, Copy, Debug, PartialEq, Eq)]
pub enum CurrentAnswer {
    /// The pass stores into it from now on.
    Current,
    /// The segment isn't one of the pass's own.
    NotYours,
    /// It isn't in use: it was evicted since its last refill, or never refilled.
    NotInUse,
}

impl Index {
    ghost use Rattle.segstore.specs.Words.{IsQuiet};
    ghost use Rattle.segindex.specs.Currents.{MakesCurrent};
    ghost use Rattle.segindex.specs.Index.{board_of};

    /// Makes a segment in use of the pass's own the one that the pass stores into.
    /// So a pass can fill several segments by turns, as by their deadlines.
    /// The call takes no step and adds no entry: nobody else can tell which segment is current.
    pub fn make_current(&self, pass: &mut Pass, segment: u32) -> CurrentAnswer
        requires quiet { IsQuiet (board_of self.now) pass.old }
        ensures makes { MakesCurrent (board_of self.now) segment result pass.old pass.new }
    {
        match pass.state(segment) {
            None => CurrentAnswer::NotYours,
            Some(SegState::InUse) => {
                pass.set_current(Some(segment));
                CurrentAnswer::Current
            }
            Some(SegState::Empty | SegState::Evicted) => CurrentAnswer::NotInUse,
        }
    }
}
