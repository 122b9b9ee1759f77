//! What one pass learns of another.
use crate::index::Index;
use segbase::Pass;

impl Index {
    ghost use Rattle.segindex.specs.Index.{board_of};
    ghost use Rattle.segstore.specs.Words.{IsQuiet};
    ghost use Rattle.segindex.specs.Meeting.{MeetsPass};

    /// Afterwards each pass has seen what either had seen before,
    /// and the second has seen all that the first has.
    /// Of the histories that they had seen before, one begins the other.
    pub fn meet(&self, first: &mut Pass, second: &mut Pass)
        requires first { IsQuiet (board_of self.now) first.old }
        requires second { IsQuiet (board_of self.now) second.old }
        ensures meets { MeetsPass (board_of self.now) first.old second.old first.new second.new }
    {
        self.board.meet(first, second);
    }
}
