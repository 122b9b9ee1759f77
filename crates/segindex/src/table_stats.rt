//! What a pass sees of the table, in numbers.
use crate::index::Index;
use segbase::Pass;

/// What a pass sees of the table: the overflow buckets of all chains,
/// and the rows of its own segments.
#[derive(Clone, Copy, Debug, PartialEq, Eq)]
pub struct IndexStats {
    /// Overflow buckets that were allocated for chains. None is ever freed.
    pub overflow_buckets: u32,
    /// Rows of the pass's own segments that are used.
    pub used_rows: u32,
    /// The used rows that an item names. The others are dead:
    /// they come back with the refill of their segment.
    pub named_rows: u32,
}

impl Index {
    ghost use Rattle.segstore.specs.Words.{IsQuiet};
    ghost use Rattle.segindex.specs.Index.{board_of};
    ghost use Rattle.segindex.specs.Stats.{ReturnsStats};

    /// How many overflow buckets were allocated, at a moment of the call;
    /// how many rows of its own segments the pass has used;
    /// and how many used rows were named by an item, each at a moment of the call.
    /// At the return no item names any of the other used rows.
    /// It goes over all these rows, and looks along the chain of each row's key.
    pub fn stats(&self, pass: &mut Pass) -> IndexStats
        requires quiet { IsQuiet (board_of self.now) pass.old }
        ensures reads { ReturnsStats (board_of self.now) result pass.old pass.new }
    {
        let overflow_buckets = self.board.drawn_overflow(pass);
        let rows = segevict::count_rows(&self.board, pass);
        IndexStats {
            overflow_buckets,
            used_rows: rows.used,
            named_rows: rows.named,
        }
    }
}
