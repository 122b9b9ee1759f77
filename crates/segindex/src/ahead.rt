//! A look ahead, for those who have several commands at hand.
ghost use Rattle.std.specs.Prelude.{length};

use crate::index::Index;
use segbase::{Lead, Pass, RowAhead, Seeker, Seekers};
use segword::{Key, hash};

impl Index {
    ghost use Rattle.segstore.specs.Words.{IsQuiet};
    ghost use Rattle.segindex.specs.Ahead.{LooksAhead};
    ghost use Rattle.segindex.specs.Index.{board_of};

    /// Loads the words that commands on these keys will read, so that their waits for memory
    /// overlap. The pass takes one step for each key. No answer depends on what is found.
    pub fn look_ahead(&self, pass: &mut Pass, keys: &[Key])
        requires quiet { IsQuiet (board_of self.now) pass.old }
        ensures looks { LooksAhead (length keys.now) (board_of self.now) pass.old pass.new }
    {
        let mut seekers = Seekers::new();
        for place in 0..keys.len() {
            if seekers.is_full() {
                self.board.follow_all(&mut seekers);
            }
            self.board
                .seek_among(pass, hash(&keys[place]), &mut seekers);
        }
        self.board.follow_all(&mut seekers);
    }

    /// A look ahead for a key, step by step, for those who look into several indexes at a time.
    /// This call takes the one step, and loads the ends of the first bucket of the key's chain.
    #[inline(always)]
    pub fn seek(&self, pass: &mut Pass, key: &Key) -> Seeker
        requires quiet { IsQuiet (board_of self.now) pass.old }
        ensures looks { LooksAhead 1 (board_of self.now) pass.old pass.new }
    {
        self.board.seek(pass, hash(key))
    }

    /// Where the words of the seeker's bucket lead to. It takes no pass, but a seeker, which
    /// a step made.
    #[inline(always)]
    pub fn follow(&self, seeker: Seeker) -> Lead {
        self.board.follow(seeker)
    }

    /// Loads the ends of the row.
    #[inline(always)]
    pub fn load_row(&self, row: RowAhead) {
        self.board.load_row(row);
    }
}
