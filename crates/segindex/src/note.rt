//! What a pass hands to another one by a note.
use crate::index::Index;
use segbase::{Note, Pass};

impl Index {
    ghost use Rattle.segindex.specs.Index.{board_of};
    ghost use Rattle.segbase.specs.Words.{IsNoteOf};
    ghost use Rattle.segstore.specs.Words.{IsQuiet};
    ghost use Rattle.segindex.specs.Noting.{CopiesNote, LearnsNote, MakesNote};

    /// A note of what the pass has seen. It takes no bytes.
    /// It can be sent to another thread by any means, and be dropped.
    pub fn note(&self, pass: &mut Pass) -> Note
        requires quiet { IsQuiet (board_of self.now) pass.old }
        ensures notes { MakesNote (board_of self.now) result pass.old pass.new }
    {
        self.board.note(pass)
    }

    /// The pass has then seen all that the note has. The note has to be of this index.
    pub fn learn(&self, pass: &mut Pass, note: Note)
        requires quiet { IsQuiet (board_of self.now) pass.old }
        requires note { IsNoteOf (board_of self.now) note }
        ensures learns { LearnsNote (board_of self.now) note pass.old pass.new }
    {
        self.board.learn(pass, note);
    }

    /// One more note of the same.
    pub fn copy_note(&self, note: &mut Note) -> Note
        requires note { IsNoteOf (board_of self.now) note.old }
        ensures copies { CopiesNote (board_of self.now) result note.old note.new }
    {
        self.board.copy_note(note)
    }
}
