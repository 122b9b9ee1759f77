//! What a pass has seen, as a value without bytes that goes to another thread by any channel.
ghost use Rattle.std.specs.Prelude.{◌≡◌};
ghost use Rattle.segmodel.specs.Words.{Begins};

use crate::board::Board;
use crate::law::{Carry, Copies, Sight, Tell};
use crate::pass::Pass;
use atomic_table::Seat;

/// What a pass had seen when the note was made. A note takes no bytes, and can be dropped.
#[derive(Drop)]
pub struct Note {
    pub(crate) seat: Seat<(), Sight>,
}

impl Board {
    ghost use Rattle.segbase.specs.Passes.{sight, trace, IsPassOf, SeesMore};
    ghost use Rattle.segbase.specs.Notes.{IsNoteOf, noted};

    /// A note of what the pass has seen. The pass changes nothing of its own.
    pub fn note(&self, pass: &mut Pass) -> Note
        requires pass { IsPassOf self.now pass.old }
        ensures pass { IsPassOf self.now pass.new
            × (sight pass.new ≡ sight pass.old) × (pass.new.plain ≡ pass.old.plain) }
        ensures note { IsNoteOf self.now result }
        ensures noted { noted result ≡ trace pass.old }
    {
        Note {
            seat: self.table.shared.split_seat::<Carry>(&mut pass.seat),
        }
    }

    /// One more note of the same.
    pub fn copy_note(&self, note: &mut Note) -> Note
        requires note { IsNoteOf self.now note.old }
        ensures old { IsNoteOf self.now note.new × (noted note.new ≡ noted note.old) }
        ensures copy { IsNoteOf self.now result × (noted result ≡ noted note.old) }
    {
        Note {
            seat: self.table.shared.split_seat::<Copies>(&mut note.seat),
        }
    }

    /// The pass has then seen all that the note has. The note is used up.
    pub fn learn(&self, pass: &mut Pass, note: Note)
        requires pass { IsPassOf self.now pass.old }
        requires note { IsNoteOf self.now note }
        ensures pass { SeesMore self.now pass.old pass.new }
        ensures learns { Begins (noted note) (trace pass.new) }
    {
        self.table
            .shared
            .join_seat::<Tell>(&mut pass.seat, note.seat);
        let own = pass.plain.first;
        self.row_load(pass, own, 0, 0);
    }
}
