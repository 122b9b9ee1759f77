//! What one client hands to another by a note.
ghost use Rattle.std.specs.Prelude.{◌≡◌};
ghost use Rattle.segclient.specs.Told.{PutAdds, PutStands, RoomAdds, RoomServes};

use crate::client::Client;
use crate::member::Member;
use segindex::{Index, Note};

impl Member {
    ghost use Rattle.segindex.specs.Words.{board_of, IsNoteOf};
    ghost use Rattle.segclient.specs.Made.{Learns, Meet, Notes};
    ghost use Rattle.segclient.specs.Member.{IsMember};

    /// As `Client::note`.
    pub fn note(&mut self, index: &Index) -> Note
        requires member { IsMember index.now self.old }
        ensures member { IsMember index.now self.new }
        ensures notes { Notes result (board_of index.now) self.old self.new }
    {
        index.note(&mut self.pass)
    }

    /// As `Client::learn`.
    pub fn learn(&mut self, index: &Index, note: Note)
        requires member { IsMember index.now self.old }
        requires note { IsNoteOf (board_of index.now) note }
        ensures member { IsMember index.now self.new }
        ensures learns { Learns note (board_of index.now) self.old self.new }
    {
        index.learn(&mut self.pass, note);
    }

    /// As `Client::meet`.
    pub fn meet(&mut self, index: &Index, other: &mut Member)
        requires member { IsMember index.now self.old }
        requires other { IsMember index.now other.old }
        ensures member { IsMember index.now self.new }
        ensures other { IsMember index.now other.new }
        ensures meets { Meet (board_of index.now) self.old other.old self.new other.new }
    {
        index.meet(&mut self.pass, &mut other.pass);
    }
}

impl<'i> Client<'i> {
    ghost use Rattle.segbase.specs.Words.{IsNoteOf};
    ghost use Rattle.segindex.specs.Words.{board_of};
    ghost use Rattle.segclient.specs.Client.{IsSame, MakesCall};
    ghost use Rattle.segclient.specs.Made.{Learns, Meet, Notes};

    /// A note of what the client has seen, its own puts among it. It takes no bytes.
    /// Send it to another thread by any means, or drop it.
    pub fn note(&mut self) -> Note
        ensures notes { MakesCall (Notes result) self.old self.new }
    {
        self.member.note(self.index)
    }

    /// The client has then seen all that the note has. The note has to be of the client's index.
    pub fn learn(&mut self, note: Note)
        requires note { IsNoteOf (board_of self.old.index.now) note }
        ensures learns { MakesCall (Learns note) self.old self.new }
    {
        self.member.learn(self.index, note);
    }

    /// Afterwards each of the two clients has seen what either had seen,
    /// and the other one has seen all that this one has. Both have to be of one index.
    pub fn meet(&mut self, other: &mut Client<'_>)
        requires same { other.old.index.now ≡ self.old.index.now }
        ensures same { IsSame self.old self.new × IsSame other.old other.new }
        ensures meets { Meet (board_of self.old.index.now)
            self.old.member other.old.member self.new.member other.new.member }
    {
        self.member.meet(self.index, &mut other.member);
    }
}

/// A put that is Stored has a moment after the first step of its call,
/// right after which its value stood.
/// So `what_stood_is_read` is about what was put, too.
/// This function does nothing: its contract is the law.
pub fn what_is_put_stands()
    ensures { PutStands }
{}

/// What a put adds to the history, and what a call adds that only makes room.
/// This function does nothing: its contract is the law.
pub fn what_a_put_adds()
    ensures put { PutAdds }
    ensures room { RoomAdds }
{}

/// Right after `make_room` returned true, no write has too little room whose item takes no more rows
/// than the longest may take, and than a segment has: the segment that the client then stores into
/// has these rows left, and a deadline in the item's time to live.
/// This function does nothing: its contract is the law.
pub fn what_room_is_made_for()
    ensures { RoomServes }
{}
