//! The calls of a client that holds an item, and of its notes.
ghost use Rattle.std.specs.Prelude.{◌≡◌, is_some};
ghost use Rattle.segbase.specs.Words.{IsNoteOf};
ghost use Rattle.segindex.specs.Words.{board_of};
ghost use Rattle.seghandles.specs.Guest.{hold_status};

use crate::guest::Guest;
use crate::status::Status;
use segclient::{Key, Note, RowAnswer};

impl Guest {
    ghost use Rattle.segclient.specs.Made.{Learns, Notes};
    ghost use Rattle.seghandles.specs.Copying.{HeldCopied};
    ghost use Rattle.seghandles.specs.Guest.{EndsItsHold, HoldsAt, MakesCall, ReadsHeld};

    /// Holds the item of a key.
    pub(crate) fn hold(&mut self, key: &Key, now: u32) -> Status
        ensures { HoldsAt key.now now result self.old self.new }
    {
        self.member.set_now(now);
        hold_status(self.member.hold_by(&mut self.share, key))
    }

    /// The value that it holds, if it holds one, goes to the front of a buffer with room for it.
    pub(crate) fn held_into(&mut self, bytes: &mut [u8]) -> Option<Result<usize, usize>>
        ensures { HeldCopied (λ value. ReadsHeld value self.old self.new) result
            bytes.old bytes.new }
    {
        self.member.value_into_by(&self.share, bytes)
    }

    /// Ends its hold, and says whether there was one.
    pub(crate) fn release(&mut self) -> bool
        ensures was_held { result ≡ is_some self.old.share.held }
        ensures ends { EndsItsHold self.old.share.held self.old self.new }
    {
        self.member.release_by(&mut self.share)
    }

    /// A note of what it has seen.
    pub(crate) fn note(&mut self) -> Note
        ensures { MakesCall (Notes result) self.old self.new }
    {
        self.member.note(self.share.index())
    }

    /// It has then seen all that the note has.
    pub(crate) fn learn(&mut self, note: Note)
        requires note { IsNoteOf (board_of self.old.share.index.value) note }
        ensures { MakesCall (Learns note) self.old self.new }
    {
        self.member.learn(self.share.index(), note);
    }
}

fn hold_status(answer: RowAnswer) -> Status
    ensures { result ≡ hold_status answer }
{
    match answer {
        RowAnswer::Holding => Status::Ok,
        RowAnswer::Miss => Status::Miss,
        RowAnswer::Busy => Status::Busy,
        RowAnswer::AlreadyHolding => Status::AlreadyHolding,
    }
}
