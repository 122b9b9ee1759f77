//! The calls of notes: what one client has seen, for another.
ghost use Rattle.std.specs.Prelude.{Some};
ghost use Rattle.seghandles.specs.Exports.{Answers};
ghost use Rattle.seghandles.specs.Noting.{FreesNote, IsNoteFor, Learned, Noted};

use crate::handle::Handle;
use crate::kept::Kept;
use crate::status::Status;
use std::alloc::Global;

/// Makes a note of all that the client has seen, its own puts among it, in an empty handle.
pub fn raw_note(alloc: Global, client: &mut Handle, note: &mut Handle) -> u32
    ensures { Answers result (Noted client.old.value client.new.value
        note.old.value note.new.value) }
{
    let Some(mut kept) = client.take(alloc) else {
        return Status::NoHandle.number();
    };
    let status = write_note(alloc, &mut kept, note);
    client.fill(alloc, kept);
    status.number()
}

/// The client has then seen all that the note has, and the note is used up.
/// The note is of the client's cache, which no number shows.
pub fn raw_learn(alloc: Global, client: &mut Handle, note: &mut Handle) -> u32
    requires same { IsNoteFor client.old.value note.old.value }
    ensures { Answers result (Learned client.old.value client.new.value
        note.old.value note.new.value) }
{
    let Some(mut kept) = client.take(alloc) else {
        return Status::NoHandle.number();
    };
    let status = learn(alloc, &mut kept, note);
    client.fill(alloc, kept);
    status.number()
}

/// Frees a note that nobody is to learn.
pub fn raw_note_free(alloc: Global, note: &mut Handle) -> u32
    ensures { Answers result (FreesNote note.old.value note.new.value) }
{
    let Some(kept) = note.take(alloc) else {
        return Status::NoHandle.number();
    };
    if !kept.is_note() {
        note.fill(alloc, kept);
        return Status::NoHandle.number();
    }
    Status::Ok.number()
}

// Writes a note of the client to the handle.
fn write_note(alloc: Global, kept: &mut Kept, note: &mut Handle) -> Status
    ensures { Noted (Some kept.old) (Some kept.new) note.old.value note.new.value result }
{
    let Kept::Client(client) = kept else {
        return Status::NoHandle;
    };
    if !note.is_empty(alloc) {
        return Status::NoHandle;
    }
    let Ok(notes) = client.note(alloc) else {
        return Status::OutOfMemory;
    };
    let Ok(boxed) = Box::new(alloc, Kept::Note(notes)) else {
        return Status::OutOfMemory;
    };
    note.fill(alloc, boxed);
    Status::Ok
}

// The client learns what the note has.
fn learn(alloc: Global, kept: &mut Kept, note: &mut Handle) -> Status
    requires same { IsNoteFor (Some kept.old) note.old.value }
    ensures { Learned (Some kept.old) (Some kept.new) note.old.value note.new.value result }
{
    let Kept::Client(client) = kept else {
        return Status::NoHandle;
    };
    let Some(boxed) = note.take(alloc) else {
        return Status::NoHandle;
    };
    if !boxed.is_note() {
        note.fill(alloc, boxed);
        return Status::NoHandle;
    }
    let Kept::Note(taken) = Box::into_inner(boxed) else {
        unreachable!()
    };
    client.learn(taken);
    Status::Ok
}
