//! The exports of notes: what one client has seen, for another.
ghost use Rattle.seghandles.specs.Exports.{Answers};
ghost use Rattle.seghandles.specs.Noting.{FreesNote, IsNoteFor, Learned, Noted};

use seghandles::{Handle, raw_learn, raw_note, raw_note_free};
use std::alloc::Global;

#[unsafe(no_mangle)]
pub extern "C" fn segcache_raw_note(alloc: Global, client: &mut Handle, note: &mut Handle) -> u32
    ensures { Answers result (Noted client.old.value client.new.value
        note.old.value note.new.value) }
{
    raw_note(alloc, client, note)
}

#[unsafe(no_mangle)]
pub extern "C" fn segcache_raw_learn(alloc: Global, client: &mut Handle, note: &mut Handle) -> u32
    requires same { IsNoteFor client.old.value note.old.value }
    ensures { Answers result (Learned client.old.value client.new.value
        note.old.value note.new.value) }
{
    raw_learn(alloc, client, note)
}

#[unsafe(no_mangle)]
pub extern "C" fn segcache_raw_note_free(alloc: Global, note: &mut Handle) -> u32
    ensures { Answers result (FreesNote note.old.value note.new.value) }
{
    raw_note_free(alloc, note)
}
