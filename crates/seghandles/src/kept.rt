//! What a handle of C's keeps.
use crate::cache::Cache;
use crate::client::SharedClient;
use crate::cursor::Cursor;
use segclient::Note;

/// A handle keeps one of these.
#[derive(Drop)]
pub enum Kept {
    Cache(Cache),
    Client(SharedClient),
    Cursor(Cursor),
    Note(Vec<Note>),
}

// What a handle keeps may go to another thread.
fn may_cross<T: Send>(value: T) -> T {
    value
}

impl Kept {
    ghost use Rattle.std.specs.Prelude.{◌≡◌, ◌↔◌, true};
    ghost use Rattle.seghandles.specs.Ending.{AreAllBack, is_cache, is_cursor};
    ghost use Rattle.seghandles.specs.Noting.{is_note};

    /// Whether it is a note.
    pub(crate) fn is_note(&self) -> bool
        ensures { result ≡ is_note self.now }
    {
        matches!(self, Kept::Note(_))
    }

    /// Whether it is a cache.
    pub(crate) fn is_cache(&self) -> bool
        ensures { result ≡ is_cache self.now }
    {
        matches!(self, Kept::Cache(_))
    }

    /// Whether it is a cache with all its clients back.
    pub(crate) fn has_all_back(&self) -> bool
        ensures { result ≡ true ↔ AreAllBack self.now }
    {
        match self {
            Kept::Cache(cache) => cache.has_all(),
            Kept::Client(_) | Kept::Cursor(_) | Kept::Note(_) => false,
        }
    }

    /// Whether it is a cursor.
    pub(crate) fn is_cursor(&self) -> bool
        ensures { result ≡ is_cursor self.now }
    {
        matches!(self, Kept::Cursor(_))
    }

    // C may hand a handle to another thread.
    pub(crate) fn crossing(self) -> Kept {
        may_cross(self)
    }
}
