//! The line that is read, of which each byte comes on its own.
ghost use Rattle.std.specs.Prelude.{◌≡◌, ◌≤◌, ◌==◌, [], length};
ghost use Rattle.segtext.specs.LineBuffers.{TakesByte};

use arrayvec::ArrayVec;
use std::marker::Model;

/// What became of a byte.
#[derive(Clone, Copy, Debug, PartialEq, Eq)]
pub enum Taken {
    /// It is the end of the line.
    End,
    /// It stands behind the others.
    Kept,
    /// The line has no room for it.
    NoRoom,
}

/// The first bytes of the line that has no end yet, at most `MOST`.
/// Contracts see it as the list of these bytes.
#[derive(Drop)]
pub struct LineBuffer<const MOST: usize> {
    bytes: ArrayVec<u8, MOST>,
}

impl<const MOST: usize> Model for LineBuffer<MOST> {
    ghost use Rattle.std.specs.Prelude.{ℕ, List};

    ghost Value = { List ℕ };

    ghost view = { λ line. line.bytes.items };
}

impl<const MOST: usize> LineBuffer<MOST> {
    /// A line of which no byte has come.
    pub fn new() -> LineBuffer<MOST>
        ensures { result ≡ [] }
    {
        LineBuffer {
            bytes: ArrayVec::new(),
        }
    }

    /// Whether no byte of the line has come.
    pub fn is_empty(&self) -> bool
        ensures { result ≡ (length self.now == 0) }
    {
        self.bytes.is_empty()
    }

    /// The bytes.
    pub fn as_slice(&self) -> &[u8]
        ensures value { result.now ≡ self.now }
        ensures most { length result.now ≤ MOST }
    {
        self.bytes.as_slice()
    }

    /// Takes the next byte.
    pub fn take(&mut self, byte: u8) -> Taken
        ensures { TakesByte MOST byte self.old self.new result }
    {
        if byte == b'\n' {
            return Taken::End;
        }
        if self.bytes.is_full() {
            return Taken::NoRoom;
        }
        self.bytes.push(byte);
        Taken::Kept
    }

    /// Begins the next line.
    pub fn clear(&mut self)
        ensures { self.new ≡ [] }
    {
        self.bytes.clear();
    }
}
