//! The most bytes of lines and of replies. They follow from those of keys and values.

use segword::{KEY_BYTES, VALUE_BYTES};

/// The most bytes of a line. No line that spells a turn has more (`lines_fit`).
pub const LINE_BYTES: usize = KEY_BYTES + VALUE_BYTES + 72;

/// So many bytes of a line tell its fault.
pub(crate) const KEPT_BYTES: usize = LINE_BYTES + 1;

/// The most bytes of a reply: a value, with a word before it and a number behind it.
pub const REPLY_BYTES: usize = VALUE_BYTES + 32;
