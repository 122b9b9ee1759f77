//! Short lines of text, put together on the stack.
ghost use Rattle.std.specs.Prelude.{◌≡◌, ◌+◌, ◌≤◌, ◌++◌, length};
ghost use Rattle.arrayvec.specs.ArrayVec.{array_vec_len};

use crate::limits::REPLY_BYTES;
use arrayvec::ArrayVec;
use itoa::{Buffer, Integer};

/// A line of at most `REPLY_BYTES` bytes.
pub type Line = ArrayVec<u8, REPLY_BYTES>;

/// A line of these bytes.
pub fn line_of(bytes: &[u8]) -> Line
    requires { length bytes.now ≤ REPLY_BYTES }
    ensures text { result.items ≡ bytes.now }
    ensures len { array_vec_len result ≡ length bytes.now }
{
    let mut text = ArrayVec::new();
    put(&mut text, bytes);
    text
}

/// Puts bytes at the end of the line.
pub fn put(text: &mut Line, bytes: &[u8])
    requires { array_vec_len text.old + length bytes.now ≤ REPLY_BYTES }
    ensures text { text.new.items ≡ text.old.items ++ bytes.now }
    ensures len { array_vec_len text.new ≡ array_vec_len text.old + length bytes.now }
{
    let _ = text.try_extend_from_slice(bytes);
}

/// Puts the decimal digits of a number at the end of the line.
pub fn put_number<I: Integer>(text: &mut Line, number: I)
    requires { array_vec_len text.old + I.MAX_STR_LEN ≤ REPLY_BYTES }
    ensures text { text.new.items ≡ text.old.items ++ I.text number }
    ensures room { array_vec_len text.new ≤ array_vec_len text.old + I.MAX_STR_LEN }
{
    let mut buffer = Buffer::new();
    put(text, buffer.format(number).as_bytes());
}
