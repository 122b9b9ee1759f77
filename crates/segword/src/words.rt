//! Bytes as words and back, eight bytes to a word, the first the lowest.
ghost use Rattle.std.specs.Prelude.{◌≡◌, ◌+◌, ◌*◌, ◌-◌, ◌<◌, ◌≤◌, ◌↔◌, IsTrue, length, take, drop};
ghost use Rattle.segword.specs.Row.{word_of, word_at, bytes_of};
ghost use Rattle.segword.specs.RowLayout.{IsZeroFrom};

// The word of the eight bytes from `from` on, or of as many as there are.
#[inline(always)]
pub(crate) fn word_at(bytes: &[u8], from: usize) -> u64
    ensures { result ≡ word_at bytes.now from }
{
    if bytes.len() <= from {
        return 0;
    }
    let rest = &bytes[from..];
    match rest.first_chunk() {
        Some(chunk) => u64::from_le_bytes(*chunk),
        None => short_word(rest),
    }
}

// The word of fewer than eight bytes.
// If they are four or more (or two or more), the last four (or two) are shifted
// until only what stands behind the first four (or two) is left.
#[inline(always)]
fn short_word(bytes: &[u8]) -> u64
    requires { length bytes.now < 8 }
    ensures { result ≡ word_of bytes.now }
{
    let len = bytes.len();
    if len >= 4 {
        let (first, last) = ends(bytes);
        let behind = u64::from(u32::from_le_bytes(last)) >> (8 * (8 - len));
        behind << 32 | u64::from(u32::from_le_bytes(first))
    } else if len >= 2 {
        let (first, last) = ends(bytes);
        let behind = u64::from(u16::from_le_bytes(last)) >> (8 * (4 - len));
        behind << 16 | u64::from(u16::from_le_bytes(first))
    } else {
        bytes.first().map_or(0, |byte| u64::from(*byte))
    }
}

// The first and the last `N` of these bytes.
#[inline(always)]
fn ends<const N: usize>(bytes: &[u8]) -> ([u8; N], [u8; N])
    requires { N ≤ length bytes.now }
    ensures first { result.0 ≡ take N bytes.now }
    ensures last { result.1 ≡ drop (length bytes.now - N) bytes.now }
{
    let first = bytes.first_chunk().unwrap();
    let last = bytes.last_chunk().unwrap();
    (*first, *last)
}

// The bytes of these words.
#[inline(always)]
pub(crate) fn bytes_of<const N: usize>(words: &[u64]) -> [u8; N]
    requires { 8 * length words.now ≡ N }
    ensures { result ≡ bytes_of words.now N }
{
    let mut bytes = [0; N];
    let all = &mut bytes[..];
    for (i, word) in words.iter().enumerate() {
        all[8 * i..8 * i + 8].copy_from_slice(&word.to_le_bytes());
    }
    bytes
}

// Whether the bytes of these words are 0 from a place on.
pub(crate) fn is_zero_from(words: &[u64], from: usize) -> bool
    ensures { IsTrue result ↔ IsZeroFrom words.now from }
{
    for (i, word) in words.iter().enumerate() {
        let kept = from.saturating_sub(8 * i);
        if kept < 8 && word >> (8 * kept) != 0 {
            return false;
        }
    }
    true
}
