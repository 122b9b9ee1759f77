//! Numbers in decimal digits.
ghost use Rattle.std.specs.Prelude.{◌≡◌, ◌<◌, ◌≤◌, ◌^◌, IfSome};
ghost use Rattle.segtext.specs.Digits.{number_below};

/// The number that decimal digits write, if it is below this limit.
/// Zeros in front count for nothing.
pub fn number_below(digits: &[u8], limit: u64) -> Option<u64>
    requires limit { (0 < limit) × (limit ≤ 2 ^ 60) }
    ensures number { result ≡ number_below limit digits.now }
    ensures below { IfSome result (λ number. number < limit) }
{
    if digits.is_empty() {
        return None;
    }
    let mut number: u64 = 0;
    for byte in digits {
        if !byte.is_ascii_digit() {
            return None;
        }
        let next = number * 10 + u64::from(*byte - b'0');
        if next >= limit {
            return None;
        }
        number = next;
    }
    Some(number)
}
