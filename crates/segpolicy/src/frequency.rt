//! How the frequency of an item grows with its hits.
ghost use Rattle.std.specs.Prelude.{◌≡◌, ◌+◌, ◌≤◌};
ghost use Rattle.segpolicy.specs.Frequency.{frequency_after_hit};

/// The frequency of an item after a hit, by Segcache's approximate counter of 8 bits.
///
/// A new item has 1.
/// Below 16 each hit counts. From 16 to 254 a hit counts if the frequency divides the draw, which
/// for a random draw is one hit in `frequency`. 255 stays.
pub fn next_frequency(frequency: u8, draw: u32) -> u8
    ensures value { result ≡ frequency_after_hit frequency draw }
    ensures never_falls { frequency ≤ result }
    ensures at_most_one_more { result ≤ frequency + 1 }
{
    match frequency {
        0..=15 => frequency + 1,
        16..=254 if draw % u32::from(frequency) == 0 => frequency + 1,
        _ => frequency,
    }
}
