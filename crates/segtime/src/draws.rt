//! Numbers at random, and the keys that they draw: all alike, or by Zipf's law.
use std::alloc::{AllocError, Global};

/// A linear congruential generator.
#[derive(Clone, Copy)]
pub struct Generator {
    pub state: u32,
}

impl Generator {
    /// The next number, of 24 bits.
    pub fn next(&mut self) -> u32 {
        self.state = self
            .state
            .wrapping_mul(1_664_525)
            .wrapping_add(1_013_904_223);
        self.state >> 8
    }
}

/// How often each key comes. With Zipf's law key 0 comes the most often.
#[derive(Drop)]
pub struct Draws {
    keys: u32,
    /// For each key the weights of all keys up to it, added up. None where all keys come alike.
    sums: Vec<u64>,
}

impl Draws {
    /// By Zipf's law with the exponent 0.99, or all keys alike.
    ///
    /// The weight of rank i + 1 is that of rank i times (100 i + 1) / (100 (i + 1)), for i from 1.
    /// That is i^-0.99 up to a factor which lies within one in a hundred of a constant.
    pub fn new(alloc: Global, keys: u32, is_zipf: bool) -> Result<Draws, AllocError> {
        let mut sums = Vec::new(alloc);
        let mut weight = 1u64 << 48;
        let mut sum = 0u64;
        for number in 0..if is_zipf { keys } else { 0 } {
            let rank = u64::from(number).saturating_add(1);
            sum = sum.saturating_add(weight);
            sums.push(sum)?;
            let above = rank.saturating_mul(100).saturating_add(1);
            let below = rank.saturating_add(1).saturating_mul(100).max(1);
            weight = weight.saturating_mul(above) / below;
        }
        Ok(Draws { keys, sums })
    }

    /// The number of a key, drawn from one number at random if all keys come alike, and else from two.
    pub fn key(&self, generator: &mut Generator) -> u32 {
        let first = generator.next();
        let Some(total) = self.sums.last() else {
            return first % self.keys.max(1);
        };
        let point = u128::from(u64::from(first) << 24 | u64::from(generator.next()));
        let target = point.wrapping_mul(u128::from(*total)) >> 48;
        let place = self.sums.partition_point(|sum| u128::from(*sum) <= target);
        u32::try_from(place).unwrap_or(0)
    }
}
