//! Numbers at random, the same for the same seed, and what is made of them.
use crate::keys::{BUCKETS, EACH, Place};
use rand_core::utils::NextWord;
use rand_pcg::Lcg64Xsh32;
use segmodel::{Command, Request};
use segword::{Key, Shape, Value};

/// Buckets begin with one of so many highest versions. From the highest number the next is 0.
const VERSIONS: u32 = 200;

/// Moments are below this number.
pub const MOMENTS: u32 = 16;

/// The draws of a pass.
#[derive(Drop)]
pub struct Draws {
    generator: Lcg64Xsh32,
    pass: u32,
    /// How many values were drawn.
    values: u32,
}

impl Draws {
    pub fn new(seed: u64, pass: u32) -> Draws {
        Draws {
            generator: Lcg64Xsh32::new(seed, u64::from(pass)),
            pass,
            values: 0,
        }
    }

    /// A number below a bound.
    pub fn below(&mut self, bound: u32) -> u32 {
        self.generator.next_word() % bound.max(1)
    }

    /// The shape of an index with so many passes. Chains can grow, but mostly not all of them,
    /// and segments are soon full. A put of a client evicts few keys, so that it is soon seen which.
    pub fn shape(&mut self, passes: u32, has_clients: bool) -> Shape {
        Shape {
            buckets: BUCKETS,
            overflow: self.below(BUCKETS + 1),
            passes,
            segments_each: self.below(3).saturating_add(2),
            rows: if has_clients {
                self.below(3).saturating_add(2)
            } else {
                2u32.wrapping_shl(self.below(4))
            },
            first_version: self.below(VERSIONS).wrapping_sub(VERSIONS),
        }
    }

    /// From which frequency on items are kept. From 0 or 1 on that is every item.
    pub fn cutoff(&mut self) -> u8 {
        self.below(4).min(3) as u8
    }

    /// The place of a key.
    pub fn place(&mut self) -> Place {
        Place::of_number(self.below(BUCKETS * EACH as u32) as usize)
    }

    pub fn moment(&mut self) -> u32 {
        self.below(MOMENTS)
    }

    /// Half of the deadlines are one that comes after every moment, and a quarter are one in their middle:
    /// an item moves only between segments with one deadline.
    pub fn deadline(&mut self) -> u32 {
        match self.below(4) {
            0 | 1 => MOMENTS,
            2 => MOMENTS / 2,
            _ => self.moment().max(1),
        }
    }

    /// The number of a value that no other store has.
    pub fn value(&mut self) -> u32 {
        self.values = self.values.wrapping_add(1);
        self.pass << 24 | self.values & 0xff_ffff
    }

    /// A command on a key. A cas expects the version.
    pub fn command(&mut self, key: Key, value: Value, version: u32) -> Command {
        let now = self.moment();
        Command::Write(match self.below(32) {
            0..=5 => Request::Set(key, value, now),
            6..=8 => Request::Add(key, value, now),
            9..=11 => Request::Replace(key, value, now),
            12..=14 => Request::Cas(key, value, version, now),
            15..=17 => Request::Delete(key, now),
            18..=23 => return Command::Gets(key, now),
            _ => return Command::Get(key, now),
        })
    }
}
