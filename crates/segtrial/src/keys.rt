//! Keys that are hard to distinguish: their tags are the same, and many of them share a bucket.
//! And values that show whether they were read as a whole: a number, repeated one to eight times.
use segword::{Key, Value, bucket_of, hash, tag_of};
use std::alloc::{AllocError, Global};
use std::fmt;
use std::fmt::{Display, Formatter, Write};

/// How many buckets there are.
pub const BUCKETS: u32 = 4;

/// How many keys each bucket has. They need more words than one bucket has.
pub const EACH: usize = 9;

/// The tag of all keys.
const TAG: u16 = 1;

/// How many numbers are tried as keys.
const TRIES: u32 = 1 << 24;

/// The number of what is no such value. No value of this number is stored.
const TORN: u32 = 0;

/// A key, by the number of its bucket and its own number there.
#[derive(Clone, Copy)]
pub struct Place {
    pub bucket: usize,
    key: usize,
}

impl Place {
    /// The place of a key by its number among all keys.
    pub fn of_number(number: usize) -> Place {
        Place {
            bucket: number / EACH,
            key: number % EACH,
        }
    }

    /// The number among all keys.
    pub fn number(self) -> usize {
        self.bucket.saturating_mul(EACH).saturating_add(self.key)
    }
}

impl Display for Place {
    fn fmt<W: Write>(&self, f: &mut Formatter<W>) -> fmt::Result {
        write!(f, "{} {}", self.bucket, self.key)
    }
}

/// The keys of bucket 0, then those of bucket 1, and so on: `EACH` of each.
pub fn colliding_keys(alloc: Global) -> Result<Vec<Key>, AllocError> {
    let mut keys = Vec::new(alloc);
    for bucket in 0..BUCKETS {
        push_keys_of(bucket, &mut keys)?;
    }
    Ok(keys)
}

fn push_keys_of(bucket: u32, keys: &mut Vec<Key>) -> Result<(), AllocError> {
    let mut missing = EACH;
    for number in 0..TRIES {
        let Some(key) = Key::new(&number.to_le_bytes()) else {
            continue;
        };
        let hash = hash(&key);
        if tag_of(hash) == TAG && bucket_of(hash, BUCKETS) == bucket {
            keys.push(key)?;
            missing = missing.saturating_sub(1);
        }
        if missing == 0 {
            break;
        }
    }
    Ok(())
}

/// The value of a number.
pub fn value_of(number: u32) -> Option<Value> {
    let mut bytes = [0u8; 32];
    for (place, byte) in bytes.iter_mut().enumerate() {
        *byte = number.to_le_bytes()[place % 4];
    }
    let repeats = (number % 8) as usize;
    Value::new(&bytes[..4 * repeats + 4])
}

/// The number of a value, or `TORN` if it is no value of a number.
pub fn number_of(value: &Value) -> u32 {
    let Some(bytes) = value.as_bytes().first_chunk::<4>() else {
        return TORN;
    };
    let number = u32::from_le_bytes(*bytes);
    match value_of(number) {
        Some(whole) if whole == *value => number,
        _ => TORN,
    }
}
