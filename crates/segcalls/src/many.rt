//! Gets of several keys at a time.
use crate::asked::{Asked, key_of};
use crate::into::hex;
use segclient::{Client, GetAnswer, GetsAnswer, Key};
use std::alloc::{AllocError, Global};

// The keys of the numbers that are asked for.
fn keys_of(alloc: Global, asked: &Asked<'_>) -> Result<Vec<Key>, AllocError> {
    let mut keys = Vec::new(alloc);
    for number in asked.numbers(alloc)? {
        if let Some(key) = key_of(number) {
            keys.push(key)?;
        }
    }
    Ok(keys)
}

/// The value of each key, or `-` where it has none.
pub fn get_many(
    alloc: Global,
    client: &mut Client<'_>,
    asked: &Asked<'_>,
) -> Result<String, AllocError> {
    let keys = keys_of(alloc, asked)?;
    let mut answers = Vec::new(alloc);
    for _ in 0..keys.len() {
        answers.push(GetAnswer::Busy)?;
    }
    if answers.len() == keys.len() {
        client.get_many(keys.as_slice(), answers.as_mut_slice());
    }
    let mut text = format!(in alloc; "GOT")?;
    for answer in answers.iter() {
        match answer {
            GetAnswer::Found(value) => {
                let bytes = hex(alloc, value.as_bytes())?;
                write!(text, " {bytes}")?;
            }
            GetAnswer::Miss => text.push_str(" -")?,
            GetAnswer::Busy => text.push_str(" BUSY")?,
        }
    }
    Ok(text)
}

/// The value of each key with its version, or `-` where it has none.
pub fn gets_many(
    alloc: Global,
    client: &mut Client<'_>,
    asked: &Asked<'_>,
) -> Result<String, AllocError> {
    let keys = keys_of(alloc, asked)?;
    let mut answers = Vec::new(alloc);
    for _ in 0..keys.len() {
        answers.push(GetsAnswer::Busy)?;
    }
    if answers.len() == keys.len() {
        client.gets_many(keys.as_slice(), answers.as_mut_slice());
    }
    let mut text = format!(in alloc; "GOT")?;
    for answer in answers.iter() {
        match answer {
            GetsAnswer::Found(value, version) => {
                let bytes = hex(alloc, value.as_bytes())?;
                write!(text, " {bytes}@{version}")?;
            }
            GetsAnswer::Miss => text.push_str(" -")?,
            GetsAnswer::Busy => text.push_str(" BUSY")?,
        }
    }
    Ok(text)
}

pub fn look_ahead(
    alloc: Global,
    client: &mut Client<'_>,
    asked: &Asked<'_>,
) -> Result<String, AllocError> {
    let keys = keys_of(alloc, asked)?;
    client.look_ahead(keys.as_slice());
    format!(in alloc; "OK")
}
