//! Values as texts, and those that go into a buffer.
use crate::asked::{Asked, key_of};
use segclient::{Client, GetAnswer, GetsAnswer, GetsIntoAnswer, IntoAnswer};
use std::alloc::{AllocError, Global};

/// How many bytes a buffer has: more than the longest value, as short and as long values can be.
pub const ROOM: usize = 4_072;

// What each byte of a buffer is at first. No value of `long_bytes` has it.
const BEFORE: u8 = 255;

/// Bytes that tell by each other where they stand, up to this length, and others behind it.
pub fn long_bytes(length: u32) -> [u8; ROOM] {
    let mut bytes = [BEFORE; ROOM];
    for (place, byte) in bytes.iter_mut().enumerate() {
        if place < length as usize {
            *byte = (place % 251) as u8;
        }
    }
    bytes
}

/// Bytes as two digits each.
pub fn hex(alloc: Global, bytes: &[u8]) -> Result<String, AllocError> {
    let mut text = String::new(alloc);
    for byte in bytes {
        write!(text, "{byte:02x}")?;
    }
    Ok(text)
}

// The first number that is asked for.
fn first(alloc: Global, asked: &Asked<'_>) -> Result<u32, AllocError> {
    Ok(asked.numbers(alloc)?.first().copied().unwrap_or(0))
}

/// What reads the value of a number.
pub fn value_text(
    alloc: Global,
    client: &mut Client<'_>,
    asked: &Asked<'_>,
) -> Result<String, AllocError> {
    let Some(key) = key_of(first(alloc, asked)?) else {
        return format!(in alloc; "NO_KEY");
    };
    match asked.name {
        "value" => match client.get(&key) {
            GetAnswer::Found(value) => {
                let bytes = hex(alloc, value.as_bytes())?;
                format!(in alloc; "FOUND {bytes}")
            }
            GetAnswer::Miss => format!(in alloc; "MISS"),
            GetAnswer::Busy => format!(in alloc; "BUSY"),
        },
        "gets" => match client.gets(&key) {
            GetsAnswer::Found(value, version) => {
                let bytes = hex(alloc, value.as_bytes())?;
                format!(in alloc; "FOUND {bytes} {version}")
            }
            GetsAnswer::Miss => format!(in alloc; "MISS"),
            GetsAnswer::Busy => format!(in alloc; "BUSY"),
        },
        _ => into_text(alloc, client, asked, &key),
    }
}

// What a read tells that goes into the first bytes of a buffer, and what is in the buffer: as much as was asked for,
// and eight bytes more.
fn into_text(
    alloc: Global,
    client: &mut Client<'_>,
    asked: &Asked<'_>,
    key: &segclient::Key,
) -> Result<String, AllocError> {
    let room = asked.number("room").unwrap_or(0) as usize;
    let mut buffer = [BEFORE; ROOM];
    let part = &mut buffer[..room.min(ROOM)];
    let told = if asked.name == "get_into" {
        told_into(alloc, client.get_into(key, part))?
    } else {
        told_gets_into(alloc, client.gets_into(key, part))?
    };
    let shown = hex(alloc, &buffer[..room.saturating_add(8).min(ROOM)])?;
    format!(in alloc; "{told} {shown}")
}

fn told_into(alloc: Global, told: IntoAnswer) -> Result<String, AllocError> {
    match told {
        IntoAnswer::Found(length) => format!(in alloc; "FOUND {length}"),
        IntoAnswer::Short(length) => format!(in alloc; "SHORT {length}"),
        IntoAnswer::Miss => format!(in alloc; "MISS"),
        IntoAnswer::Busy => format!(in alloc; "BUSY"),
    }
}

fn told_gets_into(alloc: Global, told: GetsIntoAnswer) -> Result<String, AllocError> {
    match told {
        GetsIntoAnswer::Found(length, version) => format!(in alloc; "FOUND {length} {version}"),
        GetsIntoAnswer::Short(length, version) => format!(in alloc; "SHORT {length} {version}"),
        GetsIntoAnswer::Miss => format!(in alloc; "MISS"),
        GetsIntoAnswer::Busy => format!(in alloc; "BUSY"),
    }
}
