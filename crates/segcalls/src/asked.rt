//! A line of input: who makes which call, and with what.
use segclient::Key;
use std::alloc::{AllocError, Global};

/// The words of a line, as `c1 put 0..112 7 for=6400`: client 1 puts the numbers below 112, and 7.
/// A line without a client is of the first one, or of none.
#[derive(Clone, Copy)]
pub struct Asked<'l> {
    pub who: usize,
    pub name: &'l str,
    pub with: &'l str,
}

impl<'l> Asked<'l> {
    pub fn new(line: &'l str) -> Asked<'l> {
        let (first, rest) = in_two(line);
        match client_of(first) {
            Some(who) => {
                let (name, with) = in_two(rest);
                Asked { who, name, with }
            }
            None => Asked {
                who: 0,
                name: first,
                with: rest,
            },
        }
    }

    /// The word behind `name=`, if there is one.
    pub fn word(&self, name: &str) -> Option<&'l str> {
        if !self.with.contains('=') {
            return None;
        }
        for word in self.with.split(' ') {
            if let Some((before, after)) = word.split_once('=') {
                if before == name {
                    return Some(after);
                }
            }
        }
        None
    }

    /// The number behind `name=`, if there is one.
    pub fn number(&self, name: &str) -> Option<u32> {
        self.word(name)?.parse::<u32>().ok()
    }

    /// Numbers and ranges of them, in their order.
    pub fn numbers(&self, alloc: Global) -> Result<Vec<u32>, AllocError> {
        let mut numbers = Vec::new(alloc);
        for word in self.with.split(' ') {
            if let Some((first, end)) = range_of(word) {
                for number in first..end {
                    numbers.push(number)?;
                }
            }
        }
        Ok(numbers)
    }
}

/// How calls are made, by the words that have a `=`.
#[derive(Clone, Copy)]
pub struct How<'l> {
    /// The time to live of a put.
    pub time: Option<u32>,
    /// How often each number is read right after.
    pub reads: u32,
    /// How long a value is.
    pub bytes: Option<u32>,
    /// The number that is a value, where it isn't the key's.
    pub value: Option<u32>,
    /// The version that a cas expects.
    pub version: Option<u32>,
    /// The call by which a store is made.
    pub by: &'l str,
}

impl<'l> How<'l> {
    pub fn new(asked: &Asked<'l>) -> How<'l> {
        How {
            time: asked.number("for"),
            reads: asked.number("read").unwrap_or(0),
            bytes: asked.number("bytes"),
            value: asked.number("value"),
            version: asked.number("version"),
            by: asked.word("by").unwrap_or("set"),
        }
    }
}

/// The key of a number: its four bytes, the lowest first.
pub fn key_of(number: u32) -> Option<Key> {
    Key::new(&number.to_le_bytes())
}

// The first word, and the others.
fn in_two(line: &str) -> (&str, &str) {
    match line.split_once(' ') {
        Some(both) => both,
        None => (line, ""),
    }
}

// The number of a client, as of `c1`.
fn client_of(word: &str) -> Option<usize> {
    word.strip_prefix('c')?.parse::<usize>().ok()
}

// The range of a word: of `3..5`, or of a number alone.
fn range_of(word: &str) -> Option<(u32, u32)> {
    match word.split_once("..") {
        Some((first, end)) => Some((first.parse::<u32>().ok()?, end.parse::<u32>().ok()?)),
        None => {
            let number = word.parse::<u32>().ok()?;
            Some((number, number.checked_add(1)?))
        }
    }
}
