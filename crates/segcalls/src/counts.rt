//! How often each word was told.
use crate::told::WORDS;
use std::alloc::{AllocError, Global};

/// A count for each of the words.
#[derive(Clone, Copy)]
pub struct Counts {
    counts: [u32; WORDS.len()],
}

impl Counts {
    pub fn new() -> Counts {
        Counts {
            counts: [0; WORDS.len()],
        }
    }

    pub fn add(&mut self, told: &str) {
        for (count, word) in self.counts.iter_mut().zip(WORDS.iter()) {
            if *word == told {
                *count = count.saturating_add(1);
            }
        }
    }

    /// The words that were told, each with its count.
    pub fn text(&self, alloc: Global) -> Result<String, AllocError> {
        let mut text = String::new(alloc);
        for (count, word) in self.counts.iter().zip(WORDS.iter()) {
            if *count > 0 {
                if !text.is_empty() {
                    text.push_str(" ")?;
                }
                write!(text, "{word} {count}")?;
            }
        }
        Ok(text)
    }
}
