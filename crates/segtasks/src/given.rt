//! The words that std returns, as the program reads them.
ghost use Rattle.std.specs.Prelude.{◌≡◌, drop, IfOk};
ghost use Rattle.std.specs.IoError.{error_kind};
ghost use Rattle.std.specs.Vec.Iter.{into_iter_items};
ghost use Rattle.segtasks.specs.Given.{AreGiven, refusal_of_words};

use crate::arguments::Refusal;
use std::alloc::{AllocError, Global};
use std::env::Args;
use std::io;
use std::io::ErrorKind;

/// The words that std returns, but for the first, which is the program's name.
/// Std returns none if one of them isn't UTF-8: `BadArguments`.
pub fn words_given(alloc: Global, given: io::Result<Args>) -> Result<Vec<String>, Refusal>
    ensures { AreGiven given result }
{
    match given {
        Ok(given) => Ok(words_of(alloc, given)?),
        Err(error) => Err(refusal_of_words(&error)),
    }
}

// The words behind the program's name.
fn words_of(alloc: Global, given: Args) -> Result<Vec<String>, AllocError>
    ensures { IfOk result (λ words. words.items ≡ drop 1 (into_iter_items given)) }
{
    let mut words = Vec::new(alloc);
    let mut rest = given;
    if rest.next().is_none() {
        return Ok(words);
    }
    while let Some(word) = rest.next() {
        words.push(word)?;
    }
    Ok(words)
}

// Why std returns no words.
fn refusal_of_words(error: &io::Error) -> Refusal
    ensures { result ≡ refusal_of_words (error_kind error.now) }
{
    match error.kind() {
        ErrorKind::OutOfMemory => Refusal::OutOfMemory,
        _ => Refusal::BadArguments,
    }
}
