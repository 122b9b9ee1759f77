//! What a load, a replay and a word are asked for with.
use segtraces::{Form, Retention};
use segword::Shape;
use std::num::NonZeroU32;

/// In which form the totals of a load are written.
#[derive(Clone, Copy, Debug, PartialEq, Eq)]
pub enum Format {
    /// A line for each pass, and one for all.
    Text,
    /// One JSON object, on one line.
    Json,
}

/// A load over an index of this shape.
#[derive(Clone, Copy, Debug)]
pub struct LoadTask {
    pub shape: Shape,
    /// The number from which the commands are drawn.
    pub seed: u64,
    /// How many commands each pass makes.
    pub commands: u32,
    /// Over how many keys.
    pub keys: NonZeroU32,
    pub format: Format,
    /// Whether a watch is called with the totals at the load's end.
    pub stats: bool,
    /// Whether a watch looks on.
    pub progress: bool,
    /// Whether the fault of a bad shape is explained.
    pub explain: bool,
}

/// The policies that a replay compares.
#[derive(Clone, Copy, Debug, PartialEq, Eq)]
pub enum Policies {
    One(Retention),
    All,
}

/// A replay of a trace through caches of this shape, or of parts of it.
#[derive(Clone, Copy, Debug)]
pub struct Replay<'a> {
    pub shape: Shape,
    /// The file of the trace. Who calls the program opens it.
    pub file: Option<&'a str>,
    pub form: Form,
    /// How many bytes each value has.
    pub value_bytes: u32,
    /// How many commands are left out of the counts.
    pub warm: u64,
    pub policies: Policies,
    /// Whether smaller caches are compared with one of this shape.
    pub sizes: bool,
    pub format: Format,
    /// Whether a watch looks on.
    pub progress: bool,
    /// Whether the fault of a bad line or a bad shape is explained.
    pub explain: bool,
}

/// Which words of the table a word is one of.
#[derive(Clone, Copy, Debug, PartialEq, Eq)]
pub enum WordKind {
    /// Words 1 to 7 of a bucket.
    Item,
    /// The first word of a bucket.
    Information,
    /// The word of a segment.
    Segment,
}

/// A word of the table that is to be explained.
#[derive(Clone, Copy, Debug)]
pub struct Word<'a> {
    /// Its hexadecimal digits.
    pub text: &'a str,
    pub kind: WordKind,
    /// Whether a bad one is explained.
    pub explain: bool,
}
