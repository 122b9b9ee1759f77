//! What the program reads, and where it writes and prints.

/// The reader of a script or of a trace, the writer of what is asked for, and the writer of faults.
#[derive(Drop)]
pub struct Streams<S, W, E> {
    pub source: S,
    pub writer: W,
    pub errors: E,
}
