//! What the program is asked to do.
use crate::asked::{LoadTask, Replay, Word};
use segword::Shape;

/// What the program is asked to do.
#[derive(Debug, Drop)]
pub enum Task<'a> {
    /// Runs the script of the reader over an index of this shape.
    /// If `explain` is true, the fault of a bad shape is explained.
    /// Who calls the program opens the file, and explains a bad line.
    Script {
        shape: Shape,
        explain: bool,
        file: Option<&'a str>,
    },
    /// Runs a load.
    Load(LoadTask),
    /// Replays the trace of the reader.
    Replay(Replay<'a>),
    /// Explains a word of the table.
    Word(Word<'a>),
    /// Prints a text, as help.
    Show(String),
}
