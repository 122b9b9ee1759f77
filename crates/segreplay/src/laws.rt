//! Laws of traces, beside the contracts of the calls.
//! This function does nothing: its contract is the theorem.
ghost use Rattle.segreplay.specs.Laws.{BytesSayTheTurns, FaultedIsABeginning, HeadedIsRead};
ghost use Rattle.segreplay.specs.Laws.{WrittenIsRead};

/// How a trace is read, but for other ways to write a line, and which line is bad.
/// A trace whose lines write commands, by the words and the decimal numbers of their columns,
/// and that is read to its end, has just these commands, in their order.
/// So has one of lines with commas whose first line is a header.
/// The bytes of any trace that is read to its end determine its commands.
/// The commands of one that ends with a fault are the first of those that it has with whatever
/// follows.
pub fn traces_are_read()
    ensures written { WrittenIsRead }
    ensures headed { HeadedIsRead }
    ensures whole { BytesSayTheTurns }
    ensures faulted { FaultedIsABeginning }
{}
