//! Tests that the calls and types that were asked for, from words to loads, keep their names and
//! forms, also where nothing else uses them. What is in this crate isn't dead code. A call that is
//! renamed, or whose arguments or result change, doesn't compile here; neither does an enum with a
//! variant more or fewer. Tests of the command line call `run_program`.
#![tactic(auto)]

#[cfg(test)]
mod answers;
#[cfg(test)]
mod calls;
#[cfg(test)]
mod rows;
#[cfg(test)]
mod runs;
#[cfg(test)]
mod same;
#[cfg(test)]
mod steps;
#[cfg(test)]
mod words;
