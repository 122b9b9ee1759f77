//! How many runs of a test were refused memory.
use crate::hoard::RUNS;
use std::process::Abort;

/// Checks that some runs were refused memory, and not all.
pub fn check_refused(rt: &impl Abort, refused: usize) {
    assert!(rt; 0 < refused && refused < RUNS, "{refused} refusals");
}
