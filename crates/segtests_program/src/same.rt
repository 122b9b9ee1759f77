//! What a test found beside what it wants.
use std::fmt::Debug;
use std::process::Abort;

/// Checks that both are the same.
/// An assertion costs the proof of a test ten times as much as this call.
pub fn same<T: PartialEq + Debug>(rt: &impl Abort, found: &T, wanted: &T) {
    assert_eq!(rt; found, wanted);
}
