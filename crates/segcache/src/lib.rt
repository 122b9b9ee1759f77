//! The cache for C: exports on numbers, byte slices and handles, over clients that share the indexes
//! of a cache, the shards.
//! An export is the call of `seghandles` that has its name, by the same contract. It returns a status's number.
#![tactic(auto)]

mod closing;
mod holding;
mod listing;
mod many;
mod notes;
mod opening;
mod reading;
mod settings;
mod version;
mod writing;
