//! The lone pass: an index with one pass serves each command as the cache of one thread does.
#![tactic(auto)]

mod laws;
mod solo;

pub use laws::one_pass_is_served;
pub use solo::Solo;
