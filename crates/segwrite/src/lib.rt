//! Writers: values stored and keys taken out, each under the bit of its key's bucket.
#![tactic(auto)]

mod condition;
mod find;
mod grow;
mod removal;
mod spans;
mod writing;

pub use condition::Condition;
pub use find::Target;
pub use removal::{clear, delete};
pub use writing::write;
