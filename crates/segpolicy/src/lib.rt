//! What a cache decides by counting and by chance: how the frequency of an item grows, which number
//! of a ring is next, and what the commands of a load are.
#![tactic(auto)]

mod frequency;
mod load;
mod ring;
mod workload;

pub use frequency::next_frequency;
pub use load::{Kind, Load};
pub use ring::{Ring, each_number_comes_once};
pub use workload::Workload;
