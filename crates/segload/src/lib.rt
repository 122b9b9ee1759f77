//! A load: each pass of an index makes its own commands, on a thread of its own.
//! The load counts how the commands were answered.
#![tactic(auto)]

mod client;
mod fault;
mod gate;
mod laws;
mod load;
mod plan;
mod totals;
mod worker;

pub use fault::LoadFault;
pub use gate::{Gate, OpenGate};
pub use laws::one_pass_is_modelled;
pub use load::{run_crowd, run_load};
pub use totals::{PassTotals, Recycled, Tallies, Totals};
