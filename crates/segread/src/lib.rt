//! Readers: values, values with their version, and holds,
//! each found along the key's chain without any bit.
#![tactic(auto)]

mod held;
mod hit;
mod into;
mod limits;
mod scan;
mod version;

pub use held::{
    HeldRow, Hold, HoldAnswer, RowAnswer, hold_item, hold_row, hold_stays, release, release_row,
};
pub use into::{GetsIntoAnswer, IntoAnswer, get_into, gets_into, held_into, row_into};
pub use limits::never_short;
