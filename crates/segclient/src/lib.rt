//! A cache for those who want one and not its parts: a client is one pass of an index,
//! with its segments, a source of draws and a clock that the caller sets.
#![tactic(auto)]

mod all;
mod bytes;
mod choosing;
mod clearing;
mod client;
mod crowded;
mod effort;
mod hold;
mod into;
mod laws;
mod lives;
mod making;
mod many;
mod member;
mod note;
mod put;
mod queues;
mod room;
mod rows;
mod segments;
mod stats;
mod until;

pub use all::{clients, into_passes, keep_back};
pub use client::Client;
pub use laws::{reads_and_deletes_are_commands, what_a_put_comes_to};
pub use member::Member;
pub use note::{what_a_put_adds, what_is_put_stands, what_room_is_made_for};
pub use put::PutAnswer;
pub use segindex::{
    Condition, DeleteAnswer, GetAnswer, GetsAnswer, GetsIntoAnswer, Hold, HoldAnswer, Index,
    IndexStats, IntoAnswer, Key, MakeFault, Note, OutOfMemory, Pass, RowAnswer, Shape, ShapeFault,
    Share, Value, ValueBytes, WriteAnswer, hold_stays,
};
pub use segtally::{Tally, evicted_by, own_ring, refilled_by};
pub use stats::Stats;
