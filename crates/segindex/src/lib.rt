//! The object index: its calls, for many passes on threads of their own.
//! What a call reads, and how a write or a delete is replied,
//! is what a cache used by only one thread would return,
//! after some part of the history that all passes share.
#![tactic(auto)]

mod ahead;
mod close;
mod current;
mod index;
mod laws;
mod lock;
mod meet;
mod note;
mod probe;
mod read;
mod segment;
mod serve;
mod share;
mod table_stats;
mod write;

pub use close::OutOfMemory;
pub use current::CurrentAnswer;
pub use index::Index;
pub use laws::{
    calls_are_in_order, calls_are_linearizable, calls_have_an_effect, cas_fails_where_written,
    commands_are_answered, keep_of_all, new_index, new_pass, one_pass, quiet_pass,
    readers_take_a_step, replies_at_a_moment, stats_are_counted, unnamed_rows_stay,
    what_stood_is_read,
};
pub use segbase::{Lead, MakeFault, Note, Pass, RowAhead, Seeker};
pub use segevict::{EvictRowAnswer, KeepRowAnswer};
pub use segmodel::{
    Answer, Command, DeleteAnswer, EvictAnswer, GetAnswer, GetsAnswer, KeepAnswer, RefillAnswer,
    Request, WriteAnswer,
};
pub use segread::{GetsIntoAnswer, Hold, HoldAnswer, IntoAnswer, RowAnswer, hold_stays};
pub use segstore::{LockAnswer, RowRef};
pub use segword::{Key, Shape, ShapeFault, Value, ValueBytes};
pub use segwrite::Condition;
pub use share::Share;
pub use table_stats::IndexStats;
