//! What the exports of the library for C do: calls on numbers, byte slices and handles, over clients that
//! share the indexes of a cache, the shards.
//! A call by a client makes at most one call of it for each key. It returns a status's number.
//! `raw_put` is what the export `segcache_raw_put` of `segcache` calls, and so are the others.
#![tactic(auto)]

mod all;
mod alone;
mod cache;
mod calls;
mod client;
mod closing;
mod cursor;
mod guest;
mod handle;
mod holding;
mod holds;
mod home;
mod kept;
mod listing;
mod loose;
mod making;
mod many;
mod notes;
mod opening;
mod reading;
mod settings;
mod status;
mod writing;

pub use closing::{raw_close, raw_free, raw_give_back};
pub use handle::Handle;
pub use holding::{raw_held_value, raw_hold, raw_release};
pub use listing::{raw_cursor_free, raw_next};
pub use many::{KeyPlace, Lookup, raw_get_many, raw_gets_many, raw_look_ahead};
pub use notes::{raw_learn, raw_note, raw_note_free};
pub use opening::{
    CacheShape, raw_open, raw_open_bytes, raw_open_for_writers, raw_open_items, raw_open_shape,
};
pub use reading::{raw_get, raw_gets};
pub use settings::{
    ClientStats, TableStats, raw_index_stats, raw_keep_from, raw_make_room, raw_set_time_to_live,
    raw_stats,
};
pub use writing::{raw_add, raw_cas, raw_delete, raw_put, raw_put_for, raw_replace, raw_set};
