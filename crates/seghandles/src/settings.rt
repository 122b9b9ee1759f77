//! The calls that set how a client puts, and that count.
ghost use Rattle.std.specs.Prelude.{◌≡◌, Some};
ghost use Rattle.seghandles.specs.Exports.{Answers};
ghost use Rattle.seghandles.specs.Setting.{Counted, CountedTable, cutoff_of, KeptFrom, MadeRoom};
ghost use Rattle.seghandles.specs.Setting.{SetTimeToLive};

use crate::handle::Handle;
use crate::kept::Kept;
use crate::status::Status;

/// What a client's calls came to.
#[repr(C)]
#[derive(Clone, Copy, Drop)]
pub struct ClientStats {
    pub hits: u64,
    pub misses: u64,
    pub stored: u64,
    pub not_stored: u64,
    pub exists: u64,
    pub not_found: u64,
    pub deleted: u64,
    pub no_room: u64,
    pub bucket_full: u64,
    pub busy: u64,
    pub segments_refilled: u64,
    pub items_kept: u64,
    pub keys_evicted: u64,
}

/// What a client sees of the table.
#[repr(C)]
#[derive(Clone, Copy, Drop)]
pub struct TableStats {
    pub overflow_buckets: u32,
    pub used_rows: u32,
    pub named_rows: u32,
}

/// Sets how long what is stored from now on can be read.
pub fn raw_set_time_to_live(client: &mut Handle, seconds: u32) -> u32
    ensures { Answers result (SetTimeToLive seconds client.old.value client.new.value) }
{
    let Some(kept) = client.kept() else {
        return Status::NoHandle.number();
    };
    set_time_to_live(kept, seconds).number()
}

/// Sets the least frequency of an item that a put keeps, in place of the two queues by which a
/// client keeps at the start. With 0 it keeps nothing.
/// A frequency has 8 bits, so what is higher counts as 255.
pub fn raw_keep_from(client: &mut Handle, cutoff: u32) -> u32
    ensures { Answers result (KeptFrom cutoff client.old.value client.new.value) }
{
    let Some(kept) = client.kept() else {
        return Status::NoHandle.number();
    };
    keep_from(kept, cutoff).number()
}

/// Makes room for a write.
pub fn raw_make_room(client: &mut Handle, now: u32) -> u32
    ensures { Answers result (MadeRoom now client.old.value client.new.value) }
{
    let Some(kept) = client.kept() else {
        return Status::NoHandle.number();
    };
    make_room(kept, now).number()
}

/// Writes what the client's calls came to.
pub fn raw_stats(client: &mut Handle, counts: &mut ClientStats) -> u32
    ensures { Answers result (Counted client.old.value client.new.value counts.old counts.new) }
{
    let Some(kept) = client.kept() else {
        return Status::NoHandle.number();
    };
    stats(kept, counts).number()
}

/// Writes what the client sees of the table. It goes over all rows of the client.
pub fn raw_index_stats(client: &mut Handle, counts: &mut TableStats) -> u32
    ensures { Answers result (CountedTable client.old.value client.new.value
        counts.old counts.new) }
{
    let Some(kept) = client.kept() else {
        return Status::NoHandle.number();
    };
    index_stats(kept, counts).number()
}

fn set_time_to_live(kept: &mut Kept, seconds: u32) -> Status
    ensures { SetTimeToLive seconds (Some kept.old) (Some kept.new) result }
{
    let Kept::Client(client) = kept else {
        return Status::NoHandle;
    };
    client.set_time_to_live(seconds);
    Status::Ok
}

fn keep_from(kept: &mut Kept, cutoff: u32) -> Status
    ensures { KeptFrom cutoff (Some kept.old) (Some kept.new) result }
{
    let Kept::Client(client) = kept else {
        return Status::NoHandle;
    };
    client.keep_from(cutoff_of(cutoff));
    Status::Ok
}

// The cutoff of a number: none for 0, and at most 255.
fn cutoff_of(number: u32) -> Option<u8>
    ensures { result ≡ cutoff_of number }
{
    if number == 0 {
        return None;
    }
    Some(number.min(255) as u8)
}

fn make_room(kept: &mut Kept, now: u32) -> Status
    ensures { MadeRoom now (Some kept.old) (Some kept.new) result }
{
    let Kept::Client(client) = kept else {
        return Status::NoHandle;
    };
    if client.make_room(now) {
        Status::Ok
    } else {
        Status::NoRoom
    }
}

fn stats(kept: &mut Kept, counts: &mut ClientStats) -> Status
    ensures { Counted (Some kept.old) (Some kept.new) counts.old counts.new result }
{
    let Kept::Client(client) = kept else {
        return Status::NoHandle;
    };
    let stats = client.stats();
    *counts = ClientStats {
        hits: stats.hits,
        misses: stats.misses,
        stored: stats.stored,
        not_stored: stats.not_stored,
        exists: stats.exists,
        not_found: stats.not_found,
        deleted: stats.deleted,
        no_room: stats.no_room,
        bucket_full: stats.bucket_full,
        busy: stats.busy,
        segments_refilled: stats.segments_refilled,
        items_kept: stats.items_kept,
        keys_evicted: stats.keys_evicted,
    };
    Status::Ok
}

fn index_stats(kept: &mut Kept, counts: &mut TableStats) -> Status
    ensures { CountedTable (Some kept.old) (Some kept.new) counts.old counts.new result }
{
    let Kept::Client(client) = kept else {
        return Status::NoHandle;
    };
    let stats = client.index_stats();
    *counts = TableStats {
        overflow_buckets: stats.overflow_buckets,
        used_rows: stats.used_rows,
        named_rows: stats.named_rows,
    };
    Status::Ok
}
