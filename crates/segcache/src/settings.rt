//! The exports that set how a client puts, and that count.
ghost use Rattle.seghandles.specs.Exports.{Answers};
ghost use Rattle.seghandles.specs.Setting.{Counted, CountedTable, KeptFrom, MadeRoom};
ghost use Rattle.seghandles.specs.Setting.{SetTimeToLive};

use seghandles::{
    ClientStats, Handle, TableStats, raw_index_stats, raw_keep_from, raw_make_room,
    raw_set_time_to_live, raw_stats,
};

#[unsafe(no_mangle)]
pub extern "C" fn segcache_raw_set_time_to_live(client: &mut Handle, seconds: u32) -> u32
    ensures { Answers result (SetTimeToLive seconds client.old.value client.new.value) }
{
    raw_set_time_to_live(client, seconds)
}

#[unsafe(no_mangle)]
pub extern "C" fn segcache_raw_keep_from(client: &mut Handle, cutoff: u32) -> u32
    ensures { Answers result (KeptFrom cutoff client.old.value client.new.value) }
{
    raw_keep_from(client, cutoff)
}

#[unsafe(no_mangle)]
pub extern "C" fn segcache_raw_make_room(client: &mut Handle, now: u32) -> u32
    ensures { Answers result (MadeRoom now client.old.value client.new.value) }
{
    raw_make_room(client, now)
}

#[unsafe(no_mangle)]
pub extern "C" fn segcache_raw_stats(client: &mut Handle, counts: &mut ClientStats) -> u32
    ensures { Answers result (Counted client.old.value client.new.value counts.old counts.new) }
{
    raw_stats(client, counts)
}

#[unsafe(no_mangle)]
pub extern "C" fn segcache_raw_index_stats(client: &mut Handle, counts: &mut TableStats) -> u32
    ensures { Answers result (CountedTable client.old.value client.new.value
        counts.old counts.new) }
{
    raw_index_stats(client, counts)
}
