//! What a load prints of the table at its end.
use crate::same::same;
use segcli::{Pace, Totals, stats_text};
use segindex::IndexStats;
use segload::{PassTotals, Recycled, Tallies};
use std::alloc::{AllocError, Global};

/// What is told of the table of two passes, as `totals_of` has it.
const TABLE: &str =
    "overflow buckets: 3\nused rows: 28\nrows that items name: 25\nevictions: 80\nrefillings: 24\n";

// The totals of two passes with so many full buckets and writes without room.
// Each of them evicted 40 keys, refilled 12 segments and has used 14 rows. 3 overflow buckets are drawn.
fn totals_of(alloc: Global, full: [u32; 2], refused: [u32; 2]) -> Result<Totals, AllocError> {
    let mut passes = Vec::new(alloc);
    for (bucket_full, no_room) in full.into_iter().zip(refused) {
        let mut tallies = Tallies::new();
        (tallies.bucket_full, tallies.no_room) = (bucket_full, no_room);
        passes.push(PassTotals {
            commands: 500,
            tallies,
            recycled: Recycled {
                evictions: 40,
                refillings: 12,
            },
            table: IndexStats {
                overflow_buckets: 3,
                used_rows: 14,
                named_rows: 13,
            },
        })?;
    }
    Ok(Totals { passes, keys: 25 })
}

#[test]
fn stats_name_the_options_to_raise(rt: HostRuntime) {
    let pace = Some(Pace {
        milliseconds: 4,
        each_second: 250_000,
    });
    let paced = "1000 commands in 4 ms, 250000 a second\n";
    let buckets = "bucketfull: 21, raise --buckets or --overflow\n";
    let both =
        "bucketfull: 1, raise --buckets or --overflow\nnoroom: 3, raise --segments or --rows\n";
    for (full, refused, pace, head, hints) in [
        ([0, 0], [0, 0], None, "1000 commands\n", ""),
        ([2, 19], [0, 0], pace, paced, buckets),
        ([1, 0], [0, 3], pace, paced, both),
    ] {
        let totals = totals_of(rt.alloc(), full, refused).expect(&rt, "totals");
        let text = stats_text(rt.alloc(), &totals, pace).expect(&rt, "memory for a text");
        let wanted = format!(in rt.alloc(); "{head}{TABLE}{hints}").expect(&rt, "memory");
        same(&rt, &text.as_slice(), &wanted.as_bytes());
    }
}
