//! What an index has at its end: keys whose deadline has come, and those of locked buckets, too.
use crate::calls::{lists, lists_all};
use crate::passes::SHAPE;
use crate::same::same;
use crate::tables::served;
use segword::Shape;

// Two segments for each pass: 0 and 1 are of pass 0, 2 and 3 of pass 1.
const TWO_EACH: Shape = Shape {
    buckets: 4,
    segments_each: 2,
    rows: 8,
    ..SHAPE
};

#[test]
fn what_stands_is_listed_in_the_order_of_the_keys(rt: HostRuntime) {
    let script = "
        p0 refill 0 0 -> REFILLED
        p0 set pear 1 @5 -> STORED
        p0 set date 2 @5 -> STORED
        p0 get pear @0 -> MISS
        p0 refill 1 4294967295 -> REFILLED
        p0 set date 3 @0 -> STORED
        p0 set apple 4 @0 -> STORED
        p0 set pe - @0 -> STORED
        p0 set apple 5 @0 -> STORED
        p0 set plum 6 @0 -> STORED
        p0 delete plum @0 -> DELETED
        p0 set grape 7 @0 -> STORED
        p1 lock grape -> LOCKED
    ";
    let before = [
        ("apple", "5"),
        ("date", "3"),
        ("grape", "7"),
        ("pe", ""),
        ("pear", "1"),
    ];
    let evicted = "
        p0 refill 0 4294967295 -> REFILLED
        p0 set pear 1 @0 -> STORED
        p0 set fig 2 @0 -> STORED
        p0 refill 1 4294967295 -> REFILLED
        p0 set fig 4 @0 -> STORED
        p0 evict 0 -> EVICTED 1
    ";
    for (script, pairs) in [
        ("", [].as_slice()),
        (script, before.as_slice()),
        (evicted, [("fig", "4")].as_slice()),
    ] {
        let (index, first, _) = served(&rt, TWO_EACH, script);
        same(&rt, &lists(rt.alloc(), index, first, pairs), &Ok(true));
    }
}

// The last write of each pass is one that the other hasn't seen.
#[test]
fn all_passes_list_what_each_of_them_wrote(rt: HostRuntime) {
    let shape = Shape {
        buckets: 4,
        ..SHAPE
    };
    let script = "
        p0 refill 0 4294967295 -> REFILLED
        p1 refill 1 4294967295 -> REFILLED
        p0 set b 2 @0 -> STORED
        p1 set b 3 @0 -> STORED
        p0 set d 4 @0 -> STORED
        p1 delete d @0 -> DELETED
        p0 set c 5 @0 -> STORED
        p1 set a 1 @0 -> STORED
    ";
    let (index, first, second) = served(&rt, shape, script);
    let pairs = [("a", "1"), ("b", "3"), ("c", "5")];
    let is_listed = lists_all(rt.alloc(), index, first, second, &pairs);
    same(&rt, &is_listed, &Ok(true));
}
