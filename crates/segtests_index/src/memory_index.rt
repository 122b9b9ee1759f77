//! The index out of memory: each request of creating it and of closing it is refused in turn.
//! The other calls ask for none.
use crate::calls::{lists, lists_all};
use crate::hoard::{RUNS, STEP, hoard, is_none_left, leave};
use crate::memory_tables::{LONGEST_CHAIN, MOVED_ITEMS, TWO_SEGMENTS};
use crate::passes::{SHAPE, two_passes};
use crate::refusals::check_refused;
use crate::rows::{Row, first_wrong};
use crate::same::{check_that, same};
use segbase::Board;
use segindex::{Index, MakeFault, OutOfMemory};
use segword::Shape;
use std::alloc::AllocGlobal;
use std::process::Abort;

#[test]
fn a_board_is_made_or_memory_is_wanted(rt: HostRuntime) {
    let all = hoard(rt.alloc()).expect(&rt, "memory");
    let mut refused = 0;
    for run in 0..RUNS {
        let taken = leave(rt.alloc(), STEP * run).expect(&rt, "memory");
        let made = Board::new(rt.alloc(), SHAPE);
        drop(taken);
        let Err(fault) = made else {
            break;
        };
        same(&rt, &fault, &MakeFault::OutOfMemory);
        refused = run + 1;
    }
    drop(all);
    check_refused(&rt, refused);
}

#[test]
fn an_index_is_made_or_memory_is_wanted(rt: HostRuntime) {
    let all = hoard(rt.alloc()).expect(&rt, "memory");
    let mut refused = 0;
    for run in 0..RUNS {
        let taken = leave(rt.alloc(), STEP * run).expect(&rt, "memory");
        let made = Index::new(rt.alloc(), SHAPE);
        drop(taken);
        let Err(fault) = made else {
            break;
        };
        same(&rt, &fault, &MakeFault::OutOfMemory);
        refused = run + 1;
    }
    drop(all);
    check_refused(&rt, refused);
}

// Closes an index with one of its passes, or with both. Each request for memory is refused in turn.
fn close_in_turn<R: AllocGlobal + Abort>(rt: &R, both: bool) {
    let rows = [
        ("p0 refill 0 4294967295", "REFILLED"),
        ("p0 set b 2 @0", "STORED"),
        ("p0 set a 1 @0", "STORED"),
    ];
    let pairs = [("a", "1"), ("b", "2")];
    let all = hoard(rt.alloc()).expect(rt, "memory");
    let mut refused = 0;
    for run in 0..RUNS {
        let (index, mut first, mut second) = two_passes(rt, SHAPE);
        same(
            rt,
            &first_wrong(&index, &mut first, &mut second, &rows),
            &None,
        );
        let taken = leave(rt.alloc(), STEP * run).expect(rt, "memory");
        let listed = if both {
            lists_all(rt.alloc(), index, first, second, &pairs)
        } else {
            lists(rt.alloc(), index, first, &pairs)
        };
        drop(taken);
        if listed == Ok(true) {
            break;
        }
        same(rt, &listed, &Err(OutOfMemory));
        refused = run + 1;
    }
    drop(all);
    check_refused(rt, refused);
}

#[test]
fn the_content_is_listed_or_memory_is_wanted(rt: HostRuntime) {
    close_in_turn(&rt, false);
    close_in_turn(&rt, true);
}

// Checks that each row has the answer that it wants, if no memory is left once the index is created.
// The shape has two passes.
fn answers_without_memory<R: AllocGlobal + Abort>(rt: &R, shape: Shape, rows: &[Row<'_>]) {
    let (index, mut first, mut second) = two_passes(rt, shape);
    let all = hoard(rt.alloc()).expect(rt, "memory");
    let taken = leave(rt.alloc(), 0).expect(rt, "memory");
    let is_none_left = is_none_left(rt.alloc());
    let wrong = first_wrong(&index, &mut first, &mut second, rows);
    drop(taken);
    drop(all);
    check_that(rt, is_none_left);
    same(rt, &wrong, &None);
}

#[test]
fn calls_need_no_memory(rt: HostRuntime) {
    for (shape, rows) in [LONGEST_CHAIN, TWO_SEGMENTS, MOVED_ITEMS] {
        answers_without_memory(&rt, Shape { passes: 2, ..shape }, rows);
    }
}

// A replace, a cas, a delete, a probe, a lock and a hold beside the calls of the tables.
#[test]
fn other_calls_need_no_memory(rt: HostRuntime) {
    let rows = [
        ("p0 refill 0 4294967295", "REFILLED"),
        ("p0 add a 1 @0", "STORED"),
        ("p1 lock a", "LOCKED"),
        ("p1 lock a", "ALREADY_LOCKED"),
        ("p0 gets a @0", "BUSY"),
        ("p0 gets b @0", "MISS"),
        ("p0 evict 0", "BUSY 0"),
        ("p1 unlock", "UNLOCKED"),
        ("p1 refill 1 4294967295", "REFILLED"),
        ("p1 replace a 2 @0", "STORED"),
        ("p1 cas a 3 2 @0", "STORED"),
        ("p1 probe b 4 @0", "STORED VALUE 4"),
        ("p1 delete b @0", "DELETED"),
        ("p0 set_held c 5 @0", "NOT_HOLDING"),
        ("p0 gets a @0", "VALUE 3 5"),
        ("p1 set_held a 5 @0", "VALUE 3"),
        ("p1 evict_held a 1 @0", "VALUE 5 1"),
    ];
    answers_without_memory(&rt, SHAPE, &rows);
}
