//! Worked scripts as tables of rows, and the shapes that they are served over.
use crate::passes::SHAPE;
use crate::rows::Row;
use segword::Shape;

/// A shape, and rows of calls with their answers.
pub type Table<'t> = (Shape, &'t [Row<'t>]);

/// A bucket that grows until it has four buckets, and a key for which it has no word.
pub const LONGEST_CHAIN: Table<'static> = (
    GROWING,
    &[
        ("p0 refill 0 4294967295", "REFILLED"),
        ("p0 set a 1 @0", "STORED"),
        ("p0 set b 1 @0", "STORED"),
        ("p0 set c 1 @0", "STORED"),
        ("p0 set d 1 @0", "STORED"),
        ("p0 set e 1 @0", "STORED"),
        ("p0 set f 1 @0", "STORED"),
        ("p0 set g 1 @0", "STORED"),
        ("p0 set h 1 @0", "STORED"),
        ("p0 set i 1 @0", "STORED"),
        ("p0 set j 1 @0", "STORED"),
        ("p0 set k 1 @0", "STORED"),
        ("p0 set l 1 @0", "STORED"),
        ("p0 set m 1 @0", "STORED"),
        ("p0 set n 1 @0", "STORED"),
        ("p0 set o 1 @0", "STORED"),
        ("p0 set p 1 @0", "STORED"),
        ("p0 set q 1 @0", "STORED"),
        ("p0 set r 1 @0", "STORED"),
        ("p0 set s 1 @0", "STORED"),
        ("p0 set t 1 @0", "STORED"),
        ("p0 set u 1 @0", "STORED"),
        ("p0 set v 1 @0", "STORED"),
        ("p0 set w 1 @0", "STORED"),
        ("p0 set x 1 @0", "STORED"),
        ("p0 set y 1 @0", "STORED"),
        ("p0 set z 1 @0", "BUCKETFULL"),
        ("p0 get a @0", "VALUE 1"),
        ("p0 get b @0", "VALUE 1"),
        ("p0 get c @0", "VALUE 1"),
        ("p0 get d @0", "VALUE 1"),
        ("p0 get e @0", "VALUE 1"),
        ("p0 get f @0", "VALUE 1"),
        ("p0 get g @0", "VALUE 1"),
        ("p0 get h @0", "VALUE 1"),
        ("p0 get i @0", "VALUE 1"),
        ("p0 get j @0", "VALUE 1"),
        ("p0 get k @0", "VALUE 1"),
        ("p0 get l @0", "VALUE 1"),
        ("p0 get m @0", "VALUE 1"),
        ("p0 get n @0", "VALUE 1"),
        ("p0 get o @0", "VALUE 1"),
        ("p0 get p @0", "VALUE 1"),
        ("p0 get q @0", "VALUE 1"),
        ("p0 get r @0", "VALUE 1"),
        ("p0 get s @0", "VALUE 1"),
        ("p0 get t @0", "VALUE 1"),
        ("p0 get u @0", "VALUE 1"),
        ("p0 get v @0", "VALUE 1"),
        ("p0 get w @0", "VALUE 1"),
        ("p0 get x @0", "VALUE 1"),
        ("p0 get y @0", "VALUE 1"),
    ],
);

const GROWING: Shape = Shape {
    overflow: 3,
    passes: 1,
    rows: 64,
    ..SHAPE
};

/// A segment that is evicted while another pass holds an item of it.
pub const HELD_OVER_EVICTION: Table<'static> = (
    Shape { rows: 2, ..SHAPE },
    &[
        ("p0 refill 0 4294967295", "REFILLED"),
        ("p0 set a 1 @0", "STORED"),
        ("p1 hold a @0", "HOLDING"),
        ("p0 evict 0", "EVICTED 1"),
        ("p1 get a @0", "MISS"),
        ("p1 held", "VALUE 1"),
        ("p0 refill 0 4294967295", "HELD"),
        ("p1 release", "RELEASED"),
        ("p0 refill 0 4294967295", "REFILLED"),
    ],
);

/// Two segments that are filled, the first of which is then evicted.
pub const TWO_SEGMENTS: Table<'static> = (
    Shape {
        passes: 1,
        segments_each: 2,
        rows: 2,
        ..SHAPE
    },
    &[
        ("p0 refill 0 4294967295", "REFILLED"),
        ("p0 set a 1 @0", "STORED"),
        ("p0 set b 2 @0", "STORED"),
        ("p0 set c 3 @0", "NOROOM"),
        ("p0 refill 1 4294967295", "REFILLED"),
        ("p0 set c 3 @0", "STORED"),
        ("p0 set a 9 @0", "STORED"),
        ("p0 evict 0", "EVICTED 1"),
        ("p0 get a @0", "VALUE 9"),
        ("p0 get b @0", "MISS"),
        ("p0 set d 1 @0", "NOROOM"),
        ("p0 evict 0", "EVICTED 0"),
    ],
);

/// Items that move from one segment to another until its rows are used up.
pub const MOVED_ITEMS: Table<'static> = (
    Shape {
        passes: 1,
        segments_each: 2,
        rows: 3,
        ..SHAPE
    },
    &[
        ("p0 refill 0 9", "REFILLED"),
        ("p0 set a 1 @0", "STORED"),
        ("p0 set b 2 @0", "STORED"),
        ("p0 set c 3 @0", "STORED"),
        ("p0 get b @0", "VALUE 2"),
        ("p0 refill 1 9", "REFILLED"),
        ("p0 keep 0 2", "KEPT 1"),
        ("p0 set d 4 @0", "STORED"),
        ("p0 keep 0 0", "NOROOM 1"),
        ("p0 evict 0", "EVICTED 1"),
        ("p0 get a @0", "VALUE 1"),
        ("p0 get b @0", "VALUE 2"),
        ("p0 get c @0", "MISS"),
    ],
);

/// A bucket that another pass has locked, and an item of it that is held over the eviction.
pub const LOCKED_AND_HELD: Table<'static> = (
    SHAPE,
    &[
        ("p0 refill 0 4294967295", "REFILLED"),
        ("p0 set a 1 @0", "STORED"),
        ("p1 lock a", "LOCKED"),
        ("p1 lock a", "ALREADY_LOCKED"),
        ("p0 gets a @0", "BUSY"),
        ("p0 gets b @0", "MISS"),
        ("p0 hold a @0", "HOLDING"),
        ("p0 evict 0", "BUSY 0"),
        ("p0 set b 2 @0", "NOROOM"),
        ("p1 unlock", "UNLOCKED"),
        ("p0 evict 0", "EVICTED 1"),
        ("p0 refill 0 4294967295", "HELD"),
        ("p0 held", "VALUE 1"),
        ("p0 release", "RELEASED"),
        ("p0 refill 0 4294967295", "REFILLED"),
    ],
);
