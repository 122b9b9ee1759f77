//! What a probe returns: of a set, and of a get after a set that was stored.
use crate::passes::SHAPE;
use crate::tables::served;

// A key stands at each refusal but the first, so that a get would find it.
#[test]
fn what_was_stored_is_found_and_after_a_refused_set_nothing_is_read(rt: HostRuntime) {
    let script = "
        p0 probe a 1 @0 -> NOROOM BUSY
        p0 refill 0 4294967295 -> REFILLED
        p0 probe a 1 @0 -> STORED VALUE 1
        // Another pass locks the bucket, and then the pass itself.
        p1 lock a -> LOCKED
        p0 probe a 2 @0 -> BUSY BUSY
        p1 unlock -> UNLOCKED
        p0 lock a -> LOCKED
        p0 probe a 2 @0 -> BUSY BUSY
        p0 unlock -> UNLOCKED
        p0 gets a @0 -> VALUE 1 1
        p0 probe a 2 @0 -> STORED VALUE 2
        p0 probe b 3 @0 -> STORED VALUE 3
        p0 set b 1 @0 -> STORED
        // The rows are used up.
        p0 probe a 3 @0 -> NOROOM BUSY
        p0 gets a @0 -> VALUE 2 4
    ";
    served(&rt, SHAPE, script);
}
