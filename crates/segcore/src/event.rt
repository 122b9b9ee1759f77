//! What each atomic step adds to the one trace.
use segmodel::{Reply, Request};
use segword::Key;

/// What a step did, and whose step it was.
/// A position counts along a bucket's chain: `8 * d + w` is word `w` of the bucket at depth `d`.
/// No value of this type is made.
pub enum Event {
    /// The bucket's bit was taken.
    Took {
        pass: u32,
        bucket: u32,
    },
    /// A take of the bucket found the bit of another pass.
    Bounced {
        pass: u32,
        bucket: u32,
    },
    /// A look of `gets` at the bucket found the bit of another pass.
    Glanced {
        pass: u32,
        bucket: u32,
    },
    /// The bucket's bit was cleared; whether the version went up.
    Freed {
        pass: u32,
        bucket: u32,
        counted: bool,
    },
    /// A cache of one thread refuses the write.
    Replied {
        pass: u32,
        request: Request,
        reply: Reply,
    },
    /// A word of an own row was stored.
    Filled {
        pass: u32,
        segment: u32,
        row: u32,
        place: u32,
        word: u64,
    },
    /// The item of a stored write came into a word.
    Linked {
        pass: u32,
        request: Request,
        segment: u32,
        row: u32,
        position: u32,
    },
    /// The item of a key was moved, in its word, to a row of another segment.
    Relinked {
        pass: u32,
        key: Key,
        from: u32,
        from_row: u32,
        segment: u32,
        row: u32,
        position: u32,
    },
    /// The item of a key left its position.
    Unlinked {
        pass: u32,
        key: Key,
        position: u32,
        why: Leaving,
    },
    /// An overflow bucket was drawn for a bucket: its depth in the chain, its number.
    Drew {
        pass: u32,
        bucket: u32,
        depth: u32,
        number: u32,
    },
    /// Word 1 of the overflow bucket drawn for a bucket was stored.
    Put {
        pass: u32,
        bucket: u32,
        word: u64,
    },
    /// The drawn bucket of this number joined the chain of a bucket,
    /// and the item of the chain's last word moved into that bucket.
    Chained {
        pass: u32,
        bucket: u32,
        number: u32,
    },
    /// The item of a row got a higher frequency.
    Bumped {
        pass: u32,
        segment: u32,
        row: u32,
        frequency: u32,
    },
    /// A reader came into a segment.
    Entered {
        pass: u32,
        segment: u32,
    },
    /// A reader left a segment.
    Left {
        pass: u32,
        segment: u32,
    },
    /// A segment of the pass's own is refilled, from its first row, up to a deadline.
    Refilled {
        pass: u32,
        segment: u32,
        deadline: u32,
    },
}

/// Why an item leaves its word. No value of this type is made.
pub enum Leaving {
    /// The key is deleted, at this moment.
    Deletes(u32),
    /// The key is evicted from this segment.
    Evicts(u32),
}
