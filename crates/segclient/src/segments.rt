//! What a put finds of its pass: its segments, the one that is being cleared, and how room is made.
use segindex::RowRef;
use segpolicy::Ring;
use segqueues::Queues;
use segword::{Key, ValueBytes};

// A segment of the pass that is being cleared. No item names a row of it before this one.
#[derive(Clone, Copy)]
pub(crate) struct SourceSegment {
    pub(crate) segment: u32,
    pub(crate) row: u32,
}

// The segments of a pass. The ring has the order in which they are given up, unless the queues do,
// by which a client keeps what was read. Only a client with queues has a segment that is being
// cleared.
#[derive(Drop)]
pub(crate) struct Segments {
    pub(crate) ring: Ring,
    pub(crate) queues: Option<Queues>,
    pub(crate) source: Option<SourceSegment>,
    // The row that the key of the last put had before it, as it seems.
    pub(crate) replaced: Option<RowRef>,
}

// The deadlines that a segment can have into which a put stores: the earliest and the latest one.
#[derive(Clone, Copy)]
pub(crate) struct Window {
    pub(crate) earliest: u32,
    pub(crate) latest: u32,
}

// How room is made: the least frequency of what is kept, if anything is, the deadline of what is
// refilled, the deadlines that do for a put, and the moment.
#[derive(Clone, Copy)]
pub(crate) struct Policy {
    pub(crate) cutoff: Option<u8>,
    pub(crate) deadline: u32,
    pub(crate) window: Window,
    pub(crate) moment: u32,
}

// What is put, and how room is made for it.
#[derive(Clone, Copy)]
pub(crate) struct Order<'p> {
    pub(crate) key: &'p Key,
    pub(crate) value: &'p ValueBytes<'p>,
    pub(crate) policy: Policy,
}
