//! Three lists of a pass's segments, in each of which the oldest is first. All is done at once,
//! whatever their number. Segments are named by their numbers among the pass's own.
use std::alloc::{AllocError, Global};

/// What a segment is used for.
#[derive(Clone, Copy, Debug, PartialEq, Eq)]
pub enum Queue {
    /// It isn't in use.
    Free,
    /// Puts are stored there.
    Probation,
    /// What moves on is moved there.
    Main,
}

// A segment between its neighbours in its list.
#[derive(Clone, Copy)]
struct Node {
    queue: Queue,
    is_held: bool,
    before: u32,
    after: u32,
}

// How many lists there are.
const QUEUES: u32 = 3;

// The lists. Each goes round by a place of its own, which comes behind those of the segments.
#[derive(Drop)]
pub(crate) struct Lists {
    segments: u32,
    free: u32,
    probation: u32,
    main: u32,
    // How many of the free ones are held.
    held: u32,
    places: Vec<Node>,
}

impl Lists {
    // All segments are free, the first one first.
    pub(crate) fn new(alloc: Global, segments: u32) -> Result<Lists, AllocError> {
        let place = Node {
            queue: Queue::Free,
            is_held: false,
            before: 0,
            after: 0,
        };
        let count = segments.saturating_add(QUEUES);
        let mut lists = Lists {
            segments,
            free: 0,
            probation: 0,
            main: 0,
            held: 0,
            places: vec![in alloc; place; count as usize]?,
        };
        for at in 0..count {
            lists.join(at, at);
        }
        for at in 0..segments {
            lists.append(at, Queue::Free);
        }
        Ok(lists)
    }

    // The place at which the list of a queue begins and ends.
    fn end_of(&self, queue: Queue) -> u32 {
        let at = match queue {
            Queue::Free => 0,
            Queue::Probation => 1,
            Queue::Main => 2,
        };
        self.segments.saturating_add(at)
    }

    // The place after this one in its list.
    fn after(&self, at: u32) -> u32 {
        match self.places.get(at as usize) {
            Some(place) => place.after,
            None => u32::MAX,
        }
    }

    // The place before this one in its list.
    fn before(&self, at: u32) -> u32 {
        match self.places.get(at as usize) {
            Some(place) => place.before,
            None => u32::MAX,
        }
    }

    // From now on the second place comes right after the first.
    fn join(&mut self, before: u32, after: u32) {
        if let Some(place) = self.places.get_mut(before as usize) {
            place.after = after;
        }
        if let Some(place) = self.places.get_mut(after as usize) {
            place.before = before;
        }
    }

    // How many segments are in the queue.
    pub(crate) fn count(&self, queue: Queue) -> u32 {
        match queue {
            Queue::Free => self.free,
            Queue::Probation => self.probation,
            Queue::Main => self.main,
        }
    }

    // How many free segments can be refilled, as far as is known.
    pub(crate) fn ready(&self) -> u32 {
        self.free.saturating_sub(self.held)
    }

    // Whether a segment is held: it couldn't be refilled.
    fn set_held(&mut self, at: u32, is_held: bool) {
        if let Some(place) = self.places.get_mut(at as usize) {
            if place.is_held != is_held {
                place.is_held = is_held;
                self.held = if is_held {
                    self.held.wrapping_add(1)
                } else {
                    self.held.saturating_sub(1)
                };
            }
        }
    }

    fn set_count(&mut self, queue: Queue, count: u32) {
        match queue {
            Queue::Free => self.free = count,
            Queue::Probation => self.probation = count,
            Queue::Main => self.main = count,
        }
    }

    // The queue of a segment.
    pub(crate) fn queue_of(&self, at: u32) -> Queue {
        match self.places.get(at as usize) {
            Some(place) => place.queue,
            None => Queue::Free,
        }
    }

    // The place, if it is a segment's.
    fn as_segment(&self, at: u32) -> Option<u32> {
        if at < self.segments { Some(at) } else { None }
    }

    // The segment that came into the queue before the others, this one left out.
    pub(crate) fn oldest(&self, queue: Queue, but: Option<u32>) -> Option<u32> {
        let first = self.as_segment(self.after(self.end_of(queue)))?;
        if but == Some(first) {
            return self.as_segment(self.after(first));
        }
        Some(first)
    }

    // The segment, which is in no queue, comes last in this one.
    fn append(&mut self, at: u32, queue: Queue) {
        let end = self.end_of(queue);
        self.join(self.before(end), at);
        self.join(at, end);
        self.set_count(queue, self.count(queue).saturating_add(1));
        if let Some(place) = self.places.get_mut(at as usize) {
            place.queue = queue;
        }
    }

    // The segment comes last in this queue, and is in no other.
    // A free one that is to be free once more couldn't be refilled.
    pub(crate) fn move_to(&mut self, at: u32, queue: Queue) {
        if at >= self.segments {
            return;
        }
        let was = self.queue_of(at);
        self.set_held(at, was == Queue::Free && queue == Queue::Free);
        self.join(self.before(at), self.after(at));
        self.set_count(was, self.count(was).saturating_sub(1));
        self.append(at, queue);
    }
}
