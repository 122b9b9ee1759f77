//! The open segments of a pass, which have a row left: at most one for each deadline,
//! in the order of their deadlines.
use std::alloc::{AllocError, Global};

// An open segment and its deadline.
#[derive(Clone, Copy)]
struct OpenSegment {
    deadline: u32,
    segment: u32,
}

const NOWHERE: OpenSegment = OpenSegment {
    deadline: 0,
    segment: 0,
};

// How often a number of 32 bits can be halved.
const HALVINGS: u32 = 32;

// The open segments come first, and then places without one.
#[derive(Drop)]
pub(crate) struct Open {
    count: usize,
    places: Vec<OpenSegment>,
}

impl Open {
    pub(crate) fn new(alloc: Global, segments: u32) -> Result<Open, AllocError> {
        let count = (segments as usize).saturating_add(1);
        Ok(Open {
            count: 0,
            places: vec![in alloc; NOWHERE; count]?,
        })
    }

    fn place(&self, at: usize) -> OpenSegment {
        match self.places.get(at) {
            Some(place) => *place,
            None => NOWHERE,
        }
    }

    fn set_place(&mut self, at: usize, next: OpenSegment) {
        if let Some(place) = self.places.get_mut(at) {
            *place = next;
        }
    }

    // How many open segments have an earlier deadline.
    fn rank(&self, deadline: u32) -> usize {
        let mut low = 0;
        let mut high = self.count;
        for halved in 0..HALVINGS {
            if low >= high {
                return low;
            }
            let middle = low.saturating_add(high.saturating_sub(low) / 2);
            if self.place(middle).deadline < deadline {
                low = middle.saturating_add(1);
            } else {
                high = middle;
            }
        }
        low
    }

    // The open segment with this deadline.
    pub(crate) fn at(&self, deadline: u32) -> Option<u32> {
        let rank = self.rank(deadline);
        if rank >= self.count {
            return None;
        }
        let place = self.place(rank);
        if place.deadline == deadline {
            Some(place.segment)
        } else {
            None
        }
    }

    // The open segment with the latest deadline from the earliest one up to the latest.
    pub(crate) fn within(&self, earliest: u32, latest: u32) -> Option<u32> {
        let found = self.at(latest);
        if found.is_some() {
            return found;
        }
        let place = self.place(self.rank(latest).checked_sub(1)?);
        if place.deadline >= earliest {
            Some(place.segment)
        } else {
            None
        }
    }

    // The segment is open now. Another one with its deadline isn't any more.
    pub(crate) fn add(&mut self, deadline: u32, segment: u32) {
        let rank = self.rank(deadline);
        let mut next = OpenSegment { deadline, segment };
        if self.at(deadline).is_some() {
            self.set_place(rank, next);
            return;
        }
        for at in rank..self.count.saturating_add(1) {
            let moved = self.place(at);
            self.set_place(at, next);
            next = moved;
        }
        self.count = self.count.saturating_add(1);
    }

    // The segment with this deadline isn't open any more.
    pub(crate) fn remove(&mut self, deadline: u32, segment: u32) {
        if self.at(deadline) != Some(segment) {
            return;
        }
        for at in self.rank(deadline)..self.count {
            let next = self.place(at.saturating_add(1));
            self.set_place(at, next);
        }
        self.count = self.count.saturating_sub(1);
    }
}
