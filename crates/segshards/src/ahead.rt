//! A look ahead in several indexes at a time: the waits for memory of up to 16 keys overlap,
//! whatever their shards. For each key its shard's client takes one step, which makes the seeker.
use segbase::CHAIN_BUCKETS;
use segclient::Index;
use segindex::{Lead, RowAhead, Seeker};

/// So many keys are looked ahead for at a time.
pub const ROUND: usize = 16;

/// For fewer keys a look ahead costs more than it spares.
pub const LEAST_AHEAD: usize = 8;

// A table with fewer buckets stays in the processor's own caches.
const LEAST_BUCKETS: u32 = 4096;

/// The indexes of a cache's shards.
pub trait Shards {
    /// The index of the shard at a place, if there is one.
    fn index_at(&self, place: usize) -> Option<&Index>;
}

/// Keys that are looked for: of each the place of its shard, and where in it.
#[derive(Drop)]
pub struct Batch {
    steps: [Option<(usize, Seeker)>; ROUND],
    count: usize,
}

impl Batch {
    /// No keys.
    pub fn new() -> Batch {
        Batch {
            steps: std::array::from_fn(|_| None),
            count: 0,
        }
    }

    /// Whether no other key has room here.
    #[inline(always)]
    pub fn is_full(&self) -> bool {
        self.count >= ROUND
    }

    /// One more, if there is room.
    #[inline(always)]
    pub fn push(&mut self, place: usize, seeker: Seeker) {
        if self.count < ROUND {
            self.steps[self.count] = Some((place, seeker));
            self.count += 1;
        }
    }

    /// Loads what commands on these keys will read. No keys are left.
    /// In each round all places are known before the first load begins.
    pub fn follow<S: Shards>(&mut self, shards: &S) {
        for _ in 0..CHAIN_BUCKETS {
            if self.count == 0 {
                return;
            }
            self.follow_each(shards);
        }
    }

    // Loads the rows that words of the keys' buckets name.
    // What is left are the keys whose chains go on.
    fn follow_each<S: Shards>(&mut self, shards: &S) {
        let mut next = Batch::new();
        let mut rows: [Option<(usize, RowAhead)>; ROUND] = std::array::from_fn(|_| None);
        for number in 0..ROUND {
            let Some((place, seeker)) = self.steps[number].take() else {
                continue;
            };
            let Some(index) = shards.index_at(place) else {
                continue;
            };
            match index.follow(seeker) {
                Lead::Row(row) => rows[number] = Some((place, row)),
                Lead::Bucket(seeker) => next.push(place, seeker),
                Lead::Nothing => {}
            }
        }
        for number in 0..ROUND {
            let Some((place, row)) = rows[number].take() else {
                continue;
            };
            if let Some(index) = shards.index_at(place) {
                index.load_row(row);
            }
        }
        *self = next;
    }
}

/// Whether a look ahead in this index can pay: its table is too large for the processor's caches.
pub fn is_large(index: &Index) -> bool {
    index.shape().buckets >= LEAST_BUCKETS
}
