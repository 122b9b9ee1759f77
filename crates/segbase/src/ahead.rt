//! A look ahead: words that commands on some keys are about to read are loaded together,
//! so that the waits for memory overlap.
//!
//! For each key a pass takes one step, which its trace has. This step is the leave to load
//! the words of a chain and one row besides: 37 words at most. These loads are no steps. Nothing
//! follows from what they find, and they change nothing.
ghost use Rattle.std.specs.Prelude.{◌<◌, ◌≤◌, ◌+◌, ◌↔◌, IsTrue};
ghost use Rattle.segcore.specs.declared.cell.Cell.TheVariants.{OfRow};
ghost use Rattle.segcore.specs.Words.{IsCell};
ghost use Rattle.segbase.specs.Ahead.{LooksOnce};
ghost use Rattle.segbase.specs.Passes.{IsPassOf};

use crate::board::Board;
use crate::overflow::CHAIN_BUCKETS;
use crate::pass::Pass;
use crate::place::{Place, Spot};
use segword::{BUCKET_WORDS, Chain, Item, LAST_WORD, ROW_WORDS, tag_of};

// So many keys are looked ahead for at a time.
const PIECE: usize = 16;

/// Keys that are looked for in one index: of each the tag, and the next bucket of its chain.
/// A step of a pass puts each key here, and only that.
#[derive(Drop)]
pub struct Seekers {
    tags: [u16; PIECE],
    buckets: [u32; PIECE],
    count: usize,
}

impl Seekers {
    /// No keys.
    #[inline(always)]
    pub fn new() -> Seekers {
        Seekers {
            tags: [0; PIECE],
            buckets: [0; PIECE],
            count: 0,
        }
    }

    /// Whether no other key has room here.
    #[inline(always)]
    pub fn is_full(&self) -> bool {
        self.count >= PIECE
    }

    // One more, if there is room.
    #[inline(always)]
    fn push(&mut self, tag: u16, bucket: u32) {
        if self.count < PIECE {
            self.tags[self.count] = tag;
            self.buckets[self.count] = bucket;
            self.count += 1;
        }
    }
}

/// A key that is looked for: its tag, the bucket of its chain that comes next,
/// and how many more may come. It can't be copied: a step of a pass makes it, and only that.
#[derive(Debug, Drop)]
pub struct Seeker {
    tag: u16,
    bucket: u32,
    left: u32,
}

/// Leave to load the ends of a row, once.
#[derive(Debug, Drop)]
pub struct RowAhead {
    segment: u32,
    row: u32,
}

/// What the words of a seeker's bucket lead to.
#[derive(Debug, Drop)]
pub enum Lead {
    /// The row of a word with the key's tag.
    Row(RowAhead),
    /// The next bucket of the chain.
    Bucket(Seeker),
    /// The chain ends here.
    Nothing,
}

impl Board {
    /// Looks for a key of this hash: at the first bucket of its chain, whose ends are loaded.
    #[inline(always)]
    pub fn seek(&self, pass: &mut Pass, hash: u64) -> Seeker
        requires pass { IsPassOf self.now pass.old }
        ensures looks { LooksOnce self.now pass.old pass.new }
    {
        Seeker {
            tag: tag_of(hash),
            bucket: self.look_first(pass, hash),
            left: CHAIN_BUCKETS - 1,
        }
    }

    /// As `seek`, for a key among others of this index. If they are full, it is left out.
    #[inline(always)]
    pub fn seek_among(&self, pass: &mut Pass, hash: u64, seekers: &mut Seekers)
        requires pass { IsPassOf self.now pass.old }
        ensures looks { LooksOnce self.now pass.old pass.new }
    {
        let bucket = self.look_first(pass, hash);
        seekers.push(tag_of(hash), bucket);
    }

    // The first bucket of the hash's chain. One of its ends is looked at, and the other one loaded.
    #[inline(always)]
    fn look_first(&self, pass: &mut Pass, hash: u64) -> u32
        requires pass { IsPassOf self.now pass.old }
        ensures looks { LooksOnce self.now pass.old pass.new }
    {
        let bucket = self.shape.bucket_of(hash);
        self.look(pass, Place { bucket, word: 1 });
        self.table.shared.peek(self.item_index(bucket, LAST_WORD));
        bucket
    }

    /// Loads the words that commands on these keys will read: of each key the buckets of its
    /// chain, up to a word with the key's tag, and the row that this word names.
    /// In each round all places are known before the first load begins. A round after the first
    /// is of the keys whose chains go on.
    pub fn follow_all(&self, seekers: &mut Seekers) {
        for round in 0..CHAIN_BUCKETS {
            if seekers.count == 0 {
                return;
            }
            if round > 0 {
                self.load_buckets(seekers);
            }
            self.follow_each(seekers);
        }
        seekers.count = 0;
    }

    // Loads the ends of the buckets that come next.
    fn load_buckets(&self, seekers: &Seekers) {
        for number in 0..seekers.count.min(PIECE) {
            self.load_bucket(seekers.buckets[number]);
        }
    }

    // Loads the rows that words of these buckets name.
    // Of the keys only those are left whose chains go on.
    #[inline(always)]
    fn follow_each(&self, seekers: &mut Seekers) {
        let mut words = [0; PIECE];
        let mut rows = 0;
        let count = seekers.count.min(PIECE);
        seekers.count = 0;
        for number in 0..count {
            let tag = seekers.tags[number];
            let (found, last) = self.words_of(seekers.buckets[number], tag);
            if found != 0 {
                if rows < PIECE {
                    words[rows] = found;
                    rows += 1;
                }
            } else if let Some(next) = self.chained_to(last) {
                seekers.push(tag, next);
            }
        }
        for number in 0..rows.min(PIECE) {
            if let Some(item) = Item::unpack(words[number]) {
                self.load_ends(item.seg, item.row);
            }
        }
    }

    /// Where the words of the seeker's bucket lead to. The ends of the bucket that comes next
    /// are loaded.
    #[inline(always)]
    pub fn follow(&self, seeker: Seeker) -> Lead {
        let (found, last) = self.words_of(seeker.bucket, seeker.tag);
        if let Some(item) = Item::unpack(found) {
            return Lead::Row(RowAhead {
                segment: item.seg,
                row: item.row,
            });
        }
        match self.chained_to(last) {
            Some(bucket) if seeker.left > 0 => {
                self.load_bucket(bucket);
                Lead::Bucket(Seeker {
                    tag: seeker.tag,
                    bucket,
                    left: seeker.left - 1,
                })
            }
            _ => Lead::Nothing,
        }
    }

    /// Loads the ends of the row.
    #[inline(always)]
    pub fn load_row(&self, row: RowAhead) {
        self.load_ends(row.segment, row.row);
    }

    // The words of a bucket lie in two cache lines at most: that of the first, and that of the last.
    #[inline(always)]
    fn load_bucket(&self, bucket: u32) {
        if self.has_bucket(bucket) {
            self.table.shared.peek(self.item_index(bucket, 1));
            self.table.shared.peek(self.item_index(bucket, LAST_WORD));
        }
    }

    // So do those of a row.
    #[inline(always)]
    fn load_ends(&self, segment: u32, row: u32) {
        if self.has_row(segment, row) {
            self.table.shared.peek(self.row_index(segment, row, 0));
            self.table
                .shared
                .peek(self.row_index(segment, row, ROW_WORDS as u8 - 1));
        }
    }

    // Of a bucket's words one with this tag, or 0, and the last.
    #[inline(always)]
    fn words_of(&self, bucket: u32, tag: u16) -> (u64, u64) {
        let mut found = 0;
        let mut word = 0;
        if !self.has_bucket(bucket) {
            return (found, word);
        }
        for number in 1..BUCKET_WORDS as u8 {
            word = self.table.shared.peek(self.item_index(bucket, number));
            if Item::has_tag(word, tag) {
                found = word;
            }
        }
        (found, word)
    }

    // The bucket by which a chain with this last word goes on.
    #[inline(always)]
    fn chained_to(&self, word: u64) -> Option<u32> {
        match Chain::unpack(word) {
            Some(number) => Some(self.shape.buckets + number),
            None => None,
        }
    }

    fn has_bucket(&self, bucket: u32) -> bool
        ensures { IsTrue result ↔ (bucket < self.now.shape.buckets + self.now.shape.overflow) }
    {
        bucket < self.shape.buckets + self.shape.overflow
    }

    fn has_row(&self, segment: u32, row: u32) -> bool
        ensures { IsTrue result ↔ IsCell self.now.shape (OfRow segment row 0) }
    {
        segment < self.shape.passes * self.shape.segments_each && row < self.shape.rows
    }

    fn item_index(&self, bucket: u32, word: u8) -> usize
        requires bucket { bucket < self.now.shape.buckets + self.now.shape.overflow }
        requires word { word ≤ LAST_WORD }
        ensures { result < self.now.table.shared.table_id.words }
    {
        self.index(Spot::Item(Place { bucket, word }))
    }

    fn row_index(&self, segment: u32, row: u32, word: u8) -> usize
        requires row { IsCell self.now.shape (OfRow segment row word) }
        ensures { result < self.now.table.shared.table_id.words }
    {
        self.index(Spot::Row { segment, row, word })
    }
}
