//! A board at its end: its words at rest, which no pass changes any more.
ghost use Rattle.std.specs.Prelude.{◌≡◌, ◌<◌, ◌≤◌, ◌^◌, List};
ghost use Rattle.std.specs.Slots.{slots_len, IsFull};
ghost use Rattle.segword.specs.Words.{word_count};
ghost use Rattle.segcore.specs.declared.event.Event.{Event};
ghost use Rattle.segcore.specs.declared.cell.Cell.{Cell};
ghost use Rattle.segcore.specs.Words.{IsSegment};
ghost use Rattle.segbase.specs.Spots.{IsLayoutOf};

use crate::board::Board;
use crate::law::{GiveUp, Nobody, Sight};
use crate::layout::Layout;
use crate::pass::Pass;
use crate::place::{Place, Spot};
use atomic_table::{Closed, Seat};
use segword::{ITEM_WORDS, ROW_WORDS, Shape, span_of_header};
use std::alloc::Global;

/// The words of a board that was closed.
pub struct Words {
    pub(crate) closed: Closed<(), Global>,
    pub(crate) shape: Shape,
    pub(crate) layout: Layout,
    ghost full: { IsFull closed.words },
    ghost long: { slots_len closed.words ≡ word_count shape },
    ghost slots: { slots_len closed.slots ≡ 0 },
    ghost small: { word_count shape ≤ 2 ^ 26 },
    ghost laid: { IsLayoutOf shape layout },
}

impl Drop for Words {
    fn drop(self) {
        let Words {
            closed,
            shape: _,
            layout: _,
        } = self;
        closed.free();
    }
}

impl Board {
    ghost use Rattle.std.specs.Prelude.{map};
    ghost use Rattle.segbase.specs.Passes.{IsPassOf, view};
    ghost use Rattle.segbase.specs.Closing.{AreAll, Closes, ClosesAll};

    /// Ends the board with one of its passes. What is left of the others takes no more steps.
    pub fn close(self, pass: Pass) -> Words
        requires { IsPassOf self pass }
        ensures { (now : List Event) × Closes self pass result now }
    {
        let Board {
            table,
            shape,
            limits: _,
            layout,
        } = self;
        Words {
            closed: table.close_with(pass.seat),
            shape,
            layout,
        }
    }

    /// Ends the board with all its passes. What one of them has seen is then all that has happened.
    pub fn close_all(self, passes: Vec<Pass>) -> Words
        requires { AreAll self passes.items }
        ensures { ClosesAll self passes.items result }
    {
        let ended = self.give_up(passes);
        let Board {
            table,
            shape,
            limits: _,
            layout,
        } = self;
        Words {
            closed: table.close_with(ended),
            shape,
            layout,
        }
    }

    // A seat to which the passes were given up, so that none of them takes one more step.
    fn give_up(&self, mut passes: Vec<Pass>) -> Seat<(), Sight>
        requires { AreAll self.now passes.items }
        ensures table { result.table_id ≡ self.now.table.shared.table_id }
        ensures views { result.me.0.ended ≡ map view passes.items }
    {
        let (_, mut ended) = self.table.shared.load_new_seat::<Nobody>(0);
        while let Some(pass) = passes.pop() {
            self.table.shared.join_seat::<GiveUp>(&mut ended, pass.seat);
        }
        ended
    }
}

impl Words {
    ghost use Rattle.segcore.specs.Words.{address, IsCell};
    ghost use Rattle.segbase.specs.Spots.{IsPlace, cell_at, cell_of};
    ghost use Rattle.segbase.specs.Closing.{HasWordsOf, shape_of, word_of_cell};

    /// The shape of the board.
    pub fn shape(&self) -> Shape
        ensures { result ≡ shape_of self.now }
    {
        self.shape
    }

    /// The word at a place of the table.
    /// The counter lies first, then the buckets, the overflow buckets,
    /// and each segment's word with its rows.
    pub fn at(&self, place: usize) -> u64
        requires { place < word_count (shape_of self.now) }
        ensures { (cell : Cell) → address (shape_of self.now) cell ≡ place
            → result ≡ word_of_cell self.now cell }
    {
        self.closed.word(place)
    }

    /// An item word.
    pub fn item(&self, place: Place) -> u64
        requires { IsPlace (shape_of self.now) place }
        ensures { result ≡ word_of_cell self.now (cell_at (shape_of self.now) place) }
    {
        self.word(Spot::Item(place))
    }

    /// The words of a row, and of those behind it of the item that begins there.
    /// Behind them is 0.
    pub fn row(&self, segment: u32, row: u32) -> [u64; ITEM_WORDS]
        requires segment { IsSegment (shape_of self.now) segment }
        requires row { row < (shape_of self.now).rows }
        ensures { HasWordsOf self.now segment row result }
    {
        let header = self.word(Spot::Row {
            segment,
            row,
            word: 0,
        });
        let rows = span_of_header(header).min(self.shape.rows - row);
        let mut words = [0; ITEM_WORDS];
        for at in 0..ITEM_WORDS.min(ROW_WORDS * rows as usize) {
            words[at] = self.word(Spot::Row {
                segment,
                row: row + (at / ROW_WORDS) as u32,
                word: (at % ROW_WORDS) as u8,
            });
        }
        words
    }

    fn word(&self, spot: Spot) -> u64
        requires { IsCell (shape_of self.now) (cell_of (shape_of self.now) spot) }
        ensures { result ≡ word_of_cell self.now (cell_of (shape_of self.now) spot) }
    {
        self.closed.word(self.layout.index(&self.shape, spot))
    }
}
