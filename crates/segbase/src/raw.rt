//! The raw operations on one word. Each takes its step as a value that only contracts see.
ghost use Rattle.std.specs.Prelude.{◌≡◌, ℕ, ◌+◌, ◌%◌, ◌^◌, ◌<◌, ◌==◌, bit_or};
ghost use prog.Atomic.{either};
ghost use Rattle.segcore.specs.Words.{address, IsCell, Step};

use crate::board::Board;
use crate::pass::Pass;
use crate::place::Spot;
use std::marker::Brand;

impl Board {
    ghost use Rattle.segbase.specs.Passes.{CanStep, Stepped};
    ghost use Rattle.segbase.specs.Spots.{cell_of};

    // The place of a word in the table.
    pub(crate) fn index(&self, spot: Spot) -> usize
        requires { IsCell self.now.shape (cell_of self.now.shape spot) }
        ensures place { result ≡ address self.now.shape (cell_of self.now.shape spot) }
        ensures within { result < self.now.table.shared.table_id.words }
    {
        self.layout.index(&self.shape, spot)
    }

    pub(crate) fn load_at(&self, pass: &mut Pass, spot: Spot) -> u64
        ghost step: { Step }
        requires { CanStep self.now pass.old step spot (λ n. n) }
        ensures { Stepped self.now step result pass.old pass.new }
    {
        let index = self.index(spot);
        self.load_index(pass, spot, index)
    }

    // As `load_at`, if the place of the word in the table is known.
    pub(crate) fn load_index(&self, pass: &mut Pass, spot: Spot, index: usize) -> u64
        ghost step: { Step }
        requires can { CanStep self.now pass.old step spot (λ n. n) }
        requires place { index ≡ address self.now.shape (cell_of self.now.shape spot) }
        requires within { index < self.now.table.shared.table_id.words }
        ensures { Stepped self.now step result pass.old pass.new }
    {
        self.table.shared.load::<Brand>(&mut pass.seat, index)
    }

    pub(crate) fn store_at(&self, pass: &mut Pass, spot: Spot, word: u64)
        ghost step: { Step }
        requires { CanStep self.now pass.old step spot (λ _. word) }
        ensures { (found : ℕ) × Stepped self.now step found pass.old pass.new }
    {
        let index = self.index(spot);
        self.store_index(pass, spot, index, word)
    }

    // As `store_at`, where the place of the word in the table is known.
    pub(crate) fn store_index(&self, pass: &mut Pass, spot: Spot, index: usize, word: u64)
        ghost step: { Step }
        requires can { CanStep self.now pass.old step spot (λ _. word) }
        requires place { index ≡ address self.now.shape (cell_of self.now.shape spot) }
        requires within { index < self.now.table.shared.table_id.words }
        ensures { (found : ℕ) × Stepped self.now step found pass.old pass.new }
    {
        self.table
            .shared
            .store::<Brand>(&mut pass.seat, index, word)
    }

    pub(crate) fn or_at(&self, pass: &mut Pass, spot: Spot, bits: u64) -> u64
        ghost step: { Step }
        requires { CanStep self.now pass.old step spot (λ n. bit_or n bits) }
        ensures { Stepped self.now step result pass.old pass.new }
    {
        let index = self.index(spot);
        self.table
            .shared
            .fetch_or::<Brand>(&mut pass.seat, index, bits)
    }

    pub(crate) fn add_at(&self, pass: &mut Pass, spot: Spot, amount: u64) -> u64
        ghost step: { Step }
        requires { CanStep self.now pass.old step spot (λ n. (n + amount) % 2 ^ 64) }
        ensures { Stepped self.now step result pass.old pass.new }
    {
        let index = self.index(spot);
        self.table
            .shared
            .fetch_add::<Brand>(&mut pass.seat, index, amount)
    }

    pub(crate) fn exchange_at(&self, pass: &mut Pass, spot: Spot, old: u64, new: u64) -> u64
        ghost step: { Step }
        requires { CanStep self.now pass.old step spot (λ n. either (n == old) new n) }
        ensures { Stepped self.now step result pass.old pass.new }
    {
        let index = self.index(spot);
        self.table
            .shared
            .compare_exchange::<Brand>(&mut pass.seat, index, old, new)
    }
}
