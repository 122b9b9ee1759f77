//! What passes learn of each other, and what they keep in mind.
//! The table lets a view change when a word is loaded.
//! So passes tell each other what they have seen by loads, which change no word.
ghost use Rattle.std.specs.Prelude.{◌≡◌};
ghost use Rattle.segmodel.specs.Words.{AreOne, Begins};
ghost use Rattle.segbase.specs.declared.law.Memo.{Memo};

use crate::board::Board;
use crate::law::{Carry, Tell};
use crate::pass::Pass;
use std::marker::Brand;

impl Board {
    ghost use Rattle.segbase.specs.Passes.{sight, view, trace, IsPassOf, IsMemo, SeesMore};

    /// Both passes have then seen what either had seen before, the second all that the first has.
    /// Of what the two had seen, one began the other.
    pub fn meet(&self, first: &mut Pass, second: &mut Pass)
        requires first { IsPassOf self.now first.old }
        requires second { IsPassOf self.now second.old }
        ensures first { SeesMore self.now first.old first.new }
        ensures second { SeesMore self.now second.old second.new }
        ensures met { Begins (trace second.old) (trace first.new)
            × Begins (trace first.new) (trace second.new) }
        ensures one { AreOne (trace first.old) (trace second.old) }
    {
        self.tell(first, second);
        self.tell(second, first);
    }

    // The pass has then seen what the other has seen. The other pass changes nothing of its own.
    fn tell(&self, pass: &mut Pass, other: &mut Pass)
        requires pass { IsPassOf self.now pass.old }
        requires other { IsPassOf self.now other.old }
        ensures pass { SeesMore self.now pass.old pass.new }
        ensures other { IsPassOf self.now other.new
            × (sight other.new ≡ sight other.old) × (other.new.plain ≡ other.old.plain) }
        ensures met { Begins (trace other.old) (trace pass.new) }
    {
        let carried = self.table.shared.split_seat::<Carry>(&mut other.seat);
        self.table.shared.join_seat::<Tell>(&mut pass.seat, carried);
        let own = pass.plain.first;
        self.row_load(pass, own, 0, 0);
    }

    /// The pass keeps in mind what it holds and what it has locked,
    /// each as it was at a moment that it has seen. It is only for contracts.
    pub fn remember(&self, pass: &mut Pass)
        ghost memo: { Memo }
        requires pass { IsPassOf self.now pass.old }
        requires memo { IsMemo self.now pass.old memo }
        ensures pass { IsPassOf self.now pass.new }
        ensures memo { (sight pass.new).memo ≡ memo }
        ensures same { (view pass.new ≡ view pass.old) × (pass.new.plain ≡ pass.old.plain) }
    {
        self.table.shared.split_seat::<Brand>(&mut pass.seat);
    }
}
