//! An index and its passes, which take turns on one thread.
ghost use Rattle.std.specs.Prelude.{◌≡◌, ◌≢◌, ◌<◌, All, length, vec_len, IfOk};
ghost use Rattle.segmodel.specs.Words.{fresh};
ghost use Rattle.segstore.specs.Words.{IsQuiet};
ghost use Rattle.segindex.specs.Words.{board_of, IsNew, shape_of};
ghost use Rattle.segscript.specs.Passes.{CatchesUp, HaveMet};

use crate::engine::Engine;
use crate::turns::{leave, take_turn};
use segindex::{Hold, Index, Pass};
use segmodel::{Outcome, Turn};
use std::alloc::{AllocError, Global};

/// An index and its passes, in the order of their numbers.
/// At the place of each pass is the hold that it has.
pub struct Server<'i> {
    index: &'i Index,
    passes: Vec<Pass>,
    holds: Vec<Option<Hold<'i>>>,
    // The place of the pass that took the last turn. That pass has seen all that any pass has.
    last: usize,
}

// The passes at two places meet. The second has then seen all that the first has.
fn meet_at(index: &Index, passes: &mut [Pass], first: usize, second: usize)
    requires quiet { All (IsQuiet (board_of index.now)) passes.old }
    requires first { first < length passes.old }
    requires second { second < length passes.old }
    requires apart { first ≢ second }
    ensures { HaveMet (board_of index.now) first second passes.old passes.new }
{
    if first < second {
        let (front, back) = passes.split_at_mut(second);
        index.meet(&mut front[first], &mut back[0]);
    } else {
        let (front, back) = passes.split_at_mut(first);
        index.meet(&mut back[0], &mut front[second]);
    }
}

// If the pass at `last` had seen all that any pass had, so has the pass at `place` then.
fn catch_up(index: &Index, passes: &mut Vec<Pass>, last: usize, place: usize)
    requires quiet { All (IsQuiet (board_of index.now)) passes.old.items }
    requires last { last < vec_len passes.old }
    requires place { place < vec_len passes.old }
    ensures { CatchesUp (board_of index.now) last place passes.old.items passes.new.items }
{
    if last == place {
        return;
    }
    meet_at(index, passes, last, place);
}

impl<'i> Server<'i> {
    ghost use Rattle.segindex.specs.Words.{AreAllQuiet};
    ghost use Rattle.segscript.specs.Passes.{AllLeave};
    ghost use Rattle.segscript.specs.Server.{IsReady, state, NoneKeeps};

    /// A server of an index in which nothing was done yet. Its turns take no more memory.
    pub fn new(alloc: Global, index: &'i Index, passes: Vec<Pass>) -> Result<Server<'i>, AllocError>
        requires new { IsNew (shape_of index.now) index.now passes.items }
        ensures holds { IfOk result (λ server.
            (server.index.now ≡ index.now) × (server.passes.items ≡ passes.items)) }
        ensures ready { IfOk result IsReady }
        ensures start { IfOk result (λ server. state server ≡ fresh (shape_of index.now)) }
    {
        let mut holds = Vec::with_capacity(alloc, passes.len())?;
        for _ in 0..passes.len() {
            holds.push_reserved(None);
        }
        Ok(Server {
            index,
            passes,
            holds,
            last: 0,
        })
    }

    /// Ends the turns: each hold is released, and each bucket unlocked.
    /// The passes are in the order of their numbers, and can make further calls.
    pub fn end(self) -> Vec<Pass>
        requires ready { IsReady self }
        ensures all { length result.items ≡ (shape_of self.entry.index.now).passes }
        ensures left { NoneKeeps result.items }

        // Each pass is at its place, and did nothing but a release and an unlock.
        ensures leave { AllLeave (board_of self.entry.index.now) self.entry.passes.items
            result.items }

        // The index can be closed with them.
        ensures quiet { AreAllQuiet (board_of self.entry.index.now) result.items }
    {
        let Server {
            index,
            mut passes,
            mut holds,
            last: _,
        } = self;
        while let Some(hold) = holds.pop() {
            leave(index, &mut passes[holds.len()], hold);
        }
        holds.destroy_empty();
        passes
    }
}

impl Engine for Server<'_> {
    ghost use Rattle.segscript.specs.Server.{IsReady, TurnsOne};

    ghost shape = { λ server. shape_of server.index.now };

    ghost is_ready = { IsReady };

    ghost turns = { TurnsOne };

    fn passes(&self) -> u32 {
        self.index.shape().passes
    }

    fn turn(&mut self, pass: u32, turn: &Turn) -> Outcome
        requires pass { pass < (shape_of self.old.index.now).passes }
        requires ready { IsReady self.old }
        ensures ready { IsReady self.new }
        ensures shape { shape_of self.new.index.now ≡ shape_of self.old.index.now }

        // Before the turn the pass had seen all that any pass had seen. The others did nothing.
        ensures turns { TurnsOne self.old (pass, turn.now) result self.new }
    {
        let place = pass as usize;
        catch_up(self.index, &mut self.passes, self.last, place);
        self.last = place;
        take_turn(
            self.index,
            &mut self.passes[place],
            &mut self.holds[place],
            turn,
        )
    }
}
