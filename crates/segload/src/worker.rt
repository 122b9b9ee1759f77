//! A pass that makes its commands of a load.
ghost use Rattle.std.specs.Prelude.{◌≡◌};
ghost use Rattle.segindex.specs.Words.{board_of};

use crate::client::Caller;
use crate::gate::Gate;
use crate::plan::LoadPlan;
use crate::totals::{PassTotals, Tallies};
use segindex::{Index, Pass};
use segpolicy::Workload;
use segtally::own_ring;

/// A pass with its commands, and how they were counted so far.
#[derive(Drop)]
pub(crate) struct Worker {
    pub(crate) client: Caller,
    pub(crate) workload: Workload,
    pub(crate) tallies: Tallies,
    pub(crate) is_stopped: bool,
}

/// What a worker returns: its totals, and its pass.
#[derive(Drop)]
pub(crate) struct Ended {
    pub(crate) totals: PassTotals,
    pub(crate) pass: Pass,
}

impl Worker {
    ghost use Rattle.segbase.specs.Words.{IsNewPass, number, number_of};
    ghost use Rattle.segstore.specs.Words.{IsQuiet};
    ghost use Rattle.segload.specs.Working.{BeginsLoad, BeginsPlan, EndsWork, HasWorked};

    /// A worker whose pass made no command yet.
    pub(crate) fn new(index: &Index, plan: LoadPlan, pass: Pass) -> Worker
        requires quiet { IsQuiet (board_of index.now) pass }
        requires new { IsNewPass (board_of index.now) (number pass) pass }
        ensures { BeginsPlan (board_of index.now) plan (number pass) result }
    {
        let ring = own_ring(index, &pass);
        let workload = plan.workload(pass.number());
        Worker {
            client: Caller::new(pass, ring),
            workload,
            tallies: Tallies::new(),
            is_stopped: false,
        }
    }

    /// The number of the worker's pass.
    pub(crate) fn number(&self) -> u32
        ensures { result ≡ number_of self.now.client.pass }
    {
        self.client.pass.number()
    }

    /// Makes the pass's commands, unless the gate stops it before one of them.
    pub(crate) fn work<G: Gate>(mut self, index: &Index, gate: &G, commands: u32) -> Worker
        requires begins { BeginsLoad (board_of index.now)
            self.workload (number self.client.pass) self }
        ensures { HasWorked (board_of index.now) (G.may_answer gate.now) (G.told gate.now)
            self.workload self.client.pass (number self.client.pass) commands result }
    {
        let pass = self.client.pass.number();
        for call in 0..commands {
            if !gate.enter(pass, call) {
                self.is_stopped = true;
                return self;
            }
            let load = self.workload.next();
            let tally = self.client.serve(index, load);
            self.tallies.count(tally);
            gate.answered(pass, call);
        }
        self
    }

    /// Looks at the table, and ends with what was counted of so many commands.
    pub(crate) fn end(self, index: &Index, commands: u32) -> Ended
        requires quiet { IsQuiet (board_of index.now) self.client.pass }
        ensures { EndsWork (board_of index.now) commands self result.totals result.pass }
    {
        let recycled = self.client.recycled;
        let tallies = self.tallies;
        let mut pass = self.client.into_pass();
        let table = index.stats(&mut pass);
        let totals = PassTotals {
            commands,
            tallies,
            recycled,
            table,
        };
        Ended { totals, pass }
    }
}
