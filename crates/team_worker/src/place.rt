//! A place for what a worker leaves.

ghost use Rattle.std.specs.Prelude.{◌≡◌, ℕ, Option, IfSome};
ghost use Rattle.std.specs.Global.{Box};
ghost use Rattle.team_worker.specs.declared.way.Draw.{Draw};
ghost use Rattle.team_worker.specs.declared.way.Way.TheVariants.{Dealt, Drawn};
ghost use Rattle.team_worker.specs.Places.{IsEnd, IsEndBy};

use crate::pass::Pass;
use crate::way::Way;
use crate::worker::Finished;
use counted_slot::{Counted, FREE, Fits, PRESENT, TAKEN};
use ktree::Workers;
use lower::LoweredLoop;
use schedule::Chunks;
use std::marker::Model;
use std::snapshot::Snapshot;
use store::Store;
use team_log::ChunkLog;

/// What lies at a place: what a worker leaves there, the log of its own chunks or of those that it drew; before that the memory of a log,
/// whatever it holds, which the worker takes in exchange. Boxes pass through few cache lines from thread to thread.
#[derive(Drop)]
pub enum End {
    Share(Box<ChunkLog>),
    Draws(Finished),
    Spare(Box<ChunkLog>),
}

/// What a place is made for. Only proofs see it.
#[derive(Drop)]
pub struct Plan {
    lowered: Snapshot<LoweredLoop>,
    registers: Snapshot<Vec<u64>>,
    store: Snapshot<Store>,
    pass: Snapshot<Pass>,
    chunks: Snapshot<Chunks>,
    way: Snapshot<Way>,
    workers: u64,
    number: u64,
}

impl Model for Plan {
    ghost use Rattle.std.specs.Coded.{codes};
    ghost use Rattle.lower_block.specs.contracts.tree.Block as block;
    ghost use Rattle.team_worker.specs.Places.{Aim};

    ghost Value = { Aim };

    ghost coded = { Prim.hlevel (codes, block.the_row.coded) };

    ghost view = { λ p. record {
      lowered = p.lowered.value;
      registers = p.registers.value.items;
      store = p.store.value;
      pass = p.pass.value;
      chunks = p.chunks.value;
      way = p.way.value;
      workers = p.workers;
      number = p.number;
    } };
}

impl Plan {
    /// The end of the worker of this number, of so many that run this loop.
    pub(crate) fn new(
        lowered: &LoweredLoop,
        registers: &Vec<u64>,
        store: &Store,
        pass: &Pass,
        chunks: &Chunks,
        way: &Way,
        workers: Workers,
        number: u64,
    ) -> Plan
        ensures { result ≡ record {
          lowered = lowered.now;
          registers = registers.now.items;
          store = store.now;
          pass = pass.now;
          chunks = chunks.now;
          way = way.now;
          workers = workers;
          number = number;
        } }
    {
        Plan {
            lowered: Snapshot::of(lowered),
            registers: Snapshot::of(registers),
            store: Snapshot::of(store),
            pass: Snapshot::of(pass),
            chunks: Snapshot::of(chunks),
            way: Snapshot::of(way),
            workers: workers.get(),
            number,
        }
    }
}

/// An end fits what it is made for.
impl Fits for End {
    ghost use Rattle.team_worker.specs.Places.{IsEnd};

    type Tag = Plan;

    ghost fits = { IsEnd };
}

/// A place for the end of a worker. Contracts see it as what it is made for.
#[derive(Drop)]
pub struct Place {
    slot: Counted<End>,
    // has the next place of a list on other cache lines, since other threads write there
    apart: [u64; 8],
}

impl Model for Place {
    ghost use Rattle.std.specs.Coded.{codes};
    ghost use Rattle.lower_block.specs.contracts.tree.Block as block;
    ghost use Rattle.team_worker.specs.Places.{Aim};

    ghost Value = { Aim };

    ghost coded = { Prim.hlevel (codes, block.the_row.coded) };

    ghost view = { λ p. p.slot };
}

impl Place {
    /// A place with memory for a log in it.
    pub(crate) fn new(plan: &Plan, memory: Box<ChunkLog>) -> Place
        ensures { result ≡ plan.now }
    {
        Place {
            slot: Counted::new(End::Spare(memory), plan),
            apart: [0; 8],
        }
    }

    /// Puts an end here, if nobody has done so, and takes the memory that was here.
    #[inline(always)]
    pub(crate) fn hand_in(&self, end: End) -> Option<Box<ChunkLog>>
        requires { IsEnd self.now end }
    {
        let (found, claim) = self.slot.turn(FREE, TAKEN);
        if found != FREE {
            claim.done();
            return None;
        }
        match claim.put(end, PRESENT) {
            End::Spare(memory) => Some(memory),
            _ => None,
        }
    }

    /// What is here.
    fn close(self) -> End
        ensures { IsEnd self result }
    {
        let Place { slot, apart: _ } = self;
        slot.into_inner()
    }

    /// The log of a worker's own chunks, if that is here.
    #[inline(always)]
    pub(crate) fn share(self) -> Option<Box<ChunkLog>>
        ensures { IfSome result (λ log. (size : Option ℕ) → self.way ≡ Dealt size
            → IsEndBy self (Dealt size) (End.Share log)) }
    {
        match self.close() {
            End::Share(log) => Some(log),
            _ => None,
        }
    }

    /// What a worker drew, if that is here.
    pub(crate) fn draws(self) -> Option<Finished>
        ensures { IfSome result (λ f. (draw : Box Draw) → self.way ≡ Drawn draw
            → IsEndBy self (Drawn draw) (End.Draws f)) }
    {
        match self.close() {
            End::Draws(finished) => Some(finished),
            _ => None,
        }
    }
}
