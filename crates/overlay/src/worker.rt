//! A worker's chunks.

ghost use Rattle.std.specs.Prelude.{◌≡◌, ◌+◌, ◌≤◌, length, replicate, None, IfOk, IfErr};
ghost use Rattle.ktree.specs.declared.refusal.Refusal.TheVariants.{OutOfMemory};
ghost use Rattle.nest_space.specs.Space.{vectors};
ghost use Rattle.store.specs.Flat.{values_of};
ghost use Rattle.overlay_pages.specs.Over.{writes_of, written_over, AreOnce};
ghost use Rattle.overlay_pages.specs.Seen.{cells_of};
ghost use Rattle.lower.specs.Lowered.{IsSpaceOf};
ghost use Rattle.overlay.specs.Chunks.{IsChunkFrom, IsLastFrom, ChangeOnly};
ghost use Rattle.overlay.specs.Positions.{ordered, AreNumbersOf};

use crate::beginning::Start;
use crate::ending::Told;
use crate::positions::Order;
use crate::running::run_copied;
use ktree::{ChunkNo, Refusal};
use lane_rows::Bench;
use lower::LoweredLoop;
use lower_lanes::new_bench;
use nest_space::Space;
use overlay_pages::{Changes, Chunk, Own};
use reduce::Partial;
use seqrun_io::Memory;
use std::alloc::{AllocError, Global};
use std::marker::Model;
use store::Store;

/// The iterations of a chunk: those at so many positions from a first one on, in the order in which a loop's iterations are taken (OpenMP
/// 5.2, 11.5).
#[derive(Clone, Copy, Debug, PartialEq, Eq)]
pub struct Work {
    pub chunk: ChunkNo,
    pub first: u64,
    pub count: u64,
}

/// What a chunk leaves (OpenMP 5.2, 5.4.5, 5.5.2 and 11.5).
#[derive(Drop)]
pub struct Piece {
    /// What it changed of the store, but for reduction and lastprivate variables.
    pub changes: Changes,
    /// For each reduction variable what its iterations are combined to.
    pub partials: Vec<Partial>,
    /// What each lastprivate variable holds, where the chunk has the last iteration; no values where it has not.
    pub lasts: Vec<u64>,
    /// What its iterations print, in their order.
    pub text: Memory,
}

/// What a worker's tools are: cells of its own, which are with its chunk while it runs, registers, and room for rows.
#[derive(Drop)]
struct Kept {
    own: Option<Own>,
    registers: Vec<u64>,
    bench: Bench,
}

/// What a worker leaves to one of a later loop: memory, and nothing written in the cells of its own. It stands in a box, since it is moved from
/// loop to loop. Contracts see it as how many cells there are.
#[derive(Drop)]
pub struct Tools {
    kept: Box<Kept>,
}

impl Model for Tools {
    ghost use Rattle.std.specs.Prelude.{ℕ};
    ghost use Rattle.overlay.specs.Unwritten.{count_of, AreUnwritten};

    ghost Value = { ℕ };

    ghost view = { λ t. count_of t.kept.value.own };

    ghost invariant = { λ t. AreUnwritten t.kept.value.own };
}

/// What a worker keeps from chunk to chunk, over the store before the loop.
#[derive(Drop)]
pub struct Worker<'s> {
    cells: Chunk<'s>,
    kept: Box<Kept>,
}

impl<'s> Model for Worker<'s> {
    ghost use Rattle.std.specs.Prelude.{◌≡◌, List, length, replicate, None};
    ghost use Rattle.store.specs.Kept.{Kept};
    ghost use Rattle.store.specs.Flat.{values_of};

    ghost Value = { List Kept };

    ghost view = { λ w. w.cells.store };

    ghost invariant = { λ w. w.cells.written
        ≡ replicate (length (values_of w.cells.store)) None };
}

// Ends a chunk of which this is told.
fn finish(alloc: Global, told: Told, cells: &mut Chunk<'_>) -> Result<Piece, AllocError>
    ensures leave { IfOk result (λ piece.
        written_over (writes_of piece.changes) (values_of cells.old.store) ≡ cells_of cells.old) }
    ensures only { IfOk result (λ piece. ChangeOnly cells.old.store piece.changes) }
    ensures once { IfOk result (λ piece. AreOnce piece.changes) }
    ensures partials { IfOk result (λ piece. piece.partials ≡ told.partials) }
    ensures lasts { IfOk result (λ piece. piece.lasts ≡ told.lasts) }
    ensures text { IfOk result (λ piece. piece.text ≡ told.text) }
    ensures store { cells.new.store ≡ cells.old.store }
    ensures unwritten { cells.new.written
        ≡ replicate (length (values_of cells.new.store)) None }
{
    match cells.finish(alloc) {
        Ok(changes) => Ok(Piece {
            changes,
            partials: told.partials,
            lasts: told.lasts,
            text: told.text,
        }),
        Err(AllocError) => Err(AllocError),
    }
}

// Runs a chunk over a worker's own registers and cells, of which none is written before and behind it.
fn run_whole(
    alloc: Global,
    lowered: &LoweredLoop,
    registers: &[u64],
    space: &Space,
    order: Order,
    work: Work,
    start: Start,
    own: &mut Vec<u64>,
    cells: &mut Chunk<'_>,
    bench: &mut Bench,
) -> Result<Piece, Refusal>
    requires loops { length space.now ≡ length lowered.now.loops.items }
    requires space { IsSpaceOf lowered.now registers.now space.now }
    requires work { work.first + work.count ≤ length (ordered order (vectors space.now)) }
    requires numbers { AreNumbersOf order (vectors space.now) }
    requires unwritten { cells.old.written
        ≡ replicate (length (values_of cells.old.store)) None }
    ensures leaves { IfOk result
        (IsChunkFrom start order.entry lowered.now registers.now cells.old.store work) }
    ensures last { IfOk result
        (IsLastFrom start order.entry lowered.now registers.now cells.old.store work) }
    ensures only { IfOk result (λ piece. ChangeOnly cells.old.store piece.changes) }
    ensures once { IfOk result (λ piece. AreOnce piece.changes) }
    ensures refusal { IfErr result (λ refusal. refusal ≡ OutOfMemory) }
    ensures store { cells.new.store ≡ cells.old.store }
    ensures unwritten { cells.new.written
        ≡ replicate (length (values_of cells.new.store)) None }
{
    match run_copied(
        alloc, lowered, registers, space, order, work, start, own, cells, bench,
    ) {
        Ok(told) => Ok(finish(alloc, told, cells)?),
        Err(AllocError) => {
            cells.clear();
            Err(Refusal::OutOfMemory)
        }
    }
}

// Tools in which nothing is written, in a box.
fn box_tools(alloc: Global, own: Own, bench: Bench) -> Result<Tools, AllocError>
    requires { own ≡ replicate (length own) None }
    ensures { IfOk result (λ tools. tools ≡ length own) }
{
    let kept = Kept {
        own: Some(own),
        registers: Vec::new(alloc),
        bench,
    };
    Ok(Tools {
        kept: Box::new(alloc, kept)?,
    })
}

impl Tools {
    /// Tools for a worker over the cells of a store.
    ///
    /// # Errors
    ///
    /// `OutOfMemory` alone.
    pub fn new(alloc: Global, store: &Store) -> Result<Tools, Refusal>
        ensures many { IfOk result (λ tools. tools ≡ length (values_of store.now)) }
        ensures refusal { IfErr result (λ refusal. refusal ≡ OutOfMemory) }
    {
        let own = Own::new(alloc, store)?;
        let bench = new_bench(alloc)?;
        Ok(box_tools(alloc, own, bench)?)
    }

    // Of how many cells they are.
    fn cells(&self) -> u64
        ensures { result ≡ self.now }
    {
        match &self.kept.own {
            Some(own) => own.cells(),
            None => 0,
        }
    }

    /// What another worker left, if that is of as many cells as the store has; else new ones.
    ///
    /// # Errors
    ///
    /// `OutOfMemory` alone.
    pub fn resume(alloc: Global, store: &Store, left: Option<Tools>) -> Result<Tools, Refusal>
        ensures many { IfOk result (λ tools. tools ≡ length (values_of store.now)) }
        ensures refusal { IfErr result (λ refusal. refusal ≡ OutOfMemory) }
    {
        let Some(tools) = left else {
            return Tools::new(alloc, store);
        };
        if tools.cells() != store.cells().len() as u64 {
            return Tools::new(alloc, store);
        }
        Ok(tools)
    }
}

impl<'s> Worker<'s> {
    /// A worker that has run no chunk yet.
    ///
    /// # Errors
    ///
    /// `OutOfMemory` alone.
    pub fn new(alloc: Global, store: &'s Store) -> Result<Worker<'s>, Refusal>
        ensures store { IfOk result (λ worker. worker ≡ store.now) }
        ensures refusal { IfErr result (λ refusal. refusal ≡ OutOfMemory) }
    {
        let tools = Tools::new(alloc, store)?;
        Ok(Worker::over(store, tools))
    }

    /// A worker with these tools, over a store of as many cells.
    pub fn over(store: &'s Store, tools: Tools) -> Worker<'s>
        requires { tools ≡ length (values_of store.now) }
        ensures { result ≡ store.now }
    {
        let Tools { mut kept } = tools;
        let Some(own) = kept.own.take() else {
            unreachable!()
        };
        Worker {
            cells: Chunk::over(store, own),
            kept,
        }
    }

    /// What it leaves to one of a later loop.
    pub fn leave(self) -> Tools
        ensures { result ≡ length (values_of self.entry) }
    {
        let Worker { cells, mut kept } = self;
        kept.own = Some(cells.release());
        Tools { kept }
    }

    /// Runs a chunk, whose iterations are taken in this order, from the store before the loop and from registers that stand as before it,
    /// and tells what it leaves and prints. A chunk of listed iterations tells no values of lastprivate variables.
    ///
    /// A reduction variable begins with its operator's identity, or of && and || with what it held before the loop, or with the number
    /// that is given; its partial is what it holds in the end, unless that is what it began with.
    ///
    /// # Errors
    ///
    /// `OutOfMemory` alone; the next chunk may run then as well.
    pub fn run_chunk(
        &mut self,
        alloc: Global,
        lowered: &LoweredLoop,
        registers: &[u64],
        space: &Space,
        order: Order,
        work: Work,
        start: Start,
    ) -> Result<Piece, Refusal>
        requires loops { length space.now ≡ length lowered.now.loops.items }
        requires space { IsSpaceOf lowered.now registers.now space.now }
        requires work { work.first + work.count ≤ length (ordered order (vectors space.now)) }
        requires numbers { AreNumbersOf order (vectors space.now) }
        ensures store { self.new ≡ self.old }
        ensures leaves { IfOk result
            (IsChunkFrom start order.entry lowered.now registers.now self.old work) }
        ensures last { IfOk result
            (IsLastFrom start order.entry lowered.now registers.now self.old work) }
        ensures only { IfOk result (λ piece. ChangeOnly self.old piece.changes) }
        ensures once { IfOk result (λ piece. AreOnce piece.changes) }
        ensures refusal { IfErr result (λ refusal. refusal ≡ OutOfMemory) }
    {
        let kept: &mut Kept = &mut self.kept;
        run_whole(
            alloc,
            lowered,
            registers,
            space,
            order,
            work,
            start,
            &mut kept.registers,
            &mut self.cells,
            &mut kept.bench,
        )
    }
}
