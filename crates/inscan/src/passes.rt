//! A chunk in each of the two passes.

ghost use Rattle.std.specs.Prelude.{◌≡◌, ◌+◌, ◌≤◌, length, map, IfOk, IfErr};
ghost use Rattle.ktree.specs.declared.refusal.Refusal.TheVariants.{OutOfMemory};
ghost use Rattle.semantics.specs.Loops.Joined.{value_at};
ghost use Rattle.nest_space.specs.Space.{vectors};
ghost use Rattle.reduce.specs.Partial.{partial_of};
ghost use Rattle.overlay_pages.specs.Over.{AreOnce};
ghost use Rattle.lower.specs.Lowered.{IsSpaceOf};
ghost use Rattle.overlay.specs.Chunks.{ChangeOnly};
ghost use Rattle.inscan.specs.Passes.{IsFirstPass, IsSecondPass, LastsOfSecondPass};

use ktree::Refusal;
use lower::LoweredLoop;
use nest_space::Space;
use overlay::{Order, Piece, Start, Work, Worker};
use reduce::Partial;
use std::alloc::Global;

/// The partial of the first reduction variable, if there is one; of a scan's loop it has no other.
pub fn first_partial(partials: &[Partial]) -> Partial
    ensures { partial_of result ≡ value_at 0 (map partial_of partials.now) }
{
    match partials.first() {
        Some(partial) => *partial,
        None => Partial::Untouched,
    }
}

/// Runs a chunk of the loop of the input phase alone, and tells what it adds to the scan variable; nothing else of it counts.
///
/// # Errors
///
/// `OutOfMemory` alone; the next chunk may run then as well.
pub fn first_pass(
    alloc: Global,
    worker: &mut Worker<'_>,
    first: &LoweredLoop,
    registers: &[u64],
    space: &Space,
    work: Work,
) -> Result<Partial, Refusal>
    requires loops { length space.now ≡ length first.now.loops.items }
    requires space { IsSpaceOf first.now registers.now space.now }
    requires work { work.first + work.count ≤ length (vectors space.now) }
    ensures tells { IfOk result (IsFirstPass first.now registers.now worker.old work) }
    ensures store { worker.new ≡ worker.old }
    ensures refusal { IfErr result (λ refusal. refusal ≡ OutOfMemory) }
{
    let piece = worker.run_chunk(
        alloc,
        first,
        registers,
        space,
        Order::Sequential,
        work,
        Start::Reduction,
    )?;
    Ok(first_partial(piece.partials.as_slice()))
}

/// Runs a chunk of the whole loop from the store before the loop, with the scan variable at the chunk's start, and tells what it leaves.
///
/// # Errors
///
/// `OutOfMemory` alone; the next chunk may run then as well.
pub fn second_pass(
    alloc: Global,
    worker: &mut Worker<'_>,
    second: &LoweredLoop,
    registers: &[u64],
    space: &Space,
    work: Work,
    start: u64,
) -> Result<Piece, Refusal>
    requires loops { length space.now ≡ length second.now.loops.items }
    requires space { IsSpaceOf second.now registers.now space.now }
    requires work { work.first + work.count ≤ length (vectors space.now) }
    ensures leaves { IfOk result (IsSecondPass start second.now registers.now worker.old work) }
    ensures last { IfOk result (LastsOfSecondPass start second.now registers.now worker.old work) }
    ensures only { IfOk result (λ piece. ChangeOnly worker.old piece.changes) }
    ensures once { IfOk result (λ piece. AreOnce piece.changes) }
    ensures store { worker.new ≡ worker.old }
    ensures refusal { IfErr result (λ refusal. refusal ≡ OutOfMemory) }
{
    worker.run_chunk(
        alloc,
        second,
        registers,
        space,
        Order::Sequential,
        work,
        Start::Scan(start),
    )
}
