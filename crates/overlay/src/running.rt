//! A chunk's iterations, from what its reduction variables begin with to what is told of them.

ghost use Rattle.std.specs.Prelude.{◌≡◌, ◌+◌, ◌≤◌, length, IfOk};
ghost use Rattle.store.specs.Flat.{values_of};
ghost use Rattle.nest_space.specs.Space.{vectors};
ghost use Rattle.lower_machine.specs.Machine.{machine};
ghost use Rattle.overlay_pages.specs.Seen.{cells_of};
ghost use Rattle.overlay.specs.Positions.{ordered, AreNumbersOf, has_last};
ghost use Rattle.overlay.specs.Running.{IsRun, IsRunOver};

use crate::beginning::{Start, begin, confirm_word};
use crate::ending::{Told, put_roles_back, tell};
use crate::positions::Order;
use crate::walking::{copy_registers, end_of, run_iterations};
use crate::worker::Work;
use lane_rows::Bench;
use lower::{LoweredLoop, LoweredReduction, Spot};
use nest_space::Space;
use overlay_pages::Chunk;
use std::alloc::{AllocError, Global};

// Whether a chunk counts as the one with the last iteration.
fn has_last(space: &Space, order: Order, work: Work) -> bool
    requires { work.first + work.count ≤ length (ordered order (vectors space.now)) }
    ensures { result ≡ has_last order.entry (vectors space.now) work }
{
    match order {
        Order::Sequential => end_of(space, work) == space.count(),
        Order::Listed(_) => false,
    }
}

// Has the first reduction variable, if it stands at file scope, where its cell is read and written soonest.
fn bring_near(reductions: &[LoweredReduction], cells: &mut Chunk<'_>)
    ensures { cells.new ≡ cells.old }
{
    if let Some(first) = reductions.first()
        && let Spot::Cell(place) = first.spot
    {
        cells.bring_near(place);
    }
}

// Runs a chunk over registers that hold what others did before the loop.
fn run_from(
    alloc: Global,
    lowered: &LoweredLoop,
    before: &[u64],
    space: &Space,
    order: Order,
    work: Work,
    start: Start,
    registers: &mut [u64],
    cells: &mut Chunk<'_>,
    bench: &mut Bench,
) -> Result<Told, AllocError>
    requires loops { length space.now ≡ length lowered.now.loops.items }
    requires work { work.first + work.count ≤ length (ordered order (vectors space.now)) }
    requires numbers { AreNumbersOf order (vectors space.now) }
    requires wide { lowered.now.body.registers ≤ length registers.old }
    ensures ran { IfOk result (λ told. IsRun lowered.now space.now order.entry work start
        (machine before.now (values_of cells.old.store))
        (machine registers.old (cells_of cells.old)) told (cells_of cells.new)) }
    ensures store { cells.new.store ≡ cells.old.store }
{
    confirm_word(start);
    let reductions = lowered.roles.reductions.as_slice();
    begin(reductions, start, registers, cells);
    bring_near(reductions, cells);
    let text = run_iterations(alloc, lowered, space, order, work, registers, cells, bench)?;
    let has_last = has_last(space, order, work);
    let told = tell(
        alloc,
        &lowered.roles,
        start,
        has_last,
        before,
        registers,
        cells,
        text,
    )?;
    put_roles_back(&lowered.roles, cells);
    Ok(told)
}

/// Runs a chunk over a worker's own registers, which are first made what these are, and the cells of a chunk, of which none is written before;
/// behind it none is that a reduction or lastprivate variable has.
///
/// # Errors
///
/// Where memory runs out; cells may be written then.
pub fn run_copied(
    alloc: Global,
    lowered: &LoweredLoop,
    registers: &[u64],
    space: &Space,
    order: Order,
    work: Work,
    start: Start,
    own: &mut Vec<u64>,
    cells: &mut Chunk<'_>,
    bench: &mut Bench,
) -> Result<Told, AllocError>
    requires loops { length space.now ≡ length lowered.now.loops.items }
    requires work { work.first + work.count ≤ length (ordered order (vectors space.now)) }
    requires numbers { AreNumbersOf order (vectors space.now) }
    requires unwritten { cells_of cells.old ≡ values_of cells.old.store }
    ensures ran { IfOk result (λ told. IsRunOver lowered.now space.now order.entry work start
        (machine registers.now (values_of cells.old.store)) told (cells_of cells.new)) }
    ensures store { cells.new.store ≡ cells.old.store }
{
    copy_registers(own, registers, lowered.body.registers)?;
    run_from(
        alloc,
        lowered,
        registers,
        space,
        order,
        work,
        start,
        own.as_mut_slice(),
        cells,
        bench,
    )
}
