//! What a chunk leaves in the variables with a role.

ghost use Rattle.std.specs.Prelude.{◌≡◌, Bool, Some, [], map, length, if◌then◌else◌, IfOk};
ghost use Rattle.ktree.specs.DirectiveView.{operator_of};
ghost use Rattle.store.specs.Flat.{values_of};
ghost use Rattle.reduce.specs.Partial.{partial_of};
ghost use Rattle.law_roles.specs.Sharing as law;
ghost use Rattle.lower_machine.specs.Machine.{machine};
ghost use Rattle.overlay_pages.specs.Seen.{cells_of};
ghost use Rattle.overlay.specs.Spots.{begins_at, held_at, partial_at, back_at_each, reduced_at};
ghost use Rattle.overlay.specs.Ending.{IsTold};

use crate::beginning::{Start, first_value};
use crate::spots::{put_back, read, read_before};
use lower::{LoweredReduction, LoweredRoles, Spot};
use overlay_pages::Chunk;
use reduce::Partial;
use seqrun_io::Memory;
use std::alloc::{AllocError, Global};

/// What a chunk prints, the partials of its reduction variables and the values of its lastprivate ones.
#[derive(Drop)]
pub struct Told {
    pub text: Memory,
    pub partials: Vec<Partial>,
    pub lasts: Vec<u64>,
}

// The partial of a reduction variable that held this before the loop and holds that behind the chunk.
fn partial(reduction: &LoweredReduction, start: Start, before: u64, behind: u64) -> Partial
    ensures { partial_of result ≡ law.unless_same
        (Some (begins_at start (operator_of reduction.now.operator) before)) (Some behind) }
{
    if behind == first_value(start, reduction.operator, before) {
        return Partial::Untouched;
    }
    Partial::Updated(behind)
}

// The partials of these.
fn partials(
    alloc: Global,
    reductions: &[LoweredReduction],
    start: Start,
    before: &[u64],
    registers: &[u64],
    cells: &Chunk<'_>,
) -> Result<Vec<Partial>, AllocError>
    ensures { IfOk result (λ partials. map partial_of partials.items
        ≡ map (partial_at start (machine before.now (values_of cells.now.store))
        (machine registers.now (cells_of cells.now))) reductions.now) }
{
    let mut partials = Vec::new(alloc);
    for reduction in reductions {
        let held = read_before(reduction.spot, before, cells);
        let left = read(reduction.spot, registers, cells);
        partials.push(partial(reduction, start, held, left))?;
    }
    Ok(partials)
}

// What scalars hold.
fn values(
    alloc: Global,
    spots: &[Spot],
    registers: &[u64],
    cells: &Chunk<'_>,
) -> Result<Vec<u64>, AllocError>
    ensures { IfOk result (λ values. values.items
        ≡ map (λ at. held_at at (machine registers.now (cells_of cells.now))) spots.now) }
{
    let mut values = Vec::new(alloc);
    for spot in spots {
        values.push(read(*spot, registers, cells))?;
    }
    Ok(values)
}

// What lastprivate variables hold, where the chunk has the last iteration.
fn last_values(
    alloc: Global,
    spots: &[Spot],
    has_last: bool,
    registers: &[u64],
    cells: &Chunk<'_>,
) -> Result<Vec<u64>, AllocError>
    ensures { IfOk result (λ values. values.items ≡ if has_last
        then map (λ at. held_at at (machine registers.now (cells_of cells.now))) spots.now
        else []) }
{
    if has_last {
        return values(alloc, spots, registers, cells);
    }
    Ok(Vec::new(alloc))
}

/// What the variables with a role hold behind a chunk, by the registers that stood before the loop, beside what the chunk prints.
///
/// # Errors
///
/// Where memory runs out.
pub fn tell(
    alloc: Global,
    roles: &LoweredRoles,
    start: Start,
    has_last: bool,
    before: &[u64],
    registers: &[u64],
    cells: &Chunk<'_>,
    text: Memory,
) -> Result<Told, AllocError>
    ensures told { IfOk result (IsTold roles.now start has_last
        (machine before.now (values_of cells.now.store))
        (machine registers.now (cells_of cells.now))) }
    ensures text { IfOk result (λ told. told.text ≡ text) }
{
    let reductions = roles.reductions.as_slice();
    let partials = partials(alloc, reductions, start, before, registers, cells)?;
    let lasts = last_values(alloc, roles.lasts.as_slice(), has_last, registers, cells)?;
    Ok(Told {
        text,
        partials,
        lasts,
    })
}

// Scalars at file scope hold again what they held before the loop.
fn put_each_back(spots: &[Spot], cells: &mut Chunk<'_>)
    ensures back { cells_of cells.new
        ≡ back_at_each (values_of cells.old.store) spots.now (cells_of cells.old) }
    ensures store { cells.new.store ≡ cells.old.store }
{
    let Some((spot, rest)) = spots.split_first() else {
        return;
    };
    put_back(*spot, cells);
    put_each_back(rest, cells);
}

// So do reduction variables.
fn put_reductions_back(reductions: &[LoweredReduction], cells: &mut Chunk<'_>)
    ensures back { cells_of cells.new
        ≡ back_at_each (values_of cells.old.store) (reduced_at reductions.now)
        (cells_of cells.old) }
    ensures store { cells.new.store ≡ cells.old.store }
{
    let Some((reduction, rest)) = reductions.split_first() else {
        return;
    };
    put_back(reduction.spot, cells);
    put_reductions_back(rest, cells);
}

/// The variables with a role that stand at file scope hold again what they held before the loop, so that no change of them is told.
pub fn put_roles_back(roles: &LoweredRoles, cells: &mut Chunk<'_>)
    ensures back { cells_of cells.new
        ≡ back_at_each (values_of cells.old.store) (reduced_at roles.now.reductions.items)
        (back_at_each (values_of cells.old.store) roles.now.lasts.items (cells_of cells.old)) }
    ensures store { cells.new.store ≡ cells.old.store }
{
    put_each_back(roles.lasts.as_slice(), cells);
    put_reductions_back(roles.reductions.as_slice(), cells);
}
