//! What registers and the cells of a chunk hold where a scalar stands.

ghost use Rattle.std.specs.Prelude.{◌≡◌, slice_index};
ghost use Rattle.store.specs.Flat.{values_of};
ghost use Rattle.lower_machine.specs.Machine.{machine};
ghost use Rattle.overlay_pages.specs.Seen.{cells_of};
ghost use Rattle.overlay.specs.Spots.{held_at, with_at, back_at};

use crate::walking::put;
use ktree::VarId;
use lower::Spot;
use lower_op::Cells;
use overlay_pages::Chunk;

// What a variable's register holds, and 0 where it has none.
fn register(registers: &[u64], variable: VarId) -> u64
    ensures { result ≡ slice_index registers.now variable.0 }
{
    registers.get(variable.0 as usize).copied().unwrap_or(0)
}

/// What a scalar holds in a chunk.
pub fn read(spot: Spot, registers: &[u64], cells: &Chunk<'_>) -> u64
    ensures { result ≡ held_at spot (machine registers.now (cells_of cells.now)) }
{
    match spot {
        Spot::Register(variable) => register(registers, variable),
        Spot::Cell(place) => cells.read(place),
    }
}

/// What a scalar held before the loop, by the registers that stood then.
pub fn read_before(spot: Spot, before: &[u64], cells: &Chunk<'_>) -> u64
    ensures { result ≡ held_at spot (machine before.now (values_of cells.now.store)) }
{
    match spot {
        Spot::Register(variable) => register(before, variable),
        Spot::Cell(place) => cells.store_value(place),
    }
}

/// A scalar takes a number.
pub fn write(spot: Spot, value: u64, registers: &mut [u64], cells: &mut Chunk<'_>)
    ensures written { machine registers.new (cells_of cells.new)
        ≡ with_at spot value (machine registers.old (cells_of cells.old)) }
    ensures store { cells.new.store ≡ cells.old.store }
{
    match spot {
        Spot::Register(variable) => put(registers, variable, value),
        Spot::Cell(place) => cells.write(place, value),
    }
}

/// A scalar at file scope holds again what it held before the loop, so that no change of it is told.
pub fn put_back(spot: Spot, cells: &mut Chunk<'_>)
    ensures back { cells_of cells.new
        ≡ back_at (values_of cells.old.store) spot (cells_of cells.old) }
    ensures store { cells.new.store ≡ cells.old.store }
{
    if let Spot::Cell(place) = spot {
        let held = cells.store_value(place);
        cells.write(place, held);
    }
}
