//! A part of the turns of a loop, block by block.

ghost use Rattle.std.specs.Prelude.{◌≡◌, ◌+◌, ◌*◌, ◌<◌, ◌≤◌, true, false, length, take, drop, OnOk};
ghost use Rattle.lane_rows.specs.Lanes.{stepped};
ghost use Rattle.law_lanes.specs.Lanes.{AreLanes, turns};
ghost use Rattle.lower_machine.specs.Machine.{machine};
ghost use Rattle.lower_runner.specs.Turning.{ConstantsStand};
ghost use Rattle.team_parts.specs.Lent.{lent_cells, stands};
ghost use Rattle.team_parts.specs.Placed.{IsPartDone};
ghost use Rattle.team_parts.specs.Turned.{limit_of, most_of, ops_of, variable_of};

use crate::cells::{Parted, settle};
use crate::reserve::Reserve;
use crate::shared::Shared;
use crate::surroundings::Surroundings;
use crate::turning::run_over;
use lane_rows::Bench;
use lower_lanes::new_bench;
use std::alloc::{AllocError, Global};
use std::marker::Model;

/// What a thread runs turns with: registers, room for rows, and memory that all cells have room in, which is written only where
/// a turn writes cells that are not its own. Contracts see the registers.
#[derive(Drop)]
pub struct Tools {
    pub registers: Vec<u64>,
    pub bench: Bench,
    pub reserve: Reserve,
}

impl Model for Tools {
    ghost use Rattle.std.specs.Prelude.{ℕ, List};

    ghost Value = { List ℕ };

    ghost view = { λ t. t.registers.items };
}

/// These numbers take the place of others.
///
/// # Errors
///
/// Where memory is refused.
pub fn copy_into(to: &mut Vec<u64>, numbers: &[u64]) -> Result<(), AllocError>
    ensures { OnOk result (to.new.items ≡ numbers.now) }
{
    to.clear();
    to.extend_from_slice(numbers)?;
    Ok(())
}

// Runs so many turns from one on over cells of which some are lent.
fn run_among(
    shared: Shared<'_, '_>,
    from: u64,
    count: u64,
    registers: &mut [u64],
    cells: &mut Parted<'_, '_>,
    bench: &mut Bench,
)
    requires few { count ≤ most_of shared.turned }
    requires inside { limit_of shared.turned ≤ length registers.old }
    requires stand { ConstantsStand shared.compiled.now registers.old }
    ensures does { AreLanes (variable_of shared.entry.turned)
        (stepped (stepped shared.entry.first shared.entry.by from) shared.entry.by)
        (ops_of shared.entry.turned) count (machine registers.old
        (lent_cells cells.old.surroundings cells.old.own.now cells.old.reserve.now))
        → machine registers.new
        (lent_cells cells.new.surroundings cells.new.own.now cells.new.reserve.now)
        ≡ turns (variable_of shared.entry.turned)
        (stepped (stepped shared.entry.first shared.entry.by from) shared.entry.by)
        (ops_of shared.entry.turned) count (machine registers.old
        (lent_cells cells.old.surroundings cells.old.own.now cells.old.reserve.now)) }
    ensures own { cells.new.own.ghost_name ≡ cells.old.own.ghost_name }
    ensures reserve { cells.new.reserve.ghost_name ≡ cells.old.reserve.ghost_name }
    ensures long { length cells.new.own.now ≡ length cells.old.own.now }
    ensures first { length cells.new.surroundings.before.now + cells.new.surroundings.left
        ≡ length cells.old.surroundings.before.now + cells.old.surroundings.left }
    ensures stand { stands cells.new.surroundings cells.new.own.now cells.new.reserve.now
        ≡ stands cells.old.surroundings cells.old.own.now cells.old.reserve.now }
{
    let first = shared.first.wrapping_add(from.wrapping_mul(shared.by));
    run_over(
        shared.compiled,
        shared.turned,
        first,
        shared.by,
        count,
        registers,
        cells,
        bench,
    );
}

// Runs so many turns from one on over their own cells.
fn run_block(
    shared: Shared<'_, '_>,
    from: u64,
    count: u64,
    own: &mut [u64],
    tools: &mut Tools,
) -> Result<(), AllocError>
    requires few { count ≤ most_of shared.turned }
    requires within { from + count ≤ shared.count }
    requires own { length own.old ≡ shared.window.width * count }
    ensures { OnOk result (IsPartDone shared.entry from count
        own.old own.new tools.new) }
{
    copy_into(&mut tools.registers, shared.registers)?;
    let left = shared.cells_of(from);
    let mine = shared.cells_of(count);
    let right = shared.cells_of(shared.count - from - count);
    let Some(surroundings) = Surroundings::of(shared.before, left, mine, right, shared.behind)
    else {
        return Err(AllocError);
    };
    tools.reserve.make_room(surroundings.all as usize)?;
    let mut cells = Parted {
        surroundings,
        own,
        reserve: &mut tools.reserve,
    };
    let registers = tools.registers.as_mut_slice();
    run_among(shared, from, count, registers, &mut cells, &mut tools.bench);
    settle(&mut cells);
    Ok(())
}

/// Runs so many turns from one on over their own cells. The tools hold the registers as these turns leave them.
///
/// # Errors
///
/// Where memory is refused: some of the cells may be written then.
pub fn run_part(
    shared: Shared<'_, '_>,
    from: u64,
    count: u64,
    own: &mut [u64],
    tools: &mut Tools,
) -> Result<(), AllocError>
    requires within { from + count ≤ shared.count }
    requires own { length own.old ≡ shared.window.width * count }
    ensures { OnOk result (IsPartDone shared.entry from count
        own.old own.new tools.new) }
{
    if count <= shared.turned.most() {
        return run_block(shared, from, count, own, tools);
    }
    let half = count / 2;
    let (front, back) = own.split_at_mut(shared.cells_of(half) as usize);
    run_part(shared, from, half, front, tools)?;
    run_part(shared, from + half, count - half, back, tools)?;
    Ok(())
}

impl Tools {
    /// Tools that have run nothing.
    ///
    /// # Errors
    ///
    /// Where memory is refused.
    pub fn new(alloc: Global) -> Result<Tools, AllocError> {
        let bench = new_bench(alloc)?;
        Ok(Tools {
            registers: Vec::new(alloc),
            bench,
            reserve: Reserve::new(alloc),
        })
    }

    /// The registers as the last turns have left them.
    pub fn into_registers(self) -> Vec<u64>
        ensures { result.items ≡ self }
    {
        let Tools { registers, .. } = self;
        registers
    }
}
