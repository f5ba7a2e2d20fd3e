//! A counted loop that keeps a sum in a cell, run in place with the sum in a register.

ghost use Rattle.std.specs.Prelude.{◌≡◌, ◌+◌, ◌-◌, ◌<◌, ◌≤◌, ◌^◌, true, ℕ, List, length, take, slice_index, slice_set, Option, None, IfOk, IfSome};
ghost use Rattle.store.specs.Flat.{values_of};
ghost use Rattle.lower_machine.specs.Machine.{machine, running};
ghost use Rattle.law_lanes.specs.Lanes.{turns};
ghost use Rattle.lane_rows.specs.Lanes.{stepped};
ghost use Rattle.lane_body.specs.Scanning.{RecursAlong};
ghost use Rattle.lower_runner.specs.Turning.{ConstantsStand};
ghost use Rattle.seqrun.specs.Ran.{lengths_of};
ghost use Rattle.team_in_place.specs.Counting.{counted};
ghost use Rattle.team_in_place.specs.Scanning.{AreManyTurns};

use crate::planning::{MANY, Rise, rise_of};
use crate::running::{Crew, put};
use crate::scan_planning::scan_plan_by;
use crate::scan_running::scan_if_apart;
use lane_body::{
    Body, Counted, Recurrence, Scanned, all_have_room, is_steady_rise, recurrence_along,
    recurring_by,
};
use lane_part::{Turns, hold_numbers};
use lane_promotion::{Promotion, promotion_of, with_last};
use lower_block::Compiled;
use lower_machine::Register;
use lower_op::{Cells, Op};
use std::alloc::AllocError;
use std::thread::Threads;
use store::Store;
use team_worker::Gate;

// The turns of a counted loop from where it stands in registers, where they are many and leave alone what says how many they are.
fn many_turns(counted: &Counted, registers: &[u64]) -> Option<Rise>
    ensures { IfSome result (AreManyTurns counted.now registers.now) }
{
    let (variable, end, by) = (counted.variable.at, counted.end.at, counted.by.at);
    if variable as u64 >= registers.len() as u64 || !all_have_room(64, &counted.ops) {
        return None;
    }
    if !is_steady_rise(&counted.ops, variable, end, by) {
        return None;
    }
    hold_numbers(registers);
    let rise = rise_of(counted, registers)?;
    if rise.count < MANY || rise.count > 1 << 24 {
        return None;
    }
    Some(rise)
}

// Whether a code's constants have registers among so many.
fn have_registers(compiled: &Compiled, count: u64) -> bool
    ensures { result ≡ true → compiled.now.first_constant
        + length compiled.now.constants.items ≤ count }
{
    let constants = compiled.constants.len() as u64;
    constants <= count && compiled.first_constant as u64 <= count - constants
}

// The body in lanes for instructions along a variable that make prefix sums.
fn scanned_by<'c>(
    ops: &'c [Op],
    variable: Register,
    recurrence: &'c Option<Recurrence>,
) -> Option<Scanned<'c>>
    requires { IfSome recurrence.now (RecursAlong variable.at ops.now) }
    ensures { IfSome result (λ s. (s.ops.now ≡ ops.now) × (s.laned.variable ≡ variable)) }
{
    let Some(recurrence) = recurrence else {
        return None;
    };
    match recurring_by(ops, variable, recurrence) {
        Body::Scans(scanned) => Some(scanned),
        _ => None,
    }
}

// Runs turns of instructions that make prefix sums over the cells of a store, if each has cells to itself; else it changes nothing.
fn run_scanned_turns<R: Threads + Sync, G: Gate + Sync>(
    crew: &Crew<'_, R, G>,
    compiled: &Compiled,
    ops: &[Op],
    variable: Register,
    rise: Rise,
    registers: &[u64],
    store: &mut Store,
) -> Result<Option<Vec<u64>>, AllocError>
    requires many { 2 ^ 16 ≤ rise.count }
    requires stand { ConstantsStand compiled.now registers.now }
    ensures does { IfOk result (λ o. IfSome o (λ rs. machine rs.items (values_of store.new)
        ≡ turns variable.at (stepped rise.first rise.by) ops.now rise.count
        (machine registers.now (values_of store.old)))) }
    ensures left { IfOk result (λ o. o ≡ None → store.new ≡ store.old) }
    ensures shape { lengths_of store.new ≡ lengths_of store.old }
{
    let recurrence = recurrence_along(crew.alloc, ops, variable, registers.len() as u64)?;
    let Some(scanned) = scanned_by(ops, variable, &recurrence) else {
        return Ok(None);
    };
    let cells = store.cells().len() as u64;
    let Some(plan) = scan_plan_by(scanned, rise, registers, cells) else {
        return Ok(None);
    };
    let end = scan_if_apart(crew, compiled, plan, registers, store)?;
    Ok(end)
}

// The number of the last register goes into a cell, and the others are left.
fn put_last(registers: &mut Vec<u64>, place: u64, store: &mut Store)
    requires { 0 < length registers.old.items }
    ensures others { registers.new.items
        ≡ take (length registers.old.items - 1) registers.old.items }
    ensures cell { values_of store.new ≡ slice_set (values_of store.old) place
        (slice_index registers.old.items (length registers.old.items - 1)) }
    ensures shape { lengths_of store.new ≡ lengths_of store.old }
{
    let last = registers.len() - 1;
    Cells::write(store, place, registers[last]);
    registers.truncate(last);
}

/// Runs the turns of a counted loop that keeps a sum in a cell, from where it stands in registers, with the sum in a register more, if each turn has cells to
/// itself then; else it changes nothing (C11 6.8.5, 5.1.2.3).
///
/// # Errors
///
/// Where memory is refused: some of the cells may be written then.
pub(crate) fn run_promoted<R: Threads + Sync, G: Gate + Sync>(
    crew: &Crew<'_, R, G>,
    compiled: &Compiled,
    summing: &Counted,
    registers: &[u64],
    store: &mut Store,
) -> Result<Option<Vec<u64>>, AllocError>
    requires stand { ConstantsStand compiled.now registers.now }
    ensures does { IfOk result (λ o. IfSome o (λ rs. (text : List ℕ)
        → counted summing.now (running (machine registers.now (values_of store.old)) text)
        ≡ running (machine rs.items (values_of store.new)) text)) }
    ensures left { IfOk result (λ o. o ≡ None → store.new ≡ store.old) }
    ensures shape { lengths_of store.new ≡ lengths_of store.old }
{
    let Some(rise) = many_turns(summing, registers) else {
        return Ok(None);
    };
    if !have_registers(compiled, registers.len() as u64) {
        return Ok(None);
    }
    let turns = Turns {
        variable: summing.variable.at,
        first: rise.first,
        by: rise.by,
        count: rise.count,
        registers,
    };
    let Some(promotion) = promotion_of(crew.alloc, &summing.ops, turns)? else {
        return Ok(None);
    };
    if promotion.place >= store.cells().len() as u64 {
        return Ok(None);
    }
    let own = with_last(crew.alloc, registers, store.cell(promotion.place))?;
    let ran = run_scanned_turns(
        crew,
        compiled,
        &promotion.ops,
        summing.variable,
        rise,
        &own,
        store,
    )?;
    let Some(mut end) = ran else {
        return Ok(None);
    };
    put_last(&mut end, promotion.place, store);
    put(&mut end, summing.variable, rise.next);
    Ok(Some(end))
}
