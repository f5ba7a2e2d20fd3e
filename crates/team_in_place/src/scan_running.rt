//! A prefix sum that is run in place.

ghost use Rattle.std.specs.Prelude.{◌≡◌, ◌+◌, ◌*◌, ◌<◌, ◌≤◌, ◌^◌, ◌++◌, length, Option, None, IfOk, IfSome};
ghost use Rattle.store.specs.Flat.{values_of};
ghost use Rattle.lower_machine.specs.Machine.{machine};
ghost use Rattle.law_lanes.specs.Lanes.{turns};
ghost use Rattle.lane_rows.specs.Lanes.{stepped};
ghost use Rattle.lower_runner.specs.Turning.{ConstantsStand, LeavesConstants};
ghost use Rattle.seqrun.specs.Ran.{lengths_of};
ghost use Rattle.team_in_place.specs.Scanning.{IsScanApart};

use crate::busy::busy_workers;
use crate::running::{Crew, spare_constants};
use crate::scan_planning::ScanPlan;
use crate::scan_sharing::{ScanTeam, scan_all};
use lane_part::register_value;
use lower_block::Compiled;
use std::alloc::AllocError;
use std::mem;
use std::thread::Threads;
use store::Store;
use team_scans::Prefixes;
use team_worker::Gate;

// How many of so many turns are run in front of the shares of so many workers: about so many as take a thread the time in which another one adds up a share,
// which takes it half the time of its turns.
fn head_of(count: u64, workers: u64) -> u64
    requires some { 0 < workers }
    requires many { 2 ^ 16 ≤ count }
    requires few { workers ≤ 64 }
    ensures { result + workers ≤ count }
{
    if workers == 1 {
        return 0;
    }
    count / (2 * workers + 1)
}

// Runs all turns of a planned prefix sum over the cells that they have to themselves, between those in front of these and those behind. The registers are as
// they leave them, but for the variable.
fn scan_turns<'x, 'k, R: Threads + Sync, G: Gate + Sync>(
    crew: &'x Crew<'x, R, G>,
    compiled: &'x Compiled,
    plan: ScanPlan<'x>,
    registers: &'x [u64],
    before: &'k [u64],
    own: &mut [u64],
    behind: &'k [u64],
) -> Result<Vec<u64>, AllocError>
    requires leaves { LeavesConstants compiled.now plan.scanned.ops.now
        plan.scanned.laned.variable.at }
    requires target { LeavesConstants compiled.now plan.scanned.ops.now
        plan.scanned.target.at }
    requires stand { ConstantsStand compiled.now registers.now }
    requires apart { IsScanApart plan registers.now }
    requires before { length before.now ≡ plan.window.low }
    requires own { length own.old ≡ plan.window.width * plan.rise.count }
    ensures long { length own.new ≡ length own.old }
    ensures does { IfOk result (λ rs. machine rs.items (before.now ++ (own.new ++ behind.now))
        ≡ turns plan.entry.scanned.laned.variable.at
        (stepped plan.entry.rise.first plan.entry.rise.by) plan.entry.scanned.ops.now
        plan.entry.rise.count (machine registers.now (before.now ++ (own.old ++ behind.now)))) }
{
    let instructions = plan.scanned.laned.ops.len() as u64;
    let workers = busy_workers(crew.workers, plan.rise.count, instructions);
    let head = head_of(plan.rise.count, workers.get());
    let prefixes = Prefixes {
        compiled,
        scanned: plan.scanned,
        first: plan.rise.first,
        by: plan.rise.by,
        count: plan.rise.count,
        registers,
        window: plan.window,
        before,
        behind,
    };
    let team = ScanTeam {
        rt: crew.rt,
        alloc: crew.alloc,
        gate: crew.gate,
        workers,
        prefixes,
        head,
    };
    let first = register_value(registers, plan.scanned.target.at);
    let registers = scan_all(&team, first, own)?;
    Ok(registers)
}

// Runs all turns of a planned prefix sum over cells.
fn scan_over_cells<'x, R: Threads + Sync, G: Gate + Sync>(
    crew: &'x Crew<'x, R, G>,
    compiled: &'x Compiled,
    plan: ScanPlan<'x>,
    registers: &'x [u64],
    cells: &mut [u64],
) -> Result<Vec<u64>, AllocError>
    requires leaves { LeavesConstants compiled.now plan.scanned.ops.now
        plan.scanned.laned.variable.at }
    requires target { LeavesConstants compiled.now plan.scanned.ops.now
        plan.scanned.target.at }
    requires stand { ConstantsStand compiled.now registers.now }
    requires apart { IsScanApart plan registers.now }
    requires within { plan.window.low + plan.window.width * plan.rise.count ≤ length cells.old }
    ensures long { length cells.new ≡ length cells.old }
    ensures does { IfOk result (λ rs. machine rs.items cells.new
        ≡ turns plan.entry.scanned.laned.variable.at
        (stepped plan.entry.rise.first plan.entry.rise.by) plan.entry.scanned.ops.now
        plan.entry.rise.count (machine registers.now cells.old)) }
{
    let (before, rest) = cells.split_at_mut(plan.window.low as usize);
    let (own, behind) = rest.split_at_mut((plan.window.width * plan.rise.count) as usize);
    let registers = scan_turns(crew, compiled, plan, registers, before, own, behind)?;
    Ok(registers)
}

// Runs all turns of a planned prefix sum over the cells of a store.
fn scan_over_store<'x, R: Threads + Sync, G: Gate + Sync>(
    crew: &'x Crew<'x, R, G>,
    compiled: &'x Compiled,
    plan: ScanPlan<'x>,
    registers: &'x [u64],
    store: &mut Store,
) -> Result<Vec<u64>, AllocError>
    requires leaves { LeavesConstants compiled.now plan.scanned.ops.now
        plan.scanned.laned.variable.at }
    requires target { LeavesConstants compiled.now plan.scanned.ops.now
        plan.scanned.target.at }
    requires stand { ConstantsStand compiled.now registers.now }
    requires apart { IsScanApart plan registers.now }
    requires within { plan.window.low + plan.window.width * plan.rise.count
        ≤ length (values_of store.old) }
    ensures does { IfOk result (λ rs. machine rs.items (values_of store.new)
        ≡ turns plan.entry.scanned.laned.variable.at
        (stepped plan.entry.rise.first plan.entry.rise.by) plan.entry.scanned.ops.now
        plan.entry.rise.count (machine registers.now (values_of store.old))) }
    ensures shape { lengths_of store.new ≡ lengths_of store.old }
{
    let nothing = Store::zeros(crew.alloc, Vec::new(crew.alloc))?;
    let (frame, mut cells) = mem::replace(store, nothing).into_cells();
    let end = scan_over_cells(crew, compiled, plan, registers, cells.as_mut_slice());
    *store = frame.with_cells(cells);
    let registers = end?;
    Ok(registers)
}

/// The same, if the turns leave the constants of the code in their registers; else it changes nothing.
pub(crate) fn scan_if_apart<'x, R: Threads + Sync, G: Gate + Sync>(
    crew: &'x Crew<'x, R, G>,
    compiled: &'x Compiled,
    plan: ScanPlan<'x>,
    registers: &'x [u64],
    store: &mut Store,
) -> Result<Option<Vec<u64>>, AllocError>
    requires stand { ConstantsStand compiled.now registers.now }
    requires apart { IsScanApart plan registers.now }
    requires within { plan.window.low + plan.window.width * plan.rise.count
        ≤ length (values_of store.old) }
    ensures does { IfOk result (λ o. IfSome o (λ rs. machine rs.items (values_of store.new)
        ≡ turns plan.entry.scanned.laned.variable.at
        (stepped plan.entry.rise.first plan.entry.rise.by) plan.entry.scanned.ops.now
        plan.entry.rise.count (machine registers.now (values_of store.old)))) }
    ensures left { IfOk result (λ o. o ≡ None → store.new ≡ store.old) }
    ensures shape { lengths_of store.new ≡ lengths_of store.old }
{
    let scanned = plan.scanned;
    if !spare_constants(compiled, scanned.ops, scanned.laned.variable) {
        return Ok(None);
    }
    if !spare_constants(compiled, scanned.ops, scanned.target) {
        return Ok(None);
    }
    let registers = scan_over_store(crew, compiled, plan, registers, store)?;
    Ok(Some(registers))
}
