//! A parallel loop that one thread runs: its own code, over a copy of the registers.

ghost use Rattle.std.specs.Prelude.{◌≡◌, ℕ, ◌+◌, ◌<◌, ◌^◌, List, OnOk, IfOk, IfErr};
ghost use Rattle.semantics.specs.Loops.Nest.{Loop};
ghost use Rattle.flow.specs.Roles.{LineData};
ghost use Rattle.outline.specs.Fit.{Fits};
ghost use Rattle.outline.specs.View.{performed};
ghost use Rattle.outline.specs.declared.shape.Outline.TheVariants.{Team};
ghost use Rattle.seqrun_io.specs.Told.{Refuses};
ghost use Rattle.seqrun.specs.Ran.{lengths_of};
ghost use Rattle.lower_code.specs.declared.laid.Laid.{Laid};
ghost use Rattle.lower_run.specs.Walk.{Walks, Begins, stage};
ghost use Rattle.ompk_run.specs.Taken.{taken_at, taken_each, reduced_at, taken};

use ktree::Refusal;
use lane_rows::Bench;
use lower::{LoweredReduction, LoweredRoles, Spot};
use lower_run::{confirm_words, perform};
use outline::TeamLoop;
use seqrun_io::Sink;
use std::alloc::{AllocError, Global};
use store::Store;
use team::{Gate, Taken};

// A copy of registers, with room for so many.
fn copy_of(alloc: Global, registers: &Vec<u64>, room: u64) -> Result<Vec<u64>, AllocError>
    ensures { IfOk result (λ copy. copy.items ≡ registers.now.items) }
{
    let mut copy = Vec::with_capacity(alloc, room as usize)?;
    copy.extend_from_slice(registers.as_slice())?;
    Ok(copy)
}

// The register where a local stands takes what it holds in the copy.
fn take_at(own: &[u64], spot: Spot, registers: &mut Vec<u64>)
    ensures { registers.new.items ≡ taken_at own.now spot registers.old.items }
{
    if let Spot::Register(variable) = spot {
        let index = variable.0 as usize;
        let value = own.get(index).copied().unwrap_or(0);
        if index < registers.len() {
            registers[index] = value;
        }
    }
}

// So do those of several.
fn take_each(own: &[u64], spots: &[Spot], registers: &mut Vec<u64>)
    ensures { registers.new.items ≡ taken_each own.now spots.now registers.old.items }
{
    let Some((spot, rest)) = spots.split_first() else {
        return;
    };
    take_at(own, *spot, registers);
    take_each(own, rest, registers);
}

// So do those of reduction variables.
fn take_reductions(own: &[u64], reductions: &[LoweredReduction], registers: &mut Vec<u64>)
    ensures { registers.new.items
        ≡ taken_each own.now (reduced_at reductions.now) registers.old.items }
{
    let Some((reduction, rest)) = reductions.split_first() else {
        return;
    };
    take_at(own, reduction.spot, registers);
    take_reductions(own, rest, registers);
}

// So do those of lastprivate and reduction variables (OpenMP 5.2, 5.4.5 and 5.5.8).
pub(crate) fn take_roles(own: &[u64], roles: &LoweredRoles, registers: &mut Vec<u64>)
    ensures { registers.new.items ≡ taken own.now roles.now registers.old.items }
{
    take_each(own, roles.lasts.as_slice(), registers);
    take_reductions(own, roles.reductions.as_slice(), registers);
}

// Runs a parallel loop by this thread alone, as any other statement (C11 6.8.5; OpenMP 5.2, 11.5). The gate is told once, before the loop,
// that the only worker has taken the only chunk.
pub(crate) fn run_by_one<G: Gate, S: Sink>(
    alloc: Global,
    construct: &TeamLoop<'_>,
    gate: &G,
    registers: &mut Vec<u64>,
    store: &mut Store,
    bench: &mut Bench,
    sink: &mut S,
) -> Result<(), Refusal>
    requires room { S.failed sink.old + 1 < 2 ^ 64 }
    ensures ran { OnOk result ((layout : List Laid) (mark : ℕ) (R : LineData) (serial : List Loop)
        → Fits layout mark R serial (Team construct.now)
        → Walks layout mark (performed R serial (Team construct.now))
        (stage registers.old.items store.old (S.told sink.old))
        (stage registers.new.items store.new (S.told sink.new))) }
    ensures beginning { (layout : List Laid) (mark : ℕ) (R : LineData) (serial : List Loop)
        → Fits layout mark R serial (Team construct.now)
        → Begins layout mark (performed R serial (Team construct.now))
        (stage registers.old.items store.old (S.told sink.old)) (S.told sink.new) }
    ensures sound { OnOk result (S.failed sink.new ≡ S.failed sink.old) }
    ensures refusal { IfErr result (Refuses (S.failed sink.old) (S.failed sink.new)) }
    ensures shape { lengths_of store.new ≡ lengths_of store.old }
{
    let mut own = copy_of(alloc, registers, construct.code.registers)?;
    gate.entered(Taken {
        worker: 0,
        workers: 1,
        chunk: 0,
        chunks: 1,
    });
    perform(&construct.code, &mut own, store, bench, sink)?;
    take_roles(own.as_slice(), &construct.lowered.roles, registers);
    confirm_words(registers.as_slice(), store);
    Ok(())
}
