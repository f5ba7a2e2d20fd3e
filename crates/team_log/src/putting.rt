//! What all chunks leave, put together over the caller's registers and store.

ghost use Rattle.std.specs.Prelude.{◌≡◌, ◌+◌, ◌<◌, ◌^◌, length, map, slice_set};
ghost use Rattle.ktree.specs.DirectiveView.{operator_of};
ghost use Rattle.semantics.specs.Loops.Operator.{combined_all};
ghost use Rattle.store.specs.Flat.{values_of};
ghost use Rattle.lower_machine.specs.Machine.{machine};
ghost use Rattle.overlay.specs.Spots.{held_at, with_at};
ghost use Rattle.team_log.specs.Logged.{joined};
ghost use Rattle.team_log.specs.Spots.{told_of, reduced, scanned, totalled, put_values, IsPutBy};

use crate::applied::apply_all;
use crate::log::ChunkLog;
use ktree::{ReductionOperator, VarId};
use lower::{LoweredReduction, LoweredRoles, Spot};
use store::Store;

/// What reduction variables hold behind a loop.
#[derive(Clone, Copy, Debug, PartialEq, Eq)]
pub enum Total {
    /// What they held before, combined with what all chunks tell of them.
    Combined,
    /// Of a scan, whose chunks begin with what those before them leave, what the last chunk leaves.
    Scanned(u64),
}

/// What a scalar holds.
pub(crate) fn read(spot: Spot, registers: &[u64], store: &Store) -> u64
    ensures { result ≡ held_at spot (machine registers.now (values_of store.now)) }
{
    match spot {
        Spot::Register(variable) => registers.get(variable.0 as usize).copied().unwrap_or(0),
        Spot::Cell(place) => store.cell(place),
    }
}

// A scalar takes a value.
fn write(spot: Spot, value: u64, registers: &mut [u64], store: &mut Store)
    ensures written { machine registers.new (values_of store.new)
        ≡ with_at spot value (machine registers.old (values_of store.old)) }
    ensures shape { map (λ k. k.lengths) store.new ≡ map (λ k. k.lengths) store.old }
{
    match spot {
        Spot::Register(variable) => write_register(variable, value, registers),
        Spot::Cell(place) => store.put(place, value),
    }
}

// A variable's register takes a value, where there is one.
fn write_register(variable: VarId, value: u64, registers: &mut [u64])
    ensures { registers.new ≡ slice_set registers.old variable.0 value }
{
    if (variable.0 as usize) < registers.len() {
        registers[variable.0 as usize] = value;
    }
}

// A value combined with what all chunks tell of the reduction variable of an index (OpenMP 5.2, 5.5.5).
fn combine_logs(logs: &[ChunkLog], operator: ReductionOperator, index: u64, value: u64) -> u64
    ensures { result ≡ combined_all (operator_of operator) value
        (told_of index (joined logs.now).chunks) }
{
    let Some((log, rest)) = logs.split_first() else {
        return value;
    };
    combine_logs(rest, operator, index, log.combine(operator, index, value))
}

// What the last chunk leaves in lastprivate variables (OpenMP 5.2, 5.4.5).
fn last_values(logs: &[ChunkLog]) -> &[u64]
    ensures { result.now ≡ (joined logs.now).lasts }
{
    let Some((log, rest)) = logs.split_first() else {
        return &[];
    };
    let later = last_values(rest);
    if later.is_empty() { log.lasts() } else { later }
}

// Reduction variables, the first of this index, take what they held combined with what all chunks tell of them.
fn put_reductions(
    reductions: &[LoweredReduction],
    index: u64,
    logs: &[ChunkLog],
    registers: &mut [u64],
    store: &mut Store,
)
    requires few { index + length reductions.now < 2 ^ 64 }
    ensures put { machine registers.new (values_of store.new)
        ≡ reduced index reductions.now (joined logs.now).chunks
        (machine registers.old (values_of store.old)) }
    ensures shape { map (λ k. k.lengths) store.new ≡ map (λ k. k.lengths) store.old }
{
    let Some((reduction, rest)) = reductions.split_first() else {
        return;
    };
    let held = read(reduction.spot, registers, store);
    let value = combine_logs(logs, reduction.operator, index, held);
    write(reduction.spot, value, registers, store);
    put_reductions(rest, index + 1, logs, registers, store);
}

// Scalars take these values, those that have one.
fn put_lasts(spots: &[Spot], values: &[u64], registers: &mut [u64], store: &mut Store)
    ensures put { machine registers.new (values_of store.new)
        ≡ put_values spots.now values.now (machine registers.old (values_of store.old)) }
    ensures shape { map (λ k. k.lengths) store.new ≡ map (λ k. k.lengths) store.old }
{
    let Some((spot, rest)) = spots.split_first() else {
        return;
    };
    let Some((value, others)) = values.split_first() else {
        return;
    };
    write(*spot, *value, registers, store);
    put_lasts(rest, others, registers, store);
}

// A scan's variable takes a value.
fn put_scanned(
    reductions: &[LoweredReduction],
    value: u64,
    registers: &mut [u64],
    store: &mut Store,
)
    ensures put { machine registers.new (values_of store.new)
        ≡ scanned reductions.now value (machine registers.old (values_of store.old)) }
    ensures shape { map (λ k. k.lengths) store.new ≡ map (λ k. k.lengths) store.old }
{
    let Some((scanned, _)) = reductions.split_first() else {
        return;
    };
    write(scanned.spot, value, registers, store);
}

// Reduction variables take their totals.
fn put_totals(
    reductions: &[LoweredReduction],
    total: Total,
    logs: &[ChunkLog],
    registers: &mut [u64],
    store: &mut Store,
)
    ensures put { machine registers.new (values_of store.new)
        ≡ totalled total reductions.now (joined logs.now).chunks
        (machine registers.old (values_of store.old)) }
    ensures shape { map (λ k. k.lengths) store.new ≡ map (λ k. k.lengths) store.old }
{
    match total {
        Total::Combined => put_reductions(reductions, 0, logs, registers, store),
        Total::Scanned(value) => put_scanned(reductions, value, registers, store),
    }
}

/// Puts together what all chunks leave: their changes over the store, then each reduction variable with its total, and each lastprivate
/// one as the last chunk leaves it (OpenMP 5.2, 5.4.5 and 5.5.5).
pub fn put_together(
    roles: &LoweredRoles,
    total: Total,
    logs: &[ChunkLog],
    registers: &mut [u64],
    store: &mut Store,
)
    ensures put { IsPutBy (totalled total roles.now.reductions.items (joined logs.now).chunks)
        roles.now (joined logs.now) registers.old registers.new store.old store.new }
    ensures shape { map (λ k. k.lengths) store.new ≡ map (λ k. k.lengths) store.old }
{
    apply_all(store, logs);
    put_totals(roles.reductions.as_slice(), total, logs, registers, store);
    put_lasts(roles.lasts.as_slice(), last_values(logs), registers, store);
}
