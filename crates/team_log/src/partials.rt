//! What chunks tell of a scan's variable, and where its chunks start by that (OpenMP 5.2, 5.6).

ghost use Rattle.std.specs.Prelude.{◌≡◌, map, replicate, None, IfOk};
ghost use Rattle.reduce.specs.Partial.{partial_of};
ghost use Rattle.store.specs.Flat.{values_of};
ghost use Rattle.lower_machine.specs.Machine.{machine};
ghost use Rattle.team_log.specs.Logged.{joined};
ghost use Rattle.team_log.specs.Printed.{entered_by};
ghost use Rattle.team_log.specs.Scanned.{told_of_scan, partials_in_order, StartFrom};

use crate::log::ChunkLog;
use crate::putting::read;
use inscan::starts;
use lower::LoweredReduction;
use reduce::Partial;
use std::alloc::{AllocError, Global};
use store::Store;

// What each of these chunks tells of a scan's variable stands at its number.
fn enter_all(logs: &[ChunkLog], table: &mut [Partial])
    ensures { map partial_of table.new
        ≡ entered_by told_of_scan (joined logs.now).chunks (map partial_of table.old) }
{
    let Some((log, rest)) = logs.split_first() else {
        return;
    };
    log.enter_partials(table);
    enter_all(rest, table);
}

// So many partials of nothing.
fn untouched_partials(alloc: Global, count: u64) -> Result<Vec<Partial>, AllocError>
    ensures { IfOk result (λ table. map partial_of table.items ≡ replicate count None) }
{
    Vec::from_elem(alloc, Partial::Untouched, count as usize)
}

/// What so many chunks tell of a scan's variable, each by its number (OpenMP 5.2, 5.6).
///
/// # Errors
///
/// Where memory is refused.
pub fn partials_of(alloc: Global, logs: &[ChunkLog], count: u64) -> Result<Vec<Partial>, AllocError>
    ensures { IfOk result (λ partials. map partial_of partials.items
        ≡ partials_in_order count (joined logs.now).chunks) }
{
    let mut table = untouched_partials(alloc, count)?;
    enter_all(logs, table.as_mut_slice());
    Ok(table)
}

/// The starts of a scan's chunks and of one more, where the variable, the first of these, holds what it held before the loop; none where there
/// is no variable (OpenMP 5.2, 5.6).
///
/// # Errors
///
/// Where memory is refused.
pub fn starts_from(
    alloc: Global,
    reductions: &[LoweredReduction],
    registers: &[u64],
    store: &Store,
    partials: &[Partial],
) -> Result<Vec<u64>, AllocError>
    ensures { IfOk result (λ starts. StartFrom reductions.now
        (machine registers.now (values_of store.now)) (map partial_of partials.now) starts.items) }
{
    let Some((reduction, _)) = reductions.split_first() else {
        return Ok(Vec::new(alloc));
    };
    let held = read(reduction.spot, registers, store);
    starts(alloc, reduction.operator, held, partials)
}
