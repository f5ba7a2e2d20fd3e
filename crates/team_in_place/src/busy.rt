//! How many workers of a team a loop keeps busy.

ghost use Rattle.std.specs.Prelude.{◌*◌, ◌<◌, ◌≤◌, ◌^◌};

use ktree::Workers;

// How many instructions each thread has to run at least, many times what it takes to begin and to end.
const GRAIN: u64 = 1 << 19;

/// So many of these workers that each of two or more has much to do, where each of so many turns has so many instructions.
pub(crate) fn busy_workers(workers: Workers, turns: u64, instructions: u64) -> Workers
    ensures few { result ≤ workers }
    ensures busy { 1 < result → result * 2 ^ 19 ≤ turns * instructions }
{
    let shares = turns.saturating_mul(instructions) / GRAIN;
    match Workers::new(shares.max(1).min(workers.get())) {
        Some(busy) => busy,
        None => workers,
    }
}
