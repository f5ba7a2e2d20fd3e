//! Scans, which a team runs in two passes (OpenMP 5.2, 5.6).

ghost use Rattle.std.specs.Prelude.{◌≡◌, ◌+◌, ◌<◌, ◌^◌, ℕ, length, map, slice_index, IfOk, IfErr, OnOk};
ghost use Rattle.seqrun_io.specs.Told.{Refuses};
ghost use Rattle.team.specs.ScanStarts.{AreScanStarts};
ghost use Rattle.team.specs.Together.{ScansTogether, ScansBeginning};

use crate::lent::LoopCrew;
use crate::teamwork::{confirm_filled, loop_logs, run_pass};
use ktree::{Refusal, Workers};
use lower::LoweredLoop;
use schedule::Sched;
use seqrun_io::Sink;
use std::alloc::Global;
use std::sync::Wait;
use store::Store;
use team_log::{Total, partials_of, put_together, starts_from};
use team_worker::{Gate, Pass, grounds_of};

// The last of some numbers, and 0 of none.
fn last_number(numbers: &[u64]) -> u64
    ensures { (count : ℕ) → length numbers.now ≡ count + 1
        → result ≡ slice_index numbers.now count }
{
    match numbers.split_last() {
        Some((last, _)) => *last,
        None => 0,
    }
}

// Runs the first pass, and tells the start of each chunk and of one more.
fn run_first<'l, R: Wait, G: Gate>(
    rt: &R,
    alloc: Global,
    crew: &LoopCrew<'l>,
    first: &'l LoweredLoop,
    registers: &[u64],
    store: &mut Store,
    workers: Workers,
    gate: &G,
) -> Result<Vec<u64>, Refusal>
    ensures starts { IfOk result (λ starts. AreScanStarts first.now registers.now store.old workers
        starts.items) }
    ensures store { store.new ≡ store.old }
    ensures refusal { IfErr result (λ refusal. refusal ≡ Refusal.OutOfMemory) }
{
    let sched = Sched::PlainStatic;
    let grounds = grounds_of(alloc, first, registers, &sched, workers)?;
    let count = grounds.chunks.len();
    let logs = loop_logs(
        rt, alloc, crew, first, grounds, store, workers, &sched, gate,
    )?;
    let partials = partials_of(alloc, logs.as_slice(), count)?;
    let reductions = first.roles.reductions.as_slice();
    Ok(starts_from(alloc, reductions, registers, store, partials.as_slice())?)
}

/// Runs a scan on a crew that stands by. `first` is the loop of its input phase alone, `second` the whole loop; their one reduction
/// variable is the scan's. Both are run over the same chunks, those of plain static, whatever their schedule: the first pass tells what
/// each chunk adds to the scan variable, and the second runs each chunk from the store before the loop with that variable at its start,
/// which is what it held before the loop, combined with what the chunks before add. What the chunks of the second pass leave is put
/// together as of any loop; the scan variable takes the start of one chunk more (OpenMP 5.2, 5.6).
///
/// # Errors
///
/// As for [`crate::run_loop`].
pub fn share_scan<'l, R: Wait, G: Gate, S: Sink>(
    rt: &R,
    alloc: Global,
    crew: &LoopCrew<'l>,
    first: &'l LoweredLoop,
    second: &'l LoweredLoop,
    registers: &mut [u64],
    store: &mut Store,
    workers: Workers,
    gate: &G,
    sink: &mut S,
) -> Result<(), Refusal>
    requires room { S.failed sink.old + 1 < 2 ^ 64 }
    ensures leaves { OnOk result (ScansTogether first.now second.now registers.old registers.new
        store.old store.new (S.told sink.old) (S.told sink.new) workers) }
    ensures beginning { ScansBeginning first.now second.now registers.old store.old
        (S.told sink.old) (S.told sink.new) workers }
    ensures sound { OnOk result (S.failed sink.new ≡ S.failed sink.old) }
    ensures shape { map (λ k. k.lengths) store.new ≡ map (λ k. k.lengths) store.old }
    ensures refusal { IfErr result (Refuses (S.failed sink.old) (S.failed sink.new)) }
    ensures kept { IfErr result (λ _. store.new ≡ store.old) }
    ensures kept_registers { IfErr result (λ _. registers.new ≡ registers.old) }
    ensures long { length registers.new ≡ length registers.old }
{
    let starts = run_first(rt, alloc, crew, first, registers, store, workers, gate)?;
    let value = last_number(starts.as_slice());
    let sched = Sched::PlainStatic;
    let logs = run_pass(
        rt,
        alloc,
        crew,
        second,
        Pass::Second(starts),
        registers,
        store,
        workers,
        &sched,
        gate,
        sink,
    )?;
    confirm_filled(store);
    put_together(
        &second.roles,
        Total::Scanned(value),
        logs.as_slice(),
        registers,
        store,
    );
    Ok(())
}
