//! Loops on a crew that stands by.

ghost use Rattle.std.specs.Prelude.{◌≡◌, ◌+◌, ◌<◌, ◌^◌, length, map, IfOk, IfErr, OnOk};
ghost use Rattle.semantics.specs.Loops.Chunk.{cut};
ghost use Rattle.schedule.specs.Sched.{kind_of, kind_said};
ghost use Rattle.seqrun_io.specs.Told.{Refuses};
ghost use Rattle.store.specs.Flat.{AreFilled};
ghost use Rattle.team_worker.specs.Ends.{AreAll};
ghost use Rattle.team_log.specs.Logged.{joined};
ghost use Rattle.team.specs.Passed.{IsPassed, BeginsIn};
ghost use Rattle.team_worker.specs.Places.{AreSplit, count_taken};
ghost use Rattle.team_worker.specs.Starts.{TakesAll};
ghost use Rattle.team.specs.Together.{LeavesTogether, BeginsTogether};

use crate::lent::{LoopCrew, lent_logs};
use ktree::{Refusal, Workers};
use lower::LoweredLoop;
use schedule::{Sched, sched_of};
use seqrun_io::Sink;
use std::alloc::Global;
use std::sync::Wait;
use store::Store;
use team_log::{ChunkLog, Total, put_texts, put_together};
use team_worker::{Gate, Grounds, Pass, grounds_of};

/// The logs of all chunks of a loop. Where it has no iteration, nothing is lent to the crew.
pub(crate) fn loop_logs<'l, R: Wait, G: Gate>(
    rt: &R,
    alloc: Global,
    crew: &LoopCrew<'l>,
    lowered: &'l LoweredLoop,
    grounds: Grounds,
    store: &mut Store,
    workers: Workers,
    sched: &Sched,
    gate: &G,
) -> Result<Vec<ChunkLog>, Refusal>
    requires split { AreSplit lowered.now grounds }
    requires chunks { grounds.chunks ≡ cut (kind_of sched.now) (count_taken grounds) workers }
    ensures all { IfOk result (λ logs. AreAll lowered.now grounds.registers.items store.old
        grounds.pass grounds.chunks (joined logs.items)) }
    ensures store { store.new ≡ store.old }
    ensures refusal { IfErr result (λ refusal. refusal ≡ Refusal.OutOfMemory) }
{
    if grounds.chunks.is_empty() {
        return Ok(Vec::new(alloc));
    }
    lent_logs(
        rt, alloc, crew, lowered, grounds, store, workers, sched, gate,
    )
}

// Each variable has as many values as elements.
pub(crate) fn confirm_filled(store: &Store)
    ensures { AreFilled store.now }
{
    let _cells = store.cells();
}

/// Runs all chunks of a loop in a pass over all of its iterations, puts what they print, and leaves the rest to be put together.
pub(crate) fn run_pass<'l, R: Wait, G: Gate, S: Sink>(
    rt: &R,
    alloc: Global,
    crew: &LoopCrew<'l>,
    lowered: &'l LoweredLoop,
    pass: Pass,
    registers: &[u64],
    store: &mut Store,
    workers: Workers,
    sched: &Sched,
    gate: &G,
    sink: &mut S,
) -> Result<Vec<ChunkLog>, Refusal>
    requires all { TakesAll pass }
    requires room { S.failed sink.old + 1 < 2 ^ 64 }
    ensures passed { IfOk result (λ logs. IsPassed lowered.now registers.now store.old pass
        (kind_of sched.now) workers (joined logs.items) (S.told sink.old) (S.told sink.new)) }
    ensures beginning { BeginsIn pass lowered.now registers.now store.old (S.told sink.old)
        (S.told sink.new) (kind_of sched.now) workers }
    ensures sound { OnOk result (S.failed sink.new ≡ S.failed sink.old) }
    ensures refusal { IfErr result (Refuses (S.failed sink.old) (S.failed sink.new)) }
    ensures store { store.new ≡ store.old }
{
    let grounds = grounds_of(alloc, lowered, registers, sched, workers)?;
    let count = grounds.chunks.len();
    let grounds = grounds.in_pass(pass);
    let logs = loop_logs(
        rt, alloc, crew, lowered, grounds, store, workers, sched, gate,
    )?;
    put_texts(alloc, logs.as_slice(), count, sink)?;
    Ok(logs)
}

/// Runs a loop on a crew that stands by, as [`crate::run_loop`] does on a team of its own.
///
/// # Errors
///
/// As for [`crate::run_loop`].
pub fn share_loop<'l, R: Wait, G: Gate, S: Sink>(
    rt: &R,
    alloc: Global,
    crew: &LoopCrew<'l>,
    lowered: &'l LoweredLoop,
    registers: &mut [u64],
    store: &mut Store,
    workers: Workers,
    runtime: Sched,
    gate: &G,
    sink: &mut S,
) -> Result<(), Refusal>
    requires room { S.failed sink.old + 1 < 2 ^ 64 }
    ensures leaves { OnOk result (LeavesTogether lowered.now registers.old registers.new store.old
        store.new (S.told sink.old) (S.told sink.new)
        (kind_said lowered.now.schedule runtime) workers) }
    ensures beginning { BeginsTogether lowered.now registers.old store.old (S.told sink.old)
        (S.told sink.new) (kind_said lowered.now.schedule runtime) workers }
    ensures sound { OnOk result (S.failed sink.new ≡ S.failed sink.old) }
    ensures shape { map (λ k. k.lengths) store.new ≡ map (λ k. k.lengths) store.old }
    ensures refusal { IfErr result (Refuses (S.failed sink.old) (S.failed sink.new)) }
    ensures kept { IfErr result (λ _. store.new ≡ store.old) }
    ensures kept_registers { IfErr result (λ _. registers.new ≡ registers.old) }
    ensures long { length registers.new ≡ length registers.old }
{
    let sched = sched_of(lowered.schedule, runtime);
    let logs = run_pass(
        rt,
        alloc,
        crew,
        lowered,
        Pass::Plain,
        registers,
        store,
        workers,
        &sched,
        gate,
        sink,
    )?;
    confirm_filled(store);
    put_together(
        &lowered.roles,
        Total::Combined,
        logs.as_slice(),
        registers,
        store,
    );
    Ok(())
}
