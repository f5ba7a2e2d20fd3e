//! Chunks that are dealt to workers, of the schedules that fix the worker of each (OpenMP 5.2, 11.5.3).

ghost use Rattle.std.specs.Prelude.{◌≡◌, ℕ, ◌<◌, ◌≤◌, ◌^◌, [], length, map, vec_len, flat_map, Option, IfOk, IfErr, IfSome, OnOk};
ghost use Rattle.std.specs.Global.{Box};
ghost use Rattle.semantics.specs.Loops.Chunk.{cut};
ghost use Rattle.semantics.specs.Meaning.Places.{below};
ghost use Rattle.nest_space.specs.Space.{vectors};
ghost use Rattle.schedule.specs.Part.{static_kind};
ghost use Rattle.store.specs.Flat.{values_of};
ghost use Rattle.team_worker.specs.declared.place.End.TheVariants.{Share};
ghost use Rattle.team_worker.specs.declared.way.Way.TheVariants.{Dealt};
ghost use Rattle.team_worker.specs.Ends.{IsReady, IsAccount, IsAccountOf};
ghost use Rattle.team_worker.specs.Dealt.{own_numbers};
ghost use Rattle.team_log.specs.Logged.{Account, joined, no_account};
ghost use Rattle.team_worker.specs.Overwritten.{AreOverwrittenBy};
ghost use Rattle.team_worker.specs.Places.{Aim, IsEnd, AreFor};
ghost use Rattle.team_worker.specs.Starts.{taken_in};

use crate::gate::{Gate, Taken};
use crate::job::Job;
use crate::memory::ThreadMemory;
use crate::place::{End, Place};
use crate::worker::run_logged;
use ktree::{Refusal, Workers};
use overlay::{Tools, Worker};
use schedule::static_init;
use std::alloc::{AllocError, Global};
use store::Store;
use team_log::ChunkLog;

// Runs a worker's own chunks, in their order, and enters them in its log.
fn run_dealt<G: Gate>(
    alloc: Global,
    job: Job,
    workers: Workers,
    worker: u64,
    size: Option<u64>,
    runner: &mut Worker,
    log: &mut ChunkLog,
    gate: &G,
) -> Result<(), Refusal>
    requires ready { IsReady job }
    requires chunks { job.chunks.now
        ≡ cut (static_kind size) (length (taken_in job.pass.now (vectors job.space.now))) workers }
    requires size { IfSome size (λ k. (1 ≤ k) × (k ≤ 2 ^ 24)) }
    requires worker { worker < workers }
    requires runner { runner.old ≡ job.store.now }
    requires log { IsAccountOf job [] log.old }
    ensures dealt { OnOk result (IsAccountOf job.entry
        (own_numbers size (length job.entry.chunks.now) workers worker) log.new) }
    ensures refusal { IfErr result (λ refusal. refusal ≡ Refusal.OutOfMemory) }
{
    let part = static_init(job.pass.count(job.space), workers, worker, size);
    let mut turn = 0;
    while let Some(number) = part.number(turn) {
        let taken = Taken {
            worker,
            workers: workers.get(),
            chunk: number,
            chunks: job.chunks.len(),
        };
        run_logged(alloc, job, runner, log, taken, gate)?;
        turn += 1;
    }
    Ok(())
}

// Runs a worker's own chunks, in their order, and enters them in a log: those of `static, k` for `Some(k)`, else those of plain `static`.
// The tools are what the thread keeps from loop to loop.
fn run_own<G: Gate>(
    alloc: Global,
    job: Job,
    workers: Workers,
    worker: u64,
    size: Option<u64>,
    gate: &G,
    tools: &mut Option<Tools>,
    log: &mut ChunkLog,
) -> Result<(), Refusal>
    requires ready { IsReady job }
    requires chunks { job.chunks.now
        ≡ cut (static_kind size) (length (taken_in job.pass.now (vectors job.space.now))) workers }
    requires size { IfSome size (λ k. (1 ≤ k) × (k ≤ 2 ^ 24)) }
    requires worker { worker < workers }
    requires log { log.old ≡ no_account }
    ensures dealt { OnOk result (IsAccountOf job.entry
        (own_numbers size (length job.entry.chunks.now) workers worker) log.new) }
    ensures refusal { IfErr result (λ refusal. refusal ≡ Refusal.OutOfMemory) }
{
    let resumed = Tools::resume(alloc, job.store, tools.take())?;
    let mut runner = Worker::over(job.store, resumed);
    run_dealt(alloc, job, workers, worker, size, &mut runner, log, gate)?;
    *tools = Some(runner.leave());
    Ok(())
}

/// Runs the chunks that are dealt to a worker, and leaves their log at its place, if memory is left for that.
pub fn leave_share<G: Gate>(
    alloc: Global,
    job: Job,
    workers: Workers,
    number: u64,
    size: Option<u64>,
    place: &Place,
    gate: &G,
    memory: &mut ThreadMemory,
)
    requires ready { IsReady job }
    requires chunks { job.chunks.now
        ≡ cut (static_kind size) (length (taken_in job.pass.now (vectors job.space.now))) workers }
    requires size { IfSome size (λ k. (1 ≤ k) × (k ≤ 2 ^ 24)) }
    requires number { number < workers }
    requires place { (log : Box Account) → IsAccountOf job (own_numbers size
        (length job.chunks.now) workers number) log.value → IsEnd place.now (Share log) }
{
    let Ok(mut log) = memory.empty_log(alloc) else {
        return;
    };
    let tools = &mut memory.tools;
    if let Ok(()) = run_own(alloc, job, workers, number, size, gate, tools, &mut log) {
        memory.used = place.hand_in(End::Share(log));
    }
}

/// The logs of all workers, where all of them have left theirs.
pub(crate) fn gather(alloc: Global, places: Vec<Place>) -> Result<Vec<ChunkLog>, Refusal>
    ensures dealt { (aim : Aim) (size : Option ℕ) → aim.way ≡ Dealt size → AreFor aim places.items
        → IfOk result (λ logs. IsAccount aim.lowered aim.registers aim.store aim.pass aim.chunks
        (flat_map (own_numbers size (length aim.chunks) aim.workers) (below (vec_len places)))
        (joined logs.items)) }
    ensures refusal { IfErr result (λ refusal. refusal ≡ Refusal.OutOfMemory) }
{
    let mut logs = Vec::with_capacity(alloc, places.len())?;
    for place in places {
        let Some(log) = place.share() else {
            return Err(Refusal::OutOfMemory);
        };
        logs.push_reserved(Box::into_inner(log));
    }
    Ok(logs)
}

/// Overwrites a store by the changes of all chunks of these workers, one worker's after another's, and takes their places away. The memory of
/// their logs is kept, as far as there is memory to keep it in. Where a worker has left no log, the store is as before.
pub(crate) fn apply_dealt(
    places: &mut Vec<Place>,
    store: &mut Store,
    logs: &mut Vec<Box<ChunkLog>>,
) -> Result<(), AllocError>
    ensures dealt { OnOk result ((aim : Aim) (size : Option ℕ) → aim.way ≡ Dealt size
        → AreFor aim places.old.items → AreOverwrittenBy aim
        (flat_map (own_numbers size (length aim.chunks) aim.workers)
        (below (length places.old.items))) (values_of store.old) (values_of store.new)) }
    ensures shape { map (λ k. k.lengths) store.new ≡ map (λ k. k.lengths) store.old }
    ensures kept { IfErr result (λ _. store.new ≡ store.old) }
{
    let Some(place) = places.pop() else {
        return Ok(());
    };
    let Some(log) = place.share() else {
        return Err(AllocError);
    };
    apply_dealt(places, store, logs)?;
    log.apply(store);
    let _kept = logs.push(log);
    Ok(())
}
