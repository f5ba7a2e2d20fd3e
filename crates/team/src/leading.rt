//! The team: a crew of its own for a loop.

ghost use Rattle.std.specs.Prelude.{◌≡◌, ◌+◌, ◌<◌, ◌^◌, length, map, IfErr, OnOk};
ghost use Rattle.schedule.specs.Sched.{kind_said};
ghost use Rattle.seqrun_io.specs.Told.{Refuses};
ghost use Rattle.team.specs.Together.{LeavesTogether, BeginsTogether, ScansTogether, ScansBeginning};
ghost use Rattle.team.specs.Tasks.{IsLeft, IsBegun};

use crate::lent::LoopCrew;
use crate::scanning::share_scan;
use crate::teamwork::share_loop;
use crew::{Crew, dismiss, serve_all};
use ktree::{Refusal, Workers};
use lower::LoweredLoop;
use schedule::Sched;
use seqrun_io::Sink;
use std::alloc::Global;
use std::sync::Wait;
use std::thread::{Threads, join_mut};
use store::Store;
use team_worker::Gate;

/// What a team runs: a loop, with what stands for the schedule `runtime`; or a scan, by the loop of its input phase and by the whole one.
#[derive(Clone, Copy)]
pub enum Task<'l> {
    Loop {
        lowered: &'l LoweredLoop,
        runtime: Sched,
    },
    Scan {
        first: &'l LoweredLoop,
        second: &'l LoweredLoop,
    },
}

// Runs it on a crew that stands by.
fn share<'l, R: Wait, G: Gate, S: Sink>(
    rt: &R,
    alloc: Global,
    crew: &LoopCrew<'l>,
    task: &Task<'l>,
    registers: &mut [u64],
    store: &mut Store,
    workers: Workers,
    gate: &G,
    sink: &mut S,
) -> Result<(), Refusal>
    requires room { S.failed sink.old + 1 < 2 ^ 64 }
    ensures leaves { OnOk result (IsLeft task.now registers.old registers.new store.old store.new
        (S.told sink.old) (S.told sink.new) workers) }
    ensures beginning { IsBegun task.now registers.old store.old (S.told sink.old)
        (S.told sink.new) workers }
    ensures sound { OnOk result (S.failed sink.new ≡ S.failed sink.old) }
    ensures shape { map (λ k. k.lengths) store.new ≡ map (λ k. k.lengths) store.old }
    ensures refusal { IfErr result (Refuses (S.failed sink.old) (S.failed sink.new)) }
    ensures kept { IfErr result (λ _. store.new ≡ store.old) }
    ensures kept_registers { IfErr result (λ _. registers.new ≡ registers.old) }
    ensures long { length registers.new ≡ length registers.old }
{
    match task {
        Task::Loop { lowered, runtime } => share_loop(
            rt, alloc, crew, lowered, registers, store, workers, *runtime, gate, sink,
        ),
        Task::Scan { first, second } => share_scan(
            rt, alloc, crew, first, second, registers, store, workers, gate, sink,
        ),
    }
}

// Runs it on a crew, and dismisses it.
fn lead<'l, R: Wait, G: Gate, S: Sink>(
    rt: &R,
    alloc: Global,
    crew: &LoopCrew<'l>,
    task: &Task<'l>,
    registers: &mut [u64],
    store: &mut Store,
    workers: Workers,
    gate: &G,
    sink: &mut S,
) -> Result<(), Refusal>
    requires room { S.failed sink.old + 1 < 2 ^ 64 }
    ensures leaves { OnOk result (IsLeft task.now registers.old registers.new store.old store.new
        (S.told sink.old) (S.told sink.new) workers) }
    ensures beginning { IsBegun task.now registers.old store.old (S.told sink.old)
        (S.told sink.new) workers }
    ensures sound { OnOk result (S.failed sink.new ≡ S.failed sink.old) }
    ensures shape { map (λ k. k.lengths) store.new ≡ map (λ k. k.lengths) store.old }
    ensures refusal { IfErr result (Refuses (S.failed sink.old) (S.failed sink.new)) }
    ensures kept { IfErr result (λ _. store.new ≡ store.old) }
    ensures kept_registers { IfErr result (λ _. registers.new ≡ registers.old) }
    ensures long { length registers.new ≡ length registers.old }
{
    let end = share(rt, alloc, crew, task, registers, store, workers, gate, sink);
    dismiss(crew);
    end
}

// Starts a crew, runs it there, and ends the crew.
fn run_led<'l, R: Threads + Wait + Sync, G: Gate + Sync, S: Sink>(
    rt: &R,
    alloc: Global,
    crew: &LoopCrew<'l>,
    task: &Task<'l>,
    registers: &mut [u64],
    store: &mut Store,
    workers: Workers,
    gate: &G,
    sink: &mut S,
) -> Result<(), Refusal>
    requires room { S.failed sink.old + 1 < 2 ^ 64 }
    ensures leaves { OnOk result (IsLeft task.now registers.old registers.new store.old store.new
        (S.told sink.old) (S.told sink.new) workers) }
    ensures beginning { IsBegun task.now registers.old store.old (S.told sink.old)
        (S.told sink.new) workers }
    ensures sound { OnOk result (S.failed sink.new ≡ S.failed sink.old) }
    ensures shape { map (λ k. k.lengths) store.new ≡ map (λ k. k.lengths) store.old }
    ensures refusal { IfErr result (Refuses (S.failed sink.old) (S.failed sink.new)) }
    ensures kept { IfErr result (λ _. store.new ≡ store.old) }
    ensures kept_registers { IfErr result (λ _. registers.new ≡ registers.old) }
    ensures long { length registers.new ≡ length registers.old }
{
    let (_, end) = join_mut(
        rt,
        &mut || serve_all(rt, alloc, crew, gate),
        &mut || -> Result<(), Refusal>
            requires { S.failed sink.now + 1 < 2 ^ 64 }
        { lead(rt, alloc, crew, task, registers, store, workers, gate, sink) },
    );
    end
}

// Runs it on a crew of its own.
fn run<'l, R: Threads + Wait + Sync, G: Gate + Sync, S: Sink>(
    rt: &R,
    alloc: Global,
    task: &Task<'l>,
    registers: &mut [u64],
    store: &mut Store,
    workers: Workers,
    gate: &G,
    sink: &mut S,
) -> Result<(), Refusal>
    requires room { S.failed sink.old + 1 < 2 ^ 64 }
    ensures leaves { OnOk result (IsLeft task.now registers.old registers.new store.old store.new
        (S.told sink.old) (S.told sink.new) workers) }
    ensures beginning { IsBegun task.now registers.old store.old (S.told sink.old)
        (S.told sink.new) workers }
    ensures sound { OnOk result (S.failed sink.new ≡ S.failed sink.old) }
    ensures shape { map (λ k. k.lengths) store.new ≡ map (λ k. k.lengths) store.old }
    ensures refusal { IfErr result (Refuses (S.failed sink.old) (S.failed sink.new)) }
    ensures kept { IfErr result (λ _. store.new ≡ store.old) }
    ensures kept_registers { IfErr result (λ _. registers.new ≡ registers.old) }
    ensures long { length registers.new ≡ length registers.old }
{
    let crew = Crew::new(alloc, workers.get() - 1)?;
    if crew.others() == 0 {
        return share(
            rt, alloc, &crew, task, registers, store, workers, gate, sink,
        );
    }
    run_led(
        rt, alloc, &crew, task, registers, store, workers, gate, sink,
    )
}

/// Runs a loop on a team of so many workers, by the schedule of its clause, and for `runtime` by this one (OpenMP 5.2, 11.5 and
/// 11.5.3): each worker runs the chunks that are its own or that it draws from the store before the loop; after all have met the
/// end, what they leave is put together. These registers stand as where the loop is reached. Where its chunks have a run each from
/// there, each object with no role is then as before where none of these runs changes it, and else as one of them leaves it that does;
/// each reduction variable holds what it held combined with what all chunks tell of it, and each lastprivate one what the last chunk
/// leaves in it, in the store or in these registers (OpenMP 5.2, 5.4.5 and 5.5.5); and what the chunks print is put, the first chunk's
/// first, which is the order of the iterations (OpenMP 5.2, 15.10).
///
/// # Errors
///
/// `OutOfMemory` where memory is refused, and nothing is put then; `OutputFailed` where a `put` fails, behind a beginning of the text.
/// Registers and store are then as before. Of threads that do not start the others do the work.
pub fn run_loop<R: Threads + Wait + Sync, G: Gate + Sync, S: Sink>(
    rt: &R,
    alloc: Global,
    lowered: &LoweredLoop,
    registers: &mut [u64],
    store: &mut Store,
    workers: Workers,
    runtime: Sched,
    gate: &G,
    sink: &mut S,
) -> Result<(), Refusal>
    requires room { S.failed sink.old + 1 < 2 ^ 64 }
    ensures leaves { OnOk result (LeavesTogether lowered.now registers.old registers.new store.old
        store.new (S.told sink.old) (S.told sink.new)
        (kind_said lowered.now.schedule runtime) workers) }
    ensures beginning { BeginsTogether lowered.now registers.old store.old (S.told sink.old)
        (S.told sink.new) (kind_said lowered.now.schedule runtime) workers }
    ensures sound { OnOk result (S.failed sink.new ≡ S.failed sink.old) }
    ensures shape { map (λ k. k.lengths) store.new ≡ map (λ k. k.lengths) store.old }
    ensures refusal { IfErr result (Refuses (S.failed sink.old) (S.failed sink.new)) }
    ensures kept { IfErr result (λ _. store.new ≡ store.old) }
    ensures kept_registers { IfErr result (λ _. registers.new ≡ registers.old) }
    ensures long { length registers.new ≡ length registers.old }
{
    let task = Task::Loop { lowered, runtime };
    run(rt, alloc, &task, registers, store, workers, gate, sink)
}

/// Runs a scan in two passes on a team of so many workers, as [`crate::share_scan`] does on a crew that stands by (OpenMP 5.2, 5.6).
///
/// # Errors
///
/// As for [`run_loop`].
pub fn run_scan<'l, R: Threads + Wait + Sync, G: Gate + Sync, S: Sink>(
    rt: &R,
    alloc: Global,
    first: &'l LoweredLoop,
    second: &'l LoweredLoop,
    registers: &mut [u64],
    store: &mut Store,
    workers: Workers,
    gate: &G,
    sink: &mut S,
) -> Result<(), Refusal>
    requires room { S.failed sink.old + 1 < 2 ^ 64 }
    ensures leaves { OnOk result (ScansTogether first.now second.now registers.old registers.new
        store.old store.new (S.told sink.old) (S.told sink.new) workers) }
    ensures beginning { ScansBeginning first.now second.now registers.old store.old
        (S.told sink.old) (S.told sink.new) workers }
    ensures sound { OnOk result (S.failed sink.new ≡ S.failed sink.old) }
    ensures shape { map (λ k. k.lengths) store.new ≡ map (λ k. k.lengths) store.old }
    ensures refusal { IfErr result (Refuses (S.failed sink.old) (S.failed sink.new)) }
    ensures kept { IfErr result (λ _. store.new ≡ store.old) }
    ensures kept_registers { IfErr result (λ _. registers.new ≡ registers.old) }
    ensures long { length registers.new ≡ length registers.old }
{
    let task = Task::Scan { first, second };
    run(rt, alloc, &task, registers, store, workers, gate, sink)
}
