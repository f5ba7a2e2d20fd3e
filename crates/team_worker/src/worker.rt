//! One worker of a team.

ghost use Rattle.std.specs.Prelude.{◌≡◌, ◌<◌, ◌++◌, ◌∷◌, [], true, ℕ, List, length, IfOk, IfErr, OnOk};
ghost use Rattle.draw.specs.Tickets.{fresh};
ghost use Rattle.team_worker.specs.Ends.{IsReady, IsAccountOf, IsFinished};

use crate::gate::{Gate, Taken};
use crate::job::Job;
use crate::memory::ThreadMemory;
use draw::{DrawSeat, Drawing, RestingSeat};
use ktree::{ChunkNo, Refusal};
use overlay::{Tools, Work, Worker};
use std::alloc::Global;
use team_log::{ChunkLog, ChunkPiece};

/// A member of a team before it starts: its number among them, and its right to draw.
#[derive(Drop)]
pub struct Member {
    pub number: u64,
    pub seat: DrawSeat,
    pub ghost within: { number < seat.of.seats },
}

/// What a worker leaves when it met the end of the chunks.
#[derive(Drop)]
pub struct Finished {
    pub seat: RestingSeat,
    pub log: Box<ChunkLog>,
}

/// Runs a chunk that a worker has taken, after the gate is told of it, and enters what it leaves in the worker's log.
pub(crate) fn run_logged<G: Gate>(
    alloc: Global,
    job: Job,
    runner: &mut Worker,
    log: &mut ChunkLog,
    taken: Taken,
    gate: &G,
) -> Result<(), Refusal>
    requires ready { IsReady job }
    requires runner { runner.old ≡ job.store.now }
    requires worker { taken.worker < taken.workers }
    requires chunk { taken.chunk < taken.chunks }
    requires count { taken.chunks ≡ length job.chunks.now }
    ensures runner { runner.new ≡ runner.old }
    ensures account { OnOk result ((numbers : List ℕ) → IsAccountOf job.entry numbers log.old
        → IsAccountOf job.entry (numbers ++ taken.chunk ∷ []) log.new) }
    ensures refusal { IfErr result (λ refusal. refusal ≡ Refusal.OutOfMemory) }
{
    gate.entered(taken);
    let chunk = job.chunks.at(taken.chunk);
    let number = ChunkNo(taken.chunk);
    let start = job.pass.start(taken.chunk);
    let order = job.pass.order();
    let work = Work {
        chunk: number,
        first: chunk.first,
        count: chunk.count,
    };
    let piece = runner.run_chunk(
        alloc,
        job.lowered,
        job.registers,
        job.space,
        order,
        work,
        start,
    )?;
    log.push(ChunkPiece { number, piece })?;
    Ok(())
}

// Draws until the end, and runs each chunk drawn.
fn run_drawn<G: Gate>(
    alloc: Global,
    job: Job,
    drawing: &Drawing,
    worker: u64,
    seat: &mut DrawSeat,
    runner: &mut Worker,
    log: &mut ChunkLog,
    gate: &G,
) -> Result<(), Refusal>
    requires ready { IsReady job }
    requires count { drawing.now.count ≡ length job.chunks.now }
    requires worker { worker < drawing.now.seats }
    requires seat { seat.old ≡ fresh drawing.now }
    requires runner { runner.old ≡ job.store.now }
    requires log { IsAccountOf job [] log.old }
    ensures seat { OnOk result (seat.new.of ≡ drawing.now) }
    ensures ended { OnOk result (seat.new.ended ≡ true) }
    ensures account { OnOk result (IsAccountOf job.entry seat.new.tickets log.new) }
    ensures refusal { IfErr result (λ refusal. refusal ≡ Refusal.OutOfMemory) }
{
    while let Some(ticket) = drawing.next(seat) {
        let taken = Taken {
            worker,
            workers: drawing.seats(),
            chunk: ticket,
            chunks: drawing.count(),
        };
        run_logged(alloc, job, runner, log, taken, gate)?;
    }
    Ok(())
}

/// Draws until the end, and runs each chunk drawn.
pub(crate) fn work<G: Gate>(
    alloc: Global,
    job: Job,
    drawing: &Drawing,
    member: Member,
    gate: &G,
    memory: &mut ThreadMemory,
) -> Result<Finished, Refusal>
    requires ready { IsReady job }
    requires count { drawing.now.count ≡ length job.chunks.now }
    requires seat { member.seat ≡ fresh drawing.now }
    ensures finished { IfOk result (λ f. IsFinished job.entry.lowered.now job.entry.registers.now
        job.entry.store.now job.entry.pass.now job.entry.chunks.now drawing.now f) }
    ensures refusal { IfErr result (λ refusal. refusal ≡ Refusal.OutOfMemory) }
{
    let Member {
        number: worker,
        mut seat,
    } = member;
    let mut log = memory.empty_log(alloc)?;
    let tools = Tools::resume(alloc, job.store, memory.tools.take())?;
    let mut runner = Worker::over(job.store, tools);
    run_drawn(
        alloc,
        job,
        drawing,
        worker,
        &mut seat,
        &mut runner,
        &mut log,
        gate,
    )?;
    memory.tools = Some(runner.leave());
    Ok(Finished {
        seat: RestingSeat::new(seat),
        log,
    })
}
