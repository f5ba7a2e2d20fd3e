//! Chunks that workers draw, of the schedules that fix no worker for a chunk (OpenMP 5.2, 11.5.3).

ghost use Rattle.std.specs.Prelude.{◌≡◌, ◌<◌, ◌++◌, ◌∷◌, [], ℕ, List, length, vec_len, vec_capacity, All, IfOk, IfErr, OnOk};
ghost use Rattle.std.specs.Global.{Box};
ghost use Rattle.semantics.specs.Loops.Chunk.{Chunk};
ghost use Rattle.draw.specs.Tickets.{fresh};
ghost use Rattle.store.specs.Kept.{Kept};
ghost use Rattle.lower.specs.declared.lowered.LoweredLoop.{LoweredLoop};
ghost use Rattle.team_worker.specs.declared.pass.Pass.{Pass};
ghost use Rattle.team_worker.specs.declared.place.End.TheVariants.{Draws};
ghost use Rattle.team_worker.specs.declared.way.Draw.{Draw};
ghost use Rattle.team_worker.specs.declared.way.Way.TheVariants.{Drawn};
ghost use Rattle.team_worker.specs.Ends.{IsReady, IsFinished, AreTaken, AreBack, AreDrawn, AreAll};
ghost use Rattle.team_log.specs.Logged.{joined};
ghost use Rattle.team_worker.specs.Places.{Aim, IsEnd, AreFor};

use crate::gate::Gate;
use crate::job::Job;
use crate::memory::ThreadMemory;
use crate::place::{End, Place};
use crate::way::{Draw, seat_of};
use crate::worker::{Finished, Member, work};
use draw::{DrawSeat, Drawing, RestingSeat};
use ktree::Refusal;
use std::alloc::Global;
use team_log::ChunkLog;

/// Draws and runs chunks as a worker, and leaves what it drew at its place, if memory is left for that.
pub fn leave_draws<G: Gate>(
    alloc: Global,
    job: Job,
    draw: &Draw,
    number: u64,
    place: &Place,
    gate: &G,
    memory: &mut ThreadMemory,
)
    requires ready { IsReady job }
    requires count { draw.now.drawing.count ≡ length job.chunks.now }
    requires number { number < draw.now.drawing.seats }
    requires seats { All (λ seat. seat ≡ fresh draw.now.drawing) draw.now.seats.items }
    requires place { (finished : Finished) → IsFinished job.lowered.now job.registers.now
        job.store.now job.pass.now job.chunks.now draw.now.drawing finished
        → IsEnd place.now (Draws finished) }
{
    let Some(seat) = seat_of(draw, number) else {
        return;
    };
    let member = Member { number, seat };
    if let Ok(finished) = work(alloc, job, &draw.drawing, member, gate, memory) {
        memory.used = place.hand_in(End::Draws(finished));
    }
}

// One seat more, for which there is room, if nobody has taken it before.
fn seat_back(seats: &mut Vec<DrawSeat>, seat: RestingSeat) -> Result<(), Refusal>
    requires { vec_len seats.old < vec_capacity seats.old }
    ensures back { OnOk result (seats.new.items ≡ seats.old.items ++ seat ∷ []) }
    ensures room { vec_capacity seats.new ≡ vec_capacity seats.old }
    ensures refusal { IfErr result (λ refusal. refusal ≡ Refusal.OutOfMemory) }
{
    let Some(seat) = seat.take() else {
        return Err(Refusal::OutOfMemory);
    };
    seats.push_reserved(seat);
    Ok(())
}

/// The seats and the logs of all workers, in their order, where all of them have left these.
pub(crate) fn collect(
    alloc: Global,
    places: Vec<Place>,
) -> Result<(Vec<DrawSeat>, Vec<ChunkLog>), Refusal>
    ensures taken { (aim : Aim) (draw : Box Draw) → aim.way ≡ Drawn draw → AreFor aim places.items
        → IfOk result (λ r. AreTaken aim.lowered aim.registers aim.store aim.pass aim.chunks
        draw.value.drawing
        r.0.items (joined r.1.items)) }
    ensures len { IfOk result (λ r. length r.0.items ≡ vec_len places) }
    ensures refusal { IfErr result (λ refusal. refusal ≡ Refusal.OutOfMemory) }
{
    let mut seats = Vec::with_capacity(alloc, places.len())?;
    let mut logs = Vec::with_capacity(alloc, places.len())?;
    for place in places {
        let Some(Finished { seat, log }) = place.draws() else {
            return Err(Refusal::OutOfMemory);
        };
        logs.push_reserved(Box::into_inner(log));
        seat_back(&mut seats, seat)?;
    }
    Ok((seats, logs))
}

/// What the workers of a loop leave: their drawing, and the seat and the log of each.
#[derive(Drop)]
pub(crate) struct TeamEnd {
    pub(crate) drawing: Drawing,
    pub(crate) seats: Vec<DrawSeat>,
    pub(crate) logs: Vec<ChunkLog>,
}

/// The logs of all chunks of a loop: where all seats are back, no chunk was left out.
pub(crate) fn all_logs(end: TeamEnd) -> Vec<ChunkLog>
    requires { AreBack end.drawing end.seats.items }
    ensures { (l : LoweredLoop) (registers : List ℕ) (ks : List Kept) (pass : Pass)
        (chunks : List Chunk)
        → AreDrawn l registers ks pass chunks end.drawing end.seats.items (joined end.logs.items)
        → AreAll l registers ks pass chunks (joined result.items) }
{
    let TeamEnd {
        drawing,
        seats,
        logs,
    } = end;
    let whole = drawing.close(seats).whole();
    prove!(whole);
    logs
}
