//! How chunks come to workers.

ghost use Rattle.std.specs.Prelude.{◌≡◌, ◌≤◌, ◌^◌, length, All, IfOk, IfErr, IfSome};
ghost use Rattle.draw.specs.Tickets.{fresh};
ghost use Rattle.semantics.specs.Loops.Chunk.{cut};
ghost use Rattle.schedule.specs.Sched.{kind_of};
ghost use Rattle.team_worker.specs.Places.{IsWay};

use draw::{DrawSeat, Drawing, RestingSeat};
use ktree::{Refusal, Workers};
use schedule::{Chunks, Sched};
use std::alloc::Global;

/// A drawing of chunks, and a seat for each worker.
#[derive(Drop)]
pub struct Draw {
    pub drawing: Drawing,
    pub seats: Vec<RestingSeat>,
}

/// Dealt to them by `static, k` for `Some(k)`, else by plain `static`; or drawn by them (OpenMP 5.2, 11.5.3). A drawing is boxed, so that
/// the way of a loop with none is moved cheaply.
#[derive(Drop)]
pub enum Way {
    Dealt(Option<u64>),
    Drawn(Box<Draw>),
}

/// Seats that wait for who takes them.
fn free(alloc: Global, drawing: &Drawing, seats: Vec<DrawSeat>) -> Result<Vec<RestingSeat>, Refusal>
    requires { All (λ seat. seat ≡ fresh drawing.now) seats.items }
    ensures seats { IfOk result (λ v. All (λ seat. seat ≡ fresh drawing.now) v.items) }
    ensures refusal { IfErr result (λ refusal. refusal ≡ Refusal.OutOfMemory) }
{
    let mut free = Vec::with_capacity(alloc, seats.len())?;
    for seat in seats {
        free.push_reserved(RestingSeat::new(seat));
    }
    Ok(free)
}

/// A drawing of so many chunks by so many workers.
fn start_draw(alloc: Global, count: u64, workers: Workers) -> Result<Box<Draw>, Refusal>
    requires { count ≤ 2 ^ 24 }
    ensures drawing { IfOk result (λ d. (d.value.drawing.count ≡ count)
        × (d.value.drawing.seats ≡ workers)) }
    ensures seats { IfOk result (λ d. All (λ seat. seat ≡ fresh d.value.drawing)
        d.value.seats.items) }
    ensures refusal { IfErr result (λ refusal. refusal ≡ Refusal.OutOfMemory) }
{
    let (drawing, seats) = Drawing::new(alloc, count, workers.get())?;
    let seats = free(alloc, &drawing, seats)?;
    Ok(Box::new(alloc, Draw { drawing, seats })?)
}

/// How the chunks of so many iterations come to so many workers under their schedule.
pub(crate) fn way_of(
    alloc: Global,
    sched: &Sched,
    count: u64,
    chunks: &Chunks,
    workers: Workers,
) -> Result<Way, Refusal>
    requires cut { chunks.now ≡ cut (kind_of sched.now) count workers }
    requires few { length chunks.now ≤ 2 ^ 24 }
    ensures way { IfOk result (λ way. IsWay way count chunks.now workers) }
    ensures refusal { IfErr result (λ refusal. refusal ≡ Refusal.OutOfMemory) }
{
    match sched {
        Sched::PlainStatic => Ok(Way::Dealt(None)),
        Sched::Static(size) => Ok(Way::Dealt(Some(size.get()))),
        Sched::Dynamic(_) | Sched::Guided(_) => Ok(Way::Drawn(start_draw(
            alloc,
            chunks.len(),
            workers,
        )?)),
    }
}

/// The seat of the worker of a number, if nobody has taken it before.
pub(crate) fn seat_of(draw: &Draw, number: u64) -> Option<DrawSeat>
    requires { All (λ seat. seat ≡ fresh draw.now.drawing) draw.now.seats.items }
    ensures { IfSome result (λ seat. seat ≡ fresh draw.now.drawing) }
{
    draw.seats.get(number as usize)?.take()
}
