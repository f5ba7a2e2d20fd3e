//! The places of a loop's workers: made for them beside the way that chunks come to them, and what lies there behind the loop.

ghost use Rattle.std.specs.Prelude.{◌≡◌, ℕ, length, map, vec_len, IfOk, IfErr, OnOk};
ghost use Rattle.semantics.specs.Loops.Chunk.{cut};
ghost use Rattle.schedule.specs.Sched.{kind_of};
ghost use Rattle.store.specs.Flat.{values_of};
ghost use Rattle.team_worker.specs.Ends.{AreAll};
ghost use Rattle.team_log.specs.Logged.{joined};
ghost use Rattle.team_worker.specs.Overwritten.{AreOverwrittenByAll};
ghost use Rattle.team_worker.specs.Places.{Aim, AreFor, AreLeft, AreSplit, IsWay, aim_of, count_taken, places_of};

use crate::dealt::{apply_dealt, gather};
use crate::drawn::{TeamEnd, all_logs, collect};
use crate::grounds::Grounds;
use crate::memory::Spare;
use crate::place::{Place, Plan};
use crate::way::{Draw, Way, way_of};
use ktree::{Refusal, Workers};
use lower::LoweredLoop;
use schedule::{Chunks, Sched};
use std::alloc::{AllocError, Global};
use std::mem;
use store::Store;
use team_log::{ChunkLog, apply_all};

// How many of so many workers leave something: of dealt chunks only those that come to one.
fn count_places(way: &Way, chunks: &Chunks, workers: Workers) -> u64
    ensures { result ≡ places_of way.now (length chunks.now) workers }
{
    match way {
        Way::Dealt(_) => chunks.len().min(workers.get()),
        Way::Drawn(_) => workers.get(),
    }
}

// A place for each worker that leaves something, in memory that is kept.
fn places_for(
    alloc: Global,
    lowered: &LoweredLoop,
    grounds: &Grounds,
    store: &Store,
    way: &Way,
    workers: Workers,
    spare: &mut Spare,
) -> Result<Vec<Place>, Refusal>
    ensures all { IfOk result (λ places. vec_len places
        ≡ places_of way.now (length grounds.now.chunks) workers) }
    ensures made { IfOk result (λ places. AreFor
        (aim_of lowered.now grounds.now store.now way.now workers) places.items) }
    ensures refusal { IfErr result (λ refusal. refusal ≡ Refusal.OutOfMemory) }
{
    let mut places = mem::replace(&mut spare.places, Vec::new(alloc));
    // each worker finds memory at its place that it had before
    spare.logs.reverse();
    places.clear();
    let count = count_places(way, &grounds.chunks, workers);
    places.reserve(count as usize)?;
    for number in 0..count {
        let memory = spare.log(alloc)?;
        let plan = Plan::new(
            lowered,
            &grounds.registers,
            store,
            &grounds.pass,
            &grounds.chunks,
            way,
            workers,
            number,
        );
        places.push_reserved(Place::new(&plan, memory));
    }
    Ok(places)
}

/// The way that chunks come to so many workers of a loop, and a place for each that leaves something, in memory that is kept: where chunks
/// are dealt, a worker that comes to none has no place.
///
/// # Errors
///
/// `OutOfMemory` alone.
pub fn way_and_places(
    alloc: Global,
    lowered: &LoweredLoop,
    grounds: &Grounds,
    store: &Store,
    workers: Workers,
    sched: &Sched,
    spare: &mut Spare,
) -> Result<(Way, Vec<Place>), Refusal>
    requires split { AreSplit lowered.now grounds.now }
    requires chunks { grounds.now.chunks
        ≡ cut (kind_of sched.now) (count_taken grounds.now) workers }
    ensures comes { IfOk result (λ r. IsWay r.0 (count_taken grounds.now) grounds.now.chunks
        workers) }
    ensures all { IfOk result (λ r. vec_len r.1
        ≡ places_of r.0 (length grounds.now.chunks) workers) }
    ensures made { IfOk result (λ r. AreFor
        (aim_of lowered.now grounds.now store.now r.0 workers) r.1.items) }
    ensures refusal { IfErr result (λ refusal. refusal ≡ Refusal.OutOfMemory) }
{
    let way = way_of(alloc, sched, grounds.count(), &grounds.chunks, workers)?;
    let places = places_for(alloc, lowered, grounds, store, &way, workers, spare)?;
    Ok((way, places))
}

/// The logs of all chunks of a loop, where all of its workers have left theirs.
///
/// # Errors
///
/// `OutOfMemory` alone: where memory is refused, or was refused to one of the workers.
pub fn logs_left(alloc: Global, way: Way, places: Vec<Place>) -> Result<Vec<ChunkLog>, Refusal>
    requires { (aim : Aim) × (count : ℕ) × AreLeft aim count way places.items }
    ensures all { (aim : Aim) (count : ℕ) → AreLeft aim count way places.items
        → IfOk result (λ logs. AreAll aim.lowered aim.registers aim.store aim.pass aim.chunks
        (joined logs.items)) }
    ensures refusal { IfErr result (λ refusal. refusal ≡ Refusal.OutOfMemory) }
{
    match way {
        Way::Dealt(_) => gather(alloc, places),
        Way::Drawn(draw) => {
            let Draw { drawing, seats: _ } = Box::into_inner(draw);
            let (seats, logs) = collect(alloc, places)?;
            Ok(all_logs(TeamEnd {
                drawing,
                seats,
                logs,
            }))
        }
    }
}

/// Overwrites a store by the changes of all chunks of a loop, where all of its workers have left theirs, and takes their places away.
/// Else the store is as before.
///
/// # Errors
///
/// Where memory is refused, or was refused to one of the workers.
pub fn apply_left(
    alloc: Global,
    way: Way,
    spare: &mut Spare,
    store: &mut Store,
) -> Result<(), AllocError>
    requires { (aim : Aim) × (count : ℕ) × AreLeft aim count way spare.old.places.items }
    ensures applied { OnOk result ((aim : Aim) (count : ℕ)
        → AreLeft aim count way spare.old.places.items
        → AreOverwrittenByAll aim (values_of store.old) (values_of store.new)) }
    ensures shape { map (λ k. k.lengths) store.new ≡ map (λ k. k.lengths) store.old }
    ensures kept { IfErr result (λ _. store.new ≡ store.old) }
{
    if let Way::Dealt(_) = &way {
        return apply_dealt(&mut spare.places, store, &mut spare.logs);
    }
    let places = mem::replace(&mut spare.places, Vec::new(alloc));
    let Ok(logs) = logs_left(alloc, way, places) else {
        return Err(AllocError);
    };
    apply_all(store, logs.as_slice());
    Ok(())
}
