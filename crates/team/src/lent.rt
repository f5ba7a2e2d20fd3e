//! A loop that is lent to a crew.

ghost use Rattle.std.specs.Prelude.{◌≡◌, ◌<◌, length, vec_len, IfOk, IfErr};
ghost use Rattle.std.specs.Global.{Box};
ghost use Rattle.semantics.specs.Loops.Chunk.{cut};
ghost use Rattle.schedule.specs.Sched.{kind_of};
ghost use Rattle.team_worker.specs.Ends.{AreAll};
ghost use Rattle.team_log.specs.Logged.{joined};
ghost use Rattle.team_worker.specs.Places.{AreFor, AreLeft, AreSplit, IsWay, aim_of, count_taken, places_of};

use crew::{Crew, Part, lend};
use ktree::{Refusal, Workers};
use lower::LoweredLoop;
use schedule::Sched;
use std::alloc::Global;
use std::mem;
use std::sync::Wait;
use store::Store;
use team_log::ChunkLog;
use team_worker::{
    Gate, Grounds, Job, Place, Spare, ThreadMemory, Way, leave_draws, leave_share, logs_left,
    way_and_places,
};

/// A loop where it is reached, with all that its workers need, and a place for what each of them leaves that comes to a chunk. Threads share it. It is moved
/// from hand to hand when it is lent, so that what is large stands in a box.
#[derive(Drop)]
pub struct LentLoop<'l> {
    alloc: Global,
    lowered: &'l LoweredLoop,
    grounds: Box<Grounds>,
    store: Store,
    workers: Workers,
    way: Way,
    places: Vec<Place>,
    pub ghost ready: { AreSplit lowered.now grounds.value },
    pub ghost comes: { IsWay way (count_taken grounds.value) grounds.value.chunks workers },
    pub ghost all: { vec_len places ≡ places_of way (length grounds.value.chunks) workers },
    pub ghost made: { AreFor (aim_of lowered.now grounds.value store way workers) places.items },
}

/// A crew to which loops are lent.
pub type LoopCrew<'l> = Crew<LentLoop<'l>, ThreadMemory>;

/// Runs the worker of a number, if it has a place, and leaves its end there, if memory is left for that.
fn run_worker<G: Gate>(lent: &LentLoop<'_>, number: u64, gate: &G, memory: &mut ThreadMemory) {
    let Some(place) = lent.places.get(number as usize) else {
        return;
    };
    let grounds: &Grounds = &lent.grounds;
    let job = Job {
        lowered: lent.lowered,
        registers: grounds.registers.as_slice(),
        space: &grounds.space,
        store: &lent.store,
        chunks: &grounds.chunks,
        pass: &grounds.pass,
    };
    match &lent.way {
        Way::Dealt(size) => leave_share(
            lent.alloc,
            job,
            lent.workers,
            number,
            *size,
            place,
            gate,
            memory,
        ),
        Way::Drawn(draw) => leave_draws(lent.alloc, job, draw, number, place, gate, memory),
    }
}

impl<'l, G: Gate> crew::Job<G, ThreadMemory> for LentLoop<'l> {
    // Workers that come to no chunk need no thread of their own.
    fn parts(&self) -> u64 {
        self.grounds.chunks.len().min(self.workers.get())
    }

    // A part is the worker of its number, and of each number that is as many parts further on.
    fn work(&self, part: Part, gate: &G, memory: &mut ThreadMemory) {
        let mut number = part.number;
        for _worker in 0..self.workers.get() {
            if number >= self.workers.get() {
                return;
            }
            run_worker(self, number, gate, memory);
            number = number.saturating_add(part.of);
        }
    }

    fn make_ready(alloc: Global, memory: &mut ThreadMemory) {
        memory.make_ready(alloc);
    }
}

/// What comes back of a loop that was lent: what it was run from, how its chunks came to workers, and the places of these.
#[derive(Drop)]
pub(crate) struct Returned {
    pub(crate) grounds: Box<Grounds>,
    pub(crate) way: Way,
    pub(crate) places: Vec<Place>,
}

/// Takes a loop back from its workers: its store, and beside what it was run from what these have left.
fn take_back(lent: LentLoop<'_>, store: &mut Store) -> Returned
    ensures store { store.new ≡ lent.entry.store }
    ensures grounds { result.grounds ≡ lent.entry.grounds }
    ensures left { AreLeft
        (aim_of lent.entry.lowered.now lent.entry.grounds.value lent.entry.store result.way
        lent.entry.workers)
        (count_taken lent.entry.grounds.value) result.way result.places.items }
{
    let _count = lent.workers.get();
    let LentLoop {
        alloc: _,
        lowered: _,
        grounds,
        store: whole,
        workers: _,
        way,
        places,
    } = lent;
    *store = whole;
    Returned {
        grounds,
        way,
        places,
    }
}

/// Lends a loop to a crew until all of its chunks have been run, with places in memory that is kept; what it was run from comes back beside
/// what its workers have left.
pub(crate) fn lent_whole<'l, R: Wait, G: Gate>(
    rt: &R,
    alloc: Global,
    crew: &LoopCrew<'l>,
    lowered: &'l LoweredLoop,
    grounds: Box<Grounds>,
    spare: &mut Spare,
    store: &mut Store,
    workers: Workers,
    sched: &Sched,
    gate: &G,
) -> Result<Returned, Refusal>
    requires split { AreSplit lowered.now grounds.value }
    requires chunks { grounds.value.chunks
        ≡ cut (kind_of sched.now) (count_taken grounds.value) workers }
    ensures left { IfOk result (λ r. AreLeft
        (aim_of lowered.now grounds.value store.old r.way workers) (count_taken grounds.value)
        r.way r.places.items) }
    ensures grounds { IfOk result (λ r. r.grounds ≡ grounds) }
    ensures store { store.new ≡ store.old }
    ensures refusal { IfErr result (λ refusal. refusal ≡ Refusal.OutOfMemory) }
{
    let nothing = Store::zeros(alloc, Vec::new(alloc))?;
    let (way, places) = way_and_places(alloc, lowered, &grounds, store, workers, sched, spare)?;
    let lent = LentLoop {
        alloc,
        lowered,
        grounds,
        store: mem::replace(store, nothing),
        workers,
        way,
        places,
    };
    Ok(take_back(lend(rt, alloc, crew, gate, lent), store))
}

/// The logs of all chunks of a loop that is lent to a crew.
pub(crate) fn lent_logs<'l, R: Wait, G: Gate>(
    rt: &R,
    alloc: Global,
    crew: &LoopCrew<'l>,
    lowered: &'l LoweredLoop,
    grounds: Grounds,
    store: &mut Store,
    workers: Workers,
    sched: &Sched,
    gate: &G,
) -> Result<Vec<ChunkLog>, Refusal>
    requires split { AreSplit lowered.now grounds }
    requires chunks { grounds.chunks ≡ cut (kind_of sched.now) (count_taken grounds) workers }
    ensures all { IfOk result (λ logs. AreAll lowered.now grounds.registers.items store.old
        grounds.pass grounds.chunks (joined logs.items)) }
    ensures store { store.new ≡ store.old }
    ensures refusal { IfErr result (λ refusal. refusal ≡ Refusal.OutOfMemory) }
{
    let grounds = Box::new(alloc, grounds)?;
    let mut spare = Spare::new(alloc);
    match lent_whole(
        rt, alloc, crew, lowered, grounds, &mut spare, store, workers, sched, gate,
    ) {
        Ok(
            Returned {
                way,
                places,
                grounds: _,
            },
        ) => logs_left(alloc, way, places),
        Err(refusal) => Err(refusal),
    }
}
