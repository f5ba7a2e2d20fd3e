//! Chunks of loops that a team runs: where they are cut, which worker enters which, and workers that are held until all are at once in
//! the loop.

ghost use Rattle.std.specs.Prelude.{◌≤◌};

use crate::lowering::{Site, left_by, lower_nest};
use ktree::{ChunkSize, Schedule};
use lower::LoweredLoop;
use schedule::Sched;
use std::alloc::Global;
use std::process::Abort;
use std::sync::Wait;
use std::sync::atomic::{AtomicU64, Ordering};
use std::thread;
use std::thread::Threads;
use store::Store;
use team::{Gate, OpenGate, Taken};

/// The size of a chunk.
fn size(rt: &impl Abort, iterations: u64) -> ChunkSize {
    ChunkSize::new(iterations).expect(rt, "a size of a chunk")
}

/// A text's last statement, one loop, with 64 elements in `A`.
fn over(lines: &str) -> Site<'_> {
    Site {
        length: 64,
        lines,
        depth: 1,
        turn: None,
    }
}

/// Whether `A` begins so.
fn begins(store: &Store, values: &[u64]) -> bool {
    match store.cells().split_at_checked(values.len()) {
        Some((first, _rest)) => first == values,
        None => false,
    }
}

/// A loop that gives each of ten elements one more than the element before it holds: those at which a chunk begins are 2.
const CHAIN: &str = "for (uint64_t i = 1; i < 11; i++) A[i] = A[i - 1] + 1;";

/// Whether the chunks of these ten iterations, run by three workers, leave this behind the first element.
fn is_cut<R: Threads + Wait + Sync>(
    rt: &R,
    alloc: Global,
    schedule: Option<Schedule>,
    values: &[u64; 11],
) -> bool {
    let site = over(CHAIN);
    let Some(lowered) = lower_nest(alloc, site, schedule) else {
        return false;
    };
    match left_by(rt, alloc, &lowered, site, 3, Sched::PlainStatic, &OpenGate) {
        Some(store) => begins(&store, values),
        None => false,
    }
}

#[test]
fn each_chunk_starts_from_the_store_before(rt: HostRuntime) {
    let heap = rt.alloc();
    let (plain, threes) = (
        [1, 2, 3, 4, 5, 2, 3, 4, 2, 3, 4],
        [1, 2, 3, 4, 2, 3, 4, 2, 3, 4, 2],
    );
    assert!(rt; is_cut(&rt, heap, None, &plain));
    assert!(rt;
        is_cut(
            &rt,
            heap,
            Some(Schedule::StaticChunks(size(&rt, 3))),
            &threes
        )
    );
    assert!(rt; is_cut(&rt, heap, Some(Schedule::Dynamic(size(&rt, 3))), &threes));
    assert!(rt;
        is_cut(
            &rt,
            heap,
            Some(Schedule::Guided(size(&rt, 1))),
            &[1, 2, 3, 4, 5, 2, 3, 2, 3, 2, 2]
        )
    );
}

/// Holds each worker until so many chunks were entered, each turn giving way, and keeps who entered with which: of the chunks and of
/// the workers the sum of two to the power of each number, and how often it was told of another number of them.
#[derive(Drop)]
struct Held {
    entered: AtomicU64,
    all: u64,
    late: AtomicU64,
    chunks: AtomicU64,
    workers: AtomicU64,
    outside: AtomicU64,
}

impl Held {
    fn until(all: u64) -> Held {
        Held {
            entered: AtomicU64::new(0),
            all,
            late: AtomicU64::new(0),
            chunks: AtomicU64::new(0),
            workers: AtomicU64::new(0),
            outside: AtomicU64::new(0),
        }
    }
}

/// What was told to workers that were held.
#[derive(Clone, Copy, PartialEq, Eq)]
struct Told {
    entered: u64,
    late: u64,
    chunks: u64,
    workers: u64,
    outside: u64,
}

/// What was told to these.
fn told_by(held: &Held) -> Told {
    Told {
        entered: held.entered.load(Ordering::SeqCst),
        late: held.late.load(Ordering::SeqCst),
        chunks: held.chunks.load(Ordering::SeqCst),
        workers: held.workers.load(Ordering::SeqCst),
        outside: held.outside.load(Ordering::SeqCst),
    }
}

impl Gate for Held {
    fn entered(&self, taken: Taken) {
        if taken.workers == self.all && taken.chunks == self.all && self.all <= 64 {
            self.chunks.fetch_add(1 << taken.chunk, Ordering::SeqCst);
            self.workers.fetch_add(1 << taken.worker, Ordering::SeqCst);
        } else {
            self.outside.fetch_add(1, Ordering::SeqCst);
        }
        self.entered.fetch_add(1, Ordering::SeqCst);
        for _ in 0..10_000_000u64 {
            if self.entered.load(Ordering::SeqCst) >= self.all {
                return;
            }
            thread::yield_now();
        }
        self.late.fetch_add(1, Ordering::SeqCst);
    }
}

/// What is told to so many workers of a loop that gives elements twice their numbers, where the element 1 gets 2.
fn told_in<R: Threads + Wait + Sync>(
    rt: &R,
    alloc: Global,
    lowered: &LoweredLoop,
    count: u64,
) -> Option<Told> {
    let gate = Held::until(count);
    let store = left_by(
        rt,
        alloc,
        lowered,
        over(""),
        count,
        Sched::PlainStatic,
        &gate,
    )?;
    if store.cell(1) == 2 {
        Some(told_by(&gate))
    } else {
        None
    }
}

/// The same of the loop at a text's end, in chunks of this size.
fn told_behind<R: Threads + Wait + Sync>(
    rt: &R,
    alloc: Global,
    lines: &str,
    count: u64,
    size: ChunkSize,
) -> Option<Told> {
    let lowered = lower_nest(alloc, over(lines), Some(Schedule::Dynamic(size)))?;
    told_in(rt, alloc, &lowered, count)
}

/// The same of a loop of so many iterations.
fn told_to<R: Threads + Wait + Sync>(
    rt: &R,
    alloc: Global,
    count: u64,
    size: ChunkSize,
) -> Option<Told> {
    match format!(in alloc; "for (uint64_t i = 0; i < {count}; i++) A[i] = 2 * i;") {
        Ok(lines) => told_behind(rt, alloc, lines.as_str(), count, size),
        Err(_error) => None,
    }
}

/// So many workers, each with one chunk, are all in the loop before one of them goes on; each worker and each chunk is there once.
fn is_held<R: Threads + Wait + Sync + Abort>(rt: &R, alloc: Global, count: u64) -> bool
    requires some { 1 ≤ count }
    requires most { count ≤ 64 }
{
    let each = u64::MAX >> (64 - count);
    let wanted = Told {
        entered: count,
        late: 0,
        chunks: each,
        workers: each,
        outside: 0,
    };
    told_to(rt, alloc, count, size(rt, 1)) == Some(wanted)
}

#[test]
fn workers_are_at_once_in_the_loop(rt: HostRuntime) {
    assert!(rt; is_held(&rt, rt.alloc(), 2));
    assert!(rt; is_held(&rt, rt.alloc(), 3));
    assert!(rt; is_held(&rt, rt.alloc(), 64));
}

/// Keeps which chunks were entered, as the sum of two to the power of each number, how many there are, as that of the number of each
/// loop's, and how many were entered by another worker than the one that is dealt every so manieth of them.
#[derive(Drop)]
struct Entries {
    chunks: AtomicU64,
    entered: AtomicU64,
    others: AtomicU64,
}

impl Gate for Entries {
    fn entered(&self, taken: Taken) {
        self.entered.fetch_add(1, Ordering::SeqCst);
        if taken.chunk < 64 {
            self.chunks.fetch_add(1 << taken.chunk, Ordering::SeqCst);
        }
        if taken.chunk % taken.workers != taken.worker {
            self.others.fetch_add(1, Ordering::SeqCst);
        }
    }
}

/// A loop that gives each of ten elements its number.
const NUMBERS: &str = "for (uint64_t i = 0; i < 10; i++) A[i] = i;";

/// A loop without an iteration.
const NEVER: &str = "for (uint64_t i = 3; i < 3; i++) A[i] = 7;";

/// Which chunks the workers of a loop entered, how many these are, and how many by another worker than every so manieth.
type Entered = (u64, u64, u64);

/// This of a loop, by so many workers.
fn entries_in<R: Threads + Wait + Sync>(
    rt: &R,
    alloc: Global,
    lowered: &LoweredLoop,
    site: Site,
    count: u64,
) -> Option<Entered> {
    let gate = Entries {
        chunks: AtomicU64::new(0),
        entered: AtomicU64::new(0),
        others: AtomicU64::new(0),
    };
    if left_by(rt, alloc, lowered, site, count, Sched::PlainStatic, &gate).is_none() {
        return None;
    }
    Some((
        gate.chunks.load(Ordering::SeqCst),
        gate.entered.load(Ordering::SeqCst),
        gate.others.load(Ordering::SeqCst),
    ))
}

/// The same of the loop at a text's end, behind such a clause.
fn entries_of<R: Threads + Wait + Sync>(
    rt: &R,
    alloc: Global,
    lines: &str,
    schedule: Option<Schedule>,
    count: u64,
) -> Option<Entered> {
    let site = over(lines);
    let lowered = lower_nest(alloc, site, schedule)?;
    entries_in(rt, alloc, &lowered, site, count)
}

#[test]
fn workers_enter_their_own_chunks(rt: HostRuntime) {
    let heap = rt.alloc();
    let threes = Some(Schedule::StaticChunks(size(&rt, 3)));
    assert!(rt; entries_of(&rt, heap, NUMBERS, threes, 2) == Some((15, 4, 0)));
    assert!(rt; entries_of(&rt, heap, NUMBERS, None, 64) == Some((1023, 10, 0)));
    assert!(rt; entries_of(&rt, heap, NUMBERS, Some(Schedule::Static), 3) == Some((7, 3, 0)));
    // The worker of the only chunk enters it as others do.
    assert!(rt; entries_of(&rt, heap, NUMBERS, None, 1) == Some((1, 1, 0)));
}

/// Which chunks are entered, and how many these are.
fn draws<R: Threads + Wait + Sync>(
    rt: &R,
    alloc: Global,
    schedule: Schedule,
    count: u64,
) -> Option<(u64, u64)> {
    let (chunks, number, _others) = entries_of(rt, alloc, NUMBERS, Some(schedule), count)?;
    Some((chunks, number))
}

#[test]
fn each_drawn_chunk_is_entered_once(rt: HostRuntime) {
    let heap = rt.alloc();
    assert!(rt; draws(&rt, heap, Schedule::Dynamic(size(&rt, 3)), 2) == Some((15, 4)));
    assert!(rt; draws(&rt, heap, Schedule::Dynamic(size(&rt, 1)), 64) == Some((1023, 10)));
    assert!(rt; draws(&rt, heap, Schedule::Guided(size(&rt, 1)), 3) == Some((31, 5)));
    assert!(rt; draws(&rt, heap, Schedule::Guided(size(&rt, 3)), 3) == Some((7, 3)));
    assert!(rt; draws(&rt, heap, Schedule::Dynamic(size(&rt, 16)), 3) == Some((1, 1)));
}

#[test]
fn no_gate_is_entered_without_iterations(rt: HostRuntime) {
    let heap = rt.alloc();
    assert!(rt; entries_of(&rt, heap, NEVER, None, 64) == Some((0, 0, 0)));
    assert!(rt;
        entries_of(&rt, heap, NEVER, Some(Schedule::Dynamic(size(&rt, 1))), 64) == Some((0, 0, 0))
    );
}
