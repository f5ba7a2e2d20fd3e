//! Loops whose chunks print, run by teams: the text stands in the order of the iterations, whoever ran which (OpenMP 5.2, 15.10).

ghost use Rattle.std.specs.Prelude.{◌≡◌, ◌≤◌};

use crate::lowering::{Site, lower_nest, variables};
use ktree::{ChunkSize, Refusal, Schedule, Workers};
use lower::LoweredLoop;
use schedule::Sched;
use seqrun_io::{Memory, Sink, SinkFault};
use std::alloc::Global;
use std::process::Abort;
use std::sync::Wait;
use std::thread::Threads;
use store::Store;
use team::{OpenGate, run_loop};

/// Prints the number of each iteration, and the cell before the loop beside what it then holds.
const NUMBERS: &str =
    "for (uint64_t i = 0; i < 12; i++) { printf(\"%\" PRIu64 \" \", A[i]); A[i] = i; printf(\"%\" PRIu64 \"\\n\", A[i]); }";

/// What that prints.
const ALL: &[u8] = b"1 0\n1 1\n1 2\n1 3\n1 4\n1 5\n1 6\n1 7\n1 8\n1 9\n1 10\n1 11\n";

/// Prints of some iterations alone.
const SOME: &str =
    "for (uint64_t i = 0; i < 12; i++) if (i == 2 || i > 9) printf(\"%\" PRIu64 \".\", i);";

/// A sink that takes so many bytes, three at most a call, and then fails.
#[derive(Drop)]
struct Narrow {
    bytes: Vec<u8>,
    room: usize,
    failures: u64,
}

impl Narrow {
    fn new(alloc: Global, room: usize) -> Narrow
        ensures { result.failures ≡ 0 }
    {
        Narrow {
            bytes: Vec::new(alloc),
            room,
            failures: 0,
        }
    }
}

impl Sink for Narrow {
    ghost told = { λ s. s.bytes.items };

    ghost failed = { λ s. s.failures };

    fn put(&mut self, bytes: &[u8]) -> Result<usize, SinkFault> {
        let count = bytes.len().min(3);
        if self.bytes.len() >= self.room || self.bytes.extend_from_slice(&bytes[..count]).is_err() {
            self.failures += 1;
            return Err(SinkFault);
        }
        Ok(count)
    }

    fn failures(&self) -> u64 {
        self.failures
    }
}

/// The size of a chunk.
fn size(rt: &impl Abort, iterations: u64) -> ChunkSize {
    ChunkSize::new(iterations).expect(rt, "a size of a chunk")
}

/// Chunks of one iteration, which workers draw.
fn ones(rt: &impl Abort) -> Option<Schedule> {
    Some(Schedule::Dynamic(size(rt, 1)))
}

/// The loop of these lines behind such a clause.
fn loop_of(alloc: Global, lines: &str, schedule: Option<Schedule>) -> Option<LoweredLoop> {
    let site = Site {
        length: 64,
        lines,
        depth: 1,
        turn: None,
    };
    lower_nest(alloc, site, schedule)
}

/// How a loop ends on a store, and what it puts into a sink.
fn put_by<R: Threads + Wait + Sync, S: Sink>(
    rt: &R,
    alloc: Global,
    lowered: &LoweredLoop,
    store: &mut Store,
    workers: Workers,
    sink: &mut S,
) -> Result<(), Refusal>
    requires { S.failed sink.old ≡ 0 }
{
    let mut registers = Vec::from_elem(alloc, 0u64, 8)?;
    let registers = registers.as_mut_slice();
    let sched = Sched::PlainStatic;
    run_loop(
        rt, alloc, lowered, registers, store, workers, sched, &OpenGate, sink,
    )
}

/// Whether a loop prints this on a store.
fn prints_over<R: Threads + Wait + Sync>(
    rt: &R,
    alloc: Global,
    lowered: &LoweredLoop,
    store: &mut Store,
    count: u64,
    text: &[u8],
) -> bool {
    let Some(workers) = Workers::new(count) else {
        return false;
    };
    let mut sink = Memory::new(alloc);
    put_by(rt, alloc, lowered, store, workers, &mut sink).is_ok() && sink.bytes() == text
}

/// Whether the loop of these lines, behind such a clause, prints this by so many workers.
fn prints<R: Threads + Wait + Sync>(
    rt: &R,
    alloc: Global,
    lines: &str,
    schedule: Option<Schedule>,
    count: u64,
    text: &[u8],
) -> bool {
    let Some(lowered) = loop_of(alloc, lines, schedule) else {
        return false;
    };
    match variables(alloc, 64) {
        Ok(mut store) => prints_over(rt, alloc, &lowered, &mut store, count, text),
        Err(_error) => false,
    }
}

#[test]
fn text_stands_in_the_order_of_iterations(rt: HostRuntime) {
    let heap = rt.alloc();
    assert!(rt; prints(&rt, heap, NUMBERS, ones(&rt), 1, ALL));
    assert!(rt; prints(&rt, heap, NUMBERS, ones(&rt), 3, ALL));
    assert!(rt; prints(&rt, heap, NUMBERS, ones(&rt), 64, ALL));
    let fives = Some(Schedule::StaticChunks(size(&rt, 5)));
    assert!(rt; prints(&rt, heap, NUMBERS, fives, 2, ALL));
    assert!(rt; prints(&rt, heap, NUMBERS, None, 5, ALL));
    assert!(rt; prints(&rt, heap, SOME, ones(&rt), 3, b"2.10.11."));
}

/// Whether a loop over this store is refused with this text as what was put, and leaves the store as it was.
fn fails_over<R: Threads + Wait + Sync>(
    rt: &R,
    alloc: Global,
    lowered: &LoweredLoop,
    store: &mut Store,
    room: usize,
    text: &[u8],
) -> bool {
    let Some(workers) = Workers::new(3) else {
        return false;
    };
    let mut sink = Narrow::new(alloc, room);
    let end = put_by(rt, alloc, lowered, store, workers, &mut sink);
    let kept = store.cells().first() == Some(&1) && store.cells().get(11) == Some(&1);
    matches!(end, Err(Refusal::OutputFailed)) && kept && sink.bytes.as_slice() == text
}

/// The same of the loop that prints numbers.
fn fails<R: Threads + Wait + Sync>(
    rt: &R,
    alloc: Global,
    schedule: Option<Schedule>,
    room: usize,
    text: &[u8],
) -> bool {
    let Some(lowered) = loop_of(alloc, NUMBERS, schedule) else {
        return false;
    };
    match variables(alloc, 64) {
        Ok(mut store) => fails_over(rt, alloc, &lowered, &mut store, room, text),
        Err(_error) => false,
    }
}

#[test]
fn a_sink_that_fails_leaves_the_store(rt: HostRuntime) {
    let heap = rt.alloc();
    assert!(rt; fails(&rt, heap, ones(&rt), 0, b""));
    assert!(rt; fails(&rt, heap, ones(&rt), 9, b"1 0\n1 1\n1 2"));
    assert!(rt; fails(&rt, heap, None, 9, b"1 0\n1 1\n1"));
}
