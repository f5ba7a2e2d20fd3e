//! A kernel that is checked and run, and what is said of refusals.

ghost use Rattle.std.specs.Prelude.{◌≡◌, ◌+◌, ◌<◌, ◌≤◌, ◌^◌};

use ktree::{Cause, Conflict, InputFault, NotShown, Place, Refusal, Workers};
use ompk::{Sched, check, run, seq, status, tell};
use seqrun_io::{Memory, Sink, SinkFault};
use std::alloc::{AllocError, Global};
use std::sync::Wait;
use std::sync::atomic::{AtomicU64, Ordering};
use std::thread;
use std::thread::Threads;
use team::{Gate, OpenGate, Taken};

const INCREMENT: &[u8] =
    b"#include <stdint.h>\nuint64_t A[8];\nvoid kernel(void)\n{\n#pragma omp parallel for schedule(dynamic, 3)\nfor (uint64_t i = 0; i < 8; i++) { A[i] = A[i] + i; }\n}\n";

const TWO_LINES: &[u8] =
    b"uint64_t A[8];\nvoid kernel(void)\n{\n#pragma omp parallel for schedule(dynamic, 3)\nfor (uint64_t i = 0; i < 8; i++) { A[i] = A[i] + i; }\n#pragma omp parallel for schedule(dynamic, 4)\nfor (uint64_t i = 0; i < 8; i++) { A[i] = A[i] + 0ull; }\n}\n";

/// The increment of six of the eight.
const SIX: &[u8] =
    b"#include <stdint.h>\nuint64_t A[8];\nvoid kernel(void)\n{\n#pragma omp parallel for schedule(dynamic, 3)\nfor (uint64_t i = 0; i < 6; i++) { A[i] = A[i] + i; }\n}\n";

/// Three waves of two iterations, cut and drawn.
const NEST: &[u8] =
    b"uint64_t A[8];\nvoid kernel(void)\n{\n#pragma omp parallel for ordered(1)\nfor (uint64_t i = 2; i < 8; i++) {\n#pragma omp ordered doacross(sink: i-2)\nA[i] = A[i-2] + 1;\n#pragma omp ordered doacross(source:)\n}\n}\n";

const DRAWN_NEST: &[u8] =
    b"uint64_t A[8];\nvoid kernel(void)\n{\n#pragma omp parallel for ordered(1) schedule(dynamic)\nfor (uint64_t i = 2; i < 8; i++) {\n#pragma omp ordered doacross(sink: i-2)\nA[i] = A[i-2] + 1;\n#pragma omp ordered doacross(source:)\n}\n}\n";

/// The same with 64 iterations.
const LIGHT_NEST: &[u8] =
    b"uint64_t A[66];\nvoid kernel(void)\n{\n#pragma omp parallel for ordered(1)\nfor (uint64_t i = 2; i < 66; i++) {\n#pragma omp ordered doacross(sink: i-2)\nA[i] = A[i-2] + 1;\n#pragma omp ordered doacross(source:)\n}\n}\n";

/// With a loop in each of them.
const HEAVY_NEST: &[u8] =
    b"uint64_t A[66];\nvoid kernel(void)\n{\n#pragma omp parallel for ordered(1)\nfor (uint64_t i = 2; i < 66; i++) {\n#pragma omp ordered doacross(sink: i-2)\nA[i] = A[i-2];\nfor (uint64_t k = 0; k < i; k++) { A[i] += 1; }\n#pragma omp ordered doacross(source:)\n}\n}\n";

/// Where each of them waits for the one before.
const HEAVY_CHAIN: &[u8] =
    b"uint64_t A[65];\nvoid kernel(void)\n{\n#pragma omp parallel for ordered(1)\nfor (uint64_t i = 1; i < 65; i++) {\n#pragma omp ordered doacross(sink: i-1)\nA[i] = A[i-1];\nfor (uint64_t k = 0; k < i; k++) { A[i] += 1; }\n#pragma omp ordered doacross(source:)\n}\n}\n";

/// A scan of each kind.
const INCLUSIVE: &[u8] =
    b"uint64_t A[5];\nuint64_t B[5];\nuint64_t s;\nvoid kernel(void)\n{\n#pragma omp parallel for reduction(inscan, +: s)\nfor (uint64_t i = 0; i < 5; i++) {\ns += A[i];\n#pragma omp scan inclusive(s)\nB[i] = s;\n}\n}\n";

const EXCLUSIVE: &[u8] =
    b"uint64_t A[5];\nuint64_t B[5];\nuint64_t s;\nvoid kernel(void)\n{\n#pragma omp parallel for reduction(inscan, +: s)\nfor (uint64_t i = 0; i < 5; i++) {\nB[i] = s;\n#pragma omp scan exclusive(s)\ns += A[i];\n}\n}\n";

const SERIAL: &[u8] =
    b"uint64_t A[8];\nvoid kernel(void)\n{\nfor (uint64_t i = 0; i < 8; i++) { A[i] = A[i] + i; }\n}\n";

const PRINTING: &[u8] = b"void kernel(void)\n{\nprintf(\"a\");\n}\n";

const ONES: &[u8] = b"A 1 1 1 1 1 1 1 1\n";

/// What each writes for that.
const OUTPUT: &[u8] = b"A = 1 2 3 4 5 6 7 8\n";

// A sink that takes nothing.
#[derive(Drop)]
struct Closed {
    failures: u64,
}

impl Sink for Closed {
    ghost use Rattle.std.specs.Prelude.{[]};

    ghost told = { λ c. [] };

    ghost failed = { λ c. c.failures };

    fn put(&mut self, _bytes: &[u8]) -> Result<usize, SinkFault> {
        self.failures += 1;
        Err(SinkFault)
    }

    fn failures(&self) -> u64 {
        self.failures
    }
}

// A sink that takes one byte a call, and fails at a call.
#[derive(Drop)]
struct OneByte {
    bytes: Vec<u8>,
    calls: u64,
    failing: u64,
    failures: u64,
}

impl OneByte {
    fn new(alloc: Global, failing: u64) -> OneByte
        ensures { result.failures ≡ 0 }
    {
        OneByte {
            bytes: Vec::new(alloc),
            calls: 0,
            failing,
            failures: 0,
        }
    }
}

impl Sink for OneByte {
    ghost told = { λ s. s.bytes.items };

    ghost failed = { λ s. s.failures };

    fn put(&mut self, bytes: &[u8]) -> Result<usize, SinkFault> {
        self.calls = self.calls.wrapping_add(1);
        let count = bytes.len().min(1);
        if self.calls == self.failing || self.bytes.extend_from_slice(&bytes[..count]).is_err() {
            self.failures += 1;
            return Err(SinkFault);
        }
        Ok(count)
    }

    fn failures(&self) -> u64 {
        self.failures
    }
}

// Holds each worker until two chunks were entered, each turn giving way, and keeps which were: the sum of two to the power of each
// chunk's number, and how many numbers are above those of three chunks and two workers.
#[derive(Drop)]
struct Both {
    entered: AtomicU64,
    late: AtomicU64,
    chunks: AtomicU64,
    outside: AtomicU64,
}

impl Both {
    fn new() -> Both {
        Both {
            entered: AtomicU64::new(0),
            late: AtomicU64::new(0),
            chunks: AtomicU64::new(0),
            outside: AtomicU64::new(0),
        }
    }
}

/// What a gate has seen.
#[derive(Clone, Copy, PartialEq, Eq)]
struct Seen {
    entered: u64,
    late: u64,
    chunks: u64,
    outside: u64,
}

/// What this one has.
fn seen_by(gate: &Both) -> Seen {
    Seen {
        entered: gate.entered.load(Ordering::SeqCst),
        late: gate.late.load(Ordering::SeqCst),
        chunks: gate.chunks.load(Ordering::SeqCst),
        outside: gate.outside.load(Ordering::SeqCst),
    }
}

/// Keeps that a chunk was entered, and tells how many were before it.
fn note(gate: &Both, taken: Taken) -> u64 {
    if taken.worker < 2 && taken.chunk < 3 {
        gate.chunks.fetch_add(1 << taken.chunk, Ordering::SeqCst);
    } else {
        gate.outside.fetch_add(1, Ordering::SeqCst);
    }
    gate.entered.fetch_add(1, Ordering::SeqCst)
}

/// Waits until more chunks than these were entered, each turn giving way, and keeps where they were not.
fn hold(gate: &Both, count: u64) {
    for _ in 0..10_000_000u64 {
        if gate.entered.load(Ordering::SeqCst) > count {
            return;
        }
        thread::yield_now();
    }
    gate.late.fetch_add(1, Ordering::SeqCst);
}

impl Gate for Both {
    fn entered(&self, taken: Taken) {
        let _before = note(self, taken);
        hold(self, 1);
    }
}

// The same of chunks that come by twos, as where each wave of a nest or each pass of a scan has two: holds each worker until both were
// entered.
#[derive(Drop)]
struct Twos {
    seen: Both,
}

impl Gate for Twos {
    fn entered(&self, taken: Taken) {
        let before = note(&self.seen, taken);
        hold(&self.seen, before | 1);
    }
}

// Whether this is the line of a refusal.
pub(crate) fn says(alloc: Global, refusal: &Refusal, line: &[u8]) -> bool {
    let mut sink = Memory::new(alloc);
    tell(refusal, &mut sink).is_ok() && sink.bytes() == line
}

// Two accesses of `A`.
fn accesses(alloc: Global) -> Result<NotShown, AllocError> {
    Ok(NotShown {
        array: String::from_str(alloc, "A")?,
        first: Place { line: 3, column: 5 },
        second: Place {
            line: 3,
            column: 12,
        },
    })
}

/// Whether this is the line of a refusal.
fn is_line(alloc: Global, refusal: Refusal, line: &[u8]) -> bool {
    says(alloc, &refusal, line)
}

/// A conflict of two accesses of `A`.
fn conflict(alloc: Global) -> Result<Refusal, AllocError> {
    let indexes = Vec::from_slice(alloc, &[1, 20])?;
    let accesses = accesses(alloc)?;
    Ok(Refusal::Conflict(Conflict {
        accesses,
        earlier: 0,
        later: 1,
        indexes,
    }))
}

/// Whether this is the line of that conflict.
fn is_line_of_conflict(alloc: Global, line: &[u8]) -> bool {
    match conflict(alloc) {
        Ok(refusal) => is_line(alloc, refusal, line),
        Err(_error) => false,
    }
}

/// Whether this is the line of two accesses of `A` that are not shown to be apart.
fn is_line_of_accesses(alloc: Global, line: &[u8]) -> bool {
    match accesses(alloc) {
        Ok(accesses) => is_line(alloc, Refusal::NotShown(accesses), line),
        Err(_error) => false,
    }
}

#[test]
fn refusals_have_their_lines(rt: HostRuntime) {
    let heap = rt.alloc();
    let place = Place {
        line: 12,
        column: 3,
    };
    let subscript = Refusal::SubscriptOutOfRange(place);
    let line = b"K09 12:3 subscript out of range\n";
    assert!(rt; is_line(heap, subscript, line));
    assert!(rt; is_line(heap, Refusal::Syntax(place), b"K01 12:3 syntax\n"));
    assert!(rt; is_line(heap, Refusal::Limit(place), b"K21 12:3 limit\n"));
    let line = b"K19 3:5 conflict: A at 3:5 and 3:12, iterations 0 and 1, element A[1][20]\n";
    assert!(rt; is_line_of_conflict(heap, line));
    let line = b"K20 3:5 not shown: A at 3:5 and 3:12\n";
    assert!(rt; is_line_of_accesses(heap, line));
    let fault = Refusal::Input(InputFault {
        line: 2,
        cause: Cause::Count,
    });
    assert!(rt; is_line(heap, fault, b"K22 line 2: count\n"));
    assert!(rt; is_line(heap, Refusal::OutOfMemory, b"K23 out of memory\n"));
    assert!(rt; is_line(heap, Refusal::OutputFailed, b"K24 output failed\n"));
}

/// The status of a program that meets this refusal.
fn status_of(refusal: Refusal) -> u8 {
    status(&refusal)
}

#[test]
fn refusals_have_their_statuses(rt: HostRuntime) {
    let place = Place { line: 1, column: 1 };
    let fault = InputFault {
        line: 1,
        cause: Cause::Form,
    };
    assert!(rt; status_of(Refusal::Syntax(place)) == 3);
    assert!(rt; status_of(Refusal::Limit(place)) == 3);
    assert!(rt; status_of(Refusal::Input(fault)) == 1);
    assert!(rt; status_of(Refusal::OutputFailed) == 1);
    assert!(rt; status_of(Refusal::OutOfMemory) == 4);
}

/// How a run ends.
#[derive(Clone, Copy, PartialEq, Eq)]
enum End {
    Done,
    OutputFailed,
    Input(InputFault),
    Other,
}

/// How a run ended that is refused so.
fn end_by(refusal: &Refusal) -> End {
    match refusal {
        Refusal::OutputFailed => End::OutputFailed,
        Refusal::Input(fault) => End::Input(*fault),
        _ => End::Other,
    }
}

/// How a run ended that answers this.
fn end_of(answer: Result<(), Refusal>) -> End {
    match answer {
        Ok(()) => End::Done,
        Err(refusal) => end_by(&refusal),
    }
}

/// A kernel's text, its input, and how many workers run it.
#[derive(Clone, Copy)]
struct Task {
    text: &'static [u8],
    input: &'static [u8],
    workers: u64,
}

/// How a task ends.
fn end_of_task<R: Threads + Wait + Sync, G: Gate + Sync, S: Sink>(
    rt: &R,
    alloc: Global,
    task: Task,
    gate: &G,
    sink: &mut S,
) -> End
    requires { S.failed sink.old + 1 < 2 ^ 64 }
{
    let Some(workers) = Workers::new(task.workers) else {
        return End::Other;
    };
    match check(alloc, task.text) {
        Ok(checked) => {
            let sched = Sched::PlainStatic;
            end_of(run(rt, alloc, &checked, task.input, workers, sched, gate, sink))
        }
        Err(_refusal) => End::Other,
    }
}

/// Whether a task ends so, having written these bytes.
fn ends<R: Threads + Wait + Sync, G: Gate + Sync>(
    rt: &R,
    alloc: Global,
    task: Task,
    gate: &G,
    wanted: End,
    output: &[u8],
) -> bool {
    let mut sink = Memory::new(alloc);
    end_of_task(rt, alloc, task, gate, &mut sink) == wanted && sink.bytes() == output
}

/// Whether so many workers increment an array of ones.
fn increments<R: Threads + Wait + Sync>(rt: &R, alloc: Global, workers: u64) -> bool {
    let task = Task {
        text: INCREMENT,
        input: ONES,
        workers,
    };
    ends(rt, alloc, task, &OpenGate, End::Done, OUTPUT)
}

#[test]
fn the_increment_runs(rt: HostRuntime) {
    let heap = rt.alloc();
    assert!(rt; increments(&rt, heap, 1));
    assert!(rt; increments(&rt, heap, 3));
    assert!(rt; increments(&rt, heap, 64));
}

#[test]
fn a_faulty_input_writes_nothing(rt: HostRuntime) {
    let task = Task {
        text: INCREMENT,
        input: b"A 1 2\n",
        workers: 2,
    };
    let fault = End::Input(InputFault {
        line: 1,
        cause: Cause::Count,
    });
    assert!(rt; ends(&rt, rt.alloc(), task, &OpenGate, fault, b""));
}

/// Whether a run of the kernel by two workers ends so, over a sink that takes nothing.
fn is_told_by_a_team<R: Threads + Wait + Sync>(rt: &R, alloc: Global, text: &'static [u8]) -> bool {
    let task = Task {
        text,
        input: b"",
        workers: 2,
    };
    let mut sink = Closed { failures: 0 };
    end_of_task(rt, alloc, task, &OpenGate, &mut sink) == End::OutputFailed && sink.failures == 1
}

#[test]
fn a_closed_sink_is_told(rt: HostRuntime) {
    assert!(rt; is_told_by_a_team(&rt, rt.alloc(), INCREMENT));
    assert!(rt; is_told_by_a_team(&rt, rt.alloc(), PRINTING));
}

/// Whether the increment ends so, having told these bytes and counted so many failures, over a sink that fails at a call.
fn is_told_slowly<R: Threads + Wait + Sync>(
    rt: &R,
    alloc: Global,
    failing: u64,
    wanted: End,
    failures: u64,
    told: &[u8],
) -> bool {
    let task = Task {
        text: INCREMENT,
        input: ONES,
        workers: 2,
    };
    let mut sink = OneByte::new(alloc, failing);
    end_of_task(rt, alloc, task, &OpenGate, &mut sink) == wanted
        && sink.failures == failures
        && sink.bytes.as_slice() == told
}

#[test]
fn a_slow_sink_is_told_all_before_it_fails(rt: HostRuntime) {
    // The output has 20 bytes.
    let (heap, failed) = (rt.alloc(), End::OutputFailed);
    let (seven, nineteen) = (b"A = 1 2", b"A = 1 2 3 4 5 6 7 8");
    assert!(rt; is_told_slowly(&rt, heap, 21, End::Done, 0, OUTPUT));
    assert!(rt; is_told_slowly(&rt, heap, 8, failed, 1, seven));
    assert!(rt; is_told_slowly(&rt, heap, 20, failed, 1, nineteen));
}

/// What a gate sees of the kernel of a text that two workers run, where that writes this.
fn seen_by_two<R: Threads + Wait + Sync>(
    rt: &R,
    alloc: Global,
    text: &'static [u8],
    output: &[u8],
) -> Option<Seen> {
    let task = Task {
        text,
        input: ONES,
        workers: 2,
    };
    let gate = Both::new();
    if ends(rt, alloc, task, &gate, End::Done, output) {
        Some(seen_by(&gate))
    } else {
        None
    }
}

#[test]
fn two_workers_are_in_the_loop_at_once(rt: HostRuntime) {
    let all = Seen {
        entered: 3,
        late: 0,
        chunks: 7,
        outside: 0,
    };
    assert!(rt; seen_by_two(&rt, rt.alloc(), INCREMENT, OUTPUT) == Some(all));
}

#[test]
fn two_workers_have_a_chunk_each(rt: HostRuntime) {
    let all = Seen {
        entered: 2,
        late: 0,
        chunks: 3,
        outside: 0,
    };
    let output = b"A = 1 2 3 4 5 6 1 1\n";
    assert!(rt; seen_by_two(&rt, rt.alloc(), SIX, output) == Some(all));
}

/// What a gate sees of the kernel of a text whose chunks come by twos, where two workers write this from an input.
fn seen_by_twos<R: Threads + Wait + Sync>(
    rt: &R,
    alloc: Global,
    text: &'static [u8],
    input: &'static [u8],
    output: &[u8],
) -> Option<Seen> {
    let task = Task {
        text,
        input,
        workers: 2,
    };
    let gate = Twos { seen: Both::new() };
    if ends(rt, alloc, task, &gate, End::Done, output) {
        Some(seen_by(&gate.seen))
    } else {
        None
    }
}

#[test]
fn two_workers_are_in_each_wave_at_once(rt: HostRuntime) {
    let all = Seen {
        entered: 6,
        late: 0,
        chunks: 9,
        outside: 0,
    };
    let (heap, output) = (rt.alloc(), b"A = 0 0 1 1 2 2 3 3\n");
    assert!(rt; seen_by_twos(&rt, heap, NEST, b"", output) == Some(all));
    assert!(rt; seen_by_twos(&rt, heap, DRAWN_NEST, b"", output) == Some(all));
}

/// Counts how often it is told of a chunk.
#[derive(Drop)]
struct Counting {
    told: AtomicU64,
}

impl Gate for Counting {
    fn entered(&self, _taken: Taken) {
        self.told.fetch_add(1, Ordering::SeqCst);
    }
}

/// How many chunks the kernel of a text is run in, where two workers write this.
fn chunks_by_two<R: Threads + Wait + Sync>(
    rt: &R,
    alloc: Global,
    text: &'static [u8],
    output: &[u8],
) -> Option<u64> {
    let task = Task {
        text,
        input: b"",
        workers: 2,
    };
    let gate = Counting {
        told: AtomicU64::new(0),
    };
    if ends(rt, alloc, task, &gate, End::Done, output) {
        Some(gate.told.load(Ordering::SeqCst))
    } else {
        None
    }
}

#[test]
fn a_nest_that_a_team_would_not_run_sooner_is_run_by_one_thread(rt: HostRuntime) {
    let heap = rt.alloc();
    let output =
        b"A = 0 0 1 1 2 2 3 3 4 4 5 5 6 6 7 7 8 8 9 9 10 10 11 11 12 12 13 13 14 14 15 15 16 16 17 17 18 18 19 19 20 20 21 21 22 22 23 23 24 24 25 25 26 26 27 27 28 28 29 29 30 30 31 31 32 32\n";
    assert!(rt; chunks_by_two(&rt, heap, LIGHT_NEST, output) == Some(1));
    let output =
        b"A = 0 1 3 6 10 15 21 28 36 45 55 66 78 91 105 120 136 153 171 190 210 231 253 276 300 325 351 378 406 435 465 496 528 561 595 630 666 703 741 780 820 861 903 946 990 1035 1081 1128 1176 1225 1275 1326 1378 1431 1485 1540 1596 1653 1711 1770 1830 1891 1953 2016 2080\n";
    assert!(rt; chunks_by_two(&rt, heap, HEAVY_CHAIN, output) == Some(1));
    let output =
        b"A = 0 0 2 3 6 8 12 15 20 24 30 35 42 48 56 63 72 80 90 99 110 120 132 143 156 168 182 195 210 224 240 255 272 288 306 323 342 360 380 399 420 440 462 483 506 528 552 575 600 624 650 675 702 728 756 783 812 840 870 899 930 960 992 1023 1056 1088\n";
    assert!(rt; chunks_by_two(&rt, heap, HEAVY_NEST, output) == Some(64));
}

#[test]
fn two_workers_are_in_each_pass_at_once(rt: HostRuntime) {
    let all = Seen {
        entered: 4,
        late: 0,
        chunks: 6,
        outside: 0,
    };
    let (heap, input) = (rt.alloc(), b"A 1 2 3 4 5\ns 10\n");
    let output = b"A = 1 2 3 4 5\nB = 11 13 16 20 25\ns = 25\n";
    assert!(rt; seen_by_twos(&rt, heap, INCLUSIVE, input, output) == Some(all));
    let output = b"A = 1 2 3 4 5\nB = 10 11 13 16 20\ns = 25\n";
    assert!(rt; seen_by_twos(&rt, heap, EXCLUSIVE, input, output) == Some(all));
}

#[test]
fn each_loop_has_the_chunks_of_its_own_line(rt: HostRuntime) {
    // Three chunks and then two.
    let all = Seen {
        entered: 5,
        late: 0,
        chunks: 10,
        outside: 0,
    };
    assert!(rt; seen_by_two(&rt, rt.alloc(), TWO_LINES, OUTPUT) == Some(all));
}

#[test]
fn a_loop_behind_no_line_is_run_by_no_team(rt: HostRuntime) {
    let nothing = Seen {
        entered: 0,
        late: 0,
        chunks: 0,
        outside: 0,
    };
    assert!(rt; seen_by_two(&rt, rt.alloc(), SERIAL, OUTPUT) == Some(nothing));
}

/// How the kernel of a text ends that one thread runs on an input.
fn seq_kernel<S: Sink>(alloc: Global, text: &[u8], input: &[u8], sink: &mut S) -> End
    requires { S.failed sink.old + 1 < 2 ^ 64 }
{
    match check(alloc, text) {
        Ok(checked) => end_of(seq(alloc, &checked, input, sink)),
        Err(_refusal) => End::Other,
    }
}

/// Whether a run of the kernel by one thread ends so, over a sink that takes nothing.
fn is_told_by_one_thread(alloc: Global, text: &[u8], input: &[u8]) -> bool {
    let mut sink = Closed { failures: 0 };
    seq_kernel(alloc, text, input, &mut sink) == End::OutputFailed && sink.failures == 1
}

#[test]
fn a_closed_sink_is_told_by_one_thread_too(rt: HostRuntime) {
    assert!(rt; is_told_by_one_thread(rt.alloc(), SERIAL, ONES));
    assert!(rt; is_told_by_one_thread(rt.alloc(), PRINTING, b""));
}

/// The name of an array, and so many zeros behind it.
fn zeros(alloc: Global, count: u64) -> Result<Vec<u8>, AllocError> {
    let mut line = Vec::from_slice(alloc, b"A")?;
    for _ in 0..count {
        line.extend_from_slice(b" 0")?;
    }
    line.push(b'\n')?;
    Ok(line)
}

/// How many bytes a kernel writes that one thread runs on an input, none where it does not end well.
fn length_of_output(alloc: Global, text: &[u8], input: &[u8]) -> usize {
    let mut sink = Memory::new(alloc);
    match seq_kernel(alloc, text, input, &mut sink) {
        End::Done => sink.bytes().len(),
        _ => 0,
    }
}

/// How many bytes a kernel writes behind an input of so many zeros, none where it does not end well.
fn length_behind_zeros(alloc: Global, text: &[u8], count: u64) -> usize {
    match zeros(alloc, count) {
        Ok(input) => length_of_output(alloc, text, input.as_slice()),
        Err(_error) => 0,
    }
}

#[test]
fn a_long_input_is_taken(rt: HostRuntime) {
    let text = b"uint64_t A[1048576];\nvoid kernel(void) {\n}\n";
    assert!(rt; length_behind_zeros(rt.alloc(), text, 1048576) == 2097156);
}
