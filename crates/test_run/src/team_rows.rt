//! Loops that a team runs: what they leave under every schedule, by one worker, three and 64; the values are C's, or counted by hand.

use crate::lowering::{Site, left_by, lower_nest};
use ktree::{ChunkSize, Schedule};
use lower::LoweredLoop;
use schedule::Sched;
use std::alloc::Global;
use std::sync::Wait;
use std::thread::Threads;
use team::OpenGate;

/// How many loops a nest has, and at which turn the loop round it is, if there is one; its lines, and what it leaves in `A`, `B` and `s`.
type Row<'t> = ((u64, Option<u64>), &'t str, [u64; 15]);

/// One loop with none round it.
const ONE: (u64, Option<u64>) = (1, None);

/// The schedules of a clause, by numbers from 0; from 6 on it is `runtime`.
fn clause(number: u64, size: ChunkSize) -> Option<Schedule> {
    match number {
        0 => None,
        1 => Some(Schedule::Static),
        2 => Some(Schedule::StaticChunks(size)),
        3 => Some(Schedule::Dynamic(size)),
        4 => Some(Schedule::Guided(size)),
        5 => Some(Schedule::Auto),
        _ => Some(Schedule::Runtime),
    }
}

/// What stands for `runtime` there.
fn runtime(number: u64, size: ChunkSize) -> Sched {
    match number {
        7 => Sched::Static(size),
        8 => Sched::Dynamic(size),
        9 => Sched::Guided(size),
        _ => Sched::PlainStatic,
    }
}

/// Whether a loop leaves these values by so many workers.
fn leaves<R: Threads + Wait + Sync>(
    rt: &R,
    alloc: Global,
    lowered: &LoweredLoop,
    site: Site,
    count: u64,
    runtime: Sched,
    values: &[u64],
) -> bool {
    match left_by(rt, alloc, lowered, site, count, runtime, &OpenGate) {
        Some(store) => store.cells() == values,
        None => false,
    }
}

/// Whether it does so behind the clause of a number, by one worker, three and 64.
fn leaves_by_all<R: Threads + Wait + Sync>(
    rt: &R,
    alloc: Global,
    row: &Row,
    number: u64,
    size: ChunkSize,
) -> bool {
    let ((depth, turn), lines, values) = row;
    let site = Site {
        length: 8,
        lines: *lines,
        depth: *depth,
        turn: *turn,
    };
    let Some(lowered) = lower_nest(alloc, site, clause(number, size)) else {
        return false;
    };
    let mut same = true;
    for count in [1, 3, 64] {
        let runtime = runtime(number, size);
        same &= leaves(rt, alloc, &lowered, site, count, runtime, values);
    }
    same
}

/// Whether it does so behind each clause, its chunks of three iterations where they have a size.
fn leaves_always<R: Threads + Wait + Sync>(rt: &R, alloc: Global, row: &Row) -> bool {
    let Some(three) = ChunkSize::new(3) else {
        return false;
    };
    let mut same = true;
    for number in 0..10u64 {
        same &= leaves_by_all(rt, alloc, row, number, three);
    }
    same
}

/// The number of the first of some rows, from 0, that leaves something else somewhere.
fn first_other<R: Threads + Wait + Sync>(rt: &R, alloc: Global, rows: &[Row]) -> Option<usize> {
    for (number, row) in rows.iter().enumerate() {
        if !leaves_always(rt, alloc, row) {
            return Some(number);
        }
    }
    None
}

const SUMS: &str =
    "for (uint64_t i = 0; i < 8; i++) { uint64_t t = i; for (uint64_t k = 0; k < i; k++) t += k; A[i] = t; }";

const BRANCHES: &str =
    "for (uint64_t i = 0; i < 8; i++) if (i % 2 == 0) A[i] = i + 5; else { uint64_t t = A[i]; A[i] = 100 * t - i; }";

const TWICE: &str = "for (uint64_t i = 0; i < 8; i++) { A[i] = i; A[i] = A[i] + 1; }";

const WRAPS: &str = "for (uint64_t i = 0; i < 5; i++) A[i] = i - A[i];";

const FALLS: &str = "for (uint64_t i = 7; i >= 2; i -= 2) A[i] = i * i;";

const TABLE: &str =
    "for (uint64_t i = 0; i < 2; i++) for (uint64_t j = 0; j < 3; j++) B[i][j] = 10 * i + j + A[j];";

const INNER: &str =
    "for (uint64_t j = 0; j < 8; j++) for (uint64_t i = 0; i < j; i++) A[i] = i + j;";

const NEVER: &str = "for (uint64_t i = 3; i < 3; i++) A[i] = 7;";

const NEVER_INSIDE: &str =
    "for (uint64_t i = 3; i < 3; i++) for (uint64_t j = 2; j >= 0; j--) B[i][j] = 7;";

#[test]
fn loops_of_every_form_are_run(rt: HostRuntime) {
    const ROWS: &[Row<'static>] = &[
        // Bodies.
        (ONE, SUMS, [0, 1, 3, 6, 10, 15, 21, 28, 0, 0, 0, 0, 0, 0, 0]),
        (
            ONE,
            BRANCHES,
            [5, 99, 7, 97, 9, 95, 11, 93, 0, 0, 0, 0, 0, 0, 0],
        ),
        (ONE, TWICE, [1, 2, 3, 4, 5, 6, 7, 8, 0, 0, 0, 0, 0, 0, 0]),
        (
            ONE,
            WRAPS,
            [
                18446744073709551615,
                0,
                1,
                2,
                3,
                1,
                1,
                1,
                0,
                0,
                0,
                0,
                0,
                0,
                0,
            ],
        ),
        // Nests.
        (ONE, FALLS, [1, 1, 1, 9, 1, 25, 1, 49, 0, 0, 0, 0, 0, 0, 0]),
        (
            (2, None),
            TABLE,
            [1, 1, 1, 1, 1, 1, 1, 1, 1, 2, 3, 11, 12, 13, 0],
        ),
        (
            (1, Some(3)),
            INNER,
            [3, 4, 5, 1, 1, 1, 1, 1, 0, 0, 0, 0, 0, 0, 0],
        ),
        (ONE, NEVER, [1, 1, 1, 1, 1, 1, 1, 1, 0, 0, 0, 0, 0, 0, 0]),
        // The inner loop would wrap, but is never reached.
        (
            (2, None),
            NEVER_INSIDE,
            [1, 1, 1, 1, 1, 1, 1, 1, 0, 0, 0, 0, 0, 0, 0],
        ),
    ];
    assert_eq!(rt; first_other(&rt, rt.alloc(), ROWS), None);
}
