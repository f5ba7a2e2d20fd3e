//! Scans that a team runs in two passes, over `A` = 1 2 3 4 5: what they leave in `B` and in the scan variable, what they print, and of how
//! many chunks the gate is told; the values are counted by hand, by OpenMP 5.2, 5.6.

use crate::lowering::{Site, lower_nest, variables};
use ktree::{ChunkSize, ReductionOperator, Schedule, VarId, Workers};
use lower::{LoweredLoop, LoweredReduction, Spot};
use seqrun_io::Memory;
use std::alloc::Global;
use std::sync::Wait;
use std::sync::atomic::{AtomicU64, Ordering};
use std::thread::Threads;
use store::Store;
use team::{Gate, Taken, run_scan};

/// Counts the chunks that it is told of, those of plain static for as many workers as there are.
#[derive(Drop)]
struct Counting {
    told: AtomicU64,
}

impl Gate for Counting {
    fn entered(&self, taken: Taken) {
        if taken.worker == taken.chunk && taken.chunks == taken.workers.min(5) {
            self.told.fetch_add(1, Ordering::SeqCst);
        }
    }
}

/// The lines of the input phase and those of the whole, the operator, where the scan variable stands, what it holds before and behind the
/// loop, and what the loop leaves in `B` and prints.
type Row = (
    (&'static str, &'static str),
    (ReductionOperator, Spot),
    (u64, u64),
    [u64; 6],
    &'static [u8],
);

/// The loop of these lines, whose scan variable is this, behind a clause that does not count.
fn scan_loop(
    alloc: Global,
    lines: &str,
    operator: ReductionOperator,
    spot: Spot,
) -> Option<LoweredLoop> {
    let site = Site {
        length: 5,
        lines,
        depth: 1,
        turn: None,
    };
    let size = ChunkSize::new(1)?;
    let mut lowered = lower_nest(alloc, site, Some(Schedule::Dynamic(size)))?;
    lowered
        .roles
        .reductions
        .push(LoweredReduction { operator, spot })
        .ok()?;
    Some(lowered)
}

/// The store before the loop, where the scalar `s` holds this.
fn before(alloc: Global, held: u64) -> Option<Store> {
    let mut store = variables(alloc, 5).ok()?;
    for place in 0..5u64 {
        store.put(place, place + 1);
    }
    store.put(11, held);
    Some(store)
}

/// What a scan leaves: its text, what `B` and `s` hold, and what the registers do.
#[derive(Drop)]
struct Left {
    text: Memory,
    store: Store,
    registers: Vec<u64>,
    told: u64,
}

/// What a scan leaves by so many workers, where the scalar and all registers hold this before.
fn left_by<R: Threads + Wait + Sync>(
    rt: &R,
    alloc: Global,
    first: &LoweredLoop,
    second: &LoweredLoop,
    held: u64,
    workers: Workers,
) -> Option<Left> {
    let mut store = before(alloc, held)?;
    let mut registers = Vec::from_elem(alloc, held, 8).ok()?;
    let mut text = Memory::new(alloc);
    let gate = Counting {
        told: AtomicU64::new(0),
    };
    run_scan(
        rt,
        alloc,
        first,
        second,
        registers.as_mut_slice(),
        &mut store,
        workers,
        &gate,
        &mut text,
    )
    .ok()?;
    let told = gate.told.load(Ordering::SeqCst);
    Some(Left {
        text,
        store,
        registers,
        told,
    })
}

/// What the scan variable holds.
fn value(left: &Left, spot: Spot) -> Option<u64> {
    match spot {
        Spot::Register(variable) => left.registers.get(variable.0 as usize).copied(),
        Spot::Cell(place) => left.store.cells().get(place as usize).copied(),
    }
}

/// Whether a scan leaves what the row says, by so many workers, each chunk told twice.
fn leaves<R: Threads + Wait + Sync>(
    rt: &R,
    alloc: Global,
    loops: (&LoweredLoop, &LoweredLoop),
    row: &Row,
    count: u64,
) -> Option<bool> {
    let (_lines, (_operator, spot), (held, behind), cells, text) = *row;
    let workers = Workers::new(count)?;
    let left = left_by(rt, alloc, loops.0, loops.1, held, workers)?;
    Some(
        left.text.bytes() == text
            && left.store.cells().get(5..11)? == cells.as_slice()
            && value(&left, spot) == Some(behind)
            && left.told == 2 * count.min(5),
    )
}

/// Whether it does so by one worker, two, three, four and 64.
fn leaves_always<R: Threads + Wait + Sync>(rt: &R, alloc: Global, row: &Row) -> Option<bool> {
    let (lines, (operator, spot), _values, _cells, _text) = *row;
    let first = scan_loop(alloc, lines.0, operator, spot)?;
    let second = scan_loop(alloc, lines.1, operator, spot)?;
    let mut same = true;
    for count in [1, 2, 3, 4, 64] {
        same &= leaves(rt, alloc, (&first, &second), row, count)?;
    }
    Some(same)
}

/// The number of the first row, from 0, that leaves something else somewhere.
fn first_other<R: Threads + Wait + Sync>(rt: &R, alloc: Global, rows: &[Row]) -> Option<usize> {
    for (number, row) in rows.iter().enumerate() {
        if leaves_always(rt, alloc, row) != Some(true) {
            return Some(number);
        }
    }
    None
}

/// The scalar `s` behind the elements of `A` and `B`, and the first local of a kernel.
const SCALAR: Spot = Spot::Cell(11);

const LOCAL: Spot = Spot::Register(VarId(3));

const INCLUSIVE: (&str, &str) = (
    "for (uint64_t i = 0; i < 5; i++) s += A[i];",
    "for (uint64_t i = 0; i < 5; i++) { s += A[i]; B[i / 3][i % 3] = s; }",
);

const EXCLUSIVE: (&str, &str) = (
    "for (uint64_t i = 0; i < 5; i++) s += A[i];",
    "for (uint64_t i = 0; i < 5; i++) { B[i / 3][i % 3] = s; s += A[i]; }",
);

const INSIDE: (&str, &str) = (
    "uint64_t t = 0; for (uint64_t i = 0; i < 5; i++) t += A[i];",
    "uint64_t t = 0; for (uint64_t i = 0; i < 5; i++) { t += A[i]; B[i / 3][i % 3] = t; }",
);

const PRODUCTS: (&str, &str) = (
    "for (uint64_t i = 0; i < 5; i++) s *= A[i];",
    "for (uint64_t i = 0; i < 5; i++) { s *= A[i]; B[i / 3][i % 3] = s; }",
);

const ALL: (&str, &str) = (
    "for (uint64_t i = 0; i < 5; i++) s = s && A[i] < 4;",
    "for (uint64_t i = 0; i < 5; i++) { s = s && A[i] < 4; B[i / 3][i % 3] = s; }",
);

const PRINTED: (&str, &str) = (
    "for (uint64_t i = 0; i < 5; i++) s += A[i];",
    "for (uint64_t i = 0; i < 5; i++) { s += A[i]; printf(\"%\" PRIu64 \" \", s); }",
);

#[test]
fn scans_pass_twice(rt: HostRuntime) {
    const ROWS: &[Row] = &[
        (
            INCLUSIVE,
            (ReductionOperator::Sum, SCALAR),
            (10, 25),
            [11, 13, 16, 20, 25, 0],
            b"",
        ),
        (
            EXCLUSIVE,
            (ReductionOperator::Sum, SCALAR),
            (10, 25),
            [10, 11, 13, 16, 20, 0],
            b"",
        ),
        (
            INSIDE,
            (ReductionOperator::Sum, LOCAL),
            (10, 25),
            [11, 13, 16, 20, 25, 0],
            b"",
        ),
        (
            PRODUCTS,
            (ReductionOperator::Product, SCALAR),
            (2, 240),
            [2, 4, 12, 48, 240, 0],
            b"",
        ),
        // 5 is no value of &&: what is not updated leaves it out.
        (
            ALL,
            (ReductionOperator::LogicalAnd, SCALAR),
            (5, 0),
            [1, 1, 1, 0, 0, 0],
            b"",
        ),
        (
            PRINTED,
            (ReductionOperator::Sum, SCALAR),
            (10, 25),
            [0, 0, 0, 0, 0, 0],
            b"11 13 16 20 25 ",
        ),
    ];
    let other = first_other(&rt, rt.alloc(), ROWS);
    assert!(rt; other.is_none());
}
