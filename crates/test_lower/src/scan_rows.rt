//! Chunks of scans in two passes over `A` = 1 2 3 4 5 and `s` = 10, and what they leave; the values are counted by hand, by OpenMP 5.2, 5.6.

use crate::lowering::{loop_with_roles, work};
use crate::outcome::no_other;
use crate::stores::two_arrays_and_a_scalar;
use inscan::{first_pass, second_pass, starts};
use ktree::ReductionOperator;
use lower::{LoweredLoop, LoweredReduction, Spot};
use overlay::{Piece, Work, Worker};
use reduce::Partial;
use std::alloc::Global;
use store::Store;

/// The scan variable `s`, which is summed up.
const SUM: LoweredReduction = LoweredReduction {
    operator: ReductionOperator::Sum,
    spot: Spot::Cell(14),
};

/// The store before the loop.
fn before(alloc: Global) -> Option<Store> {
    let mut store = two_arrays_and_a_scalar(alloc).ok()?;
    for place in 0..5u64 {
        store.put(place, place + 1);
    }
    store.put(14, 10);
    Some(store)
}

/// What a chunk of the input phase adds, if the space has its iterations.
fn chunk_partial(
    alloc: Global,
    first: &LoweredLoop,
    worker: &mut Worker<'_>,
    work: Work,
) -> Option<Partial> {
    let registers = [0; 8];
    let Ok(space) = first.space(alloc, &registers) else {
        return None;
    };
    if work.first.checked_add(work.count)? > space.count() {
        return None;
    }
    first_pass(alloc, worker, first, &registers, &space, work).ok()
}

/// What a chunk of the whole leaves from this start, if the space has its iterations.
fn chunk_piece(
    alloc: Global,
    second: &LoweredLoop,
    worker: &mut Worker<'_>,
    work: Work,
    start: u64,
) -> Option<Piece> {
    let registers = [0; 8];
    let Ok(space) = second.space(alloc, &registers) else {
        return None;
    };
    if work.first.checked_add(work.count)? > space.count() {
        return None;
    }
    second_pass(alloc, worker, second, &registers, &space, work, start).ok()
}

/// What the chunks of the input phase add.
fn chunk_partials(
    alloc: Global,
    first: &LoweredLoop,
    store: &Store,
    chunks: &[(u64, u64)],
) -> Option<Vec<Partial>> {
    let mut worker = Worker::new(alloc, store).ok()?;
    let mut partials = Vec::new(alloc);
    for (start, count) in chunks {
        let partial = chunk_partial(alloc, first, &mut worker, work(*start, *count))?;
        partials.push(partial).ok()?;
    }
    Some(partials)
}

/// Makes what a chunk of the whole changes from this start in a store.
fn put_chunk(
    alloc: Global,
    second: &LoweredLoop,
    store: &Store,
    work: Work,
    start: u64,
    after: &mut Store,
) -> Option<()> {
    let mut worker = Worker::new(alloc, store).ok()?;
    let piece = chunk_piece(alloc, second, &mut worker, work, start)?;
    piece.changes.apply(after);
    Some(())
}

/// The lines of the input phase and those of the whole, the chunks by their first iterations and their counts, their starts with that of one more, and
/// the cells behind `A`.
struct Row {
    lines: (&'static str, &'static str),
    chunks: &'static [(u64, u64)],
    starts: &'static [u64],
    cells: [u64; 7],
}

/// Whether the chunks of a row, each from its start, leave its cells.
fn leave(alloc: Global, second: &LoweredLoop, store: &Store, row: &Row) -> Option<bool> {
    let mut after = before(alloc)?;
    for ((first, count), start) in row.chunks.iter().zip(row.starts.iter()) {
        let work = work(*first, *count);
        put_chunk(alloc, second, store, work, *start, &mut after)?;
    }
    Some(after.cells().get(8..)? == row.cells.as_slice())
}

/// Whether the starts are the row's.
fn starts_so(alloc: Global, store: &Store, row: &Row) -> Option<bool> {
    let first = loop_with_roles(alloc, row.lines.0, &[SUM], &[])?;
    let partials = chunk_partials(alloc, &first, store, row.chunks)?;
    let told = starts(alloc, ReductionOperator::Sum, 10, partials.as_slice()).ok()?;
    Some(told.as_slice() == row.starts)
}

/// Whether the cells are.
fn leaves_so(alloc: Global, store: &Store, row: &Row) -> Option<bool> {
    let second = loop_with_roles(alloc, row.lines.1, &[SUM], &[])?;
    leave(alloc, &second, store, row)
}

/// The number of the first row, from 0, with other starts or cells.
fn first_other(alloc: Global, rows: &[Row]) -> Option<usize> {
    let Some(store) = before(alloc) else {
        return Some(rows.len());
    };
    for (number, row) in rows.iter().enumerate() {
        if starts_so(alloc, &store, row) != Some(true)
            || leaves_so(alloc, &store, row) != Some(true)
        {
            return Some(number);
        }
    }
    None
}

const INCLUSIVE: (&str, &str) = (
    "for (uint64_t i = 0; i < 5; i++) s += A[i];",
    "for (uint64_t i = 0; i < 5; i++) { s += A[i]; B[i / 3][i % 3] = s; }",
);

const EXCLUSIVE: (&str, &str) = (
    "for (uint64_t i = 0; i < 5; i++) s += A[i];",
    "for (uint64_t i = 0; i < 5; i++) { B[i / 3][i % 3] = s; s += A[i]; }",
);

const NEVER: (&str, &str) = (
    "for (uint64_t i = 0; i < 5; i++) { }",
    "for (uint64_t i = 0; i < 5; i++) B[i / 3][i % 3] = s;",
);

#[test]
fn chunks_of_scans_pass_twice(rt: HostRuntime) {
    const ROWS: &[Row] = &[
        // By one worker, two and four; the scan variable itself is told of no chunk.
        Row {
            lines: INCLUSIVE,
            chunks: &[(0, 5)],
            starts: &[10, 25],
            cells: [11, 13, 16, 20, 25, 0, 10],
        },
        Row {
            lines: INCLUSIVE,
            chunks: &[(0, 3), (3, 2)],
            starts: &[10, 16, 25],
            cells: [11, 13, 16, 20, 25, 0, 10],
        },
        Row {
            lines: INCLUSIVE,
            chunks: &[(0, 2), (2, 1), (3, 1), (4, 1)],
            starts: &[10, 13, 16, 20, 25],
            cells: [11, 13, 16, 20, 25, 0, 10],
        },
        Row {
            lines: EXCLUSIVE,
            chunks: &[(0, 3), (3, 2)],
            starts: &[10, 16, 25],
            cells: [10, 11, 13, 16, 20, 0, 10],
        },
        // What is not updated keeps its value.
        Row {
            lines: NEVER,
            chunks: &[(0, 3), (3, 2)],
            starts: &[10, 10, 10],
            cells: [10, 10, 10, 10, 10, 0, 10],
        },
        Row {
            lines: INCLUSIVE,
            chunks: &[],
            starts: &[10],
            cells: [0, 0, 0, 0, 0, 0, 10],
        },
    ];
    no_other(&rt, first_other(rt.alloc(), ROWS));
}
