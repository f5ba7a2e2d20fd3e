//! Chunks of nests over the arrays `A` of 8 and `B` of 2 times 3 elements and the scalar `s`, and what they leave; the values are C's, or counted by hand.

use crate::lowering::{chunk, lower_nest};
use crate::outcome::no_other;
use crate::stores::two_arrays_and_a_scalar;
use ktree::ChunkNo;
use lower::LoweredLoop;
use overlay::{Work, Worker};
use std::alloc::Global;
use store::Store;

/// The lines of a nest, how many loops it has, and at which turn another one round it is, if there is one; which of its iterations are run, in chunks
/// of so many; and what these leave in `A`, in `B` and in `s`.
struct Row {
    lines: &'static str,
    depth: u64,
    turn: Option<u64>,
    first: u64,
    end: u64,
    cut: u64,
    cells: [u64; 15],
}

/// Makes the changes of a worker's chunk in a store.
fn put_chunk(
    alloc: Global,
    lowered: &LoweredLoop,
    registers: &[u64],
    worker: &mut Worker<'_>,
    work: Work,
    after: &mut Store,
) -> Option<()> {
    let piece = chunk(alloc, lowered, registers, worker, work)?;
    piece.changes.apply(after);
    Some(())
}

/// Makes those of all chunks of a row, which one worker runs over another store.
fn put_chunks(
    alloc: Global,
    lowered: &LoweredLoop,
    row: &Row,
    store: &Store,
    after: &mut Store,
) -> Option<()> {
    let registers = [row.turn.unwrap_or(0); 8];
    let mut worker = Worker::new(alloc, store).ok()?;
    let mut first = row.first;
    for number in 0..8u64 {
        let count = row.cut.min(row.end.saturating_sub(first));
        let work = Work {
            chunk: ChunkNo(number),
            first,
            count,
        };
        put_chunk(alloc, lowered, &registers, &mut worker, work, after)?;
        first = first.saturating_add(count);
    }
    Some(())
}

/// Whether the chunks of a row leave its cells.
fn leaves(alloc: Global, lowered: &LoweredLoop, row: &Row) -> Option<bool> {
    let store = two_arrays_and_a_scalar(alloc).ok()?;
    let mut after = two_arrays_and_a_scalar(alloc).ok()?;
    put_chunks(alloc, lowered, row, &store, &mut after)?;
    Some(after.cells() == row.cells.as_slice())
}

/// Whether those of its kernel do.
fn is_right(alloc: Global, row: &Row) -> bool {
    match lower_nest(alloc, row.lines, row.turn.is_some(), row.depth) {
        Some(lowered) => leaves(alloc, &lowered, row) == Some(true),
        None => false,
    }
}

/// The number of the first row, from 0, whose chunks leave something else.
fn first_other(alloc: Global, rows: &[Row]) -> Option<usize> {
    for (number, row) in rows.iter().enumerate() {
        if !is_right(alloc, row) {
            return Some(number);
        }
    }
    None
}

const SUMS: &str =
    "for (uint64_t i = 0; i < 8; i++) { uint64_t t = i; for (uint64_t k = 0; k < i; k++) t += k; A[i] = t; }";

const SQUARES: &str = "for (uint64_t i = 7; i >= 2; i -= 2) A[i] = i * i;";

const TWICE: &str = "for (uint64_t i = 0; i < 8; i++) { A[i] = i; A[i] = A[i] + 1; }";

const COUNT: &str = "for (uint64_t i = 0; i < 6; i++) s = s + 1;";

const CHAIN: &str = "for (uint64_t i = 1; i < 8; i++) A[i] = A[i - 1] + 1;";

const TABLE: &str =
    "for (uint64_t i = 0; i < 2; i++) for (uint64_t j = 0; j < 3; j++) B[i][j] = 10 * i + j + 1;";

const INNER: &str =
    "for (uint64_t j = 0; j < 8; j++) for (uint64_t i = 0; i < j; i++) A[i] = i + j;";

#[test]
fn chunks_of_one_loop(rt: HostRuntime) {
    const ROWS: &[Row] = &[
        // Chunks run bodies with loops and locals.
        Row {
            lines: SUMS,
            depth: 1,
            turn: None,
            first: 0,
            end: 8,
            cut: 3,
            cells: [0, 1, 3, 6, 10, 15, 21, 28, 0, 0, 0, 0, 0, 0, 0],
        },
        Row {
            lines: SUMS,
            depth: 1,
            turn: None,
            first: 3,
            end: 5,
            cut: 1,
            cells: [0, 0, 0, 6, 10, 0, 0, 0, 0, 0, 0, 0, 0, 0, 0],
        },
        Row {
            lines: SQUARES,
            depth: 1,
            turn: None,
            first: 0,
            end: 3,
            cut: 2,
            cells: [0, 0, 0, 9, 0, 25, 0, 49, 0, 0, 0, 0, 0, 0, 0],
        },
        Row {
            lines: SQUARES,
            depth: 1,
            turn: None,
            first: 1,
            end: 2,
            cut: 1,
            cells: [0, 0, 0, 0, 0, 25, 0, 0, 0, 0, 0, 0, 0, 0, 0],
        },
        // Chunks see their own writes and no others.
        Row {
            lines: TWICE,
            depth: 1,
            turn: None,
            first: 0,
            end: 8,
            cut: 4,
            cells: [1, 2, 3, 4, 5, 6, 7, 8, 0, 0, 0, 0, 0, 0, 0],
        },
        Row {
            lines: COUNT,
            depth: 1,
            turn: None,
            first: 0,
            end: 6,
            cut: 6,
            cells: [0, 0, 0, 0, 0, 0, 0, 0, 0, 0, 0, 0, 0, 0, 6],
        },
        Row {
            lines: COUNT,
            depth: 1,
            turn: None,
            first: 0,
            end: 6,
            cut: 3,
            cells: [0, 0, 0, 0, 0, 0, 0, 0, 0, 0, 0, 0, 0, 0, 3],
        },
        Row {
            lines: CHAIN,
            depth: 1,
            turn: None,
            first: 0,
            end: 7,
            cut: 3,
            cells: [0, 1, 2, 3, 1, 2, 3, 1, 0, 0, 0, 0, 0, 0, 0],
        },
    ];
    no_other(&rt, first_other(rt.alloc(), ROWS));
}

#[test]
fn chunks_run_nests(rt: HostRuntime) {
    const ROWS: &[Row] = &[
        Row {
            lines: TABLE,
            depth: 2,
            turn: None,
            first: 0,
            end: 6,
            cut: 4,
            cells: [0, 0, 0, 0, 0, 0, 0, 0, 1, 2, 3, 11, 12, 13, 0],
        },
        Row {
            lines: TABLE,
            depth: 2,
            turn: None,
            first: 2,
            end: 5,
            cut: 2,
            cells: [0, 0, 0, 0, 0, 0, 0, 0, 0, 0, 3, 11, 12, 0, 0],
        },
        Row {
            lines: INNER,
            depth: 1,
            turn: Some(3),
            first: 0,
            end: 3,
            cut: 2,
            cells: [3, 4, 5, 0, 0, 0, 0, 0, 0, 0, 0, 0, 0, 0, 0],
        },
    ];
    no_other(&rt, first_other(rt.alloc(), ROWS));
}
