//! Chunks over the array `A` of 200 elements and the scalar `s`: what they see, and what is left once their changes are applied.

use crate::codes::code;
use crate::flat_cells::{LANES, digest, prints_over, zeros};
use crate::outcome::no_other;
use crate::stores::long_array_and_a_scalar;
use lower_block::Compiled;
use overlay_pages::{Chunk, Own};
use std::alloc::Global;
use store::Store;

/// What stands before the lines of a kernel.
const LONG: &str = "uint64_t A[200]; uint64_t s; void kernel(void) {";

/// Cells of all variables, and one more, which is none.
const CELLS: u64 = 202;

/// Lines, how many places a chunk of them changes, and one place with what it then holds.
struct Row {
    lines: &'static str,
    changes: u64,
    place: u64,
    value: u64,
}

/// A number for what code leaves of plain cells that are 0.
fn digest_of_run(alloc: Global, compiled: &Compiled) -> Option<u64> {
    let mut cells = zeros(alloc, 201)?;
    if prints_over(alloc, compiled, LANES, &mut cells, "") {
        Some(digest(&cells, CELLS))
    } else {
        None
    }
}

/// Whether a chunk that runs this code sees cells of this digest and changes so many places, and behind it nothing is written. Its changes are made in
/// a store.
fn changes_so_many(
    alloc: Global,
    compiled: &Compiled,
    chunk: &mut Chunk<'_>,
    seen: u64,
    count: u64,
    after: &mut Store,
) -> bool {
    let before = digest(chunk, CELLS);
    if !prints_over(alloc, compiled, LANES, chunk, "") || digest(chunk, CELLS) != seen {
        return false;
    }
    match chunk.finish(alloc) {
        Ok(changes) => {
            changes.apply(after);
            changes.len() == count && digest(chunk, CELLS) == before
        }
        Err(_error) => false,
    }
}

/// Whether two chunks of one worker, each of which runs this code over a store, do so, and leave cells of that digest in another store.
fn are_left(
    alloc: Global,
    compiled: &Compiled,
    store: &Store,
    seen: u64,
    count: u64,
    after: &mut Store,
) -> bool {
    let Ok(own) = Own::new(alloc, store) else {
        return false;
    };
    let mut chunk = Chunk::over(store, own);
    changes_so_many(alloc, compiled, &mut chunk, seen, count, after)
        && changes_so_many(alloc, compiled, &mut chunk, seen, count, after)
        && digest(after, CELLS) == seen
}

/// Whether chunks of this code see what code sees that runs over plain cells, and leave that, and what the row says.
fn are_right(alloc: Global, compiled: &Compiled, row: &Row) -> Option<bool> {
    let seen = digest_of_run(alloc, compiled)?;
    let store = long_array_and_a_scalar(alloc).ok()?;
    let mut after = long_array_and_a_scalar(alloc).ok()?;
    let left = are_left(alloc, compiled, &store, seen, row.changes, &mut after);
    Some(left && after.cell(row.place) == row.value)
}

/// The number of the first row, from 0, whose chunks are not right.
fn first_other(alloc: Global, rows: &[Row]) -> Option<usize> {
    for (number, row) in rows.iter().enumerate() {
        if !is_right(alloc, row) {
            return Some(number);
        }
    }
    None
}

/// Whether chunks of a row's lines are right.
fn is_right(alloc: Global, row: &Row) -> bool {
    match code(alloc, LONG, row.lines) {
        Some(compiled) => are_right(alloc, &compiled, row) == Some(true),
        None => false,
    }
}

#[test]
fn chunks_leave_what_plain_cells_hold(rt: HostRuntime) {
    const ROWS: &[Row] = &[
        Row {
            lines: "if (s > 0) s = 1;",
            changes: 0,
            place: 200,
            value: 0,
        },
        Row {
            lines: "A[3] = 0; A[4] = 2; A[4] = 0; s = 1;",
            changes: 1,
            place: 200,
            value: 1,
        },
        Row {
            lines: "A[7] = 5; A[7] = A[7] * 3; s = A[7] + A[8];",
            changes: 2,
            place: 7,
            value: 15,
        },
        Row {
            lines: "A[63] = 1; A[64] = A[63] + 1; A[127] = 3; A[128] = A[127] + A[64]; A[199] = 9; s = 0;",
            changes: 5,
            place: 128,
            value: 5,
        },
        Row {
            lines: "for (uint64_t i = 0; i < 200; i++) A[i] = i * i + 1;",
            changes: 200,
            place: 199,
            value: 39602,
        },
        Row {
            lines: "for (uint64_t i = 0; i < 50; i++) A[199 - 3 * i] += A[3 * i] + i;",
            changes: 49,
            place: 52,
            value: 49,
        },
        Row {
            lines: "for (uint64_t i = 1; i < 200; i++) { A[i] = A[i - 1] + i; if (i % 7 == 3) s += A[i]; }",
            changes: 200,
            place: 199,
            value: 19900,
        },
    ];
    no_other(&rt, first_other(rt.alloc(), ROWS));
}

#[test]
fn changes_tell_place_and_value(rt: HostRuntime) {
    const ROWS: &[Row] = &[
        Row {
            lines: "A[130] = 7;",
            changes: 1,
            place: 130,
            value: 7,
        },
        Row {
            lines: "s = 4; s = s + s;",
            changes: 1,
            place: 200,
            value: 8,
        },
    ];
    no_other(&rt, first_other(rt.alloc(), ROWS));
}
