//! Chunks of loops with a reduction or lastprivate variable, and what they tell of it; the values are counted by hand, by OpenMP 5.2, 5.4.5 and 5.5.

use crate::lowering::{chunk, loop_with_roles, work};
use crate::outcome::no_other;
use crate::stores::two_arrays_and_a_scalar;
use ktree::{ReductionOperator, VarId};
use lower::{LoweredLoop, LoweredReduction, Spot};
use overlay::{Piece, Worker};
use reduce::Partial;
use std::alloc::Global;
use store::Store;

/// The scalar `s` behind the elements of `A` and `B`, and the first local of a kernel.
const SCALAR: Spot = Spot::Cell(14);

const LOCAL: Spot = Spot::Register(VarId(3));

/// The lines of a loop, what is reduced and what is lastprivate, what the scalar and all registers hold before, and of a chunk the first iteration and
/// their count, how many places it changes, and the partials and last values that it tells.
struct Row {
    lines: &'static str,
    reductions: &'static [LoweredReduction],
    lasts: &'static [Spot],
    before: u64,
    first: u64,
    count: u64,
    changes: u64,
    partials: &'static [Partial],
    values: &'static [u64],
}

/// What the chunk of a row leaves over a store.
fn piece_over(alloc: Global, lowered: &LoweredLoop, row: &Row, store: &Store) -> Option<Piece> {
    let mut worker = Worker::new(alloc, store).ok()?;
    let work = work(row.first, row.count);
    chunk(alloc, lowered, &[row.before; 8], &mut worker, work)
}

/// The same over the arrays and the scalar.
fn piece_of(alloc: Global, lowered: &LoweredLoop, row: &Row) -> Option<Piece> {
    let mut store = two_arrays_and_a_scalar(alloc).ok()?;
    store.put(14, row.before);
    piece_over(alloc, lowered, row, &store)
}

/// Whether the chunk of a row tells what the row says.
fn tells(alloc: Global, lowered: &LoweredLoop, row: &Row) -> bool {
    match piece_of(alloc, lowered, row) {
        Some(piece) => {
            piece.changes.len() == row.changes
                && piece.partials.as_slice() == row.partials
                && piece.lasts.as_slice() == row.values
        }
        None => false,
    }
}

/// Whether that of its loop does.
fn is_right(alloc: Global, row: &Row) -> bool {
    match loop_with_roles(alloc, row.lines, row.reductions, row.lasts) {
        Some(lowered) => tells(alloc, &lowered, row),
        None => false,
    }
}

/// The number of the first row, from 0, whose chunk tells something else.
fn first_other(alloc: Global, rows: &[Row]) -> Option<usize> {
    for (number, row) in rows.iter().enumerate() {
        if !is_right(alloc, row) {
            return Some(number);
        }
    }
    None
}

/// The scalar as a reduction variable.
const SUM: LoweredReduction = LoweredReduction {
    operator: ReductionOperator::Sum,
    spot: SCALAR,
};

const PRODUCT: LoweredReduction = LoweredReduction {
    operator: ReductionOperator::Product,
    spot: SCALAR,
};

const MIN: LoweredReduction = LoweredReduction {
    operator: ReductionOperator::Min,
    spot: SCALAR,
};

const MAX: LoweredReduction = LoweredReduction {
    operator: ReductionOperator::Max,
    spot: SCALAR,
};

const AND: LoweredReduction = LoweredReduction {
    operator: ReductionOperator::LogicalAnd,
    spot: SCALAR,
};

const OR: LoweredReduction = LoweredReduction {
    operator: ReductionOperator::LogicalOr,
    spot: SCALAR,
};

/// The local as one.
const SUM_INSIDE: LoweredReduction = LoweredReduction {
    operator: ReductionOperator::Sum,
    spot: LOCAL,
};

const ADD: &str = "for (uint64_t i = 0; i < 6; i++) s += i + 1;";

const MULTIPLY: &str = "for (uint64_t i = 0; i < 6; i++) s *= i + 1;";

const LEAST: &str = "for (uint64_t i = 0; i < 6; i++) if (i < s) s = i;";

/// What a cell takes of 200 iterations is as great as 255, at 156, and as small as 0, at 99.
const GREATEST_OF_MANY: &str = "for (uint64_t i = 0; i < 200; i++) if ((i ^ 99) > s) s = (i ^ 99);";

const LEAST_OF_MANY: &str =
    "for (uint64_t i = 0; i < 200; i++) { if (s >= (i ^ 99)) { s = (i ^ 99); } }";

const ALL: &str = "for (uint64_t i = 0; i < 6; i++) s = s && i < 4;";

const ANY: &str = "for (uint64_t i = 0; i < 6; i++) s = s || i > 4;";

const NOTHING: &str = "for (uint64_t i = 0; i < 6; i++) s += 0;";

const INSIDE: &str = "uint64_t t = 0; for (uint64_t i = 0; i < 6; i++) t += i + 1;";

#[test]
fn chunks_tell_partials(rt: HostRuntime) {
    const ROWS: &[Row] = &[
        Row {
            lines: ADD,
            reductions: &[SUM],
            lasts: &[],
            before: 7,
            first: 2,
            count: 3,
            changes: 0,
            partials: &[Partial::Updated(12)],
            values: &[],
        },
        Row {
            lines: MULTIPLY,
            reductions: &[PRODUCT],
            lasts: &[],
            before: 7,
            first: 1,
            count: 3,
            changes: 0,
            partials: &[Partial::Updated(24)],
            values: &[],
        },
        Row {
            lines: LEAST,
            reductions: &[MIN],
            lasts: &[],
            before: 1,
            first: 2,
            count: 4,
            changes: 0,
            partials: &[Partial::Updated(2)],
            values: &[],
        },
        Row {
            lines: GREATEST_OF_MANY,
            reductions: &[MAX],
            lasts: &[],
            before: 1000,
            first: 0,
            count: 200,
            changes: 0,
            partials: &[Partial::Updated(255)],
            values: &[],
        },
        Row {
            lines: GREATEST_OF_MANY,
            reductions: &[MAX],
            lasts: &[],
            before: 1000,
            first: 0,
            count: 99,
            changes: 0,
            partials: &[Partial::Updated(127)],
            values: &[],
        },
        Row {
            lines: LEAST_OF_MANY,
            reductions: &[MIN],
            lasts: &[],
            before: 0,
            first: 100,
            count: 100,
            changes: 0,
            partials: &[Partial::Updated(4)],
            values: &[],
        },
        Row {
            lines: LEAST_OF_MANY,
            reductions: &[MIN],
            lasts: &[],
            before: 0,
            first: 90,
            count: 80,
            changes: 0,
            partials: &[Partial::Updated(0)],
            values: &[],
        },
        // Of && and || a variable begins with what it held.
        Row {
            lines: ALL,
            reductions: &[AND],
            lasts: &[],
            before: 5,
            first: 0,
            count: 2,
            changes: 0,
            partials: &[Partial::Updated(1)],
            values: &[],
        },
        Row {
            lines: ALL,
            reductions: &[AND],
            lasts: &[],
            before: 1,
            first: 0,
            count: 2,
            changes: 0,
            partials: &[Partial::Untouched],
            values: &[],
        },
        Row {
            lines: ALL,
            reductions: &[AND],
            lasts: &[],
            before: 5,
            first: 3,
            count: 2,
            changes: 0,
            partials: &[Partial::Updated(0)],
            values: &[],
        },
        Row {
            lines: ANY,
            reductions: &[OR],
            lasts: &[],
            before: 0,
            first: 0,
            count: 5,
            changes: 0,
            partials: &[Partial::Untouched],
            values: &[],
        },
        Row {
            lines: ANY,
            reductions: &[OR],
            lasts: &[],
            before: 0,
            first: 4,
            count: 2,
            changes: 0,
            partials: &[Partial::Updated(1)],
            values: &[],
        },
        // What leaves the variable as it begins leaves no partial.
        Row {
            lines: NOTHING,
            reductions: &[SUM],
            lasts: &[],
            before: 7,
            first: 0,
            count: 6,
            changes: 0,
            partials: &[Partial::Untouched],
            values: &[],
        },
        Row {
            lines: ADD,
            reductions: &[SUM],
            lasts: &[],
            before: 7,
            first: 3,
            count: 0,
            changes: 0,
            partials: &[Partial::Untouched],
            values: &[],
        },
        Row {
            lines: INSIDE,
            reductions: &[SUM_INSIDE],
            lasts: &[],
            before: 7,
            first: 0,
            count: 6,
            changes: 0,
            partials: &[Partial::Updated(21)],
            values: &[],
        },
    ];
    no_other(&rt, first_other(rt.alloc(), ROWS));
}

const SQUARES: &str = "for (uint64_t i = 0; i < 6; i++) { s = i * i; A[i] = 1; }";

#[test]
fn last_chunks_tell_last_values(rt: HostRuntime) {
    const ROWS: &[Row] = &[
        Row {
            lines: SQUARES,
            reductions: &[],
            lasts: &[SCALAR],
            before: 7,
            first: 2,
            count: 4,
            changes: 4,
            partials: &[],
            values: &[25],
        },
        Row {
            lines: SQUARES,
            reductions: &[],
            lasts: &[SCALAR],
            before: 7,
            first: 0,
            count: 5,
            changes: 5,
            partials: &[],
            values: &[],
        },
    ];
    no_other(&rt, first_other(rt.alloc(), ROWS));
}

const SUMMING: &str = "for (uint64_t i = 0; i < 6; i++) { s += i + 1; A[i] = i; }";

#[test]
fn chunks_tell_changes_and_partials(rt: HostRuntime) {
    const ROWS: &[Row] = &[Row {
        lines: SUMMING,
        reductions: &[SUM],
        lasts: &[],
        before: 7,
        first: 2,
        count: 3,
        changes: 3,
        partials: &[Partial::Updated(12)],
        values: &[],
    }];
    no_other(&rt, first_other(rt.alloc(), ROWS));
}
