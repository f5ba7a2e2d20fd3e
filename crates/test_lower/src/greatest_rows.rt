//! Branches after which a cell holds the greatest or the least of it and of a term, over the arrays `A` of 8 and `B` of 2 times 3 elements and the
//! scalar `s`: by which instructions, and what they print, as C prints it.

use crate::codes::{SMALL_WITH_LOCAL, code};
use crate::lower_block_rows::block_prints;
use crate::outcome::no_other;
use lower_block::Block;
use lower_op::{Op, Update};
use std::alloc::Global;

/// How many instructions there are that give a cell the greatest number, and how many that give it the least.
type Count = (u64, u64);

/// Those among some.
fn in_ops(ops: &[Op]) -> Count {
    let mut greatest = 0u64;
    let mut least = 0u64;
    for op in ops {
        match op {
            Op::UpdateForm(Update::Greatest, _, _) => greatest = greatest.wrapping_add(1),
            Op::UpdateForm(Update::Least, _, _) => least = least.wrapping_add(1),
            _ => {}
        }
    }
    (greatest, least)
}

/// Those of either.
fn plus(a: Count, b: Count) -> Count {
    (a.0.wrapping_add(b.0), a.1.wrapping_add(b.1))
}

/// Those of a block, of its loops that rise where they are run in lanes alone.
fn in_block(block: &Block) -> Count {
    match block {
        Block::Straight(ops) => in_ops(ops),
        Block::Then(a, b) => plus(in_block(a), in_block(b)),
        Block::If(_, a, b) => plus(in_block(a), in_block(b)),
        Block::Loop(_, body) => in_block(body),
        Block::Counts(counted) if counted.limit != 0 => in_ops(&counted.ops),
        _ => (0, 0),
    }
}

/// A kernel's lines, how many such instructions it has, and what it prints.
type Row = (&'static str, u64, u64, &'static str);

/// Whether the kernel of a row has so many, and prints that.
fn is_right(alloc: Global, row: &Row) -> bool {
    let (lines, greatest, least, expected) = *row;
    match code(alloc, SMALL_WITH_LOCAL, lines) {
        Some(compiled) => {
            in_block(&compiled.block) == (greatest, least)
                && block_prints(alloc, &compiled, expected)
        }
        None => false,
    }
}

/// The number of the first row, from 0, that has others or prints something else.
fn first_other(alloc: Global, rows: &[Row]) -> Option<usize> {
    for (number, row) in rows.iter().enumerate() {
        if !is_right(alloc, row) {
            return Some(number);
        }
    }
    None
}

/// The greatest, by each order of each comparison.
#[test]
fn greatest_is_one_instruction(rt: HostRuntime) {
    const ROWS: &[Row] = &[
        (
            "for (uint64_t i = 0; i < 8; i++) A[i] = i * 7 % 5; for (uint64_t i = 0; i < 8; i++) { if (A[i] > s) s = A[i]; } printf(\"%\" PRIu64 \"\", s);",
            1,
            0,
            "4",
        ),
        (
            "for (uint64_t i = 0; i < 8; i++) A[i] = i * 7 % 5; for (uint64_t i = 0; i < 8; i++) { if (s < A[i]) { s = A[i]; } } printf(\"%\" PRIu64 \"\", s);",
            1,
            0,
            "4",
        ),
        (
            "for (uint64_t i = 0; i < 8; i++) A[i] = i * 7 % 5; for (uint64_t i = 0; i < 8; i++) { if (A[i] >= s) { s = A[i]; } } printf(\"%\" PRIu64 \"\", s);",
            1,
            0,
            "4",
        ),
        (
            "for (uint64_t i = 0; i < 8; i++) A[i] = i * 7 % 5; for (uint64_t i = 0; i < 8; i++) { if (s <= A[i]) s = A[i]; } printf(\"%\" PRIu64 \"\", s);",
            1,
            0,
            "4",
        ),
        (
            "for (uint64_t i = 0; i < 8; i++) A[i] = i * 7 % 5; for (uint64_t i = 0; i < 8; i++) { if ((A[i] ^ i) > s) s = (A[i] ^ i); } printf(\"%\" PRIu64 \"\", s);",
            1,
            0,
            "7",
        ),
        (
            "for (uint64_t i = 0; i < 8; i++) A[i] = i * 7 % 5; for (uint64_t i = 0; i < 8; i++) { if ((i > 3 ? A[i] : 9 - i) > s) s = (i > 3 ? A[i] : 9 - i); } printf(\"%\" PRIu64 \"\", s);",
            1,
            0,
            "9",
        ),
        (
            "for (uint64_t i = 0; i < 8; i++) A[i] = i * 7 % 5; for (uint64_t i = 0; i < 4; i++) { if (A[2 * i + 1] > A[2 * i]) A[2 * i] = A[2 * i + 1]; } printf(\"%\" PRIu64 \"%\" PRIu64 \"%\" PRIu64 \"%\" PRIu64 \"\", A[0], A[2], A[4], A[6]);",
            1,
            0,
            "2434",
        ),
        (
            "x = 6; if (x > s) s = x; printf(\"%\" PRIu64 \"\", s);",
            1,
            0,
            "6",
        ),
    ];
    no_other(&rt, first_other(rt.alloc(), ROWS));
}

/// The least.
#[test]
fn least_is_one_instruction(rt: HostRuntime) {
    const ROWS: &[Row] = &[
        (
            "s = 100; for (uint64_t i = 0; i < 8; i++) A[i] = i * 7 % 5 + 1; for (uint64_t i = 0; i < 8; i++) { if (A[i] < s) s = A[i]; } printf(\"%\" PRIu64 \"\", s);",
            0,
            1,
            "1",
        ),
        (
            "s = 100; for (uint64_t i = 0; i < 8; i++) A[i] = i * 7 % 5 + 1; for (uint64_t i = 0; i < 8; i++) { if (s > A[i]) { s = A[i]; } } printf(\"%\" PRIu64 \"\", s);",
            0,
            1,
            "1",
        ),
        (
            "s = 100; for (uint64_t i = 0; i < 8; i++) A[i] = i * 7 % 5 + 1; for (uint64_t i = 0; i < 8; i++) { if (A[i] <= s) { s = A[i]; } } printf(\"%\" PRIu64 \"\", s);",
            0,
            1,
            "1",
        ),
        (
            "s = 100; for (uint64_t i = 0; i < 8; i++) A[i] = i * 7 % 5 + 1; for (uint64_t i = 0; i < 8; i++) { if (s >= A[i]) s = A[i]; } printf(\"%\" PRIu64 \"\", s);",
            0,
            1,
            "1",
        ),
        (
            "s = 100; for (uint64_t i = 0; i < 8; i++) A[i] = i * 7 % 5 + 1; for (uint64_t i = 0; i < 8; i++) { if ((A[i] ^ 6) < s) s = (A[i] ^ 6); } printf(\"%\" PRIu64 \"\", s);",
            0,
            1,
            "2",
        ),
        (
            "s = 100; x = 6; if (s > x * x) s = x * x; printf(\"%\" PRIu64 \"\", s);",
            0,
            1,
            "36",
        ),
    ];
    no_other(&rt, first_other(rt.alloc(), ROWS));
}

/// Branches that leave neither, and ones over a local.
#[test]
fn other_branches_are_not(rt: HostRuntime) {
    const ROWS: &[Row] = &[
        (
            "for (uint64_t i = 0; i < 8; i++) A[i] = i * 7 % 5; for (uint64_t i = 0; i < 8; i++) { if (A[i] > s) s = A[7 - i]; } printf(\"%\" PRIu64 \"\", s);",
            0,
            0,
            "0",
        ),
        (
            "for (uint64_t i = 0; i < 8; i++) A[i] = i * 7 % 5; for (uint64_t i = 0; i < 8; i++) { if (A[i] > s) s = A[i] + 1; } printf(\"%\" PRIu64 \"\", s);",
            0,
            0,
            "5",
        ),
        (
            "for (uint64_t i = 0; i < 8; i++) A[i] = i * 7 % 5; for (uint64_t i = 0; i < 8; i++) { if (A[i] != s) s = A[i]; } printf(\"%\" PRIu64 \"\", s);",
            0,
            0,
            "4",
        ),
        (
            "for (uint64_t i = 0; i < 8; i++) A[i] = i * 7 % 5; for (uint64_t i = 0; i < 8; i++) { if (A[i] > s) s = A[i]; else s = 1; } printf(\"%\" PRIu64 \"\", s);",
            0,
            0,
            "4",
        ),
        (
            "for (uint64_t i = 0; i < 8; i++) A[i] = i * 7 % 5; for (uint64_t i = 0; i < 8; i++) { if (A[i] > B[0][0]) s = A[i]; } printf(\"%\" PRIu64 \"\", s);",
            0,
            0,
            "4",
        ),
        (
            "for (uint64_t i = 0; i < 8; i++) A[i] = i * 7 % 5; x = 0; for (uint64_t i = 0; i < 8; i++) { if (A[i] > x) x = A[i]; } printf(\"%\" PRIu64 \"\", x);",
            0,
            0,
            "4",
        ),
    ];
    no_other(&rt, first_other(rt.alloc(), ROWS));
}
