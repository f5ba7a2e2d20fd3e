//! Kernels over the arrays `A` and `B` of 20000 and `M` and `N` of 60 times 70 elements and the scalar `s`, run in lanes and turn by turn. What all
//! cells hold in the end is told by a number, which C's own run gave.

use crate::codes::code;
use crate::flat_cells::{LANES, digest, prints_over, zeros};
use lower_block::Compiled;
use std::alloc::Global;

/// Cells of all variables.
const CELLS: u64 = 48401;

/// What stands before the lines of each kernel: every element holds another number.
const FILLED: &str =
    "uint64_t A[20000]; uint64_t B[20000]; uint64_t M[60][70]; uint64_t N[60][70]; uint64_t s; void kernel(void) {\nfor (uint64_t i = 0; i < 20000; i++) { A[i] = i * 1103515245 ^ i >> 3; B[i] = i * i + 12345; } for (uint64_t i = 0; i < 60; i++) { for (uint64_t j = 0; j < 70; j++) { M[i][j] = i * 1000 + j; N[i][j] = j * j + i; } }";

/// Whether code leaves this of cells that are 0, with so many rows for lanes.
fn leaves(alloc: Global, compiled: &Compiled, rows: u32, expected: u64) -> bool {
    match zeros(alloc, CELLS as usize) {
        Some(mut cells) => {
            prints_over(alloc, compiled, rows, &mut cells, "") && digest(&cells, CELLS) == expected
        }
        None => false,
    }
}

/// Whether the kernel with these lines leaves this in lanes, and without.
fn is_right(alloc: Global, lines: &str, expected: u64) -> bool {
    match code(alloc, FILLED, lines) {
        Some(compiled) => {
            leaves(alloc, &compiled, LANES, expected) && leaves(alloc, &compiled, 0, expected)
        }
        None => false,
    }
}

/// The number of the first row, from 0, that leaves something else.
pub(crate) fn first_other(alloc: Global, rows: &[(&str, u64)]) -> Option<usize> {
    for (number, (lines, expected)) in rows.iter().enumerate() {
        if !is_right(alloc, *lines, *expected) {
            return Some(number);
        }
    }
    None
}
