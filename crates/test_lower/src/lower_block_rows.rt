//! Kernels of the arrays `A` of 8 and `B` of 2 times 3 elements and the scalar `s`, run as blocks, and what they print, as C prints it.

use crate::codes::{SMALL_WITH_LOCAL, code};
use crate::flat_cells::{LANES, prints_over, zeros};
use crate::outcome::no_other;
use lower_block::{Block, Compiled};
use std::alloc::Global;

/// Whether a block prints this from cells that are 0.
pub(crate) fn block_prints(alloc: Global, compiled: &Compiled, expected: &str) -> bool {
    match zeros(alloc, 15) {
        Some(mut cells) => prints_over(alloc, compiled, LANES, &mut cells, expected),
        None => false,
    }
}

/// Whether the kernel with these lines prints this.
fn prints(alloc: Global, lines: &str, expected: &str) -> bool {
    match code(alloc, SMALL_WITH_LOCAL, lines) {
        Some(compiled) => block_prints(alloc, &compiled, expected),
        None => false,
    }
}

/// The number of the first row, from 0, that prints something else.
fn first_other(alloc: Global, rows: &[(&str, &str)]) -> Option<usize> {
    for (number, (lines, expected)) in rows.iter().enumerate() {
        if !prints(alloc, *lines, *expected) {
            return Some(number);
        }
    }
    None
}

#[test]
fn blocks_print_what_c_prints(rt: HostRuntime) {
    const ROWS: &[(&str, &str)] = &[
        (
            "x = 7; x -= 9; printf(\"%\" PRIu64 \"\\n\", x);",
            "18446744073709551614\n",
        ),
        (
            "x = 9; s = x + 4; s = s * x; s = s / 5; s = s % 16; printf(\"%\" PRIu64 \"\", s);",
            "7",
        ),
        (
            "x = 12; s = (x & 10) | 5; s = s ^ x; s = s << 4; s = s >> 1; printf(\"%\" PRIu64 \"\", s);",
            "8",
        ),
        (
            "x = 5; s = -x; printf(\"%\" PRIu64 \" %\" PRIu64 \"\", s, ~x);",
            "18446744073709551611 18446744073709551610",
        ),
        (
            "x = 5; s = (x < 5 ? 1ull : 0ull) + (x <= 5 ? 2ull : 0ull) + (x > 5 ? 4ull : 0ull) + (x >= 5 ? 8ull : 0ull) + (x == 5 ? 16ull : 0ull) + (x != 5 ? 32ull : 0ull); printf(\"%\" PRIu64 \"\", s);",
            "26",
        ),
        (
            "x = 4; s = x < 5; A[0] = x <= 3; A[1] = x > 3; A[2] = x >= 5; A[3] = x == 4; A[4] = x != 4; printf(\"%\" PRIu64 \"%\" PRIu64 \"%\" PRIu64 \"%\" PRIu64 \"%\" PRIu64 \"%\" PRIu64 \"\", s, A[0], A[1], A[2], A[3], A[4]);",
            "101010",
        ),
        (
            "for (uint64_t i = 0; i < 8; i++) A[i] = A[i] * 3 + i * i; s = A[5] - A[7]; printf(\"%\" PRIu64 \"\", s);",
            "18446744073709551592",
        ),
        (
            "for (uint64_t i = 0; i < 2; i++) for (uint64_t j = 0; j < 3; j++) B[i][j] = 10 * i + j; for (uint64_t i = 0; i < 2; i++) { for (uint64_t j = 0; j < 3; j++) printf(\"%\" PRIu64 \" \", B[i][j]); printf(\"\\n\"); }",
            "0 1 2 \n10 11 12 \n",
        ),
        (
            "for (uint64_t i = 0; i < 8; i++) { if (i % 3 == 1) A[i] = i; else if (i % 3 == 2) A[i] = 2 * i; else A[i] = 7; s += A[i]; } printf(\"%\" PRIu64 \"\", s);",
            "47",
        ),
        (
            "for (uint64_t i = 0; i < 8; i++) { s = s * 2 + ((i > 2 && i < 6) || i == 7 ? 1 : 0); } printf(\"%\" PRIu64 \"\", s);",
            "29",
        ),
        (
            "for (uint64_t i = 5; i < 5; i++) s = 1; printf(\"%\" PRIu64 \"\", s);",
            "0",
        ),
        (
            "for (uint64_t i = 3; i >= 1; i--) { uint64_t y = i * i; s ^= y; printf(\"%\" PRIu64 \",\", y); } printf(\"%\" PRIu64 \"\", s);",
            "9,4,1,12",
        ),
        (
            "x = 0; s = x != 0 && A[x] / 2 == 0; printf(\"%\" PRIu64 \"\", s);",
            "0",
        ),
        (
            "x = 88172645463325252ull; for (uint64_t r = 0; r < 64; r++) { x ^= x << 13; x ^= x >> 7; x ^= x << 17; } printf(\"%\" PRIu64 \"\", x);",
            "5384563294446503108",
        ),
        (
            "for (uint64_t i = 0; i < 8; i++) A[i] = 27 + i; for (uint64_t t = 0; t < 20; t++) for (uint64_t i = 0; i < 8; i++) { if ((A[i] & 1) == 1) A[i] = 3 * A[i] + 1; else A[i] = A[i] >> 1; } for (uint64_t i = 0; i < 8; i++) printf(\"%\" PRIu64 \" \", A[i]);",
            "274 2 2 2 310 1 10 4 ",
        ),
        (
            "A[0] = 1; for (uint64_t i = 1; i < 8; i++) A[i] = A[i - 1] * 2 + A[7 - i]; for (uint64_t i = 0; i < 8; i++) printf(\"%\" PRIu64 \" \", A[i]);",
            "1 2 4 8 24 52 106 213 ",
        ),
        (
            "x = 3; if (!(x == 3) || !(x > 1)) printf(\"a\"); else { printf(\"b\"); if (!(x < 2)) printf(\"c\"); } printf(\"%\" PRIu64 \"!\\n\", x);",
            "bc3!\n",
        ),
        (
            "for (uint64_t i = 0; i < 2; i++) for (uint64_t j = 0; j < 3; j++) for (uint64_t k = 0; k < 4; k++) B[i][j] += (i + 1) * k * A[k + 2 * i] + k; printf(\"%\" PRIu64 \" %\" PRIu64 \"\", B[1][2], B[0][1]);",
            "6 6",
        ),
        (
            "x = 70; s = A[2 * 3 + 1] + 5; A[s] = x; B[x - 69][s - 3] = x + 1; printf(\"%\" PRIu64 \" %\" PRIu64 \"\", A[5], B[1][2]);",
            "70 71",
        ),
        (
            "for (uint64_t i = 0; i < 3; i++) for (uint64_t j = i; j < 3; j++) { if (j == 1) s += 10; s += i * j; } printf(\"%\" PRIu64 \"\", s);",
            "27",
        ),
        (
            "x = 1; x = x << 63; s = x >> 3; printf(\"%\" PRIu64 \"!\\n\", s);",
            "1152921504606846976!\n",
        ),
        (
            "for (uint64_t i = 0; i < 8; i++) A[i] = A[i] * 3 + i; s = A[5] + A[7]; printf(\"%\" PRIu64 \"\\n\", s);",
            "12\n",
        ),
        (
            "x = 5; if (x > 4 && s == 0) s = 1; else s = 2; printf(\"%\" PRIu64 \"\", s);",
            "1",
        ),
        (
            "x = 5; if (x < 4 || !(s == 0)) s = 1; else s = 2; printf(\"%\" PRIu64 \"\", s);",
            "2",
        ),
        (
            "x = 0; s = x != 0 && A[x - 1] / 2 == 0; printf(\"%\" PRIu64 \"\", s);",
            "0",
        ),
        (
            "x = 12; s = x > 10 ? x % 5 : x / 5; printf(\"%\" PRIu64 \"\", s);",
            "2",
        ),
        (
            "for (uint64_t i = 3; i >= 1; i--) { uint64_t y = i * i; s ^= y; } printf(\"%\" PRIu64 \"\", s);",
            "12",
        ),
        (
            "x = 6; x |= 9; x &= 13; s = ~x; printf(\"%\" PRIu64 \" %\" PRIu64 \"\", x, -s);",
            "13 14",
        ),
    ];
    no_other(&rt, first_other(rt.alloc(), ROWS));
}

#[test]
fn instructions_in_place_of_two_print_what_c_prints(rt: HostRuntime) {
    const ROWS: &[(&str, &str)] = &[
        (
            "x = 1000; for (uint64_t i = 0; i < 8; i++) A[i] = i * i + 7; for (uint64_t i = 0; i < 8; i++) { x = x + A[i]; x = x * A[i]; x = x ^ A[i]; x = x - A[i]; s = s + (x & A[i]); } printf(\"%\" PRIu64 \" %\" PRIu64 \"\", x, s);",
            "17603740202424 156",
        ),
        (
            "x = 1000; for (uint64_t i = 0; i < 2; i++) for (uint64_t j = 0; j < 3; j++) { B[i][j] = i * 10 + j + 3; } for (uint64_t i = 0; i < 2; i++) for (uint64_t j = 0; j < 3; j++) { x = x + B[i][j]; x = x * B[i][j]; x = x ^ B[i][j]; x = x - B[i][j]; s = s ^ (x & B[i][j]); } printf(\"%\" PRIu64 \" %\" PRIu64 \"\", x, s);",
            "164370875 1",
        ),
        (
            "x = 77; for (uint64_t i = 0; i < 4; i++) { A[2 * i] = i + 5; x = A[2 * i] * x + i; x = A[2 * i] ^ x; s = A[2 * i] - x + s; x = (A[2 * i] & 12) + x; } printf(\"%\" PRIu64 \" %\" PRIu64 \"\", x, s);",
            "132339 18446744073709400028",
        ),
        (
            "x = 5; uint64_t y = 9; for (uint64_t i = 0; i < 6; i++) { x = x * 31 + y; y = x + y * i; x = (y << 3) ^ x; y ^= x >> 5; x ^= y << 4; } s = y; printf(\"%\" PRIu64 \" %\" PRIu64 \"\", x, s);",
            "81412517323482805 8838876492253503",
        ),
        (
            "x = 3; for (uint64_t i = 0; i < 8; i++) { A[i] += x * i; A[i] = A[i] + A[i]; A[i] = A[7 - i] + 5; A[i] = A[i] - 2; s += A[i]; } for (uint64_t i = 0; i < 2; i++) for (uint64_t j = 0; j < 3; j++) { B[i][j] += A[j] * 2; B[i][j] = B[i][j] + 1; B[1][j] = B[0][j] + i; } for (uint64_t i = 0; i < 8; i++) printf(\"%\" PRIu64 \" \", A[i]); for (uint64_t i = 0; i < 2; i++) for (uint64_t j = 0; j < 3; j++) printf(\"%\" PRIu64 \" \", B[i][j]);",
            "3 3 3 3 6 6 6 6 7 7 7 8 8 8 ",
        ),
        (
            "x = 10; for (uint64_t i = 0; i < 8; i += 3) { s = s * 10 + i; } for (uint64_t i = 1; i <= 7; i += 2) { s = s * 10 + i; } for (uint64_t i = 8; i > 0; i -= 4) { s = s * 10 + i; } for (uint64_t i = 0; i < x; i++) { x = x - 1; } for (uint64_t i = 9; i < 9; i++) { s = 0; } printf(\"%\" PRIu64 \" %\" PRIu64 \"\", x, s);",
            "5 36135784",
        ),
        (
            "x = 6; for (uint64_t i = 0; i < 8; i++) { A[i] = i * 7 % 5; if (A[i] > 2) { x += A[i]; s ^= i; } } for (uint64_t i = 0; i < 8; i++) { s += i; if (A[i] == 1) x = x * 3; else { x = x + 1; A[i] = x; } s += x & 1; } for (uint64_t i = 8; i > 0; i--) { if (i != 4) x += i; else x -= 1; } printf(\"%\" PRIu64 \" %\" PRIu64 \"\", x, s);",
            "95 32",
        ),
    ];
    no_other(&rt, first_other(rt.alloc(), ROWS));
}

/// How many branches are left in a block.
fn branches(block: &Block) -> u64 {
    match block {
        Block::If(_, a, b) => branches(a).wrapping_add(branches(b)).wrapping_add(1),
        Block::Then(a, b) => branches(a).wrapping_add(branches(b)),
        Block::Loop(_, body) => branches(body),
        _ => 0,
    }
}

/// Whether so many branches are left of the kernel with these lines.
fn keeps(alloc: Global, lines: &str, expected: u64) -> bool {
    match code(alloc, SMALL_WITH_LOCAL, lines) {
        Some(compiled) => branches(&compiled.block) == expected,
        None => false,
    }
}

/// The number of the first row, from 0, of which other branches are left.
fn first_branching(alloc: Global, rows: &[(&str, u64)]) -> Option<usize> {
    for (number, (lines, expected)) in rows.iter().enumerate() {
        if !keeps(alloc, *lines, *expected) {
            return Some(number);
        }
    }
    None
}

/// Branches that set one local or save one cell, and nothing else, are none as instructions; nor are those of a few statements where there is no loop, or
/// one that may be run in lanes.
#[test]
fn branches_are_left(rt: HostRuntime) {
    const ROWS: &[(&str, u64)] = &[
        ("if (x > 3) A[1] = x; else A[1] = 2;", 0),
        ("if (x > 3) { A[x] += s; }", 0),
        (
            "if (x > 3) { if (s > 2) { x = 1; } } else if (s == 5) { x = x + s; } else { x = 9; }",
            0,
        ),
        (
            "for (uint64_t i = 0; i < 8; i++) { if (A[i] > 3) { A[i] = 3; } else if (A[i] > 2) { A[i] = x; } }",
            0,
        ),
        (
            "for (uint64_t i = 0; i < 8; i++) { if (A[i] > 3) { if (x > 1) B[1][2] = i; } else { if (x < 1) { B[1][2] = A[i]; } } }",
            0,
        ),
        ("if (x > 3) { A[1] = x; } else { A[2] = x; }", 0),
        ("if (x > 3) { A[A[1]] = x; }", 1),
        ("if (x > 3) { s = x; x = 1; }", 0),
        ("if (x > 3) { s = x; } else { x = s; }", 0),
        (
            "for (uint64_t i = 0; i < 8; i++) { if (A[i] > x) { A[i] = x; B[1][i] = 3; } else if (i > 4) { B[0][i] = A[i]; A[i] = s; } }",
            0,
        ),
        (
            "for (uint64_t i = 0; i < 8; i++) { if (A[i] > x) { x = A[i]; s = i; } }",
            1,
        ),
        (
            "if (x > 3) { A[1] = x * 3 + s; A[2] = A[1] * x - s * 7; A[3] = A[2] * A[1] - x * 5; A[4] = (A[3] ^ x) * (A[2] ^ s); A[5] = (A[4] + x) * (A[3] - s) + A[2] * 3; A[6] = A[5] * A[4] - A[3] * A[2] + A[1] * x; }",
            1,
        ),
        ("if (x > 3) { if (s > 1) { A[1] = x; } printf(\"a\"); }", 1),
    ];
    no_other(&rt, first_branching(rt.alloc(), ROWS));
}
