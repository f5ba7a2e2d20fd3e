//! Branches in loops whose turns may be run in lanes.

use crate::lane_digests::first_other;
use crate::outcome::no_other;

/// Branches that set a local alone: with and without an `else`, one inside another, a greatest element, and an edit distance.
#[test]
fn branches_that_set_a_local_run(rt: HostRuntime) {
    const ROWS: &[(&str, u64)] = &[
        (
            "for (uint64_t i = 0; i < 20000; i++) { uint64_t t = i; if (A[i] & 1) { t = A[i] / 3; } else { t = B[i] + t; } B[i] = t; }",
            2275736800820564614,
        ),
        (
            "for (uint64_t i = 0; i < 20000; i++) { uint64_t t = 7; if (B[i] % 3 != 0) { t = 1000000 - A[i] / 3; } A[i] = t; }",
            17572739270754369979,
        ),
        (
            "for (uint64_t i = 0; i < 20000; i++) { uint64_t t = 1; if (A[i] & 2) { t = A[19999 - i]; } B[i] = t; }",
            6488808097961063200,
        ),
        (
            "uint64_t t = 0; for (uint64_t i = 0; i < 20000; i++) { if (A[i] > t) { t = A[i]; } } s = t;",
            16163217306530885424,
        ),
        (
            "uint64_t t = 5; for (uint64_t i = 0; i < 20000; i++) { if (A[i] > B[i]) { if (B[i] & 4) { t = t + 1; } else { t = t * 3; } } B[i] = t; }",
            13354964092333325024,
        ),
        (
            "for (uint64_t i = 1; i < 60; i++) { for (uint64_t j = 1; j < 70; j++) { uint64_t t = M[i - 1][j - 1] + ((N[i][j] & 3) != (M[i][j] & 3) ? 1 : 0); if (M[i - 1][j] + 1 < t) { t = M[i - 1][j] + 1; } if (M[i][j - 1] + 1 < t) { t = M[i][j - 1] + 1; } M[i][j] = t; } }",
            3956342425010841404,
        ),
    ];
    no_other(&rt, first_other(rt.alloc(), ROWS));
}

/// Branches that save one cell alone: with and without an `else`, one inside another, a chain of them, and arms that save cells at other places.
#[test]
fn branches_that_save_a_cell_run(rt: HostRuntime) {
    const ROWS: &[(&str, u64)] = &[
        (
            "for (uint64_t i = 0; i < 20000; i++) { if (A[i] & 1) A[i] = A[i] / 3; else A[i] = B[i] + i; }",
            4136354608710520054,
        ),
        (
            "for (uint64_t i = 0; i < 20000; i++) { if (A[i] & 1) { B[i] = A[i] / 3; } else { B[i] = B[i] + A[i]; } }",
            8794115996941052910,
        ),
        (
            "for (uint64_t i = 0; i < 20000; i++) { if (A[i] > B[i]) { A[i] = 5; } }",
            13117442914211963867,
        ),
        (
            "for (uint64_t i = 0; i < 20000; i++) { if (A[i] % 7 == 2) B[i] += A[i] * 3; }",
            4074209346690941095,
        ),
        (
            "for (uint64_t i = 0; i < 60; i++) { for (uint64_t j = 0; j < 70; j++) { if (M[i][j] > N[i][j]) { M[i][j] = N[i][j]; } } }",
            15394016849831430281,
        ),
        (
            "for (uint64_t i = 0; i < 19999; i++) { if (A[i] & 4) { B[i] = i; } else { B[i + 1] = 7; } }",
            15572139661174474058,
        ),
        (
            "for (uint64_t i = 0; i < 20000; i++) { if (A[i] & 4) { A[i] = i; } else { B[i] = 7; } }",
            9264630606890993536,
        ),
        (
            "for (uint64_t i = 0; i < 20000; i++) { if (A[i] % 5 == 0) { B[i] = 1; } else if (A[i] % 5 == 1) { B[i] = A[i]; } else if (A[i] % 5 == 2) { B[i] ^= 77; } }",
            1160311448866171316,
        ),
        (
            "for (uint64_t i = 0; i < 20000; i++) { if (A[i] & 1) { if (A[i] & 2) { B[i] = 3; } } else { B[i] = B[i] * 5; } }",
            14180052518613364988,
        ),
        (
            "for (uint64_t i = 1; i < 20000; i++) { if (A[i] < A[i - 1]) { A[i] = A[i - 1]; } }",
            16163195237329498688,
        ),
        (
            "for (uint64_t i = 0; i < 20000; i++) { if (B[i] & 16) { s += A[i]; } else { s = s ^ i; } }",
            16301123607802434450,
        ),
        (
            "for (uint64_t i = 0; i < 20000; i++) { if (A[i] & 8) { A[19999 - i] = A[i] + 1; } }",
            3841863802016452456,
        ),
    ];
    no_other(&rt, first_other(rt.alloc(), ROWS));
}

/// Branches of several statements, one in another, in loops that may run in lanes and in others: arms that change what the test reads, sums in scalars
/// and in locals where a test holds, swaps, places that are no forms, and more statements than are done without a branch.
#[test]
fn branches_of_several_statements_run(rt: HostRuntime) {
    const ROWS: &[(&str, u64)] = &[
        (
            "for (uint64_t i = 0; i < 20000; i++) { if (A[i] % 3 == 1) { B[i] = A[i] + i; A[i] = 7; } else { A[i] = A[i] / 2; M[1][1] = i; } } for (uint64_t i = 0; i < 20000; i++) { if (A[i] > B[i]) { uint64_t t = A[i]; A[i] = B[i]; B[i] = t; } }",
            12571926148747914306,
        ),
        (
            "for (uint64_t i = 0; i < 20000; i++) { if (A[i] % 4 < 2) { if (B[i] % 8 > 3) { A[i] = i; } else { A[i] = B[i]; B[i] = 3; } } else if (A[i] % 4 == 2) { B[i] = B[i] * 5; A[i] = A[i] + B[i]; } else { A[i] = A[i] ^ 21; } }",
            12763842090625550760,
        ),
        (
            "uint64_t n = 5; uint64_t m = 1; for (uint64_t i = 0; i < 20000; i++) { if (A[i] % 5 < 2) s += A[i]; } for (uint64_t i = 0; i < 300; i++) { if (B[i] > A[i]) s = s - i * 3; if (A[i] % 7 != 0) n += 1; } for (uint64_t i = 0; i < 5000; i++) { if (A[i] / 3 % 2 == 1) { m = m - B[i]; } } N[1][2] = n; N[1][3] = m;",
            13365076725964718088,
        ),
        (
            "for (uint64_t i = 0; i < 20000; i++) { if (A[i] % 2 == 0) { A[i] = A[i] + 1; B[i] = A[i]; } else { A[i] = 0; if (B[i] > 99) { B[i] = A[i]; A[i] = 4; } } } for (uint64_t i = 0; i < 9999; i++) { if (A[i] > A[i + 1]) { uint64_t t = A[i]; A[i] = A[i + 1]; A[i + 1] = t; } }",
            978906872375847382,
        ),
        (
            "for (uint64_t i = 0; i < 60; i++) { for (uint64_t j = 0; j <= i + 9; j++) { if (M[i][j] % 3 != N[i][j] % 3) { M[i][j] = N[i][j] * 2; N[i][j] = j; s += 1; } else { M[i][j] += 1; s += 1000; } } for (uint64_t j = i; j < 69 - 1; j++) { uint64_t x = M[i][j]; uint64_t y = 0; if (x % 2 == 1) { y = x * 3; x = x + y; } N[i][j] = x - y; } }",
            2315103047850752283,
        ),
        (
            "uint64_t x = 1; for (uint64_t i = 0; i < 20000; i++) { if (A[i] % 16 == 3) { x = x * 5 + A[i]; B[i] = x; } } s = x; for (uint64_t i = 0; i < 20000; i++) { if (B[i] % 3 == 0 && A[i] % 3 == 0) { A[i] = 1; B[i] = 2; } if (B[i] % 3 == 1 || A[i] % 3 == 1) { A[i] += B[i]; B[i] -= i; } }",
            6083034920694045680,
        ),
        (
            "for (uint64_t i = 0; i < 3000; i++) { if (A[i] % 2 == 1) { A[2 * i] = 3; B[19999 - i] = A[i]; } if (A[i] > 4) { A[A[i] % 20000] = i; B[i] = 8; } } for (uint64_t i = 0; i < 20000; i++) { if (A[i] % 3 == 2) { A[i] = A[i] + 1; B[i] = A[i] * A[i] + B[i] / 3 - i; A[i] = B[i] ^ A[i] << 2; B[i] = A[i] + B[i] % 5; A[i] = A[i] - 7 * B[i]; } else { A[i] = 2 * A[i] + 1; B[i] = B[i] ^ A[i] + i * 3; A[i] = B[i] * B[i] - A[i] % 9; B[i] = A[i] % 11 + B[i]; } }",
            13077199303135136203,
        ),
    ];
    no_other(&rt, first_other(rt.alloc(), ROWS));
}
