//! Sums, least and greatest numbers in locals, in lanes or turn by turn.

use crate::lane_digests::first_other;
use crate::outcome::no_other;

/// Sums, products and the like in a local, of all lengths, over rows, steps and what the turn wrote before; several folds into scalars; folds that
/// are none, since another instruction reads what they leave; and loops up to a number and with it.
#[test]
fn folds_run(rt: HostRuntime) {
    const ROWS: &[(&str, u64)] = &[
        (
            "for (uint64_t t = 0; t < 40; t++) { uint64_t x = t; for (uint64_t i = t; i < 20 * t; i++) { x += A[i] * B[i + t]; } M[t][t] = x; }",
            15467944492179265470,
        ),
        (
            "for (uint64_t t = 0; t < 60; t++) { uint64_t x = t; uint64_t y = 1; uint64_t z = 5; for (uint64_t i = 0; i < 290 + t; i++) { x -= A[i]; } for (uint64_t i = t; i < 300; i++) { y *= A[i] | 1; } for (uint64_t i = 0; i < 9 * t; i++) { z ^= B[i] >> 1; } N[t][0] = x; N[t][1] = y; N[t][2] = z; }",
            2065764249545343993,
        ),
        (
            "uint64_t x = 0; uint64_t y = 18446744073709551615ull; for (uint64_t i = 3; i < 6000; i++) { x += A[3 * i]; } for (uint64_t i = 0; i < 777; i++) { y &= A[i] | B[i]; } s = x ^ y; for (uint64_t i = 0; i < 17; i++) { x |= B[i]; } B[5] = x;",
            2581150790043750472,
        ),
        (
            "uint64_t y = 3; uint64_t x = 1; for (uint64_t i = 0; i < 1000; i++) { x += y * i; } for (uint64_t i = 0; i < 1000; i++) { x ^= y << 5; y = y + 0; } for (uint64_t i = 0; i < 513; i += 2) { x += i; } s = x;",
            16163195237331062981,
        ),
        (
            "uint64_t x = 0; for (uint64_t i = 0; i < 19000; i++) { A[i] = B[i] * 2; x += A[i]; } for (uint64_t i = 0; i < 600; i++) { x += B[i]; M[1][1] = x; A[i] = x; } s = x;",
            8635702110116114137,
        ),
        (
            "for (uint64_t i = 0; i < 20000; i++) { s += A[i]; if (A[i] < M[0][0]) M[0][0] = A[i]; if (A[i] > N[3][4]) N[3][4] = A[i]; }",
            9189539145742976373,
        ),
        (
            "uint64_t x = 2; for (uint64_t i = 0; i < 300; i++) { x = x * 3; } for (uint64_t i = 0; i < 300; i++) { x = A[i] - x; } for (uint64_t i = 0; i < 300; i++) { x = x - (x ^ A[i]); } for (uint64_t i = 0; i < 300; i++) { x += x; } s = x;",
            16163195237329498688,
        ),
        (
            "for (uint64_t i = 0; i <= 19999; i++) { A[i] = A[i] * 5 + i; } for (uint64_t i = 20000; i <= 3; i++) { A[0] = 1; } for (uint64_t i = 7; i <= 7; i++) { B[i] += A[i]; } uint64_t x = 1; for (uint64_t i = 5; i <= 900; i += 3) { x += A[i] * B[i]; } s = x;",
            14926460467254808150,
        ),
    ];
    no_other(&rt, first_other(rt.alloc(), ROWS));
}

/// Prefix sums, inclusive and exclusive, by several operators, of elements and of what is made of them, over rows, steps and falling loops, in place and
/// beside, and such as no lanes run: elements that the turn before wrote, and two changes of the local in a turn.
#[test]
fn prefix_sums_run(rt: HostRuntime) {
    const ROWS: &[(&str, u64)] = &[
        (
            "uint64_t x = 3; for (uint64_t i = 0; i < 20000; i++) { x += A[i]; B[i] = x; } s = x; for (uint64_t i = 0; i < 17; i++) { x ^= B[i]; A[i] = x; } for (uint64_t i = 0; i < 257; i++) { s = s * (A[i] | 1); B[i] = s + i; }",
            17522354210765885407,
        ),
        (
            "uint64_t x = 5; for (uint64_t i = 0; i < 20000; i++) { B[i] = x; x += A[i]; } s = x; for (uint64_t i = 0; i < 300; i++) { A[i] = s; s += i * 7 ^ 5; } for (uint64_t i = 0; i < 300; i++) { A[i + 300] = s; s += B[i] * i; }",
            2863846791481601478,
        ),
        (
            "for (uint64_t i = 0; i < 19990; i++) { s ^= i * 3 ^ A[i + 5]; A[i] = s; } uint64_t x = 0; for (uint64_t i = 0; i < 900; i++) { uint64_t t = B[i]; B[i] = x; x += t; } s += x;",
            9591198114941135881,
        ),
        (
            "for (uint64_t i = 0; i < 60; i++) { uint64_t x = i; for (uint64_t j = 0; j < 70; j++) { x += M[i][j]; N[i][j] = x; } uint64_t y = x; for (uint64_t j = i; j < 70; j++) { M[j - i][j] = y * 3; y += M[i][j] * N[i][j]; } s += y; }",
            13029303403045915207,
        ),
        (
            "uint64_t x = 1; for (uint64_t i = 0; i < 700; i++) { x += B[i]; B[i + 1] = x; } for (uint64_t i = 0; i < 700; i++) { x += A[i]; if (x % 3 == 0) B[i] = x; A[i + 700] = x * x; } for (uint64_t i = 20000; i > 0; i--) { x += A[i - 1]; A[i - 1] = x; } s = x;",
            11231422502342736793,
        ),
        (
            "uint64_t x = 9; for (uint64_t i = 0; i < 600; i++) { A[i] = x; x = x * 3 + 1; } for (uint64_t i = 0; i < 600; i++) { x += A[i]; x += B[i]; B[i] = x; } for (uint64_t i = 0; i < 600; i++) { x += A[3 * i]; B[2 * i] = x; B[2 * i + 1] = x + A[i]; } for (uint64_t i = 0; i < 600; i++) { x += B[i]; A[7] = x; } s = x;",
            11313650725304754880,
        ),
        (
            "uint64_t x = 1; for (uint64_t i = 0; i < 500; i++) { A[i] = x; x += A[i]; } for (uint64_t i = 0; i < 500; i++) { A[i + 1] = x; x += A[i]; } for (uint64_t i = 0; i < 500; i++) { A[i] = x; x -= A[i + 1]; } for (uint64_t i = 0; i < 500; i++) { B[i] = x + s; x |= A[2 * i]; B[i + 500] = x; } s = x;",
            4154684976074062005,
        ),
    ];
    no_other(&rt, first_other(rt.alloc(), ROWS));
}

/// The least and the greatest number in a local, of elements and of what is made of them, in short loops and up to computed ends, and two of them in one body.
#[test]
fn least_and_greatest_numbers_run(rt: HostRuntime) {
    const ROWS: &[(&str, u64)] = &[
        (
            "uint64_t t = 1073741824; uint64_t u = 0; for (uint64_t i = 0; i < 20000; i++) { if (A[i] < t) { t = A[i]; } } for (uint64_t i = 0; i < 20000; i++) { if (B[i] % 1000 > u) { u = B[i] % 1000; } } A[7] = t; B[7] = u;",
            7646298872132078167,
        ),
        (
            "for (uint64_t i = 0; i < 60; i++) { uint64_t t = 0; for (uint64_t j = 0; j < 70; j++) { uint64_t d = M[i][j] % 97 * N[i][69 - j]; if (d >= t) t = d; } uint64_t u = M[i][3]; for (uint64_t j = i; j < 69; j++) { if (u > N[i][j] % 89) u = N[i][j] % 89; } M[i][5] = t; N[i][6] = u; }",
            3420493675120026293,
        ),
        (
            "uint64_t t = 5; for (uint64_t i = 0; i < 300; i++) { if (A[i] <= t) { t = A[i]; } } s = t; for (uint64_t i = 0; i < 15; i++) { if (B[i] < t) { t = B[i]; } } A[0] = t;",
            16163195237329498688,
        ),
        (
            "uint64_t t = 9; for (uint64_t i = 0; i < 400; i++) { uint64_t d = B[i] ^ A[i]; if (d < t) { t = d; } if (d > t) { t = d; } } s = t;",
            16163195677632239624,
        ),
    ];
    no_other(&rt, first_other(rt.alloc(), ROWS));
}

/// Sums in a local of products of two elements, of rows and of columns, short ones, and of an element that no turn changes.
#[test]
fn sums_of_products_run(rt: HostRuntime) {
    const ROWS: &[(&str, u64)] = &[
        (
            "for (uint64_t i = 0; i < 60; i++) { for (uint64_t j = 0; j < 60; j++) { uint64_t t = 3; for (uint64_t k = 0; k < 60; k++) { t += N[i][k] * M[k][j]; } M[i][69 - j % 10] ^= t; } }",
            10360033329784092912,
        ),
        (
            "for (uint64_t i = 0; i < 60; i++) { uint64_t t = 0; for (uint64_t k = i; k < 70; k++) { t += M[i][k] * N[i][69 - k]; } uint64_t u = 1; for (uint64_t k = 0; k <= i; k++) { u += M[i][k] * M[k][k]; } N[i][i] = t ^ u; }",
            11402134708804242787,
        ),
        (
            "uint64_t t = 0; for (uint64_t i = 0; i < 20000; i++) { t += A[i] * A[7]; } s = t; for (uint64_t i = 0; i < 10000; i++) { t += A[2 * i] * B[i]; } A[1] = t;",
            10054347520307449637,
        ),
    ];
    no_other(&rt, first_other(rt.alloc(), ROWS));
}

/// Rows that are made of themselves alone, tests as numbers, locals that only the last turn leaves, and sums that no turn changes.
#[test]
fn what_the_last_turn_leaves_runs(rt: HostRuntime) {
    const ROWS: &[(&str, u64)] = &[
        (
            "for (uint64_t i = 1; i < 20000; i++) { uint64_t x = A[i]; x ^= x << 13; x ^= x >> 7; A[i] = x * x; B[i] = x == 3 ? 1 : 0; }",
            2426507936279497047,
        ),
        (
            "uint64_t x = 7; for (uint64_t i = 0; i < 20000; i++) { B[i] = A[i] + s; x = B[i] * 3; x = x ^ i; } s = x;",
            15243754100424867743,
        ),
        (
            "for (uint64_t i = 1; i < 60; i++) { for (uint64_t j = 1; j < 70; j++) { uint64_t best = M[i - 1][j - 1] + (A[i] != B[j] ? 1 : 0); if (M[i - 1][j] + 1 < best) best = M[i - 1][j] + 1; if (M[i][j - 1] + 1 < best) best = M[i][j - 1] + 1; M[i][j] = best; s += best; } }",
            10136717512420012487,
        ),
        (
            "for (uint64_t t = 0; t < 3; t++) { for (uint64_t i = 0; i < 20000; i++) { A[i] = B[i] + A[i] * (t + 3); } }",
            11391125278254545920,
        ),
    ];
    no_other(&rt, first_other(rt.alloc(), ROWS));
}
