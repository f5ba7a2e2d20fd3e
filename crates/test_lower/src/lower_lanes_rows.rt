//! Loops whose turns are run in lanes, or one after another where they may not be.

use crate::lane_digests::first_other;
use crate::outcome::no_other;

/// Loops of every length about those of blocks, steps, and turns apart by less than a block, by one, and by more.
#[test]
fn loops_of_one_array_after_another_run(rt: HostRuntime) {
    const ROWS: &[(&str, u64)] = &[
        (
            "for (uint64_t i = 0; i < 20000; i++) { A[i] = A[i] * 3 + i; }",
            615590796928213936,
        ),
        (
            "for (uint64_t i = 0; i < 15; i++) { A[i] += B[i]; } for (uint64_t i = 0; i < 16; i++) { A[i] ^= B[i]; } for (uint64_t i = 0; i < 17; i++) { A[i] -= B[i]; }",
            15669814451658776205,
        ),
        (
            "for (uint64_t i = 0; i < 255; i++) { A[i] += B[i]; } for (uint64_t i = 1; i < 257; i++) { A[i] *= B[i]; } for (uint64_t i = 0; i < 257; i++) { A[i] |= B[i]; }",
            14750512070312513229,
        ),
        (
            "for (uint64_t i = 0; i < 16384; i++) { A[i] = B[i] - A[i]; } for (uint64_t i = 0; i < 16385; i++) { B[i] = A[i] & i; }",
            16214849925614532423,
        ),
        (
            "for (uint64_t i = 1; i < 20000; i++) { A[i] = A[i - 1] + B[i]; }",
            2206739996722234592,
        ),
        (
            "for (uint64_t i = 2; i < 20000; i++) { A[i] = A[i - 2] * 5 + 1; }",
            15457862063477402576,
        ),
        (
            "for (uint64_t i = 255; i < 20000; i++) { A[i] = A[i - 255] + 7; }",
            1420081114717842298,
        ),
        (
            "for (uint64_t i = 256; i < 20000; i++) { A[i] = A[i - 256] + 7; }",
            4272601356346237248,
        ),
        (
            "for (uint64_t i = 257; i < 20000; i++) { A[i] ^= A[i - 257] << 1; }",
            10778028305868471444,
        ),
        (
            "for (uint64_t i = 0; i < 19999; i++) { A[i] = A[i + 1] + A[i]; }",
            9144084077458527968,
        ),
        (
            "for (uint64_t i = 0; i < 10000; i++) { A[2 * i] = A[2 * i + 1] * 3; }",
            2006143340447351600,
        ),
        (
            "for (uint64_t i = 0; i < 10000; i++) { A[2 * i] = A[i] + 1; }",
            2617569815822640810,
        ),
        (
            "for (uint64_t i = 0; i < 6000; i += 3) { A[i] = B[3 * i]; }",
            16012762103691875542,
        ),
        (
            "for (uint64_t i = 0; i < 20000; i++) { A[19999 - i] = B[i]; }",
            16530185547345440464,
        ),
        (
            "for (uint64_t i = 0; i < 20000; i++) { A[19999 - i] = A[i]; }",
            6170032852764525312,
        ),
    ];
    no_other(&rt, first_other(rt.alloc(), ROWS));
}

/// Sums into one cell, products in both orders, stencils and recurrences.
#[test]
fn sums_and_nests_run(rt: HostRuntime) {
    const ROWS: &[(&str, u64)] = &[
        (
            "for (uint64_t i = 0; i < 20000; i++) { s += A[i] * A[i]; }",
            11897205967805736880,
        ),
        (
            "for (uint64_t i = 0; i < 20000; i++) { s = s + A[i]; B[i] = s; }",
            4674783837707943016,
        ),
        (
            "for (uint64_t i = 0; i < 20000; i++) { s += A[i]; A[0] = i; }",
            3928603633165130447,
        ),
        (
            "for (uint64_t i = 0; i < 60; i++) { for (uint64_t k = 0; k < 60; k++) { for (uint64_t j = 0; j < 70; j++) { M[i][j] += N[i][k] * N[k][j]; } } }",
            6821485537207397376,
        ),
        (
            "for (uint64_t i = 0; i < 60; i++) { for (uint64_t j = 0; j < 70; j++) { for (uint64_t k = 0; k < 60; k++) { M[i][j] += N[i][k] * N[k][j]; } } }",
            6821485537207397376,
        ),
        (
            "for (uint64_t i = 1; i < 59; i++) { for (uint64_t j = 1; j < 69; j++) { M[i][j] = (N[i - 1][j] + N[i][j - 1] + N[i][j] + N[i][j + 1] + N[i + 1][j]) / 5; } }",
            5693584161364947192,
        ),
        (
            "for (uint64_t i = 1; i < 59; i++) { for (uint64_t j = 1; j < 69; j++) { M[i][j] = M[i - 1][j] + M[i][j - 1]; } }",
            12011702427792509177,
        ),
        (
            "for (uint64_t i = 1; i < 60; i++) { for (uint64_t j = 0; j < 70; j++) { M[i][j] = M[i - 1][j] * 2 + N[i][69 - j]; } }",
            4313569111366188232,
        ),
        (
            "for (uint64_t j = 0; j < 70; j++) { for (uint64_t i = 0; i < 60; i++) { M[i][j] = N[59 - i][j] << 3; } }",
            12729724970987144020,
        ),
    ];
    no_other(&rt, first_other(rt.alloc(), ROWS));
}

/// Choices, locals of a turn, loops that do not turn, and a scalar that turns hand on.
#[test]
fn choices_and_locals_run(rt: HostRuntime) {
    const ROWS: &[(&str, u64)] = &[
        (
            "for (uint64_t i = 0; i < 20000; i++) { A[i] = A[i] % 7 < 3 ? B[i] / 3 : ~A[i] % 1000; }",
            16772669149700164689,
        ),
        (
            "for (uint64_t i = 0; i < 20000; i++) { uint64_t t = A[i]; t ^= t << 13; t ^= t >> 7; t ^= t << 17; B[i] = t; A[i] = t == B[0]; }",
            11510346491311835721,
        ),
        (
            "for (uint64_t i = 0; i < 20000; i++) { uint64_t t = B[i]; if (t > 5000) { t = 5000; } A[i] = t; }",
            451451876326797664,
        ),
        (
            "for (uint64_t i = 5; i < 4; i++) { A[i] = 1; } for (uint64_t i = 0; i <= 300; i++) { A[i] = i; } for (uint64_t i = 300; i > 0; i--) { A[i] += A[i - 1]; }",
            6861533349759741493,
        ),
        (
            "for (uint64_t r = 0; r < 20; r++) { for (uint64_t i = 0; i < 40; i++) { A[r + i] = A[r + i + 40] + r; } }",
            13048506976184240296,
        ),
        (
            "for (uint64_t i = 0; i < 20000; i++) { A[i] = s; s = 3; }",
            7464904809137133280,
        ),
    ];
    no_other(&rt, first_other(rt.alloc(), ROWS));
}

/// Inner loops that turn a known number of times and set locals alone: rounds of a hash, one whose variable counts and whose last step is cut short, a
/// product of rows, one in another, ones that never turn or turn too often to be written out, and ones that do not rise or compare otherwise.
#[test]
fn short_loops_over_locals_run(rt: HostRuntime) {
    const ROWS: &[(&str, u64)] = &[
        (
            "for (uint64_t i = 0; i < 20000; i++) { uint64_t x = A[i] + i; for (uint64_t r = 0; r < 16; r++) { x ^= x << 13; x ^= x >> 7; x ^= x << 17; } B[i] = x; }",
            10791751611243118782,
        ),
        (
            "for (uint64_t i = 0; i < 20000; i++) { uint64_t h = i; for (uint64_t r = 3; r < 20; r += 4) { h = h * 31 + (B[i] ^ r); if (h & 1) { h += r << 2; } } A[i] = h; }",
            17655397662567604320,
        ),
        (
            "for (uint64_t i = 0; i < 60; i++) { uint64_t t = 0; for (uint64_t j = 0; j < 70; j++) { t += M[i][j] * N[59 - i][j]; } A[i] = t; }",
            4225980019632414452,
        ),
        (
            "for (uint64_t i = 0; i < 20000; i++) { uint64_t t = A[i]; for (uint64_t a = 0; a < 3; a++) { for (uint64_t b = 1; b < 5; b++) { t = t * 5 + a * b % 7; } } B[i] = t; }",
            16055597486497355536,
        ),
        (
            "for (uint64_t i = 0; i < 100; i++) { uint64_t t = 1; for (uint64_t r = 9; r < 9; r++) { t = 0; } for (uint64_t r = 0; r < 257; r++) { t = t * 3 + r; } for (uint64_t r = 0; r < 256; r += 300) { t = t ^ r + 5; } A[i] = t; }",
            9493352867978772066,
        ),
        (
            "uint64_t t = 3; for (uint64_t r = 0; r < 10; r += 4) { t = t * r + A[r + 7]; } s = t; for (uint64_t r = 10; r > 4; r -= 2) { t = t * 3 + r; } A[0] = t; for (uint64_t r = 0; r <= 5; r++) { t = t + r / 2; } A[1] = t;",
            13303294541020918861,
        ),
    ];
    no_other(&rt, first_other(rt.alloc(), ROWS));
}

/// Loops whose end is computed: from outer variables, constants and locals, below it and up to it, with the variable on either side; ends at the
/// greatest number, and ends that a turn changes.
#[test]
fn ends_that_are_computed_run(rt: HostRuntime) {
    const ROWS: &[(&str, u64)] = &[
        (
            "for (uint64_t i = 0; i < 60; i++) { for (uint64_t j = 0; j <= i; j++) { M[i][j] += N[i][j] * 3; } for (uint64_t j = i + 1; j < 70 - i / 2; j++) { N[i][j] ^= M[i][j]; } for (uint64_t j = 0; i + 2 > j; j++) { M[i][j] -= i; } for (uint64_t j = i / 2; i + 9 >= j; j += 2) { N[i][j] = N[i][j] / 3 + j; } }",
            15685612209386078895,
        ),
        (
            "for (uint64_t i = 0; i < 60; i++) { uint64_t x = 1; for (uint64_t k = 0; k <= 3 * i + 20; k++) { x += A[k] * B[k]; } M[i][0] = x; for (uint64_t k = i; k < 9000 - i * 20; k += 3) { s += A[k]; if (B[k] > M[0][1]) M[0][1] = B[k]; } N[i][1] = s; }",
            8425466833572705660,
        ),
        (
            "uint64_t n = 30; for (uint64_t i = 0; i < n * 2; i++) { n = n + (i < 10 ? 1 : 0); A[i] = n; } for (uint64_t i = 0; i <= n; i++) { B[i] = i; n = n - 1; } s = 40; for (uint64_t i = 0; i < s + 1; i++) { A[i] += i; if (i < 20) s = s + 2; } for (uint64_t i = 0; i < i / 2 + 20; i++) { B[i] = i + 5; }",
            5841026640998605189,
        ),
        (
            "for (uint64_t t = 0; t < 60; t++) { uint64_t h = 7; for (uint64_t k = t; k < t + 50; k++) { h = (h ^ A[k]) * 31; } M[t][3] = h; for (uint64_t k = 0; k <= t * 2; k++) { h = h * 5 + B[k]; N[t][4] = h; } for (uint64_t k = 0; k < t + 1; k++) { if (A[k] % 3 == 0) { B[k] = h; A[k] = A[k] + 1; } } }",
            18081680458702539925,
        ),
        (
            "uint64_t m = 18446744073709551615ull; for (uint64_t i = m - 40; i <= m - 1; i++) { B[i - (m - 40)] = i; } for (uint64_t i = m - 20; i < m - 0; i++) { A[i - (m - 20)] ^= i; } for (uint64_t i = 5; i <= m + 4; i++) { s += 1000; } for (uint64_t i = 0; i < m + 1; i++) { s += 9; } for (uint64_t i = 4; i <= m + 5; i++) { s += 100; }",
            677655163681422646,
        ),
        (
            "for (uint64_t i = 1; i < 60 - 1; i++) { for (uint64_t j = 1; j < 70 - 1; j++) { N[i][j] = (M[i][j] + M[i - 1][j] + M[i + 1][j] + M[i][j - 1] + M[i][j + 1]) / 5; } } for (uint64_t i = 0; i < 2000 - 1; i++) { i = i + A[i] % 2; B[i] = 7; } for (uint64_t i = 0; i < 18446744073709551615ull - 18446744073709551315ull; i++) { A[i] += B[i]; }",
            4674745385985168080,
        ),
    ];
    no_other(&rt, first_other(rt.alloc(), ROWS));
}

/// Turns that all read one element which one of them writes: shortest paths, and elements in the middle and at both ends.
#[test]
fn turns_that_read_what_one_of_them_writes_run(rt: HostRuntime) {
    const ROWS: &[(&str, u64)] = &[
        (
            "for (uint64_t k = 0; k < 60; k++) { for (uint64_t i = 0; i < 60; i++) { for (uint64_t j = 0; j < 60; j++) { if (M[i][k] + M[k][j] < M[i][j]) { M[i][j] = M[i][k] + M[k][j]; } } } }",
            16163195237329498688,
        ),
        (
            "for (uint64_t i = 0; i < 20000; i++) { A[i] = A[i] + A[9000]; } for (uint64_t i = 0; i < 20000; i++) { B[i] = B[i] * 3 ^ B[300]; }",
            16947512176912824632,
        ),
        (
            "for (uint64_t i = 0; i < 20000; i++) { A[i] = A[i] * A[5] + A[19999]; } for (uint64_t i = 0; i < 20000; i += 2) { B[i] = B[i] + B[7] + B[4000]; }",
            17634958214004173245,
        ),
    ];
    no_other(&rt, first_other(rt.alloc(), ROWS));
}

/// An operator on a number and a cell, side by side and apart, turns that read their variable and turns that do not, and what the last one leaves.
#[test]
fn numbers_and_variables_run(rt: HostRuntime) {
    const ROWS: &[(&str, u64)] = &[
        (
            "for (uint64_t i = 0; i < 20000; i++) { A[i] = 5 - A[i]; }",
            174199145322936640,
        ),
        (
            "for (uint64_t i = 1; i < 20000; i += 3) { A[i] = 5 - A[i]; B[i - 1] = 7 * A[i] ^ B[i - 1]; }",
            17701972300600234481,
        ),
        (
            "for (uint64_t i = 0; i < 60; i++) { for (uint64_t j = 0; j < 70; j++) { M[i][j] = N[i][j] * i & 1023; } }",
            12938907000371384814,
        ),
        (
            "for (uint64_t i = 0; i < 19000; i++) { uint64_t x = B[i + 1000] ^ 3; A[i] = x - i; s = i; }",
            17687291043513078955,
        ),
        (
            "for (uint64_t i = 0; i < 20000; i++) { uint64_t x = i; if (A[i] > B[i]) { x = A[i] - B[i]; } s += x; }",
            16383884584463483225,
        ),
        (
            "for (uint64_t i = 7; i < 20000; i++) { A[i - 7] = B[i]; } s = A[500];",
            10272973489289058537,
        ),
    ];
    no_other(&rt, first_other(rt.alloc(), ROWS));
}

/// Loops that fall, to above an end and to the end itself, by one and by more: of every length about those of blocks, with turns apart by one, by less
/// than a block and by more, inside one another, into sums and least numbers, and ones that never turn, begin at the greatest number, or change their
/// end, their step or their variable.
#[test]
fn loops_that_fall_run(rt: HostRuntime) {
    const ROWS: &[(&str, u64)] = &[
        (
            "for (uint64_t i = 19999; i > 0; i--) { A[i] = A[i] * 3 + i; }",
            615590796928213936,
        ),
        (
            "for (uint64_t i = 19999; i > 0; i--) { A[i] = A[i - 1] + B[i]; } for (uint64_t i = 19998; i >= 1; i--) { B[i] = B[i + 1] + A[i]; }",
            6422927947842773469,
        ),
        (
            "for (uint64_t i = 15; i > 0; i--) { A[i] += B[i]; } for (uint64_t i = 16; i > 0; i--) { A[i] ^= B[i]; } for (uint64_t i = 17; i >= 1; i--) { A[i] -= B[i]; } for (uint64_t i = 273; i >= 17; i--) { A[i] *= B[i]; } for (uint64_t i = 16385; i > 0; i--) { B[i] |= A[i]; }",
            7901497004486314628,
        ),
        (
            "for (uint64_t i = 19999; i > 4; i -= 3) { A[i] = B[i / 2] + i; B[i] = A[19999 - i]; } for (uint64_t i = 18000; i >= 3; i -= 4) { A[i] ^= B[i - 3] << 2; }",
            15128225296444751145,
        ),
        (
            "for (uint64_t i = 19000; i > 300; i--) { A[i] = A[i - 255] + 7; } for (uint64_t i = 19000; i > 300; i--) { B[i] = B[i + 255] + 7; } for (uint64_t i = 19000; i > 300; i--) { A[i] = A[i + 256] + 7; }",
            7445957915392939160,
        ),
        (
            "for (uint64_t i = 10000; i > 0; i--) { A[2 * i - 1] = A[i] + 1; B[20000 - 2 * i] = B[i] + i; }",
            543223525957843010,
        ),
        (
            "for (uint64_t i = 19999; i > 0; i--) { s += A[i] * B[i]; } for (uint64_t i = 300; i > 0; i--) { s = s * 31 + A[i]; } for (uint64_t i = 299; i >= 1; i--) { s ^= B[i] / 3; }",
            9107197816447915582,
        ),
        (
            "for (uint64_t i = 59; i > 0; i--) { for (uint64_t j = 69; j > i; j--) { M[i][j] += N[i][j] * 3; N[i][j - 1] = M[i - 1][j]; } for (uint64_t j = 60; j >= i; j--) { M[j - 1][i] = N[i][j] + M[i][j]; } }",
            9610582215699748092,
        ),
        (
            "for (uint64_t i = 19999; i > 0; i--) { A[i] = A[i] % 7 < 3 ? B[i] / 3 : ~A[i] % 1000; if (B[i] > 5000) { B[i] = 5000; } }",
            3837482047892115359,
        ),
        (
            "for (uint64_t i = 3; i > 3; i--) { A[i] = 1; } for (uint64_t i = 2; i >= 3; i--) { A[i] = 2; } for (uint64_t i = 40; i >= 40; i--) { A[i] = 3; } for (uint64_t i = 18446744073709551615ull; i > 18446744073709551515ull; i--) { A[18446744073709551615ull - i] = i; } for (uint64_t i = 18446744073709551615ull; i >= 18446744073709551515ull; i -= 2) { B[18446744073709551615ull - i] ^= i; }",
            5043956021836922789,
        ),
        (
            "uint64_t m = 9; for (uint64_t i = 500; i > m; i--) { m = m + (i > 400 ? 1 : 0); A[i] = m; } for (uint64_t i = 500; i >= m; i -= m) { B[i] = i; } for (uint64_t i = 90; i > i / 2 + 20; i--) { A[i] = i + 5; } for (uint64_t i = 600; i > 0; i--) { i = i - A[i] % 2 * (i > 1 ? 1 : 0); B[i] = 7; }",
            2153300029020954083,
        ),
        (
            "uint64_t t = 5; for (uint64_t i = 19999; i > 0; i--) { t = t + A[i]; } s = t; t = ~0ull; for (uint64_t i = 19999; i >= 1; i--) { if (B[i] < t) { t = B[i]; } } A[0] = t; for (uint64_t i = 19999; i > 9; i--) { A[i] = A[i] + A[9000]; }",
            17210325353239476871,
        ),
    ];
    no_other(&rt, first_other(rt.alloc(), ROWS));
}
