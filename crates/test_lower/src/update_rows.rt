//! Cells that change by what a turn makes, in lanes or turn by turn.

use crate::lane_digests::first_other;
use crate::outcome::no_other;

/// Cells that take what an operator makes of them: one cell in all turns by each operator that a reduction may have, cells side by side, and cells apart.
#[test]
fn updates_of_cells_run(rt: HostRuntime) {
    const ROWS: &[(&str, u64)] = &[
        (
            "for (uint64_t i = 0; i < 20000; i++) { s ^= A[i]; }",
            16163207052839650176,
        ),
        (
            "s = 3; for (uint64_t i = 0; i < 20000; i++) { s *= A[i] | 1; }",
            3010352116893972227,
        ),
        (
            "s = 12345; for (uint64_t i = 0; i < 20000; i++) { s -= A[i] + i; }",
            15942503223281978841,
        ),
        (
            "s = 18446744073709551615ull; for (uint64_t i = 0; i < 20000; i++) { s &= A[i] | B[i] | 1024; }",
            16163195237329499712,
        ),
        (
            "for (uint64_t i = 0; i < 20000; i++) { A[i] -= B[i]; } for (uint64_t i = 0; i < 20000; i++) { B[i] ^= A[i]; } for (uint64_t i = 0; i < 20000; i++) { A[i] = A[i] << 3; }",
            6062914009434963872,
        ),
        (
            "for (uint64_t i = 0; i < 20000; i++) { A[i] = A[i] / 7; B[i] = B[i] % 1000; B[19999 - i] |= 4096; }",
            10082484326438257193,
        ),
        (
            "for (uint64_t i = 0; i < 60; i++) { for (uint64_t j = 0; j < 70; j++) { M[i][j] *= N[i][69 - j]; M[i][j] = M[i][j] >> 3; } }",
            4926773253151431866,
        ),
        (
            "for (uint64_t i = 0; i < 9999; i++) { A[2 * i] ^= A[2 * i + 1]; B[i] += B[i + 10000]; }",
            17819161992100403074,
        ),
    ];
    no_other(&rt, first_other(rt.alloc(), ROWS));
}

/// Cells that take the greater or the less of them and of a number: one cell in all turns, by each order of each comparison, and cells side by side,
/// apart and one behind another.
#[test]
fn greatest_and_least_cells_run(rt: HostRuntime) {
    const ROWS: &[(&str, u64)] = &[
        (
            "for (uint64_t i = 0; i < 20000; i++) { if ((A[i] ^ i) > s) s = (A[i] ^ i); }",
            16163217306530899247,
        ),
        (
            "for (uint64_t i = 0; i < 20000; i++) { if (s < A[i] * 77) { s = A[i] * 77; } }",
            16164894565836277360,
        ),
        (
            "for (uint64_t i = 0; i < 19999; i++) { if (A[i] % 1000 + B[i + 1] >= s) { s = A[i] % 1000 + B[i + 1]; } }",
            16163195237729471655,
        ),
        (
            "s = 5; for (uint64_t i = 0; i < 257; i++) { if (s <= (A[i] << 7)) s = (A[i] << 7); }",
            16163231397317050944,
        ),
        (
            "s = 18446744073709551615ull; for (uint64_t i = 0; i < 20000; i++) { if ((A[i] ^ i * 3) + 9 < s) { s = (A[i] ^ i * 3) + 9; } }",
            16163195237329498697,
        ),
        (
            "s = 18446744073709551615ull; for (uint64_t i = 1; i < 20000; i++) { if (s > A[i] * B[20000 - i]) s = A[i] * B[20000 - i]; }",
            16163503911351686060,
        ),
        (
            "s = 77777777777ull; for (uint64_t i = 0; i < 16385; i++) { if (B[i] <= s) s = B[i]; }",
            16163195237329511033,
        ),
        (
            "s = 77777777777ull; for (uint64_t i = 0; i < 16383; i++) { if (s >= ~A[i]) s = ~A[i]; }",
            16163195315107276465,
        ),
        (
            "for (uint64_t i = 0; i < 20000; i++) { if (A[i] < B[i]) A[i] = B[i]; } for (uint64_t i = 0; i < 9999; i++) { if (B[2 * i] < B[2 * i + 1] - A[i]) { B[2 * i] = B[2 * i + 1] - A[i]; } }",
            6190304954802555613,
        ),
        (
            "for (uint64_t i = 0; i < 60; i++) { for (uint64_t j = 0; j < 70; j++) { if (M[i][j] > N[59 - i][j]) { M[i][j] = N[59 - i][j]; } if (M[i][j] > A[i]) { A[i] = M[i][j]; } } }",
            11291858304827067560,
        ),
        (
            "for (uint64_t i = 0; i < 60; i++) { s = 1000000; for (uint64_t j = 0; j < 70; j++) { if (M[i][j] * j % 971 < s) s = M[i][j] * j % 971; } A[i] = s; }",
            6319558173142625962,
        ),
        (
            "for (uint64_t i = 1; i < 20000; i++) { if (A[i] > A[i - 1] - 5) { A[i] = A[i - 1] - 5; } } for (uint64_t i = 0; i < 20000; i++) { if (B[i] > s) s = A[i]; }",
            4905658070902269419,
        ),
    ];
    no_other(&rt, first_other(rt.alloc(), ROWS));
}

/// Cells that take what an operator makes of a cell that a turn before wrote: sums of a table along its rows and its columns, each operator with the
/// cell left or, where its operands may be exchanged, right, and turns some apart.
#[test]
fn recurrences_run(rt: HostRuntime) {
    const ROWS: &[(&str, u64)] = &[
        (
            "for (uint64_t i = 1; i < 60; i++) { for (uint64_t j = 1; j < 70; j++) { M[i][j] = M[i][j - 1] + M[i - 1][j]; } }",
            15207984283072216680,
        ),
        (
            "for (uint64_t j = 1; j < 70; j++) { for (uint64_t i = 1; i < 60; i++) { M[i][j] = M[i - 1][j] + M[i][j - 1]; } }",
            15207984283072216680,
        ),
        (
            "for (uint64_t j = 0; j < 70; j++) { for (uint64_t i = 1; i < 60; i++) { M[i][j] = M[i - 1][j] + N[i][j]; } }",
            15215003041355840490,
        ),
        (
            "for (uint64_t i = 1; i < 700; i++) { A[i] = A[i - 1] - B[i]; } for (uint64_t i = 1; i < 700; i++) { B[i] = A[i] - B[i - 1]; }",
            11544361161880039187,
        ),
        (
            "for (uint64_t i = 1; i < 700; i++) { A[i] = (B[i] | 1) * A[i - 1]; } for (uint64_t i = 1; i < 700; i++) { B[i] = B[i - 1] * 3; }",
            4417727061067006152,
        ),
        (
            "for (uint64_t i = 1; i < 700; i++) { A[i] = (B[i] | A[i]) & A[i - 1]; } for (uint64_t i = 1; i < 700; i++) { B[i] = (A[i] ^ B[i]) | B[i - 1]; }",
            3289388724165456114,
        ),
        (
            "for (uint64_t i = 1; i < 700; i++) { A[i] = B[i] * 5 ^ A[i - 1]; } for (uint64_t i = 1; i < 700; i++) { B[i] = B[i - 1] >> 1; }",
            5087463742173571202,
        ),
    ];
    no_other(&rt, first_other(rt.alloc(), ROWS));
}

/// Others that divide, turns some apart, steps, loops that fall, and bodies of two assignments.
#[test]
fn recurrences_of_other_turns_run(rt: HostRuntime) {
    const ROWS: &[(&str, u64)] = &[
        (
            "A[0] = 18446744073709551615ull; for (uint64_t i = 1; i < 700; i++) { A[i] = A[i - 1] / 3; } for (uint64_t i = 1; i < 700; i++) { B[i] = B[i - 1] % 1000; } for (uint64_t i = 1; i < 350; i++) { B[2 * i] = B[2 * i - 2] << 1; }",
            124195639664835100,
        ),
        (
            "for (uint64_t i = 2; i < 700; i++) { A[i] = A[i - 2] - B[i]; } for (uint64_t i = 3; i < 700; i++) { B[i] = A[i] + B[i - 3]; }",
            14384211716967514019,
        ),
        (
            "for (uint64_t i = 255; i < 700; i++) { A[i] = A[i - 255] + B[i]; } for (uint64_t i = 256; i < 700; i++) { A[i] = A[i - 256] - B[i]; } for (uint64_t i = 257; i < 700; i++) { A[i] = A[i - 257] ^ B[i]; }",
            8562059754339176955,
        ),
        (
            "for (uint64_t i = 3; i < 700; i += 3) { A[i] = A[i - 3] + B[i]; } for (uint64_t i = 0; i < 350; i++) { B[2 * i + 2] = B[2 * i] + A[i]; }",
            1727250641021708192,
        ),
        (
            "for (uint64_t i = 700; i > 0; i--) { A[i - 1] = A[i] + B[i]; } for (uint64_t i = 0; i < 699; i++) { B[698 - i] = B[699 - i] + A[i]; }",
            6099886253780170829,
        ),
        (
            "for (uint64_t i = 1; i < 700; i++) { A[i] = A[i - 1] + B[i]; B[i] = A[i] * 3; }",
            7295360221209920709,
        ),
        (
            "for (uint64_t i = 1; i < 700; i++) { B[i] = A[i] * 3; A[i] = B[i] + A[i - 1]; }",
            3017447107652755297,
        ),
    ];
    no_other(&rt, first_other(rt.alloc(), ROWS));
}

/// Cells that take what an operator makes of a cell behind them, of another array or row, and of one that is written later.
#[test]
fn cells_of_other_places_run(rt: HostRuntime) {
    const ROWS: &[(&str, u64)] = &[
        (
            "for (uint64_t i = 0; i < 700; i++) { A[i] = B[i] + A[i]; } for (uint64_t i = 0; i < 700; i++) { B[i] = A[i] * 5; }",
            16525612534609306724,
        ),
        (
            "for (uint64_t i = 0; i < 700; i++) { A[i] = A[i + 1] ^ B[i]; } for (uint64_t i = 0; i < 700; i++) { B[i] = A[i] | B[i + 3]; }",
            9925139990148057309,
        ),
        (
            "for (uint64_t i = 1; i < 700; i++) { A[i] = B[i - 1] + B[i + 1]; } for (uint64_t i = 1; i < 700; i++) { B[i] = A[i] - A[i + 1] - A[i - 1]; }",
            11623617511330353504,
        ),
        (
            "for (uint64_t i = 1; i < 60; i++) { for (uint64_t j = 0; j < 70; j++) { M[i][j] = M[i - 1][j] - N[i][j]; } } for (uint64_t i = 0; i < 59; i++) { for (uint64_t j = 1; j < 70; j++) { N[i][j] = N[i + 1][j - 1] + M[i][j]; } }",
            13621819214847124014,
        ),
        (
            "for (uint64_t j = 1; j < 70; j++) { for (uint64_t i = 0; i < 60; i++) { M[i][j] = M[i][j - 1] * 3; } }",
            12144034316097661076,
        ),
        (
            "for (uint64_t i = 0; i < 700; i++) { A[i] = A[i + 700] - i; A[i + 700] = B[i] + A[i]; }",
            17961980254499506602,
        ),
        (
            "for (uint64_t r = 0; r < 20; r++) { for (uint64_t i = 0; i < 40; i++) { A[r + i + 1] = A[r + i] + r; } }",
            12501460836654309160,
        ),
    ];
    no_other(&rt, first_other(rt.alloc(), ROWS));
}

/// Locals that take the less or the greater of themselves and of the cell of a turn before, with a number more or without, and are then saved and
/// read; cells of the same turn and of later ones; and turns that read what later ones write.
#[test]
fn cells_are_handed_on_by_a_local(rt: HostRuntime) {
    const ROWS: &[(&str, u64)] = &[
        (
            "for (uint64_t i = 1; i < 60; i++) { for (uint64_t j = 1; j < 70; j++) { uint64_t best = M[i - 1][j - 1] + (A[i] % 4 != B[j] % 4 ? 1 : 0); if (M[i - 1][j] + 1 < best) best = M[i - 1][j] + 1; if (M[i][j - 1] + 1 < best) best = M[i][j - 1] + 1; M[i][j] = best; } }",
            3419308972537883022,
        ),
        (
            "for (uint64_t i = 1; i < 60; i++) { for (uint64_t j = 1; j < 70; j++) { uint64_t best = N[i - 1][j - 1] + (A[i] % 4 == B[j] % 4 ? 1 : 0); if (N[i - 1][j] > best) best = N[i - 1][j]; if (N[i][j - 1] > best) best = N[i][j - 1]; N[i][j] = best; } }",
            15686373867832442360,
        ),
        (
            "uint64_t best = 0; for (uint64_t i = 1; i < 20000; i++) { best = B[i] % 1000; if (best >= 3 + A[i - 1]) { best = 3 + A[i - 1]; } A[i] = best; } s = best; for (uint64_t i = 2; i < 20000; i++) { best = A[i] ^ 85; if (B[i - 2] + 5 <= best) best = B[i - 2] + 5; B[i] = best; A[i] = best + 1; } M[2][3] = best;",
            16202754349249093408,
        ),
        (
            "for (uint64_t i = 1; i < 3000; i++) { uint64_t best = A[i] >> 9; if (A[i - 1] + 18446744073709551609ull > best) best = A[i - 1] + 18446744073709551609ull; A[i] = best; } for (uint64_t i = 0; i < 3000; i++) { uint64_t best = B[i] % 512; if (B[i + 1] + 2 < best) best = B[i + 1] + 2; B[i] = best; } for (uint64_t i = 0; i < 3000; i++) { uint64_t best = B[i] % 64; if (B[i] + 2 < best) best = B[i] + 2; B[i] = best; }",
            6414756355009895720,
        ),
        (
            "for (uint64_t i = 0; i < 19999; i++) { A[i] = A[i + 1] ^ B[i]; } for (uint64_t i = 0; i < 19000; i++) { B[i] = B[i + 300] + i; } for (uint64_t i = 40; i < 9000; i++) { B[i] = B[2 * i] + B[i - 40]; }",
            15727836407511947446,
        ),
    ];
    no_other(&rt, first_other(rt.alloc(), ROWS));
}

/// Elements that change by products of two others: rows by multiples of other rows, one by all products, and others by operators that take rows.
#[test]
fn cells_changed_by_products_run(rt: HostRuntime) {
    const ROWS: &[(&str, u64)] = &[
        (
            "for (uint64_t i = 0; i < 60; i++) { for (uint64_t k = 0; k < 60; k++) { for (uint64_t j = 0; j < 70; j++) { M[i][j] += A[i + k] * N[k][j]; } } }",
            12607708118269728528,
        ),
        (
            "for (uint64_t k = 0; k < 59; k++) { for (uint64_t i = k + 1; i < 60; i++) { for (uint64_t j = k + 1; j < 70; j++) { M[i][j] -= M[i][k] * M[k][j]; } } }",
            17276307267688367972,
        ),
        (
            "for (uint64_t i = 0; i < 60; i++) { for (uint64_t j = 0; j < 70; j++) { A[i] += M[i][j] * B[j]; } }",
            12434663305941430992,
        ),
        (
            "for (uint64_t i = 0; i < 60; i++) { for (uint64_t j = 0; j < 60; j++) { for (uint64_t k = 0; k < 60; k++) { M[i][j] += N[i][k] * N[k][j]; } } }",
            10288285683104886784,
        ),
        (
            "for (uint64_t j = 0; j < 70; j++) { for (uint64_t i = 0; i < 60; i++) { M[i][j] ^= N[i][j] * B[j]; } }",
            8333274998537750450,
        ),
    ];
    no_other(&rt, first_other(rt.alloc(), ROWS));
}
