//! Scans, run in two passes (OpenMP 5.2, 5.6).

use crate::schedules::Row;

/// What stands before each: two arrays, and scalars.
pub(super) const DECLARATIONS: &str = "uint64_t A[8];\nuint64_t B[8];\nuint64_t s;\nuint64_t t;";

pub(super) const ROWS: &[Row] = &[
    Row {
        before: "for (uint64_t i = 0; i < 5; i++) A[i] = i + 1; s = 10;",
        clause: "reduction(inscan, +: s)",
        loops: "for (uint64_t i = 0; i < 5; i++) { s += A[i];\n#pragma omp scan inclusive(s)\nB[i] = s; }",
        output: "A = 1 2 3 4 5 0 0 0\nB = 11 13 16 20 25 0 0 0\ns = 25\nt = 0\n",
    },
    Row {
        before: "for (uint64_t i = 0; i < 5; i++) A[i] = i + 1; s = 10;",
        clause: "reduction(inscan, +: s)",
        loops: "for (uint64_t i = 0; i < 5; i++) { B[i] = s;\n#pragma omp scan exclusive(s)\ns += A[i]; }",
        output: "A = 1 2 3 4 5 0 0 0\nB = 10 11 13 16 20 0 0 0\ns = 25\nt = 0\n",
    },
    Row {
        before: "A[0] = 3; A[1] = 1; A[2] = 4; A[3] = 1; A[4] = 5; s = 2;",
        clause: "reduction(inscan, max: s)",
        loops: "for (uint64_t i = 0; i < 5; i++) { if (A[i] > s) s = A[i];\n#pragma omp scan inclusive(s)\nB[i] = s; }",
        output: "A = 3 1 4 1 5 0 0 0\nB = 3 3 4 4 5 0 0 0\ns = 5\nt = 0\n",
    },
    Row {
        before: "A[0] = 3; A[1] = 1; A[2] = 4; A[3] = 1; A[4] = 5; s = 2;",
        clause: "reduction(inscan, max: s)",
        loops: "for (uint64_t i = 0; i < 0; i++) { if (A[i] > s) s = A[i];\n#pragma omp scan inclusive(s)\nB[i] = s; }",
        output: "A = 3 1 4 1 5 0 0 0\nB = 0 0 0 0 0 0 0 0\ns = 2\nt = 0\n",
    },
    Row {
        before: "for (uint64_t i = 0; i < 8; i++) A[i] = i * 5 % 7 + 1; s = 3;",
        clause: "reduction(inscan, *: s)",
        loops: "for (uint64_t i = 0; i < 8; i++) { s *= A[i];\n#pragma omp scan inclusive(s)\nB[i] = s; }",
        output: "A = 1 6 4 2 7 5 3 1\nB = 3 18 72 144 1008 5040 15120 15120\ns = 15120\nt = 0\n",
    },
    Row {
        before: "for (uint64_t i = 0; i < 8; i++) A[i] = i * 5 % 7 + 1; s = 3;",
        clause: "reduction(inscan, *: s)",
        loops: "for (uint64_t i = 0; i < 8; i++) { B[i] = s;\n#pragma omp scan exclusive(s)\ns *= A[i]; }",
        output: "A = 1 6 4 2 7 5 3 1\nB = 3 3 18 72 144 1008 5040 15120\ns = 15120\nt = 0\n",
    },
    Row {
        before: "for (uint64_t i = 0; i < 8; i++) A[i] = i * 5 % 7 + 1; s = 63;",
        clause: "reduction(inscan, &: s)",
        loops: "for (uint64_t i = 0; i < 8; i++) { s &= A[i] + 56;\n#pragma omp scan inclusive(s)\nB[i] = s; }",
        output: "A = 1 6 4 2 7 5 3 1\nB = 57 56 56 56 56 56 56 56\ns = 56\nt = 0\n",
    },
    Row {
        before: "for (uint64_t i = 0; i < 8; i++) A[i] = i * 5 % 7 + 1; s = 63;",
        clause: "reduction(inscan, &: s)",
        loops: "for (uint64_t i = 0; i < 8; i++) { B[i] = s;\n#pragma omp scan exclusive(s)\ns = s & (A[i] + 56); }",
        output: "A = 1 6 4 2 7 5 3 1\nB = 63 57 56 56 56 56 56 56\ns = 56\nt = 0\n",
    },
    Row {
        before: "for (uint64_t i = 0; i < 8; i++) A[i] = i * 5 % 7 + 1; s = 1;",
        clause: "reduction(inscan, |: s)",
        loops: "for (uint64_t i = 0; i < 8; i++) { s |= A[i] * 8;\n#pragma omp scan inclusive(s)\nB[i] = s; }",
        output: "A = 1 6 4 2 7 5 3 1\nB = 9 57 57 57 57 57 57 57\ns = 57\nt = 0\n",
    },
    Row {
        before: "for (uint64_t i = 0; i < 8; i++) A[i] = i * 5 % 7 + 1; s = 1;",
        clause: "reduction(inscan, |: s)",
        loops: "for (uint64_t i = 0; i < 8; i++) { B[i] = s;\n#pragma omp scan exclusive(s)\ns |= A[i] * 8; }",
        output: "A = 1 6 4 2 7 5 3 1\nB = 1 9 57 57 57 57 57 57\ns = 57\nt = 0\n",
    },
    Row {
        before: "for (uint64_t i = 0; i < 8; i++) A[i] = i * 5 % 7 + 1; s = 9;",
        clause: "reduction(inscan, ^: s)",
        loops: "for (uint64_t i = 0; i < 8; i++) { s ^= A[i];\n#pragma omp scan inclusive(s)\nB[i] = s; }",
        output: "A = 1 6 4 2 7 5 3 1\nB = 8 14 10 8 15 10 9 8\ns = 8\nt = 0\n",
    },
    Row {
        before: "for (uint64_t i = 0; i < 8; i++) A[i] = i * 5 % 7 + 1; s = 9;",
        clause: "reduction(inscan, ^: s)",
        loops: "for (uint64_t i = 0; i < 8; i++) { B[i] = s;\n#pragma omp scan exclusive(s)\ns = s ^ A[i]; }",
        output: "A = 1 6 4 2 7 5 3 1\nB = 9 8 14 10 8 15 10 9\ns = 8\nt = 0\n",
    },
    Row {
        before: "for (uint64_t i = 0; i < 8; i++) A[i] = i * 5 % 7 + 1; s = 6;",
        clause: "reduction(inscan, min: s)",
        loops: "for (uint64_t i = 0; i < 8; i++) { if (A[i] < s) s = A[i];\n#pragma omp scan inclusive(s)\nB[i] = s; }",
        output: "A = 1 6 4 2 7 5 3 1\nB = 1 1 1 1 1 1 1 1\ns = 1\nt = 0\n",
    },
    Row {
        before: "for (uint64_t i = 0; i < 8; i++) A[i] = i * 5 % 7 + 1; s = 2;",
        clause: "reduction(inscan, max: s)",
        loops: "for (uint64_t i = 0; i < 8; i++) { B[i] = s;\n#pragma omp scan exclusive(s)\nif (A[i] > s) s = A[i]; }",
        output: "A = 1 6 4 2 7 5 3 1\nB = 2 2 6 6 6 7 7 7\ns = 7\nt = 0\n",
    },
    Row {
        before: "for (uint64_t i = 0; i < 8; i++) A[i] = i * 5 % 7 + 1; s = 4;",
        clause: "reduction(inscan, &&: s)",
        loops: "for (uint64_t i = 0; i < 8; i++) { s = s && A[i] > 1;\n#pragma omp scan inclusive(s)\nB[i] = s; }",
        output: "A = 1 6 4 2 7 5 3 1\nB = 0 0 0 0 0 0 0 0\ns = 0\nt = 0\n",
    },
    Row {
        before: "for (uint64_t i = 0; i < 8; i++) A[i] = i * 5 % 7 + 1; s = 4;",
        clause: "reduction(inscan, &&: s)",
        loops: "for (uint64_t i = 0; i < 8; i++) { B[i] = s;\n#pragma omp scan exclusive(s)\ns = s && A[i] > 1; }",
        output: "A = 1 6 4 2 7 5 3 1\nB = 4 0 0 0 0 0 0 0\ns = 0\nt = 0\n",
    },
    Row {
        before: "for (uint64_t i = 0; i < 8; i++) A[i] = i * 5 % 7 + 1; s = 0;",
        clause: "reduction(inscan, ||: s)",
        loops: "for (uint64_t i = 0; i < 8; i++) { s = s || A[i] > 6;\n#pragma omp scan inclusive(s)\nB[i] = s; }",
        output: "A = 1 6 4 2 7 5 3 1\nB = 0 0 0 0 1 1 1 1\ns = 1\nt = 0\n",
    },
    Row {
        before: "for (uint64_t i = 0; i < 8; i++) A[i] = i * 5 % 7 + 1; s = 0;",
        clause: "reduction(inscan, ||: s)",
        loops: "for (uint64_t i = 0; i < 8; i++) { B[i] = s;\n#pragma omp scan exclusive(s)\ns = s || A[i] > 6; }",
        output: "A = 1 6 4 2 7 5 3 1\nB = 0 0 0 0 0 1 1 1\ns = 1\nt = 0\n",
    },
    Row {
        before: "for (uint64_t i = 0; i < 8; i++) A[i] = i * 5 % 7 + 1; ",
        clause: "reduction(inscan, +: s)",
        loops: "for (uint64_t i = 0; i < 8; i++) { B[i] = s;\n#pragma omp scan exclusive(s)\nif (A[i] > 3) s += 1; }",
        output: "A = 1 6 4 2 7 5 3 1\nB = 0 0 1 2 2 3 4 4\ns = 4\nt = 0\n",
    },
    Row {
        before: "for (uint64_t i = 0; i < 8; i++) A[i] = i * 5 % 7 + 1; uint64_t x;",
        clause: "reduction(inscan, +: s) private(x)",
        loops: "for (uint64_t i = 7; i >= 1; i--) { x = A[i] * 2; s += x; s += 1;\n#pragma omp scan inclusive(s)\n{ uint64_t y = s * 2; B[i] = y; } }",
        output: "A = 1 6 4 2 7 5 3 1\nB = 0 126 100 82 72 42 20 6\ns = 63\nt = 0\n",
    },
    Row {
        before: "for (uint64_t i = 0; i < 8; i++) A[i] = i * 5 % 7 + 1; ",
        clause: "reduction(inscan, +: s) lastprivate(t)",
        loops: "for (uint64_t i = 1; i < 8; i += 2) { for (uint64_t j = 0; j < i; j++) s += A[j];\n#pragma omp scan inclusive(s)\nt = s + i; B[i] = t; }",
        output: "A = 1 6 4 2 7 5 3 1\nB = 0 2 0 15 0 37 0 67\ns = 60\nt = 67\n",
    },
    Row {
        before: "for (uint64_t u = 0; u < 3; u++) { for (uint64_t i = 0; i < 8; i++) A[i] += u + i; s = u;",
        clause: "reduction(inscan, +: s)",
        loops: "for (uint64_t i = 0; i < 8; i++) { B[i] += s;\n#pragma omp scan exclusive(s)\ns += A[i]; } t += s; }",
        output: "A = 3 6 9 12 15 18 21 24\nB = 3 7 17 33 55 83 117 157\ns = 110\nt = 203\n",
    },
    Row {
        before: "for (uint64_t i = 0; i < 8; i++) A[i] = i * 5 % 7 + 1; { uint64_t n = 7;",
        clause: "reduction(inscan, +: n)",
        loops: "for (uint64_t i = 0; i < 8; i++) { n += A[i];\n#pragma omp scan inclusive(n)\nB[i] = n; } t = n; }",
        output: "A = 1 6 4 2 7 5 3 1\nB = 8 14 18 20 27 32 35 36\ns = 0\nt = 36\n",
    },
    Row {
        before: "for (uint64_t i = 0; i < 8; i++) A[i] = i * 5 % 7 + 1; ",
        clause: "reduction(inscan, +: s)",
        loops: "for (uint64_t i = 2; i < 6; i++) { s += 2;\n#pragma omp scan inclusive(s)\nA[i] = A[i] + s; }",
        output: "A = 1 6 6 6 13 13 3 1\nB = 0 0 0 0 0 0 0 0\ns = 8\nt = 0\n",
    },
    Row {
        before: "",
        clause: "reduction(inscan, +: s)",
        loops: "for (uint64_t i = 0; i < 8; i++) { A[i] = i * i; s += A[i];\n#pragma omp scan inclusive(s)\nB[i] = s; }",
        output: "A = 0 1 4 9 16 25 36 49\nB = 0 1 5 14 30 55 91 140\ns = 140\nt = 0\n",
    },
];
