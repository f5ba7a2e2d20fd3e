//! Loops of each form: conditionals, inner loops, locals, collapsed loops, falling ones, and such inside serial loops.

use crate::schedules::Row;

/// What stands before each: two arrays.
pub(super) const DECLARATIONS: &str = "uint64_t A[6][6];\nuint64_t B[36];";

pub(super) const ROWS: &[Row] = &[
    Row {
        before: "",
        clause: "",
        loops: "for (uint64_t i = 0; i < 36; i++) { if (i % 3 == 1) B[i] = i * i; else if (i > 20) { B[i] = 7; } }",
        output: "A = 0 0 0 0 0 0 0 0 0 0 0 0 0 0 0 0 0 0 0 0 0 0 0 0 0 0 0 0 0 0 0 0 0 0 0 0\nB = 0 1 0 0 16 0 0 49 0 0 100 0 0 169 0 0 256 0 0 361 0 7 484 7 7 625 7 7 784 7 7 961 7 7 1156 7\n",
    },
    Row {
        before: "",
        clause: "",
        loops: "for (uint64_t i = 0; i < 6; i++) { uint64_t x = 1; for (uint64_t j = 0; j < 6; j++) { x += i * j; A[i][j] = x; } }",
        output: "A = 1 1 1 1 1 1 1 2 4 7 11 16 1 3 7 13 21 31 1 4 10 19 31 46 1 5 13 25 41 61 1 6 16 31 51 76\nB = 0 0 0 0 0 0 0 0 0 0 0 0 0 0 0 0 0 0 0 0 0 0 0 0 0 0 0 0 0 0 0 0 0 0 0 0\n",
    },
    Row {
        before: "",
        clause: "",
        loops: "for (uint64_t i = 0; i < 36; i++) { B[i] = i < 10 ? i : i > 20 && i % 2 ? 1 : 2; }",
        output: "A = 0 0 0 0 0 0 0 0 0 0 0 0 0 0 0 0 0 0 0 0 0 0 0 0 0 0 0 0 0 0 0 0 0 0 0 0\nB = 0 1 2 3 4 5 6 7 8 9 2 2 2 2 2 2 2 2 2 2 2 1 2 1 2 1 2 1 2 1 2 1 2 1 2 1\n",
    },
    Row {
        before: "",
        clause: "",
        loops: "for (uint64_t i = 0; i < 36; i++) { B[i] = ((i * 7 + 3) / 2 % 11 ^ i << 3 | i >> 1) & (~i - 5); }",
        output: "A = 0 0 0 0 0 0 0 0 0 0 0 0 0 0 0 0 0 0 0 0 0 0 0 0 0 0 0 0 0 0 0 0 0 0 0 0\nB = 0 9 24 17 38 32 48 51 66 64 80 79 110 109 100 99 138 136 136 131 166 161 160 163 192 193 192 221 206 204 220 219 274 281 280 275\n",
    },
    Row {
        before: "",
        clause: "",
        loops: "for (uint64_t i = 0; i < 36; i++) { B[i] = i; B[i] = B[i] + 1; B[i] *= B[i]; }",
        output: "A = 0 0 0 0 0 0 0 0 0 0 0 0 0 0 0 0 0 0 0 0 0 0 0 0 0 0 0 0 0 0 0 0 0 0 0 0\nB = 1 4 9 16 25 36 49 64 81 100 121 144 169 196 225 256 289 324 361 400 441 484 529 576 625 676 729 784 841 900 961 1024 1089 1156 1225 1296\n",
    },
    Row {
        before: "",
        clause: "collapse(2)",
        loops: "for (uint64_t i = 0; i < 6; i++) for (uint64_t j = 1; j < 6; j++) { A[i][j] = 10 * i + j; }",
        output: "A = 0 1 2 3 4 5 0 11 12 13 14 15 0 21 22 23 24 25 0 31 32 33 34 35 0 41 42 43 44 45 0 51 52 53 54 55\nB = 0 0 0 0 0 0 0 0 0 0 0 0 0 0 0 0 0 0 0 0 0 0 0 0 0 0 0 0 0 0 0 0 0 0 0 0\n",
    },
    Row {
        before: "for (uint64_t t = 0; t < 3; t++) {",
        clause: "",
        loops: "for (uint64_t i = 0; i < 36; i++) { B[i] = B[i] + t * i; }\n}",
        output: "A = 0 0 0 0 0 0 0 0 0 0 0 0 0 0 0 0 0 0 0 0 0 0 0 0 0 0 0 0 0 0 0 0 0 0 0 0\nB = 0 3 6 9 12 15 18 21 24 27 30 33 36 39 42 45 48 51 54 57 60 63 66 69 72 75 78 81 84 87 90 93 96 99 102 105\n",
    },
    Row {
        before: "",
        clause: "",
        loops: "for (uint64_t i = 35; i > 4; i -= 5) { B[i] = i + 1; }",
        output: "A = 0 0 0 0 0 0 0 0 0 0 0 0 0 0 0 0 0 0 0 0 0 0 0 0 0 0 0 0 0 0 0 0 0 0 0 0\nB = 0 0 0 0 0 6 0 0 0 0 11 0 0 0 0 16 0 0 0 0 21 0 0 0 0 26 0 0 0 0 31 0 0 0 0 36\n",
    },
    Row {
        before: "for (uint64_t n = 1; n < 6; n++) {",
        clause: "",
        loops: "for (uint64_t i = 0; i != n; i++) { A[n][i] = A[n - 1][i] + n; }\n}",
        output: "A = 0 0 0 0 0 0 1 0 0 0 0 0 3 2 0 0 0 0 6 5 3 0 0 0 10 9 7 4 0 0 15 14 12 9 5 0\nB = 0 0 0 0 0 0 0 0 0 0 0 0 0 0 0 0 0 0 0 0 0 0 0 0 0 0 0 0 0 0 0 0 0 0 0 0\n",
    },
    Row {
        before: "B[3] = 1;",
        clause: "",
        loops: "for (uint64_t i = 4; i < 4; i++) { B[i] = 2; }",
        output: "A = 0 0 0 0 0 0 0 0 0 0 0 0 0 0 0 0 0 0 0 0 0 0 0 0 0 0 0 0 0 0 0 0 0 0 0 0\nB = 0 0 0 1 0 0 0 0 0 0 0 0 0 0 0 0 0 0 0 0 0 0 0 0 0 0 0 0 0 0 0 0 0 0 0 0\n",
    },
    // The inner loop would wrap, but is never reached.
    Row {
        before: "B[3] = 1;",
        clause: "collapse(2)",
        loops: "for (uint64_t i = 3; i < 3; i++) for (uint64_t j = 5; j >= 0; j--) { A[i][j] = 2; }",
        output: "A = 0 0 0 0 0 0 0 0 0 0 0 0 0 0 0 0 0 0 0 0 0 0 0 0 0 0 0 0 0 0 0 0 0 0 0 0\nB = 0 0 0 1 0 0 0 0 0 0 0 0 0 0 0 0 0 0 0 0 0 0 0 0 0 0 0 0 0 0 0 0 0 0 0 0\n",
    },
    Row {
        before: "uint64_t x;",
        clause: "private(x)",
        loops: "for (uint64_t i = 0; i < 36; i++) { x = i * i; B[i] = x + 1; }",
        output: "A = 0 0 0 0 0 0 0 0 0 0 0 0 0 0 0 0 0 0 0 0 0 0 0 0 0 0 0 0 0 0 0 0 0 0 0 0\nB = 1 2 5 10 17 26 37 50 65 82 101 122 145 170 197 226 257 290 325 362 401 442 485 530 577 626 677 730 785 842 901 962 1025 1090 1157 1226\n",
    },
];
