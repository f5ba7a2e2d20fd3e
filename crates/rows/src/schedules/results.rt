//! Loops with reductions, last values and private scalars, local and at file scope.

use crate::schedules::Row;

/// What stands before each: an array of eight numbers, and scalars.
pub(super) const DECLARATIONS: &str = "uint64_t A[8];\nuint64_t s;\nuint64_t t;\nuint64_t x;";

pub(super) const ROWS: &[Row] = &[
    Row {
        before: "for (uint64_t k = 0; k < 8; k++) { A[k] = (k * 7 + 3) % 11; }\ns = 5;",
        clause: "reduction(+: s)",
        loops: "for (uint64_t i = 0; i < 8; i++) { s += A[i]; }",
        output: "A = 3 10 6 2 9 5 1 8\ns = 49\nt = 0\nx = 0\n",
    },
    Row {
        before: "for (uint64_t k = 0; k < 8; k++) { A[k] = (k * 7 + 3) % 11; }\ns = 2;",
        clause: "reduction(*: s)",
        loops: "for (uint64_t i = 0; i < 8; i++) { s = s * (A[i] + 1); }",
        output: "A = 3 10 6 2 9 5 1 8\ns = 1995840\nt = 0\nx = 0\n",
    },
    Row {
        before: "for (uint64_t k = 0; k < 8; k++) { A[k] = (k * 7 + 3) % 11; }\ns = 18446744073709551615ull;",
        clause: "reduction(&: s)",
        loops: "for (uint64_t i = 0; i < 8; i++) { s &= A[i] | 24; }",
        output: "A = 3 10 6 2 9 5 1 8\ns = 24\nt = 0\nx = 0\n",
    },
    Row {
        before: "for (uint64_t k = 0; k < 8; k++) { A[k] = (k * 7 + 3) % 11; }\ns = 16;",
        clause: "reduction(|: s)",
        loops: "for (uint64_t i = 0; i < 8; i++) { s = s | A[i] << 5; }",
        output: "A = 3 10 6 2 9 5 1 8\ns = 496\nt = 0\nx = 0\n",
    },
    Row {
        before: "for (uint64_t k = 0; k < 8; k++) { A[k] = (k * 7 + 3) % 11; }\ns = 9;",
        clause: "reduction(^: s)",
        loops: "for (uint64_t i = 0; i < 8; i++) { if (i != 4) s ^= A[i] << 3; }",
        output: "A = 3 10 6 2 9 5 1 8\ns = 1\nt = 0\nx = 0\n",
    },
    Row {
        before: "for (uint64_t k = 0; k < 8; k++) { A[k] = (k * 7 + 3) % 11; }\ns = 5;",
        clause: "reduction(&&: s)",
        loops: "for (uint64_t i = 0; i < 8; i++) { s = s && A[i] < 20; }",
        output: "A = 3 10 6 2 9 5 1 8\ns = 1\nt = 0\nx = 0\n",
    },
    Row {
        before: "for (uint64_t k = 0; k < 8; k++) { A[k] = (k * 7 + 3) % 11; }\ns = 5;",
        clause: "reduction(&&: s)",
        loops: "for (uint64_t i = 0; i < 8; i++) { if (A[i] > 9) s = s && A[i] - 10; }",
        output: "A = 3 10 6 2 9 5 1 8\ns = 0\nt = 0\nx = 0\n",
    },
    Row {
        before: "for (uint64_t k = 0; k < 8; k++) { A[k] = (k * 7 + 3) % 11; }\ns = 5;",
        clause: "reduction(&&: s)",
        loops: "for (uint64_t i = 0; i < 8; i++) { if (A[i] > 20) s = s && A[i]; }",
        output: "A = 3 10 6 2 9 5 1 8\ns = 5\nt = 0\nx = 0\n",
    },
    Row {
        before: "for (uint64_t k = 0; k < 8; k++) { A[k] = (k * 7 + 3) % 11; }\ns = 0;",
        clause: "reduction(||: s)",
        loops: "for (uint64_t i = 0; i < 8; i++) { s = s || A[i] == 10; }",
        output: "A = 3 10 6 2 9 5 1 8\ns = 1\nt = 0\nx = 0\n",
    },
    Row {
        before: "for (uint64_t k = 0; k < 8; k++) { A[k] = (k * 7 + 3) % 11; }\ns = 5;",
        clause: "reduction(||: s)",
        loops: "for (uint64_t i = 0; i < 8; i++) { s = s || A[i] == 20; }",
        output: "A = 3 10 6 2 9 5 1 8\ns = 1\nt = 0\nx = 0\n",
    },
    Row {
        before: "for (uint64_t k = 0; k < 8; k++) { A[k] = (k * 7 + 3) % 11; }\ns = 5;",
        clause: "reduction(||: s)",
        loops: "for (uint64_t i = 0; i < 0; i++) { s = s || A[i]; }",
        output: "A = 3 10 6 2 9 5 1 8\ns = 5\nt = 0\nx = 0\n",
    },
    Row {
        before: "for (uint64_t k = 0; k < 8; k++) { A[k] = (k * 7 + 3) % 11; }\ns = 5;",
        clause: "reduction(max: s)",
        loops: "for (uint64_t i = 0; i < 8; i++) { if (A[i] > s) s = A[i]; }",
        output: "A = 3 10 6 2 9 5 1 8\ns = 10\nt = 0\nx = 0\n",
    },
    Row {
        before: "for (uint64_t k = 0; k < 8; k++) { A[k] = (k * 7 + 3) % 11; }\ns = 9;",
        clause: "reduction(min: s)",
        loops: "for (uint64_t i = 0; i < 8; i++) { if (A[i] * 2 < s) { s = A[i] * 2; } }",
        output: "A = 3 10 6 2 9 5 1 8\ns = 2\nt = 0\nx = 0\n",
    },
    Row {
        before: "for (uint64_t k = 0; k < 8; k++) { A[k] = (k * 7 + 3) % 11; }\ns = 1;",
        clause: "reduction(+: s)",
        loops: "for (uint64_t i = 0; i < 8; i++) { s = s + (i + 1); }",
        output: "A = 3 10 6 2 9 5 1 8\ns = 37\nt = 0\nx = 0\n",
    },
    Row {
        before: "for (uint64_t k = 0; k < 8; k++) { A[k] = (k * 7 + 3) % 11; }\ns = 18446744073709551615ull;",
        clause: "reduction(+: s)",
        loops: "for (uint64_t i = 0; i < 8; i++) { s += i * 4611686018427387904ull; }",
        output: "A = 3 10 6 2 9 5 1 8\ns = 18446744073709551615\nt = 0\nx = 0\n",
    },
    Row {
        before: "for (uint64_t k = 0; k < 8; k++) { A[k] = (k * 7 + 3) % 11; }\nx = 7; s = 5;",
        clause: "lastprivate(x) reduction(&&: s)",
        loops: "for (uint64_t i = 0; i < 0; i++) { x = i; s = s && x; }",
        output: "A = 3 10 6 2 9 5 1 8\ns = 5\nt = 0\nx = 7\n",
    },
    Row {
        before: "for (uint64_t k = 0; k < 8; k++) { A[k] = (k * 7 + 3) % 11; }\n",
        clause: "lastprivate(x)",
        loops: "for (uint64_t i = 0; i < 5; i++) { x = 3*i; }",
        output: "A = 3 10 6 2 9 5 1 8\ns = 0\nt = 0\nx = 12\n",
    },
    Row {
        before: "for (uint64_t k = 0; k < 8; k++) { A[k] = (k * 7 + 3) % 11; }\n",
        clause: "lastprivate(x, t)",
        loops: "for (uint64_t i = 7; i > 1; i--) { if (A[i] > 4) { x = i; t = A[i]; } else { t = i; x = t + 40; } }",
        output: "A = 3 10 6 2 9 5 1 8\ns = 0\nt = 6\nx = 2\n",
    },
    Row {
        before: "for (uint64_t k = 0; k < 8; k++) { A[k] = (k * 7 + 3) % 11; }\ns = 3; t = 4;",
        clause: "reduction(+: s) reduction(max: t) lastprivate(x)",
        loops: "for (uint64_t i = 0; i < 8; i++) { x = A[i] * A[i]; s += x; if (x > t) t = x; A[i] = x + 1; }",
        output: "A = 10 101 37 5 82 26 2 65\ns = 323\nt = 100\nx = 64\n",
    },
    Row {
        before: "for (uint64_t k = 0; k < 8; k++) { A[k] = (k * 7 + 3) % 11; }\ns = 3; t = 100;",
        clause: "reduction(min: s, t)",
        loops: "for (uint64_t i = 0; i < 8; i++) { if (A[i] < s) s = A[i]; if (A[i] + 60 < t) t = A[i] + 60; }",
        output: "A = 3 10 6 2 9 5 1 8\ns = 1\nt = 61\nx = 0\n",
    },
    Row {
        before: "for (uint64_t k = 0; k < 8; k++) { A[k] = (k * 7 + 3) % 11; }\nuint64_t y = 3;",
        clause: "reduction(+: y)",
        loops: "for (uint64_t i = 0; i < 8; i++) { y += A[i] * i; }\ns = y;",
        output: "A = 3 10 6 2 9 5 1 8\ns = 154\nt = 0\nx = 0\n",
    },
    Row {
        before: "for (uint64_t k = 0; k < 8; k++) { A[k] = (k * 7 + 3) % 11; }\nuint64_t y = 0; uint64_t z = 6;",
        clause: "lastprivate(y) firstprivate(z)",
        loops: "for (uint64_t i = 0; i < 8; i++) { y = A[i] + z; A[i] = y; }\ns = y + z;",
        output: "A = 9 16 12 8 15 11 7 14\ns = 20\nt = 0\nx = 0\n",
    },
    Row {
        before: "for (uint64_t k = 0; k < 8; k++) { A[k] = (k * 7 + 3) % 11; }\nuint64_t y; s = 1;\nfor (uint64_t r = 0; r < 4; r++) {",
        clause: "private(y) reduction(+: s) lastprivate(x)",
        loops: "for (uint64_t i = 0; i < 8; i++) { y = A[i] + r; s += y; x = y * 2; A[i] = y % 13; }\nt = t + x;\n}",
        output: "A = 9 3 12 8 2 11 7 1\ns = 244\nt = 84\nx = 28\n",
    },
    Row {
        before: "for (uint64_t k = 0; k < 8; k++) { A[k] = (k * 7 + 3) % 11; }\ns = 1;",
        clause: "collapse(2) reduction(+: s) reduction(^: t)",
        loops: "for (uint64_t i = 0; i < 4; i++) for (uint64_t j = 1; j < 6; j++) { s += i * j; t ^= i + j; }",
        output: "A = 3 10 6 2 9 5 1 8\ns = 91\nt = 12\nx = 0\n",
    },
    Row {
        before: "for (uint64_t k = 0; k < 8; k++) { A[k] = (k * 7 + 3) % 11; }\ns = 1; x = 9;",
        clause: "reduction(+: s) lastprivate(x)",
        loops: "for (uint64_t i = 0; i < 6; i++) { x = 0; for (uint64_t j = 0; j < i; j++) { x += A[j]; s += A[j] * j; } }",
        output: "A = 3 10 6 2 9 5 1 8\ns = 125\nt = 0\nx = 30\n",
    },
    Row {
        before: "for (uint64_t k = 0; k < 8; k++) { A[k] = (k * 7 + 3) % 11; }\ns = 2;\nif (A[1] > 2) {",
        clause: "reduction(*: s) lastprivate(t)",
        loops: "for (uint64_t i = 2; i < 8; i += 3) { s *= 3; t = i; }\n}",
        output: "A = 3 10 6 2 9 5 1 8\ns = 18\nt = 5\nx = 0\n",
    },
    Row {
        before: "for (uint64_t k = 0; k < 8; k++) { A[k] = (k * 7 + 3) % 11; }\nuint64_t y = 3;\nfor (uint64_t r = 1; r < 5; r++) {",
        clause: "reduction(+: y)",
        loops: "for (uint64_t i = 0; i < 8; i++) { y += A[i] * r; }\nt = t * 3 + y;\n}\ns = y;",
        output: "A = 3 10 6 2 9 5 1 8\ns = 443\nt = 3728\nx = 0\n",
    },
    Row {
        before: "for (uint64_t k = 0; k < 8; k++) { A[k] = (k * 7 + 3) % 11; }\nuint64_t y = 1; uint64_t z = 40;\nfor (uint64_t r = 0; r < 3; r++) {",
        clause: "lastprivate(y) reduction(^: z)",
        loops: "for (uint64_t i = r; i < 8; i += 2) { uint64_t w = 0; for (uint64_t j = 0; j < i; j++) { w += A[j] + r; } y = w; z ^= w * (r + 1); }\ns += y; t = t * 5 + z;\n}\nx = y + z;",
        output: "A = 3 10 6 2 9 5 1 8\ns = 125\nt = 876\nx = 253\n",
    },
    Row {
        before: "for (uint64_t k = 0; k < 8; k++) { A[k] = (k * 7 + 3) % 11; }\nuint64_t y = 9; uint64_t z = 2;\nfor (uint64_t r = 0; r < 3; r++) {\ny = r + z; s += y;",
        clause: "private(y)",
        loops: "for (uint64_t i = 0; i < 8; i++) { y = A[i] * z; A[i] = y + r; }\ny = A[r]; t += y;\n}",
        output: "A = 28 84 52 20 76 44 12 68\ns = 9\nt = 99\nx = 0\n",
    },
    Row {
        before: "for (uint64_t k = 0; k < 8; k++) { A[k] = (k * 7 + 3) % 11; }\nuint64_t y = 7; uint64_t z = 6;",
        clause: "lastprivate(y) reduction(max: z)",
        loops: "for (uint64_t i = 3; i < 3; i++) { y = A[i]; if (y > z) z = y; }\ns = y; t = z;",
        output: "A = 3 10 6 2 9 5 1 8\ns = 7\nt = 6\nx = 0\n",
    },
    Row {
        before: "for (uint64_t k = 0; k < 8; k++) { A[k] = (k * 7 + 3) % 11; }\nuint64_t y = 1; uint64_t z = 5;\nfor (uint64_t r = 1; r < 4; r++) {",
        clause: "collapse(2) reduction(*: y) reduction(&&: z) lastprivate(x)",
        loops: "for (uint64_t i = 0; i < 3; i++) for (uint64_t j = 1; j < 3; j++) { y *= j + r; z = z && A[i] != r; x = i * j + r; }\ns += y; t = t * 2 + z;\n}",
        output: "A = 3 10 6 2 9 5 1 8\ns = 2986357464\nt = 6\nx = 7\n",
    },
    Row {
        before: "uint64_t r = 5;",
        clause: "reduction(+: r)",
        loops: "for (uint64_t i = 0; i < 400; i++) { r += i * i; }\ns = r;",
        output: "A = 0 0 0 0 0 0 0 0\ns = 21253405\nt = 0\nx = 0\n",
    },
    Row {
        before: "uint64_t r = 3;",
        clause: "reduction(*: r)",
        loops: "for (uint64_t i = 400; i > 0; i--) { r = r * (i | 1); }\ns = r;",
        output: "A = 0 0 0 0 0 0 0 0\ns = 17030765408817820435\nt = 0\nx = 0\n",
    },
    Row {
        before: "uint64_t r = 77;",
        clause: "reduction(^: r)",
        loops: "for (uint64_t i = 1; i < 1000; i += 3) { r ^= i << 3; }\ns = r;",
        output: "A = 0 0 0 0 0 0 0 0\ns = 2597\nt = 0\nx = 0\n",
    },
    Row {
        before: "uint64_t r = 9;",
        clause: "reduction(max: r)",
        loops: "for (uint64_t i = 0; i < 700; i++) { if (i * 7919 % 1009 > r) r = i * 7919 % 1009; }\ns = r;",
        output: "A = 0 0 0 0 0 0 0 0\ns = 1007\nt = 0\nx = 0\n",
    },
    Row {
        before: "uint64_t r = 600;",
        clause: "reduction(min: r)",
        loops: "for (uint64_t i = 699; i >= 100; i--) { if ((i ^ 341) < r) { r = i ^ 341; } }\ns = r;",
        output: "A = 0 0 0 0 0 0 0 0\ns = 0\nt = 0\nx = 0\n",
    },
    Row {
        before: "uint64_t r = 1;\nuint64_t q = 2;",
        clause: "reduction(+: r) reduction(|: q)",
        loops: "for (uint64_t i = 0; i < 30; i++) { for (uint64_t j = 0; j < 100; j++) { r += i * j; q |= j << 3; } }\ns = r;\nt = q;",
        output: "A = 0 0 0 0 0 0 0 0\ns = 2153251\nt = 1018\nx = 0\n",
    },
    Row {
        before: "uint64_t r = 8;",
        clause: "collapse(2) reduction(+: r)",
        loops: "for (uint64_t i = 0; i < 9; i++) { for (uint64_t j = 200; j > 50; j -= 2) { r += i * 1000 + j; } }\ns = r;",
        output: "A = 0 0 0 0 0 0 0 0\ns = 2785058\nt = 0\nx = 0\n",
    },
    Row {
        before: "uint64_t r = 0;",
        clause: "reduction(+: r) lastprivate(x)",
        loops: "for (uint64_t i = 0; i < 500; i++) { x = i * 3; r += x ^ 5; }\ns = r;",
        output: "A = 0 0 0 0 0 0 0 0\ns = 374258\nt = 0\nx = 1497\n",
    },
];
