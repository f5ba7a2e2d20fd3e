//! Parallel loops that print in ordered regions (OpenMP 5.2, 15.10).

use crate::schedules::Row;

/// What stands before each: two arrays, and scalars.
pub(super) const DECLARATIONS: &str = "uint64_t A[8];\nuint64_t B[3][4];\nuint64_t s;\nuint64_t t;";

pub(super) const ROWS: &[Row] = &[
    Row {
        before: "",
        clause: "ordered",
        loops: "for (uint64_t i = 0; i < 8; i++) { A[i] = i * i;\n#pragma omp ordered\n{ printf(\"%\" PRIu64 \": %\" PRIu64 \" 100%%\\n\", i, A[i]); printf(\"next \\\\ %\" PRIu64 \"\\n\", i + 1); } }",
        output: "0: 0 100%\nnext \\ 1\n1: 1 100%\nnext \\ 2\n2: 4 100%\nnext \\ 3\n3: 9 100%\nnext \\ 4\n4: 16 100%\nnext \\ 5\n5: 25 100%\nnext \\ 6\n6: 36 100%\nnext \\ 7\n7: 49 100%\nnext \\ 8\nA = 0 1 4 9 16 25 36 49\nB = 0 0 0 0 0 0 0 0 0 0 0 0\ns = 0\nt = 0\n",
    },
    Row {
        before: "",
        clause: "ordered",
        loops: "for (uint64_t i = 7; i >= 1; i--) { A[i] = i + 3; if (A[i] % 3 == 1) {\n#pragma omp ordered\nprintf(\"%\" PRIu64 \" \", A[i]); } else A[i] = 1; }",
        output: "10 7 4 A = 0 4 1 1 7 1 1 10\nB = 0 0 0 0 0 0 0 0 0 0 0 0\ns = 0\nt = 0\n",
    },
    Row {
        before: "",
        clause: "ordered reduction(+: s) lastprivate(t)",
        loops: "for (uint64_t i = 0; i < 8; i++) { t = i * 2; s += t;\n#pragma omp ordered\nprintf(\"<%\" PRIu64 \">\", t); }",
        output: "<0><2><4><6><8><10><12><14>A = 0 0 0 0 0 0 0 0\nB = 0 0 0 0 0 0 0 0 0 0 0 0\ns = 56\nt = 14\n",
    },
    Row {
        before: "",
        clause: "ordered collapse(2)",
        loops: "for (uint64_t i = 0; i < 3; i++) for (uint64_t j = 0; j < 4; j++) { B[i][j] = i * 10 + j;\n#pragma omp ordered\nprintf(\"%\" PRIu64 \",\", B[i][j]); }",
        output: "0,1,2,3,10,11,12,13,20,21,22,23,A = 0 0 0 0 0 0 0 0\nB = 0 1 2 3 10 11 12 13 20 21 22 23\ns = 0\nt = 0\n",
    },
    Row {
        before: "printf(\"begin\\n\"); for (uint64_t u = 0; u < 3; u++) {",
        clause: "ordered",
        loops: "for (uint64_t i = u; i < 6; i++) { A[i] += u;\n#pragma omp ordered\nprintf(\"%\" PRIu64 \"/%\" PRIu64 \" \", u, A[i]); } printf(\"\\n\"); } printf(\"end\\n\");",
        output: "begin\n0/0 0/0 0/0 0/0 0/0 0/0 \n1/1 1/1 1/1 1/1 1/1 \n2/3 2/3 2/3 2/3 \nend\nA = 0 1 3 3 3 3 0 0\nB = 0 0 0 0 0 0 0 0 0 0 0 0\ns = 0\nt = 0\n",
    },
    Row {
        before: "",
        clause: "ordered",
        loops: "for (uint64_t i = 0; i < 0; i++) {\n#pragma omp ordered\nprintf(\"none\\n\"); }",
        output: "A = 0 0 0 0 0 0 0 0\nB = 0 0 0 0 0 0 0 0 0 0 0 0\ns = 0\nt = 0\n",
    },
    Row {
        before: "uint64_t x;",
        clause: "ordered private(x)",
        loops: "for (uint64_t i = 0; i < 8; i++) { x = 0; for (uint64_t j = 0; j <= i; j++) x += j; A[i] = x;\n#pragma omp ordered\nprintf(\"%\" PRIu64 \"\\n\", x + A[i]); }",
        output: "0\n2\n6\n12\n20\n30\n42\n56\nA = 0 1 3 6 10 15 21 28\nB = 0 0 0 0 0 0 0 0 0 0 0 0\ns = 0\nt = 0\n",
    },
    Row {
        before: "",
        clause: "ordered",
        loops: "for (uint64_t i = 0; i < 8; i++) { if (i % 2 == 0) A[i] = i; else {\n#pragma omp ordered\n{ } } }",
        output: "A = 0 0 2 0 4 0 6 0\nB = 0 0 0 0 0 0 0 0 0 0 0 0\ns = 0\nt = 0\n",
    },
];
