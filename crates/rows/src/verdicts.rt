//! Verdicts on parallel loops, and what those write that are accepted.

use crate::kernels::is_written_by_each;
use crate::outcome::no_other;
use ktree::Refusal;
use ompk::{Checked, check, tell};
use seqrun_io::Memory;
use std::alloc::{AllocError, Global};
use std::sync::Wait;
use std::thread::Threads;

/// What is said of a kernel.
#[derive(Clone, Copy)]
enum Verdict {
    /// From this input this is written.
    Written(&'static str, &'static str),
    Accepted,
    /// Two iterations, and the element that both touch.
    Conflict(&'static str),
    NotShown,
}

use Verdict::{Accepted, Conflict, NotShown, Written};

/// Declarations, and the statements of a kernel with them.
#[derive(Clone, Copy)]
struct Row {
    declarations: &'static str,
    body: &'static str,
    verdict: Verdict,
}

/// The text with these declarations and this body.
fn text(alloc: Global, row: Row) -> Result<String, AllocError> {
    let (declarations, body) = (row.declarations, row.body);
    format!(in alloc; "{declarations}\nvoid kernel(void) {{\n{body}\n}}\n")
}

/// Whether the line of a refusal ends with these words.
fn ends_with(alloc: Global, refusal: &Refusal, words: &str) -> bool {
    let mut line = Memory::new(alloc);
    tell(refusal, &mut line).is_ok() && line.bytes().ends_with(words.as_bytes())
}

/// Whether a refusal is this verdict.
fn is_refused(alloc: Global, refusal: &Refusal, verdict: Verdict) -> bool {
    match verdict {
        Written(_, _) => false,
        Accepted => false,
        NotShown => refusal.number() == 20,
        Conflict(iterations) => refusal.number() == 19 && ends_with(alloc, refusal, iterations),
    }
}

/// Whether a kernel that is accepted has this verdict.
fn is_accepted<R: Threads + Wait + Sync>(
    rt: &R,
    alloc: Global,
    checked: &Checked,
    verdict: Verdict,
) -> bool {
    match verdict {
        Written(input, output) => {
            is_written_by_each(rt, alloc, checked, input.as_bytes(), output.as_bytes())
        }
        Accepted => true,
        Conflict(_) => false,
        NotShown => false,
    }
}

/// Whether this is said of a text.
fn is_said<R: Threads + Wait + Sync>(rt: &R, alloc: Global, text: &[u8], verdict: Verdict) -> bool {
    match check(alloc, text) {
        Ok(checked) => is_accepted(rt, alloc, &checked, verdict),
        Err(refusal) => is_refused(alloc, &refusal, verdict),
    }
}

/// Whether a row's verdict is said of its kernel.
fn holds<R: Threads + Wait + Sync>(rt: &R, alloc: Global, row: Row) -> bool {
    match text(alloc, row) {
        Ok(text) => is_said(rt, alloc, text.as_bytes(), row.verdict),
        Err(_error) => false,
    }
}

/// The first body of some rows of which something else is said.
fn first_other<R: Threads + Wait + Sync>(
    rt: &R,
    alloc: Global,
    rows: &[Row],
) -> Option<&'static str> {
    for row in rows {
        if !holds(rt, alloc, *row) {
            return Some(row.body);
        }
    }
    None
}

#[test]
fn maps_and_stencils(rt: HostRuntime) {
    const ROWS: &[Row] = &[
        Row {
            declarations: "uint64_t A[8];uint64_t B[8];",
            body: "#pragma omp parallel for\nfor (uint64_t i = 0; i < 8; i++) { A[i] = B[i] + 1ull; }",
            verdict: Written(
                "A 3 0 7 4 1 8 5 2\nB 5 2 9 6 3 0 7 4\n",
                "A = 6 3 10 7 4 1 8 5\nB = 5 2 9 6 3 0 7 4\n",
            ),
        },
        Row {
            declarations: "uint64_t A[8];",
            body: "#pragma omp parallel for\nfor (uint64_t i = 1; i < 7; i++) { A[i] = A[i-1] + A[i+1]; }",
            verdict: Conflict("iterations 0 and 1, element A[1]\n"),
        },
        Row {
            declarations: "uint64_t A[8];uint64_t B[8];",
            body: "#pragma omp parallel for\nfor (uint64_t i = 1; i < 7; i++) { B[i] = A[i-1] + A[i+1]; }",
            verdict: Written(
                "A 3 0 7 4 1 8 5 2\nB 5 2 9 6 3 0 7 4\n",
                "A = 3 0 7 4 1 8 5 2\nB = 5 10 4 8 12 6 10 4\n",
            ),
        },
        Row {
            declarations: "uint64_t A[8];",
            body: "#pragma omp parallel for\nfor (uint64_t i = 7; i > 0; i--) { A[i] = A[i-1]; }",
            verdict: Conflict("iterations 0 and 1, element A[6]\n"),
        },
        Row {
            declarations: "uint64_t A[8];uint64_t B[8];",
            body: "#pragma omp parallel for\nfor (uint64_t i = 1; i < 8; i++) { A[i] = A[i-1] + B[i]; }",
            verdict: Conflict("iterations 0 and 1, element A[1]\n"),
        },
        Row {
            declarations: "uint64_t A[16];",
            body: "#pragma omp parallel for\nfor (uint64_t i = 0; i < 8; i++) { A[i] = A[i] + A[i+8]; A[i+8] = A[i] - A[i+8]; }",
            verdict: Written(
                "A 3 0 7 4 1 8 5 2 9 6 3 0 7 4 1 8\n",
                "A = 12 6 10 4 8 12 6 10 3 0 7 4 1 8 5 2\n",
            ),
        },
    ];
    no_other(&rt, first_other(&rt, rt.alloc(), ROWS));
}

#[test]
fn transposes_and_reversals(rt: HostRuntime) {
    const ROWS: &[Row] = &[
        Row {
            declarations: "uint64_t A[4][4];uint64_t B[4][4];",
            body: "#pragma omp parallel for collapse(2)\nfor (uint64_t i = 0; i < 4; i++) for (uint64_t j = 0; j < 4; j++) { B[j][i] = A[i][j]; }",
            verdict: Written(
                "A 3 0 7 4 1 8 5 2 9 6 3 0 7 4 1 8\nB 5 2 9 6 3 0 7 4 1 8 5 2 9 6 3 0\n",
                "A = 3 0 7 4 1 8 5 2 9 6 3 0 7 4 1 8\nB = 3 1 9 7 0 8 6 4 7 5 3 1 4 2 0 8\n",
            ),
        },
        Row {
            declarations: "uint64_t A[4][4];",
            body: "#pragma omp parallel for collapse(2)\nfor (uint64_t i = 0; i < 4; i++) for (uint64_t j = 0; j < 4; j++) { A[j][i] = A[i][j]; }",
            verdict: Conflict("iterations 1 and 4, element A[1][0]\n"),
        },
        Row {
            declarations: "uint64_t A[8];",
            body: "#pragma omp parallel for\nfor (uint64_t i = 0; i < 8; i++) { A[i] = A[7-i]; }",
            verdict: Conflict("iterations 3 and 4, element A[3]\n"),
        },
        Row {
            declarations: "uint64_t A[8];uint64_t B[8];",
            body: "#pragma omp parallel for\nfor (uint64_t i = 0; i < 8; i++) { B[i] = A[7-i]; }",
            verdict: Written(
                "A 3 0 7 4 1 8 5 2\nB 5 2 9 6 3 0 7 4\n",
                "A = 3 0 7 4 1 8 5 2\nB = 2 5 8 1 4 7 0 3\n",
            ),
        },
        Row {
            declarations: "uint64_t A[8][8];",
            body: "#pragma omp parallel for\nfor (uint64_t i = 0; i < 8; i++) { A[i][i] = A[i][7-i]; }",
            verdict: Written(
                "A 3 0 7 4 1 8 5 2 9 6 3 0 7 4 1 8 5 2 9 6 3 0 7 4 1 8 5 2 9 6 3 0 7 4 1 8 5 2 9 6 3 0 7 4 1 8 5 2 9 6 3 0 7 4 1 8 5 2 9 6 3 0 7 4\n",
                "A = 2 0 7 4 1 8 5 2 9 1 3 0 7 4 1 8 5 2 0 6 3 0 7 4 1 8 5 9 9 6 3 0 7 4 1 8 8 2 9 6 3 0 7 4 1 7 5 2 9 6 3 0 7 4 6 8 5 2 9 6 3 0 7 5\n",
            ),
        },
    ];
    no_other(&rt, first_other(&rt, rt.alloc(), ROWS));
}

#[test]
fn strides(rt: HostRuntime) {
    const ROWS: &[Row] = &[
        Row {
            declarations: "uint64_t A[8];uint64_t B[16];",
            body: "#pragma omp parallel for\nfor (uint64_t i = 0; i < 8; i++) { B[2*i] = A[i]; B[2*i+1] = A[i]; }",
            verdict: Written(
                "A 3 0 7 4 1 8 5 2\nB 5 2 9 6 3 0 7 4 1 8 5 2 9 6 3 0\n",
                "A = 3 0 7 4 1 8 5 2\nB = 3 3 0 0 7 7 4 4 1 1 8 8 5 5 2 2\n",
            ),
        },
        Row {
            declarations: "uint64_t A[16];",
            body: "#pragma omp parallel for\nfor (uint64_t i = 0; i < 8; i++) { A[2*i] = A[2*i+1]; }",
            verdict: Written(
                "A 3 0 7 4 1 8 5 2 9 6 3 0 7 4 1 8\n",
                "A = 0 0 4 4 8 8 2 2 6 6 0 0 4 4 8 8\n",
            ),
        },
        Row {
            declarations: "uint64_t A[18];",
            body: "#pragma omp parallel for\nfor (uint64_t i = 0; i < 8; i++) { A[2*i] = A[2*i+1] + A[2*i+2]; }",
            verdict: Conflict("iterations 0 and 1, element A[2]\n"),
        },
        Row {
            declarations: "uint64_t A[8];",
            body: "#pragma omp parallel for\nfor (uint64_t i = 0; i < 3; i++) { A[2*i+1] = A[2*i+2]; }",
            verdict: Written("A 3 0 7 4 1 8 5 2\n", "A = 3 7 7 1 1 5 5 2\n"),
        },
        Row {
            declarations: "uint64_t A[16];",
            body: "#pragma omp parallel for\nfor (uint64_t i = 0; i < 4; i++) { A[3*i] = A[3*i+6]; }",
            verdict: Conflict("iterations 0 and 2, element A[6]\n"),
        },
        Row {
            declarations: "uint64_t A[16];",
            body: "#pragma omp parallel for\nfor (uint64_t i = 0; i < 2; i++) { A[3*i] = A[3*i+6]; }",
            verdict: Written(
                "A 3 0 7 4 1 8 5 2 9 6 3 0 7 4 1 8\n",
                "A = 5 0 7 6 1 8 5 2 9 6 3 0 7 4 1 8\n",
            ),
        },
    ];
    no_other(&rt, first_other(&rt, rt.alloc(), ROWS));
}

#[test]
fn matrices(rt: HostRuntime) {
    const ROWS: &[Row] = &[
        Row {
            declarations: "uint64_t A[4];uint64_t B[4];uint64_t C[4][4];",
            body: "#pragma omp parallel for collapse(2)\nfor (uint64_t i = 0; i < 4; i++) for (uint64_t j = 0; j < 4; j++) { C[i][j] = A[i] * B[j]; }",
            verdict: Written(
                "A 3 0 7 4\nB 5 2 9 6\nC 1 8 5 2 9 6 3 0 7 4 1 8 5 2 9 6\n",
                "A = 3 0 7 4\nB = 5 2 9 6\nC = 15 6 27 18 0 0 0 0 35 14 63 42 20 8 36 24\n",
            ),
        },
        Row {
            declarations: "uint64_t A[4][4];uint64_t B[4][4];uint64_t C[4][4];",
            body: "#pragma omp parallel for\nfor (uint64_t i = 0; i < 4; i++) for (uint64_t j = 0; j < 4; j++) for (uint64_t k = 0; k < 4; k++) { C[i][j] += A[i][k] * B[k][j]; }",
            verdict: Written(
                "A 3 0 7 4 1 8 5 2 9 6 3 0 7 4 1 8\nB 5 2 9 6 3 0 7 4 1 8 5 2 9 6 3 0\nC 1 8 5 2 9 6 3 0 7 4 1 8 5 2 9 6\n",
                "A = 3 0 7 4 1 8 5 2 9 6 3 0 7 4 1 8\nB = 5 2 9 6 3 0 7 4 1 8 5 2 9 6 3 0\nC = 59 94 79 34 61 60 99 48 73 46 139 92 125 72 129 66\n",
            ),
        },
        Row {
            declarations: "uint64_t A[4][4];uint64_t B[4][4];uint64_t C[4][4];",
            body: "#pragma omp parallel for\nfor (uint64_t k = 0; k < 4; k++) for (uint64_t i = 0; i < 4; i++) for (uint64_t j = 0; j < 4; j++) { C[i][j] += A[i][k] * B[k][j]; }",
            verdict: Conflict("iterations 0 and 1, element C[0][0]\n"),
        },
        Row {
            declarations: "uint64_t A[4][4];uint64_t S[4];",
            body: "#pragma omp parallel for\nfor (uint64_t i = 0; i < 4; i++) for (uint64_t j = 0; j < 4; j++) { S[i] += A[i][j]; }",
            verdict: Written(
                "A 3 0 7 4 1 8 5 2 9 6 3 0 7 4 1 8\nS 2 9 6 3\n",
                "A = 3 0 7 4 1 8 5 2 9 6 3 0 7 4 1 8\nS = 16 25 24 23\n",
            ),
        },
        Row {
            declarations: "uint64_t A[4][4];uint64_t S[4];",
            body: "#pragma omp parallel for\nfor (uint64_t i = 0; i < 4; i++) for (uint64_t j = 0; j < 4; j++) { S[j] += A[i][j]; }",
            verdict: Conflict("iterations 0 and 1, element S[0]\n"),
        },
    ];
    no_other(&rt, first_other(&rt, rt.alloc(), ROWS));
}

#[test]
fn triangles_and_rows(rt: HostRuntime) {
    const ROWS: &[Row] = &[
        Row {
            declarations: "uint64_t T[8][8];",
            body: "#pragma omp parallel for\nfor (uint64_t i = 0; i < 8; i++) for (uint64_t j = 0; j <= i; j++) { T[i][j] = 1; }",
            verdict: Written(
                "",
                "T = 1 0 0 0 0 0 0 0 1 1 0 0 0 0 0 0 1 1 1 0 0 0 0 0 1 1 1 1 0 0 0 0 1 1 1 1 1 0 0 0 1 1 1 1 1 1 0 0 1 1 1 1 1 1 1 0 1 1 1 1 1 1 1 1\n",
            ),
        },
        Row {
            declarations: "uint64_t A[64];",
            body: "#pragma omp parallel for\nfor (uint64_t i = 0; i < 8; i++) for (uint64_t j = 0; j <= i; j++) { A[8*i+j] = 1; }",
            verdict: Written(
                "",
                "A = 1 0 0 0 0 0 0 0 1 1 0 0 0 0 0 0 1 1 1 0 0 0 0 0 1 1 1 1 0 0 0 0 1 1 1 1 1 0 0 0 1 1 1 1 1 1 0 0 1 1 1 1 1 1 1 0 1 1 1 1 1 1 1 1\n",
            ),
        },
        Row {
            declarations: "uint64_t A[64];",
            body: "#pragma omp parallel for\nfor (uint64_t i = 0; i < 8; i++) for (uint64_t j = 0; j <= i; j++) { A[7*i+j] = 1; }",
            verdict: NotShown,
        },
        Row {
            declarations: "uint64_t A[16];",
            body: "#pragma omp parallel for collapse(2)\nfor (uint64_t i = 0; i < 3; i++) for (uint64_t j = 0; j < 4; j++) { A[4*i+j] = 1; }",
            verdict: Written("", "A = 1 1 1 1 1 1 1 1 1 1 1 1 0 0 0 0\n"),
        },
        Row {
            declarations: "uint64_t A[16];",
            body: "#pragma omp parallel for collapse(2)\nfor (uint64_t i = 0; i < 3; i++) for (uint64_t j = 0; j < 5; j++) { A[4*i+j] = 1; }",
            verdict: Conflict("iterations 4 and 5, element A[4]\n"),
        },
    ];
    no_other(&rt, first_other(&rt, rt.alloc(), ROWS));
}

#[test]
fn distances_and_guards(rt: HostRuntime) {
    const ROWS: &[Row] = &[
        Row {
            declarations: "uint64_t A[300];",
            body: "#pragma omp parallel for\nfor (uint64_t i = 0; i < 200; i++) { A[i] = A[i+100]; }",
            verdict: NotShown,
        },
        Row {
            declarations: "uint64_t A[400];",
            body: "#pragma omp parallel for\nfor (uint64_t i = 0; i < 200; i++) { A[i] = A[i+200]; }",
            verdict: Accepted,
        },
        Row {
            declarations: "uint64_t A[4];",
            body: "#pragma omp parallel for\nfor (uint64_t i = 0; i < 2; i++) { A[0] = i; }",
            verdict: Conflict("iterations 0 and 1, element A[0]\n"),
        },
        Row {
            declarations: "uint64_t A[4];",
            body: "#pragma omp parallel for\nfor (uint64_t i = 0; i < 1; i++) { A[0] = i; }",
            verdict: Written("A 9 0 7 4\n", "A = 0 0 7 4\n"),
        },
        Row {
            declarations: "uint64_t A[4];",
            body: "#pragma omp parallel for\nfor (uint64_t i = 0; i < 8; i++) { if (i > 3) A[0] = 1; }",
            verdict: Conflict("iterations 0 and 1, element A[0]\n"),
        },
    ];
    no_other(&rt, first_other(&rt, rt.alloc(), ROWS));
}

#[test]
fn serial_loops_round_parallel_ones(rt: HostRuntime) {
    const ROWS: &[Row] = &[
        Row {
            declarations: "uint64_t A[4];",
            body: "for (uint64_t t = 0; t < 3; t++)\n{\n#pragma omp parallel for\nfor (uint64_t i = 0; i < 4; i++) { A[i] = A[i] + t; } }",
            verdict: Written("A 3 0 7 4\n", "A = 6 3 10 7\n"),
        },
        Row {
            declarations: "uint64_t A[8];",
            body: "for (uint64_t t = 0; t < 2; t++)\n{\n#pragma omp parallel for\nfor (uint64_t i = 0; i < 4; i++) { A[4*t+i] = A[i]; } }",
            verdict: NotShown,
        },
    ];
    no_other(&rt, first_other(&rt, rt.alloc(), ROWS));
}

#[test]
fn values_that_come_in_and_go_out(rt: HostRuntime) {
    const ROWS: &[Row] = &[
        Row {
            declarations: "uint64_t A[4];",
            body: "for (uint64_t t = 0; t < 3; t++) {\n#pragma omp parallel for schedule(dynamic)\nfor (uint64_t i = 0; i < 4; i++) { A[i] = A[i] + t; } }",
            verdict: Written("", "A = 3 3 3 3\n"),
        },
        Row {
            declarations: "uint64_t A[2];uint64_t f;",
            body: "#pragma omp parallel for firstprivate(f)\nfor (uint64_t i = 0; i < 2; i++) { A[i] = f; }",
            verdict: Written("f 4\n", "A = 4 4\nf = 4\n"),
        },
        Row {
            declarations: "uint64_t A[3];uint64_t s;",
            body: "#pragma omp parallel for reduction(max: s)\nfor (uint64_t i = 0; i < 3; i++) { if (A[i] > s) s = A[i]; }",
            verdict: Written("A 3 9 4\ns 5\n", "A = 3 9 4\ns = 9\n"),
        },
        Row {
            declarations: "uint64_t A[2];uint64_t s;",
            body: "#pragma omp parallel for reduction(*: s)\nfor (uint64_t i = 0; i < 2; i++) { s *= A[i]; }",
            verdict: Written("A 3 4\ns 2\n", "A = 3 4\ns = 24\n"),
        },
        Row {
            declarations: "uint64_t A[2];uint64_t s;",
            body: "#pragma omp parallel for reduction(min: s)\nfor (uint64_t i = 0; i < 0; i++) { if (A[i] < s) s = A[i]; }",
            verdict: Written(
                "A 18446744073709551615 2\ns 9\n",
                "A = 18446744073709551615 2\ns = 9\n",
            ),
        },
        Row {
            declarations: "uint64_t A[2];uint64_t s;",
            body: "#pragma omp parallel for reduction(min: s)\nfor (uint64_t i = 0; i < 2; i++) { if (A[i] < s) s = A[i]; }",
            verdict: Written(
                "A 18446744073709551615 2\ns 9\n",
                "A = 18446744073709551615 2\ns = 2\n",
            ),
        },
        Row {
            declarations: "uint64_t A[5];uint64_t s;",
            body: "#pragma omp parallel for reduction(min: s) schedule(dynamic)\nfor (uint64_t i = 0; i < 5; i++) { if (A[i] < s) s = A[i]; }",
            verdict: Written("A 7 12 7 30 9\ns 6\n", "A = 7 12 7 30 9\ns = 6\n"),
        },
    ];
    no_other(&rt, first_other(&rt, rt.alloc(), ROWS));
}

#[test]
fn scans_over_arrays_and_bins(rt: HostRuntime) {
    const ROWS: &[Row] = &[
        Row {
            declarations: "uint64_t A[5];uint64_t B[5];uint64_t s;",
            body: "#pragma omp parallel for reduction(inscan, min: s)\nfor (uint64_t i = 0; i < 5; i++) { B[i] = s;\n#pragma omp scan exclusive(s)\nif (A[i] < s) s = A[i]; }",
            verdict: Written(
                "A 3 1 4 1 5\ns 9\n",
                "A = 3 1 4 1 5\nB = 9 3 1 1 1\ns = 1\n",
            ),
        },
        Row {
            declarations: "uint64_t A[5];uint64_t B[5];uint64_t s;",
            body: "#pragma omp parallel for reduction(inscan, min: s)\nfor (uint64_t i = 0; i < 5; i++) { B[i] = s;\n#pragma omp scan exclusive(s)\nif (A[i] < s) s = A[i]; }",
            verdict: Written(
                "A 3 1 4 1 5\ns 2\n",
                "A = 3 1 4 1 5\nB = 2 2 1 1 1\ns = 1\n",
            ),
        },
        Row {
            declarations: "uint64_t A[10];uint64_t H[4];uint64_t P[4];uint64_t s;",
            body: "for (uint64_t r = 0; r < 3; r++) {\n#pragma omp parallel for\nfor (uint64_t b = 0; b < 4; b++) { H[b] = 0; for (uint64_t i = 0; i < 10; i++) if ((A[i] + r) % 4 == b) H[b] += 1; }\n#pragma omp parallel for reduction(inscan, +: s)\nfor (uint64_t b = 0; b < 4; b++) { P[b] = s;\n#pragma omp scan exclusive(s)\ns += H[b]; } }",
            verdict: Written(
                "A 2 0 3 3 1 2 3 0 2 3\n",
                "A = 2 0 3 3 1 2 3 0 2 3\nH = 3 4 2 1\nP = 20 23 27 29\ns = 30\n",
            ),
        },
    ];
    no_other(&rt, first_other(&rt, rt.alloc(), ROWS));
}
