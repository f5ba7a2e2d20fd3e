//! Doacross nests: what they write by teams of one worker and more and by one thread, what is listed of them, and how they are refused.

use crate::first_faults::told_of;
use crate::kernels::{is_written_by, is_written_by_thread};
use crate::outcome::no_other;
use ompk::{Checked, Sched, check};
use std::alloc::{AllocError, Global};
use std::sync::Wait;
use std::thread::Threads;

/// A variable, the statements of a kernel with it, and what that writes.
#[derive(Clone, Copy)]
struct Row {
    declarations: &'static str,
    body: &'static str,
    output: &'static str,
}

/// The text with these declarations and this body.
fn text(alloc: Global, declarations: &str, body: &str) -> Result<String, AllocError> {
    format!(in alloc; "{declarations}\nvoid kernel(void) {{\n{body}\n}}\n")
}

/// Whether teams of these sizes write this, and one thread too.
fn is_written<R: Threads + Wait + Sync>(
    rt: &R,
    alloc: Global,
    checked: &Checked,
    output: &str,
) -> bool {
    const TEAMS: [u64; 4] = [1, 2, 3, 64];
    for workers in TEAMS {
        let plain = Sched::PlainStatic;
        if !is_written_by(rt, alloc, checked, workers, &plain, output.as_bytes()) {
            return false;
        }
    }
    is_written_by_thread(alloc, checked, b"", output.as_bytes())
}

/// Whether the kernel of a text writes this by them.
fn writes<R: Threads + Wait + Sync>(rt: &R, alloc: Global, text: &[u8], output: &str) -> bool {
    match check(alloc, text) {
        Ok(checked) => is_written(rt, alloc, &checked, output),
        Err(_refusal) => false,
    }
}

/// Whether a row's kernel does.
fn holds<R: Threads + Wait + Sync>(rt: &R, alloc: Global, row: Row) -> bool {
    match text(alloc, row.declarations, row.body) {
        Ok(text) => writes(rt, alloc, text.as_bytes(), row.output),
        Err(_error) => false,
    }
}

/// The first body of some rows that writes something else.
fn first_other<R: Threads + Wait + Sync>(
    rt: &R,
    alloc: Global,
    rows: &[Row],
) -> Option<&'static str> {
    for row in rows {
        if !holds(rt, alloc, *row) {
            return Some(row.body);
        }
    }
    None
}

#[test]
fn chains_write_what_c_does(rt: HostRuntime) {
    const ROWS: &[Row] = &[
        Row {
            declarations: "uint64_t A[8];",
            body: "#pragma omp parallel for ordered(1)\nfor (uint64_t i = 2; i < 8; i++) {\n#pragma omp ordered doacross(sink: i-2)\nA[i] = A[i-2] + 1;\n#pragma omp ordered doacross(source:)\n}",
            output: "A = 0 0 1 1 2 2 3 3\n",
        },
        Row {
            declarations: "uint64_t A[8];",
            body: "#pragma omp parallel for ordered(1) schedule(dynamic)\nfor (uint64_t i = 2; i < 8; i++) {\n#pragma omp ordered doacross(sink: i-1)\nA[i] = A[i-2] + 1;\n#pragma omp ordered doacross(source:)\n}",
            output: "A = 0 0 1 1 2 2 3 3\n",
        },
        Row {
            declarations: "uint64_t A[8];",
            body: "#pragma omp parallel for ordered(1) schedule(static, 2)\nfor (uint64_t i = 2; i < 8; i++) {\n#pragma omp ordered doacross(sink: i-6)\nA[i] = A[i] + i;\n#pragma omp ordered doacross(source:)\n}",
            output: "A = 0 0 2 3 4 5 6 7\n",
        },
        Row {
            declarations: "uint64_t A[8];",
            body: "A[0] = 3;\n#pragma omp parallel for ordered(1) schedule(guided)\nfor (uint64_t i = 1; i < 8; i++) {\n#pragma omp ordered doacross(sink: i-1)\nA[i] = A[i-1] * 2 + i;\n#pragma omp ordered doacross(source:)\n}",
            output: "A = 3 7 16 35 74 153 312 631\n",
        },
        Row {
            declarations: "uint64_t A[8];",
            body: "A[0] = 3;\nfor (uint64_t t = 0; t < 3; t++) {\n#pragma omp parallel for ordered(1) schedule(runtime)\nfor (uint64_t i = 1; i < 8; i++) {\n#pragma omp ordered doacross(sink: i-1)\nA[i] += A[i-1] + t;\n#pragma omp ordered doacross(source:)\n} }",
            output: "A = 3 12 25 42 63 88 117 150\n",
        },
        Row {
            declarations: "uint64_t A[8];",
            body: "uint64_t x;\nA[0] = 1;\n#pragma omp parallel for ordered(1) private(x) schedule(dynamic, 2)\nfor (uint64_t i = 3; i < 8; i++) {\n#pragma omp ordered doacross(sink: i-1)\n#pragma omp ordered doacross(sink: i-3)\nx = A[i-1] + A[i-3];\nif (x > 2) A[i] = x; else A[i] = x + 1;\n#pragma omp ordered doacross(source:)\n}",
            output: "A = 1 0 0 2 3 3 5 8\n",
        },
        Row {
            declarations: "uint64_t A[8];",
            body: "#pragma omp parallel for ordered(1)\nfor (uint64_t i = 5; i < 5; i++) {\n#pragma omp ordered doacross(sink: i-1)\nA[i] = A[i-1];\n#pragma omp ordered doacross(source:)\n}",
            output: "A = 0 0 0 0 0 0 0 0\n",
        },
    ];
    no_other(&rt, first_other(&rt, rt.alloc(), ROWS));
}

#[test]
fn nests_write_what_c_does(rt: HostRuntime) {
    const ROWS: &[Row] = &[
        Row {
            declarations: "uint64_t B[4][5];",
            body: "#pragma omp parallel for ordered(2)\nfor (uint64_t i = 1; i < 4; i++) for (uint64_t j = 1; j < 4; j++) {\n#pragma omp ordered doacross(sink: i-1, j+1)\n#pragma omp ordered doacross(sink: i, j-1)\nB[i][j] = B[i-1][j+1] + B[i][j-1] + i * 10 + j;\n#pragma omp ordered doacross(source:)\n}",
            output: "B = 0 0 0 0 0 0 11 23 36 0 0 44 102 125 0 0 133 290 323 0\n",
        },
        Row {
            declarations: "uint64_t B[4][5];",
            body: "#pragma omp parallel for collapse(2)\nfor (uint64_t i = 0; i < 4; i++) for (uint64_t j = 0; j < 5; j++) { B[i][j] = i * j + 1; }\n#pragma omp parallel for ordered(2) schedule(dynamic)\nfor (uint64_t i = 1; i < 4; i++) for (uint64_t j = 1; j < 4; j++) {\n#pragma omp ordered doacross(sink: i-1, j)\n#pragma omp ordered doacross(sink: i, j-1)\nB[i][j] = B[i-1][j] + B[i][j-1];\n#pragma omp ordered doacross(source:)\n}",
            output: "B = 1 1 1 1 1 1 2 3 4 5 1 3 6 10 9 1 4 10 20 13\n",
        },
        Row {
            declarations: "uint64_t B[4][5];",
            body: "#pragma omp parallel for ordered(2) schedule(static, 1)\nfor (uint64_t i = 1; i < 4; i++) for (uint64_t j = 1; j < 4; j++) {\n#pragma omp ordered doacross(sink: i-1, j-1)\nfor (uint64_t k = 0; k < 2; k++) { B[i][j] += B[i-1][j-1] + k + i; }\n#pragma omp ordered doacross(source:)\n}",
            output: "B = 0 0 0 0 0 0 3 3 3 0 0 5 11 11 0 0 7 17 29 0\n",
        },
        Row {
            declarations: "uint64_t C[3][3][4];",
            body: "#pragma omp parallel for ordered(3)\nfor (uint64_t i = 1; i < 3; i++) for (uint64_t j = 1; j < 3; j++) for (uint64_t k = 1; k < 3; k++) {\n#pragma omp ordered doacross(sink: i-1, j, k)\n#pragma omp ordered doacross(sink: i, j-1, k+1)\n#pragma omp ordered doacross(sink: i, j, k-1)\nC[i][j][k] = C[i-1][j][k] + C[i][j-1][k+1] + C[i][j][k-1] + i * 4 + j * 2 + k;\n#pragma omp ordered doacross(source:)\n}",
            output: "C = 0 0 0 0 0 0 0 0 0 0 0 0 0 0 0 0 0 7 15 0 0 24 34 0 0 0 0 0 0 18 45 0 0 82 130 0\n",
        },
        Row {
            declarations: "uint64_t C[3][3][4];",
            body: "#pragma omp parallel\n{\n#pragma omp for ordered(3) schedule(guided, 2)\nfor (uint64_t i = 1; i < 3; i++) for (uint64_t j = 1; j < 3; j++) for (uint64_t k = 1; k < 3; k++) {\n#pragma omp ordered doacross(sink: i-1, j, k)\n#pragma omp ordered doacross(sink: i, j-1, k)\n#pragma omp ordered doacross(sink: i, j, k-1)\nC[i][j][k] = 1 + C[i-1][j][k] * 2 + C[i][j-1][k] + C[i][j][k-1];\n#pragma omp ordered doacross(source:)\n}\n#pragma omp for\nfor (uint64_t i = 0; i < 3; i++) { C[0][0][i] = i; }\n}",
            output: "C = 0 1 2 0 0 0 0 0 0 0 0 0 0 0 0 0 0 1 2 0 0 2 5 0 0 0 0 0 0 3 8 0 0 8 27 0\n",
        },
    ];
    no_other(&rt, first_other(&rt, rt.alloc(), ROWS));
}

/// The number of the refusal of the kernel of a body, or 0; 23 too where there is no memory for its text.
fn number_of(alloc: Global, body: &str) -> u8 {
    match text(
        alloc,
        "uint64_t s;\nuint64_t A[8];\nuint64_t B[1048580];\nuint64_t C[5][5];\nuint64_t E[5][5][2];",
        body,
    ) {
        Ok(text) => told_of(alloc, text.as_bytes()).0,
        Err(_error) => 23,
    }
}

/// The first body of some rows that is not refused by the number beside it.
fn first_other_number(alloc: Global, rows: &[(&'static str, u8)]) -> Option<&'static str> {
    for (body, number) in rows {
        if number_of(alloc, *body) != *number {
            return Some(*body);
        }
    }
    None
}

#[test]
fn sinks_and_sources_are_refused(rt: HostRuntime) {
    const ROWS: &[(&str, u8)] = &[
        (
            "#pragma omp parallel for ordered(1)\nfor (uint64_t i = 2; i < 8; i++) {\n#pragma omp ordered doacross(sink: i-3)\nA[i] = A[i-2] + 1;\n#pragma omp ordered doacross(source:)\n}",
            20,
        ),
        (
            "#pragma omp parallel for ordered(1)\nfor (uint64_t i = 2; i < 8; i++) {\n#pragma omp ordered doacross(sink: i+1)\nA[i] = A[i-2] + 1;\n#pragma omp ordered doacross(source:)\n}",
            18,
        ),
        (
            "#pragma omp parallel for ordered(1)\nfor (uint64_t i = 2; i < 8; i++) {\n#pragma omp ordered doacross(sink: i)\nA[i] = A[i-2] + 1;\n#pragma omp ordered doacross(source:)\n}",
            18,
        ),
        (
            "#pragma omp parallel for ordered(1)\nfor (uint64_t i = 2; i < 8; i++) {\nA[i] = A[i-2] + 1;\n#pragma omp ordered doacross(source:)\n}",
            18,
        ),
        (
            "#pragma omp parallel for ordered(1)\nfor (uint64_t i = 2; i < 8; i++) {\n#pragma omp ordered doacross(sink: i-2)\nA[i] = A[i-2] + 1;\n}",
            18,
        ),
        (
            "#pragma omp parallel for ordered(1)\nfor (uint64_t i = 2; i < 8; i++) {\n#pragma omp ordered doacross(sink: i-2)\n#pragma omp ordered doacross(source:)\nA[i] = A[i-2] + 1;\n}",
            18,
        ),
        (
            "#pragma omp parallel for ordered(1)\nfor (uint64_t i = 2; i < 8; i++) {\nA[i] = A[i-2] + 1;\n#pragma omp ordered doacross(sink: i-2)\n#pragma omp ordered doacross(source:)\n}",
            18,
        ),
        (
            "#pragma omp parallel for ordered(1)\nfor (uint64_t i = 2; i < 8; i++) {\n#pragma omp ordered doacross(sink: j-2)\nA[i] = A[i-2] + 1;\n#pragma omp ordered doacross(source:)\n}",
            18,
        ),
        (
            "#pragma omp parallel for ordered(1)\nfor (uint64_t i = 2; i < 8; i++) {\n#pragma omp ordered doacross(sink: i-2, i-1)\nA[i] = A[i-2] + 1;\n#pragma omp ordered doacross(source:)\n}",
            18,
        ),
    ];
    no_other(&rt, first_other_number(rt.alloc(), ROWS));
}

#[test]
fn nests_are_refused(rt: HostRuntime) {
    const ROWS: &[(&str, u8)] = &[
        (
            "#pragma omp parallel for ordered(1)\nfor (uint64_t i = 2; i < 8; i += 2) {\n#pragma omp ordered doacross(sink: i-2)\nA[i] = A[i-2] + 1;\n#pragma omp ordered doacross(source:)\n}",
            18,
        ),
        (
            "#pragma omp parallel for ordered(1)\nfor (uint64_t i = 7; i > 1; i--) {\n#pragma omp ordered doacross(sink: i-2)\nA[i] = A[i-2] + 1;\n#pragma omp ordered doacross(source:)\n}",
            18,
        ),
        (
            "for (uint64_t t = 0; t < 3; t++) {\n#pragma omp parallel for ordered(1)\nfor (uint64_t i = t + 2; i < 8; i++) {\n#pragma omp ordered doacross(sink: i-2)\nA[i] = A[i-2] + 1;\n#pragma omp ordered doacross(source:)\n} }",
            18,
        ),
        (
            "#pragma omp parallel for ordered(1) reduction(+: s)\nfor (uint64_t i = 2; i < 8; i++) {\n#pragma omp ordered doacross(sink: i-2)\nA[i] = A[i-2] + 1;\ns += A[i];\n#pragma omp ordered doacross(source:)\n}",
            18,
        ),
        (
            "uint64_t x;\n#pragma omp parallel for ordered(1) lastprivate(x)\nfor (uint64_t i = 2; i < 8; i++) {\n#pragma omp ordered doacross(sink: i-2)\nx = i;\nA[i] = A[i-2] + x;\n#pragma omp ordered doacross(source:)\n}",
            18,
        ),
        (
            "#pragma omp parallel for ordered(1) collapse(1)\nfor (uint64_t i = 2; i < 8; i++) {\n#pragma omp ordered doacross(sink: i-2)\nA[i] = A[i-2] + 1;\n#pragma omp ordered doacross(source:)\n}",
            18,
        ),
        (
            "#pragma omp parallel for ordered(1)\nfor (uint64_t i = 2; i < 8; i++) {\n#pragma omp ordered doacross(sink: i-2)\nA[i] = A[i-2] + 1;\nprintf(\"%\" PRIu64 \"\\n\", A[i]);\n#pragma omp ordered doacross(source:)\n}",
            18,
        ),
        (
            "#pragma omp parallel for ordered(2)\nfor (uint64_t i = 2; i < 8; i++) {\n#pragma omp ordered doacross(sink: i-2)\nA[i] = A[i-2] + 1;\n#pragma omp ordered doacross(source:)\n}",
            12,
        ),
        (
            "#pragma omp parallel for\nfor (uint64_t i = 2; i < 8; i++) {\n#pragma omp ordered doacross(sink: i-2)\nA[i] = i;\n#pragma omp ordered doacross(source:)\n}",
            18,
        ),
        (
            "#pragma omp parallel for ordered(1)\nfor (uint64_t i = 2; i < 1048579; i++) {\n#pragma omp ordered doacross(sink: i-2)\nB[i] = B[i-2] + 1;\n#pragma omp ordered doacross(source:)\n}",
            21,
        ),
        (
            "#pragma omp parallel for ordered(1)\nfor (uint64_t i = 2; i < 8; i++) {\n#pragma omp ordered doacross(sink: i-2)\ns = A[i-2];\nA[i] = s;\n#pragma omp ordered doacross(source:)\n}",
            14,
        ),
        (
            "#pragma omp parallel for ordered(1)\nfor (uint64_t i = 2; i < 8; i++) {\n#pragma omp ordered doacross(sink: i-2)\nA[0] = A[i-2] + 1;\n#pragma omp ordered doacross(source:)\n}",
            20,
        ),
        (
            "#pragma omp parallel for ordered(5)\nfor (uint64_t i = 2; i < 8; i++) {\n#pragma omp ordered doacross(sink: i-2)\nA[i] = A[i-2] + 1;\n#pragma omp ordered doacross(source:)\n}",
            21,
        ),
    ];
    no_other(&rt, first_other_number(rt.alloc(), ROWS));
}

#[test]
fn sinks_order_pairs_or_do_not(rt: HostRuntime) {
    const ROWS: &[(&str, u8)] = &[
        // Each distance is a whole number of steps of one sink.
        (
            "#pragma omp parallel for ordered(2)\nfor (uint64_t i = 1; i < 4; i++) for (uint64_t j = 1; j < 4; j++) {\n#pragma omp ordered doacross(sink: i-1, j)\n#pragma omp ordered doacross(sink: i, j-1)\nC[i][j] = C[i-1][j] + C[i][j-1];\n#pragma omp ordered doacross(source:)\n}",
            0,
        ),
        (
            "#pragma omp parallel for ordered(2)\nfor (uint64_t i = 2; i < 5; i++) for (uint64_t j = 2; j < 5; j++) {\n#pragma omp ordered doacross(sink: i-1, j-1)\nC[i][j] = C[i-2][j-2] + 1;\n#pragma omp ordered doacross(source:)\n}",
            0,
        ),
        (
            "#pragma omp parallel for ordered(2)\nfor (uint64_t i = 1; i < 4; i++) for (uint64_t j = 1; j < 4; j++) {\n#pragma omp ordered doacross(sink: i-1, j+1)\nC[i][j] = C[i-1][j+1] + 1;\n#pragma omp ordered doacross(source:)\n}",
            0,
        ),
        (
            "#pragma omp parallel for ordered(2)\nfor (uint64_t i = 1; i < 4; i++) for (uint64_t j = 1; j < 4; j++) {\n#pragma omp ordered doacross(sink: i, j-1)\nC[i][j] = C[i][j-1] + 1;\n#pragma omp ordered doacross(source:)\n}",
            0,
        ),
        // It is one of two sinks, a part of a step, or of another direction, though later.
        (
            "#pragma omp parallel for ordered(2)\nfor (uint64_t i = 1; i < 4; i++) for (uint64_t j = 1; j < 4; j++) {\n#pragma omp ordered doacross(sink: i-1, j)\n#pragma omp ordered doacross(sink: i, j-1)\nC[i][j] = C[i-1][j-1] + 1;\n#pragma omp ordered doacross(source:)\n}",
            20,
        ),
        (
            "#pragma omp parallel for ordered(2)\nfor (uint64_t i = 2; i < 5; i++) for (uint64_t j = 2; j < 5; j++) {\n#pragma omp ordered doacross(sink: i-1, j-1)\nC[i][j] = C[i-2][j-1] + 1;\n#pragma omp ordered doacross(source:)\n}",
            20,
        ),
        (
            "#pragma omp parallel for ordered(2)\nfor (uint64_t i = 1; i < 4; i++) for (uint64_t j = 1; j < 4; j++) {\n#pragma omp ordered doacross(sink: i-1, j)\nC[i][j] = C[i-1][j+1] + 1;\n#pragma omp ordered doacross(source:)\n}",
            20,
        ),
        (
            "#pragma omp parallel for ordered(2)\nfor (uint64_t i = 1; i < 4; i++) for (uint64_t j = 1; j < 4; j++) {\n#pragma omp ordered doacross(sink: i, j-1)\nC[i][j] = C[i-1][j] + 1;\n#pragma omp ordered doacross(source:)\n}",
            20,
        ),
        (
            "#pragma omp parallel for ordered(2)\nfor (uint64_t i = 1; i < 4; i++) for (uint64_t j = 1; j < 4; j++) {\n#pragma omp ordered doacross(sink: i-2, j)\nC[i][j] = C[i-1][j] + 1;\n#pragma omp ordered doacross(source:)\n}",
            20,
        ),
        // One counter stands nowhere, two stand in one subscript, or two dimensions say different things.
        (
            "#pragma omp parallel for ordered(2)\nfor (uint64_t i = 1; i < 4; i++) for (uint64_t j = 1; j < 4; j++) {\n#pragma omp ordered doacross(sink: i, j-1)\nC[2][j] = C[2][j-1] + 1;\n#pragma omp ordered doacross(source:)\n}",
            20,
        ),
        (
            "#pragma omp parallel for ordered(2)\nfor (uint64_t i = 1; i < 4; i++) for (uint64_t j = 1; j < 4; j++) {\n#pragma omp ordered doacross(sink: i-1, j)\nB[4*i+j] = B[4*i+j-4] + 1;\n#pragma omp ordered doacross(source:)\n}",
            20,
        ),
        (
            "#pragma omp parallel for ordered(1)\nfor (uint64_t i = 2; i < 5; i++) {\n#pragma omp ordered doacross(sink: i-1)\nE[i][i][0] = E[i-1][i-2][0] + 1;\n#pragma omp ordered doacross(source:)\n}",
            20,
        ),
    ];
    no_other(&rt, first_other_number(rt.alloc(), ROWS));
}

/// What is told of the kernel of a body, and where; 23 too where there is no memory for its text.
fn told_at(alloc: Global, body: &str) -> (u8, u32, u32) {
    match text(
        alloc,
        "uint64_t A[8]; uint64_t B[2][3]; uint64_t s; uint64_t x;",
        body,
    ) {
        Ok(text) => told_of(alloc, text.as_bytes()),
        Err(_error) => (23, 0, 0),
    }
}

/// The first body of some rows that is not refused by 18 at the place beside it.
fn first_other_place(alloc: Global, rows: &[(&'static str, u32, u32)]) -> Option<&'static str> {
    for (body, line, column) in rows {
        if told_at(alloc, *body) != (18, *line, *column) {
            return Some(*body);
        }
    }
    None
}

#[test]
fn nests_are_refused_at_their_directives(rt: HostRuntime) {
    const ROWS: &[(&str, u32, u32)] = &[
        // A loop that falls, goes by 2, or ends where a variable says.
        (
            "#pragma omp parallel for ordered(1)\nfor (uint64_t i = 7; i > 1; i--) {\n#pragma omp ordered doacross(sink: i-2)\nA[i] = 1;\n#pragma omp ordered doacross(source:)\n}",
            3,
            1,
        ),
        (
            "#pragma omp parallel for ordered(1)\nfor (uint64_t i = 2; i < 8; i += 2) {\n#pragma omp ordered doacross(sink: i-2)\nA[i] = 1;\n#pragma omp ordered doacross(source:)\n}",
            3,
            1,
        ),
        (
            "for (uint64_t k = 3; k < 5; k++)\n{\n#pragma omp parallel for ordered(1)\nfor (uint64_t i = 2; i < k; i++) {\n#pragma omp ordered doacross(sink: i-2)\nA[i] = 1;\n#pragma omp ordered doacross(source:)\n} }",
            5,
            1,
        ),
        // The second loop of two.
        (
            "#pragma omp parallel for ordered(2)\nfor (uint64_t i = 1; i < 2; i++) for (uint64_t j = 2; j > 0; j--) {\n#pragma omp ordered doacross(sink: i-1, j)\nB[i][j] = 1;\n#pragma omp ordered doacross(source:)\n}",
            3,
            1,
        ),
        // No sink, no source, or one in front of the other.
        (
            "#pragma omp parallel for ordered(1)\nfor (uint64_t i = 2; i < 8; i++) {\nA[i] = 1;\n#pragma omp ordered doacross(source:)\n}",
            3,
            1,
        ),
        (
            "#pragma omp parallel for ordered(1)\nfor (uint64_t i = 2; i < 8; i++) {\n#pragma omp ordered doacross(sink: i-2)\nA[i] = 1;\n}",
            3,
            1,
        ),
        (
            "#pragma omp parallel for ordered(1)\nfor (uint64_t i = 2; i < 8; i++) {\n#pragma omp ordered doacross(source:)\nA[i] = 1;\n#pragma omp ordered doacross(sink: i-2)\n}",
            3,
            1,
        ),
        // Clauses that do not go with it.
        (
            "#pragma omp parallel for ordered(1) collapse(1)\nfor (uint64_t i = 2; i < 8; i++) {\n#pragma omp ordered doacross(sink: i-2)\nA[i] = 1;\n#pragma omp ordered doacross(source:)\n}",
            3,
            1,
        ),
        (
            "#pragma omp parallel for ordered(1) reduction(+: s)\nfor (uint64_t i = 2; i < 8; i++) {\n#pragma omp ordered doacross(sink: i-2)\nA[i] = 1; s += 1;\n#pragma omp ordered doacross(source:)\n}",
            3,
            1,
        ),
        (
            "#pragma omp parallel for ordered(1) lastprivate(x)\nfor (uint64_t i = 2; i < 8; i++) {\n#pragma omp ordered doacross(sink: i-2)\nx = i; A[i] = x;\n#pragma omp ordered doacross(source:)\n}",
            3,
            1,
        ),
    ];
    no_other(&rt, first_other_place(rt.alloc(), ROWS));
}

#[test]
fn sinks_and_sources_are_refused_at_their_places(rt: HostRuntime) {
    const ROWS: &[(&str, u32, u32)] = &[
        // In no nest.
        (
            "#pragma omp parallel for\nfor (uint64_t i = 2; i < 8; i++) {\nA[i] = 1;\n#pragma omp ordered doacross(source:)\n}",
            6,
            1,
        ),
        (
            "for (uint64_t i = 2; i < 8; i++) {\n#pragma omp ordered doacross(sink: i-2)\nA[i] = 1; }",
            4,
            1,
        ),
        // Behind a statement, in an inner one, and a second source.
        (
            "#pragma omp parallel for ordered(1)\nfor (uint64_t i = 2; i < 8; i++) {\n#pragma omp ordered doacross(sink: i-2)\nA[i] = 1;\n#pragma omp ordered doacross(sink: i-1)\nA[i] = 2;\n#pragma omp ordered doacross(source:)\n}",
            7,
            1,
        ),
        (
            "#pragma omp parallel for ordered(1)\nfor (uint64_t i = 2; i < 8; i++) {\n#pragma omp ordered doacross(sink: i-2)\nif (i > 4) {\n#pragma omp ordered doacross(source:)\nA[i] = 2; }\n#pragma omp ordered doacross(source:)\n}",
            7,
            1,
        ),
        (
            "#pragma omp parallel for ordered(1)\nfor (uint64_t i = 2; i < 8; i++) {\n#pragma omp ordered doacross(sink: i-2)\n#pragma omp ordered doacross(source:)\nA[i] = 1;\n#pragma omp ordered doacross(source:)\n}",
            6,
            1,
        ),
    ];
    no_other(&rt, first_other_place(rt.alloc(), ROWS));
}

#[test]
fn sinks_of_no_earlier_iteration_are_refused_at_their_places(rt: HostRuntime) {
    const ROWS: &[(&str, u32, u32)] = &[
        // The iteration itself, a later one, and one that is later in the first loop.
        (
            "#pragma omp parallel for ordered(1)\nfor (uint64_t i = 2; i < 8; i++) {\n#pragma omp ordered doacross(sink: i)\nA[i] = 1;\n#pragma omp ordered doacross(source:)\n}",
            5,
            1,
        ),
        (
            "#pragma omp parallel for ordered(1)\nfor (uint64_t i = 2; i < 8; i++) {\n#pragma omp ordered doacross(sink: i-1)\n#pragma omp ordered doacross(sink: i+1)\nA[i] = 1;\n#pragma omp ordered doacross(source:)\n}",
            6,
            1,
        ),
        (
            "#pragma omp parallel for ordered(2)\nfor (uint64_t i = 1; i < 2; i++) for (uint64_t j = 1; j < 3; j++) {\n#pragma omp ordered doacross(sink: i+1, j-1)\nB[i][j] = 1;\n#pragma omp ordered doacross(source:)\n}",
            5,
            1,
        ),
        (
            "#pragma omp parallel for ordered(2)\nfor (uint64_t i = 1; i < 2; i++) for (uint64_t j = 1; j < 3; j++) {\n#pragma omp ordered doacross(sink: i, j+1)\nB[i][j] = 1;\n#pragma omp ordered doacross(source:)\n}",
            5,
            1,
        ),
        // Fewer elements and more.
        (
            "#pragma omp parallel for ordered(2)\nfor (uint64_t i = 1; i < 2; i++) for (uint64_t j = 1; j < 3; j++) {\n#pragma omp ordered doacross(sink: i-1)\nB[i][j] = 1;\n#pragma omp ordered doacross(source:)\n}",
            5,
            1,
        ),
        (
            "#pragma omp parallel for ordered(1)\nfor (uint64_t i = 2; i < 8; i++) {\n#pragma omp ordered doacross(sink: i-1, i-1)\nA[i] = 1;\n#pragma omp ordered doacross(source:)\n}",
            5,
            1,
        ),
        // Other names, and the right ones in another order.
        (
            "#pragma omp parallel for ordered(1)\nfor (uint64_t i = 2; i < 8; i++) {\n#pragma omp ordered doacross(sink: k-1)\nA[i] = 1;\n#pragma omp ordered doacross(source:)\n}",
            5,
            36,
        ),
        (
            "#pragma omp parallel for ordered(2)\nfor (uint64_t i = 1; i < 2; i++) for (uint64_t j = 1; j < 3; j++) {\n#pragma omp ordered doacross(sink: i-1, x)\nB[i][j] = 1;\n#pragma omp ordered doacross(source:)\n}",
            5,
            41,
        ),
        (
            "#pragma omp parallel for ordered(2)\nfor (uint64_t i = 1; i < 2; i++) for (uint64_t j = 1; j < 3; j++) {\n#pragma omp ordered doacross(sink: j-1, i)\nB[i][j] = 1;\n#pragma omp ordered doacross(source:)\n}",
            5,
            36,
        ),
    ];
    no_other(&rt, first_other_place(rt.alloc(), ROWS));
}

#[test]
fn nests_that_print_are_refused_at_their_places(rt: HostRuntime) {
    const ROWS: &[(&str, u32, u32)] = &[
        // A `printf` is told, and of two faults the first.
        (
            "#pragma omp parallel for ordered(1)\nfor (uint64_t i = 2; i < 8; i++) {\n#pragma omp ordered doacross(sink: i-2)\nA[i] = 1; printf(\"a\");\n#pragma omp ordered doacross(source:)\n}",
            6,
            11,
        ),
        (
            "#pragma omp parallel for ordered(1)\nfor (uint64_t i = 2; i < 8; i++) {\n#pragma omp ordered doacross(sink: i-2)\nif (i > 3) { A[i] = 1; } else printf(\"a\");\n#pragma omp ordered doacross(source:)\n}",
            6,
            31,
        ),
        (
            "#pragma omp parallel for ordered(1)\nfor (uint64_t i = 2; i < 8; i++) {\n#pragma omp ordered doacross(sink: i+2)\nprintf(\"a\");\n#pragma omp ordered doacross(source:)\n}",
            5,
            1,
        ),
        (
            "#pragma omp parallel for ordered(1)\nfor (uint64_t i = 2; i < 8; i++) {\n#pragma omp ordered doacross(sink: i-2)\nprintf(\"a\");\n#pragma omp ordered doacross(sink: i-1)\n#pragma omp ordered doacross(source:)\n}",
            6,
            1,
        ),
    ];
    no_other(&rt, first_other_place(rt.alloc(), ROWS));
}
