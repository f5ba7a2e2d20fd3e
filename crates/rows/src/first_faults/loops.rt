//! Which of two faults is told: faults of loops and nests.

use super::{Row, first_other_body};
use crate::outcome::no_other;

#[test]
fn first_loop_at_fault_is_told(rt: HostRuntime) {
    const ROWS: &[Row] = &[
        Row {
            text: "
for (uint64_t i = 0; i; i++) {
for (uint64_t j = 0; j; j++) {
}
}",
            number: 6,
            line: 2,
            column: 1,
        },
        Row {
            text: "
for (uint64_t i = 0; i; i++) {
}
for (uint64_t j = 0; j; j++) {
}",
            number: 6,
            line: 2,
            column: 1,
        },
        Row {
            text: "
for (uint64_t i = 0; i < 2; i++) {
for (uint64_t j = 0; j < 2; ++i) {
}
}",
            number: 6,
            line: 2,
            column: 1,
        },
        Row {
            text: "
for (uint64_t i = 9; i >= 0; i--) {
}
for (uint64_t j = 0; j; j++) {
}",
            number: 7,
            line: 2,
            column: 1,
        },
        Row {
            text: "
for (uint64_t j = 0; j; j++) {
}
for (uint64_t i = 9; i >= 0; i--) {
}",
            number: 6,
            line: 2,
            column: 1,
        },
        Row {
            text: "
for (uint64_t i = s; i; i++) {
}",
            number: 6,
            line: 2,
            column: 1,
        },
        Row {
            text: "
A[4294967297ull + s] = 1;",
            number: 8,
            line: 2,
            column: 3,
        },
        Row {
            text: "
A[s] = 1;
B[s] = 1;",
            number: 8,
            line: 2,
            column: 3,
        },
        Row {
            text: "
A[s] = B[s];",
            number: 8,
            line: 2,
            column: 3,
        },
        Row {
            text: "
if (s) A[s] = 1; else B[s] = 1;",
            number: 8,
            line: 2,
            column: 10,
        },
    ];
    no_other(&rt, first_other_body(rt.alloc(), ROWS));
}

#[test]
fn first_nest_at_fault_is_told(rt: HostRuntime) {
    const ROWS: &[Row] = &[
        Row {
            text: "
#pragma omp parallel for collapse(2)
for (uint64_t i = 0; i < 8; i++) {
}
for (uint64_t j = 0; j; j++) {
}",
            number: 12,
            line: 3,
            column: 1,
        },
        Row {
            text: "
for (uint64_t j = 0; j; j++) {
}
#pragma omp parallel for collapse(2)
for (uint64_t i = 0; i < 8; i++) {
}",
            number: 6,
            line: 2,
            column: 1,
        },
        Row {
            text: "
#pragma omp parallel for collapse(2)
for (uint64_t i = 0; i; i++) {
}",
            number: 6,
            line: 3,
            column: 1,
        },
        // With a line between its loops, beside faults of data and of what comes behind in the text.
        Row {
            text: "
#pragma omp parallel for ordered(2)
for (uint64_t i = 1; i < 8; i++) {
#pragma omp ordered doacross(sink: i-1, j)
for (uint64_t j = 1; j < s; j++) {
A[s] = 1;
}
#pragma omp ordered doacross(source:)
}",
            number: 12,
            line: 3,
            column: 1,
        },
        Row {
            text: "
#pragma omp parallel for ordered collapse(2)
for (uint64_t i = 1; i < 8; i += A[0]) {
#pragma omp ordered
for (uint64_t j = 1; j < 8; j++) {
printf(\"a\");
}
}",
            number: 6,
            line: 3,
            column: 1,
        },
        Row {
            text: "
s = A[8];
#pragma omp parallel for collapse(2) reduction(inscan, +: s)
for (uint64_t i = 0; i < 16777217; i++) {
#pragma omp scan inclusive(s)
for (uint64_t j = 0; j < 8; j++) {
s = j;
}
}",
            number: 12,
            line: 4,
            column: 1,
        },
        // With a schedule, behind which no nest may be a triangle.
        Row {
            text: "
#pragma omp parallel for collapse(2) schedule(dynamic)
for (uint64_t i = 0; i < 4; i++)
for (uint64_t j = 0; j < i; j++) {
A[i * j] = 1;
}",
            number: 12,
            line: 4,
            column: 1,
        },
        Row {
            text: "
#pragma omp parallel for collapse(2) schedule(dynamic)
for (uint64_t i = 0; i < s; i++)
for (uint64_t j = 0; j < i; j++) {
}",
            number: 8,
            line: 3,
            column: 26,
        },
        Row {
            text: "
#pragma omp parallel for collapse(2) schedule(dynamic)
for (uint64_t i = 0; i < 4; i++)
for (uint64_t j = 0; j < i - 1; j++) {
}",
            number: 7,
            line: 4,
            column: 1,
        },
        Row {
            text: "
#pragma omp parallel for
for (uint64_t i = 0; i < 16777217; i++) {
for (uint64_t j = 0; j; j++) {
}
}",
            number: 21,
            line: 3,
            column: 1,
        },
        Row {
            text: "
uint64_t x;
s = x;
for (uint64_t i = 0; i; i++) {
}",
            number: 6,
            line: 4,
            column: 1,
        },
        Row {
            text: "
#pragma omp parallel for
for (uint64_t i = 0; i < 8; i++) {
s = i;
}
A[s] = 1;",
            number: 8,
            line: 6,
            column: 3,
        },
        Row {
            text: "
#pragma omp parallel for collapse(3) schedule(dynamic)
for (uint64_t i = 0; i < 4; i++)
for (uint64_t j = 0; j < i; j++)
for (uint64_t k = 0; k < s; k++) {
}",
            number: 12,
            line: 4,
            column: 1,
        },
        Row {
            text: "
#pragma omp parallel for collapse(2) schedule(dynamic)
for (uint64_t i = 0; i < 16777217; i++)
for (uint64_t j = 0; j < i; j++) {
}",
            number: 21,
            line: 3,
            column: 1,
        },
        Row {
            text: "
#pragma omp parallel for collapse(2)
for (uint64_t i = 0; i < 8; i++) { A[s] = 1; }",
            number: 12,
            line: 3,
            column: 1,
        },
        Row {
            text: "
#pragma omp parallel for collapse(2)
for (uint64_t i = 0; i < 8; i++) {
}
#pragma omp parallel for
for (uint64_t i = 0; i < 16777217; i++) {
}",
            number: 12,
            line: 3,
            column: 1,
        },
        Row {
            text: "
if (s) {
#pragma omp parallel for collapse(2)
for (uint64_t i = 0; i < 8; i++) {
}
} else {
#pragma omp parallel for
for (uint64_t i = 0; i < 16777217; i++) {
}
}",
            number: 12,
            line: 4,
            column: 1,
        },
    ];
    no_other(&rt, first_other_body(rt.alloc(), ROWS));
}
