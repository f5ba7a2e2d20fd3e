//! Which of two faults is told: subscripts out of range, and those of one object.

use super::{Row, first_other_body, first_other_text};
use crate::outcome::no_other;

#[test]
fn first_subscript_out_of_range_is_told(rt: HostRuntime) {
    const ROWS: &[Row] = &[
        Row {
            text: "
A[8] = 1;
B[8] = 1;",
            number: 9,
            line: 2,
            column: 3,
        },
        Row {
            text: "
for (uint64_t i = 0; i < 8; i++) {
s = A[i + 1] + B[i + 1];
}",
            number: 9,
            line: 3,
            column: 7,
        },
        Row {
            text: "
#pragma omp parallel for
for (uint64_t i = 1; i < 8; i++) {
A[i] = A[i - 1];
}
A[8] = 1;",
            number: 9,
            line: 6,
            column: 3,
        },
        Row {
            text: "
#pragma omp parallel for
for (uint64_t i = 0; i < 4; i++) {
A[i] = A[7 - i];
B[8] = 1;
}",
            number: 9,
            line: 5,
            column: 3,
        },
    ];
    no_other(&rt, first_other_body(rt.alloc(), ROWS));
}

#[test]
fn ranges_come_behind_loops_and_data(rt: HostRuntime) {
    const ROWS: &[Row] = &[
        Row {
            text: "
A[8] = 1;
for (uint64_t j = 0; j; j++) {
}",
            number: 6,
            line: 3,
            column: 1,
        },
        Row {
            text: "
for (uint64_t i = 0; i < 9; i++) {
A[i] = 1;
}
B[s] = 1;",
            number: 8,
            line: 5,
            column: 3,
        },
        Row {
            text: "
uint64_t x;
A[8] = x;",
            number: 10,
            line: 3,
            column: 8,
        },
        Row {
            text: "
for (uint64_t i = 0; i < 4; i++) {
if (A[i + 5] < 1) A[i + 6] = 1; else A[i] = 1;
}",
            number: 9,
            line: 3,
            column: 7,
        },
    ];
    no_other(&rt, first_other_body(rt.alloc(), ROWS));
}

#[test]
fn first_subscript_of_an_object_is_told(rt: HostRuntime) {
    const ROWS: &[Row] = &[
        Row {
            text: "
uint64_t s;
uint64_t M[2][2];
void kernel(void) {
M[s][s] = 1;
}
",
            number: 8,
            line: 5,
            column: 3,
        },
        Row {
            text: "
uint64_t M[2][2];
void kernel(void) {
M[2][3] = 1;
}
",
            number: 9,
            line: 4,
            column: 3,
        },
    ];
    no_other(&rt, first_other_text(rt.alloc(), ROWS));
}
