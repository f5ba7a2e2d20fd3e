//! Which of two faults is told: faults of declarations, names and sorts.

use super::{Row, first_other_body, first_other_text};
use crate::outcome::no_other;

#[test]
fn first_fault_at_file_scope_is_told(rt: HostRuntime) {
    const ROWS: &[Row] = &[
        Row {
            text: "
enum { E = -1 };
void kernel(void) {
}
",
            number: 2,
            line: 2,
            column: 12,
        },
        Row {
            text: "
uint64_t s;
uint64_t s[4096][4097];
void kernel(void) {
}
",
            number: 4,
            line: 3,
            column: 10,
        },
        Row {
            text: "
uint64_t A[4096][4097];
void kernel(void) {
A[0][0] = t;
}
",
            number: 21,
            line: 2,
            column: 10,
        },
    ];
    no_other(&rt, first_other_text(rt.alloc(), ROWS));
}

#[test]
fn first_fault_of_names_is_told(rt: HostRuntime) {
    const ROWS: &[Row] = &[
        Row {
            text: "
t = 1;
u = 2;",
            number: 3,
            line: 2,
            column: 1,
        },
        Row {
            text: "
uint64_t s;
t = 1;",
            number: 4,
            line: 2,
            column: 10,
        },
        Row {
            text: "
s = ~0;
s = 2147483648;",
            number: 5,
            line: 2,
            column: 5,
        },
        Row {
            text: "
s = 1 << t;",
            number: 5,
            line: 2,
            column: 7,
        },
        Row {
            text: "
A[t < 1] = 1;",
            number: 5,
            line: 2,
            column: 1,
        },
        Row {
            text: "
t[s < 1] = 1;",
            number: 3,
            line: 2,
            column: 1,
        },
        Row {
            text: "
#pragma omp simd
for (uint64_t i = 0; i < 8; i++) {
A[i] = t;
}",
            number: 3,
            line: 4,
            column: 8,
        },
    ];
    no_other(&rt, first_other_body(rt.alloc(), ROWS));
}
