//! Which of two faults is told: loops that are not independent, and pairs of accesses.

use super::{Row, first_other_body, first_other_line};
use crate::outcome::no_other;

#[test]
fn first_loop_that_is_not_independent_is_told(rt: HostRuntime) {
    const ROWS: &[Row] = &[
        Row {
            text: "
#pragma omp parallel for
for (uint64_t i = 0; i < 4; i++) {
A[i] = A[7 - i];
}
#pragma omp parallel for
for (uint64_t i = 1; i < 8; i++) {
A[i] = A[i - 1];
}",
            number: 20,
            line: 4,
            column: 1,
        },
        Row {
            text: "
#pragma omp parallel for
for (uint64_t i = 1; i < 8; i++) {
A[i] = A[i - 1];
}
#pragma omp parallel for
for (uint64_t i = 0; i < 4; i++) {
A[i] = A[7 - i];
}",
            number: 19,
            line: 4,
            column: 1,
        },
        Row {
            text: "
#pragma omp parallel for
for (uint64_t i = 1; i < 8; i++) {
B[i] = B[i - 1];
A[i] = A[i - 1];
}",
            number: 19,
            line: 4,
            column: 1,
        },
        Row {
            text: "
#pragma omp parallel for
for (uint64_t i = 1; i < 8; i++) {
A[i] = 1;
B[i] = B[i - 1];
uint64_t x = A[i - 1];
}",
            number: 19,
            line: 4,
            column: 1,
        },
        Row {
            text: "
#pragma omp parallel for
for (uint64_t i = 0; i < 4; i++) {
A[i] = A[7 - i];
B[0] = i;
}",
            number: 20,
            line: 4,
            column: 1,
        },
        Row {
            text: "
#pragma omp parallel for
for (uint64_t i = 0; i < 4; i++) {
B[0] = i;
A[i] = A[7 - i];
}",
            number: 19,
            line: 4,
            column: 1,
        },
        // With each step of `t` the subscripts change by 2^62 and -2^62: the equation of the two passes the limit.
        Row {
            text: "
for (uint64_t t = 0; t < 1; t += 1073741824) {
#pragma omp parallel for
for (uint64_t i = 0; i < 8; i++) {
A[i + 4294967296ull * t] = A[i - 4294967296ull * t];
B[0] = i;
}
}",
            number: 21,
            line: 5,
            column: 1,
        },
        Row {
            text: "
for (uint64_t t = 0; t < 1; t += 1073741824) {
#pragma omp parallel for
for (uint64_t i = 0; i < 8; i++) {
B[0] = i;
A[i + 4294967296ull * t] = A[i - 4294967296ull * t];
}
}",
            number: 19,
            line: 5,
            column: 1,
        },
        // With each step of `t` the subscript changes by more than 2^62: the access has no form in the counters.
        Row {
            text: "
for (uint64_t t = 0; t < 1; t += 2147483647) {
#pragma omp parallel for
for (uint64_t i = 0; i < 8; i++) {
A[i] = A[i + 4294967296ull * t];
A[7 - i] = i;
}
}",
            number: 19,
            line: 5,
            column: 1,
        },
        Row {
            text: "
for (uint64_t t = 0; t < 1; t += 2147483647) {
#pragma omp parallel for
for (uint64_t i = 0; i < 8; i++) {
A[i] = 1;
uint64_t x = A[i + 4294967296ull * t];
B[0] = i;
}
}",
            number: 21,
            line: 6,
            column: 14,
        },
        Row {
            text: "
if (s) {
#pragma omp parallel for
for (uint64_t i = 0; i < 4; i++) {
A[i] = A[7 - i];
}
} else {
#pragma omp parallel for
for (uint64_t i = 1; i < 8; i++) {
A[i] = A[i - 1];
}
}",
            number: 20,
            line: 5,
            column: 1,
        },
    ];
    no_other(&rt, first_other_body(rt.alloc(), ROWS));
}

#[test]
fn first_pair_of_accesses_is_told(rt: HostRuntime) {
    const ROWS: &[(&str, &str)] = &[
        (
            "
#pragma omp parallel for
for (uint64_t i = 1; i < 7; i++) {
A[i] = A[i + 1] + A[i - 1];
}",
            "K19 4:1 conflict: A at 4:1 and 4:8, iterations 0 and 1, element A[2]\n",
        ),
        (
            "
#pragma omp parallel for
for (uint64_t i = 0; i < 8; i++) {
A[0] = A[i];
}",
            "K19 4:1 conflict: A at 4:1 and 4:1, iterations 0 and 1, element A[0]\n",
        ),
        (
            "
#pragma omp parallel for
for (uint64_t i = 0; i < 4; i++) {
A[i] = A[7 - i] + A[0];
}",
            "K20 4:1 not shown: A at 4:1 and 4:8\n",
        ),
        (
            "
#pragma omp parallel for
for (uint64_t i = 0; i < 7; i++) {
B[i] = A[i + 1];
A[i] = 1;
A[i] = 2;
}",
            "K19 4:8 conflict: A at 4:8 and 5:1, iterations 0 and 1, element A[1]\n",
        ),
    ];
    no_other(&rt, first_other_line(rt.alloc(), ROWS));
}
