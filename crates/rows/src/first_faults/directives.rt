//! Which of two faults is told: faults of directive lines.

use super::{Row, first_other_body};
use crate::outcome::no_other;

#[test]
fn first_directive_at_fault_is_told(rt: HostRuntime) {
    const ROWS: &[Row] = &[
        Row {
            text: "
#pragma omp simd
for (uint64_t i = 0; i < 8; i++) {
}
#pragma omp simd
for (uint64_t i = 0; i < 8; i++) {
}",
            number: 11,
            line: 2,
            column: 1,
        },
        Row {
            text: "
#pragma omp parallel for
#pragma omp simd
for (uint64_t i = 0; i < 8; i++) {
}",
            number: 11,
            line: 2,
            column: 1,
        },
        Row {
            text: "
#pragma omp parallel for collapse(5)
for (uint64_t i = 0; i < 8; i++) {
}
#pragma omp simd
for (uint64_t i = 0; i < 8; i++) {
}",
            number: 21,
            line: 2,
            column: 1,
        },
        Row {
            text: "
#pragma omp parallel for collapse(5) schedule(dynamic, 0)
for (uint64_t i = 0; i < 8; i++) {
}",
            number: 11,
            line: 2,
            column: 1,
        },
        Row {
            text: "
#pragma omp parallel for collapse(5)
s = 1;",
            number: 11,
            line: 2,
            column: 1,
        },
        Row {
            text: "
#pragma omp parallel for
for (uint64_t i = 0; i < 8; i++) {
#pragma omp parallel for collapse(5)
for (uint64_t j = 0; j < 8; j++) {
}
}",
            number: 11,
            line: 4,
            column: 1,
        },
        Row {
            text: "
for (uint64_t i = 0; i; i++) {
}
#pragma omp simd
for (uint64_t i = 0; i < 8; i++) {
}",
            number: 11,
            line: 4,
            column: 1,
        },
        Row {
            text: "
#pragma omp simd
for (uint64_t i = 0; i < 8; i++) {
#pragma omp simd
for (uint64_t j = 0; j < 8; j++) {
}
}",
            number: 11,
            line: 2,
            column: 1,
        },
        Row {
            text: "
if (s) {
#pragma omp simd
for (uint64_t i = 0; i < 8; i++) {
}
} else {
#pragma omp simd
for (uint64_t i = 0; i < 8; i++) {
}
}",
            number: 11,
            line: 3,
            column: 1,
        },
    ];
    no_other(&rt, first_other_body(rt.alloc(), ROWS));
}

#[test]
fn first_directive_that_is_not_known_so_far_is_told(rt: HostRuntime) {
    const ROWS: &[Row] = &[
        Row {
            text: "
uint64_t x;
#pragma omp parallel for lastprivate(conditional: x)
for (uint64_t i = 0; i < 8; i++) {
x = i;
}
#pragma omp parallel for reduction(inscan, +: s)
for (uint64_t i = 0; i < 8; i++) {
s += i;
}",
            number: 15,
            line: 3,
            column: 51,
        },
        Row {
            text: "
uint64_t x;
#pragma omp parallel for reduction(inscan, +: s) lastprivate(conditional: x)
for (uint64_t i = 0; i < 8; i++) {
s += i; x = i;
}",
            number: 15,
            line: 3,
            column: 75,
        },
        Row {
            text: "
uint64_t x;
#pragma omp parallel for lastprivate(conditional: x) ordered
for (uint64_t i = 0; i < 8; i++) {
x = i;
}",
            number: 15,
            line: 3,
            column: 51,
        },
        Row {
            text: "
uint64_t x;
#pragma omp parallel for lastprivate(x) ordered(1)
for (uint64_t i = 0; i < 8; i++) {
x = i;
}",
            number: 18,
            line: 3,
            column: 1,
        },
        Row {
            text: "
#pragma omp scan inclusive(s)
s = 1;",
            number: 17,
            line: 2,
            column: 1,
        },
        Row {
            text: "
#pragma omp parallel for
for (uint64_t i = 0; i < 8; i++) {
#pragma omp ordered
printf(\"1\");
}
#pragma omp parallel for reduction(+: s)
for (uint64_t i = 0; i < 8; i++) {
s += i;
}",
            number: 18,
            line: 4,
            column: 1,
        },
        Row {
            text: "
#pragma omp parallel
{
#pragma omp for
for (uint64_t i = 0; i < 8; i++) {
A[i] = i;
}
#pragma omp for reduction(inscan, max: s)
for (uint64_t i = 0; i < 8; i++) {
if (A[i] > s) s = A[i];
}
}",
            number: 17,
            line: 8,
            column: 1,
        },
        Row {
            text: "
uint64_t x;
#pragma omp parallel for lastprivate(y)
for (uint64_t i = 0; i < 8; i++) {
x = i;
}",
            number: 3,
            line: 3,
            column: 38,
        },
    ];
    no_other(&rt, first_other_body(rt.alloc(), ROWS));
}
