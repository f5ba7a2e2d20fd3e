//! Which of two faults is told: faults of what loops write, print and leave, and of locals that may be unassigned.

use super::{Row, first_other_body};
use crate::outcome::no_other;

#[test]
fn first_fault_of_data_is_told(rt: HostRuntime) {
    const ROWS: &[Row] = &[
        Row {
            text: "
for (uint64_t t = 0; t < 3; t++) {
for (uint64_t u = t; u < 3; u++) {
#pragma omp parallel for private(u, t)
for (uint64_t i = 0; i < 8; i++) {
A[i] = t;
}
}
}",
            number: 15,
            line: 4,
            column: 34,
        },
        Row {
            text: "
for (uint64_t t = 0; t < 3; t++) {
#pragma omp parallel for
for (uint64_t i = 0; i < 8; i++) {
s = i;
}
#pragma omp parallel for private(t)
for (uint64_t i = 0; i < 8; i++) {
A[i] = t;
}
}",
            number: 14,
            line: 5,
            column: 1,
        },
        Row {
            text: "
uint64_t x;
s = x;
for (uint64_t t = 0; t < 3; t++) {
#pragma omp parallel for private(t)
for (uint64_t i = 0; i < 8; i++) {
A[i] = 1;
}
}",
            number: 10,
            line: 3,
            column: 5,
        },
        Row {
            text: "
uint64_t x;
uint64_t y;
x += y;",
            number: 10,
            line: 4,
            column: 1,
        },
        Row {
            text: "
#pragma omp parallel for ordered
for (uint64_t i = 0; i < 8; i++) {
#pragma omp ordered
printf(\"a\");
s = i;
}",
            number: 14,
            line: 6,
            column: 1,
        },
        Row {
            text: "
#pragma omp parallel for reduction(inscan, +: s) ordered(1)
for (uint64_t i = 0; i < 8; i++) {
A[i] = s;
}",
            number: 17,
            line: 2,
            column: 1,
        },
        Row {
            text: "
#pragma omp parallel for lastprivate(s)
for (uint64_t i = 0; i < 8; i++) {
s += A[i];
}",
            number: 15,
            line: 4,
            column: 1,
        },
        Row {
            text: "
#pragma omp parallel for reduction(inscan, +: s)
for (uint64_t i = 0; i < 8; i++) {
s = i;
#pragma omp scan exclusive(s)
}",
            number: 17,
            line: 4,
            column: 1,
        },
        Row {
            text: "
#pragma omp parallel for reduction(inscan, +: s)
for (uint64_t i = 0; i < 8; i++) {
s = i;
#pragma omp scan inclusive(s)
}",
            number: 16,
            line: 4,
            column: 1,
        },
        Row {
            text: "
#pragma omp parallel for
for (uint64_t i = 0; i < 8; i++) {
#pragma omp ordered
s = i;
}",
            number: 18,
            line: 4,
            column: 1,
        },
        Row {
            text: "
#pragma omp parallel for
for (uint64_t i = 0; i < 8; i++) {
printf(\"a\");
s = i;
}",
            number: 18,
            line: 4,
            column: 1,
        },
        Row {
            text: "
#pragma omp parallel for
for (uint64_t i = 0; i < 8; i++) {
s = i;
printf(\"a\");
}",
            number: 14,
            line: 4,
            column: 1,
        },
        Row {
            text: "
#pragma omp parallel for
for (uint64_t i = 0; i < 8; i++) {
s = i;
}
uint64_t x;
s = x;",
            number: 14,
            line: 4,
            column: 1,
        },
        Row {
            text: "
uint64_t x;
s = x;
#pragma omp parallel for
for (uint64_t i = 0; i < 8; i++) {
s = i;
}",
            number: 10,
            line: 3,
            column: 5,
        },
        Row {
            text: "
#pragma omp parallel for
for (uint64_t i = 0; i < 8; i++) {
uint64_t x;
s = x;
}",
            number: 14,
            line: 5,
            column: 1,
        },
        Row {
            text: "
uint64_t x;
#pragma omp parallel for
for (uint64_t i = 0; i < 8; i++) {
x += i;
}",
            number: 10,
            line: 5,
            column: 1,
        },
        Row {
            text: "
uint64_t x = 1;
#pragma omp parallel for private(s) firstprivate(x)
for (uint64_t i = 0; i < 8; i++) {
x = i;
s = x;
}",
            number: 15,
            line: 3,
            column: 34,
        },
        Row {
            text: "
uint64_t x = 1;
#pragma omp parallel for private(x)
for (uint64_t i = 0; i < 8; i++) {
A[i] = x;
s = 1;
x = i;
}",
            number: 15,
            line: 5,
            column: 8,
        },
        Row {
            text: "
uint64_t x;
#pragma omp parallel for private(x)
for (uint64_t i = 0; i < 8; i++) {
A[i] = x;
x = i;
}",
            number: 10,
            line: 5,
            column: 8,
        },
        Row {
            text: "
uint64_t x = 1;
#pragma omp parallel for private(x)
for (uint64_t i = 0; i < 8; i++) {
s = i;
x = i;
}
s = x;",
            number: 14,
            line: 5,
            column: 1,
        },
        Row {
            text: "
A[8] = 1;
uint64_t x;
s = x;",
            number: 10,
            line: 4,
            column: 5,
        },
        Row {
            text: "
A[8] = 1;
#pragma omp parallel for
for (uint64_t i = 0; i < 8; i++) {
s = i;
}",
            number: 14,
            line: 5,
            column: 1,
        },
        Row {
            text: "
uint64_t x;
uint64_t y;
s = x;
s = y;",
            number: 10,
            line: 4,
            column: 5,
        },
        Row {
            text: "
uint64_t x;
uint64_t y;
s = x + y;",
            number: 10,
            line: 4,
            column: 5,
        },
        Row {
            text: "
#pragma omp parallel for
for (uint64_t i = 0; i < 8; i++) {
s = i;
}
#pragma omp parallel for
for (uint64_t i = 0; i < 8; i++) {
printf(\"a\");
}",
            number: 14,
            line: 4,
            column: 1,
        },
        Row {
            text: "
#pragma omp parallel for
for (uint64_t i = 0; i < 8; i++) {
if (i < 2)
s = 1;
else
printf(\"a\");
}",
            number: 14,
            line: 5,
            column: 1,
        },
        Row {
            text: "
if (s) {
#pragma omp parallel for
for (uint64_t i = 0; i < 8; i++) {
s = i;
}
} else {
#pragma omp parallel for
for (uint64_t i = 0; i < 8; i++) {
printf(\"a\");
}
}",
            number: 14,
            line: 5,
            column: 1,
        },
        Row {
            text: "
uint64_t x;
uint64_t y;
if (s) s = x; else s = y;",
            number: 10,
            line: 4,
            column: 12,
        },
    ];
    no_other(&rt, first_other_body(rt.alloc(), ROWS));
}

#[test]
fn first_fault_of_results_is_told(rt: HostRuntime) {
    const ROWS: &[Row] = &[
        Row {
            text: "
#pragma omp parallel for reduction(+: s)
for (uint64_t i = 0; i < 8; i++) {
s = s + i + 1;
}",
            number: 16,
            line: 4,
            column: 1,
        },
        Row {
            text: "
#pragma omp parallel for reduction(+: s)
for (uint64_t i = 0; i < 8; i++) {
s += i;
B[i] = s;
}",
            number: 16,
            line: 5,
            column: 8,
        },
        Row {
            text: "
#pragma omp parallel for reduction(+: s)
for (uint64_t i = 0; i < 8; i++) {
s *= 2;
}",
            number: 16,
            line: 4,
            column: 1,
        },
        Row {
            text: "
#pragma omp parallel for reduction(max: s)
for (uint64_t i = 0; i < 8; i++) {
if (A[i] < s) s = A[i];
}",
            number: 16,
            line: 4,
            column: 12,
        },
        Row {
            text: "
#pragma omp parallel for reduction(min: s)
for (uint64_t i = 0; i < 8; i++) {
if (A[i] < s) s = A[i]; else s = 1;
}",
            number: 16,
            line: 4,
            column: 12,
        },
        Row {
            text: "
uint64_t x;
#pragma omp parallel for reduction(+: s)
for (uint64_t i = 0; i < 8; i++) {
x = i;
s = s + i + 1;
}",
            number: 14,
            line: 5,
            column: 1,
        },
        Row {
            text: "
uint64_t x;
#pragma omp parallel for lastprivate(x)
for (uint64_t i = 0; i < 8; i++) {
if (i < 3) x = i;
}",
            number: 15,
            line: 3,
            column: 38,
        },
        Row {
            text: "
uint64_t x;
#pragma omp parallel for lastprivate(x)
for (uint64_t i = 0; i < 8; i++) {
B[i] = x;
x = i;
}",
            number: 10,
            line: 5,
            column: 8,
        },
        Row {
            text: "
uint64_t x = 4;
#pragma omp parallel for lastprivate(x)
for (uint64_t i = 0; i < 8; i++) {
B[i] = x;
}",
            number: 15,
            line: 3,
            column: 38,
        },
        Row {
            text: "
uint64_t x = 4;
#pragma omp parallel for lastprivate(x)
for (uint64_t i = 0; i < 8; i++) {
B[i] = x;
if (i < 3) x = 1; else { x = 2; }
}",
            number: 15,
            line: 5,
            column: 8,
        },
        Row {
            text: "
#pragma omp parallel for lastprivate(s)
for (uint64_t i = 0; i < 8; i++) {
B[i] = s;
s = i;
}",
            number: 15,
            line: 4,
            column: 8,
        },
        Row {
            text: "
uint64_t x;
#pragma omp parallel for lastprivate(x)
for (uint64_t i = 0; i < 8; i++) {
s = i;
if (i < 3) x = i;
}",
            number: 15,
            line: 3,
            column: 38,
        },
        Row {
            text: "
#pragma omp parallel for lastprivate(A)
for (uint64_t i = 0; i < 8; i++) {
B[i] = i;
}",
            number: 15,
            line: 2,
            column: 38,
        },
        Row {
            text: "
#pragma omp parallel for reduction(+: s, A)
for (uint64_t i = 0; i < 8; i++) {
s += i;
}",
            number: 16,
            line: 2,
            column: 42,
        },
        Row {
            text: "
for (uint64_t t = 0; t < 2; t++) {
#pragma omp parallel for reduction(+: t)
for (uint64_t i = 0; i < 8; i++) {
B[i] = i;
}
}",
            number: 16,
            line: 3,
            column: 39,
        },
        Row {
            text: "
for (uint64_t t = 0; t < 2; t++) {
#pragma omp parallel for lastprivate(t)
for (uint64_t i = 0; i < 8; i++) {
B[i] = i;
}
}",
            number: 15,
            line: 3,
            column: 38,
        },
        Row {
            text: "
#pragma omp parallel for lastprivate(s) reduction(+: A)
for (uint64_t i = 0; i < 8; i++) {
B[i] = i;
}",
            number: 15,
            line: 2,
            column: 38,
        },
        Row {
            text: "
#pragma omp parallel for reduction(+: s) lastprivate(s)
for (uint64_t i = 0; i < 8; i++) {
s += i;
}",
            number: 13,
            line: 2,
            column: 54,
        },
        Row {
            text: "
uint64_t x;
#pragma omp parallel for lastprivate(x)
for (uint64_t i = 0; i < 8; i++) {
x = i;
}
s = x;",
            number: 10,
            line: 7,
            column: 5,
        },
        Row {
            text: "
uint64_t x;
#pragma omp parallel for reduction(+: x)
for (uint64_t i = 0; i < 8; i++) {
x += i;
}
s = x;",
            number: 10,
            line: 5,
            column: 1,
        },
    ];
    no_other(&rt, first_other_body(rt.alloc(), ROWS));
}
