//! Which of two faults is told: faults of the grammar.

use super::{Row, first_other_body, first_other_text};
use crate::outcome::no_other;

#[test]
fn first_fault_of_grammar_is_told(rt: HostRuntime) {
    const ROWS: &[Row] = &[
        Row {
            text: "
s = 1x;
s = 2y;",
            number: 1,
            line: 2,
            column: 6,
        },
        Row {
            text: "
s = ;
s = 1x;",
            number: 1,
            line: 2,
            column: 5,
        },
        Row {
            text: "
s = 1x;
s = ;",
            number: 1,
            line: 2,
            column: 6,
        },
        Row {
            text: "
printf(\"%d\\q\");",
            number: 1,
            line: 2,
            column: 9,
        },
        Row {
            text: "
s = ((((((((((((((((((((((((((((((((((((((((((((((((((((((((((((((((1x;",
            number: 21,
            line: 2,
            column: 68,
        },
        Row {
            text: "
s = 1x; // ??",
            number: 1,
            line: 2,
            column: 6,
        },
        Row {
            text: "
// ??
s = 1x;",
            number: 1,
            line: 2,
            column: 4,
        },
        Row {
            text: "
// ??
// ??",
            number: 1,
            line: 2,
            column: 4,
        },
        Row {
            text: "
// \x01
// \x02",
            number: 1,
            line: 2,
            column: 4,
        },
    ];
    no_other(&rt, first_other_body(rt.alloc(), ROWS));
}

#[test]
fn grammar_comes_before_names(rt: HostRuntime) {
    const ROWS: &[Row] = &[
        Row {
            text: "
void kernel(void) {
s s
}",
            number: 1,
            line: 3,
            column: 3,
        },
        Row {
            text: "
enum { E = 2147483648 };
void kernel(void) {
}
x
",
            number: 1,
            line: 5,
            column: 1,
        },
        Row {
            text: "
uint64_t A[4096][4097];
void kernel(void) {
A[0][0] = ;
}
",
            number: 1,
            line: 4,
            column: 11,
        },
        Row {
            text: "
void kernel(void) {
t = 1;
t = 1x;
}
",
            number: 1,
            line: 4,
            column: 6,
        },
        Row {
            text: "
void kernel(void) {
t = 1;
}
x
",
            number: 1,
            line: 5,
            column: 1,
        },
    ];
    no_other(&rt, first_other_text(rt.alloc(), ROWS));
}
