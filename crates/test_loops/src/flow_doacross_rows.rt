//! Where the sinks and the source of a doacross nest stand, and what is wrong with it.

use crate::told::{Expected, all_told, clauses_of};
use flow_doacross::{DoacrossFault, DoacrossLoop, doacross_of};
use ktree::{Kernel, Place};
use pragma::Directives;
use std::alloc::Global;

/// What is wrong with the doacross nests of a kernel.
impl Expected for Option<DoacrossFault> {
    fn is_told(self, alloc: Global, kernel: &Kernel, directives: &Directives) -> bool {
        let Some(lines) = clauses_of(alloc, kernel, directives) else {
            return false;
        };
        match doacross_of(alloc, kernel, directives, &lines) {
            Ok(found) => found.misuse == self,
            Err(_error) => false,
        }
    }
}

#[test]
fn doacross_nests_are_right(rt: HostRuntime) {
    const ROWS: &[(&str, Option<DoacrossFault>)] = &[
        // One loop, and two sinks.
        (
            "#pragma omp parallel for ordered(1)\nfor (uint64_t i = 2; i < 8; i++) {\n#pragma omp ordered doacross(sink: i-2)\n#pragma omp ordered doacross(sink: i-1)\nA[i] = A[i-2] + 1;\n#pragma omp ordered doacross(source:)\n}",
            None,
        ),
        // Two loops, in a `parallel` too, with forward offsets behind an earlier one.
        (
            "#pragma omp parallel for ordered(2)\nfor (uint64_t i = 1; i < 2; i++) for (uint64_t j = 1; j < 3; j++) {\n#pragma omp ordered doacross(sink: i-1, j+1)\n#pragma omp ordered doacross(sink: i, j-1)\nB[i][j] = B[i-1][j] + 1;\n#pragma omp ordered doacross(source:)\n}",
            None,
        ),
        (
            "#pragma omp parallel\n{\n#pragma omp for ordered(2) schedule(dynamic)\nfor (uint64_t i = 1; i < 2; i++) for (uint64_t j = 1; j < 3; j++) {\n#pragma omp ordered doacross(sink: i-1, j)\nB[i][j] = B[i-1][j];\n#pragma omp ordered doacross(source:)\n}\n}",
            None,
        ),
        // In a serial loop, with a local between the sinks and the source.
        (
            "for (uint64_t k = 0; k < 2; k++) {\n#pragma omp parallel for ordered(1)\nfor (uint64_t i = 2; i < 8; i++) {\n#pragma omp ordered doacross(sink: i-2)\nuint64_t t = A[i-2]; A[i] = t + k;\n#pragma omp ordered doacross(source:)\n} }",
            None,
        ),
    ];
    all_told(&rt, rt.alloc(), ROWS);
}

#[test]
fn doacross_nests_are_judged_at_their_directives(rt: HostRuntime) {
    const ROWS: &[(&str, Option<DoacrossFault>)] = &[
        // A loop that falls, goes by 2, or ends where a variable says.
        (
            "#pragma omp parallel for ordered(1)\nfor (uint64_t i = 7; i > 1; i--) {\n#pragma omp ordered doacross(sink: i-2)\nA[i] = 1;\n#pragma omp ordered doacross(source:)\n}",
            Some(DoacrossFault::Nest(Place { line: 2, column: 1 })),
        ),
        (
            "#pragma omp parallel for ordered(1)\nfor (uint64_t i = 2; i < 8; i += 2) {\n#pragma omp ordered doacross(sink: i-2)\nA[i] = 1;\n#pragma omp ordered doacross(source:)\n}",
            Some(DoacrossFault::Nest(Place { line: 2, column: 1 })),
        ),
        (
            "for (uint64_t k = 3; k < 5; k++)\n{\n#pragma omp parallel for ordered(1)\nfor (uint64_t i = 2; i < k; i++) {\n#pragma omp ordered doacross(sink: i-2)\nA[i] = 1;\n#pragma omp ordered doacross(source:)\n} }",
            Some(DoacrossFault::Nest(Place { line: 4, column: 1 })),
        ),
        // The second loop of two.
        (
            "#pragma omp parallel for ordered(2)\nfor (uint64_t i = 1; i < 2; i++) for (uint64_t j = 2; j > 0; j--) {\n#pragma omp ordered doacross(sink: i-1, j)\nB[i][j] = 1;\n#pragma omp ordered doacross(source:)\n}",
            Some(DoacrossFault::Nest(Place { line: 2, column: 1 })),
        ),
        // No sink, no source, or one in front of the other.
        (
            "#pragma omp parallel for ordered(1)\nfor (uint64_t i = 2; i < 8; i++) {\nA[i] = 1;\n#pragma omp ordered doacross(source:)\n}",
            Some(DoacrossFault::Nest(Place { line: 2, column: 1 })),
        ),
        (
            "#pragma omp parallel for ordered(1)\nfor (uint64_t i = 2; i < 8; i++) {\n#pragma omp ordered doacross(sink: i-2)\nA[i] = 1;\n}",
            Some(DoacrossFault::Nest(Place { line: 2, column: 1 })),
        ),
        (
            "#pragma omp parallel for ordered(1)\nfor (uint64_t i = 2; i < 8; i++) {\n#pragma omp ordered doacross(source:)\nA[i] = 1;\n#pragma omp ordered doacross(sink: i-2)\n}",
            Some(DoacrossFault::Nest(Place { line: 2, column: 1 })),
        ),
        // Clauses that do not go with it.
        (
            "#pragma omp parallel for ordered(1) collapse(1)\nfor (uint64_t i = 2; i < 8; i++) {\n#pragma omp ordered doacross(sink: i-2)\nA[i] = 1;\n#pragma omp ordered doacross(source:)\n}",
            Some(DoacrossFault::Nest(Place { line: 2, column: 1 })),
        ),
        (
            "#pragma omp parallel for ordered(1) reduction(+: s)\nfor (uint64_t i = 2; i < 8; i++) {\n#pragma omp ordered doacross(sink: i-2)\nA[i] = 1; s += 1;\n#pragma omp ordered doacross(source:)\n}",
            Some(DoacrossFault::Nest(Place { line: 2, column: 1 })),
        ),
        (
            "#pragma omp parallel for ordered(1) lastprivate(x)\nfor (uint64_t i = 2; i < 8; i++) {\n#pragma omp ordered doacross(sink: i-2)\nx = i; A[i] = x;\n#pragma omp ordered doacross(source:)\n}",
            Some(DoacrossFault::Nest(Place { line: 2, column: 1 })),
        ),
    ];
    all_told(&rt, rt.alloc(), ROWS);
}

#[test]
fn sinks_and_sources_out_of_place_are_told(rt: HostRuntime) {
    const ROWS: &[(&str, Option<DoacrossFault>)] = &[
        // In no nest.
        (
            "#pragma omp parallel for\nfor (uint64_t i = 2; i < 8; i++) {\nA[i] = 1;\n#pragma omp ordered doacross(source:)\n}",
            Some(DoacrossFault::Line(Place { line: 5, column: 1 })),
        ),
        (
            "for (uint64_t i = 2; i < 8; i++) {\n#pragma omp ordered doacross(sink: i-2)\nA[i] = 1; }",
            Some(DoacrossFault::Line(Place { line: 3, column: 1 })),
        ),
        // Behind a statement, in an inner one, and a second source.
        (
            "#pragma omp parallel for ordered(1)\nfor (uint64_t i = 2; i < 8; i++) {\n#pragma omp ordered doacross(sink: i-2)\nA[i] = 1;\n#pragma omp ordered doacross(sink: i-1)\nA[i] = 2;\n#pragma omp ordered doacross(source:)\n}",
            Some(DoacrossFault::Line(Place { line: 6, column: 1 })),
        ),
        (
            "#pragma omp parallel for ordered(1)\nfor (uint64_t i = 2; i < 8; i++) {\n#pragma omp ordered doacross(sink: i-2)\nif (i > 4) {\n#pragma omp ordered doacross(source:)\nA[i] = 2; }\n#pragma omp ordered doacross(source:)\n}",
            Some(DoacrossFault::Line(Place { line: 6, column: 1 })),
        ),
        (
            "#pragma omp parallel for ordered(1)\nfor (uint64_t i = 2; i < 8; i++) {\n#pragma omp ordered doacross(sink: i-2)\n#pragma omp ordered doacross(source:)\nA[i] = 1;\n#pragma omp ordered doacross(source:)\n}",
            Some(DoacrossFault::Line(Place { line: 5, column: 1 })),
        ),
    ];
    all_told(&rt, rt.alloc(), ROWS);
}

#[test]
fn sinks_that_name_no_earlier_iteration_are_told(rt: HostRuntime) {
    const ROWS: &[(&str, Option<DoacrossFault>)] = &[
        // The iteration itself, a later one, and one that is later in the first loop.
        (
            "#pragma omp parallel for ordered(1)\nfor (uint64_t i = 2; i < 8; i++) {\n#pragma omp ordered doacross(sink: i)\nA[i] = 1;\n#pragma omp ordered doacross(source:)\n}",
            Some(DoacrossFault::Sink(Place { line: 4, column: 1 })),
        ),
        (
            "#pragma omp parallel for ordered(1)\nfor (uint64_t i = 2; i < 8; i++) {\n#pragma omp ordered doacross(sink: i-1)\n#pragma omp ordered doacross(sink: i+1)\nA[i] = 1;\n#pragma omp ordered doacross(source:)\n}",
            Some(DoacrossFault::Sink(Place { line: 5, column: 1 })),
        ),
        (
            "#pragma omp parallel for ordered(2)\nfor (uint64_t i = 1; i < 2; i++) for (uint64_t j = 1; j < 3; j++) {\n#pragma omp ordered doacross(sink: i+1, j-1)\nB[i][j] = 1;\n#pragma omp ordered doacross(source:)\n}",
            Some(DoacrossFault::Sink(Place { line: 4, column: 1 })),
        ),
        (
            "#pragma omp parallel for ordered(2)\nfor (uint64_t i = 1; i < 2; i++) for (uint64_t j = 1; j < 3; j++) {\n#pragma omp ordered doacross(sink: i, j+1)\nB[i][j] = 1;\n#pragma omp ordered doacross(source:)\n}",
            Some(DoacrossFault::Sink(Place { line: 4, column: 1 })),
        ),
        // Fewer elements and more.
        (
            "#pragma omp parallel for ordered(2)\nfor (uint64_t i = 1; i < 2; i++) for (uint64_t j = 1; j < 3; j++) {\n#pragma omp ordered doacross(sink: i-1)\nB[i][j] = 1;\n#pragma omp ordered doacross(source:)\n}",
            Some(DoacrossFault::Sink(Place { line: 4, column: 1 })),
        ),
        (
            "#pragma omp parallel for ordered(1)\nfor (uint64_t i = 2; i < 8; i++) {\n#pragma omp ordered doacross(sink: i-1, i-1)\nA[i] = 1;\n#pragma omp ordered doacross(source:)\n}",
            Some(DoacrossFault::Sink(Place { line: 4, column: 1 })),
        ),
        // Other names, and the right ones in another order.
        (
            "#pragma omp parallel for ordered(1)\nfor (uint64_t i = 2; i < 8; i++) {\n#pragma omp ordered doacross(sink: k-1)\nA[i] = 1;\n#pragma omp ordered doacross(source:)\n}",
            Some(DoacrossFault::Name(Place {
                line: 4,
                column: 36,
            })),
        ),
        (
            "#pragma omp parallel for ordered(2)\nfor (uint64_t i = 1; i < 2; i++) for (uint64_t j = 1; j < 3; j++) {\n#pragma omp ordered doacross(sink: i-1, x)\nB[i][j] = 1;\n#pragma omp ordered doacross(source:)\n}",
            Some(DoacrossFault::Name(Place {
                line: 4,
                column: 41,
            })),
        ),
        (
            "#pragma omp parallel for ordered(2)\nfor (uint64_t i = 1; i < 2; i++) for (uint64_t j = 1; j < 3; j++) {\n#pragma omp ordered doacross(sink: j-1, i)\nB[i][j] = 1;\n#pragma omp ordered doacross(source:)\n}",
            Some(DoacrossFault::Name(Place {
                line: 4,
                column: 36,
            })),
        ),
    ];
    all_told(&rt, rt.alloc(), ROWS);
}

#[test]
fn nests_that_print_are_told(rt: HostRuntime) {
    const ROWS: &[(&str, Option<DoacrossFault>)] = &[
        // A `printf` is told, and of two faults the first.
        (
            "#pragma omp parallel for ordered(1)\nfor (uint64_t i = 2; i < 8; i++) {\n#pragma omp ordered doacross(sink: i-2)\nA[i] = 1; printf(\"a\");\n#pragma omp ordered doacross(source:)\n}",
            Some(DoacrossFault::Printed(Place {
                line: 5,
                column: 11,
            })),
        ),
        (
            "#pragma omp parallel for ordered(1)\nfor (uint64_t i = 2; i < 8; i++) {\n#pragma omp ordered doacross(sink: i-2)\nif (i > 3) { A[i] = 1; } else printf(\"a\");\n#pragma omp ordered doacross(source:)\n}",
            Some(DoacrossFault::Printed(Place {
                line: 5,
                column: 31,
            })),
        ),
        (
            "#pragma omp parallel for ordered(1)\nfor (uint64_t i = 2; i < 8; i++) {\n#pragma omp ordered doacross(sink: i+2)\nprintf(\"a\");\n#pragma omp ordered doacross(source:)\n}",
            Some(DoacrossFault::Sink(Place { line: 4, column: 1 })),
        ),
        (
            "#pragma omp parallel for ordered(1)\nfor (uint64_t i = 2; i < 8; i++) {\n#pragma omp ordered doacross(sink: i-2)\nprintf(\"a\");\n#pragma omp ordered doacross(sink: i-1)\n#pragma omp ordered doacross(source:)\n}",
            Some(DoacrossFault::Printed(Place { line: 5, column: 1 })),
        ),
    ];
    all_told(&rt, rt.alloc(), ROWS);
}

/// A nest: the line of its directive, and the distances of its sinks.
type Nest = (u32, &'static [&'static [i64]]);

/// Whether a nest is this one.
fn is_nest(found: &DoacrossLoop, nest: Nest) -> bool {
    let (line, distances) = nest;
    let mut same = found.line == Place { line, column: 1 }
        && found.distances.len() == distances.len();
    for (found, distance) in found.distances.iter().zip(distances) {
        same &= found.as_slice() == *distance;
    }
    same
}

/// Whether nests are these.
fn are_nests(found: &[DoacrossLoop], nests: &[Nest]) -> bool {
    let mut same = found.len() == nests.len();
    for (found, nest) in found.iter().zip(nests) {
        same &= is_nest(found, *nest);
    }
    same
}

/// The doacross nests of a kernel.
#[derive(Clone, Copy)]
struct Nests(&'static [Nest]);

impl Expected for Nests {
    fn is_told(self, alloc: Global, kernel: &Kernel, directives: &Directives) -> bool {
        let Some(lines) = clauses_of(alloc, kernel, directives) else {
            return false;
        };
        match doacross_of(alloc, kernel, directives, &lines) {
            Ok(found) => are_nests(found.nests.as_slice(), self.0),
            Err(_error) => false,
        }
    }
}

#[test]
fn doacross_nests_are_listed(rt: HostRuntime) {
    const ROWS: &[(&str, Nests)] = &[(
        "#pragma omp parallel for ordered(1)\nfor (uint64_t i = 2; i < 8; i++) {\n#pragma omp ordered doacross(sink: i-2)\n#pragma omp ordered doacross(sink: i-1)\nA[i] = A[i-2] + 1;\n#pragma omp ordered doacross(source:)\n}\n#pragma omp parallel for\nfor (uint64_t i = 0; i < 3; i++) A[i] = 1;\n#pragma omp parallel\n{\n#pragma omp for ordered(2)\nfor (uint64_t i = 1; i < 2; i++) for (uint64_t j = 1; j < 3; j++) {\n#pragma omp ordered doacross(sink: i-1, j+1)\n#pragma omp ordered doacross(sink: i, j-1)\nB[i][j] = B[i-1][j] + 1;\n#pragma omp ordered doacross(source:)\n}\n}",
        Nests(&[(2, &[&[2], &[1]]), (13, &[&[1, -1], &[0, 1]])]),
    )];
    all_told(&rt, rt.alloc(), ROWS);
}
