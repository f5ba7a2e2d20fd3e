//! Where scans may stand, and what their phases share.

use crate::told::{Expected, all_told, clauses_of};
use flow_scan::{ScanFault, ScanLoop, scans_of};
use ktree::{Kernel, Place};
use pragma::Directives;
use std::alloc::Global;

/// What is wrong with the scans of a kernel.
impl Expected for Option<ScanFault> {
    fn is_told(self, alloc: Global, kernel: &Kernel, directives: &Directives) -> bool {
        let Some(lines) = clauses_of(alloc, kernel, directives) else {
            return false;
        };
        match scans_of(alloc, kernel, directives, &lines) {
            Ok(found) => found.misuse == self,
            Err(_error) => false,
        }
    }
}

#[test]
fn scans_stand_in_loops_of_two_phases(rt: HostRuntime) {
    const ROWS: &[(&str, Option<ScanFault>)] = &[
        // Both kinds, and each form of update.
        (
            "#pragma omp parallel for reduction(inscan, +: s)\nfor (uint64_t i = 0; i < 3; i++) { s += i;\n#pragma omp scan inclusive(s)\nA[i] = s; }",
            None,
        ),
        (
            "#pragma omp parallel for reduction(inscan, +: s)\nfor (uint64_t i = 0; i < 3; i++) { A[i] = s;\n#pragma omp scan exclusive(s)\ns += i; }",
            None,
        ),
        (
            "#pragma omp parallel for reduction(inscan, max: s)\nfor (uint64_t i = 0; i < 3; i++) { if (i > s) s = i;\n#pragma omp scan inclusive(s)\nA[i] = s; }",
            None,
        ),
        // In a `parallel`, with one loop of `collapse(1)`, and with several statements on a side.
        (
            "#pragma omp parallel\n{\n#pragma omp for reduction(inscan, +: s)\nfor (uint64_t i = 0; i < 3; i++) { s += i;\n#pragma omp scan inclusive(s)\nA[i] = s; }\n#pragma omp for reduction(inscan, +: s) collapse(1)\nfor (uint64_t i = 0; i < 3; i++) { uint64_t t; t = i; s += t; s = s + 1;\n#pragma omp scan inclusive(s)\nA[i] = s; B[1][i] = s; } }",
            None,
        ),
        // No update, and a scan phase that reads nothing.
        (
            "#pragma omp parallel for reduction(inscan, +: s)\nfor (uint64_t i = 0; i < 3; i++) { { }\n#pragma omp scan inclusive(s)\nA[i] = 1; }",
            None,
        ),
        // Variables of two inner loops by one name.
        (
            "#pragma omp parallel for reduction(inscan, +: s)\nfor (uint64_t i = 0; i < 3; i++) { for (uint64_t j = 0; j < 2; j++) s += B[1][j];\n#pragma omp scan inclusive(s)\nfor (uint64_t j = 0; j < 2; j++) A[i] = s; }",
            None,
        ),
        // A variable that is local to the kernel.
        (
            "x = 1;\n#pragma omp parallel for reduction(inscan, +: x)\nfor (uint64_t i = 0; i < 3; i++) { x += i;\n#pragma omp scan inclusive(x)\nA[i] = x; }",
            None,
        ),
        // In serial loops and in `if`.
        (
            "for (uint64_t k = 0; k < 2; k++) if (k > 0) {\n#pragma omp parallel for reduction(inscan, +: s)\nfor (uint64_t i = 0; i < 3; i++) { s += i;\n#pragma omp scan inclusive(s)\nA[i] = s; } }",
            None,
        ),
    ];
    all_told(&rt, rt.alloc(), ROWS);
}

#[test]
fn loops_of_scans_are_judged_at_their_directives(rt: HostRuntime) {
    const ROWS: &[(&str, Option<ScanFault>)] = &[
        // No `scan` line: none at all, or in an inner block.
        (
            "#pragma omp parallel for reduction(inscan, +: s)\nfor (uint64_t i = 0; i < 3; i++) { s += i; A[i] = s; }",
            Some(ScanFault::Scan(Place { line: 2, column: 1 })),
        ),
        (
            "#pragma omp parallel for reduction(inscan, +: s)\nfor (uint64_t i = 0; i < 3; i++) s += i;",
            Some(ScanFault::Scan(Place { line: 2, column: 1 })),
        ),
        (
            "#pragma omp parallel for reduction(inscan, +: s)\nfor (uint64_t i = 0; i < 3; i++) { { s += i;\n#pragma omp scan inclusive(s)\nA[i] = s; } }",
            Some(ScanFault::Scan(Place { line: 2, column: 1 })),
        ),
        // What does not go with it.
        (
            "#pragma omp parallel for reduction(inscan, +: s) schedule(static)\nfor (uint64_t i = 0; i < 3; i++) { s += i;\n#pragma omp scan inclusive(s)\nA[i] = s; }",
            Some(ScanFault::Scan(Place { line: 2, column: 1 })),
        ),
        (
            "#pragma omp parallel for reduction(inscan, +: s) schedule(dynamic, 2)\nfor (uint64_t i = 0; i < 3; i++) { s += i;\n#pragma omp scan inclusive(s)\nA[i] = s; }",
            Some(ScanFault::Scan(Place { line: 2, column: 1 })),
        ),
        (
            "#pragma omp parallel for reduction(inscan, +: s) ordered\nfor (uint64_t i = 0; i < 3; i++) { s += i;\n#pragma omp scan inclusive(s)\nA[i] = s; }",
            Some(ScanFault::Scan(Place { line: 2, column: 1 })),
        ),
        (
            "#pragma omp parallel for reduction(inscan, +: s) reduction(max: x)\nfor (uint64_t i = 0; i < 3; i++) { s += i;\n#pragma omp scan inclusive(s)\nA[i] = s; }",
            Some(ScanFault::Scan(Place { line: 2, column: 1 })),
        ),
        // No loop is joined.
        (
            "#pragma omp parallel for reduction(inscan, +: s) collapse(2)\nfor (uint64_t k = 0; k < 3; k++) for (uint64_t i = 0; i < 3; i++) { s += i;\n#pragma omp scan inclusive(s)\nA[i] = s; }",
            Some(ScanFault::Scan(Place { line: 2, column: 1 })),
        ),
        // Two variables of scans.
        (
            "#pragma omp parallel for reduction(inscan, +: s) reduction(inscan, +: x)\nfor (uint64_t i = 0; i < 3; i++) { s += i;\n#pragma omp scan inclusive(s)\nA[i] = s; }",
            Some(ScanFault::Scan(Place { line: 2, column: 1 })),
        ),
    ];
    all_told(&rt, rt.alloc(), ROWS);
}

#[test]
fn scan_lines_out_of_place_are_told(rt: HostRuntime) {
    const ROWS: &[(&str, Option<ScanFault>)] = &[
        // In no loop of a scan.
        (
            "#pragma omp parallel for\nfor (uint64_t i = 0; i < 3; i++) { A[i] = 1;\n#pragma omp scan inclusive(s)\nB[1][i] = s; }",
            Some(ScanFault::Scan(Place { line: 4, column: 1 })),
        ),
        (
            "for (uint64_t i = 0; i < 3; i++) { A[i] = 1;\n#pragma omp scan inclusive(s)\nB[1][i] = s; }",
            Some(ScanFault::Scan(Place { line: 3, column: 1 })),
        ),
        (
            "#pragma omp scan inclusive(s)\nA[0] = 1;",
            Some(ScanFault::Scan(Place { line: 2, column: 1 })),
        ),
        // No statement on a side: a declaration is none.
        (
            "#pragma omp parallel for reduction(inscan, +: s)\nfor (uint64_t i = 0; i < 3; i++) { uint64_t t;\n#pragma omp scan inclusive(s)\nA[i] = s; }",
            Some(ScanFault::Scan(Place { line: 4, column: 1 })),
        ),
        (
            "#pragma omp parallel for reduction(inscan, +: s)\nfor (uint64_t i = 0; i < 3; i++) { s += i;\n#pragma omp scan inclusive(s)\n}",
            Some(ScanFault::Scan(Place { line: 4, column: 1 })),
        ),
        // A second one, on each side, in an inner statement too.
        (
            "#pragma omp parallel for reduction(inscan, +: s)\nfor (uint64_t i = 0; i < 3; i++) { s += i;\n#pragma omp scan inclusive(s)\nA[i] = s;\n#pragma omp scan inclusive(s)\nB[1][i] = s; }",
            Some(ScanFault::Scan(Place { line: 6, column: 1 })),
        ),
        (
            "#pragma omp parallel for reduction(inscan, +: s)\nfor (uint64_t i = 0; i < 3; i++) { { s += i;\n#pragma omp scan inclusive(s)\n}\n#pragma omp scan inclusive(s)\nA[i] = s; }",
            Some(ScanFault::Scan(Place { line: 4, column: 1 })),
        ),
        (
            "#pragma omp parallel for reduction(inscan, +: s)\nfor (uint64_t i = 0; i < 3; i++) { s += i;\n#pragma omp scan inclusive(s)\nif (i > 1) {\n#pragma omp scan inclusive(s)\nA[i] = s; } }",
            Some(ScanFault::Scan(Place { line: 6, column: 1 })),
        ),
        // Of two faults the first is told.
        (
            "#pragma omp parallel for\nfor (uint64_t i = 0; i < 3; i++) { A[i] = 1;\n#pragma omp scan inclusive(s)\n}\n#pragma omp parallel for reduction(inscan, +: s)\nfor (uint64_t i = 0; i < 3; i++) { s += i; }",
            Some(ScanFault::Scan(Place { line: 4, column: 1 })),
        ),
    ];
    all_told(&rt, rt.alloc(), ROWS);
}

#[test]
fn names_of_both_phases_are_told(rt: HostRuntime) {
    const ROWS: &[(&str, Option<ScanFault>)] = &[
        // Another name, and one that stands for no variable.
        (
            "#pragma omp parallel for reduction(inscan, +: s)\nfor (uint64_t i = 0; i < 3; i++) { s += i;\n#pragma omp scan inclusive(x)\nA[i] = s; }",
            Some(ScanFault::Scan(Place {
                line: 4,
                column: 28,
            })),
        ),
        (
            "#pragma omp parallel for reduction(inscan, +: s)\nfor (uint64_t i = 0; i < 3; i++) { s += i;\n#pragma omp scan inclusive(t)\nA[i] = s; }",
            Some(ScanFault::Scan(Place {
                line: 4,
                column: 28,
            })),
        ),
        // The variable in the input phase in another way than in an update.
        (
            "#pragma omp parallel for reduction(inscan, +: s)\nfor (uint64_t i = 0; i < 3; i++) { s -= i;\n#pragma omp scan inclusive(s)\nA[i] = s; }",
            Some(ScanFault::Reduced(Place {
                line: 3,
                column: 36,
            })),
        ),
        (
            "#pragma omp parallel for reduction(inscan, +: s)\nfor (uint64_t i = 0; i < 3; i++) { s += i; A[i] = s;\n#pragma omp scan inclusive(s)\nA[i] = s; }",
            Some(ScanFault::Reduced(Place {
                line: 3,
                column: 51,
            })),
        ),
        (
            "#pragma omp parallel for reduction(inscan, +: s)\nfor (uint64_t i = 0; i < 3; i++) { A[i] = s;\n#pragma omp scan exclusive(s)\ns += i; if (s > 2) s += 1; }",
            Some(ScanFault::Reduced(Place {
                line: 5,
                column: 13,
            })),
        ),
        // In the scan phase written.
        (
            "#pragma omp parallel for reduction(inscan, +: s)\nfor (uint64_t i = 0; i < 3; i++) { s += i;\n#pragma omp scan inclusive(s)\nA[i] = s; s = 1; }",
            Some(ScanFault::Scan(Place {
                line: 5,
                column: 11,
            })),
        ),
        (
            "#pragma omp parallel for reduction(inscan, +: s)\nfor (uint64_t i = 0; i < 3; i++) { s += 1;\n#pragma omp scan exclusive(s)\ns += i; }",
            Some(ScanFault::Scan(Place {
                line: 3,
                column: 36,
            })),
        ),
        // Written on one side and read on the other: a local, by its value too, and an array.
        (
            "#pragma omp parallel for reduction(inscan, +: s)\nfor (uint64_t i = 0; i < 3; i++) { uint64_t t = i; s += t;\n#pragma omp scan inclusive(s)\nA[i] = s + t; }",
            Some(ScanFault::Scan(Place {
                line: 5,
                column: 12,
            })),
        ),
        (
            "#pragma omp parallel for reduction(inscan, +: s)\nfor (uint64_t i = 0; i < 3; i++) { s += A[i];\n#pragma omp scan inclusive(s)\nA[i] = s; }",
            Some(ScanFault::Scan(Place {
                line: 3,
                column: 41,
            })),
        ),
        (
            "#pragma omp parallel for reduction(inscan, +: s)\nfor (uint64_t i = 0; i < 3; i++) { s += i; A[i] = 1;\n#pragma omp scan inclusive(s)\nB[1][i] = s; if (A[i] > 1) B[1][i] = 2; }",
            Some(ScanFault::Scan(Place {
                line: 5,
                column: 18,
            })),
        ),
        (
            "#pragma omp parallel for reduction(inscan, +: s)\nfor (uint64_t i = 0; i < 3; i++) { A[i] = s;\n#pragma omp scan exclusive(s)\ns += A[0]; }",
            Some(ScanFault::Scan(Place { line: 5, column: 6 })),
        ),
        // An update reads what it writes.
        (
            "#pragma omp parallel for reduction(inscan, +: s)\nfor (uint64_t i = 0; i < 3; i++) { s += i; A[i] = 1;\n#pragma omp scan inclusive(s)\nA[i] += s; }",
            Some(ScanFault::Scan(Place { line: 5, column: 1 })),
        ),
        // Of several faults the first in the text.
        (
            "#pragma omp parallel for reduction(inscan, +: s)\nfor (uint64_t i = 0; i < 3; i++) { s += A[i];\n#pragma omp scan inclusive(s)\ns = A[0]; A[i] = s; }",
            Some(ScanFault::Scan(Place {
                line: 3,
                column: 41,
            })),
        ),
        (
            "#pragma omp parallel for reduction(inscan, +: s)\nfor (uint64_t i = 0; i < 3; i++) { s = A[i];\n#pragma omp scan inclusive(x)\nA[i] = s; }",
            Some(ScanFault::Reduced(Place {
                line: 3,
                column: 36,
            })),
        ),
    ];
    all_told(&rt, rt.alloc(), ROWS);
}

/// The loops of scans of a kernel.
#[derive(Clone, Copy)]
struct ScanLoops(&'static [ScanLoop]);

impl Expected for ScanLoops {
    fn is_told(self, alloc: Global, kernel: &Kernel, directives: &Directives) -> bool {
        let Some(lines) = clauses_of(alloc, kernel, directives) else {
            return false;
        };
        match scans_of(alloc, kernel, directives, &lines) {
            Ok(found) => found.loops.as_slice() == self.0,
            Err(_error) => false,
        }
    }
}

#[test]
fn loops_of_scans_are_listed(rt: HostRuntime) {
    const LOOPS: ScanLoops = ScanLoops(&[
        ScanLoop {
            line: Place { line: 2, column: 1 },
            inclusive: true,
            front: 3,
        },
        ScanLoop {
            line: Place {
                line: 10,
                column: 1,
            },
            inclusive: false,
            front: 1,
        },
    ]);
    const ROWS: &[(&str, ScanLoops)] = &[(
        "#pragma omp parallel for reduction(inscan, +: s)\nfor (uint64_t i = 0; i < 3; i++) { uint64_t t = i; s += t; { }\n#pragma omp scan inclusive(s)\nA[i] = s; }\n#pragma omp parallel for\nfor (uint64_t i = 0; i < 3; i++) A[i] = 1;\n#pragma omp parallel\n{\n#pragma omp for reduction(inscan, max: s)\nfor (uint64_t i = 0; i < 3; i++) { A[i] = s;\n#pragma omp scan exclusive(s)\nif (i > s) s = i; } }",
        LOOPS,
    )];
    all_told(&rt, rt.alloc(), ROWS);
}
