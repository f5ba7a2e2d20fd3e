//! Where ordered regions may stand, and where a parallel loop may print.

use crate::told::{Expected, all_told};
use flow_ordered::{Disorder, first_disorder};
use ktree::{Kernel, Place};
use pragma::Directives;
use std::alloc::Global;

/// What is out of order in a kernel.
impl Expected for Option<Disorder> {
    fn is_told(self, _alloc: Global, kernel: &Kernel, directives: &Directives) -> bool {
        first_disorder(kernel, directives) == self
    }
}

#[test]
fn regions_stand_in_loops_that_order_their_iterations(rt: HostRuntime) {
    const ROWS: &[(&str, Option<Disorder>)] = &[
        // Serial code prints where it will.
        (
            "printf(\"1\"); for (uint64_t i = 0; i < 3; i++) printf(\"2\");",
            None,
        ),
        // One region: printf, or a block of these, behind a guard too, and in a collapsed nest.
        (
            "#pragma omp parallel for ordered\nfor (uint64_t i = 0; i < 3; i++) {\n#pragma omp ordered\nprintf(\"1\"); }",
            None,
        ),
        (
            "#pragma omp parallel for ordered\nfor (uint64_t i = 0; i < 3; i++) {\n#pragma omp ordered\n{ printf(\"1\"); printf(\"2\"); } A[i] = i; }",
            None,
        ),
        (
            "#pragma omp parallel for ordered\nfor (uint64_t i = 0; i < 3; i++) {\n#pragma omp ordered\n{ } }",
            None,
        ),
        (
            "#pragma omp parallel for ordered\nfor (uint64_t i = 0; i < 3; i++) if (i > 1) {\n#pragma omp ordered\nprintf(\"1\"); }",
            None,
        ),
        (
            "#pragma omp parallel for ordered collapse(2)\nfor (uint64_t i = 0; i < 3; i++) for (uint64_t j = 0; j < 3; j++) {\n#pragma omp ordered\nprintf(\"1\"); }",
            None,
        ),
        (
            "#pragma omp parallel\n{\n#pragma omp for ordered\nfor (uint64_t i = 0; i < 3; i++) {\n#pragma omp ordered\nprintf(\"1\"); } }",
            None,
        ),
        // The clause alone asks for nothing.
        (
            "#pragma omp parallel for ordered\nfor (uint64_t i = 0; i < 3; i++) A[i] = i;",
            None,
        ),
        // No clause.
        (
            "#pragma omp parallel for\nfor (uint64_t i = 0; i < 3; i++) {\n#pragma omp ordered\nprintf(\"1\"); }",
            Some(Disorder::Region(Place { line: 4, column: 1 })),
        ),
        // No parallel loop.
        (
            "for (uint64_t i = 0; i < 3; i++) {\n#pragma omp ordered\nprintf(\"1\"); }",
            Some(Disorder::Region(Place { line: 3, column: 1 })),
        ),
        // In an inner loop.
        (
            "#pragma omp parallel for ordered\nfor (uint64_t i = 0; i < 3; i++) for (uint64_t j = 0; j < 3; j++) {\n#pragma omp ordered\nprintf(\"1\"); }",
            Some(Disorder::Region(Place { line: 4, column: 1 })),
        ),
        // A second one, also where no iteration comes to both.
        (
            "#pragma omp parallel for ordered\nfor (uint64_t i = 0; i < 3; i++) { if (i > 1) {\n#pragma omp ordered\nprintf(\"1\"); } else {\n#pragma omp ordered\nprintf(\"2\"); } }",
            Some(Disorder::Region(Place { line: 6, column: 1 })),
        ),
        // What else stands behind the line.
        (
            "#pragma omp parallel for ordered\nfor (uint64_t i = 0; i < 3; i++) {\n#pragma omp ordered\nA[i] = 1; }",
            Some(Disorder::Region(Place { line: 4, column: 1 })),
        ),
        (
            "#pragma omp parallel for ordered\nfor (uint64_t i = 0; i < 3; i++) {\n#pragma omp ordered\n{ { printf(\"1\"); } } }",
            Some(Disorder::Region(Place { line: 4, column: 1 })),
        ),
        (
            "#pragma omp parallel for ordered\nfor (uint64_t i = 0; i < 3; i++) {\n#pragma omp ordered\nuint64_t t; }",
            Some(Disorder::Region(Place { line: 4, column: 1 })),
        ),
        (
            "#pragma omp parallel for ordered\nfor (uint64_t i = 0; i < 3; i++) { A[i] = 1;\n#pragma omp ordered\n}",
            Some(Disorder::Region(Place { line: 4, column: 1 })),
        ),
        // Between the loops of a nest, which is then no nest of so many.
        (
            "#pragma omp parallel for ordered collapse(2)\nfor (uint64_t i = 0; i < 3; i++) {\n#pragma omp ordered\nfor (uint64_t j = 0; j < 3; j++) printf(\"1\"); }",
            Some(Disorder::Region(Place { line: 2, column: 1 })),
        ),
    ];
    all_told(&rt, rt.alloc(), ROWS);
}

#[test]
fn parallel_loops_print_in_regions_alone(rt: HostRuntime) {
    const ROWS: &[(&str, Option<Disorder>)] = &[
        (
            "#pragma omp parallel for\nfor (uint64_t i = 0; i < 3; i++) printf(\"1\");",
            Some(Disorder::Printed(Place {
                line: 3,
                column: 34,
            })),
        ),
        (
            "#pragma omp parallel for ordered\nfor (uint64_t i = 0; i < 3; i++) { printf(\"1\");\n#pragma omp ordered\nprintf(\"2\"); }",
            Some(Disorder::Printed(Place {
                line: 3,
                column: 36,
            })),
        ),
        (
            "#pragma omp parallel for ordered\nfor (uint64_t i = 0; i < 3; i++) {\n#pragma omp ordered\nprintf(\"1\"); printf(\"2\"); }",
            Some(Disorder::Printed(Place {
                line: 5,
                column: 14,
            })),
        ),
        (
            "#pragma omp parallel for ordered\nfor (uint64_t i = 0; i < 3; i++) for (uint64_t j = 0; j < 3; j++) printf(\"1\");",
            Some(Disorder::Printed(Place {
                line: 3,
                column: 67,
            })),
        ),
        // In the second of two loops, behind serial code that prints.
        (
            "printf(\"1\");\n#pragma omp parallel for\nfor (uint64_t i = 0; i < 3; i++) A[i] = 1;\n#pragma omp parallel for\nfor (uint64_t i = 0; i < 3; i++) if (i > 1) printf(\"2\");",
            Some(Disorder::Printed(Place {
                line: 6,
                column: 45,
            })),
        ),
    ];
    all_told(&rt, rt.alloc(), ROWS);
}
