//! Nests with all of their directive lines.

use crate::told::{Expected, all_told};
use ktree::{Kernel, Place};
use nest_lines::{ImperfectNest, first_imperfect};
use pragma::Directives;
use std::alloc::Global;

/// The first nest of a kernel that is not perfect.
impl Expected for Option<ImperfectNest> {
    fn is_told(self, _alloc: Global, kernel: &Kernel, directives: &Directives) -> bool {
        first_imperfect(kernel, directives) == self
    }
}

#[test]
fn lines_between_loops_part_a_nest(rt: HostRuntime) {
    const ROWS: &[(&str, Option<ImperfectNest>)] = &[
        // Lines in the innermost body, and in a loop that is no nest.
        (
            "#pragma omp parallel for ordered(2)\nfor (uint64_t i = 1; i < 2; i++) for (uint64_t j = 1; j < 3; j++) {\n#pragma omp ordered doacross(sink: i-1, j)\nB[i][j] = B[i-1][j];\n#pragma omp ordered doacross(source:)\n}",
            None,
        ),
        (
            "#pragma omp parallel for ordered\nfor (uint64_t i = 0; i < 3; i++) {\n#pragma omp ordered\nprintf(\"1\");\nfor (uint64_t j = 0; j < 3; j++) A[j] = 1; }",
            None,
        ),
        (
            "#pragma omp parallel\n{\n#pragma omp for collapse(2)\nfor (uint64_t i = 0; i < 3; i++) { for (uint64_t j = 0; j < 3; j++) B[i][j] = 1; }\n}",
            None,
        ),
        // One before the inner loop, and one behind it.
        (
            "#pragma omp parallel for ordered collapse(2)\nfor (uint64_t i = 0; i < 3; i++) {\n#pragma omp ordered\nfor (uint64_t j = 0; j < 3; j++) printf(\"1\"); }",
            Some(ImperfectNest(Place { line: 3, column: 1 })),
        ),
        (
            "#pragma omp parallel for ordered(2)\nfor (uint64_t i = 1; i < 2; i++) {\nfor (uint64_t j = 1; j < 3; j++) {\n#pragma omp ordered doacross(sink: i-1, j)\nB[i][j] = B[i-1][j];\n}\n#pragma omp ordered doacross(source:)\n}",
            Some(ImperfectNest(Place { line: 3, column: 1 })),
        ),
        (
            "#pragma omp parallel\n{\n#pragma omp for collapse(2) reduction(inscan, +: s)\nfor (uint64_t i = 0; i < 3; i++) {\n#pragma omp scan inclusive(s)\nfor (uint64_t j = 0; j < 3; j++) s += j; }\n}",
            Some(ImperfectNest(Place { line: 5, column: 1 })),
        ),
        // In the second of two arms, and a loop too few.
        (
            "if (s > 1) {\n#pragma omp parallel for\nfor (uint64_t i = 0; i < 3; i++) A[i] = 1; } else {\n#pragma omp parallel for collapse(3)\nfor (uint64_t i = 0; i < 3; i++) for (uint64_t j = 0; j < 3; j++) B[i][j] = 1; }",
            Some(ImperfectNest(Place { line: 6, column: 1 })),
        ),
    ];
    all_told(&rt, rt.alloc(), ROWS);
}
