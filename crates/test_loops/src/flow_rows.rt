//! Whether locals are assigned before they are read, and the data of parallel loops.

use crate::texts::{I, J, S, X, add_last, name};
use crate::told::{Expected, all_told, is_told_under};
use cparse::parse;
use flow::*;
use flow_definite::definite;
use flow_reduction::Reduction;
use ktree::{
    AssociatedLoops, Clause, Expr, Kernel, Place, ReductionOperator, Refusal, Schedule, Source,
    Stmt, Target, VarId,
};
use pragma::{Directives, ParallelFor};
use pragma_attach::attach;
use pragma_named::{Clauses, LineClauses, Named};
use std::alloc::{AllocError, Global};
use std::collections::HashMap;

/// Whether this is the first place where a local of a kernel may be read unassigned.
fn is_first_unassigned(
    alloc: Global,
    kernel: &Kernel,
    lines: &LineClauses,
    place: Option<Place>,
) -> bool {
    match definite(alloc, kernel, lines) {
        Ok(()) => place.is_none(),
        Err(Refusal::MayBeUnassigned(found)) => place == Some(found),
        Err(_other) => false,
    }
}

/// The first place where a local of a kernel may be read unassigned.
impl Expected for Option<Place> {
    fn is_told(self, alloc: Global, kernel: &Kernel, directives: &Directives) -> bool {
        match attach(alloc, kernel, directives) {
            Ok(lines) => is_first_unassigned(alloc, kernel, &lines, self),
            Err(_refusal) => false,
        }
    }
}

#[test]
fn locals_are_assigned_before_they_are_read(rt: HostRuntime) {
    const ROWS: &[(&str, Option<Place>)] = &[
        // Branches both assign.
        (
            "if (s < 3) x = 1; s = x;",
            Some(Place {
                line: 2,
                column: 23,
            }),
        ),
        ("if (s < 3) x = 1; else x = 2; s = x;", None),
        // Initialisers assign.
        ("uint64_t y = s; s = y;", None),
        (
            "uint64_t y = y; s = y;",
            Some(Place {
                line: 2,
                column: 14,
            }),
        ),
        // Updates read their variable first.
        ("x += x;", Some(Place { line: 2, column: 1 })),
        // Subscripts are read before the right side.
        ("A[x] = x;", Some(Place { line: 2, column: 3 })),
        // Bodies know the variable of their loop.
        ("for (uint64_t i = 0; i < 8; i++) s = i;", None),
        // Loops leave what was known.
        (
            "for (uint64_t i = 0; i < 8; i++) x = 1;\ns = x;",
            Some(Place { line: 3, column: 5 }),
        ),
        // A start stands before its variable.
        (
            "for (uint64_t i = i; i < 8; i++) s = 1;",
            Some(Place {
                line: 2,
                column: 19,
            }),
        ),
        // A step stands behind the body.
        ("for (uint64_t i = 0; i < 8; i += x) x = 1;", None),
        (
            "\nfor (uint64_t i = 0; i < 8; x++) s = 1;",
            Some(Place { line: 3, column: 1 }),
        ),
        // Arguments are read.
        (
            "printf(\"%\" PRIu64 \" %\" PRIu64 \"\\n\", s, x);",
            Some(Place {
                line: 2,
                column: 40,
            }),
        ),
        // Names are read whatever guards them.
        (
            "s = s < 3 ? 1 : x;",
            Some(Place {
                line: 2,
                column: 17,
            }),
        ),
        (
            "if (s < 3 && x < 3) x = 1;",
            Some(Place {
                line: 2,
                column: 14,
            }),
        ),
        // Blocks hand on what is known.
        (
            "{\n#pragma omp parallel for\nfor (uint64_t i = 0; i < 8; i++) A[i] = 1;\nx = 1; }\ns = x;",
            None,
        ),
        // Private locals are unassigned behind their construct.
        (
            "x = 1;\n#pragma omp parallel for private(x)\nfor (uint64_t i = 0; i < 8; i++) { x = i; A[i] = x; }\ns = x;",
            Some(Place { line: 5, column: 5 }),
        ),
        (
            "x = 1;\n#pragma omp parallel for private(x)\nfor (uint64_t i = 0; i < 8; i++) { x = i; A[i] = x; }\nx = 2; s = x;",
            None,
        ),
        (
            "x = 1;\nfor (uint64_t t = 0; t < 2; t++) { s = x;\n#pragma omp parallel for private(x)\nfor (uint64_t i = 0; i < 8; i++) { x = i; A[i] = x; } }",
            Some(Place {
                line: 3,
                column: 40,
            }),
        ),
        (
            "x = 1;\nfor (uint64_t t = 0; t < 2; t++) {\n#pragma omp parallel for private(x)\nfor (uint64_t i = 0; i < 8; i++) { x = i; A[i] = x; } }\ns = x;",
            Some(Place { line: 6, column: 5 }),
        ),
        (
            "x = 1;\n#pragma omp parallel for firstprivate(x)\nfor (uint64_t i = 0; i < 8; i++) A[i] = x;\ns = x;",
            None,
        ),
    ];
    all_told(&rt, rt.alloc(), ROWS);
}

/// A kernel that ends with a loop of `i`.
const LOOP_OF_I: &str =
    "uint64_t A[8]; uint64_t B[2][3]; uint64_t s; void kernel(void) { uint64_t x;
for (uint64_t i = 0; i < 8; i++) x = 1;
}
";

/// `s = i;` on line 3, where `i` is the variable of a loop before it, which no text can name there.
fn assignment_of_i(alloc: Global) -> Stmt {
    let target = Target {
        variable: S,
        subscripts: Vec::new(alloc),
        mention: name(alloc, 1),
    };
    let value = Expr::Object(I, Vec::new(alloc), name(alloc, 5));
    Stmt::Assign(target, Source::Number(value))
}

/// Whether `i` is told to be unassigned behind its loop once that statement stands there.
fn is_left(alloc: Global) -> bool {
    const PLACE: Option<Place> = Some(Place { line: 3, column: 5 });
    match parse(alloc, LOOP_OF_I.as_bytes()) {
        Ok(mut kernel) => {
            add_last(alloc, &mut kernel, assignment_of_i(alloc)).is_ok()
                && is_told_under(alloc, &kernel, LOOP_OF_I, PLACE)
        }
        Err(_refusal) => false,
    }
}

#[test]
fn loops_leave_what_was_known(rt: HostRuntime) {
    assert!(rt; is_left(rt.alloc()));
}

/// What is wrong with the data of a kernel's parallel loops.
fn fault_of(
    alloc: Global,
    kernel: &Kernel,
    directives: &Directives,
    lines: &LineClauses,
) -> Option<DataFault> {
    classify(alloc, kernel, directives, lines).err()
}

impl Expected for Option<DataFault> {
    fn is_told(self, alloc: Global, kernel: &Kernel, directives: &Directives) -> bool {
        match attach(alloc, kernel, directives) {
            Ok(lines) => fault_of(alloc, kernel, directives, &lines) == self,
            Err(_refusal) => false,
        }
    }
}

#[test]
fn data_of_parallel_loops(rt: HostRuntime) {
    const ROWS: &[(&str, Option<DataFault>)] = &[
        // Scalars from outside are shared.
        (
            "#pragma omp parallel for\nfor (uint64_t i = 0; i < 8; i++) s = i;",
            Some(DataFault::Written(Place {
                line: 3,
                column: 34,
            })),
        ),
        (
            "#pragma omp parallel for\nfor (uint64_t i = 0; i < 8; i++) x = i;",
            Some(DataFault::Written(Place {
                line: 3,
                column: 34,
            })),
        ),
        // Private scalars may be written.
        (
            "#pragma omp parallel for private(x)\nfor (uint64_t i = 0; i < 8; i++) { x = i; A[i] = x; }",
            None,
        ),
        (
            "#pragma omp parallel for private(x)\nfor (uint64_t i = 0; i < 8; i++) { if (i < 3) x = i; else x = 1; A[i] = x; }",
            None,
        ),
        (
            "#pragma omp parallel for private(s)\nfor (uint64_t i = 0; i < 8; i++) s = i;",
            Some(DataFault::Written(Place {
                line: 3,
                column: 34,
            })),
        ),
        // Private scalars are assigned before they are read.
        (
            "#pragma omp parallel for private(x)\nfor (uint64_t i = 0; i < 8; i++) { A[i] = x; x = i; }",
            Some(DataFault::Unassigned(Place {
                line: 3,
                column: 43,
            })),
        ),
        (
            "#pragma omp parallel for private(x)\nfor (uint64_t i = 0; i < 8; i++) { if (i < 3) x = i; A[i] = x; }",
            Some(DataFault::Unassigned(Place {
                line: 3,
                column: 61,
            })),
        ),
        (
            "#pragma omp parallel for private(x)\nfor (uint64_t i = 0; i < 8; i++) { s = 1; A[i] = x; }",
            Some(DataFault::Written(Place {
                line: 3,
                column: 36,
            })),
        ),
        // Copies are not written.
        (
            "#pragma omp parallel for firstprivate(s)\nfor (uint64_t i = 0; i < 8; i++) A[i] = s;",
            None,
        ),
        (
            "#pragma omp parallel for firstprivate(s)\nfor (uint64_t i = 0; i < 8; i++) s = i;",
            Some(DataFault::Copied(Place {
                line: 3,
                column: 34,
            })),
        ),
        // Lastprivate scalars are assigned before they are read, and on every path.
        (
            "#pragma omp parallel for lastprivate(s)\nfor (uint64_t i = 0; i < 8; i++) s = i;",
            None,
        ),
        (
            "#pragma omp parallel for lastprivate(x)\nfor (uint64_t i = 0; i < 8; i++) { A[i] = x; x = i; }",
            Some(DataFault::Unassigned(Place {
                line: 3,
                column: 43,
            })),
        ),
        (
            "#pragma omp parallel for lastprivate(s, x)\nfor (uint64_t i = 0; i < 8; i++) { s = i; if (i < 3) x = i; }",
            Some(DataFault::LastUnassigned(Place {
                line: 2,
                column: 41,
            })),
        ),
        // Of two faults the first in the text is told.
        (
            "#pragma omp parallel for lastprivate(x)\nfor (uint64_t i = 0; i < 8; i++) { s = i; if (i < 3) x = i; }",
            Some(DataFault::LastUnassigned(Place {
                line: 2,
                column: 38,
            })),
        ),
        (
            "#pragma omp parallel for reduction(+: s)\nfor (uint64_t i = 0; i < 8; i++) { x = i; A[i] = s; }",
            Some(DataFault::Written(Place {
                line: 3,
                column: 36,
            })),
        ),
        // Reduction variables are updated alone.
        (
            "#pragma omp parallel for reduction(+: s)\nfor (uint64_t i = 0; i < 8; i++) s += i;",
            None,
        ),
        (
            "#pragma omp parallel for reduction(+: s)\nfor (uint64_t i = 0; i < 8; i++) s *= i;",
            Some(DataFault::Reduced(Place {
                line: 3,
                column: 34,
            })),
        ),
        (
            "#pragma omp parallel for reduction(max: s)\nfor (uint64_t i = 0; i < 8; i++) { if (i > s) s = i; A[i] = s; }",
            Some(DataFault::Reduced(Place {
                line: 3,
                column: 61,
            })),
        ),
        // Locals and elements may be written.
        (
            "#pragma omp parallel for\nfor (uint64_t i = 0; i < 8; i++) { uint64_t y; y = i; }",
            None,
        ),
        (
            "#pragma omp parallel for\nfor (uint64_t i = 0; i < 8; i++) A[i] = 1;",
            None,
        ),
        // Other loops may share.
        (
            "for (uint64_t i = 0; i < 8; i++) s = i;\nprintf(\"%\" PRIu64 \" %\" PRIu64 \"\\n\", s, x);",
            None,
        ),
        // Steps are no assignments.
        (
            "#pragma omp parallel for\nfor (uint64_t i = 0; i < 8; i++)\nfor (uint64_t j = 0; j < 8; j++) A[j] = 1;",
            None,
        ),
        // Collapsed loops run the innermost body.
        (
            "#pragma omp parallel for collapse(2)\nfor (uint64_t i = 0; i < 8; i++)\nfor (uint64_t j = 0; j < 8; j++) { uint64_t y; y = j; }",
            None,
        ),
        (
            "\n#pragma omp parallel for collapse(2)\nfor (uint64_t i = 0; i < 8; i++) A[i] = 1;",
            Some(DataFault::Directive(Place { line: 3, column: 1 })),
        ),
        // Serial loops are looked into.
        (
            "for (uint64_t i = 0; i < 8; i++) {\n#pragma omp parallel for\nfor (uint64_t j = 0; j < 8; j++) s = i; }",
            Some(DataFault::Written(Place {
                line: 4,
                column: 34,
            })),
        ),
    ];
    all_told(&rt, rt.alloc(), ROWS);
}

/// The parallel loops of a kernel.
#[derive(Clone, Copy)]
enum Loops {
    /// One on line 4 with chunks of 4 iterations, 2 collapsed loops and these private variables.
    Private(&'static [VarId]),
    /// One on line 4 with one variable that is reduced and one that is lastprivate.
    Leaving(Reduction, VarId),
    /// Two, on these lines.
    Lines([u32; 2]),
}

/// Whether a directive has chunks of 4 iterations and 2 collapsed loops.
fn is_in_fours_and_twos(directive: ParallelFor) -> bool {
    match &directive.schedule {
        Some(Schedule::Dynamic(size)) => {
            size.get() == 4 && directive.collapse == AssociatedLoops::new(2)
        }
        _ => false,
    }
}

/// Whether variables that leave something behind a loop are these.
fn are_leaving(roles: &LoopRoles, reduction: Reduction, last: VarId) -> bool {
    match (roles.reductions.as_slice(), roles.lasts.as_slice()) {
        ([found], [variable]) => *found == reduction && *variable == last,
        _ => false,
    }
}

/// Whether parallel loops are these.
fn are_loops(found: &[ParallelLoop], loops: Loops) -> bool {
    const LINE: Place = Place { line: 4, column: 1 };
    match (found, loops) {
        ([only], Loops::Private(variables)) => {
            only.line == LINE
                && is_in_fours_and_twos(only.directive)
                && only.private.as_slice() == variables
        }
        ([only], Loops::Leaving(reduction, last)) => {
            only.line == LINE && are_leaving(&only.roles, reduction, last)
        }
        ([first, second], Loops::Lines(lines)) => [first.line.line, second.line.line] == lines,
        _ => false,
    }
}

/// Whether those of a kernel are.
fn are_classified(
    alloc: Global,
    kernel: &Kernel,
    directives: &Directives,
    lines: &LineClauses,
    loops: Loops,
) -> bool {
    match classify(alloc, kernel, directives, lines) {
        Ok(found) => are_loops(found.as_slice(), loops),
        Err(_fault) => false,
    }
}

impl Expected for Loops {
    fn is_told(self, alloc: Global, kernel: &Kernel, directives: &Directives) -> bool {
        match attach(alloc, kernel, directives) {
            Ok(lines) => are_classified(alloc, kernel, directives, &lines, self),
            Err(_refusal) => false,
        }
    }
}

#[test]
fn loops_and_locals_are_private(rt: HostRuntime) {
    const ROWS: &[(&str, Loops)] = &[(
        "\n\n#pragma omp parallel for schedule(dynamic, 4) collapse(2)\nfor (uint64_t i = 0; i < 8; i++)\nfor (uint64_t j = 0; j < 8; j++) {\nuint64_t y;\nfor (uint64_t k = 0; k < 8; k++) A[i] = 1;\n}",
        Loops::Private(&[I, J, VarId(6), VarId(7)]),
    )];
    all_told(&rt, rt.alloc(), ROWS);
}

#[test]
fn loops_are_listed_with_their_roles(rt: HostRuntime) {
    const SUM: Reduction = Reduction {
        variable: S,
        operator: ReductionOperator::Sum,
    };
    const ROWS: &[(&str, Loops)] = &[(
        "uint64_t y;\n\n#pragma omp parallel for reduction(+: s) lastprivate(x) private(y)\nfor (uint64_t i = 0; i < 8; i++) { y = i; x = y; s += x; }",
        Loops::Leaving(SUM, X),
    )];
    all_told(&rt, rt.alloc(), ROWS);
}

#[test]
fn parallel_loops_come_in_the_order_of_the_text(rt: HostRuntime) {
    const ROWS: &[(&str, Loops)] = &[(
        "#pragma omp parallel for\nfor (uint64_t i = 0; i < 8; i++) A[i] = 1;\n#pragma omp parallel for schedule(dynamic, 4) collapse(2)\nfor (uint64_t i = 0; i < 8; i++)\nfor (uint64_t j = 0; j < 8; j++) {\nuint64_t y;\nfor (uint64_t k = 0; k < 8; k++) A[i] = 1;\n}",
        Loops::Lines([2, 4]),
    )];
    all_told(&rt, rt.alloc(), ROWS);
}

/// What is wrong with a kernel's data where its line 2 has the clauses `reduction(+: s) lastprivate(s)`, which no text can have.
#[derive(Clone, Copy)]
struct SecondRole(DataFault);

/// `s`, named on line 2.
fn named_s(column: u32) -> Named {
    Named {
        variable: S,
        place: Place { line: 2, column },
    }
}

/// These clauses, where `s` stands at the columns 39 and 54.
fn two_roles(alloc: Global) -> Result<LineClauses, AllocError> {
    let reduced = vec![in alloc; named_s(39)]?;
    let lasts = vec![in alloc; named_s(54)]?;
    let mut clauses = Vec::new(alloc);
    clauses.push(Clause::Reduction(ReductionOperator::Sum, reduced))?;
    clauses.push(Clause::Lastprivate(lasts))?;
    let mut lines = HashMap::new(alloc);
    lines.insert(2, Clauses { clauses })?;
    Ok(lines)
}

impl Expected for SecondRole {
    fn is_told(self, alloc: Global, kernel: &Kernel, directives: &Directives) -> bool {
        match two_roles(alloc) {
            Ok(lines) => fault_of(alloc, kernel, directives, &lines) == Some(self.0),
            Err(_error) => false,
        }
    }
}

#[test]
fn a_reduction_variable_has_no_second_role(rt: HostRuntime) {
    const ROWS: &[(&str, SecondRole)] = &[(
        "#pragma omp parallel for\nfor (uint64_t i = 0; i < 8; i++) A[i] = 1;",
        SecondRole(DataFault::Reduced(Place {
            line: 2,
            column: 39,
        })),
    )];
    all_told(&rt, rt.alloc(), ROWS);
}

const HERE: Place = Place { line: 1, column: 9 };

/// The number of the refusal that tells a fault.
fn number(fault: DataFault) -> u8 {
    Refusal::from(fault).number()
}

#[test]
fn faults_have_their_refusals(rt: HostRuntime) {
    assert!(rt; number(DataFault::Written(HERE)) == 14);
    assert!(rt; number(DataFault::Copied(HERE)) == 15);
    assert!(rt; number(DataFault::Unassigned(HERE)) == 15);
    assert!(rt; number(DataFault::LastUnassigned(HERE)) == 15);
    assert!(rt; number(DataFault::Reduced(HERE)) == 16);
    assert!(rt; number(DataFault::OutOfMemory) == 23);
}
