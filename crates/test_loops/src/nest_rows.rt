//! Kernels whose loops, nests and subscripts are looked at, and the first faults of others.

ghost use Rattle.std.specs.Prelude.{◌≡◌};

use crate::texts::{A, EIGHT_LOOPS, I, NINE_LOOPS, X, add_last, last_statement, name};
use crate::told::{Expected, all_told, is_told_under};
use affine::VarBox;
use affine_expr::Fault;
use cparse::parse;
use ktree::{Expr, Kernel, NamePlaces, Place, Source, Stmt, Suffix, Target};
use nest::*;
use nest_space::{Space, Value};
use pragma::Directives;
use std::alloc::{AllocError, Global};

/// What [`nests`] tells of a kernel: its first fault, or where its first subscript leaves its array.
type Seen = Result<Option<Place>, Fault>;

/// No fault at all.
const FINE: Seen = Ok(None);

impl Expected for Seen {
    fn is_told(self, alloc: Global, kernel: &Kernel, directives: &Directives) -> bool {
        match nests(alloc, kernel, directives) {
            Ok(table) => self == Ok(table.leaves),
            Err(fault) => self == Err(fault),
        }
    }
}

#[test]
fn subscripts_in_loops(rt: HostRuntime) {
    const OTHER: Seen = Err(Fault::NotAffine(Place { line: 3, column: 3 }));
    const ROWS: &[(&str, Seen)] = &[
        // Subscripts of one loop.
        ("for (uint64_t i = 0; i < 8; i += 1)\nA[i + 0] = 1;", FINE),
        (
            "for (uint64_t i = 0; i < 8; i += 1)\nA[i + 1] = 1;",
            Ok(Some(Place { line: 3, column: 3 })),
        ),
        ("for (uint64_t i = 0; i < 0; i += 1)\nA[i + 1] = 1;", FINE),
        ("for (uint64_t i = 0; i < 8; i += 4)\nA[i + 3] = 1;", FINE),
        (
            "for (uint64_t i = 0; i < 8; i += 4)\nA[i + 4] = 1;",
            Ok(Some(Place { line: 3, column: 3 })),
        ),
        // The first subscript is told.
        (
            "for (uint64_t i = 0; i < 8; i++)\nA[i + 1] = A[i + 2];",
            Ok(Some(Place { line: 3, column: 3 })),
        ),
        (
            "for (uint64_t i = 0; i < 8; i++)\nA[i + 0] = A[i + 1] + A[i + 2];",
            Ok(Some(Place {
                line: 3,
                column: 14,
            })),
        ),
        (
            "for (uint64_t i = 0; i < 8; i++) { A[i + 1] = 1; }\nA[s] = 1;",
            Err(Fault::NotAffine(Place { line: 3, column: 3 })),
        ),
        // Falling loops.
        (
            "for (uint64_t i = 8; i > 0; i--)\nA[i - 0] = 1;",
            Ok(Some(Place { line: 3, column: 3 })),
        ),
        ("for (uint64_t i = 8; i > 0; i--)\nA[i - 1] = 1;", FINE),
        (
            "for (uint64_t i = 8; i > 0; i--)\nA[i - 2] = 1;",
            Ok(Some(Place { line: 3, column: 3 })),
        ),
        // Subscripts by other names.
        ("for (uint64_t i = 0; i < 8; i++)\nA[x] = 1;", OTHER),
        ("for (uint64_t i = 0; i < 8; i++)\nA[s] = 1;", OTHER),
        ("for (uint64_t i = 0; i < 8; i++)\nA[i] = 1;", FINE),
        // Two dimensions.
        (
            "for (uint64_t i = 0; i < 2; i++)\nfor (uint64_t j = 0; j < 3; j++)\nB[i][j] = 1;",
            FINE,
        ),
        (
            "for (uint64_t i = 0; i < 2; i++)\nfor (uint64_t j = 0; j < 4; j++)\nB[i][j] = 1;",
            Ok(Some(Place { line: 4, column: 6 })),
        ),
        (
            "for (uint64_t i = 0; i < 3; i++)\nfor (uint64_t j = 0; j < 3; j++)\nB[i][j] = 1;",
            Ok(Some(Place { line: 4, column: 3 })),
        ),
        (
            "for (uint64_t i = 0; i < 2; i++)\nfor (uint64_t j = 0; j < 3; j++)\nB[j][i] = 1;",
            Ok(Some(Place { line: 4, column: 3 })),
        ),
        // Bounds with the outer variable.
        (
            "for (uint64_t i = 0; i < 8; i++)\nfor (uint64_t j = 0; j <= i; j++)\nA[j + 0] = 1;",
            FINE,
        ),
        (
            "for (uint64_t i = 0; i < 8; i++)\nfor (uint64_t j = 0; j <= i; j++)\nA[j + 1] = 1;",
            Ok(Some(Place { line: 4, column: 3 })),
        ),
        (
            "for (uint64_t i = 0; i < 8; i++)\nfor (uint64_t j = 0; j < i - 1; j++)\nA[j] = 1;",
            Err(Fault::MayWrap(Place { line: 3, column: 1 })),
        ),
        // Bodies that assign.
        (
            "for (uint64_t i = 0; i < 8; i++) i = 1;",
            Err(Fault::NotCanonical(Place { line: 2, column: 1 })),
        ),
        ("for (uint64_t i = 0; i < 8; i++) s = 1;", FINE),
        // Other statements.
        (
            "for (uint64_t i = 0; i < 8; i++)\nif (i < 8) A[i + 0] = 1; else A[i + 0] = 1;",
            FINE,
        ),
        (
            "for (uint64_t i = 0; i < 8; i++)\nif (i < 8) A[i + 1] = 1; else A[i + 0] = 1;",
            Ok(Some(Place {
                line: 3,
                column: 14,
            })),
        ),
        (
            "for (uint64_t i = 0; i < 8; i++)\nif (i < 8) A[i + 0] = 1; else A[i + 1] = 1;",
            Ok(Some(Place {
                line: 3,
                column: 33,
            })),
        ),
        ("for (uint64_t i = 0; i < 8; i++) { }\nA[7] = 1;", FINE),
        (
            "for (uint64_t i = 0; i < 8; i++) { }\nA[8] = 1;",
            Ok(Some(Place { line: 3, column: 3 })),
        ),
    ];
    all_told(&rt, rt.alloc(), ROWS);
}

#[test]
fn loops_inside_each_other(rt: HostRuntime) {
    const ROWS: &[(&str, Seen)] = &[
        (EIGHT_LOOPS, FINE),
        (
            NINE_LOOPS,
            Err(Fault::Limit(Place {
                line: 10,
                column: 1,
            })),
        ),
    ];
    all_told(&rt, rt.alloc(), ROWS);
}

/// A kernel that ends with a loop of `i`.
const LOOP_OF_I: &str =
    "uint64_t A[8]; uint64_t B[2][3]; uint64_t s; void kernel(void) { uint64_t x;
for (uint64_t i = 0; i < 8; i++) { }
}
";

/// The subscripts `[i]` on line 3.
fn subscripts_of_i(alloc: Global) -> Result<Vec<Expr>, AllocError> {
    let mut subscripts = Vec::new(alloc);
    subscripts.push(Expr::Object(I, Vec::new(alloc), name(alloc, 3)))?;
    Ok(subscripts)
}

/// `A[i]` on line 3.
fn element_of_i(alloc: Global) -> Result<Target, AllocError> {
    let places = Vec::from_slice(alloc, &[Place { line: 3, column: 3 }])?;
    let subscripts = subscripts_of_i(alloc)?;
    let mention = NamePlaces {
        name: Place { line: 3, column: 1 },
        subscripts: places,
    };
    Ok(Target {
        variable: A,
        subscripts,
        mention,
    })
}

/// Puts `A[i] = 1;` on line 3 behind the statements of a kernel, where `i` is the variable of a loop before it, which no text can name there.
fn add_assignment_at_i(alloc: Global, kernel: &mut Kernel) -> Result<(), AllocError>
    ensures { kernel.new.variables ≡ kernel.old.variables }
{
    let target = element_of_i(alloc)?;
    let value = Expr::Literal(1, Suffix::Bare);
    add_last(alloc, kernel, Stmt::Assign(target, Source::Number(value)))
}

/// Whether the fault of that subscript is told.
fn is_other_statement(alloc: Global) -> bool {
    const OTHER: Seen = Err(Fault::NotAffine(Place { line: 3, column: 3 }));
    match parse(alloc, LOOP_OF_I.as_bytes()) {
        Ok(mut kernel) => {
            add_assignment_at_i(alloc, &mut kernel).is_ok()
                && is_told_under(alloc, &kernel, LOOP_OF_I, OTHER)
        }
        Err(_refusal) => false,
    }
}

#[test]
fn other_statements(rt: HostRuntime) {
    assert!(rt; is_other_statement(rt.alloc()));
}

/// The first fault of a kernel's loops and nests.
impl Expected for Option<Fault> {
    fn is_told(self, alloc: Global, kernel: &Kernel, directives: &Directives) -> bool {
        nests(alloc, kernel, directives).err() == self
    }
}

#[test]
fn nests_of_directives(rt: HostRuntime) {
    const LIMIT: Option<Fault> = Some(Fault::Limit(Place { line: 3, column: 1 }));
    const IMPERFECT: Option<Fault> = Some(Fault::NotPerfect(Place { line: 3, column: 1 }));
    const ROWS: &[(&str, Option<Fault>)] = &[
        // Iterations have a limit.
        (
            "#pragma omp parallel for collapse(2)\nfor (uint64_t i = 0; i < 3; i++)\nfor (uint64_t j = 0; j < 4; j++) { }",
            None,
        ),
        (
            "#pragma omp parallel for\nfor (uint64_t i = 0; i < 16777216; i++)\nfor (uint64_t j = 0; j < 4; j++) { }",
            None,
        ),
        (
            "#pragma omp parallel for\nfor (uint64_t i = 0; i < 16777217; i++)\nfor (uint64_t j = 0; j < 4; j++) { }",
            LIMIT,
        ),
        (
            "#pragma omp parallel for collapse(2)\nfor (uint64_t i = 0; i < 4096; i++)\nfor (uint64_t j = 0; j < 4096; j++) { }",
            None,
        ),
        (
            "#pragma omp parallel for collapse(2)\nfor (uint64_t i = 0; i < 4097; i++)\nfor (uint64_t j = 0; j < 4096; j++) { }",
            LIMIT,
        ),
        (
            "#pragma omp parallel for collapse(2)\nfor (uint64_t i = 0; i < 4294967296ull; i++)\nfor (uint64_t j = 0; j < 0; j++) { }",
            None,
        ),
        // Nests are rectangular.
        (
            "#pragma omp parallel for\nfor (uint64_t i = 0; i < 3; i++)\nfor (uint64_t j = 0; j <= i; j++) { }",
            None,
        ),
        (
            "#pragma omp parallel for collapse(2)\nfor (uint64_t i = 0; i < 3; i++)\nfor (uint64_t j = 0; j <= i; j++) { }",
            Some(Fault::NotPerfect(Place { line: 4, column: 1 })),
        ),
        // Nests are perfect.
        (
            "#pragma omp parallel for\nfor (uint64_t i = 0; i < 3; i++) { uint64_t y; for (uint64_t j = 0; j < 4; j++) { } }",
            None,
        ),
        (
            "#pragma omp parallel for collapse(2)\nfor (uint64_t i = 0; i < 3; i++) { uint64_t y; for (uint64_t j = 0; j < 4; j++) { } }",
            IMPERFECT,
        ),
        (
            "#pragma omp parallel for\nfor (uint64_t i = 0; i < 3; i++) { }",
            None,
        ),
        (
            "#pragma omp parallel for collapse(2)\nfor (uint64_t i = 0; i < 3; i++) { }",
            IMPERFECT,
        ),
        // Nests in loops that never turn.
        (
            "for (uint64_t i = 0; i < 0; i++) {\n#pragma omp parallel for\nfor (uint64_t j = 0; j < 16777217; j++) { } }",
            None,
        ),
        (
            "for (uint64_t i = 0; i < 1; i++) {\n#pragma omp parallel for\nfor (uint64_t j = 0; j < 16777217; j++) { } }",
            Some(Fault::Limit(Place { line: 4, column: 1 })),
        ),
        // The first fault is told.
        (
            "#pragma omp parallel for\nfor (uint64_t i = 0; i < 16777217; i++)\nfor (uint64_t j = 0; j <= s; j++) { }",
            Some(Fault::Limit(Place { line: 3, column: 1 })),
        ),
    ];
    all_told(&rt, rt.alloc(), ROWS);
}

/// How often the loops of a kernel turn at most, three of them, in the order of the text.
#[derive(Clone, Copy)]
struct TripCounts([u64; 3]);

impl Expected for TripCounts {
    fn is_told(self, alloc: Global, kernel: &Kernel, directives: &Directives) -> bool {
        match nests(alloc, kernel, directives) {
            Ok(table) => match table.loops.as_slice() {
                [a, b, c] => [a.trip_count, b.trip_count, c.trip_count] == self.0,
                _ => false,
            },
            Err(_fault) => false,
        }
    }
}

#[test]
fn tables_have_the_loops_in_the_order_of_the_text(rt: HostRuntime) {
    const ROWS: &[(&str, TripCounts)] = &[(
        "for (uint64_t i = 0; i < 8; i++) for (uint64_t j = 0; j <= i; j += 2) { }\nfor (uint64_t k = 0; k < 3; k++) { }",
        TripCounts([8, 4, 3]),
    )];
    all_told(&rt, rt.alloc(), ROWS);
}

/// How many iterations the two loops that the last statement of a kernel is have where `x` is 5, of the numbers 0 to 9.
#[derive(Clone, Copy)]
struct Iterations(u64);

/// How many iterations a nest has where the variable `x` round it is 5.
fn count(alloc: Global, nest: &Nest) -> Option<u64> {
    let around = Value {
        variable: X,
        value: 5,
    };
    nest.at(alloc, &[around]).map(|space: Space| space.count())
}

/// The same of the two loops of a statement, inside a box.
fn iterations_in(alloc: Global, statement: &Stmt, bounds: &VarBox) -> Option<u64> {
    match Nest::new(alloc, 2, statement, bounds, Place { line: 2, column: 1 }) {
        Ok(nest) => count(alloc, &nest),
        Err(_fault) => None,
    }
}

impl Expected for Iterations {
    fn is_told(self, alloc: Global, kernel: &Kernel, _directives: &Directives) -> bool {
        let Some(statement) = last_statement(kernel) else {
            return false;
        };
        let mut bounds = VarBox::new(alloc);
        bounds.bind(X, 0, 9, Place { line: 1, column: 1 }).is_ok()
            && iterations_in(alloc, statement, &bounds) == Some(self.0)
    }
}

#[test]
fn nests_have_spaces(rt: HostRuntime) {
    const ROWS: &[(&str, Iterations)] = &[(
        "for (uint64_t i = 0; i < 3; i++) for (uint64_t j = 0; j < x; j++) { }",
        Iterations(15),
    )];
    all_told(&rt, rt.alloc(), ROWS);
}
