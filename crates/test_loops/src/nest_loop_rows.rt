//! Loops that are entered, and the first faults of others.

use crate::texts::{EIGHT_LOOPS, I, J, NINE_LOOPS, last_statement};
use crate::told::{Expected, all_told};
use affine::VarBox;
use affine_expr::Fault;
use ktree::{Kernel, Place, Stmt, VarId};
use nest_loop::*;
use pragma::Directives;
use std::alloc::Global;

/// How many loops the last statement of a kernel is, one directly in the other, and the numbers that the innermost's variable has.
type Entered = Result<(usize, i64, i64), Fault>;

/// The variable of a loop, which is entered, or else of the innermost of those that stand one directly in the other.
fn innermost(alloc: Global, statement: &Stmt, bounds: &mut VarBox) -> Result<VarId, Fault> {
    let Stmt::For(head, body) = statement else {
        return Err(Fault::OutOfMemory);
    };
    let variable = enter(alloc, head, body, bounds)?.canonical.variable;
    match &**body {
        Stmt::For(_, _) => innermost(alloc, body, bounds),
        _ => Ok(variable),
    }
}

/// How many loops a statement is, and those numbers.
fn enter_innermost(alloc: Global, statement: &Stmt) -> Entered {
    let mut bounds = VarBox::new(alloc);
    let variable = innermost(alloc, statement, &mut bounds)?;
    let interval = bounds.interval(variable);
    Ok((bounds.len(), interval.least, interval.greatest))
}

impl Expected for Entered {
    fn is_told(self, alloc: Global, kernel: &Kernel, _directives: &Directives) -> bool {
        match last_statement(kernel) {
            Some(statement) => enter_innermost(alloc, statement) == self,
            None => false,
        }
    }
}

#[test]
fn loops(rt: HostRuntime) {
    const WRAPS: Entered = Err(Fault::MayWrap(Place { line: 2, column: 1 }));
    const OTHER: Entered = Err(Fault::NotCanonical(Place { line: 2, column: 1 }));
    const ROWS: &[(&str, Entered)] = &[
        // Falling loops.
        ("for (uint64_t i = 10; i > 2; i -= 3) { }", Ok((1, 4, 10))),
        ("for (uint64_t i = 7; i != 3; i--) { }", Ok((1, 4, 7))),
        ("for (uint64_t i = 9; i >= 0; i--) { }", WRAPS),
        ("for (uint64_t i = 6; i > 0; i -= 2) { }", WRAPS),
        ("for (uint64_t i = 10; i > 1; i -= 3) { }", WRAPS),
        ("for (uint64_t i = 3; i != 7; i--) { }", WRAPS),
        ("for (uint64_t i = 6; i >= 2; i -= 2) { }", Ok((1, 2, 6))),
        // Rising loops.
        ("for (uint64_t i = 1; i <= 10; i += 4) { }", Ok((1, 1, 9))),
        ("for (uint64_t i = 0; i < 8; i++) { }", Ok((1, 0, 7))),
        ("for (uint64_t i = 5; i < 5; i++) { }", Ok((1, 5, 4))),
        ("for (uint64_t i = 2; i != 6; i++) { }", Ok((1, 2, 5))),
        (
            "for (uint64_t i = 0; i < 4294967297ull; i++) { }",
            Err(Fault::Limit(Place {
                line: 2,
                column: 26,
            })),
        ),
        // Other heads.
        ("for (uint64_t i = 0; i < 8; i--) { }", OTHER),
        ("for (uint64_t i = 0; i == 8; i++) { }", OTHER),
        ("for (uint64_t i = 0; i < 8; x++) { }", OTHER),
        ("for (uint64_t i = 9; i != 3; i -= 2) { }", OTHER),
        ("for (uint64_t i = 9; i > 3; i -= 0) { }", OTHER),
        // Bounds with variables.
        (
            "for (uint64_t i = 0; i < 8; i++)\nfor (uint64_t j = 0; j < i - 1; j++) { }",
            Err(Fault::MayWrap(Place { line: 3, column: 1 })),
        ),
        (
            "for (uint64_t i = 1; i < 8; i++)\nfor (uint64_t j = 0; j < i - 1; j++) { }",
            Ok((2, 0, 5)),
        ),
        (
            "for (uint64_t i = 0; i < x; i++) { }",
            Err(Fault::NotAffine(Place {
                line: 2,
                column: 26,
            })),
        ),
        (
            "for (uint64_t i = 0; i < i; i++) { }",
            Err(Fault::NotCanonical(Place { line: 2, column: 1 })),
        ),
        // Bodies.
        ("for (uint64_t i = 0; i < 8; i++) { x = 0; }", Ok((1, 0, 7))),
        (
            "for (uint64_t i = 0; i < 8; i++) { i = 0; }",
            Err(Fault::NotCanonical(Place { line: 2, column: 1 })),
        ),
    ];
    all_told(&rt, rt.alloc(), ROWS);
}

#[test]
fn depths(rt: HostRuntime) {
    const ROWS: &[(&str, Entered)] = &[
        (EIGHT_LOOPS, Ok((8, 0, 1))),
        (
            NINE_LOOPS,
            Err(Fault::Limit(Place {
                line: 10,
                column: 1,
            })),
        ),
    ];
    all_told(&rt, rt.alloc(), ROWS);
}

/// What is told of the loop that the last statement of a kernel is.
#[derive(Clone, Copy)]
enum LoopFact {
    /// Whether it assigns its variable in its body.
    AssignsOwn(bool),
    /// What it does behind each turn, as a step of `i` and as one of `j`.
    Steps(Option<Stride>, Option<Stride>),
}

impl Expected for LoopFact {
    fn is_told(self, _alloc: Global, kernel: &Kernel, _directives: &Directives) -> bool {
        let Some(Stmt::For(head, body)) = last_statement(kernel) else {
            return false;
        };
        match self {
            LoopFact::AssignsOwn(assigned) => assigns(head.variable, body) == assigned,
            LoopFact::Steps(i, j) => {
                stride_of(I, &head.step) == i && stride_of(J, &head.step) == j
            }
        }
    }
}

#[test]
fn bodies(rt: HostRuntime) {
    const ROWS: &[(&str, LoopFact)] = &[
        (
            "for (uint64_t i = 0; i < 8; i++) { x = 0; }",
            LoopFact::AssignsOwn(false),
        ),
        (
            "for (uint64_t i = 0; i < 8; i++) { i = 0; }",
            LoopFact::AssignsOwn(true),
        ),
    ];
    all_told(&rt, rt.alloc(), ROWS);
}

#[test]
fn steps(rt: HostRuntime) {
    const RISING: Stride = Stride {
        direction: Direction::Rising,
        by: 3,
    };
    const ROWS: &[(&str, LoopFact)] = &[(
        "for (uint64_t i = 0; i < 8; i = i + 3) { }",
        LoopFact::Steps(Some(RISING), None),
    )];
    all_told(&rt, rt.alloc(), ROWS);
}
