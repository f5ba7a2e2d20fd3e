//! Forms of expressions, and the faults of others.

use crate::texts::{I, J, last_statement};
use crate::told::{Expected, all_told};
use affine::VarBox;
use affine_expr::*;
use ktree::{BinaryOp, Expr, Kernel, Place, Refusal, Source, Stmt, Suffix, Target};
use pragma::Directives;
use std::alloc::{AllocError, Global};

const HERE: Place = Place { line: 3, column: 5 };

/// Binds i from 0 to 7 and j from 0 to 3.
fn bind_both(bounds: &mut VarBox) -> Result<(), Refusal> {
    bounds.bind(I, 0, 7, HERE)?;
    bounds.bind(J, 0, 3, HERE)
}

/// The number and the coefficients of i and j of the form that the last statement of a kernel assigns.
type Parts = Result<(i64, i64, i64), Fault>;

/// Those of an expression in a box.
fn parts_of(alloc: Global, expr: &Expr, bounds: &VarBox) -> Parts {
    let form = form_of(alloc, expr, bounds, HERE)?;
    Ok((
        form.constant_term(),
        form.coefficient(I),
        form.coefficient(J),
    ))
}

impl Expected for Parts {
    fn is_told(self, alloc: Global, kernel: &Kernel, _directives: &Directives) -> bool {
        let Some(Stmt::Assign(_, Source::Number(expr))) = last_statement(kernel) else {
            return false;
        };
        let mut bounds = VarBox::new(alloc);
        bind_both(&mut bounds).is_ok() && parts_of(alloc, expr, &bounds) == self
    }
}

#[test]
fn forms_of_expressions(rt: HostRuntime) {
    const ROWS: &[(&str, Parts)] = &[
        (
            "uint64_t i; uint64_t j; s = 3ull * i - (j - 5ull);",
            Ok((5, 3, -1)),
        ),
        ("uint64_t i; uint64_t j; s = -i * 2ull + j;", Ok((0, -2, 1))),
        (
            "uint64_t i; uint64_t j; s = 4294967296ull;",
            Ok((1 << 32, 0, 0)),
        ),
        (
            "uint64_t i; uint64_t j; s = 4294967297ull;",
            Err(Fault::Limit(HERE)),
        ),
        ("uint64_t i; uint64_t j; s = i + j;", Ok((0, 1, 1))),
        (
            "uint64_t i; uint64_t j; s = i + x;",
            Err(Fault::NotAffine(HERE)),
        ),
        (
            "uint64_t i; uint64_t j; s = i * j;",
            Err(Fault::NotAffine(HERE)),
        ),
        (
            "uint64_t i; uint64_t j; s = i ^ j;",
            Err(Fault::NotAffine(HERE)),
        ),
        (
            "uint64_t i; uint64_t j; s = 4294967297ull + (i + j);",
            Err(Fault::Limit(HERE)),
        ),
        (
            "uint64_t i; uint64_t j; s = 4294967297ull + i * j;",
            Err(Fault::NotAffine(HERE)),
        ),
    ];
    all_told(&rt, rt.alloc(), ROWS);
}

/// A literal without `ull`.
fn bare(alloc: Global, value: u64) -> Result<Box<Expr>, AllocError> {
    Ok(Box::new(alloc, Expr::Literal(value, Suffix::Bare))?)
}

/// The constant that `left op right` is.
fn constant_of_operation(
    alloc: Global,
    op: BinaryOp,
    left: u64,
    right: u64,
) -> Result<Option<u32>, AllocError> {
    let left = bare(alloc, left)?;
    let right = bare(alloc, right)?;
    Ok(constant(&Expr::Binary(op, left, right)))
}

/// The constant that a literal with `ull` is.
fn constant_of_long(value: u64) -> Option<u32> {
    constant(&Expr::Literal(value, Suffix::Ull))
}

#[test]
fn constants_of_expressions(rt: HostRuntime) {
    let alloc = rt.alloc();
    assert!(rt; constant_of_operation(alloc, BinaryOp::Times, 6, 7) == Ok(Some(42)));
    assert!(rt; constant_of_operation(alloc, BinaryOp::Minus, 6, 7) == Ok(None));
    assert!(rt; constant_of_operation(alloc, BinaryOp::Plus, 2147483647, 1) == Ok(None));
    assert!(rt; constant_of_long(1).is_none());
}

/// Whether the subscripts of what the last statement of a kernel assigns are affine.
type Subscripts = Result<(), Fault>;

/// Whether those of a target in a box are.
fn subscripts_of(alloc: Global, target: &Target, bounds: &VarBox) -> Subscripts {
    are_affine(alloc, target.subscripts.as_slice(), &target.mention, bounds)
}

impl Expected for Subscripts {
    fn is_told(self, alloc: Global, kernel: &Kernel, _directives: &Directives) -> bool {
        let Some(Stmt::Assign(target, _)) = last_statement(kernel) else {
            return false;
        };
        let mut bounds = VarBox::new(alloc);
        bind_both(&mut bounds).is_ok() && subscripts_of(alloc, target, &bounds) == self
    }
}

#[test]
fn subscripts_have_places(rt: HostRuntime) {
    const ROWS: &[(&str, Subscripts)] = &[
        ("uint64_t i; uint64_t j; B[i][i + j] = 1;", Ok(())),
        (
            "uint64_t i; uint64_t j; B[i][i * j] = 1;",
            Err(Fault::NotAffine(Place {
                line: 2,
                column: 30,
            })),
        ),
    ];
    all_told(&rt, rt.alloc(), ROWS);
}

/// The first of some faults whose refusal has another number.
fn first_other_fault(rows: &[(Fault, u8)]) -> Option<Fault> {
    for (fault, expected) in rows {
        if Refusal::from(*fault).number() != *expected {
            return Some(*fault);
        }
    }
    None
}

#[test]
fn faults_have_numbers(rt: HostRuntime) {
    const ROWS: &[(Fault, u8)] = &[
        (Fault::NotCanonical(HERE), 6),
        (Fault::MayWrap(HERE), 7),
        (Fault::NotAffine(HERE), 8),
        (Fault::NotPerfect(HERE), 12),
        (Fault::Limit(HERE), 21),
        (Fault::OutOfMemory, 23),
    ];
    assert!(rt; first_other_fault(ROWS).is_none());
}
