//! Terms and tests from expressions and conditions.

ghost use Rattle.std.specs.Prelude.{IfOk, ◌≡◌, ◌<◌, length, slice_index};
ghost use Rattle.ktree.specs.View.{expr_of, exprs_of, cond_of, source_of};
ghost use Rattle.semantics.specs.Tree.{Object};
ghost use Rattle.semantics.specs.Meaning.Value.{source_value};
ghost use Rattle.lower_code.specs.Meaning.{Gives, MeansValue, MeansTest, MeansPlace};

use crate::laid::Laid;
use ktree::{BinaryOp, CompareOp, Cond, Expr, Source, VarId};
use lower_machine::{
    Register, Term, Test, beside, binary, both, comparison, conditional, either, element, negation,
    number, unary,
};
use std::alloc::{AllocError, Global};

/// The length of a dimension, and 0 where there is none.
fn length_of(lengths: &[u64], dimension: u64) -> u64
    ensures { result ≡ slice_index lengths.now dimension }
{
    match lengths.get(dimension as usize) {
        Some(length) => *length,
        None => 0,
    }
}

/// The term of an expression (C11 6.5).
#[cycle(expression)]
pub(crate) fn value(alloc: Global, expr: &Expr, layout: &[Laid]) -> Result<Term, AllocError>
    ensures { IfOk result (MeansValue layout.now (expr_of expr.now)) }
{
    match expr {
        Expr::Literal(n, _suffix) => Ok(number(*n)),
        Expr::Constant(_name, n) => Ok(number(*n as u64)),
        Expr::Object(x, subscripts, _mention) => object(alloc, *x, subscripts, layout),
        Expr::Unary(op, a) => {
            let a = value(alloc, a, layout)?;
            unary(alloc, *op, a)
        }
        Expr::Binary(op, a, b) => {
            let a = value(alloc, a, layout)?;
            let (a, b) = beside(a, value(alloc, b, layout))?;
            binary(alloc, *op, a, b)
        }
        Expr::Conditional(c, a, b) => {
            let c = test(alloc, c, layout)?;
            let (c, a) = beside(c, value(alloc, a, layout))?;
            let (first, b) = beside((c, a), value(alloc, b, layout))?;
            conditional(alloc, first.0, first.1, b)
        }
    }
}

/// The test of a condition (C11 6.5.8, 6.5.9, 6.5.13, 6.5.14).
///
/// # Errors
///
/// Where memory runs out.
#[cycle(expression)]
pub fn test(alloc: Global, cond: &Cond, layout: &[Laid]) -> Result<Test, AllocError>
    ensures { IfOk result (MeansTest layout.now (cond_of cond.now)) }
{
    match cond {
        Cond::NotZero(a) => {
            let a = value(alloc, a, layout)?;
            comparison(alloc, CompareOp::NotEqual, a, number(0))
        }
        Cond::Compare(op, a, b, _place) => {
            let a = value(alloc, a, layout)?;
            let (a, b) = beside(a, value(alloc, b, layout))?;
            comparison(alloc, *op, a, b)
        }
        Cond::Not(c) => {
            let c = test(alloc, c, layout)?;
            negation(alloc, c)
        }
        Cond::LogicalAnd(c, d) => {
            let c = test(alloc, c, layout)?;
            let (c, d) = beside(c, test(alloc, d, layout))?;
            both(alloc, c, d)
        }
        Cond::LogicalOr(c, d) => {
            let c = test(alloc, c, layout)?;
            let (c, d) = beside(c, test(alloc, d, layout))?;
            either(alloc, c, d)
        }
    }
}

/// The term of an object: the register of a local, or the cell of a file-scope object.
#[cycle(expression)]
pub(crate) fn object(
    alloc: Global,
    variable: VarId,
    subscripts: &[Expr],
    layout: &[Laid],
) -> Result<Term, AllocError>
    ensures { IfOk result
        (MeansValue layout.now (Object variable.0 (exprs_of subscripts.now))) }
{
    if (variable.0 as usize) < layout.len() {
        let at = place(alloc, variable, subscripts, layout)?;
        element(alloc, at)
    } else {
        Ok(Term::Local(Register { at: variable.0 }))
    }
}

/// The term of an object's place among the cells, row by row (C11 6.5.2.1, 3).
#[cycle(expression)]
pub(crate) fn place(
    alloc: Global,
    variable: VarId,
    subscripts: &[Expr],
    layout: &[Laid],
) -> Result<Term, AllocError>
    requires { variable.0 < length layout.now }
    ensures { IfOk result (MeansPlace layout.now variable.0 (exprs_of subscripts.now)) }
{
    let laid = &layout[variable.0 as usize];
    let mut at = number(0);
    for (d, subscript) in subscripts.iter().enumerate() {
        let row = binary(
            alloc,
            BinaryOp::Times,
            at,
            number(length_of(&laid.lengths, d as u64)),
        )?;
        let (row, index) = beside(row, value(alloc, subscript, layout))?;
        at = binary(alloc, BinaryOp::Plus, row, index)?;
    }
    binary(alloc, BinaryOp::Plus, number(laid.first), at)
}

/// The term of what an assignment takes from its right side: a condition gives 1 or 0 (C11 6.5.8, 6).
pub(crate) fn source_value(
    alloc: Global,
    source: &Source,
    layout: &[Laid],
) -> Result<Term, AllocError>
    ensures { IfOk result
        (Gives layout.now (λ s. source_value s (source_of source.now))) }
{
    match source {
        Source::Number(e) => value(alloc, e, layout),
        Source::Truth(c) => {
            let c = test(alloc, c, layout)?;
            conditional(alloc, c, number(1), number(0))
        }
    }
}
