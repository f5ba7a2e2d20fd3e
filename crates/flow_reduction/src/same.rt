//! Whether two expressions are the same tree.

ghost use Rattle.std.specs.Prelude.{◌≡◌};
ghost use Rattle.semantics.specs.Tree.{Literal, Constant, Object, Unary, Binary, Conditional, NotZero, Compare, Not, LogicalAnd, LogicalOr};
ghost use Rattle.law_roles.specs.Updates.{same_expr, same_exprs, same_cond};
ghost use Rattle.ktree.specs.View.{suffix_of, unary_of, binary_of, compare_of, expr_of, exprs_of, cond_of};

use ktree::{BinaryOp, CompareOp, Cond, Expr, Suffix, UnaryOp, VarId};

/// Whether two expressions are the same tree, whatever their places: constants compare by their names, variables by their declarations.
#[cycle(same)]
pub(crate) fn same_expression(left: &Expr, right: &Expr) -> bool
    ensures { result ≡ same_expr (expr_of left.now) (expr_of right.now) }
{
    match right {
        Expr::Literal(value, suffix) => is_literal(left, *value, *suffix),
        Expr::Constant(name, value) => is_constant(left, name, *value),
        Expr::Object(variable, subscripts, _) => is_object(left, *variable, subscripts),
        Expr::Unary(operator, operand) => is_unary(left, *operator, operand),
        Expr::Binary(operator, first, second) => is_binary(left, *operator, first, second),
        Expr::Conditional(test, first, second) => is_conditional(left, test, first, second),
    }
}

/// Whether subscripts are.
#[cycle(same)]
fn same_subscripts(left: &[Expr], right: &[Expr]) -> bool
    ensures { result ≡ same_exprs (exprs_of left.now) (exprs_of right.now) }
{
    let mut others = right;
    for subscript in left {
        let Some((other, rest)) = others.split_first() else {
            return false;
        };
        if !same_expression(subscript, other) {
            return false;
        }
        others = rest;
    }
    others.is_empty()
}

/// Whether two conditions are the same tree.
#[cycle(same)]
fn same_condition(left: &Cond, right: &Cond) -> bool
    ensures { result ≡ same_cond (cond_of left.now) (cond_of right.now) }
{
    match right {
        Cond::NotZero(number) => is_number(left, number),
        Cond::Compare(by, first, second, _) => is_compare(left, *by, first, second),
        Cond::Not(inner) => is_not(left, inner),
        Cond::LogicalAnd(first, second) => is_both(left, first, second),
        Cond::LogicalOr(first, second) => is_either(left, first, second),
    }
}

/// Whether an expression is this literal.
fn is_literal(left: &Expr, value: u64, suffix: Suffix) -> bool
    ensures { result ≡ same_expr (expr_of left.now) (Literal value (suffix_of suffix)) }
{
    match left {
        Expr::Literal(other, other_suffix) => *other == value && *other_suffix == suffix,
        _ => false,
    }
}

/// Whether it is this constant.
fn is_constant(left: &Expr, name: &str, value: u32) -> bool
    ensures { result ≡ same_expr (expr_of left.now) (Constant name.now value) }
{
    match left {
        Expr::Constant(other, other_value) => {
            other.as_bytes() == name.as_bytes() && *other_value == value
        }
        _ => false,
    }
}

/// Whether it names this object.
#[cycle(same)]
fn is_object(left: &Expr, variable: VarId, subscripts: &[Expr]) -> bool
    ensures { result ≡ same_expr (expr_of left.now) (Object variable.0 (exprs_of subscripts.now)) }
{
    match left {
        Expr::Object(other, others, _) => *other == variable && same_subscripts(others, subscripts),
        _ => false,
    }
}

/// Whether it is this operator of this operand.
#[cycle(same)]
fn is_unary(left: &Expr, operator: UnaryOp, operand: &Expr) -> bool
    ensures { result ≡ same_expr (expr_of left.now)
        (Unary (unary_of operator) (expr_of operand.now)) }
{
    match left {
        Expr::Unary(other, inner) => *other == operator && same_expression(inner, operand),
        _ => false,
    }
}

/// Whether it is this operator between these operands.
#[cycle(same)]
fn is_binary(left: &Expr, operator: BinaryOp, first: &Expr, second: &Expr) -> bool
    ensures { result ≡ same_expr (expr_of left.now)
        (Binary (binary_of operator) (expr_of first.now) (expr_of second.now)) }
{
    match left {
        Expr::Binary(other, one, two) => {
            *other == operator && same_expression(one, first) && same_expression(two, second)
        }
        _ => false,
    }
}

/// Whether it is this choice.
#[cycle(same)]
fn is_conditional(left: &Expr, test: &Cond, first: &Expr, second: &Expr) -> bool
    ensures { result ≡ same_expr (expr_of left.now)
        (Conditional (cond_of test.now) (expr_of first.now) (expr_of second.now)) }
{
    match left {
        Expr::Conditional(other, one, two) => {
            same_condition(other, test)
                && same_expression(one, first)
                && same_expression(two, second)
        }
        _ => false,
    }
}

/// Whether a condition is that this number is not 0.
#[cycle(same)]
fn is_number(left: &Cond, number: &Expr) -> bool
    ensures { result ≡ same_cond (cond_of left.now) (NotZero (expr_of number.now)) }
{
    match left {
        Cond::NotZero(other) => same_expression(other, number),
        _ => false,
    }
}

/// Whether it is this comparison.
#[cycle(same)]
fn is_compare(left: &Cond, by: CompareOp, first: &Expr, second: &Expr) -> bool
    ensures { result ≡ same_cond (cond_of left.now)
        (Compare (compare_of by) (expr_of first.now) (expr_of second.now)) }
{
    match left {
        Cond::Compare(other, one, two, _) => {
            *other == by && same_expression(one, first) && same_expression(two, second)
        }
        _ => false,
    }
}

/// Whether it is that this one does not hold.
#[cycle(same)]
fn is_not(left: &Cond, inner: &Cond) -> bool
    ensures { result ≡ same_cond (cond_of left.now) (Not (cond_of inner.now)) }
{
    match left {
        Cond::Not(other) => same_condition(other, inner),
        _ => false,
    }
}

/// Whether it is that both of these hold.
#[cycle(same)]
fn is_both(left: &Cond, first: &Cond, second: &Cond) -> bool
    ensures { result ≡ same_cond (cond_of left.now)
        (LogicalAnd (cond_of first.now) (cond_of second.now)) }
{
    match left {
        Cond::LogicalAnd(one, two) => same_condition(one, first) && same_condition(two, second),
        _ => false,
    }
}

/// Whether it is that one of these holds.
#[cycle(same)]
fn is_either(left: &Cond, first: &Cond, second: &Cond) -> bool
    ensures { result ≡ same_cond (cond_of left.now)
        (LogicalOr (cond_of first.now) (cond_of second.now)) }
{
    match left {
        Cond::LogicalOr(one, two) => same_condition(one, first) && same_condition(two, second),
        _ => false,
    }
}
