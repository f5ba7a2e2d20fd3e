//! Variables that stand in expressions.

ghost use Rattle.std.specs.Prelude.{◌≡◌};
ghost use Rattle.ktree.specs.View.{expr_of, exprs_of, cond_of, source_of};
ghost use Rattle.nest_loop.specs.Mentions.{mentions, mentions_among, mentions_cond, mentions_source};

use ktree::{Cond, Expr, Source, VarId};

/// Whether the variable stands in an expression.
#[cycle(expression)]
pub fn mentions(variable: VarId, expr: &Expr) -> bool
    ensures { result ≡ mentions variable.0 (expr_of expr.now) }
{
    match expr {
        Expr::Literal(_, _) => false,
        Expr::Constant(_, _) => false,
        Expr::Object(other, subscripts, _) => {
            other.0 == variable.0 || some_mentions(variable, subscripts.as_slice())
        }
        Expr::Unary(_, operand) => mentions(variable, operand),
        Expr::Binary(_, left, right) => mentions(variable, left) || mentions(variable, right),
        Expr::Conditional(cond, left, right) => {
            cond_mentions(variable, cond) || mentions(variable, left) || mentions(variable, right)
        }
    }
}

/// Whether it stands in one of some subscripts.
#[cycle(expression)]
fn some_mentions(variable: VarId, subscripts: &[Expr]) -> bool
    ensures { result ≡ mentions_among variable.0 (exprs_of subscripts.now) }
{
    for subscript in subscripts {
        if mentions(variable, subscript) {
            return true;
        }
    }
    false
}

/// Whether it stands in a condition.
#[cycle(expression)]
fn cond_mentions(variable: VarId, cond: &Cond) -> bool
    ensures { result ≡ mentions_cond variable.0 (cond_of cond.now) }
{
    match cond {
        Cond::NotZero(expr) => mentions(variable, expr),
        Cond::Compare(_, left, right, _) => mentions(variable, left) || mentions(variable, right),
        Cond::Not(inner) => cond_mentions(variable, inner),
        Cond::LogicalAnd(left, right) => cond_mentions(variable, left)
            || cond_mentions(variable, right),
        Cond::LogicalOr(left, right) => {
            cond_mentions(variable, left) || cond_mentions(variable, right)
        }
    }
}

/// Whether it stands in a right side.
pub fn source_mentions(variable: VarId, source: &Source) -> bool
    ensures { result ≡ mentions_source variable.0 (source_of source.now) }
{
    match source {
        Source::Number(expr) => mentions(variable, expr),
        Source::Truth(cond) => cond_mentions(variable, cond),
    }
}
