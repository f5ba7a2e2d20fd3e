//! Constant expressions.

ghost use Rattle.std.specs.Prelude.{◌≡◌};
ghost use Rattle.semantics.specs.Source.Typing.{constant};
ghost use Rattle.ktree.specs.View.{expr_of};

use ktree::{Expr, Suffix, fold_constants, int_constant};

/// The value of a constant expression: literals without `ull` and enumeration constants by + - *, each step in
/// 0..2147483647 (C11 6.6).
pub fn constant(expr: &Expr) -> Option<u32>
    ensures { result ≡ constant (expr_of expr.now) }
{
    match expr {
        Expr::Literal(value, Suffix::Bare) => int_constant(*value),
        Expr::Constant(_name, value) => Some(*value),
        Expr::Binary(operator, left, right) => {
            let left = constant(left)?;
            let right = constant(right)?;
            fold_constants(*operator, left, right)
        }
        Expr::Literal(_, Suffix::Ull) => None,
        Expr::Object(_, _, _) => None,
        Expr::Unary(_, _) => None,
        Expr::Conditional(_, _, _) => None,
    }
}
