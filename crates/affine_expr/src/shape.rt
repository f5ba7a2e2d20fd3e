//! The shapes of expressions.

ghost use Rattle.std.specs.Prelude.{◌≡◌};
ghost use Rattle.ktree.specs.View.{expr_of, exprs_of, binary_of};
ghost use Rattle.affine_expr.specs.Shapes.{shape_by, variable_shape, shape_of};

use affine::VarBox;
use ktree::{BinaryOp, Expr, UnaryOp, VarId};

/// The shape of what two expressions make.
fn shape_by(operator: BinaryOp, left: bool, right: bool) -> Option<bool>
    ensures { result ≡ shape_by (binary_of operator) left right }
{
    match operator {
        BinaryOp::Plus => Some(left && right),
        BinaryOp::Minus => Some(left && right),
        BinaryOp::Times => {
            if left || right {
                Some(left && right)
            } else {
                None
            }
        }
        _ => None,
    }
}

/// The shape of a name with these subscripts.
fn variable_shape(bounds: &VarBox, variable: VarId, subscripts: &[Expr]) -> Option<bool>
    ensures { result ≡ variable_shape bounds.now variable.0 (exprs_of subscripts.now) }
{
    match subscripts {
        [] => {
            if bounds.has(variable) {
                Some(false)
            } else {
                None
            }
        }
        [_, ..] => None,
    }
}

/// Whether no variable stands in an expression, where it is linear in the variables of the box.
pub(crate) fn shape_of(expr: &Expr, bounds: &VarBox) -> Option<bool>
    ensures { result ≡ shape_of bounds.now (expr_of expr.now) }
{
    match expr {
        Expr::Literal(_, _) => Some(true),
        Expr::Constant(_, _) => Some(true),
        Expr::Object(variable, subscripts, _) => {
            variable_shape(bounds, *variable, subscripts.as_slice())
        }
        Expr::Unary(UnaryOp::Negate, operand) => shape_of(operand, bounds),
        Expr::Unary(UnaryOp::Complement, _) => None,
        Expr::Binary(operator, left, right) => {
            let left = shape_of(left, bounds)?;
            let right = shape_of(right, bounds)?;
            shape_by(*operator, left, right)
        }
        Expr::Conditional(_, _, _) => None,
    }
}
