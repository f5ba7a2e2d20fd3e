//! How a loop's variable goes on.

ghost use Rattle.std.specs.Prelude.{◌≡◌};
ghost use Rattle.ktree.specs.View.{expr_of, source_of, increment_of, binary_of, compare_of};
ghost use Rattle.nest_loop.specs.Canonical.{is_variable, stride_by, stride_in, stride_from, stride_op, stride_of, bound_of};

use affine_expr::constant;
use ktree::{BinaryOp, CompareOp, Expr, Increment, Source, VarId};

/// Whether a loop's variable rises or falls.
#[derive(Clone, Copy, Debug, PartialEq, Eq)]
pub enum Direction {
    Rising,
    Falling,
}

/// What a loop does behind each turn: by how much its variable rises or falls, at least 1.
#[derive(Clone, Copy, Debug, PartialEq, Eq)]
pub struct Stride {
    pub direction: Direction,
    pub by: u32,
}

/// How a loop's test compares its variable: by `<` or `>`, by `<=` or `>=`, or by `!=` (C11 6.5.8, 6.5.9).
#[derive(Clone, Copy, Debug, PartialEq, Eq)]
pub enum Bound {
    Strict,
    Inclusive,
    Unequal,
}

/// Whether an expression is the variable itself.
pub(crate) fn is_variable(variable: VarId, expr: &Expr) -> bool
    ensures { result ≡ is_variable variable.0 (expr_of expr.now) }
{
    match expr {
        Expr::Object(other, subscripts, _) => match subscripts.as_slice() {
            [] => other.0 == variable.0,
            [_, ..] => false,
        },
        _ => false,
    }
}

/// By a constant of at least 1.
fn stride_by(direction: Direction, by: Option<u32>) -> Option<Stride>
    ensures { result ≡ stride_by direction by }
{
    match by {
        None => None,
        Some(by) => {
            if 1 <= by {
                Some(Stride { direction, by })
            } else {
                None
            }
        }
    }
}

/// By a right side `v + s`, `s + v` or `v - s`.
fn stride_in(variable: VarId, expr: &Expr) -> Option<Stride>
    ensures { result ≡ stride_in variable.0 (expr_of expr.now) }
{
    match expr {
        Expr::Binary(BinaryOp::Plus, left, right) => {
            if is_variable(variable, left) {
                stride_by(Direction::Rising, constant(right))
            } else if is_variable(variable, right) {
                stride_by(Direction::Rising, constant(left))
            } else {
                None
            }
        }
        Expr::Binary(BinaryOp::Minus, left, right) => {
            if is_variable(variable, left) {
                stride_by(Direction::Falling, constant(right))
            } else {
                None
            }
        }
        _ => None,
    }
}

/// By a right side.
fn stride_from(variable: VarId, source: &Source) -> Option<Stride>
    ensures { result ≡ stride_from variable.0 (source_of source.now) }
{
    match source {
        Source::Number(expr) => stride_in(variable, expr),
        Source::Truth(_) => None,
    }
}

/// By `v += s` or `v -= s`.
fn stride_op(operator: BinaryOp, by: Option<u32>) -> Option<Stride>
    ensures { result ≡ stride_op (binary_of operator) by }
{
    match operator {
        BinaryOp::Plus => stride_by(Direction::Rising, by),
        BinaryOp::Minus => stride_by(Direction::Falling, by),
        _ => None,
    }
}

/// How the variable goes on, where the step is that of a canonical loop: `++`, `--`, `+=`, `-=`, or an assignment of the
/// variable plus or minus a constant, of at least 1 (OpenMP 5.2, 4.4.1).
pub fn stride_of(variable: VarId, step: &Increment) -> Option<Stride>
    ensures { result ≡ stride_of variable.0 (increment_of step.now) }
{
    match step {
        Increment::Up(other) => {
            if other.0 == variable.0 {
                stride_by(Direction::Rising, Some(1))
            } else {
                None
            }
        }
        Increment::Down(other) => {
            if other.0 == variable.0 {
                stride_by(Direction::Falling, Some(1))
            } else {
                None
            }
        }
        Increment::Change(other, operator, expr) => {
            if other.0 == variable.0 {
                stride_op(*operator, constant(expr))
            } else {
                None
            }
        }
        Increment::Set(other, source) => {
            if other.0 == variable.0 {
                stride_from(variable, source)
            } else {
                None
            }
        }
    }
}

/// What a test with this operator says of a loop with this step: with `<` and `<=` the variable rises, with `>` and `>=` it
/// falls, and with `!=` it goes by 1.
pub(crate) fn bound_of(operator: CompareOp, stride: Stride) -> Option<Bound>
    ensures { result ≡ bound_of (compare_of operator) stride }
{
    match (operator, stride.direction) {
        (CompareOp::Less, Direction::Rising) => Some(Bound::Strict),
        (CompareOp::LessEqual, Direction::Rising) => Some(Bound::Inclusive),
        (CompareOp::Greater, Direction::Falling) => Some(Bound::Strict),
        (CompareOp::GreaterEqual, Direction::Falling) => Some(Bound::Inclusive),
        (CompareOp::NotEqual, _) => {
            if stride.by == 1 {
                Some(Bound::Unequal)
            } else {
                None
            }
        }
        (_, _) => None,
    }
}
