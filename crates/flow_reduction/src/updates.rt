//! What an assignment combines with a reduction variable, if it is an update by its operator.

ghost use Rattle.std.specs.Prelude.{◌≡◌, option_map};
ghost use Rattle.semantics.specs.Tree.{Number, Truth};
ghost use Rattle.law_roles.specs.Updates.{combines, operand};
ghost use Rattle.ktree.specs.View.{binary_of, expr_of, cond_of};
ghost use Rattle.ktree.specs.DirectiveView.{operator_of};
ghost use Rattle.flow_reduction.specs.Updates.{scalar_of, is_the, tests};

use ktree::{BinaryOp, Cond, Expr, ReductionOperator, VarId};

/// The scalar that an expression names alone.
pub(crate) fn scalar(expression: &Expr) -> Option<VarId>
    ensures { option_map (λ x. x.0) result ≡ scalar_of (expr_of expression.now) }
{
    match expression {
        Expr::Object(variable, subscripts, _) => {
            if subscripts.is_empty() {
                Some(*variable)
            } else {
                None
            }
        }
        _ => None,
    }
}

/// Whether an expression names this scalar alone.
fn is_scalar(expression: &Expr, variable: VarId) -> bool
    ensures { result ≡ is_the variable.0 (scalar_of (expr_of expression.now)) }
{
    match scalar(expression) {
        None => false,
        Some(other) => other == variable,
    }
}

/// Whether a condition is this scalar alone.
fn is_tested(condition: &Cond, variable: VarId) -> bool
    ensures { result ≡ tests variable.0 (cond_of condition.now) }
{
    match condition {
        Cond::NotZero(expression) => is_scalar(expression, variable),
        _ => false,
    }
}

/// Whether an operator between two numbers is that of a reduction.
pub(crate) fn combines_by(operator: ReductionOperator, by: BinaryOp) -> bool
    ensures { result ≡ combines (operator_of operator) (binary_of by) }
{
    match operator {
        ReductionOperator::Sum => by == BinaryOp::Plus,
        ReductionOperator::Product => by == BinaryOp::Times,
        ReductionOperator::And => by == BinaryOp::BitAnd,
        ReductionOperator::Or => by == BinaryOp::BitOr,
        ReductionOperator::Xor => by == BinaryOp::BitXor,
        ReductionOperator::LogicalAnd => false,
        ReductionOperator::LogicalOr => false,
        ReductionOperator::Max => false,
        ReductionOperator::Min => false,
    }
}

/// What a number that is assigned to a reduction variable combines with it by its operator: `e` of `s = s + e`. None where the
/// assignment is no update (OpenMP 5.2, 5.5.8).
pub(crate) fn number_operand(
    operator: ReductionOperator,
    variable: VarId,
    value: &Expr,
) -> Option<&Expr>
    ensures { option_map (λ e. Number (expr_of e.now)) result
        ≡ operand (operator_of operator) variable.0 (Number (expr_of value.now)) }
{
    match value {
        Expr::Binary(by, first, second) => {
            if combines_by(operator, *by) && is_scalar(first, variable) {
                Some(second)
            } else {
                None
            }
        }
        _ => None,
    }
}

/// The same of a condition: `c` of `s = s && c` and of `s = s || c`.
pub(crate) fn truth_operand(
    operator: ReductionOperator,
    variable: VarId,
    value: &Cond,
) -> Option<&Cond>
    ensures { option_map (λ c. Truth (cond_of c.now)) result
        ≡ operand (operator_of operator) variable.0 (Truth (cond_of value.now)) }
{
    match value {
        Cond::LogicalAnd(first, second) => {
            if operator == ReductionOperator::LogicalAnd && is_tested(first, variable) {
                Some(second)
            } else {
                None
            }
        }
        Cond::LogicalOr(first, second) => {
            if operator == ReductionOperator::LogicalOr && is_tested(first, variable) {
                Some(second)
            } else {
                None
            }
        }
        _ => None,
    }
}
