//! The choice of the least or the greatest: `if (e < s) s = e;` and `if (e > s) s = e;`.

ghost use Rattle.std.specs.Prelude.{◌≡◌};
ghost use Rattle.semantics.specs.Tree as meant;
ghost use Rattle.semantics.specs.Tree.{no_items};
ghost use Rattle.law_roles.specs.Updates.{operator_of, is_selected, assigns, sole};
ghost use Rattle.law_roles.specs.Updates as wanted;
ghost use Rattle.ktree.specs.View.{compare_of, expr_of, exprs_of, cond_of, source_of, stmt_of, with_item, items_of};
ghost use Rattle.flow_reduction.specs.Reduced.{reduced};

use crate::naming::named_in_expression;
use crate::reduction::{Reduction, operator};
use crate::same::same_expression;
use crate::updates::scalar;
use ktree::{CompareOp, Cond, Expr, Item, ReductionOperator, Source, Stmt, Target, VarId};

/// Whether a comparison with a variable on its right takes the least of a `min` reduction, or the greatest of a `max` reduction.
fn takes(variable: VarId, by: CompareOp, reductions: &[Reduction]) -> bool
    ensures { result ≡ is_selected (operator_of (reduced reductions.now) variable.0)
        (compare_of by) }
{
    match operator(variable, reductions) {
        Some(ReductionOperator::Min) => by == CompareOp::Less,
        Some(ReductionOperator::Max) => by == CompareOp::Greater,
        _ => false,
    }
}

/// Whether an assignment is of this value to this scalar.
fn is_assignment(target: &Target, source: &Source, variable: VarId, value: &Expr) -> bool
    ensures { result ≡ assigns variable.0 (expr_of value.now)
        (meant.Assign target.now.variable.0 (exprs_of target.now.subscripts.items)
        (source_of source.now)) }
{
    if !target.subscripts.is_empty() {
        return false;
    }
    match source {
        Source::Number(assigned) => {
            target.variable == variable && same_expression(value, assigned)
        }
        Source::Truth(_) => false,
    }
}

/// Whether a statement, in braces or not, is the assignment of this value to this scalar.
#[cycle(choosing)]
fn takes_value(statement: &Stmt, variable: VarId, value: &Expr) -> bool
    ensures { result ≡ assigns variable.0 (expr_of value.now) (sole (stmt_of statement.now)) }
{
    match statement {
        Stmt::Assign(target, source) => is_assignment(target, source, variable, value),
        Stmt::Update(_, _, _) => false,
        Stmt::If(_, _, None) => false,
        Stmt::If(_, _, Some(_)) => false,
        Stmt::For(_, _) => false,
        Stmt::Block(items) => items_take(items, variable, value),
        Stmt::Print(_, _) => false,
    }
}

/// Whether a block's items are such a statement alone.
#[cycle(choosing)]
fn items_take(items: &[Item], variable: VarId, value: &Expr) -> bool
    ensures { result ≡ assigns variable.0 (expr_of value.now)
        (sole (meant.Block (items_of items.now))) }
{
    match items {
        [] => false,
        [item] => item_takes(item, variable, value),
        [_, _, ..] => false,
    }
}

/// Whether an item that stands alone is.
#[cycle(choosing)]
fn item_takes(item: &Item, variable: VarId, value: &Expr) -> bool
    ensures { result ≡ assigns variable.0 (expr_of value.now)
        (sole (meant.Block (with_item item.now no_items))) }
{
    match item {
        Item::Directive(_) => false,
        Item::Local(_) => false,
        Item::Statement(statement) => takes_value(statement, variable, value),
    }
}

/// Whether an `if` with this test and this branch, and no `else`, updates a `min` or `max` reduction variable: the test compares a value with the variable, and the branch assigns the
/// same value to it (OpenMP 5.2, 5.5.8).
pub(crate) fn is_choice(test: &Cond, then: &Stmt, reductions: &[Reduction]) -> bool
    ensures { result
        ≡ wanted.is_choice (reduced reductions.now) (cond_of test.now) (stmt_of then.now) }
{
    let Cond::Compare(by, value, extreme, _) = test else {
        return false;
    };
    let Some(variable) = scalar(extreme) else {
        return false;
    };
    takes(variable, *by, reductions)
        && takes_value(then, variable, value)
        && named_in_expression(value, reductions).is_none()
}
