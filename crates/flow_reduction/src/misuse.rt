//! Where a statement uses reduction variables in another way than in updates.

ghost use Rattle.std.specs.Prelude.{◌≡◌, ◌&&◌, is_none};
ghost use Rattle.semantics.specs.Tree as meant;
ghost use Rattle.semantics.specs.Tree.{Items};
ghost use Rattle.semantics.specs.Meaning.Agrees.{names_expr, names_source, names_cond, names_step};
ghost use Rattle.law_roles.specs.Updates.{operator_of, is_plain, updates, updates_by, is_plain_operand, reduces, all_reduce};
ghost use Rattle.law_roles.specs.Updates as meaning;
ghost use Rattle.ktree.specs.DirectiveView as view;
ghost use Rattle.ktree.specs.View.{binary_of, expr_of, exprs_of, cond_of, source_of, increment_of, stmt_of, with_item, items_of};
ghost use Rattle.flow_reduction.specs.Reduced.{reduced};

use crate::choices::is_choice;
use crate::naming::{
    named_in_condition, named_in_expression, named_in_parts, named_in_source, named_in_start,
    named_in_step, named_in_target,
};
use crate::reduction::{Reduction, operator, reduced_at};
use crate::updates::{combines_by, number_operand, truth_operand};
use ktree::{BinaryOp, Cond, Expr, Head, Item, Place, ReductionOperator, Source, Stmt, Target};

/// Which of the names in an update is told where its operand names reduction variables: where the variable that is updated is among
/// them, the whole is no update of it, and it is named first on the left.
fn name_at_fault(target: &Target, own: Option<Place>, any: Option<Place>) -> Option<Place>
    ensures { is_none result ≡ is_none any }
{
    match any {
        None => None,
        Some(place) => match own {
            None => Some(place),
            Some(_) => Some(target.mention.name),
        },
    }
}

/// The misuse in an update whose operand is a number.
fn number_misuse(
    target: &Target,
    operator: ReductionOperator,
    operand: &Expr,
    reductions: &[Reduction],
) -> Option<Place>
    ensures { is_none result
        ≡ names_expr (is_plain (reduced reductions.now)) (expr_of operand.now) }
{
    let own = [Reduction {
        variable: target.variable,
        operator,
    }];
    name_at_fault(
        target,
        named_in_expression(operand, &own),
        named_in_expression(operand, reductions),
    )
}

/// The same of a condition.
fn truth_misuse(
    target: &Target,
    operator: ReductionOperator,
    operand: &Cond,
    reductions: &[Reduction],
) -> Option<Place>
    ensures { is_none result
        ≡ names_cond (is_plain (reduced reductions.now)) (cond_of operand.now) }
{
    let own = [Reduction {
        variable: target.variable,
        operator,
    }];
    name_at_fault(
        target,
        named_in_condition(operand, &own),
        named_in_condition(operand, reductions),
    )
}

/// The misuse in an assignment of a number to a reduction variable.
fn number_assigned(
    target: &Target,
    operator: ReductionOperator,
    value: &Expr,
    reductions: &[Reduction],
) -> Option<Place>
    ensures { is_none result ≡ is_plain_operand (reduced reductions.now)
        (meaning.operand (view.operator_of operator) target.now.variable.0
        (meant.Number (expr_of value.now))) }
{
    match number_operand(operator, target.variable, value) {
        None => Some(target.mention.name),
        Some(operand) => number_misuse(target, operator, operand, reductions),
    }
}

/// The same of a condition.
fn truth_assigned(
    target: &Target,
    operator: ReductionOperator,
    value: &Cond,
    reductions: &[Reduction],
) -> Option<Place>
    ensures { is_none result ≡ is_plain_operand (reduced reductions.now)
        (meaning.operand (view.operator_of operator) target.now.variable.0
        (meant.Truth (cond_of value.now))) }
{
    match truth_operand(operator, target.variable, value) {
        None => Some(target.mention.name),
        Some(operand) => truth_misuse(target, operator, operand, reductions),
    }
}

/// The misuse in an assignment to a scalar.
fn scalar_assigned(target: &Target, value: &Source, reductions: &[Reduction]) -> Option<Place>
    ensures { is_none result ≡ updates (reduced reductions.now)
        (operator_of (reduced reductions.now) target.now.variable.0) target.now.variable.0
        (source_of value.now) }
{
    let Some(operator) = operator(target.variable, reductions) else {
        return named_in_source(value, reductions);
    };
    match value {
        Source::Number(number) => number_assigned(target, operator, number, reductions),
        Source::Truth(condition) => truth_assigned(target, operator, condition, reductions),
    }
}

/// The misuse in an assignment.
fn assignment_misuse(target: &Target, value: &Source, reductions: &[Reduction]) -> Option<Place>
    ensures { is_none result ≡ reduces (reduced reductions.now)
        (meant.Assign target.now.variable.0 (exprs_of target.now.subscripts.items)
        (source_of value.now)) }
{
    if target.subscripts.is_empty() {
        return scalar_assigned(target, value, reductions);
    }
    named_in_target(target, reductions).or(named_in_source(value, reductions))
}

/// The misuse in `op=` of a scalar.
fn scalar_updated(
    target: &Target,
    by: BinaryOp,
    value: &Expr,
    reductions: &[Reduction],
) -> Option<Place>
    ensures { is_none result ≡ updates_by (reduced reductions.now)
        (operator_of (reduced reductions.now) target.now.variable.0) (binary_of by)
        (expr_of value.now) }
{
    let Some(operator) = operator(target.variable, reductions) else {
        return named_in_expression(value, reductions);
    };
    if combines_by(operator, by) {
        number_misuse(target, operator, value, reductions)
    } else {
        Some(target.mention.name)
    }
}

/// The misuse in `op=`.
fn update_misuse(
    target: &Target,
    by: BinaryOp,
    value: &Expr,
    reductions: &[Reduction],
) -> Option<Place>
    ensures { is_none result ≡ reduces (reduced reductions.now)
        (meant.Update target.now.variable.0 (exprs_of target.now.subscripts.items)
        (binary_of by) (expr_of value.now)) }
{
    if target.subscripts.is_empty() {
        return scalar_updated(target, by, value, reductions);
    }
    named_in_target(target, reductions).or(named_in_expression(value, reductions))
}

/// The misuse in a loop's head.
fn in_head(head: &Head, reductions: &[Reduction]) -> Option<Place>
    ensures { is_none result ≡ (is_plain (reduced reductions.now) head.now.variable.0
        && names_source (is_plain (reduced reductions.now)) (source_of head.now.start)
        && names_cond (is_plain (reduced reductions.now)) (cond_of head.now.test)
        && names_step (is_plain (reduced reductions.now)) (increment_of head.now.step)) }
{
    let start = reduced_at(head.variable, reductions, head.place).or(named_in_source(
        &head.start,
        reductions,
    ));
    let test = start.or(named_in_condition(&head.test, reductions));
    test.or(named_in_step(&head.step, head.place, reductions))
}

/// Where a statement first uses a reduction variable in another way than in an update by its own operator; none where it does not
/// (OpenMP 5.2, 5.5.8). An update is `s op= e`, `s = s op e`, `s = s && c`, `s = s || c`, and of the least or the greatest
/// `if (e < s) s = e;` or `if (e > s) s = e;`, where no reduction variable is named in the operand.
#[cycle(misusing)]
pub fn first_misuse(statement: &Stmt, reductions: &[Reduction]) -> Option<Place>
    ensures { is_none result ≡ reduces (reduced reductions.now) (stmt_of statement.now) }
{
    match statement {
        Stmt::Assign(target, value) => assignment_misuse(target, value, reductions),
        Stmt::Update(target, by, value) => update_misuse(target, *by, value, reductions),
        Stmt::If(test, then, None) => {
            if is_choice(test, then, reductions) {
                return None;
            }
            named_in_condition(test, reductions).or(first_misuse(then, reductions))
        }
        Stmt::If(test, then, Some(other)) => {
            let before = named_in_condition(test, reductions).or(first_misuse(then, reductions));
            before.or(first_misuse(other, reductions))
        }
        Stmt::For(head, body) => in_head(head, reductions).or(first_misuse(body, reductions)),
        Stmt::Block(items) => first_misuse_among(items, reductions),
        Stmt::Print(parts, _) => named_in_parts(parts, reductions),
    }
}

/// The same of a block's items.
#[cycle(misusing)]
pub fn first_misuse_among(items: &[Item], reductions: &[Reduction]) -> Option<Place>
    ensures { is_none result ≡ all_reduce (reduced reductions.now) (items_of items.now) }
{
    for item in items {
        if let Some(place) = in_item(item, reductions) {
            return Some(place);
        }
    }
    None
}

/// The first in an item.
#[cycle(misusing)]
fn in_item(item: &Item, reductions: &[Reduction]) -> Option<Place>
    ensures { (rest : Items) → all_reduce (reduced reductions.now) (with_item item.now rest)
        ≡ (is_none result && all_reduce (reduced reductions.now) rest) }
{
    match item {
        Item::Directive(_) => None,
        Item::Local(local) => {
            let declared = reduced_at(local.variable, reductions, local.place);
            declared.or(named_in_start(&local.start, reductions))
        }
        Item::Statement(inner) => first_misuse(inner, reductions),
    }
}
