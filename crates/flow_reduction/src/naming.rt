//! Where reduction variables are named.

ghost use Rattle.std.specs.Prelude.{◌≡◌, ◌&&◌, map, [], ◌∷◌, is_none};
ghost use Rattle.semantics.specs.Meaning.Agrees.{names_expr, names_exprs, names_cond, names_source, names_start, names_step, names_parts};
ghost use Rattle.law_roles.specs.Updates.{is_plain};
ghost use Rattle.ktree.specs.View.{expr_of, exprs_of, cond_of, source_of, start_of, increment_of, part_of};
ghost use Rattle.flow_reduction.specs.Reduced.{reduced};

use crate::reduction::{Reduction, reduced_at};
use ktree::{Cond, Expr, Increment, Place, PrintPart, Source, Target};

/// Where an expression first names a reduction variable, if it does.
#[cycle(naming)]
pub(crate) fn named_in_expression(expression: &Expr, reductions: &[Reduction]) -> Option<Place>
    ensures { is_none result
        ≡ names_expr (is_plain (reduced reductions.now)) (expr_of expression.now) }
{
    match expression {
        Expr::Literal(_, _) => None,
        Expr::Constant(_, _) => None,
        Expr::Object(variable, subscripts, mention) => {
            reduced_at(*variable, reductions, mention.name).or(named_in_subscripts(
                subscripts, reductions,
            ))
        }
        Expr::Unary(_, operand) => named_in_expression(operand, reductions),
        Expr::Binary(_, left, right) => {
            named_in_expression(left, reductions).or(named_in_expression(right, reductions))
        }
        Expr::Conditional(test, left, right) => {
            let first = named_in_condition(test, reductions).or(named_in_expression(
                left, reductions,
            ));
            first.or(named_in_expression(right, reductions))
        }
    }
}

/// Where subscripts first do.
#[cycle(naming)]
fn named_in_subscripts(subscripts: &[Expr], reductions: &[Reduction]) -> Option<Place>
    ensures { is_none result
        ≡ names_exprs (is_plain (reduced reductions.now)) (exprs_of subscripts.now) }
{
    for subscript in subscripts {
        if let Some(place) = named_in_expression(subscript, reductions) {
            return Some(place);
        }
    }
    None
}

/// Where a condition first names a reduction variable, if it does.
#[cycle(naming)]
pub(crate) fn named_in_condition(condition: &Cond, reductions: &[Reduction]) -> Option<Place>
    ensures { is_none result
        ≡ names_cond (is_plain (reduced reductions.now)) (cond_of condition.now) }
{
    match condition {
        Cond::NotZero(expression) => named_in_expression(expression, reductions),
        Cond::Compare(_, left, right, _) => {
            named_in_expression(left, reductions).or(named_in_expression(right, reductions))
        }
        Cond::Not(inner) => named_in_condition(inner, reductions),
        Cond::LogicalAnd(left, right) => {
            named_in_condition(left, reductions).or(named_in_condition(right, reductions))
        }
        Cond::LogicalOr(left, right) => {
            named_in_condition(left, reductions).or(named_in_condition(right, reductions))
        }
    }
}

/// Where a right side first names a reduction variable, if it does.
pub(crate) fn named_in_source(value: &Source, reductions: &[Reduction]) -> Option<Place>
    ensures { is_none result
        ≡ names_source (is_plain (reduced reductions.now)) (source_of value.now) }
{
    match value {
        Source::Number(expression) => named_in_expression(expression, reductions),
        Source::Truth(condition) => named_in_condition(condition, reductions),
    }
}

/// Where the object that is assigned first does, or its subscripts.
pub(crate) fn named_in_target(target: &Target, reductions: &[Reduction]) -> Option<Place>
    ensures { is_none result ≡ (is_plain (reduced reductions.now) target.now.variable.0
        && names_exprs (is_plain (reduced reductions.now))
        (exprs_of target.now.subscripts.items)) }
{
    reduced_at(target.variable, reductions, target.mention.name).or(named_in_subscripts(
        &target.subscripts,
        reductions,
    ))
}

/// Where an initialiser first does.
pub(crate) fn named_in_start(value: &Option<Source>, reductions: &[Reduction]) -> Option<Place>
    ensures { is_none result
        ≡ names_start (is_plain (reduced reductions.now)) (start_of value.now) }
{
    match value {
        None => None,
        Some(value) => named_in_source(value, reductions),
    }
}

/// Where a loop's step first does; what it changes is told at the loop's place.
pub(crate) fn named_in_step(
    increment: &Increment,
    place: Place,
    reductions: &[Reduction],
) -> Option<Place>
    ensures { is_none result
        ≡ names_step (is_plain (reduced reductions.now)) (increment_of increment.now) }
{
    match increment {
        Increment::Up(variable) => reduced_at(*variable, reductions, place),
        Increment::Down(variable) => reduced_at(*variable, reductions, place),
        Increment::Set(variable, value) => {
            reduced_at(*variable, reductions, place).or(named_in_source(value, reductions))
        }
        Increment::Change(variable, _, value) => {
            reduced_at(*variable, reductions, place).or(named_in_expression(value, reductions))
        }
    }
}

/// Where one part of what printf writes first does.
fn named_in_part(part: &PrintPart, reductions: &[Reduction]) -> Option<Place>
    ensures { is_none result
        ≡ names_parts (is_plain (reduced reductions.now)) (part_of part.now ∷ []) }
{
    match part {
        PrintPart::Characters(_) => None,
        PrintPart::Decimal(expression) => named_in_expression(expression, reductions),
    }
}

/// Where printf's arguments first do.
pub(crate) fn named_in_parts(parts: &[PrintPart], reductions: &[Reduction]) -> Option<Place>
    ensures { is_none result
        ≡ names_parts (is_plain (reduced reductions.now)) (map part_of parts.now) }
{
    for part in parts {
        if let Some(place) = named_in_part(part, reductions) {
            return Some(place);
        }
    }
    None
}
