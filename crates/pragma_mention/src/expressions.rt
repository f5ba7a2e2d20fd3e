//! The names in expressions.

ghost use Rattle.std.specs.Prelude.{◌≡◌, ◌&&◌, map, [], ◌∷◌, is_none};
ghost use Rattle.semantics.specs.Meaning.Agrees.{names_expr, names_exprs, names_cond, names_source, names_start, names_step, names_parts};
ghost use Rattle.ktree.specs.View.{expr_of, exprs_of, cond_of, source_of, start_of, increment_of, part_of};
ghost use Rattle.pragma_mention.specs.Sets.{holds};

use crate::sets::unknown;
use ktree::{Cond, Expr, Increment, Place, PrintPart, Source, Target};
use std::collections::HashSet;

/// Where an expression first names a variable that is not in a set.
#[cycle(expression)]
pub(crate) fn expr(known: &HashSet<u32>, expression: &Expr) -> Option<Place>
    ensures { is_none result ≡ names_expr (holds known.now) (expr_of expression.now) }
{
    match expression {
        Expr::Literal(_, _) => None,
        Expr::Constant(_, _) => None,
        Expr::Object(variable, subscripts, mention) => {
            unknown(known, *variable, mention.name).or(exprs(known, subscripts))
        }
        Expr::Unary(_, operand) => expr(known, operand),
        Expr::Binary(_, left, right) => expr(known, left).or(expr(known, right)),
        Expr::Conditional(test, left, right) => {
            let first = cond(known, test).or(expr(known, left));
            first.or(expr(known, right))
        }
    }
}

/// Where subscripts do.
#[cycle(expression)]
pub(crate) fn exprs(known: &HashSet<u32>, subscripts: &[Expr]) -> Option<Place>
    ensures { is_none result ≡ names_exprs (holds known.now) (exprs_of subscripts.now) }
{
    for subscript in subscripts {
        if let Some(place) = expr(known, subscript) {
            return Some(place);
        }
    }
    None
}

/// Where a condition does.
#[cycle(expression)]
pub(crate) fn cond(known: &HashSet<u32>, condition: &Cond) -> Option<Place>
    ensures { is_none result ≡ names_cond (holds known.now) (cond_of condition.now) }
{
    match condition {
        Cond::NotZero(expression) => expr(known, expression),
        Cond::Compare(_, left, right, _) => expr(known, left).or(expr(known, right)),
        Cond::Not(inner) => cond(known, inner),
        Cond::LogicalAnd(left, right) => cond(known, left).or(cond(known, right)),
        Cond::LogicalOr(left, right) => cond(known, left).or(cond(known, right)),
    }
}

/// Where the object that is assigned does, or its subscripts.
pub(crate) fn target(known: &HashSet<u32>, assigned: &Target) -> Option<Place>
    ensures { is_none result ≡ (holds known.now assigned.now.variable.0
        && names_exprs (holds known.now) (exprs_of assigned.now.subscripts.items)) }
{
    unknown(known, assigned.variable, assigned.mention.name).or(exprs(known, &assigned.subscripts))
}

/// Where a right side does.
pub(crate) fn source(known: &HashSet<u32>, value: &Source) -> Option<Place>
    ensures { is_none result ≡ names_source (holds known.now) (source_of value.now) }
{
    match value {
        Source::Number(expression) => expr(known, expression),
        Source::Truth(condition) => cond(known, condition),
    }
}

/// Where an initialiser does.
pub(crate) fn start(known: &HashSet<u32>, value: &Option<Source>) -> Option<Place>
    ensures { is_none result ≡ names_start (holds known.now) (start_of value.now) }
{
    match value {
        None => None,
        Some(value) => source(known, value),
    }
}

/// Where a loop's step does; what it changes is told at the loop's place.
pub(crate) fn step(known: &HashSet<u32>, place: Place, increment: &Increment) -> Option<Place>
    ensures { is_none result ≡ names_step (holds known.now) (increment_of increment.now) }
{
    match increment {
        Increment::Up(variable) => unknown(known, *variable, place),
        Increment::Down(variable) => unknown(known, *variable, place),
        Increment::Set(variable, value) => unknown(known, *variable, place).or(source(
            known, value,
        )),
        Increment::Change(variable, _, value) => unknown(known, *variable, place).or(expr(
            known, value,
        )),
    }
}

/// Where one part of what printf writes does.
fn part(known: &HashSet<u32>, printed: &PrintPart) -> Option<Place>
    ensures { is_none result ≡ names_parts (holds known.now) (part_of printed.now ∷ []) }
{
    match printed {
        PrintPart::Characters(_) => None,
        PrintPart::Decimal(expression) => expr(known, expression),
    }
}

/// Where printf's arguments do.
pub(crate) fn parts(known: &HashSet<u32>, printed: &[PrintPart]) -> Option<Place>
    ensures { is_none result ≡ names_parts (holds known.now) (map part_of printed.now) }
{
    for one in printed {
        if let Some(place) = part(known, one) {
            return Some(place);
        }
    }
    None
}
