//! Forms in the counters of loops.

ghost use Rattle.std.specs.Prelude.{◌≡◌, ◌⊎◌, ◌<◌, ◌^◌, length, IfOk, IfErr, Some};
ghost use Rattle.ktree.specs.declared.refusal.Refusal.TheVariants as refusals;
ghost use Rattle.affine.specs.Affine.{Affine};
ghost use Rattle.affine.specs.Arithmetic.{sum_form, multiple_form, constant_form, variable_form};
ghost use Rattle.affine.specs.Limits.{Fits, IsWithin};
ghost use Rattle.pairtest_counter.specs.Counters.{step_by, Adds, InCounters, AreForms, IsProduct, IsWay, IsStepped, IsReached, AreFormsBetween, Makes};

use crate::level::{EnclosingLoop, Forms};
use affine::{Form, Term};
use ktree::{Place, Refusal, VarId};
use nest_loop::{Canonical, Direction, Stride, end_offset};
use std::alloc::Global;

/// The form that is this number everywhere.
fn constant(alloc: Global, number: i64, place: Place) -> Form
    requires { IsWithin (2 ^ 62) number }
    ensures { result ≡ constant_form number }
{
    let Ok(form) = Form::constant(alloc, i128::from(number), place) else {
        unreachable!()
    };
    form
}

/// A term, its variable being a form in the counters.
fn scale_term(
    alloc: Global,
    levels: &[EnclosingLoop],
    term: &Term,
    place: Place,
) -> Result<Form, Refusal>
    ensures { Makes result place (IsProduct levels.now term.now) }
{
    let Some((level, outer)) = levels.split_first() else {
        return constant(alloc, 0, place).scale(term.coefficient, place);
    };
    if level.canonical.variable != term.variable {
        return scale_term(alloc, outer, term, place);
    }
    match &level.forms {
        Some(forms) => forms.place.scale(term.coefficient, place),
        None => Err(Refusal::Limit(place)),
    }
}

/// A form in the counters, and further terms in the variables.
fn add_terms(
    alloc: Global,
    levels: &[EnclosingLoop],
    sum: Form,
    terms: &[Term],
    place: Place,
) -> Result<Form, Refusal>
    ensures { Makes result place (Adds levels.now sum terms.now) }
{
    let Some((term, terms)) = terms.split_first() else {
        return Ok(sum);
    };
    let product = scale_term(alloc, levels, term, place)?;
    let sum = sum.add(&product, place)?;
    add_terms(alloc, levels, sum, terms, place)
}

/// A form in the variables of loops as one in their counters.
pub fn in_counters(
    alloc: Global,
    levels: &[EnclosingLoop],
    form: &Form,
    place: Place,
) -> Result<Form, Refusal>
    ensures { Makes result place (InCounters levels.now form.now) }
{
    let terms = form.terms();
    let constant = constant(alloc, form.constant_term(), place);
    add_terms(alloc, levels, constant, terms, place)
}

/// How far a variable goes with each step.
fn step_by(stride: Stride) -> i64
    ensures { result ≡ step_by stride.direction stride.by }
{
    match stride.direction {
        Direction::Rising => i64::from(stride.by),
        Direction::Falling => -i64::from(stride.by),
    }
}

/// The steps of a loop, as a form in its counter.
fn steps(alloc: Global, counter: VarId, stride: Stride, place: Place) -> Result<Form, Refusal>
    ensures ok { IfOk result (λ form. form
        ≡ multiple_form (variable_form counter.0) (step_by stride.direction stride.by)) }
    ensures err { IfErr result (λ refusal. refusal ≡ refusals.OutOfMemory) }
{
    Form::variable(alloc, counter).scale(step_by(stride), place)
}

/// How far one form lies behind another, on the way of a loop.
fn way(direction: Direction, first: &Form, end: &Form, place: Place) -> Result<Form, Refusal>
    ensures { Makes result place (IsWay direction first.now end.now) }
{
    match direction {
        Direction::Rising => end.subtract(first, place),
        Direction::Falling => first.subtract(end, place),
    }
}

/// The variable of a loop from its start, as a form in the counters.
fn place_of(
    alloc: Global,
    counter: VarId,
    stride: Stride,
    start: &Form,
    place: Place,
) -> Result<Form, Refusal>
    ensures { Makes result place (IsStepped counter.0 stride start.now) }
{
    let steps = steps(alloc, counter, stride, place)?;
    start.add(&steps, place)
}

/// How far the end of a loop lies behind its start, as a form in the counters.
fn reach_of(
    alloc: Global,
    canonical: &Canonical,
    start: &Form,
    limit: &Form,
    place: Place,
) -> Result<Form, Refusal>
    ensures { Makes result place (IsReached canonical.now start.now limit.now) }
{
    let apart = way(canonical.stride.direction, start, limit, place)?;
    let offset = constant(alloc, end_offset(canonical.bound), place);
    apart.add(&offset, place)
}

/// The forms of a loop from its start and what its variable is compared with.
fn forms_between(
    alloc: Global,
    canonical: &Canonical,
    counter: VarId,
    start: &Form,
    limit: &Form,
    place: Place,
) -> Result<Forms, Refusal>
    ensures { Makes result place (AreFormsBetween counter.0 canonical.now start.now limit.now) }
{
    let stepped = place_of(alloc, counter, canonical.stride, start, place)?;
    Ok(Forms {
        place: stepped,
        reach: reach_of(alloc, canonical, start, limit, place)?,
    })
}

/// The forms of a loop inside others, in the counters of these and its own.
pub fn forms_of(
    alloc: Global,
    outer: &[EnclosingLoop],
    canonical: &Canonical,
    counter: VarId,
    place: Place,
) -> Result<Forms, Refusal>
    requires { counter.0 ≡ length outer.now }
    ensures { Makes result place (AreForms outer.now canonical.now) }
{
    let start = in_counters(alloc, outer, &canonical.start, place)?;
    let limit = in_counters(alloc, outer, &canonical.limit, place)?;
    forms_between(alloc, canonical, counter, &start, &limit, place)
}
