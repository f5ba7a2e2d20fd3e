//! A list of terms and a multiple of another.

ghost use Rattle.std.specs.Prelude.{◌≡◌, ◌+◌, ◌<◌, ◌+ℤ◌, ◌*ℤ◌, ◌++◌, ◌⊎◌, ◌↔◌, ◌^◌, [], ◌==◌, length, position, IsNone, IfSome, OnOk, IfOk, IfErr};
ghost use Rattle.ktree.specs.declared.refusal.Refusal.TheVariants.{Limit, OutOfMemory};
ghost use Rattle.affine.specs.Affine.{IsCanonical, coefficient_at};
ghost use Rattle.affine.specs.Arithmetic.{term_before, terms_without, with_multiple as multiple_added};
ghost use Rattle.affine.specs.Limits.{IsWithin, TermsFit};

use crate::term::Term;
use ktree::limits::{EQUATION_NUMBER, FORM_VARIABLES};
use ktree::{Place, Refusal, VarId};
use smallvec::SmallVec;
use std::alloc::Global;

/// Terms in the order of their variables.
pub(crate) type Terms = SmallVec<Term, 8>;

/// The number as one of a form, where it is within the limit.
pub(crate) fn within_limit(value: i128, place: Place) -> Result<i64, Refusal>
    ensures ok { IfOk result (λ number. (number ≡ value) × IsWithin (2 ^ 62) value) }
    ensures refusal { IfErr result
        (λ refusal. (refusal ≡ Refusal.Limit place) × (¬ (IsWithin (2 ^ 62) value))) }
{
    if value.unsigned_abs() > EQUATION_NUMBER {
        return Err(Refusal::Limit(place));
    }
    Ok(value as i64)
}

/// The product, of which 128 bits hold even two.
fn product(a: i64, b: i64) -> i128
    ensures value { result ≡ a *ℤ b }
    ensures within { IsWithin (2 ^ 126) result }
{
    i128::from(a) * i128::from(b)
}

/// A number and a product.
pub(crate) fn plus_product(a: i64, factor: i64, b: i64) -> i128
    ensures { result ≡ a +ℤ factor *ℤ b }
{
    i128::from(a) + product(factor, b)
}

/// Appends the variable with this coefficient, where it is not 0.
fn push_term(
    terms: &mut Terms,
    variable: VarId,
    coefficient: i128,
    place: Place,
) -> Result<(), Refusal>
    requires { TermsFit terms.old.items }
    ensures ok { OnOk result (terms.new.items
        ≡ terms.old.items ++ term_before variable.0 coefficient []) }
    ensures fits { OnOk result (TermsFit terms.new.items) }
    ensures refusal { IfErr result
        (λ refusal. (refusal ≡ Refusal.OutOfMemory)
        ⊎ ((refusal ≡ Refusal.Limit place)
        × (¬ (TermsFit (terms.old.items ++ term_before variable.0 coefficient []))))) }
{
    if coefficient == 0 {
        return Ok(());
    }
    let coefficient = within_limit(coefficient, place)?;
    if terms.len() == FORM_VARIABLES {
        return Err(Refusal::Limit(place));
    }
    terms.push(Term {
        variable,
        coefficient,
    })?;
    Ok(())
}

/// The first term of a sum of lists, its coefficient perhaps 0, and what is left of them.
#[derive(Drop)]
struct Split<'a> {
    variable: VarId,
    coefficient: i128,
    multiple: &'a [Term],
    base: &'a [Term],
}

/// The terms and a multiple of others, taken apart behind the least variable that stands in them.
fn split_least<'a>(factor: i64, multiple: &'a [Term], base: &'a [Term]) -> Option<Split<'a>>
    requires multiple_canonical { IsCanonical multiple.now }
    requires base_canonical { IsCanonical base.now }
    ensures none { IsNone result ↔ ((multiple.now ≡ []) × (base.now ≡ [])) }
    ensures some { IfSome result
        (λ split. multiple_added factor multiple.now base.now
        ≡ term_before split.variable.0 split.coefficient
        (multiple_added factor split.multiple.now split.base.now)) }
    ensures multiple_left { IfSome result (λ split. IsCanonical split.multiple.now) }
    ensures base_left { IfSome result (λ split. IsCanonical split.base.now) }
    ensures shorter { IfSome result
        (λ split. length split.multiple.now + length split.base.now < length multiple.now
        + length base.now) }
{
    match (base, multiple) {
        ([], []) => None,
        ([x, xs @ ..], [y, ys @ ..]) if x.variable.0 == y.variable.0 => Some(Split {
            variable: x.variable,
            coefficient: plus_product(x.coefficient, factor, y.coefficient),
            multiple: ys,
            base: xs,
        }),
        ([x, ..], [y, ys @ ..]) if y.variable.0 < x.variable.0 => Some(Split {
            variable: y.variable,
            coefficient: product(factor, y.coefficient),
            multiple: ys,
            base,
        }),
        ([x, xs @ ..], _) => Some(Split {
            variable: x.variable,
            coefficient: i128::from(x.coefficient),
            multiple,
            base: xs,
        }),
        ([], [y, ys @ ..]) => Some(Split {
            variable: y.variable,
            coefficient: product(factor, y.coefficient),
            multiple: ys,
            base,
        }),
    }
}

/// The terms and a multiple of others.
pub(crate) fn with_multiple<'a>(
    alloc: Global,
    factor: i64,
    mut multiple: &'a [Term],
    mut base: &'a [Term],
    place: Place,
) -> Result<Terms, Refusal>
    requires multiple_canonical { IsCanonical multiple.now }
    requires base_canonical { IsCanonical base.now }
    ensures ok { IfOk result (λ terms. terms.items ≡ multiple_added factor multiple.now base.now) }
    ensures fits { IfOk result (λ terms. TermsFit terms.items) }
    ensures refusal { IfErr result
        (λ refusal. (refusal ≡ Refusal.OutOfMemory)
        ⊎ ((refusal ≡ Refusal.Limit place)
        × (¬ (TermsFit (multiple_added factor multiple.now base.now))))) }
{
    let mut terms = SmallVec::new(alloc);
    while let Some(split) = split_least(factor, multiple, base) {
        push_term(&mut terms, split.variable, split.coefficient, place)?;
        multiple = split.multiple;
        base = split.base;
    }
    Ok(terms)
}

/// Where the variable's term stands.
pub(crate) fn place_of(terms: &[Term], variable: VarId) -> Option<usize>
    ensures { result ≡ position (λ t. t.variable.0 == variable.0) terms.now }
{
    terms.iter().position(|term| term.variable == variable)
}

/// Takes the variable's term out of a list, and gives its coefficient: 0 where there is none.
pub(crate) fn take_out(terms: &mut Terms, variable: VarId) -> i64
    ensures coefficient { result ≡ coefficient_at terms.old.items variable.0 }
    ensures rest { terms.new.items ≡ terms_without variable.0 terms.old.items }
{
    match place_of(terms.as_slice(), variable) {
        Some(at) => terms.remove(at).coefficient,
        None => 0,
    }
}
