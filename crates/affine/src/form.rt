//! Affine forms.

ghost use Rattle.std.specs.Prelude.{◌≡◌, ℤ, negsuc, ◌+ℤ◌, ◌-ℤ◌, ◌*ℤ◌, ◌↔◌, ◌^◌, IsNone, IfSome, IsTrue, IfOk, IfErr};
ghost use Rattle.semantics.specs.Tree.{Variable};
ghost use Rattle.ktree.specs.declared.refusal.Refusal.TheVariants.{Limit};
ghost use Rattle.affine.specs.Affine.{value, with_value, coefficient_at, IsCanonical};
ghost use Rattle.affine.specs.Arithmetic.{constant_form, variable_form, sum_form, multiple_form, substituted, plus_multiple as with_multiple_of};
ghost use Rattle.affine.specs.Limits.{Fits, IsWithin, NumbersWithin, Refuses};
ghost use Rattle.affine.specs.Box.{IsEmpty, IsRange};

use crate::interval::VarBox;
use crate::merge::{Terms, place_of, plus_product, take_out, with_multiple, within_limit};
use crate::term::Term;
use ktree::{Place, Refusal, VarId};
use smallvec::SmallVec;
use std::alloc::Global;
use std::marker::Model;

/// An affine form: a whole number, and at most 64 variables with whole numbers as coefficients, all these numbers within
/// 2^62 in absolute value. Contracts see the number and the list of terms, in the order of their variables.
#[derive(Clone, Drop)]
pub struct Form {
    constant: i64,
    terms: Terms,
}

impl Model for Form {
    ghost use Rattle.affine.specs.Affine.{Affine};

    ghost Value = { Affine };

    ghost use Rattle.affine.specs.Limits.{IsForm};

    ghost view = { λ f. record { constant = f.constant; terms = f.terms.items } };

    ghost invariant = { λ f. IsForm (record { constant = f.constant; terms = f.terms.items }) };
}

impl Form {
    /// The form that is this number everywhere. It takes no memory.
    ///
    /// # Errors
    ///
    /// Refuses by the limit, at the place, exactly where the number is not within 2^62 in absolute value.
    pub fn constant(alloc: Global, number: i128, place: Place) -> Result<Form, Refusal>
        ensures ok { IfOk result (λ form. (form ≡ constant_form number)
            × IsWithin (2 ^ 62) number) }
        ensures refusal { IfErr result
            (λ refusal. (refusal ≡ Refusal.Limit place) × (¬ (IsWithin (2 ^ 62) number))) }
    {
        Ok(Form {
            constant: within_limit(number, place)?,
            terms: SmallVec::new(alloc),
        })
    }

    /// The form that is this variable. It takes no memory.
    pub fn variable(alloc: Global, variable: VarId) -> Form
        ensures { result ≡ variable_form variable.0 }
    {
        let mut terms = SmallVec::new(alloc);
        terms.push_reserved(Term {
            variable,
            coefficient: 1,
        });
        Form { constant: 0, terms }
    }

    /// The number that it has where all variables are 0.
    pub fn constant_term(&self) -> i64
        ensures { result ≡ self.now.constant }
    {
        self.constant
    }

    /// The variable's coefficient, 0 where it does not stand in the form.
    pub fn coefficient(&self, variable: VarId) -> i64
        ensures { result ≡ coefficient_at self.now.terms variable.0 }
    {
        match place_of(self.terms.as_slice(), variable) {
            Some(at) => self.terms[at].coefficient,
            None => 0,
        }
    }

    /// The terms in the order of their variables, each variable once, and none with the coefficient 0.
    pub fn terms(&self) -> &[Term]
        ensures value { result.now ≡ self.now.terms }
        ensures canonical { IsCanonical self.now.terms }
        ensures fits { Fits self.now }
    {
        self.terms.as_slice()
    }

    /// Whether all its numbers are within this limit, in absolute value.
    pub fn is_within(&self, limit: u64) -> bool
        ensures { IsTrue result ↔ NumbersWithin limit self.now }
    {
        let constant_within = self.constant.unsigned_abs() <= limit;
        constant_within
            && self
                .terms
                .iter()
                .all(|term| term.coefficient.unsigned_abs() <= limit)
    }

    /// The sum of both forms.
    ///
    /// # Errors
    ///
    /// Refuses by the limit, at the place, where the sum passes the limits of forms, and where memory runs out.
    pub fn add(&self, other: &Form, place: Place) -> Result<Form, Refusal>
        ensures ok { IfOk result (λ form. form ≡ sum_form self.now other.now) }
        ensures value { IfOk result (λ form. (values : Variable → ℤ)
            → value form values ≡ value self.now values +ℤ value other.now values) }
        ensures fits { IfOk result Fits }
        ensures refusal { IfErr result (Refuses place (sum_form self.now other.now)) }
    {
        plus_multiple(self.constant, self.terms.as_slice(), 1, other, place)
    }

    /// The form without the other.
    ///
    /// # Errors
    ///
    /// Refuses by the limit, at the place, where the difference passes the limits of forms, and where memory runs out.
    pub fn subtract(&self, other: &Form, place: Place) -> Result<Form, Refusal>
        ensures ok { IfOk result (λ form. form ≡ with_multiple_of self.now (negsuc 0) other.now) }
        ensures value { IfOk result (λ form. (values : Variable → ℤ)
            → value form values ≡ value self.now values -ℤ value other.now values) }
        ensures fits { IfOk result Fits }
        ensures refusal { IfErr result
            (Refuses place (with_multiple_of self.now (negsuc 0) other.now)) }
    {
        plus_multiple(self.constant, self.terms.as_slice(), -1, other, place)
    }

    /// The form times this number.
    ///
    /// # Errors
    ///
    /// Refuses by the limit, at the place, where the multiple passes the limits of forms, and where memory runs out.
    pub fn scale(&self, factor: i64, place: Place) -> Result<Form, Refusal>
        ensures ok { IfOk result (λ form. form ≡ multiple_form self.now factor) }
        ensures value { IfOk result (λ form. (values : Variable → ℤ)
            → value form values ≡ value self.now values *ℤ factor) }
        ensures fits { IfOk result Fits }
        ensures refusal { IfErr result (Refuses place (multiple_form self.now factor)) }
    {
        plus_multiple(0, &[], factor, self, place)
    }

    /// The form with another in place of a variable.
    ///
    /// # Errors
    ///
    /// Refuses by the limit, at the place, where the form so made passes the limits of forms, and where memory runs out.
    pub fn substitute(&self, variable: VarId, by: &Form, place: Place) -> Result<Form, Refusal>
        ensures ok { IfOk result (λ form. form ≡ substituted self.now variable.0 by.now) }
        ensures value { IfOk result (λ form. (values : Variable → ℤ)
            → value form values ≡ value self.now
            (with_value values variable.0 (value by.now values))) }
        ensures fits { IfOk result Fits }
        ensures refusal { IfErr result (Refuses place (substituted self.now variable.0 by.now)) }
    {
        let mut rest = SmallVec::from_slice(*self.terms.allocator(), self.terms.as_slice())?;
        let coefficient = take_out(&mut rest, variable);
        plus_multiple(self.constant, rest.as_slice(), coefficient, by, place)
    }

    /// The least and the greatest value of the form where each variable has a value of the box; None exactly for an empty
    /// box. It takes no memory.
    pub fn range(&self, bounds: &VarBox) -> Option<(i128, i128)>
        ensures empty { IsNone result ↔ IsEmpty bounds.now }
        ensures exact { IfSome result (λ range. IsRange self.now bounds.now range.0 range.1) }
    {
        if bounds.is_empty() {
            return None;
        }
        let mut least = i128::from(self.constant);
        let mut greatest = least;
        for term in self.terms.iter() {
            let products = bounds.interval(term.variable).products(term.coefficient);
            least += products.0;
            greatest += products.1;
        }
        Some((least, greatest))
    }
}

/// The form with this number and these terms, and a multiple of another.
fn plus_multiple(
    constant: i64,
    terms: &[Term],
    factor: i64,
    other: &Form,
    place: Place,
) -> Result<Form, Refusal>
    requires { IsCanonical terms.now }
    ensures ok { IfOk result (λ form. form
        ≡ with_multiple_of (record { constant = constant; terms = terms.now }) factor other.now) }
    ensures fits { IfOk result Fits }
    ensures refusal { IfErr result
        (Refuses place (with_multiple_of (record { constant = constant; terms = terms.now }) factor
        other.now)) }
{
    Ok(Form {
        constant: within_limit(plus_product(constant, factor, other.constant), place)?,
        terms: with_multiple(
            *other.terms.allocator(),
            factor,
            other.terms.as_slice(),
            terms,
            place,
        )?,
    })
}
