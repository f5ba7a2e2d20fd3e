//! Forms whose numbers keep the limit of a text.

ghost use Rattle.std.specs.Prelude.{◌≡◌, ℤ, negsuc, ◌⊎◌, Some, None, IfOk, IfErr};
ghost use Rattle.affine.specs.Arithmetic.{constant_form, sum_form, plus_multiple, multiple_form};
ghost use Rattle.affine_expr.specs.Forms.{kept};
ghost use Rattle.affine_expr.specs.Faults.{Refused};

use crate::faults::{Fault, fault_of_refusal};
use affine::Form;
use ktree::Place;
use ktree::limits::{AFFINE_NUMBER, AFFINE_VARIABLES};
use std::alloc::Global;

/// The form, where it keeps the limits.
fn keep_limits(form: Form, place: Place) -> Result<Form, Fault>
    ensures ok { IfOk result (λ kept_form. kept form ≡ Some kept_form) }
    ensures err { IfErr result (λ fault. (fault ≡ Fault.Limit place) × (kept form ≡ None)) }
{
    if form.is_within(AFFINE_NUMBER) && form.terms().len() <= AFFINE_VARIABLES {
        Ok(form)
    } else {
        Err(Fault::Limit(place))
    }
}

/// The form of a number.
pub(crate) fn number(alloc: Global, value: i128, place: Place) -> Result<Form, Fault>
    ensures ok { IfOk result (λ form. kept (constant_form value) ≡ Some form) }
    ensures err { IfErr result (Refused place (kept (constant_form value))) }
{
    match Form::constant(alloc, value, place) {
        Ok(form) => keep_limits(form, place),
        Err(refusal) => Err(fault_of_refusal(refusal, place)),
    }
}

/// The sum of both.
pub(crate) fn sum(left: &Form, right: &Form, place: Place) -> Result<Form, Fault>
    ensures ok { IfOk result (λ form. kept (sum_form left.now right.now) ≡ Some form) }
    ensures err { IfErr result (Refused place (kept (sum_form left.now right.now))) }
{
    match left.add(right, place) {
        Ok(form) => keep_limits(form, place),
        Err(refusal) => Err(fault_of_refusal(refusal, place)),
    }
}

/// The first without the second.
pub(crate) fn difference(left: &Form, right: &Form, place: Place) -> Result<Form, Fault>
    ensures ok { IfOk result (λ form. kept (plus_multiple left.now (negsuc 0) right.now)
        ≡ Some form) }
    ensures err { IfErr result
        (Refused place (kept (plus_multiple left.now (negsuc 0) right.now))) }
{
    match left.subtract(right, place) {
        Ok(form) => keep_limits(form, place),
        Err(refusal) => Err(fault_of_refusal(refusal, place)),
    }
}

/// The form times the number.
pub(crate) fn multiple(form: &Form, factor: i64, place: Place) -> Result<Form, Fault>
    ensures ok { IfOk result (λ made. kept (multiple_form form.now factor) ≡ Some made) }
    ensures err { IfErr result (Refused place (kept (multiple_form form.now factor))) }
{
    match form.scale(factor, place) {
        Ok(made) => keep_limits(made, place),
        Err(refusal) => Err(fault_of_refusal(refusal, place)),
    }
}
