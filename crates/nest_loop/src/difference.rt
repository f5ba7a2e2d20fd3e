//! Differences of the bounds of loops.

ghost use Rattle.std.specs.Prelude.{◌≡◌, ◌^◌, ℤ, ◌-ℤ◌, Some, IfOk, IfErr};
ghost use Rattle.semantics.specs.Tree.{Variable};
ghost use Rattle.affine.specs.Affine.{value};
ghost use Rattle.affine.specs.Limits.{Fits, IsWithin};
ghost use Rattle.affine_expr.specs.Forms.{kept};
ghost use Rattle.affine_expr.specs.declared.faults.Fault.TheVariants.{OutOfMemory};

use affine::Form;
use affine_expr::{Fault, fault_of_refusal};
use ktree::Place;

/// The first form without the second. Both keep the limits of a text, so that their difference keeps those of forms.
///
/// # Errors
///
/// `OutOfMemory`.
pub(crate) fn difference(greater: &Form, less: &Form, place: Place) -> Result<Form, Fault>
    requires greater { kept greater.now ≡ Some greater.now }
    requires less { kept less.now ≡ Some less.now }
    ensures value { IfOk result (λ form. (values : Variable → ℤ)
        → value form values ≡ value greater.now values -ℤ value less.now values) }
    ensures near { IfOk result (λ form. IsWithin (2 ^ 33) form.constant) }
    ensures fits { IfOk result Fits }
    ensures err { IfErr result (λ fault. fault ≡ OutOfMemory) }
{
    match greater.subtract(less, place) {
        Ok(form) => Ok(form),
        Err(refusal) => Err(fault_of_refusal(refusal, place)),
    }
}
