//! The heads of canonical loops.

ghost use Rattle.std.specs.Prelude.{◌≡◌, ◌⊎◌, Some, None, IfOk, IfErr};
ghost use Rattle.ktree.specs.View.{source_of, cond_of, increment_of};
ghost use Rattle.affine_expr.specs.declared.faults.Fault.TheVariants.{OutOfMemory, NotCanonical};
ghost use Rattle.nest_loop.specs.Canonical.{start_form, canonical};

use crate::mentioned::{mentions, source_mentions};
use crate::stride::{Bound, Stride, bound_of, is_variable, stride_of};
use affine::{Form, VarBox};
use affine_expr::{Fault, form_of};
use ktree::{Cond, Expr, Head, Place, Source, VarId};
use std::alloc::Global;

/// A canonical loop (OpenMP 5.2, 4.4.1): its variable, its step and its test, and the forms of its start and of what its
/// variable is compared with.
#[derive(Clone, Drop)]
pub struct Canonical {
    pub variable: VarId,
    pub stride: Stride,
    pub bound: Bound,
    pub start: Form,
    pub limit: Form,
}

/// The form of a start, which is no condition.
fn start_form(alloc: Global, start: &Source, bounds: &VarBox, place: Place) -> Result<Form, Fault>
    ensures ok { IfOk result (λ form. start_form bounds.now (source_of start.now) ≡ Some form) }
    ensures err { IfErr result
        (λ fault. (fault ≡ OutOfMemory) ⊎ (start_form bounds.now (source_of start.now) ≡ None)) }
{
    match start {
        Source::Number(expr) => form_of(alloc, expr, bounds, place),
        Source::Truth(_) => Err(Fault::NotAffine(place)),
    }
}

/// What is told of a bound without a form: that the loop is not canonical, where its own variable stands in a bound.
fn bound_fault(head: &Head, limit: &Expr, fault: Fault) -> Fault
    ensures { fault ≡ OutOfMemory → result ≡ OutOfMemory }
{
    let of_memory = matches!(fault, Fault::OutOfMemory);
    let own = source_mentions(head.variable, &head.start) || mentions(head.variable, limit);
    if own && !of_memory {
        Fault::NotCanonical(head.place)
    } else {
        fault
    }
}

/// The canonical loop that a head makes inside the loops of a box (OpenMP 5.2, 4.4.1).
///
/// # Errors
///
/// `NotCanonical` at the `for`, where there is no such step or test or the loop's own variable stands in a bound; the fault
/// of the start, or else that of the bound, where it has no form; `OutOfMemory`.
pub fn canonical_of(alloc: Global, head: &Head, bounds: &VarBox) -> Result<Canonical, Fault>
    ensures ok { IfOk result (λ l. canonical bounds.now head.now.variable.0
        (source_of head.now.start) (cond_of head.now.test) (increment_of head.now.step) ≡ Some l) }
    ensures err { IfErr result
        (λ fault. (fault ≡ OutOfMemory)
        ⊎ (canonical bounds.now head.now.variable.0 (source_of head.now.start)
        (cond_of head.now.test) (increment_of head.now.step) ≡ None)) }
{
    let Cond::Compare(operator, left, right, place) = &head.test else {
        return Err(Fault::NotCanonical(head.place));
    };
    if !is_variable(head.variable, left) {
        return Err(Fault::NotCanonical(head.place));
    }
    let Some(stride) = stride_of(head.variable, &head.step) else {
        return Err(Fault::NotCanonical(head.place));
    };
    let Some(bound) = bound_of(*operator, stride) else {
        return Err(Fault::NotCanonical(head.place));
    };
    let start = start_form(alloc, &head.start, bounds, head.start_place).map_err(
        |fault| bound_fault(head, right, fault),
    )?;
    let limit = form_of(alloc, right, bounds, *place).map_err(|fault| bound_fault(
        head, right, fault,
    ))?;
    Ok(Canonical {
        variable: head.variable,
        stride,
        bound,
        start,
        limit,
    })
}
