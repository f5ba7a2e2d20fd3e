//! Subscripts.

ghost use Rattle.std.specs.Prelude.{◌≡◌, ◌⊎◌, true, false, OnOk, IfErr};
ghost use Rattle.ktree.specs.View.{exprs_of};
ghost use Rattle.affine_expr.specs.Forms.{are_affine};
ghost use Rattle.affine_expr.specs.Faults.{place_of};

use crate::faults::Fault;
use crate::linear::form_of;
use affine::VarBox;
use ktree::{Expr, NamePlaces, Place};
use std::alloc::Global;

/// Where a subscript stands, counted from 0; its name, where there is none.
pub fn subscript_place(mention: &NamePlaces, index: usize) -> Place
    ensures { result ≡ place_of mention.now index }
{
    match mention.subscripts.get(index) {
        Some(place) => *place,
        None => mention.name,
    }
}

/// Sees to it that each subscript is affine inside the loops of a box (OpenMP 5.2, 4.4.1).
///
/// # Errors
///
/// The fault of the first that has no form, at its place; `OutOfMemory`.
pub fn are_affine(
    alloc: Global,
    subscripts: &[Expr],
    mention: &NamePlaces,
    bounds: &VarBox,
) -> Result<(), Fault>
    ensures ok { OnOk result (are_affine bounds.now (exprs_of subscripts.now) ≡ true) }
    ensures err { IfErr result
        (λ fault. (fault ≡ Fault.OutOfMemory)
        ⊎ (are_affine bounds.now (exprs_of subscripts.now) ≡ false)) }
{
    for (i, subscript) in subscripts.iter().enumerate() {
        let _form = form_of(alloc, subscript, bounds, subscript_place(mention, i))?;
    }
    Ok(())
}
