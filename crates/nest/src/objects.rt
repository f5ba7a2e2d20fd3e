//! Objects that are named inside loops.

ghost use Rattle.std.specs.Prelude.{◌≡◌, ℤ, pos, ◌≤ℤ◌, ◌<ℤ◌, ◌↔◌, true, map, length, slice_get, is_some, IsTrue, IfOk, MatchOption};
ghost use Rattle.ktree.specs.View.{expr_of, exprs_of, declaration_of};
ghost use Rattle.affine_expr.specs.Forms.{form_of, are_affine};
ghost use Rattle.nest.specs.Nests.{IsAffine, StaysBelow, AllStay, lengths_of};
ghost use Rattle.nest.specs.Leaves.{LeavesDimension, SomeLeaves};
ghost use Rattle.nest.specs.Judged.{inside_of, out_of, Decides, Tells};

use affine::VarBox;
use affine_expr::{Fault, are_affine, form_of, subscript_place};
use ktree::{Declaration, Expr, NamePlaces, Place, VarId};
use std::alloc::Global;

/// The lengths of a file-scope variable's dimensions; a local has none.
fn lengths(variables: &[Declaration], variable: VarId) -> &[u64]
    ensures { result.now ≡ lengths_of (slice_get (map declaration_of variables.now) variable.0) }
{
    match variables.get(variable.0 as usize) {
        Some(declaration) => declaration.lengths.as_slice(),
        None => &[],
    }
}

/// Whether all numbers of a range are indexes of a dimension of this length.
fn are_indexes(range: Option<(i128, i128)>, length: u64) -> bool
    ensures { MatchOption range (IsTrue result)
        (λ ends. IsTrue result ↔ (pos 0 ≤ℤ ends.0) × (ends.1 <ℤ pos length)) }
{
    match range {
        None => true,
        Some((least, greatest)) => 0 <= least && greatest < i128::from(length),
    }
}

/// The place of a subscript, where it leaves its dimension somewhere in the box.
fn place_outside(
    alloc: Global,
    length: u64,
    subscript: &Expr,
    bounds: &VarBox,
    place: Place,
) -> Result<Option<Place>, Fault>
    ensures affine { Decides result
        (is_some (form_of bounds.now (expr_of subscript.now)) ≡ true) }
    ensures leaves { IfOk result
        (Tells (StaysBelow bounds.now length (form_of bounds.now (expr_of subscript.now)))
        (LeavesDimension bounds.now length (form_of bounds.now (expr_of subscript.now)))) }
{
    let form = form_of(alloc, subscript, bounds, place)?;
    if are_indexes(form.range(bounds), length) {
        Ok(None)
    } else {
        Ok(Some(place))
    }
}

/// The place of the first subscript that does, of as many as lengths; `at` counts those before them.
fn first_leaving(
    alloc: Global,
    lengths: &[u64],
    subscripts: &[Expr],
    mention: &NamePlaces,
    at: usize,
    bounds: &VarBox,
) -> Result<Option<Place>, Fault>
    requires { length lengths.now ≡ length subscripts.now }
    ensures affine { Decides result
        (are_affine bounds.now (exprs_of subscripts.now) ≡ true) }
    ensures leaves { IfOk result
        (Tells (AllStay bounds.now lengths.now (exprs_of subscripts.now))
        (SomeLeaves bounds.now lengths.now (exprs_of subscripts.now))) }
{
    let Some((length, lengths)) = lengths.split_first() else {
        return Ok(None);
    };
    let Some((subscript, subscripts)) = subscripts.split_first() else {
        return Ok(None);
    };
    let place = subscript_place(mention, at);
    let first = place_outside(alloc, *length, subscript, bounds, place)?;
    let next = at.saturating_add(1);
    let others = first_leaving(alloc, lengths, subscripts, mention, next, bounds)?;
    Ok(first.or(others))
}

/// Where the first subscript of an object leaves its array, if each is affine.
pub fn object(
    alloc: Global,
    variables: &[Declaration],
    bounds: &VarBox,
    variable: VarId,
    subscripts: &[Expr],
    mention: &NamePlaces,
) -> Result<Option<Place>, Fault>
    ensures affine { Decides result
        (IsAffine bounds.now variable.0 (exprs_of subscripts.now)) }
    ensures leaves { IfOk result
        (Tells (inside_of variables.now bounds.now variable.0 (exprs_of subscripts.now))
        (out_of variables.now bounds.now variable.0 (exprs_of subscripts.now))) }
{
    let lengths = lengths(variables, variable);
    if lengths.len() != subscripts.len() {
        are_affine(alloc, subscripts, mention, bounds)?;
        return Ok(Some(mention.name));
    }
    first_leaving(alloc, lengths, subscripts, mention, 0, bounds)
}
