//! How often a loop turns.

ghost use Rattle.std.specs.Prelude.{◌≡◌, ◌≤◌, ◌^◌, ◌+◌, ℤ, ◌+ℤ◌, ◌-ℤ◌, ◌≤ℤ◌, pos, IfOk, IfErr};
ghost use Rattle.semantics.specs.Tree.{Variable};
ghost use Rattle.affine.specs.Affine.{value};
ghost use Rattle.affine.specs.Limits.{Fits, IsWithin};
ghost use Rattle.affine_expr.specs.declared.faults.Fault.TheVariants.{OutOfMemory};
ghost use Rattle.nest_loop.specs.declared.stride.Direction.{Direction as Directions};
ghost use Rattle.nest_loop.specs.Sides.{CannotWrap, end_shift};
ghost use Rattle.nest_loop.specs.Whole.{IsWell};
ghost use Rattle.nest_loop.specs.Most.{way, distance, AreWithin, IsMost};

use crate::difference::difference;
use crate::head::Canonical;
use crate::stride::{Bound, Direction};
use affine::{Form, VarBox};
use affine_expr::{Fault, fault_of_refusal};
use ktree::Place;
use std::alloc::Global;

/// How much further than the end of a loop the number lies that its variable is compared with, below 0 (OpenMP 5.2, 4.4.1).
pub fn end_offset(bound: Bound) -> i64
    ensures way { (d : Directions) → result ≡ way d (pos 0) (end_shift d bound) }
    ensures within { IsWithin 1 result }
{
    match bound {
        Bound::Inclusive => 0,
        Bound::Strict => -1,
        Bound::Unequal => -1,
    }
}

/// How far the number that the variable is compared with lies behind its start.
fn apart(canonical: &Canonical, place: Place) -> Result<Form, Fault>
    requires { IsWell canonical.now }
    ensures ok { IfOk result (λ form. (values : Variable → ℤ)
        → value form values ≡ way canonical.now.stride.direction (value canonical.now.start values)
        (value canonical.now.limit values)) }
    ensures near { IfOk result (λ form. IsWithin (2 ^ 33) form.constant) }
    ensures fits { IfOk result Fits }
    ensures err { IfErr result (λ fault. fault ≡ OutOfMemory) }
{
    match canonical.stride.direction {
        Direction::Rising => difference(&canonical.limit, &canonical.start, place),
        Direction::Falling => difference(&canonical.start, &canonical.limit, place),
    }
}

/// The sum of a form and of a number that is 1 at most.
fn with_number(alloc: Global, form: &Form, number: i128, place: Place) -> Result<Form, Fault>
    requires within { IsWithin 1 number }
    requires near { IsWithin (2 ^ 33) form.now.constant }
    requires fits { Fits form.now }
    ensures ok { IfOk result (λ sum. (values : Variable → ℤ)
        → value sum values ≡ value form.now values +ℤ number) }
    ensures err { IfErr result (λ fault. fault ≡ OutOfMemory) }
{
    let Ok(constant) = Form::constant(alloc, number, place) else {
        unreachable!()
    };
    match form.add(&constant, place) {
        Ok(sum) => Ok(sum),
        Err(refusal) => Err(fault_of_refusal(refusal, place)),
    }
}

/// How far the end of a loop lies behind its start, as a form in the variables round it (OpenMP 5.2, 4.4.2): below 0, there is
/// no turn, and else as many as the steps that stay within.
///
/// # Errors
///
/// `OutOfMemory`.
pub fn distance(alloc: Global, canonical: &Canonical, place: Place) -> Result<Form, Fault>
    requires { IsWell canonical.now }
    ensures ok { IfOk result (λ form. (values : Variable → ℤ)
        → value form values ≡ distance canonical.now values) }
    ensures err { IfErr result (λ fault. fault ≡ OutOfMemory) }
{
    let apart = apart(canonical, place)?;
    let offset = i128::from(end_offset(canonical.bound));
    with_number(alloc, &apart, offset, place)
}

/// How many turns stay within a distance.
fn trip_count_within(distance: i128, by: u32) -> u64
    requires by_one { 1 ≤ by }
    requires near { distance ≤ℤ pos (2 ^ 33) }
    ensures turns { AreWithin by distance result }
{
    if distance < 0 {
        0
    } else {
        distance as u64 / u64::from(by) + 1
    }
}

/// How often a loop inside those of a box turns at most (OpenMP 5.2, 4.4.2); never, where the box is empty.
///
/// # Errors
///
/// `OutOfMemory`.
pub fn greatest_trip_count(
    alloc: Global,
    canonical: &Canonical,
    bounds: &VarBox,
    place: Place,
) -> Result<u64, Fault>
    requires well { IsWell canonical.now }
    requires stays { CannotWrap bounds.now canonical.now }
    ensures most { IfOk result (IsMost bounds.now canonical.now) }
    ensures err { IfErr result (λ fault. fault ≡ OutOfMemory) }
{
    let distance = distance(alloc, canonical, place)?;
    match distance.range(bounds) {
        None => Ok(0),
        Some(range) => Ok(trip_count_within(range.1, canonical.stride.by)),
    }
}
