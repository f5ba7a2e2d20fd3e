//! Whether a loop's variable may wrap.

ghost use Rattle.std.specs.Prelude.{◌≡◌, ◌↔◌, IsTrue, true, false, Some, IfOk, IfErr};
ghost use Rattle.affine_expr.specs.Forms.{kept};
ghost use Rattle.affine_expr.specs.declared.faults.Fault.TheVariants.{OutOfMemory};
ghost use Rattle.nest_loop.specs.Sides.{CannotWrap};
ghost use Rattle.nest_loop.specs.Whole.{AreModest, IsBelow, HasRoom, IsWell};

use crate::difference::difference;
use crate::head::Canonical;
use crate::range::{is_at_least, is_modest};
use crate::stride::{Bound, Direction};
use affine::{Form, VarBox};
use affine_expr::Fault;
use ktree::Place;

/// Whether the first form is at least the second, wherever in the box.
fn is_least(greater: &Form, less: &Form, bounds: &VarBox, place: Place) -> Result<bool, Fault>
    requires greater { kept greater.now ≡ Some greater.now }
    requires less { kept less.now ≡ Some less.now }
    ensures ok { IfOk result (λ least. IsTrue least ↔ IsBelow less.now greater.now bounds.now) }
    ensures err { IfErr result (λ fault. fault ≡ OutOfMemory) }
{
    let difference = difference(greater, less, place)?;
    Ok(is_at_least(&difference, 0, bounds))
}

/// Whether what the test asks for beyond the range of the bounds is met wherever in the box.
fn has_room(canonical: &Canonical, bounds: &VarBox, place: Place) -> Result<bool, Fault>
    requires { IsWell canonical.now }
    ensures ok { IfOk result (λ room. IsTrue room ↔ HasRoom bounds.now canonical.now) }
    ensures err { IfErr result (λ fault. fault ≡ OutOfMemory) }
{
    let by = i128::from(canonical.stride.by);
    match (canonical.stride.direction, canonical.bound) {
        (Direction::Rising, Bound::Strict) => Ok(true),
        (Direction::Rising, Bound::Inclusive) => Ok(true),
        (Direction::Rising, Bound::Unequal) => {
            is_least(&canonical.limit, &canonical.start, bounds, place)
        }
        (Direction::Falling, Bound::Strict) => Ok(is_at_least(&canonical.limit, by - 1, bounds)),
        (Direction::Falling, Bound::Inclusive) => Ok(is_at_least(&canonical.limit, by, bounds)),
        (Direction::Falling, Bound::Unequal) => {
            is_least(&canonical.start, &canonical.limit, bounds, place)
        }
    }
}

/// Whether both bounds of a loop are numbers of 0..2^32, wherever in the box.
fn are_modest(canonical: &Canonical, bounds: &VarBox) -> bool
    ensures { IsTrue result ↔ (AreModest canonical.now.start bounds.now
        × AreModest canonical.now.limit bounds.now) }
{
    is_modest(&canonical.start, bounds) && is_modest(&canonical.limit, bounds)
}

/// Whether the variable of a loop inside those of a box may wrap, however often the loop turns (C11 6.2.5, 9).
///
/// # Errors
///
/// `OutOfMemory`.
pub(crate) fn wraps(canonical: &Canonical, bounds: &VarBox, place: Place) -> Result<bool, Fault>
    requires { IsWell canonical.now }
    ensures stays { IfOk result (λ wraps. wraps ≡ false → CannotWrap bounds.now canonical.now) }
    ensures wraps { IfOk result (λ wraps. wraps ≡ true → CannotWrap bounds.now canonical.now → ⊥) }
    ensures err { IfErr result (λ fault. fault ≡ OutOfMemory) }
{
    if !are_modest(canonical, bounds) {
        return Ok(true);
    }
    let room = has_room(canonical, bounds, place)?;
    Ok(!room)
}
