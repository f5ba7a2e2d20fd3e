//! The values of forms over boxes.

ghost use Rattle.std.specs.Prelude.{◌≡◌, ◌^◌, ◌↔◌, ℤ, pos, negsuc, ◌≤ℤ◌, IsTrue, IfOk, IfErr};
ghost use Rattle.semantics.specs.Tree.{Variable};
ghost use Rattle.affine.specs.Affine.{value};
ghost use Rattle.affine.specs.Box.{IsInside};
ghost use Rattle.nest_loop.specs.Sides.{IsModest};
ghost use Rattle.nest_loop.specs.Whole.{IsAtLeast, IsAtMost, AreModest};

use affine::{Form, VarBox};
use ktree::limits::BOUND;

/// Whether the form is at least this number, wherever in the box.
pub(crate) fn is_at_least(form: &Form, least: i128, bounds: &VarBox) -> bool
    ensures { IsTrue result ↔ IsAtLeast least form.now bounds.now }
{
    match form.range(bounds) {
        None => true,
        Some(range) => least <= range.0,
    }
}

/// Whether it is at most this number.
fn is_at_most(form: &Form, greatest: i128, bounds: &VarBox) -> bool
    ensures { IsTrue result ↔ IsAtMost greatest form.now bounds.now }
{
    match form.range(bounds) {
        None => true,
        Some(range) => range.1 <= greatest,
    }
}

/// Whether it is a number of 0..2^32, wherever in the box.
pub(crate) fn is_modest(form: &Form, bounds: &VarBox) -> bool
    ensures { IsTrue result ↔ AreModest form.now bounds.now }
{
    is_at_least(form, 0, bounds) && is_at_most(form, BOUND, bounds)
}
