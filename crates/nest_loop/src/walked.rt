//! The numbers that a loop's variable may have.

ghost use Rattle.std.specs.Prelude.{◌≡◌, ◌⊎◌, ◌≤◌, ◌^◌, ◌+◌, ◌↔◌, ◌<◌, ℤ, pos, ◌+ℤ◌, ◌-ℤ◌, ◌≤ℤ◌, IsNone, IfSome};
ghost use Rattle.affine.specs.Box.{IsEmpty, IsRange, EndsFit};
ghost use Rattle.affine.specs.Limits.{IsWithin};
ghost use Rattle.nest_loop.specs.Sides.{IsModest, CannotWrap, HasNumbers, IsSide, end_shift};
ghost use Rattle.nest_loop.specs.Whole.{AreModest, IsWell, IsSpan, IsWalked};

use crate::head::Canonical;
use crate::stride::{Bound, Direction, Stride};
use affine::{Form, Interval, VarBox};

/// No number at all.
const NONE: Interval = Interval {
    least: 0,
    greatest: -1,
};

/// How far the end lies from what the variable is compared with.
fn end_shift(direction: Direction, bound: Bound) -> i64
    ensures value { result ≡ end_shift direction bound }
    ensures within { IsWithin 1 result }
{
    match (direction, bound) {
        (_, Bound::Inclusive) => 0,
        (Direction::Rising, _) => -1,
        (Direction::Falling, _) => 1,
    }
}

/// How far the last turn goes from the first, where the end lies this far: one step back, where there is no turn.
fn span(distance: i64, by: u32) -> i64
    requires by_one { 1 ≤ by }
    requires within { IsWithin (2 ^ 34) distance }
    ensures span { IsSpan by distance result }
    ensures within { IsWithin (2 ^ 34) result }
    ensures least { (pos 0 -ℤ pos by) ≤ℤ result }
    ensures greatest { (result ≤ℤ distance) ⊎ (result ≤ℤ pos 0) }
{
    if distance < 0 {
        -i64::from(by)
    } else {
        let far = distance as u64;
        (far - far % u64::from(by)) as i64
    }
}

/// The numbers from the first to the last, where both bounds are numbers.
fn exact(stride: Stride, first: i64, end: i64) -> Interval
    requires by_one { 1 ≤ stride.by }
    requires first { IsWithin (2 ^ 32) first }
    requires end { IsWithin (2 ^ 32 + 1) end }
    ensures walked { IsWalked stride first end result }
    ensures fits { EndsFit result.least result.greatest }
{
    match stride.direction {
        Direction::Rising => Interval {
            least: first,
            greatest: first + span(end - first, stride.by),
        },
        Direction::Falling => Interval {
            least: first - span(first - end, stride.by),
            greatest: first,
        },
    }
}

/// The least and the greatest value of a form that is a number of 0..2^32 wherever in the box.
fn ends(form: &Form, bounds: &VarBox) -> Option<(i64, i64)>
    requires { AreModest form.now bounds.now }
    ensures empty { IsNone result → IsEmpty bounds.now }
    ensures exact { IfSome result (λ ends. IsRange form.now bounds.now ends.0 ends.1) }
    ensures least { IfSome result (λ ends. IsModest ends.0) }
    ensures greatest { IfSome result (λ ends. IsModest ends.1) }
{
    match form.range(bounds) {
        None => None,
        Some(range) => Some((range.0 as i64, range.1 as i64)),
    }
}

/// The numbers by the range of the bounds over the box.
fn number_range(canonical: &Canonical, bounds: &VarBox) -> Interval
    requires stays { CannotWrap bounds.now canonical.now }
    requires other { HasNumbers canonical.now → ⊥ }
    ensures side { IsSide bounds.now canonical.now result }
    ensures fits { EndsFit result.least result.greatest }
{
    let Some(start) = ends(&canonical.start, bounds) else {
        return NONE;
    };
    let Some(limit) = ends(&canonical.limit, bounds) else {
        return NONE;
    };
    let shift = end_shift(canonical.stride.direction, canonical.bound);
    match canonical.stride.direction {
        Direction::Rising => Interval {
            least: start.0,
            greatest: limit.1 + shift,
        },
        Direction::Falling => Interval {
            least: limit.0 + shift,
            greatest: start.1,
        },
    }
}

/// The numbers that the variable of a loop inside those of a box may have: from the first to the last where both bounds are
/// numbers, and else by the range of the bounds over the box (OpenMP 5.2, 4.4.2).
pub fn side(canonical: &Canonical, bounds: &VarBox) -> Interval
    requires well { IsWell canonical.now }
    requires stays { CannotWrap bounds.now canonical.now }
    ensures side { IsSide bounds.now canonical.now result }
    ensures fits { EndsFit result.least result.greatest }
{
    if canonical.start.terms().is_empty() && canonical.limit.terms().is_empty() {
        let shift = end_shift(canonical.stride.direction, canonical.bound);
        exact(
            canonical.stride,
            canonical.start.constant_term(),
            canonical.limit.constant_term() + shift,
        )
    } else {
        number_range(canonical, bounds)
    }
}
