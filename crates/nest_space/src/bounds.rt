//! How a canonical loop runs at given values of the variables round it.

ghost use Rattle.std.specs.Prelude.{◌≡◌, ◌+◌, ◌*◌, ◌<◌, ◌≤◌, ◌^◌, ◌↔◌, ℕ, pos, ◌*ℤ◌, ◌+ℤ◌, length, unsigned_abs, IsTrue, MatchOption};
ghost use Rattle.affine.specs.Affine.{value, term_sum};
ghost use Rattle.affine.specs.Limits.{IsWithin, CoefficientsWithin};
ghost use Rattle.nest_loop.specs.Sides.{moved, end_shift, IsBefore, IsCount, Room, IsModest, Stays};
ghost use Rattle.nest_space.specs.Nests.{given, AreModest, IsRunOf};

use crate::turns::LoopTurns;
use affine::{Form, Term};
use ktree::VarId;
use ktree::limits::{BOUND, LOOP_VALUE};
use nest_loop::{Bound, Canonical, Direction, Stride};

/// What a variable holds.
#[derive(Clone, Copy, Debug, PartialEq, Eq)]
pub struct Value {
    pub variable: VarId,
    pub value: u64,
}

/// Whether no value is too large.
pub(crate) fn are_modest(values: &[Value]) -> bool
    ensures { IsTrue result ↔ AreModest values.now }
{
    match values.split_first() {
        None => true,
        Some((first, rest)) => first.value <= LOOP_VALUE && are_modest(rest),
    }
}

/// The variable's value, 0 where it has none.
fn value_of(values: &[Value], variable: VarId) -> u64
    requires { AreModest values.now }
    ensures value { pos result ≡ given values.now variable.0 }
    ensures modest { result ≤ 2 ^ 33 }
{
    match values.split_first() {
        None => 0,
        Some((first, rest)) => {
            if first.variable == variable {
                first.value
            } else {
                value_of(rest, variable)
            }
        }
    }
}

/// A coefficient times a value.
fn product(coefficient: i64, value: u64) -> i128
    requires coefficient { IsWithin (2 ^ 62) coefficient }
    requires value { value ≤ 2 ^ 33 }
    ensures value { result ≡ coefficient *ℤ pos value }
    ensures within { IsWithin (2 ^ 95) result }
{
    i128::from(coefficient) * i128::from(value)
}

/// The sum of these terms at these values.
fn sum_at(terms: &[Term], values: &[Value]) -> i128
    requires modest { AreModest values.now }
    requires numbers { CoefficientsWithin (2 ^ 62) terms.now }
    requires few { length terms.now ≤ 64 }
    ensures value { result ≡ term_sum terms.now (given values.now) }
    ensures within { unsigned_abs result ≤ length terms.now * 2 ^ 95 }
{
    match terms.split_first() {
        None => 0,
        Some((first, rest)) => {
            let product = product(first.coefficient, value_of(values, first.variable));
            product + sum_at(rest, values)
        }
    }
}

/// The form's value where the variables have these values, and those without a value are 0.
pub fn value_at(form: &Form, values: &[Value]) -> i128
    requires { AreModest values.now }
    ensures { result ≡ value form.now (given values.now) }
{
    let sum = sum_at(form.terms(), values);
    i128::from(form.constant_term()) + sum
}

/// The form's value at these values, where a loop's bound may have it.
fn bound_at(form: &Form, values: &[Value]) -> Option<u64>
    requires { AreModest values.now }
    ensures { MatchOption result (IsModest (value form.now (given values.now)) → ⊥)
        (λ n. IsModest (value form.now (given values.now))
        × (value form.now (given values.now) ≡ pos n)) }
{
    let number = value_at(form, values);
    if number < 0 || number > BOUND {
        return None;
    }
    Some(number as u64)
}

/// Whether the loop's variable does not wrap.
fn has_room(stride: Stride, bound: Bound, start: u64, limit: u64) -> bool
    requires { limit ≤ 2 ^ 32 }
    ensures { IsTrue result ↔ Room stride.direction bound stride.by (pos start) (pos limit) }
{
    let by = u64::from(stride.by);
    match stride.direction {
        Direction::Rising => match bound {
            Bound::Strict => true,
            Bound::Inclusive => true,
            Bound::Unequal => start <= limit,
        },
        Direction::Falling => match bound {
            Bound::Strict => by <= limit + 1,
            Bound::Inclusive => by <= limit,
            Bound::Unequal => limit <= start,
        },
    }
}

/// How many numbers lie from the start to the end.
fn numbers(direction: Direction, bound: Bound, start: u64, limit: u64) -> u64
    requires start { start ≤ 2 ^ 32 }
    requires limit { limit ≤ 2 ^ 32 }
    ensures numbers { (n : ℕ) → (n < result)
        ↔ IsBefore direction (moved direction (pos start) n)
        (pos limit +ℤ end_shift direction bound) }
    ensures few { result ≤ 2 ^ 32 + 1 }
{
    let apart = match direction {
        Direction::Rising => (limit + 1).saturating_sub(start),
        Direction::Falling => (start + 1).saturating_sub(limit),
    };
    match bound {
        Bound::Inclusive => apart,
        Bound::Strict | Bound::Unequal => apart.saturating_sub(1),
    }
}

/// How often the loop turns.
fn count(stride: Stride, bound: Bound, start: u64, limit: u64) -> u64
    requires start { start ≤ 2 ^ 32 }
    requires limit { limit ≤ 2 ^ 32 }
    requires least { 1 ≤ stride.by }
    ensures { IsCount stride (pos start) (pos limit +ℤ end_shift stride.direction bound) result }
{
    let by = u64::from(stride.by);
    let numbers = numbers(stride.direction, bound, start, limit);
    (numbers + (by - 1)) / by
}

/// How the loop runs at these values, where it stays.
pub(crate) fn run_of(head: &Canonical, values: &[Value]) -> Option<LoopTurns>
    requires { AreModest values.now }
    ensures { MatchOption result (1 ≤ head.now.stride.by → Stays head.now (given values.now) → ⊥)
        (λ t. IsRunOf head.now (given values.now) t) }
{
    let Some(start) = bound_at(&head.start, values) else {
        return None;
    };
    let Some(limit) = bound_at(&head.limit, values) else {
        return None;
    };
    if head.stride.by == 0 || !has_room(head.stride, head.bound, start, limit) {
        return None;
    }
    LoopTurns::new(
        start,
        head.stride,
        count(head.stride, head.bound, start, limit),
    )
}

/// How the loop runs where the variables round it have these values, and those without a value are 0: None where a value is
/// above 2^33, and where a bound is above 2^32 there or its variable would wrap (OpenMP 5.2, 4.4.1 and 4.4.2).
pub fn turns_at(head: &Canonical, values: &[Value]) -> Option<LoopTurns>
    ensures { MatchOption result
        (AreModest values.now → 1 ≤ head.now.stride.by → Stays head.now (given values.now) → ⊥)
        (λ t. IsRunOf head.now (given values.now) t) }
{
    if are_modest(values) {
        run_of(head, values)
    } else {
        None
    }
}
