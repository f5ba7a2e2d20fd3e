//! How far apart the iterations lie in which two accesses meet.

ghost use Rattle.std.specs.Prelude.{◌≡◌, ◌≢◌, ◌+◌, ◌<◌, ◌≤◌, ◌^◌, ℕ, ℤ, pos, ◌-ℤ◌, ◌*ℤ◌, ◌↔◌, ◌⊎◌, Some, length, Any, All, IsTrue, unsigned_abs};
ghost use Rattle.pairtest.specs.DirectionVectors.{place_of, dimensions};
ghost use Rattle.pairtest_cover.specs.Covered.{StandsIn, coefficient_at, IsEqualAt, IsApart};
ghost use Rattle.pairtest_cover.specs.Along.{AreApart, LeadsThere};

use crate::uniform::coefficient;
use pairtest::{Access, Nest, Subscript};

/// The coefficient of one of the nest's loops.
fn coefficient_at(nest: &Nest, at: usize, s: &Subscript) -> i64
    requires { at < length nest.now.loops.items }
    ensures { result ≡ coefficient_at nest.now at s.now }
{
    coefficient(&s.coefficients, nest.serial.len() + at)
}

/// The product of a coefficient with a number of a sink's distance.
fn product(coefficient: i64, step: i64) -> i128
    ensures value { result ≡ coefficient *ℤ step }
    ensures within { unsigned_abs result ≤ 2 ^ 126 }
{
    i128::from(coefficient) * i128::from(step)
}

/// What the constant of one side is above that of the other.
fn difference(s: &Subscript, t: &Subscript) -> i128
    ensures value { result ≡ s.now.constant -ℤ t.now.constant }
    ensures within { unsigned_abs result ≤ 2 ^ 64 }
{
    i128::from(s.constant) - i128::from(t.constant)
}

/// Whether both sides are equal where the loop's counters are so many steps apart, if its counter stands there.
fn is_equal(nest: &Nest, at: usize, s: &Subscript, t: &Subscript, step: i64, times: i128) -> bool
    requires { at < length nest.now.loops.items }
    ensures { IsTrue result ↔ (StandsIn nest.now at s.now
        → IsEqualAt nest.now at (times *ℤ step) s.now t.now) }
{
    let coefficient = coefficient_at(nest, at, s);
    if coefficient == 0 {
        return true;
    }
    let wanted = difference(s, t);
    match product(coefficient, step).checked_mul(times) {
        Some(far) => far == wanted,
        None => false,
    }
}

/// Whether the loop's counter stands in some dimension.
fn stands(nest: &Nest, at: usize, x: &Access, y: &Access) -> bool
    requires { at < length nest.now.loops.items }
    ensures { IsTrue result ↔ Any (λ d. StandsIn nest.now at d.0) (dimensions x.now y.now) }
{
    let mut any = false;
    for (s, _t) in x.subscripts.iter().zip(y.subscripts.iter()) {
        any |= coefficient_at(nest, at, s) != 0;
    }
    any
}

/// Whether both sides of each dimension in which the loop's counter stands are equal where it is so many steps apart.
fn are_equal(nest: &Nest, at: usize, x: &Access, y: &Access, step: i64, times: i128) -> bool
    requires { at < length nest.now.loops.items }
    ensures { IsTrue result ↔ All (λ d. StandsIn nest.now at d.0
        → IsEqualAt nest.now at (times *ℤ step) d.0 d.1) (dimensions x.now y.now) }
{
    let mut all = true;
    for (s, t) in x.subscripts.iter().zip(y.subscripts.iter()) {
        all &= is_equal(nest, at, s, t, step, times);
    }
    all
}

/// The number of steps by which the loop's counters may be apart, by the first dimension in which it stands.
fn steps_at(nest: &Nest, at: usize, x: &Access, y: &Access, step: i64) -> Option<i128>
    requires { at < length nest.now.loops.items }
    ensures { (m : ℤ) → step ≢ pos 0 → IsApart nest.now x.now y.now at (m *ℤ step)
        → result ≡ Some m }
{
    for (s, t) in x.subscripts.iter().zip(y.subscripts.iter()) {
        let coefficient = coefficient_at(nest, at, s);
        if coefficient != 0 {
            return difference(s, t).checked_div(product(coefficient, step));
        }
    }
    None
}

/// By how many steps of a sink the accesses may be apart; any number will do for a sink that goes nowhere.
fn steps_of(nest: &Nest, x: &Access, y: &Access, sink: &[i64]) -> Option<i128>
    requires { length sink.now ≡ length nest.now.loops.items }
    ensures { (m : ℤ) → AreApart nest.now x.now y.now sink.now m
        → (result ≡ Some m)
        ⊎ ((result ≡ Some (pos 1)) × AreApart nest.now x.now y.now sink.now (pos 1)) }
{
    for at in 0..sink.len() {
        if sink[at] != 0 {
            return steps_at(nest, at, x, y, sink[at]);
        }
    }
    Some(1)
}

/// Whether the accesses are so many steps of a sink apart.
fn are_apart(nest: &Nest, x: &Access, y: &Access, sink: &[i64], times: i128) -> bool
    requires { length sink.now ≡ length nest.now.loops.items }
    ensures { IsTrue result ↔ AreApart nest.now x.now y.now sink.now times }
{
    let mut all = true;
    for at in 0..sink.len() {
        all &= stands(nest, at, x, y) & are_equal(nest, at, x, y, sink[at], times);
    }
    all
}

/// Whether the accesses are some steps of a sink apart, forwards or backwards.
pub(crate) fn leads_there(nest: &Nest, x: &Access, y: &Access, sink: &[i64]) -> bool
    ensures { IsTrue result ↔ LeadsThere nest.now x.now y.now sink.now }
{
    if sink.len() != nest.loops.len() {
        return false;
    }
    match steps_of(nest, x, y, sink) {
        Some(times) => times != 0 && are_apart(nest, x, y, sink, times),
        None => false,
    }
}
