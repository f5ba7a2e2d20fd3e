//! Dimensions in which both subscripts have the same coefficients.

ghost use Rattle.std.specs.Prelude.{◌≡◌, ◌+◌, ◌<◌, ◌≤◌, ◌^◌, ℕ, ℤ, pos, List, ◌↔◌, length, All, IsTrue, MatchOption};
ghost use Rattle.pairtest.specs.DirectionVectors.{coefficient as coefficient_of, place_of, dimensions};
ghost use Rattle.pairtest_cover.specs.Covered.{IsSimple, IsUniform};
ghost use Rattle.pairtest_cover.specs.Along.{IsFirstFrom};

use pairtest::{Access, Nest, Subscript};

/// The coefficient of a loop, 0 where none is written.
pub(crate) fn coefficient(coefficients: &[i64], place: usize) -> i64
    ensures { result ≡ coefficient_of coefficients.now place }
{
    match coefficients.get(place) {
        Some(number) => *number,
        None => 0,
    }
}

/// Whether both have the same coefficients; one that is not written is 0.
fn have_same_coefficients(s: &[i64], t: &[i64]) -> bool
    ensures { IsTrue result ↔ ((i : ℕ) → coefficient_of s.now i ≡ coefficient_of t.now i) }
{
    let mut same = true;
    for i in 0..s.len().max(t.len()) {
        same &= coefficient(s, i) == coefficient(t, i);
    }
    same
}

/// The first place from this one on whose coefficient is not 0.
fn first_from(coefficients: &[i64], from: usize) -> Option<usize>
    ensures { MatchOption result ((i : ℕ) → from ≤ i → coefficient_of coefficients.now i ≡ pos 0)
        (λ place. IsFirstFrom coefficients.now from place) }
{
    for place in from..coefficients.len() {
        if coefficients[place] != 0 {
            return Some(place);
        }
    }
    None
}

/// Whether besides serial counters at most one counter stands in the subscript, and that of a loop of the nest.
fn is_simple(nest: &Nest, s: &Subscript) -> bool
    ensures { IsTrue result ↔ IsSimple nest.now s.now }
{
    let serial = nest.serial.len();
    match first_from(&s.coefficients, serial) {
        None => true,
        Some(place) => {
            place - serial < nest.loops.len() && first_from(&s.coefficients, place + 1).is_none()
        }
    }
}

/// Whether both subscripts of a dimension have the same coefficients, with at most one counter of the nest.
fn is_uniform(nest: &Nest, s: &Subscript, t: &Subscript) -> bool
    ensures { IsTrue result ↔ IsUniform nest.now s.now t.now }
{
    have_same_coefficients(&s.coefficients, &t.coefficients) & is_simple(nest, s)
}

/// Whether all dimensions are such.
pub(crate) fn are_uniform(nest: &Nest, x: &Access, y: &Access) -> bool
    ensures { IsTrue result ↔ All (λ d. IsUniform nest.now d.0 d.1) (dimensions x.now y.now) }
{
    let mut all = true;
    for (s, t) in x.subscripts.iter().zip(y.subscripts.iter()) {
        all &= is_uniform(nest, s, t);
    }
    all
}
