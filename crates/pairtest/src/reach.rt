//! What the sum of an equation can reach.

ghost use Rattle.std.specs.Prelude.{◌≡◌, ◌+◌, ◌-◌, ◌<◌, ◌≤◌, ◌^◌, ℤ, pos, ◌+ℤ◌, ◌-ℤ◌, ◌*ℤ◌, List, ◌++◌, [], ◌∷◌, ◌↔◌, unsigned_abs, slice_index_or, drop, IfOk, IfErr, IsTrue};
ghost use Rattle.std.specs.Int.{◌∣◌};
ghost use Rattle.pairtest.specs.Equations.{Unknown, unknown, last_product, NumbersWithin, CoefficientsWithin, IsWithin, IsRefutedByGcd, IsRefutedByBounds, IsRefuted, equation};
ghost use Rattle.pairtest.specs.DirectionVectors.{coefficient as coefficient_of, counters};
ghost use Rattle.pairtest.specs.Reached.{Summarizes};

use crate::access::PastLimit;
use affine::gcd;
use ktree::limits::EQUATION_NUMBER;

/// The number, where it is within the limit.
pub(crate) fn within_limit(number: i128) -> Result<i128, PastLimit>
    ensures ok { IfOk result (λ fits. (fits ≡ number) × IsWithin (2 ^ 62) number) }
    ensures err { IfErr result (λ _. ¬ (IsWithin (2 ^ 62) number)) }
{
    if number.unsigned_abs() > EQUATION_NUMBER {
        return Err(PastLimit);
    }
    Ok(number)
}

/// Of a sum of unknowns with coefficients: the greatest common divisor of the coefficients, and the least and the greatest
/// value, each as far as 128 bits hold it.
#[derive(Clone, Copy)]
pub(crate) struct Reach {
    divisor: u64,
    least: i128,
    greatest: i128,
}

/// The product of a coefficient with the last of so many values from 0 on.
fn product_at_last(coefficient: i128, values: u64) -> i128
    requires { IsWithin (2 ^ 62) coefficient }
    ensures value { result ≡ last_product (unknown coefficient values) }
    ensures within { IsWithin (2 ^ 126) result }
{
    coefficient * i128::from(values.saturating_sub(1))
}

/// The coefficient of a loop, 0 where none is written.
pub(crate) fn coefficient(coefficients: &[i64], at: usize) -> i128
    ensures value { result ≡ coefficient_of coefficients.now at }
    ensures within { IsWithin (2 ^ 63) result }
{
    match coefficients.get(at) {
        Some(number) => i128::from(*number),
        None => 0,
    }
}

/// What the coefficient of a loop on one side is above that on the other.
pub(crate) fn difference(earlier: &[i64], later: &[i64], at: usize) -> i128
    ensures value { result ≡ coefficient_of earlier.now at -ℤ coefficient_of later.now at }
    ensures within { IsWithin (2 ^ 64) result }
{
    coefficient(earlier, at) - coefficient(later, at)
}

/// The coefficients from a loop on.
pub(crate) fn coefficients_from(coefficients: &[i64], at: usize) -> &[i64]
    ensures { result.now ≡ drop at coefficients.now }
{
    if at < coefficients.len() {
        &coefficients[at..]
    } else {
        &[]
    }
}

/// Whether the number is a multiple of the divisor; 0 divides only 0.
fn divides(divisor: u64, number: i128) -> bool
    ensures { IsTrue result ↔ (divisor ∣ unsigned_abs number) }
{
    let size = number.unsigned_abs();
    if divisor == 0 {
        size == 0
    } else {
        size % u128::from(divisor) == 0
    }
}

impl Reach {
    /// That of a sum of nothing.
    pub(crate) fn of_nothing() -> Reach
        ensures { Summarizes result [] }
    {
        Reach {
            divisor: 0,
            least: 0,
            greatest: 0,
        }
    }

    /// That of the sum with one more unknown.
    ///
    /// # Errors
    ///
    /// Fails exactly where the coefficient passes the limit.
    pub(crate) fn with(self, coefficient: i128, values: u64) -> Result<Reach, PastLimit>
        ensures ok { IfOk result (λ after. (us : List Unknown) → Summarizes self us
            → Summarizes after (us ++ unknown coefficient values ∷ [])) }
        ensures err { IfErr result (λ _. ¬ (IsWithin (2 ^ 62) coefficient)) }
    {
        if coefficient.unsigned_abs() > EQUATION_NUMBER {
            return Err(PastLimit);
        }
        let far = product_at_last(coefficient, values);
        Ok(Reach {
            divisor: gcd(self.divisor, coefficient.unsigned_abs() as u64),
            least: self.least.saturating_add(far.min(0)),
            greatest: self.greatest.saturating_add(far.max(0)),
        })
    }

    /// That of the sum with the counters of loops with so many turns, each with the difference of its coefficients.
    ///
    /// # Errors
    ///
    /// Fails exactly where such a difference passes the limit.
    pub(crate) fn with_counters(
        self,
        earlier: &[i64],
        later: &[i64],
        turns: &[u64],
    ) -> Result<Reach, PastLimit>
        ensures ok { IfOk result (λ after. (us : List Unknown) → Summarizes self us
            → Summarizes after (us ++ counters earlier.now later.now turns.now)) }
        ensures err { IfErr result
            (λ _. ¬ (CoefficientsWithin (2 ^ 62) (counters earlier.now later.now turns.now))) }
    {
        let mut reach = self;
        for (at, turns) in turns.iter().enumerate() {
            reach = reach.with(difference(earlier, later, at), *turns)?;
        }
        Ok(reach)
    }

    /// That of the sum with the counters of loops one behind another, of which the last are given apart.
    ///
    /// # Errors
    ///
    /// Fails exactly where a difference of coefficients passes the limit.
    pub(crate) fn with_all_counters(
        self,
        earlier: &[i64],
        later: &[i64],
        turns: &[u64],
        last: &[u64],
    ) -> Result<Reach, PastLimit>
        ensures ok { IfOk result (λ after. (us : List Unknown) → Summarizes self us
            → Summarizes after (us ++ counters earlier.now later.now (turns.now ++ last.now))) }
        ensures err { IfErr result
            (λ _. ¬ (CoefficientsWithin (2 ^ 62)
            (counters earlier.now later.now (turns.now ++ last.now)))) }
    {
        let reach = self.with_counters(earlier, later, turns)?;
        reach.with_counters(
            coefficients_from(earlier, turns.len()),
            coefficients_from(later, turns.len()),
            last,
        )
    }

    /// Whether the GCD test shows that the sum never has this value: the divisor of its coefficients does not divide it.
    fn gcd_test(self, right: i128) -> bool
        ensures { (us : List Unknown) → Summarizes self us
            → IsTrue result ↔ IsRefutedByGcd (equation us right) }
    {
        !divides(self.divisor, right)
    }

    /// Whether the bounds test shows that the sum never has this value: it is below the least or above the greatest.
    fn bounds_test(self, right: i128) -> bool
        requires { IsWithin (2 ^ 62) right }
        ensures { (us : List Unknown) → Summarizes self us
            → IsTrue result ↔ IsRefutedByBounds (equation us right) }
    {
        right < self.least || self.greatest < right
    }

    /// Whether one of the two tests shows that the sum never has this value.
    pub(crate) fn refutes(self, right: i128) -> bool
        requires { IsWithin (2 ^ 62) right }
        ensures { (us : List Unknown) → Summarizes self us
            → IsTrue result ↔ IsRefuted (equation us right) }
    {
        self.gcd_test(right) | self.bounds_test(right)
    }
}
