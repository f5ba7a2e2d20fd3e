//! The cases in which two accesses may meet: which loop of the nest is the first to differ, and which access comes first.

ghost use Rattle.std.specs.Prelude.{◌≡◌, ◌+◌, ◌-◌, ◌<◌, ◌≤◌, ◌^◌, ℤ, pos, ◌+ℤ◌, ◌-ℤ◌, List, ◌++◌, [], ◌∷◌, ◌↔◌, length, Contains, IfOk, IfErr, IsTrue};
ghost use Rattle.pairtest.specs.Equations.{Unknown, CoefficientsWithin, NumbersWithin, IsRefuted, IsWithin};
ghost use Rattle.pairtest.specs.DirectionVectors.{coefficient as coefficient_of, differing, unknowns, direction_equation, turns_of, place_of, IsBoxEmpty, IsDirectionRefuted, IsDirectionWithin, AllRefuted, AllWithin};
ghost use Rattle.pairtest.specs.Reached.{Summarizes};

use crate::access::{Access, Nest, PastLimit, Subscript};
use crate::reach::{Reach, coefficient, coefficients_from, difference, within_limit};

/// Whether no two different iterations of the nest touch one element, one by each access: true exactly if every case is
/// refuted. The accesses are of one array; dimensions that only one of them has are not looked at. Whether they read or
/// write is not asked, nor under which conditions. It takes no memory.
///
/// # Errors
///
/// Fails exactly where a coefficient or the constant of an equation passes 2^62 in absolute value.
pub fn independent(x: &Access, y: &Access, nest: &Nest) -> Result<bool, PastLimit>
    ensures ok { IfOk result (λ answer. IsTrue answer ↔ AllRefuted nest.now x.now y.now) }
    ensures within { IfOk result (λ _. AllWithin nest.now x.now y.now) }
    ensures err { IfErr result (λ _. ¬ (AllWithin nest.now x.now y.now)) }
{
    let mut all = true;
    for at in 0..nest.loops.len() {
        all &= is_refuted(nest, at, x, y)?;
        all &= is_refuted(nest, at, y, x)?;
    }
    Ok(all)
}

/// Whether the accesses do not meet where this loop of the nest is the first to differ and the first access comes first.
fn is_refuted(nest: &Nest, at: usize, earlier: &Access, later: &Access) -> Result<bool, PastLimit>
    requires { at < length nest.now.loops.items }
    ensures ok { IfOk result (λ refuted. IsTrue refuted
        ↔ IsDirectionRefuted nest.now at earlier.now later.now) }
    ensures within { IfOk result (λ _. IsDirectionWithin nest.now at earlier.now later.now) }
    ensures err { IfErr result (λ _. ¬ (IsDirectionWithin nest.now at earlier.now later.now)) }
{
    let mut refuted = is_box_empty(nest, at, earlier, later);
    for (s, t) in earlier.subscripts.iter().zip(later.subscripts.iter()) {
        refuted |= is_dimension_refuted(nest, at, earlier, later, s, t)?;
    }
    Ok(refuted)
}

/// Whether there are no two iterations of which this loop is the first to differ.
fn is_box_empty(nest: &Nest, at: usize, earlier: &Access, later: &Access) -> bool
    requires { at < length nest.now.loops.items }
    ensures { IsTrue result ↔ IsBoxEmpty nest.now at earlier.now later.now }
{
    let turns_once = nest.trip_count(at) < 2;
    let outside = never_turns(&nest.serial) | never_turns(&nest.loops);
    let inside = never_turns(&earlier.inner) | never_turns(&later.inner);
    turns_once | outside | inside
}

/// Whether one of the loops takes no turn.
fn never_turns(turns: &[u64]) -> bool
    ensures { IsTrue result ↔ Contains turns.now 0 }
{
    turns.contains(&0)
}

/// Whether a dimension's equation has no solution, by the tests of what its sum can reach.
fn is_dimension_refuted(
    nest: &Nest,
    at: usize,
    earlier: &Access,
    later: &Access,
    s: &Subscript,
    t: &Subscript,
) -> Result<bool, PastLimit>
    requires { at < length nest.now.loops.items }
    ensures ok { IfOk result (λ refuted. IsTrue refuted
        ↔ IsRefuted (direction_equation nest.now at earlier.now later.now s.now t.now)) }
    ensures within { IfOk result (λ _. NumbersWithin
        (direction_equation nest.now at earlier.now later.now s.now t.now)) }
    ensures err { IfErr result
        (λ _. ¬ (NumbersWithin (direction_equation nest.now at earlier.now later.now s.now
        t.now))) }
{
    let reach = reach_of(nest, at, earlier, later, &s.coefficients, &t.coefficients)?;
    let right = within_limit(right_side(nest, at, s, t))?;
    Ok(reach.refutes(right))
}

/// The right side of a dimension's equation.
fn right_side(nest: &Nest, at: usize, s: &Subscript, t: &Subscript) -> i128
    requires { at < length nest.now.loops.items }
    ensures value { result ≡ (t.now.constant -ℤ s.now.constant)
        +ℤ coefficient_of t.now.coefficients.items (place_of nest.now at) }
{
    apart(t.constant, s.constant) + coefficient(&t.coefficients, nest.place(at))
}

/// What a number is above another.
fn apart(t: i64, s: i64) -> i128
    ensures value { result ≡ t -ℤ s }
    ensures within { IsWithin (2 ^ 64) result }
{
    i128::from(t) - i128::from(s)
}

/// What the sum of a dimension's equation can reach.
fn reach_of(
    nest: &Nest,
    at: usize,
    earlier: &Access,
    later: &Access,
    es: &[i64],
    ls: &[i64],
) -> Result<Reach, PastLimit>
    requires { at < length nest.now.loops.items }
    ensures ok { IfOk result (λ reach. Summarizes reach
        (unknowns nest.now at earlier.now later.now es.now ls.now)) }
    ensures err { IfErr result
        (λ _. ¬ (CoefficientsWithin (2 ^ 62)
        (unknowns nest.now at earlier.now later.now es.now ls.now))) }
{
    let before = &nest.loops[..at];
    let behind = &nest.loops[at + 1..];
    let next = nest.place(at) + 1;
    let shared = Reach::of_nothing().with_all_counters(es, ls, &nest.serial, before)?;
    let apart = with_first_difference(shared, nest, at, es, ls)?;
    let one = apart.with_all_counters(coefficients_from(es, next), &[], behind, &earlier.inner)?;
    one.with_all_counters(&[], coefficients_from(ls, next), behind, &later.inner)
}

/// What the sum reaches with the two unknowns of the loop that is the first to differ.
fn with_first_difference(
    reach: Reach,
    nest: &Nest,
    at: usize,
    es: &[i64],
    ls: &[i64],
) -> Result<Reach, PastLimit>
    requires { at < length nest.now.loops.items }
    ensures ok { IfOk result (λ after. (us : List Unknown) → Summarizes reach us
        → Summarizes after (us ++ differing nest.now at es.now ls.now)) }
    ensures err { IfErr result
        (λ _. ¬ (CoefficientsWithin (2 ^ 62) (differing nest.now at es.now ls.now))) }
{
    let place = nest.place(at);
    let values = nest.trip_count(at).saturating_sub(1);
    reach
        .with(difference(es, ls, place), values)?
        .with(difference(&[], ls, place), values)
}
