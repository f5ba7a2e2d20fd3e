//! Whether a pair of accesses is ordered.

ghost use Rattle.std.specs.Prelude.{◌≡◌, ◌↔◌, map, Any, IfOk, IfErr, IsTrue};
ghost use Rattle.pairtest.specs.DirectionVectors.{AllWithin};
ghost use Rattle.pairtest_cover.specs.Covered.{IsCoveredBy, IsOrdered};
ghost use Rattle.pairtest_cover.specs.Along.{LeadsThere};

use crate::distance::leads_there;
use crate::uniform::are_uniform;
use pairtest::{Access, Nest, PastLimit, independent};

/// Whether some sink leads from one access to the other.
fn one_leads_there(x: &Access, y: &Access, nest: &Nest, sinks: &[Vec<i64>]) -> bool
    ensures { IsTrue result
        ↔ Any (LeadsThere nest.now x.now y.now) (map (λ d. d.items) sinks.now) }
{
    let mut any = false;
    for sink in sinks {
        any |= leads_there(nest, x, y, sink);
    }
    any
}

/// Whether a sink orders the accesses.
fn is_covered(x: &Access, y: &Access, nest: &Nest, sinks: &[Vec<i64>]) -> bool
    ensures { IsTrue result ↔ IsCoveredBy nest.now (map (λ d. d.items) sinks.now) x.now y.now }
{
    are_uniform(nest, x, y) & one_leads_there(x, y, nest, sinks)
}

/// Whether the accesses, which are of one array, are independent, or a sink of the doacross nest orders them: each sink is
/// the distance by which it lies before the iteration that names it. They are ordered by a sink if they have one distance
/// vector, which is some number of times that of the sink, forwards or backwards (OpenMP 5.2, 15.9.6 and 1.4.1): no counter of
/// a loop of the body stands in a subscript, both sides of each dimension have the same coefficients and at most one counter of
/// the nest, each of which stands in a dimension. Without a sink this is `independent`. It takes no memory.
///
/// # Errors
///
/// Fails exactly where `independent` does: where a coefficient or the constant of an equation passes 2^62 in absolute value.
pub fn are_ordered(
    x: &Access,
    y: &Access,
    nest: &Nest,
    sinks: &[Vec<i64>],
) -> Result<bool, PastLimit>
    ensures ok { IfOk result (λ answer. IsTrue answer
        ↔ IsOrdered nest.now (map (λ d. d.items) sinks.now) x.now y.now) }
    ensures within { IfOk result (λ _. AllWithin nest.now x.now y.now) }
    ensures err { IfErr result (λ _. ¬ (AllWithin nest.now x.now y.now)) }
{
    let apart = independent(x, y, nest)?;
    Ok(apart || is_covered(x, y, nest, sinks))
}
