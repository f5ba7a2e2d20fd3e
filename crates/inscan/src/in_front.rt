//! What the scan variable holds in front of each chunk.

ghost use Rattle.std.specs.Prelude.{map, IfOk};
ghost use Rattle.ktree.specs.DirectiveView.{operator_of};
ghost use Rattle.reduce.specs.Partial.{partial_of};
ghost use Rattle.inscan.specs.InFront.{AreStarts};

use ktree::ReductionOperator;
use reduce::{Partial, combine_by};
use std::alloc::{AllocError, Global};

/// The start of each chunk, by the partials of all in their order, and of one chunk more, which is what the scan variable holds behind
/// the loop: what it held before the loop, combined with the updated partials of the chunks before (OpenMP 5.2, 5.5.5 and 5.6).
///
/// # Errors
///
/// Where memory runs out.
pub fn starts(
    alloc: Global,
    operator: ReductionOperator,
    held: u64,
    partials: &[Partial],
) -> Result<Vec<u64>, AllocError>
    ensures { IfOk result (λ starts. AreStarts (operator_of operator) held
        (map partial_of partials.now) starts.items) }
{
    let mut starts = Vec::new(alloc);
    let mut value = held;
    starts.push(value)?;
    for partial in partials {
        value = combine_by(operator, value, *partial);
        starts.push(value)?;
    }
    Ok(starts)
}
