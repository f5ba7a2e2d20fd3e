//! What a turn with a loop in it reads.

ghost use Rattle.std.specs.Prelude.{◌≡◌, true, IfOk};
ghost use Rattle.law_unrolled.specs.Unrolled.{ReadsItsOwn, once_at_zero};
ghost use Rattle.team_parts.specs.Turned.{nested_in};

use crate::placing::add_placed;
use crate::turned::Nest;
use lane_body::are_laned;
use lower_op::Op;
use std::alloc::{AllocError, Global};

// The instructions of a turn, each once, with 0 in the place of the inner variable.
fn once(alloc: Global, nest: &Nest<'_>) -> Result<Vec<Op>, AllocError>
    ensures { IfOk result (λ ops. ops.items ≡ once_at_zero (nested_in nest.now)) }
{
    let inner = nest.inner;
    let mut found = Vec::new(alloc);
    found.extend_from_slice(nest.front)?;
    found.push(Op::Constant(inner, 0))?;
    add_placed(&mut found, nest.ops, inner, 0)?;
    found.push(Op::Constant(inner, 0))?;
    found.extend_from_slice(nest.back)?;
    Ok(found)
}

/// Whether the instructions of a turn read registers that no turn changes or that the turn wrote before, and make places of registers that none
/// writes, beside the inner variable.
///
/// # Errors
///
/// Where memory is refused.
pub(crate) fn reads_its_own(alloc: Global, nest: &Nest<'_>) -> Result<bool, AllocError>
    ensures { IfOk result (λ own. own ≡ true
        → ReadsItsOwn nest.now.variable.at (nested_in nest.now)) }
{
    let once = once(alloc, nest)?;
    Ok(are_laned(64, &once, nest.variable.at))
}
