//! Sets of variables, by their numbers.

ghost use Rattle.std.specs.Prelude.{◌≡◌, ℕ, not, cond, true, nat_eq, is_none, IfOk, OnOk};
ghost use Rattle.pragma_mention.specs.Sets.{holds};

use ktree::{Place, VarId};
use std::alloc::AllocError;
use std::collections::HashSet;

/// Adds a variable to a set, and says whether it is new there.
///
/// # Errors
///
/// Where there is no memory.
pub fn note(set: &mut HashSet<u32>, variable: VarId) -> Result<bool, AllocError>
    ensures added { IfOk result (λ added. added ≡ not (holds set.old variable.0)) }
    ensures noted { OnOk result ((q : ℕ)
        → holds set.new q ≡ cond (nat_eq variable.0 q) true (holds set.old q)) }
{
    let added = set.insert(variable.0)?;
    Ok(added)
}

/// Where a variable is named that is not in a set.
pub(crate) fn unknown(set: &HashSet<u32>, variable: VarId, place: Place) -> Option<Place>
    ensures { is_none result ≡ holds set.now variable.0 }
{
    if set.contains(&variable.0) {
        None
    } else {
        Some(place)
    }
}
