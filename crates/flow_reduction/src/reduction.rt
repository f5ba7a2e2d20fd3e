//! Reduction variables, by their numbers.

ghost use Rattle.std.specs.Prelude.{◌≡◌, is_none, option_map};
ghost use Rattle.law_roles.specs.Updates.{operator_of, is_plain};
ghost use Rattle.ktree.specs.DirectiveView as view;
ghost use Rattle.flow_reduction.specs.Reduced.{reduced};

use ktree::{Place, ReductionOperator, VarId};

/// A reduction variable and its operator (OpenMP 5.2, 5.5.8).
#[derive(Clone, Copy, Debug, PartialEq, Eq)]
pub struct Reduction {
    pub variable: VarId,
    pub operator: ReductionOperator,
}

/// The operator of a variable, if it is a reduction variable; the first counts.
pub(crate) fn operator(variable: VarId, reductions: &[Reduction]) -> Option<ReductionOperator>
    ensures { option_map view.operator_of result ≡ operator_of (reduced reductions.now) variable.0 }
{
    for reduction in reductions {
        if reduction.variable == variable {
            return Some(reduction.operator);
        }
    }
    None
}

/// Where a variable is named, if it is a reduction variable.
pub(crate) fn reduced_at(variable: VarId, reductions: &[Reduction], place: Place) -> Option<Place>
    ensures { is_none result ≡ is_plain (reduced reductions.now) variable.0 }
{
    match operator(variable, reductions) {
        None => None,
        Some(_) => Some(place),
    }
}
