//! Partial results, and how a value takes them in.

ghost use Rattle.std.specs.Prelude.{◌≡◌};
ghost use Rattle.semantics.specs.Loops.Operator.{combined};
ghost use Rattle.ktree.specs.DirectiveView.{operator_of};
ghost use Rattle.reduce.specs.Partial.{partial_of};

use crate::operator::{ReduceOp, apply_by};
use ktree::ReductionOperator;

/// What a part of a loop's iterations leaves in its copy of a reduction variable.
#[derive(Clone, Copy, Debug, PartialEq, Eq)]
pub enum Partial {
    /// No assignment updated the copy.
    Untouched,
    /// Assignments updated it, to this value in the end.
    Updated(u64),
}

/// A value combined with a partial (OpenMP 5.2, 5.5.2). One that was not updated is left out, so that
/// the value stays, also one that is no result of the operator, as 5 under `&&`.
pub fn combine<O: ReduceOp>(value: u64, partial: Partial) -> u64
    ensures { result ≡ combined O.operator value (partial_of partial) }
{
    match partial {
        Partial::Untouched => value,
        Partial::Updated(other) => O::apply(value, other),
    }
}

/// [`combine`] by an operator that is known when the program runs.
pub fn combine_by(op: ReductionOperator, value: u64, partial: Partial) -> u64
    ensures { result ≡ combined (operator_of op) value (partial_of partial) }
{
    if let Partial::Updated(other) = partial {
        apply_by(op, value, other)
    } else {
        value
    }
}
