//! The values of variables at the first turns of loops, and at a vector of a nest.

ghost use Rattle.std.specs.Prelude.{◌≡◌, ◌++◌, List, IfOk, OnOk, IfSome, MatchOption};
ghost use Rattle.nest_space.specs.declared.bounds.Value.{Value};
ghost use Rattle.nest_space.specs.Nests.{AreModest};
ghost use Rattle.deptest_witness.specs.Touching.{FirstTurns, held};

use nest_loop::Canonical;
use nest_space::{Value, turns_at};
use std::alloc::AllocError;

/// The values with those of the loops' variables at the first turn of each, inside those round it; None where a loop has no
/// turn.
///
/// # Errors
///
/// Where memory runs out.
pub(crate) fn first_turns(
    loops: &[Canonical],
    mut values: Vec<Value>,
) -> Result<Option<Vec<Value>>, AllocError>
    requires { AreModest values.items }
    ensures turns { IfOk result (λ there. MatchOption there
        ((others : List Value) → FirstTurns loops.now values.items others → ⊥)
        (λ vs. FirstTurns loops.now values.items vs.items)) }
    ensures modest { IfOk result (λ there. IfSome there (λ vs. AreModest vs.items)) }
{
    let Some((first, rest)) = loops.split_first() else {
        return Ok(Some(values));
    };
    let Some(turns) = turns_at(first, &values) else {
        return Ok(None);
    };
    if turns.count() == 0 {
        return Ok(None);
    }
    values.push(Value {
        variable: first.variable,
        value: turns.value(0),
    })?;
    first_turns(rest, values)
}

/// Adds the values that a vector gives to the variables of these loops.
///
/// # Errors
///
/// Where memory runs out.
pub(crate) fn hold(
    loops: &[Canonical],
    vector: &[u64],
    values: &mut Vec<Value>,
) -> Result<(), AllocError>
    ensures { OnOk result (values.new.items ≡ values.old.items ++ held loops.now vector.now) }
{
    let Some((first, rest)) = loops.split_first() else {
        return Ok(());
    };
    let Some((value, inner)) = vector.split_first() else {
        return Ok(());
    };
    values.push(Value {
        variable: first.variable,
        value: *value,
    })?;
    hold(rest, inner, values)
}
