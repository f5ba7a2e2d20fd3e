//! Where the variables stand that leave something behind a loop.

ghost use Rattle.std.specs.Prelude.{◌≡◌, filter, IfOk};
ghost use Rattle.semantics.specs.Meaning.Agrees.{is_among};
ghost use Rattle.law_commute.specs.Targets.{targets_outside};
ghost use Rattle.ktree.specs.View.{stmt_of};
ghost use Rattle.flow_reduction.specs.Reduced.{reduced};
ghost use Rattle.flow.specs.Parallel.{numbers};
ghost use Rattle.law_independence.specs.OrderLaws.{used_roles};
ghost use Rattle.lower.specs.Roles.{StandsAt, StandEach, AreReduced, AreRolesAt};
ghost use Rattle.outline.specs.Accepted.{HasPlace, HavePlaces};
ghost use Rattle.outline.specs.Handed.{roles_of};

use crate::compiling::Target;
use crate::targets::assigns_outside;
use flow::LoopRoles;
use flow_reduction::Reduction;
use ktree::{Stmt, VarId};
use lower::{LoweredReduction, LoweredRoles, Spot};
use std::alloc::{AllocError, Global};

// Where a scalar stands: at file scope are the variables of the layout, and a local has the register of its number (C11 6.2.1).
fn spot_of(variable: VarId, target: Target<'_>) -> Spot
    requires { HasPlace target.layout.now target.registers variable.0 }
    ensures { StandsAt target.entry.layout.now target.entry.registers variable.0 result }
{
    match target.layout.get(variable.0 as usize) {
        Some(own) => Spot::Cell(own.first),
        None => Spot::Register(variable),
    }
}

// The reduction variables of a line that its loop assigns from outside, in their order (OpenMP 5.2, 5.5.8).
fn lower_reductions(
    alloc: Global,
    reductions: &[Reduction],
    stmt: &Stmt,
    target: Target<'_>,
) -> Result<Vec<LoweredReduction>, AllocError>
    requires { HavePlaces target.layout.now target.registers (stmt_of stmt.now) }
    ensures { IfOk result
        (λ ls. AreReduced target.entry.layout.now target.entry.registers
        (filter (λ r. is_among (targets_outside (stmt_of stmt.now)) r.0) (reduced reductions.now))
        ls.items) }
{
    let mut lowered = Vec::new(alloc);
    for reduction in reductions {
        if assigns_outside(stmt, reduction.variable) {
            let spot = spot_of(reduction.variable, target);
            let operator = reduction.operator;
            lowered.push(LoweredReduction { operator, spot })?;
        }
    }
    Ok(lowered)
}

// The lastprivate ones (OpenMP 5.2, 5.4.5).
fn lower_lasts(
    alloc: Global,
    lasts: &[VarId],
    stmt: &Stmt,
    target: Target<'_>,
) -> Result<Vec<Spot>, AllocError>
    requires { HavePlaces target.layout.now target.registers (stmt_of stmt.now) }
    ensures { IfOk result
        (λ spots. StandEach target.entry.layout.now target.entry.registers
        (filter (is_among (targets_outside (stmt_of stmt.now))) (numbers lasts.now))
        spots.items) }
{
    let mut spots = Vec::new(alloc);
    for variable in lasts {
        if assigns_outside(stmt, *variable) {
            spots.push(spot_of(*variable, target))?;
        }
    }
    Ok(spots)
}

// The variables that a loop reduces: those of `reduction`, and that of a scan (OpenMP 5.2, 5.5.8 and 5.6).
fn left_reductions(alloc: Global, kept: &LoopRoles) -> Result<Vec<Reduction>, AllocError>
    ensures { IfOk result (λ left. reduced left.items ≡ (roles_of kept.now).reductions) }
{
    let mut left = Vec::from_slice(alloc, kept.reductions.as_slice())?;
    for reduction in &kept.carried {
        left.push(*reduction)?;
    }
    Ok(left)
}

// The variables with a role that a loop assigns from outside, of those that its line gives.
pub(crate) fn lower_roles(
    alloc: Global,
    kept: &LoopRoles,
    stmt: &Stmt,
    target: Target<'_>,
) -> Result<LoweredRoles, AllocError>
    requires { HavePlaces target.layout.now target.registers (stmt_of stmt.now) }
    ensures { IfOk result
        (AreRolesAt target.entry.layout.now target.entry.registers
        (used_roles (stmt_of stmt.now) (roles_of kept.now))) }
{
    let reduced = left_reductions(alloc, kept)?;
    let reductions = lower_reductions(alloc, &reduced, stmt, target)?;
    let lasts = lower_lasts(alloc, kept.lasts.as_slice(), stmt, target)?;
    Ok(LoweredRoles { reductions, lasts })
}
