//! The reductions and the lastprivate variables of a directive line.

ghost use Rattle.std.specs.Prelude.{◌≡◌, ◌++◌, ℕ, map, flat_map, OnOk, IfOk};
ghost use Rattle.semantics.specs.Directives.Clauses.{last_of, reduction_of, inscan_of};
ghost use Rattle.ktree.specs.DirectiveView.{operator_of};
ghost use Rattle.pragma_named.specs.Views.{variable_named, resolved_clause};
ghost use Rattle.pragma_named.specs.Known.{kept, lines_known};
ghost use Rattle.flow_reduction.specs.Reduced.{reduced};
ghost use Rattle.flow.specs.Parallel.{numbers, AreRolesOf};
ghost use Rattle.flow.specs.Roles.{data_known};

use crate::environment::LoopRoles;
use crate::name_lists::{ListKind, listed_names};
use flow_reduction::Reduction;
use ktree::{Clause, ReductionOperator, VarId};
use pragma_named::{LineClauses, Named, clauses_known};
use std::alloc::{AllocError, Global};

/// Puts the reductions of names by one operator behind others.
///
/// # Errors
///
/// Where memory runs out; so for all below.
fn add_names(
    operator: ReductionOperator,
    names: &[Named],
    reductions: &mut Vec<Reduction>,
) -> Result<(), AllocError>
    ensures { OnOk result (reduced reductions.new.items ≡ reduced reductions.old.items
        ++ map (λ x. (x, operator_of operator)) (map variable_named names.now)) }
{
    for name in names {
        reductions.push(Reduction {
            variable: name.variable,
            operator,
        })?;
    }
    Ok(())
}

/// Puts those of a clause there.
fn add_clause(clause: &Clause<Named>, reductions: &mut Vec<Reduction>) -> Result<(), AllocError>
    ensures { OnOk result (reduced reductions.new.items
        ≡ reduced reductions.old.items ++ reduction_of (resolved_clause clause.now)) }
{
    match clause {
        Clause::Reduction(operator, names) => add_names(*operator, names, reductions),
        _ => Ok(()),
    }
}

/// The reductions of a directive line, in the order of its clauses (OpenMP 5.2, 5.5.8).
pub(crate) fn line_reductions(
    alloc: Global,
    line: u32,
    lines: &LineClauses,
) -> Result<Vec<Reduction>, AllocError>
    ensures { IfOk result (λ found. reduced found.items
        ≡ flat_map reduction_of (lines_known (kept lines.now) line)) }
{
    let mut found = Vec::new(alloc);
    for clause in clauses_known(lines, line) {
        add_clause(clause, &mut found)?;
    }
    Ok(found)
}

/// The variables of some names.
fn variables_of(alloc: Global, names: &[Named]) -> Result<Vec<VarId>, AllocError>
    ensures { IfOk result (λ found. numbers found.items ≡ map variable_named names.now) }
{
    let mut found = Vec::new(alloc);
    for name in names {
        found.push(name.variable)?;
    }
    Ok(found)
}

/// The lastprivate variables of a directive line, in the order of its clauses (OpenMP 5.2, 5.4.5).
fn line_lasts(alloc: Global, line: u32, lines: &LineClauses) -> Result<Vec<VarId>, AllocError>
    ensures { IfOk result (λ found. numbers found.items
        ≡ flat_map last_of (lines_known (kept lines.now) line)) }
{
    let names = listed_names(alloc, ListKind::Lastprivate, line, lines)?;
    variables_of(alloc, &names)
}

/// Puts that of a scan there, where a clause has one.
fn add_scanned(clause: &Clause<Named>, carried: &mut Vec<Reduction>) -> Result<(), AllocError>
    ensures { OnOk result (reduced carried.new.items
        ≡ reduced carried.old.items ++ inscan_of (resolved_clause clause.now)) }
{
    match clause {
        Clause::Inscan(operator, name) => {
            carried.push(Reduction {
                variable: name.variable,
                operator: *operator,
            })?;
            Ok(())
        }
        _ => Ok(()),
    }
}

/// The variable of a directive line's scan with its operator, if it is one (OpenMP 5.2, 5.6).
fn line_carried(alloc: Global, line: u32, lines: &LineClauses) -> Result<Vec<Reduction>, AllocError>
    ensures { IfOk result (λ found. reduced found.items
        ≡ flat_map inscan_of (lines_known (kept lines.now) line)) }
{
    let mut found = Vec::new(alloc);
    for clause in clauses_known(lines, line) {
        add_scanned(clause, &mut found)?;
    }
    Ok(found)
}

/// What a directive line says of the variables that leave something behind its loop.
pub(crate) fn loop_roles(
    alloc: Global,
    line: u32,
    lines: &LineClauses,
) -> Result<LoopRoles, AllocError>
    ensures { IfOk result (λ roles. (files : ℕ)
        → AreRolesOf (data_known (kept lines.now) files line) roles) }
{
    let reductions = line_reductions(alloc, line, lines)?;
    let lasts = line_lasts(alloc, line, lines)?;
    let carried = line_carried(alloc, line, lines)?;
    Ok(LoopRoles {
        reductions,
        lasts,
        carried,
    })
}
