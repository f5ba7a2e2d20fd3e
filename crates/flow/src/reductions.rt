//! Whether the reduction variables of a loop have no second role, and stand in updates alone.

ghost use Rattle.std.specs.Prelude.{◌≡◌, ◌&&◌, true, is_none, map, IfSome};
ghost use Rattle.std.specs.List.{list_all};
ghost use Rattle.law_roles.specs.Updates.{reduces};
ghost use Rattle.law_roles.specs.Sharing.{assigned_first, are_different};
ghost use Rattle.ktree.specs.View.{stmt_of};
ghost use Rattle.pragma_named.specs.Views.{variable_named};
ghost use Rattle.pragma_named.specs.Known.{kept};
ghost use Rattle.flow.specs.Private.{all_but};
ghost use Rattle.flow.specs.Roles.{roles_known, data_known, HaveOneRole, CarriesOthers};
ghost use Rattle.flow.specs.Told.{Finds, TellsOfSecond, TellsOfCarried, TellsOfMisuse};

use crate::fault::DataFault;
use crate::name_lists::{ListKind, has_name, is_assigned_first, listed_names};
use crate::role_lists::line_reductions;
use flow_reduction::first_misuse;
use ktree::{Place, Stmt};
use pragma_named::{LineClauses, Named};
use std::alloc::Global;

/// The first of some names whose variable is named again behind it, or is private or lastprivate by a directive line.
fn second_role(names: &[Named], line: u32, lines: &LineClauses, files: usize) -> Option<Place>
    ensures { is_none result ≡ (are_different (map variable_named names.now)
        && list_all (all_but (assigned_first (roles_known (kept lines.now) files line)))
        (map variable_named names.now)) }
{
    for (i, name) in names.iter().enumerate() {
        if has_name(&names[i + 1..], name.variable) {
            return Some(name.place);
        }
        if is_assigned_first(name.variable, line, lines, files) {
            return Some(name.place);
        }
    }
    None
}

/// What tells of a reduction variable of a directive line that has a second role (OpenMP 5.2, 5.4).
pub(crate) fn second_fault(
    alloc: Global,
    line: u32,
    lines: &LineClauses,
    files: usize,
) -> Option<DataFault>
    ensures judged { Finds result (HaveOneRole (roles_known (kept lines.now) files line)) }
    ensures cause { IfSome result
        (λ f. TellsOfSecond f (roles_known (kept lines.now) files line)) }
{
    let Ok(names) = listed_names(alloc, ListKind::Reduction, line, lines) else {
        return Some(DataFault::OutOfMemory);
    };
    match second_role(&names, line, lines, files) {
        None => None,
        Some(place) => Some(DataFault::Reduced(place)),
    }
}

/// The first of some names whose variable is private or lastprivate by a directive line.
fn first_assigned(names: &[Named], line: u32, lines: &LineClauses, files: usize) -> Option<Place>
    ensures { is_none result ≡ list_all
        (all_but (assigned_first (roles_known (kept lines.now) files line)))
        (map variable_named names.now) }
{
    for name in names {
        if is_assigned_first(name.variable, line, lines, files) {
            return Some(name.place);
        }
    }
    None
}

/// What tells of the variable of a directive line's scan that has a second role (OpenMP 5.2, 5.4).
pub(crate) fn carried_fault(
    alloc: Global,
    line: u32,
    lines: &LineClauses,
    files: usize,
) -> Option<DataFault>
    ensures judged { Finds result (CarriesOthers (data_known (kept lines.now) files line)) }
    ensures cause { IfSome result
        (λ f. TellsOfCarried f (data_known (kept lines.now) files line)) }
{
    let Ok(names) = listed_names(alloc, ListKind::Inscan, line, lines) else {
        return Some(DataFault::OutOfMemory);
    };
    match first_assigned(&names, line, lines, files) {
        None => None,
        Some(place) => Some(DataFault::Reduced(place)),
    }
}

/// What tells of a reduction variable that a loop behind a directive line names outside its updates (OpenMP 5.2, 5.5.8).
pub(crate) fn misuse_fault(
    alloc: Global,
    statement: &Stmt,
    line: u32,
    lines: &LineClauses,
    files: usize,
) -> Option<DataFault>
    ensures judged { Finds result (reduces (roles_known (kept lines.now) files line).reductions
        (stmt_of statement.now) ≡ true) }
    ensures cause { IfSome result (λ f. TellsOfMisuse f (roles_known (kept lines.now) files line)
        (stmt_of statement.now)) }
{
    let Ok(reductions) = line_reductions(alloc, line, lines) else {
        return Some(DataFault::OutOfMemory);
    };
    match first_misuse(statement, &reductions) {
        None => None,
        Some(place) => Some(DataFault::Reduced(place)),
    }
}
