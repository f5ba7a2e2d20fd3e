//! The names in the lists of a directive line's clauses, and the roles that these give to variables.

ghost use Rattle.std.specs.Prelude.{◌≡◌, ◌++◌, map, flat_map, OnOk, IfOk};
ghost use Rattle.semantics.specs.Directives.Clauses.{private_of, first_of, last_of, reduction_of, inscan_of};
ghost use Rattle.semantics.specs.Meaning.Agrees.{is_among};
ghost use Rattle.law_roles.specs.Sharing.{assigned_first, role_variables};
ghost use Rattle.pragma_named.specs.Views.{variable_named, resolved_clause};
ghost use Rattle.pragma_named.specs.Known.{kept, lines_known};
ghost use Rattle.flow_definite.specs.Judged.{private_locals};
ghost use Rattle.flow.specs.Lists.{listed};
ghost use Rattle.flow.specs.Roles.{left_roles, roles_known, data_known};

use ktree::{Clause, VarId};
use pragma_named::{LineClauses, Named, clauses_known};
use std::alloc::{AllocError, Global};
use std::slice;

/// The lists of names that give roles to variables (OpenMP 5.2, 5.4.3, 5.4.4, 5.4.5, 5.5.8 and 5.6).
#[derive(Clone, Copy)]
pub(crate) enum ListKind {
    Private,
    Firstprivate,
    Lastprivate,
    Reduction,
    /// The one name of `reduction(inscan, ..)` (OpenMP 5.2, 5.6).
    Inscan,
}

/// The names of a private list.
fn privates_in(clause: &Clause<Named>) -> &[Named]
    ensures { map variable_named result.now ≡ private_of (resolved_clause clause.now) }
{
    match clause {
        Clause::Private(list) => list.as_slice(),
        _ => &[],
    }
}

/// The names of a `firstprivate` list.
fn copies_in(clause: &Clause<Named>) -> &[Named]
    ensures { map variable_named result.now ≡ first_of (resolved_clause clause.now) }
{
    match clause {
        Clause::Firstprivate(list) => list.as_slice(),
        _ => &[],
    }
}

/// The names of a `lastprivate` list.
fn lasts_in(clause: &Clause<Named>) -> &[Named]
    ensures { map variable_named result.now ≡ last_of (resolved_clause clause.now) }
{
    match clause {
        Clause::Lastprivate(list) => list.as_slice(),
        _ => &[],
    }
}

/// The names of a reduction's list.
fn reduced_in(clause: &Clause<Named>) -> &[Named]
    ensures { map variable_named result.now
        ≡ map (λ r. r.0) (reduction_of (resolved_clause clause.now)) }
{
    match clause {
        Clause::Reduction(_, list) => list.as_slice(),
        _ => &[],
    }
}

/// The name of a scan's reduction, as a list.
fn scanned_in(clause: &Clause<Named>) -> &[Named]
    ensures { map variable_named result.now
        ≡ map (λ r. r.0) (inscan_of (resolved_clause clause.now)) }
{
    match clause {
        Clause::Inscan(_, name) => slice::from_ref(name),
        _ => &[],
    }
}

/// The names that a clause lists in this way.
fn names_in(kind: ListKind, clause: &Clause<Named>) -> &[Named]
    ensures { map variable_named result.now ≡ listed kind (resolved_clause clause.now) }
{
    match kind {
        ListKind::Private => privates_in(clause),
        ListKind::Firstprivate => copies_in(clause),
        ListKind::Lastprivate => lasts_in(clause),
        ListKind::Reduction => reduced_in(clause),
        ListKind::Inscan => scanned_in(clause),
    }
}

/// Whether a list of names has a variable.
pub(crate) fn has_name(list: &[Named], variable: VarId) -> bool
    ensures { result ≡ is_among (map variable_named list.now) variable.0 }
{
    for name in list {
        if name.variable == variable {
            return true;
        }
    }
    false
}

/// Whether one of some clauses lists a variable in this way.
fn one_lists(kind: ListKind, variable: VarId, clauses: &[Clause<Named>]) -> bool
    ensures { result
        ≡ is_among (flat_map (listed kind) (map resolved_clause clauses.now)) variable.0 }
{
    for clause in clauses {
        if has_name(names_in(kind, clause), variable) {
            return true;
        }
    }
    false
}

/// Whether a directive line lists a variable in this way.
pub(crate) fn is_listed(kind: ListKind, variable: VarId, line: u32, lines: &LineClauses) -> bool
    ensures { result
        ≡ is_among (flat_map (listed kind) (lines_known (kept lines.now) line)) variable.0 }
{
    one_lists(kind, variable, clauses_known(lines, line))
}

/// Whether a variable stands in a private list of a directive line, and is a local.
fn is_private(variable: VarId, line: u32, lines: &LineClauses, files: usize) -> bool
    ensures { result ≡ is_among (private_locals (kept lines.now) files line) variable.0 }
{
    if (variable.0 as usize) < files {
        return false;
    }
    is_listed(ListKind::Private, variable, line, lines)
}

/// Whether a variable is private or lastprivate by a directive line: an iteration assigns it before it reads it.
pub(crate) fn is_assigned_first(
    variable: VarId,
    line: u32,
    lines: &LineClauses,
    files: usize,
) -> bool
    ensures { result
        ≡ is_among (assigned_first (roles_known (kept lines.now) files line)) variable.0 }
{
    is_private(variable, line, lines, files)
        || is_listed(ListKind::Lastprivate, variable, line, lines)
}

/// Whether a variable is private, lastprivate or reduced by a directive line.
fn is_role(variable: VarId, line: u32, lines: &LineClauses, files: usize) -> bool
    ensures { result
        ≡ is_among (role_variables (roles_known (kept lines.now) files line)) variable.0 }
{
    is_assigned_first(variable, line, lines, files)
        || is_listed(ListKind::Reduction, variable, line, lines)
}

/// Whether it is so, or is the variable of a scan.
pub(crate) fn has_role(variable: VarId, line: u32, lines: &LineClauses, files: usize) -> bool
    ensures { result ≡ is_among (role_variables (left_roles (data_known
        (kept lines.now) files line)))
        variable.0 }
{
    is_role(variable, line, lines, files) || is_listed(ListKind::Inscan, variable, line, lines)
}

/// Puts names behind others.
///
/// # Errors
///
/// Where memory runs out; so for all below.
fn add_names(names: &[Named], found: &mut Vec<Named>) -> Result<(), AllocError>
    ensures { OnOk result (map variable_named found.new.items
        ≡ map variable_named found.old.items ++ map variable_named names.now) }
{
    for name in names {
        found.push(*name)?;
    }
    Ok(())
}

/// The names that a directive line lists in this way, in the order of its clauses.
pub(crate) fn listed_names(
    alloc: Global,
    kind: ListKind,
    line: u32,
    lines: &LineClauses,
) -> Result<Vec<Named>, AllocError>
    ensures { IfOk result (λ found. map variable_named found.items
        ≡ flat_map (listed kind) (lines_known (kept lines.now) line)) }
{
    let mut found = Vec::new(alloc);
    for clause in clauses_known(lines, line) {
        add_names(names_in(kind, clause), &mut found)?;
    }
    Ok(found)
}
