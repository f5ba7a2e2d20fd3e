//! Whether the private and lastprivate scalars of a loop are assigned before they are read, and the lastprivate ones on every path.

ghost use Rattle.std.specs.Prelude.{◌≡◌, Some, is_none, map, flat_map, length, IfOk, IfErr, IfSome};
ghost use Rattle.std.specs.List.{list_all};
ghost use Rattle.semantics.specs.Meaning.Definite.{no_privates, definite};
ghost use Rattle.law_roles.specs.Sharing.{assigned_first, AssignsAll};
ghost use Rattle.ktree.specs.View.{stmt_of};
ghost use Rattle.pragma_named.specs.Views.{variable_named};
ghost use Rattle.pragma_named.specs.Known.{kept};
ghost use Rattle.flow_definite.specs.Judged.{Refuses, known_of};
ghost use Rattle.flow.specs.Private.{all_but};
ghost use Rattle.flow.specs.Roles.{roles_known, ReadsAssigned, AssignsLasts};
ghost use Rattle.flow.specs.Told.{Finds, TellsOfRead, TellsOfLast};

use crate::fault::DataFault;
use crate::name_lists::{ListKind, listed_names};
use flow_definite::{DefinitelyAssigned, ReadFault, forget_all, forget_line, judge};
use ktree::{Item, Place, Stmt, VarId};
use pragma_named::{LineClauses, Named};
use std::alloc::{AllocError, Global};
use std::collections::HashMap;

/// All variables but the private locals of a directive line and its lastprivate variables.
///
/// # Errors
///
/// Where memory runs out.
fn known_first(
    alloc: Global,
    line: u32,
    lines: &LineClauses,
    files: usize,
) -> Result<DefinitelyAssigned, AllocError>
    ensures { IfOk result (λ known. known_of known
        ≡ all_but (assigned_first (roles_known (kept lines.now) files line))) }
{
    let lasts = listed_names(alloc, ListKind::Lastprivate, line, lines)?;
    let mut known = DefinitelyAssigned::all(alloc);
    forget_line(line, lines, files, &mut known)?;
    forget_all(&lasts, &mut known)?;
    Ok(known)
}

/// Judges a statement of a loop behind a directive line, where all variables but the private and lastprivate ones of the line may be
/// read: no construct stands inside. What may be read behind it.
///
/// # Errors
///
/// `Unassigned` at the first name that may not be read, and `OutOfMemory`.
fn judge_first(
    alloc: Global,
    statement: &Stmt,
    line: u32,
    lines: &LineClauses,
    files: usize,
) -> Result<DefinitelyAssigned, ReadFault>
    ensures ok { IfOk result (λ known. definite no_privates (stmt_of statement.now)
        (all_but (assigned_first (roles_known (kept lines.now) files line)))
        ≡ Some (known_of known)) }
    ensures err { IfErr result (Refuses (definite no_privates (stmt_of statement.now)
        (all_but (assigned_first (roles_known (kept lines.now) files line))))) }
{
    let none = HashMap::new(alloc);
    let mut known = known_first(alloc, line, lines, files)?;
    judge(statement, &none, files, &mut known)?;
    Ok(known)
}

/// What tells of a private or lastprivate scalar of a loop behind a directive line that may be read before it is assigned (OpenMP
/// 5.2, 5.4.3 and 5.4.5: a copy has no value at first).
pub(crate) fn read_fault(
    alloc: Global,
    statement: &Stmt,
    line: u32,
    lines: &LineClauses,
    files: usize,
) -> Option<DataFault>
    ensures judged { Finds result (ReadsAssigned (roles_known (kept lines.now) files line)
        (stmt_of statement.now)) }
    ensures cause { IfSome result (λ f. TellsOfRead f (roles_known (kept lines.now) files line)
        (stmt_of statement.now)) }
{
    match judge_first(alloc, statement, line, lines, files) {
        Ok(_) => None,
        Err(ReadFault::Unassigned(place)) => Some(DataFault::Unassigned(place)),
        Err(ReadFault::OutOfMemory) => Some(DataFault::OutOfMemory),
    }
}

/// Where the first of some variables is named that may not be read.
fn first_unknown(names: &[Named], known: &DefinitelyAssigned) -> Option<Place>
    ensures { is_none result ≡ list_all (known_of known.now) (map variable_named names.now) }
{
    for name in names {
        if !known.knows(name.variable.0 as usize) {
            return Some(name.place);
        }
    }
    None
}

/// Whether each path through a statement assigns a scalar; a loop may have no turn.
#[cycle(surely)]
fn assigns_surely(statement: &Stmt, variable: VarId) -> bool {
    match statement {
        Stmt::Assign(target, _) | Stmt::Update(target, _, _) => {
            target.variable == variable && target.subscripts.is_empty()
        }
        Stmt::If(_, then, Some(other)) => {
            assigns_surely(then, variable) && assigns_surely(other, variable)
        }
        Stmt::Block(items) => one_assigns_surely(items, variable),
        _ => false,
    }
}

/// Whether one of a block's items does.
#[cycle(surely)]
fn one_assigns_surely(items: &[Item], variable: VarId) -> bool {
    for item in items {
        if let Item::Statement(statement) = item {
            if assigns_surely(statement, variable) {
                return true;
            }
        }
    }
    false
}

/// Where the first of some variables is named that a body does not assign on every path, whatever it reads.
fn first_left_out(names: &[Named], body: &Stmt) -> Option<Place> {
    for name in names {
        if !assigns_surely(body, name.variable) {
            return Some(name.place);
        }
    }
    None
}

/// What tells of the first of the lastprivate variables of a line, which these are, that the body of its loop does not assign on
/// every path. Where the body only reads one before it assigns it, it is told there.
fn body_fault(
    alloc: Global,
    names: &[Named],
    body: &Stmt,
    line: u32,
    lines: &LineClauses,
    files: usize,
) -> Option<DataFault>
    requires { map variable_named names.now
        ≡ (roles_known (kept lines.now) files line).lasts }
    ensures judged { Finds result (AssignsAll
        (assigned_first (roles_known (kept lines.now) files line))
        (roles_known (kept lines.now) files line).lasts (stmt_of body.now)) }
    ensures cause { IfSome result (λ f. TellsOfLast f (roles_known (kept lines.now) files line)
        (stmt_of body.now)) }
{
    match judge_first(alloc, body, line, lines, files) {
        Ok(known) => match first_unknown(names, &known) {
            None => None,
            Some(place) => Some(DataFault::LastUnassigned(place)),
        },
        Err(ReadFault::Unassigned(place)) => Some(DataFault::LastUnassigned(first_left_out(
            names, body,
        ).unwrap_or(place))),
        Err(ReadFault::OutOfMemory) => Some(DataFault::OutOfMemory),
    }
}

/// What tells of a lastprivate variable that the body of a loop behind a directive line does not assign on every path (OpenMP 5.2,
/// 5.4.5: the last iteration's value is the variable's).
pub(crate) fn last_fault(
    alloc: Global,
    body: &Stmt,
    line: u32,
    lines: &LineClauses,
    files: usize,
) -> Option<DataFault>
    ensures judged { Finds result (AssignsLasts (roles_known (kept lines.now) files line)
        (stmt_of body.now)) }
    ensures cause { IfSome result (λ f. TellsOfLast f (roles_known (kept lines.now) files line)
        (stmt_of body.now)) }
{
    let Ok(names) = listed_names(alloc, ListKind::Lastprivate, line, lines) else {
        return Some(DataFault::OutOfMemory);
    };
    if names.is_empty() {
        return None;
    }
    body_fault(alloc, &names, body, line, lines, files)
}
