//! What the body of a parallel loop declares, and what it assigns.

ghost use Rattle.std.specs.Prelude.{◌≡◌, ◌++◌, Bool, false, is_none, IfSome};
ghost use Rattle.semantics.specs.Tree.{Variable, Exprs, no_items};
ghost use Rattle.semantics.specs.Meaning.Agrees.{is_among, declared_in, declared_among};
ghost use Rattle.ktree.specs.View.{stmt_of, with_item, items_of, exprs_of};
ghost use Rattle.pragma_named.specs.Known.{kept};
ghost use Rattle.law_roles.specs.Sharing.{role_variables};
ghost use Rattle.flow.specs.Private.{is_own, keeps, keeps_all, is_private_body};
ghost use Rattle.flow.specs.Roles.{left_roles, data_known};
ghost use Rattle.flow.specs.Told.{TellsOfWrite, TellsOf, TellsOfAny, TellsOfBody};

use crate::fault::DataFault;
use crate::name_lists::{ListKind, has_role, is_listed};
use ktree::{Item, Stmt, Target, VarId};
use pragma_named::LineClauses;

/// Whether a statement declares a variable, as that of a loop's head or as a block's local, at any depth (C11 6.8.2 and 6.8.5.3);
/// in the body of a parallel loop such variables are private without a clause (OpenMP 5.2, 5.1.1).
#[cycle(declaring)]
pub fn declares(statement: &Stmt, variable: VarId) -> bool
    ensures { result ≡ is_among (declared_in (stmt_of statement.now)) variable.0 }
{
    match statement {
        Stmt::Assign(_, _) => false,
        Stmt::Update(_, _, _) => false,
        Stmt::If(_, then, other) => {
            let first = declares(then, variable);
            match other {
                None => first,
                Some(other) => first || declares(other, variable),
            }
        }
        Stmt::For(head, body) => head.variable == variable || declares(body, variable),
        Stmt::Block(items) => declared_in_block(items, variable),
        Stmt::Print(_, _) => false,
    }
}

/// Whether one of a block's items does.
#[cycle(declaring)]
fn declared_in_block(items: &[Item], variable: VarId) -> bool
    ensures { result ≡ is_among (declared_among (items_of items.now)) variable.0 }
{
    for item in items {
        if item_declares(item, variable) {
            return true;
        }
    }
    false
}

/// Whether an item does.
#[cycle(declaring)]
fn item_declares(item: &Item, variable: VarId) -> bool
    ensures { result ≡ is_among (declared_among (with_item item.now no_items)) variable.0 }
{
    match item {
        Item::Directive(_) => false,
        Item::Local(local) => local.variable == variable,
        Item::Statement(statement) => declares(statement, variable),
    }
}

/// Tells of a scalar that is written: one that stands in a `firstprivate` list of the line is its copy (OpenMP 5.2, 5.4.4).
fn write_fault(target: &Target, line: u32, lines: &LineClauses) -> DataFault
    ensures { (own : Variable → Bool) (is : Exprs) → is_own own target.now.variable.0 is ≡ false
        → TellsOfWrite result own target.now.variable.0 is }
{
    if is_listed(ListKind::Firstprivate, target.variable, line, lines) {
        DataFault::Copied(target.mention.name)
    } else {
        DataFault::Written(target.mention.name)
    }
}

/// What is wrong with an assignment in a body behind a directive line: of scalars it may write those alone that the body declares,
/// and those with a role by the line.
fn target_fault(
    target: &Target,
    body: &Stmt,
    line: u32,
    lines: &LineClauses,
    files: usize,
) -> Option<DataFault>
    ensures judged { is_none result
        ≡ is_own (is_among (declared_in (stmt_of body.now)
        ++ role_variables (left_roles (data_known (kept lines.now) files line))))
        target.now.variable.0
        (exprs_of target.now.subscripts.items) }
    ensures cause { IfSome result
        (λ f. TellsOfWrite f (is_among (declared_in (stmt_of body.now)
        ++ role_variables (left_roles (data_known (kept lines.now) files line))))
        target.now.variable.0
        (exprs_of target.now.subscripts.items)) }
{
    if !target.subscripts.is_empty() {
        return None;
    }
    if declares(body, target.variable) {
        return None;
    }
    if has_role(target.variable, line, lines, files) {
        return None;
    }
    Some(write_fault(target, line, lines))
}

/// The first fault of a statement in a body.
#[cycle(keeping)]
fn statement_fault(
    statement: &Stmt,
    body: &Stmt,
    line: u32,
    lines: &LineClauses,
    files: usize,
) -> Option<DataFault>
    ensures judged { is_none result
        ≡ keeps (is_among (declared_in (stmt_of body.now)
        ++ role_variables (left_roles (data_known (kept lines.now) files line))))
        (stmt_of statement.now) }
    ensures cause { IfSome result
        (λ f. TellsOf f (is_among (declared_in (stmt_of body.now)
        ++ role_variables (left_roles (data_known (kept lines.now) files line))))
        (stmt_of statement.now)) }
{
    match statement {
        Stmt::Assign(target, _) => target_fault(target, body, line, lines, files),
        Stmt::Update(target, _, _) => target_fault(target, body, line, lines, files),
        Stmt::If(_, then, other) => {
            if let Some(fault) = statement_fault(then, body, line, lines, files) {
                return Some(fault);
            }
            match other {
                None => None,
                Some(other) => statement_fault(other, body, line, lines, files),
            }
        }
        Stmt::For(_, inner) => statement_fault(inner, body, line, lines, files),
        Stmt::Block(items) => block_fault(items, body, line, lines, files),
        Stmt::Print(_, _) => None,
    }
}

/// The first of a block's items.
#[cycle(keeping)]
fn block_fault(
    items: &[Item],
    body: &Stmt,
    line: u32,
    lines: &LineClauses,
    files: usize,
) -> Option<DataFault>
    ensures judged { is_none result
        ≡ keeps_all (is_among (declared_in (stmt_of body.now)
        ++ role_variables (left_roles (data_known (kept lines.now) files line))))
        (items_of items.now) }
    ensures cause { IfSome result
        (λ f. TellsOfAny f (is_among (declared_in (stmt_of body.now)
        ++ role_variables (left_roles (data_known (kept lines.now) files line))))
        (items_of items.now)) }
{
    for item in items {
        if let Some(fault) = item_fault(item, body, line, lines, files) {
            return Some(fault);
        }
    }
    None
}

/// The first of an item.
#[cycle(keeping)]
fn item_fault(
    item: &Item,
    body: &Stmt,
    line: u32,
    lines: &LineClauses,
    files: usize,
) -> Option<DataFault>
    ensures judged { is_none result
        ≡ keeps_all (is_among (declared_in (stmt_of body.now)
        ++ role_variables (left_roles (data_known (kept lines.now) files line))))
        (with_item item.now no_items) }
    ensures cause { IfSome result
        (λ f. TellsOfAny f (is_among (declared_in (stmt_of body.now)
        ++ role_variables (left_roles (data_known (kept lines.now) files line))))
        (with_item item.now no_items)) }
{
    match item {
        Item::Directive(_) => None,
        Item::Local(_) => None,
        Item::Statement(statement) => statement_fault(statement, body, line, lines, files),
    }
}

/// The first fault of a parallel loop's body behind a directive line: a scalar that is assigned, declared outside and without a role.
pub(crate) fn body_fault(
    body: &Stmt,
    line: u32,
    lines: &LineClauses,
    files: usize,
) -> Option<DataFault>
    ensures judged { is_none result ≡ is_private_body
        (role_variables (left_roles (data_known (kept lines.now) files line)))
        (stmt_of body.now) }
    ensures cause { IfSome result (λ f. TellsOfBody f (left_roles (data_known
        (kept lines.now) files line))
        (stmt_of body.now)) }
{
    statement_fault(body, body, line, lines, files)
}
