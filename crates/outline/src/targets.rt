//! Which scalars a statement assigns that it does not declare.

ghost use Rattle.std.specs.Prelude.{◌≡◌};
ghost use Rattle.semantics.specs.Tree.{no_items};
ghost use Rattle.semantics.specs.Meaning.Agrees.{is_among};
ghost use Rattle.law_commute.specs.Targets.{scalar, targets, targets_among, targets_outside};
ghost use Rattle.ktree.specs.View.{stmt_of, with_item, items_of, exprs_of};

use flow::declares;
use ktree::{Item, Stmt, Target, VarId};

// Whether the object that is assigned is this scalar (C11 6.5.16).
fn is_scalar(target: &Target, variable: VarId) -> bool
    ensures { result ≡ is_among
        (scalar target.now.variable.0 (exprs_of target.now.subscripts.items)) variable.0 }
{
    if target.subscripts.is_empty() {
        target.variable == variable
    } else {
        false
    }
}

// Whether a statement assigns a scalar; a loop's start and step are none of its assignments.
#[cycle(assigning)]
fn assigns(stmt: &Stmt, variable: VarId) -> bool
    ensures { result ≡ is_among (targets (stmt_of stmt.now)) variable.0 }
{
    match stmt {
        Stmt::Assign(target, _) => is_scalar(target, variable),
        Stmt::Update(target, _, _) => is_scalar(target, variable),
        Stmt::If(_, then, other) => {
            let first = assigns(then, variable);
            match other {
                None => first,
                Some(other) => first || assigns(other, variable),
            }
        }
        Stmt::For(_, body) => assigns(body, variable),
        Stmt::Block(items) => assigned_in_block(items, variable),
        Stmt::Print(_, _) => false,
    }
}

// Whether one of a block's items does.
#[cycle(assigning)]
fn assigned_in_block(items: &[Item], variable: VarId) -> bool
    ensures { result ≡ is_among (targets_among (items_of items.now)) variable.0 }
{
    for item in items {
        if item_assigns(item, variable) {
            return true;
        }
    }
    false
}

// Whether an item does.
#[cycle(assigning)]
fn item_assigns(item: &Item, variable: VarId) -> bool
    ensures { result ≡ is_among (targets_among (with_item item.now no_items)) variable.0 }
{
    match item {
        Item::Directive(_) => false,
        Item::Local(_) => false,
        Item::Statement(stmt) => assigns(stmt, variable),
    }
}

// Whether a statement assigns a scalar from outside of it.
pub(crate) fn assigns_outside(stmt: &Stmt, variable: VarId) -> bool
    ensures { result ≡ is_among (targets_outside (stmt_of stmt.now)) variable.0 }
{
    let assigned = assigns(stmt, variable);
    let declared = declares(stmt, variable);
    !declared && assigned
}
