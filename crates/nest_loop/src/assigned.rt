//! Variables that statements assign.

ghost use Rattle.std.specs.Prelude.{◌≡◌};
ghost use Rattle.semantics.specs.Tree.{no_items};
ghost use Rattle.ktree.specs.View.{stmt_of, increment_of, with_item, items_of};
ghost use Rattle.nest_loop.specs.Canonical.{stepped, assigns, assigns_among};

use ktree::{Increment, Item, Stmt, VarId};

/// The variable that a loop's step assigns.
fn stepped_variable(step: &Increment) -> VarId
    ensures { result.0 ≡ stepped (increment_of step.now) }
{
    match step {
        Increment::Up(variable) => *variable,
        Increment::Down(variable) => *variable,
        Increment::Set(variable, _) => *variable,
        Increment::Change(variable, _, _) => *variable,
    }
}

/// Whether a statement assigns the variable, if only by the step of a loop in it.
#[cycle(statement)]
pub fn assigns(variable: VarId, statement: &Stmt) -> bool
    ensures { result ≡ assigns variable.0 (stmt_of statement.now) }
{
    match statement {
        Stmt::Assign(target, _) => target.variable.0 == variable.0,
        Stmt::Update(target, _, _) => target.variable.0 == variable.0,
        Stmt::If(_, then, other) => {
            if let Some(other) = other {
                assigns(variable, then) || assigns(variable, other)
            } else {
                assigns(variable, then)
            }
        }
        Stmt::For(head, body) => {
            stepped_variable(&head.step).0 == variable.0 || assigns(variable, body)
        }
        Stmt::Block(items) => some_assigns(variable, items.as_slice()),
        Stmt::Print(_, _) => false,
    }
}

/// Whether one of a block's items does.
#[cycle(statement)]
fn some_assigns(variable: VarId, items: &[Item]) -> bool
    ensures { result ≡ assigns_among variable.0 (items_of items.now) }
{
    for item in items {
        if item_assigns(variable, item) {
            return true;
        }
    }
    false
}

/// Whether an item does.
#[cycle(statement)]
fn item_assigns(variable: VarId, item: &Item) -> bool
    ensures { result ≡ assigns_among variable.0 (with_item item.now no_items) }
{
    match item {
        Item::Directive(_) => false,
        Item::Local(_) => false,
        Item::Statement(statement) => assigns(variable, statement),
    }
}
