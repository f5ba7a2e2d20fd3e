//! The variables that a statement declares.

ghost use Rattle.std.specs.Prelude.{◌≡◌, ◌||◌, ℕ, OnOk};
ghost use Rattle.semantics.specs.Tree.{Items};
ghost use Rattle.semantics.specs.Meaning.Agrees.{is_among, declared_in, declared_among};
ghost use Rattle.ktree.specs.View.{stmt_of, with_item, items_of};
ghost use Rattle.pragma_mention.specs.Sets.{holds};

use crate::sets::note;
use ktree::{Item, Stmt};
use std::alloc::AllocError;
use std::collections::HashSet;

/// Adds to a set what a statement declares: the variables of its loops, and its blocks' locals.
///
/// # Errors
///
/// Where there is no memory.
#[cycle(declaring)]
pub fn add_declared(set: &mut HashSet<u32>, statement: &Stmt) -> Result<(), AllocError>
    ensures { OnOk result ((q : ℕ) → holds set.new q
        ≡ (holds set.old q || is_among (declared_in (stmt_of statement.now)) q)) }
{
    match statement {
        Stmt::Assign(_, _) => Ok(()),
        Stmt::Update(_, _, _) => Ok(()),
        Stmt::If(_, then, other) => {
            add_declared(set, then)?;
            match other {
                None => Ok(()),
                Some(other) => add_declared(set, other),
            }
        }
        Stmt::For(head, body) => {
            note(set, head.variable)?;
            add_declared(set, body)
        }
        Stmt::Block(items) => add_items(set, items),
        Stmt::Print(_, _) => Ok(()),
    }
}

/// What a block's items declare.
#[cycle(declaring)]
fn add_items(set: &mut HashSet<u32>, items: &[Item]) -> Result<(), AllocError>
    ensures { OnOk result ((q : ℕ) → holds set.new q
        ≡ (holds set.old q || is_among (declared_among (items_of items.now)) q)) }
{
    for item in items {
        add_item(set, item)?;
    }
    Ok(())
}

/// What an item declares.
#[cycle(declaring)]
fn add_item(set: &mut HashSet<u32>, item: &Item) -> Result<(), AllocError>
    ensures { OnOk result ((rest : Items) (q : ℕ)
        → (holds set.new q || is_among (declared_among rest) q)
        ≡ (holds set.old q || is_among (declared_among (with_item item.now rest)) q)) }
{
    match item {
        Item::Directive(_) => Ok(()),
        Item::Local(local) => {
            note(set, local.variable)?;
            Ok(())
        }
        Item::Statement(statement) => add_declared(set, statement),
    }
}
