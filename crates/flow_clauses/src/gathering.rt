//! The variables of a kernel's loops.

ghost use Rattle.std.specs.Prelude.{◌≡◌, ◌||◌, ℕ, IfOk, OnOk};
ghost use Rattle.semantics.specs.Tree.{Items};
ghost use Rattle.semantics.specs.Meaning.Agrees.{is_among};
ghost use Rattle.ktree.specs.View.{stmt_of, with_item, items_of};
ghost use Rattle.pragma_mention.specs.Sets.{holds};
ghost use Rattle.flow_clauses.specs.Fitting.{loop_variables, loop_variables_among};

use ktree::{Item, Stmt};
use pragma_mention::note;
use std::alloc::{AllocError, Global};
use std::collections::HashSet;

/// Adds the variables of the loops in a statement to a set.
#[cycle(gathering)]
fn add_loops(set: &mut HashSet<u32>, statement: &Stmt) -> Result<(), AllocError>
    ensures { OnOk result ((q : ℕ) → holds set.new q
        ≡ (holds set.old q || is_among (loop_variables (stmt_of statement.now)) q)) }
{
    match statement {
        Stmt::Assign(_, _) => Ok(()),
        Stmt::Update(_, _, _) => Ok(()),
        Stmt::If(_, then, other) => {
            add_loops(set, then)?;
            match other {
                None => Ok(()),
                Some(other) => add_loops(set, other),
            }
        }
        Stmt::For(head, body) => {
            note(set, head.variable)?;
            add_loops(set, body)
        }
        Stmt::Block(items) => add_among(set, items),
        Stmt::Print(_, _) => Ok(()),
    }
}

/// Adds those in a block's items.
#[cycle(gathering)]
fn add_among(set: &mut HashSet<u32>, items: &[Item]) -> Result<(), AllocError>
    ensures { OnOk result ((q : ℕ) → holds set.new q
        ≡ (holds set.old q || is_among (loop_variables_among (items_of items.now)) q)) }
{
    for item in items {
        add_item(set, item)?;
    }
    Ok(())
}

/// Adds those in an item.
#[cycle(gathering)]
fn add_item(set: &mut HashSet<u32>, item: &Item) -> Result<(), AllocError>
    ensures { OnOk result ((rest : Items) (q : ℕ)
        → (holds set.new q || is_among (loop_variables_among rest) q)
        ≡ (holds set.old q || is_among (loop_variables_among (with_item item.now rest)) q)) }
{
    match item {
        Item::Directive(_) => Ok(()),
        Item::Local(_) => Ok(()),
        Item::Statement(statement) => add_loops(set, statement),
    }
}

/// The variables of the loops in a block's items.
pub(crate) fn loop_variables(alloc: Global, items: &[Item]) -> Result<HashSet<u32>, AllocError>
    ensures { IfOk result (λ set. (q : ℕ)
        → holds set q ≡ is_among (loop_variables_among (items_of items.now)) q) }
{
    let mut set = HashSet::new(alloc);
    add_among(&mut set, items)?;
    Ok(set)
}
