//! The data environment of a parallel loop.

ghost use Rattle.std.specs.Prelude.{◌≡◌, ◌++◌, OnOk, IfOk};
ghost use Rattle.semantics.specs.Tree.{no_items};
ghost use Rattle.semantics.specs.Meaning.Agrees.{declared_in, declared_among};
ghost use Rattle.ktree.specs.View.{stmt_of, with_item, items_of};
ghost use Rattle.flow.specs.Parallel.{numbers};

use flow_reduction::Reduction;
use ktree::{Item, Place, Stmt, VarId};
use pragma::ParallelFor;
use std::alloc::{AllocError, Global};

/// The variables that clauses of a loop name and that leave something behind it, in the order of the clauses (OpenMP 5.2, 5.4.5, 5.5.8
/// and 5.6).
#[derive(Drop)]
pub struct LoopRoles {
    pub reductions: Vec<Reduction>,
    /// Those of `lastprivate`.
    pub lasts: Vec<VarId>,
    /// That of a scan, which is carried from one iteration to the next.
    pub carried: Vec<Reduction>,
}

/// A parallel loop of a kernel: where its directive line stands, what that says of its iterations, the variables that are
/// private without a clause: those of its associated loops and those that its body declares (OpenMP 5.2, 5.1.1 and 11.5), and those
/// that leave something behind it.
#[derive(Drop)]
pub struct ParallelLoop {
    pub line: Place,
    pub directive: ParallelFor,
    pub private: Vec<VarId>,
    pub roles: LoopRoles,
}

/// Puts what a statement declares behind other variables.
///
/// # Errors
///
/// Where memory runs out; so for all below.
#[cycle(adding)]
fn add_declared(statement: &Stmt, variables: &mut Vec<VarId>) -> Result<(), AllocError>
    ensures { OnOk result (numbers variables.new.items
        ≡ numbers variables.old.items ++ declared_in (stmt_of statement.now)) }
{
    match statement {
        Stmt::Assign(_, _) => Ok(()),
        Stmt::Update(_, _, _) => Ok(()),
        Stmt::If(_, then, other) => {
            add_declared(then, variables)?;
            match other {
                None => Ok(()),
                Some(other) => add_declared(other, variables),
            }
        }
        Stmt::For(head, body) => {
            variables.push(head.variable)?;
            add_declared(body, variables)
        }
        Stmt::Block(items) => add_declared_among(items, variables),
        Stmt::Print(_, _) => Ok(()),
    }
}

/// Puts what a block's items declare there.
#[cycle(adding)]
fn add_declared_among(items: &[Item], variables: &mut Vec<VarId>) -> Result<(), AllocError>
    ensures { OnOk result (numbers variables.new.items
        ≡ numbers variables.old.items ++ declared_among (items_of items.now)) }
{
    for item in items {
        add_item(item, variables)?;
    }
    Ok(())
}

/// Puts what an item declares there.
#[cycle(adding)]
fn add_item(item: &Item, variables: &mut Vec<VarId>) -> Result<(), AllocError>
    ensures { OnOk result (numbers variables.new.items
        ≡ numbers variables.old.items ++ declared_among (with_item item.now no_items)) }
{
    match item {
        Item::Directive(_) => Ok(()),
        Item::Local(local) => {
            variables.push(local.variable)?;
            Ok(())
        }
        Item::Statement(statement) => add_declared(statement, variables),
    }
}

/// What a statement declares, in the order of the text (OpenMP 5.2, 5.1.1).
pub(crate) fn declared_variables(alloc: Global, statement: &Stmt) -> Result<Vec<VarId>, AllocError>
    ensures { IfOk result (λ variables. numbers variables.items
        ≡ declared_in (stmt_of statement.now)) }
{
    let mut variables = Vec::new(alloc);
    add_declared(statement, &mut variables)?;
    Ok(variables)
}
