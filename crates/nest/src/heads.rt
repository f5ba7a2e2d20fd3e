//! The loops of a nest, one directly in the other.

ghost use Rattle.std.specs.Prelude.{◌≡◌, ◌↔◌, ℕ, suc, None, Some, IsTrue, MatchOption};
ghost use Rattle.semantics.specs.Tree.{Items, no_items};
ghost use Rattle.semantics.specs.Loops.Nest.{as_loop, only_loop};
ghost use Rattle.ktree.specs.View.{stmt_of, items_of, with_item, cond_of};
ghost use Rattle.nest.specs.Heads.{head_of, limit_mentions, depends, depends_on_nest};
ghost use Rattle.nest.specs.Perfect.{NestHas};

use ktree::{Cond, Head, Item, Stmt, VarId};
use nest_loop::{mentions, source_mentions};

/// A loop's head, and what the loop runs.
#[derive(Clone, Copy)]
pub struct Level<'k> {
    pub head: &'k Head,
    pub body: &'k Stmt,
}

/// The loop that a statement is; a block of one statement counts as the statement (OpenMP 5.2, 4.4.1).
#[cycle(level)]
pub fn as_loop(statement: &Stmt) -> Option<Level<'_>>
    ensures { MatchOption result (as_loop (stmt_of statement.now) ≡ None)
        (λ level. as_loop (stmt_of statement.now)
        ≡ Some (head_of level.head.now, stmt_of level.body.now)) }
{
    match statement {
        Stmt::Assign(_, _) => None,
        Stmt::Update(_, _, _) => None,
        Stmt::If(_, _, _) => None,
        Stmt::For(head, body) => Some(Level { head, body }),
        Stmt::Block(items) => only_loop(items),
        Stmt::Print(_, _) => None,
    }
}

/// The loop that the only one of some items is.
#[cycle(level)]
fn only_loop(items: &[Item]) -> Option<Level<'_>>
    ensures { MatchOption result (only_loop (items_of items.now) ≡ None)
        (λ level. only_loop (items_of items.now)
        ≡ Some (head_of level.head.now, stmt_of level.body.now)) }
{
    match items {
        [] => None,
        [item] => item_loop(item),
        [_, _, ..] => None,
    }
}

/// The loop that an item is.
#[cycle(level)]
fn item_loop(item: &Item) -> Option<Level<'_>>
    ensures { MatchOption result (only_loop (with_item item.now no_items) ≡ None)
        (λ level. only_loop (with_item item.now no_items)
        ≡ Some (head_of level.head.now, stmt_of level.body.now)) }
{
    match item {
        Item::Directive(_) => None,
        Item::Local(_) => None,
        Item::Statement(statement) => as_loop(statement),
    }
}

/// Whether so many loops stand one directly in the other.
pub fn is_perfect(depth: u64, statement: &Stmt) -> bool
    ensures { IsTrue result ↔ NestHas (λ loops. Unit {0}) depth (stmt_of statement.now) }
{
    if depth == 0 {
        return true;
    }
    match as_loop(statement) {
        None => false,
        Some(level) => is_perfect(depth - 1, level.body),
    }
}

/// Whether the bound of a loop's comparison mentions a variable.
fn limit_mentions(variable: VarId, test: &Cond) -> bool
    ensures { result ≡ limit_mentions variable.0 (cond_of test.now) }
{
    match test {
        Cond::Compare(_, _, limit, _) => mentions(variable, limit),
        _ => false,
    }
}

/// Whether the start or the bound of a loop mentions the variable of another.
fn depends(head: &Head, other: &Head) -> bool
    ensures { result ≡ depends (head_of other.now).variable (head_of head.now) }
{
    limit_mentions(other.variable, &head.test) || source_mentions(other.variable, &head.start)
}

/// Whether it mentions the variable of one of so many loops, one directly in the other.
pub fn depends_on_nest(head: &Head, depth: u64, statement: &Stmt) -> bool
    ensures { result ≡ depends_on_nest (head_of head.now) depth (stmt_of statement.now) }
{
    if depth == 0 {
        return false;
    }
    match as_loop(statement) {
        None => false,
        Some(level) => depends(head, level.head) || depends_on_nest(head, depth - 1, level.body),
    }
}
