//! Variables of constructs in their clauses: what a `for` may name inside a `parallel`, and what `default(none)` asks for (OpenMP 5.2, 5.1.1 and 5.4.1).

ghost use Rattle.std.specs.Prelude.{◌≡◌, ◌&&◌, None, map, is_none, IfOk};
ghost use Rattle.semantics.specs.Tree.{Items};
ghost use Rattle.ktree.specs.View.{stmt_of, with_item, items_of, kernel_of};
ghost use Rattle.pragma_named.specs.Views.{resolved_clause};
ghost use Rattle.pragma_named.specs.Known.{kept};
ghost use Rattle.pragma_named.specs.Known.{lines_known};
ghost use Rattle.pragma_named.specs.Lines.{asked, each_construct, each_among, line_in};
ghost use Rattle.pragma_attach.specs.Rightly.{are_shared, is_covered, names_rightly, name_rightly};

use crate::listed::{has_default_none, listed_variables, private_in};
use crate::wanted::inner_fault;
use ktree::{Clause, Item, Kernel, Place, Stmt};
use pragma_mention::{add_declared, first_unknown};
use pragma_named::{LineClauses, Named, clauses_known, line_of};
use std::alloc::{AllocError, Global};

/// Of two places the earlier one.
fn earlier(one: Option<Place>, other: Option<Place>) -> Option<Place>
    ensures { is_none result ≡ (is_none one && is_none other) }
{
    match (one, other) {
        (Some(first), Some(second)) => {
            if (second.line, second.column) < (first.line, first.column) {
                other
            } else {
                one
            }
        }
        (None, _) => other,
        (Some(_), None) => one,
    }
}

/// Where a clause inside a construct first names what the construct makes private itself.
fn unshared_name(
    alloc: Global,
    table: &LineClauses,
    clauses: &[Clause<Named>],
    statement: &Stmt,
) -> Result<Option<Place>, AllocError>
    ensures { IfOk result (λ found. is_none found
        ≡ are_shared (lines_known (kept table.now)) (map resolved_clause clauses.now)
        (stmt_of statement.now)) }
{
    let private = private_in(alloc, clauses)?;
    Ok(inner_fault(table, &private, false, statement))
}

/// Where a construct with `default(none)` first names what stands in none of its clauses.
fn uncovered_name(
    alloc: Global,
    table: &LineClauses,
    clauses: &[Clause<Named>],
    statement: &Stmt,
) -> Result<Option<Place>, AllocError>
    ensures { IfOk result (λ found. is_none found
        ≡ is_covered (lines_known (kept table.now)) (map resolved_clause clauses.now)
        (stmt_of statement.now)) }
{
    if !has_default_none(clauses) {
        return Ok(None);
    }
    let mut set = listed_variables(alloc, clauses)?;
    let inside = inner_fault(table, &set, true, statement);
    add_declared(&mut set, statement)?;
    Ok(earlier(inside, first_unknown(&set, statement)))
}

/// What is wrong with the names of a construct, the line before a statement.
fn construct_fault(
    alloc: Global,
    table: &LineClauses,
    line: u32,
    statement: &Stmt,
) -> Result<Option<Place>, AllocError>
    ensures { IfOk result (λ found. is_none found
        ≡ names_rightly (lines_known (kept table.now)) line (stmt_of statement.now)) }
{
    let clauses = clauses_known(table, line);
    let one = unshared_name(alloc, table, clauses, statement)?;
    let other = uncovered_name(alloc, table, clauses, statement)?;
    Ok(earlier(one, other))
}

/// Of the line before a statement, if there is one.
fn line_fault(
    alloc: Global,
    table: &LineClauses,
    before: Option<u32>,
    statement: &Stmt,
) -> Result<Option<Place>, AllocError>
    ensures { IfOk result (λ found. is_none found
        ≡ asked (names_rightly (lines_known (kept table.now))) before (stmt_of statement.now)) }
{
    match before {
        None => Ok(None),
        Some(line) => construct_fault(alloc, table, line, statement),
    }
}

/// Of the constructs in a statement.
#[cycle(naming)]
fn statement_fault(
    alloc: Global,
    table: &LineClauses,
    statement: &Stmt,
) -> Result<Option<Place>, AllocError>
    ensures { IfOk result (λ found. is_none found
        ≡ each_construct (names_rightly (lines_known (kept table.now))) (stmt_of statement.now)) }
{
    match statement {
        Stmt::Assign(_, _) => Ok(None),
        Stmt::Update(_, _, _) => Ok(None),
        Stmt::If(_, then, other) => {
            let first = statement_fault(alloc, table, then)?;
            match other {
                None => Ok(first),
                Some(other) => {
                    let second = statement_fault(alloc, table, other)?;
                    Ok(first.or(second))
                }
            }
        }
        Stmt::For(_, body) => statement_fault(alloc, table, body),
        Stmt::Block(items) => items_fault(alloc, table, items),
        Stmt::Print(_, _) => Ok(None),
    }
}

/// Of those in a block.
#[cycle(naming)]
fn items_fault(
    alloc: Global,
    table: &LineClauses,
    items: &[Item],
) -> Result<Option<Place>, AllocError>
    ensures { IfOk result (λ found. is_none found
        ≡ each_among (names_rightly (lines_known (kept table.now))) None (items_of items.now)) }
{
    let mut before = None;
    for item in items {
        let own = item_fault(alloc, table, before, item)?;
        if own.is_some() {
            return Ok(own);
        }
        before = line_of(item);
    }
    Ok(None)
}

/// Of the line before an item, and of those inside it.
#[cycle(naming)]
fn item_fault(
    alloc: Global,
    table: &LineClauses,
    before: Option<u32>,
    item: &Item,
) -> Result<Option<Place>, AllocError>
    ensures { IfOk result (λ found. (rest : Items)
        → each_among (names_rightly (lines_known (kept table.now))) before
        (with_item item.now rest)
        ≡ (is_none found && each_among (names_rightly (lines_known (kept table.now)))
        (line_in item.now) rest)) }
{
    match item {
        Item::Directive(_) => Ok(None),
        Item::Local(_) => Ok(None),
        Item::Statement(statement) => {
            let own = line_fault(alloc, table, before, statement)?;
            let inside = statement_fault(alloc, table, statement)?;
            Ok(own.or(inside))
        }
    }
}

/// What is wrong with the names of a kernel's constructs, the first of it in the text.
pub(crate) fn naming_fault(
    alloc: Global,
    kernel: &Kernel,
    table: &LineClauses,
) -> Result<Option<Place>, AllocError>
    ensures { IfOk result (λ found. is_none found
        ≡ name_rightly (lines_known (kept table.now)) (kernel_of kernel.now)) }
{
    items_fault(alloc, table, kernel.body.as_slice())
}
