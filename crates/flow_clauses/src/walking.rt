//! The clauses of a kernel's constructs, one construct after another.

ghost use Rattle.std.specs.Prelude.{◌≡◌, ◌&&◌, None, map, is_none, IfOk};
ghost use Rattle.semantics.specs.Tree.{Items};
ghost use Rattle.ktree.specs.View.{declaration_of, stmt_of, with_item, items_of, kernel_of};
ghost use Rattle.pragma_mention.specs.Sets.{holds};
ghost use Rattle.pragma_named.specs.Known.{kept, lines_known};
ghost use Rattle.pragma_named.specs.Lines.{each_construct, each_among, line_in};
ghost use Rattle.flow_clauses.specs.Fitting.{line_fits, fit_clauses};

use crate::gathering::loop_variables;
use crate::judging::{Misuse, clauses_fault};
use ktree::{Declaration, Item, Kernel, Stmt};
use pragma_named::{LineClauses, clauses_known, line_of};
use std::alloc::{AllocError, Global};
use std::collections::HashSet;

/// The first name in the clauses of the constructs in a statement that may not stand there.
#[cycle(walking)]
fn inner_fault(
    files: &[Declaration],
    loops: &HashSet<u32>,
    lines: &LineClauses,
    statement: &Stmt,
) -> Option<Misuse>
    ensures { is_none result ≡ each_construct
        (line_fits (map declaration_of files.now) (holds loops.now) (lines_known (kept lines.now)))
        (stmt_of statement.now) }
{
    match statement {
        Stmt::Assign(_, _) => None,
        Stmt::Update(_, _, _) => None,
        Stmt::If(_, then, other) => {
            let first = inner_fault(files, loops, lines, then);
            match other {
                None => first,
                Some(other) => first.or(inner_fault(files, loops, lines, other)),
            }
        }
        Stmt::For(_, body) => inner_fault(files, loops, lines, body),
        Stmt::Block(items) => items_fault(files, loops, lines, items),
        Stmt::Print(_, _) => None,
    }
}

/// The first in a block.
#[cycle(walking)]
fn items_fault(
    files: &[Declaration],
    loops: &HashSet<u32>,
    lines: &LineClauses,
    items: &[Item],
) -> Option<Misuse>
    ensures { is_none result ≡ each_among
        (line_fits (map declaration_of files.now) (holds loops.now) (lines_known (kept lines.now)))
        None (items_of items.now) }
{
    let mut before = None;
    for item in items {
        let found = item_fault(files, loops, lines, before, item);
        if found.is_some() {
            return found;
        }
        before = line_of(item);
    }
    None
}

/// The first of the line before an item, or inside the item.
#[cycle(walking)]
fn item_fault(
    files: &[Declaration],
    loops: &HashSet<u32>,
    lines: &LineClauses,
    before: Option<u32>,
    item: &Item,
) -> Option<Misuse>
    ensures { (rest : Items) → each_among
        (line_fits (map declaration_of files.now) (holds loops.now) (lines_known (kept lines.now)))
        before (with_item item.now rest)
        ≡ (is_none result && each_among
        (line_fits (map declaration_of files.now) (holds loops.now) (lines_known (kept lines.now)))
        (line_in item.now) rest) }
{
    match item {
        Item::Directive(_) => None,
        Item::Local(_) => None,
        Item::Statement(statement) => {
            let inside = inner_fault(files, loops, lines, statement);
            match before {
                None => inside,
                Some(line) => { clauses_fault(files, loops, clauses_known(lines, line)).or(inside) }
            }
        }
    }
}

/// The first name of a kernel's data clauses, in the order of the text, that may not stand there: in a `private` list a file-scope
/// variable or a loop's variable, in a `firstprivate` list an array, in a `lastprivate` or `reduction` list an array or a loop's variable
/// (OpenMP 5.2, 5.4 and 5.5.8).
///
/// # Errors
///
/// Where there is no memory.
pub fn first_misuse(
    alloc: Global,
    kernel: &Kernel,
    lines: &LineClauses,
) -> Result<Option<Misuse>, AllocError>
    ensures { IfOk result (λ found. is_none found
        ≡ fit_clauses (lines_known (kept lines.now)) (kernel_of kernel.now)) }
{
    let items = kernel.body.as_slice();
    let loops = loop_variables(alloc, items)?;
    Ok(items_fault(kernel.variables.as_slice(), &loops, lines, items))
}
