//! The private locals of directive lines, which may not be read behind their constructs.

ghost use Rattle.std.specs.Prelude.{◌≡◌, map, filter, OnOk};
ghost use Rattle.semantics.specs.Tree.{no_items};
ghost use Rattle.semantics.specs.Directives.Clauses.{private_of};
ghost use Rattle.semantics.specs.Meaning.Definite.{without, privates_in, privates_among};
ghost use Rattle.ktree.specs.View.{stmt_of, items_of, with_item};
ghost use Rattle.pragma_named.specs.Views.{variable_named, resolved_clause};
ghost use Rattle.pragma_named.specs.Known.{kept};
ghost use Rattle.flow_definite.specs.Judged.{is_local, private_locals, known_of};

use crate::known::DefinitelyAssigned;
use ktree::{Clause, Item, Stmt};
use pragma_named::{LineClauses, Named, clauses_known};
use std::alloc::AllocError;

/// Forgets the locals among some variables: they have numbers behind those of the file-scope ones.
///
/// # Errors
///
/// Where memory runs out; so of a clause.
fn forget_names(
    names: &[Named],
    files: usize,
    known: &mut DefinitelyAssigned,
) -> Result<(), AllocError>
    ensures { OnOk result (known_of known.new ≡ without (known_of known.old)
        (filter (is_local files) (map variable_named names.now))) }
{
    for name in names {
        if name.variable.0 as usize >= files {
            known.forget(name.variable)?;
        }
    }
    Ok(())
}

/// Forgets the locals of a private list.
fn forget_clause(
    clause: &Clause<Named>,
    files: usize,
    known: &mut DefinitelyAssigned,
) -> Result<(), AllocError>
    ensures { OnOk result (known_of known.new ≡ without (known_of known.old)
        (filter (is_local files) (private_of (resolved_clause clause.now)))) }
{
    match clause {
        Clause::Private(names) => forget_names(names, files, known),
        _ => Ok(()),
    }
}

/// Forgets the private locals of a directive line (OpenMP 5.2, 5.4.3); `files` variables stand at file scope.
///
/// # Errors
///
/// Where memory runs out.
pub fn forget_line(
    line: u32,
    lines: &LineClauses,
    files: usize,
    known: &mut DefinitelyAssigned,
) -> Result<(), AllocError>
    ensures { OnOk result (known_of known.new ≡ without (known_of known.old)
        (private_locals (kept lines.now) files line)) }
{
    for clause in clauses_known(lines, line) {
        forget_clause(clause, files, known)?;
    }
    Ok(())
}

/// Forgets the variables of some names.
///
/// # Errors
///
/// Where memory runs out; so for all below.
pub fn forget_all(names: &[Named], known: &mut DefinitelyAssigned) -> Result<(), AllocError>
    ensures { OnOk result (known_of known.new
        ≡ without (known_of known.old) (map variable_named names.now)) }
{
    for named in names {
        known.forget(named.variable)?;
    }
    Ok(())
}

/// Forgets those of the directive lines in a statement.
#[cycle(forgetting)]
pub(crate) fn forget_inside(
    statement: &Stmt,
    lines: &LineClauses,
    files: usize,
    known: &mut DefinitelyAssigned,
) -> Result<(), AllocError>
    ensures { OnOk result (known_of known.new ≡ without (known_of known.old)
        (privates_in (private_locals (kept lines.now) files) (stmt_of statement.now))) }
{
    match statement {
        Stmt::Assign(_, _) => Ok(()),
        Stmt::Update(_, _, _) => Ok(()),
        Stmt::If(_, then, other) => {
            forget_inside(then, lines, files, known)?;
            match other {
                None => Ok(()),
                Some(other) => forget_inside(other, lines, files, known),
            }
        }
        Stmt::For(_, body) => forget_inside(body, lines, files, known),
        Stmt::Block(items) => forget_among(items, lines, files, known),
        Stmt::Print(_, _) => Ok(()),
    }
}

/// Forgets those of the lines among a block's items.
#[cycle(forgetting)]
fn forget_among(
    items: &[Item],
    lines: &LineClauses,
    files: usize,
    known: &mut DefinitelyAssigned,
) -> Result<(), AllocError>
    ensures { OnOk result (known_of known.new ≡ without (known_of known.old)
        (privates_among (private_locals (kept lines.now) files) (items_of items.now))) }
{
    for item in items {
        forget_item(item, lines, files, known)?;
    }
    Ok(())
}

/// Forgets those of a line, or of the lines in a statement.
#[cycle(forgetting)]
fn forget_item(
    item: &Item,
    lines: &LineClauses,
    files: usize,
    known: &mut DefinitelyAssigned,
) -> Result<(), AllocError>
    ensures { OnOk result (known_of known.new ≡ without (known_of known.old)
        (privates_among (private_locals (kept lines.now) files) (with_item item.now no_items))) }
{
    match item {
        Item::Directive(place) => forget_line(place.line, lines, files, known),
        Item::Local(_) => Ok(()),
        Item::Statement(statement) => forget_inside(statement, lines, files, known),
    }
}
