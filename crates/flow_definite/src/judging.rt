//! What may be read after each statement.

ghost use Rattle.std.specs.Prelude.{◌≡◌, ◌&&◌, true, [], Some, OnOk, IfErr, IfOk, if◌then◌else◌, None, length};
ghost use Rattle.semantics.specs.Tree.{Items};
ghost use Rattle.semantics.specs.Meaning.Definite.{IsDefinite, definite, definite_items, declared_known, known_with, without, privates_in, where_ok, may_take, may_test, may_read, may_read_all};
ghost use Rattle.ktree.specs.View.{kernel_of, stmt_of, items_of, with_item, start_of, source_of, cond_of, expr_of, exprs_of};
ghost use Rattle.pragma_named.specs.Known.{kept};
ghost use Rattle.pragma_named.specs.Lines.{line_in};
ghost use Rattle.flow_definite.specs.Judged.{MayBeUnassigned, Refuses, RefusesAnyhow, private_locals, pending, known_of};

use crate::fault::ReadFault;
use crate::known::DefinitelyAssigned;
use crate::privates::{forget_inside, forget_line};
use crate::reading::{read, read_all, read_parts, read_source, read_step, read_test};
use ktree::{Expr, Head, Item, Kernel, Local, Refusal, Source, Stmt, Target};
use pragma_named::{LineClauses, line_of};
use std::alloc::Global;

/// Whether each local is assigned before it is read, on every path (C11 6.7.9, 10: an unassigned one is indeterminate); one in a
/// private list counts as unassigned behind its construct, from the start of the body of each serial loop round it, and behind
/// that loop (OpenMP 5.2, 5.4.3). `lines` has the clauses of the kernel's directive lines.
///
/// # Errors
///
/// `MayBeUnassigned` at the first name in the text that may be read unassigned; `OutOfMemory` where memory is refused.
pub fn definite(alloc: Global, kernel: &Kernel, lines: &LineClauses) -> Result<(), Refusal>
    ensures ok { OnOk result (IsDefinite (private_locals (kept lines.now)
        (length (kernel_of kernel.now).variables)) (kernel_of kernel.now)) }
    ensures err { IfErr result (MayBeUnassigned (private_locals (kept lines.now)
        (length (kernel_of kernel.now).variables)) kernel.now) }
{
    let files = kernel.variables.len();
    let mut known = DefinitelyAssigned::first(alloc, files)?;
    block(&kernel.body, lines, files, &mut known)?;
    Ok(())
}

/// Judges a statement where these variables may be read, and leaves those that may be read behind it (C11 6.8); `files` variables
/// stand at file scope.
///
/// # Errors
///
/// `Unassigned` at the first name that may not be read, and `OutOfMemory`; so for all below.
#[cycle(judging)]
pub fn judge(
    stmt: &Stmt,
    lines: &LineClauses,
    files: usize,
    known: &mut DefinitelyAssigned,
) -> Result<(), ReadFault>
    ensures after { OnOk result (definite (private_locals (kept lines.now) files)
        (stmt_of stmt.now) (known_of known.old) ≡ Some (known_of known.new)) }
    ensures refused { IfErr result (Refuses (definite (private_locals (kept lines.now) files)
        (stmt_of stmt.now) (known_of known.old))) }
{
    match stmt {
        Stmt::Assign(target, source) => assign(target, source, known),
        Stmt::Update(target, _op, expr) => update(target, expr, known),
        Stmt::If(cond, then, other) => {
            read_test(cond, known)?;
            let mut beside = known.copy()?;
            judge(then, lines, files, known)?;
            if let Some(other) = other {
                judge(other, lines, files, &mut beside)?;
            }
            known.meet(&beside)?;
            Ok(())
        }
        Stmt::For(head, body) => {
            let mut inside = enter(head, body, lines, files, known)?;
            judge(body, lines, files, &mut inside)?;
            read_step(&head.step, head.place, &inside)?;
            forget_inside(body, lines, files, known)?;
            Ok(())
        }
        Stmt::Block(items) => block(items, lines, files, known),
        Stmt::Print(parts, _place) => {
            read_parts(parts, known)?;
            Ok(())
        }
    }
}

/// Judges the items of a block in their order (C11 6.8.2).
#[cycle(judging)]
fn block(
    items: &[Item],
    lines: &LineClauses,
    files: usize,
    known: &mut DefinitelyAssigned,
) -> Result<(), ReadFault>
    ensures after { OnOk result (definite_items (private_locals (kept lines.now) files) []
        (items_of items.now) (known_of known.old) ≡ Some (known_of known.new)) }
    ensures refused { IfErr result (Refuses (definite_items (private_locals (kept lines.now) files)
        [] (items_of items.now) (known_of known.old))) }
{
    let mut before = None;
    for item in items {
        judge_item(item, before, lines, files, known)?;
        before = line_of(item);
    }
    Ok(())
}

/// Judges one item of a block, behind the item that is the directive line of this number, if it is one; a directive line reads nothing.
#[cycle(judging)]
fn judge_item(
    item: &Item,
    before: Option<u32>,
    lines: &LineClauses,
    files: usize,
    known: &mut DefinitelyAssigned,
) -> Result<(), ReadFault>
    ensures after { OnOk result ((rest : Items)
        → definite_items (private_locals (kept lines.now) files)
        (pending (private_locals (kept lines.now) files) before) (with_item item.now rest)
        (known_of known.old) ≡ definite_items (private_locals (kept lines.now) files)
        (pending (private_locals (kept lines.now) files) (line_in item.now)) rest
        (known_of known.new)) }
    ensures refused { IfErr result (RefusesAnyhow (λ rest.
        definite_items (private_locals (kept lines.now) files)
        (pending (private_locals (kept lines.now) files) before) (with_item item.now rest)
        (known_of known.old))) }
{
    match item {
        Item::Directive(_place) => Ok(()),
        Item::Local(local) => declare(local, known),
        Item::Statement(stmt) => {
            judge(stmt, lines, files, known)?;
            if let Some(line) = before {
                forget_line(line, lines, files, known)?;
            }
            Ok(())
        }
    }
}

/// Judges a local's initialiser; without one the local may not be read from here on (C11 6.7.9, 10).
fn declare(local: &Local, known: &mut DefinitelyAssigned) -> Result<(), ReadFault>
    ensures after { OnOk result (declared_known (known_of known.old) local.now.variable.0
        (start_of local.now.start) ≡ Some (known_of known.new)) }
    ensures refused { IfErr result
        (Refuses (declared_known (known_of known.old) local.now.variable.0
        (start_of local.now.start))) }
{
    match &local.start {
        None => {
            known.forget(local.variable)?;
            Ok(())
        }
        Some(source) => {
            read_source(source, known)?;
            known.learn(local.variable)?;
            Ok(())
        }
    }
}

/// Judges an assignment, behind which its variable may be read (C11 6.5.16).
fn assign(target: &Target, source: &Source, known: &mut DefinitelyAssigned) -> Result<(), ReadFault>
    ensures after { OnOk result (where_ok
        (may_read_all (known_of known.old) (exprs_of target.now.subscripts.items)
        && may_take (known_of known.old) (source_of source.now))
        (known_with (known_of known.old) target.now.variable.0 true) ≡ Some (known_of known.new)) }
    ensures refused { IfErr result
        (Refuses (where_ok (may_read_all (known_of known.old) (exprs_of target.now.subscripts.items)
        && may_take (known_of known.old) (source_of source.now))
        (known_with (known_of known.old) target.now.variable.0 true))) }
{
    read_all(&target.subscripts, known)?;
    read_source(source, known)?;
    known.learn(target.variable)?;
    Ok(())
}

/// Judges an `op=`, which reads its own variable too (C11 6.5.16.2).
fn update(target: &Target, expr: &Expr, known: &DefinitelyAssigned) -> Result<(), ReadFault>
    ensures after { OnOk result (where_ok
        (known_of known.now target.now.variable.0
        && may_read_all (known_of known.now) (exprs_of target.now.subscripts.items)
        && may_read (known_of known.now) (expr_of expr.now)) (known_of known.now)
        ≡ Some (known_of known.now)) }
    ensures refused { IfErr result
        (Refuses (where_ok (known_of known.now target.now.variable.0
        && may_read_all (known_of known.now) (exprs_of target.now.subscripts.items)
        && may_read (known_of known.now) (expr_of expr.now)) (known_of known.now))) }
{
    known.read(target.variable, target.mention.name)?;
    read_all(&target.subscripts, known)?;
    read(expr, known)?;
    Ok(())
}

/// Judges a loop's start and its test, and answers what may be read in its body (C11 6.8.5.3).
fn enter(
    head: &Head,
    body: &Stmt,
    lines: &LineClauses,
    files: usize,
    known: &DefinitelyAssigned,
) -> Result<DefinitelyAssigned, ReadFault>
    ensures inside { IfOk result (λ inside. known_of inside
        ≡ without (known_with (known_of known.now) head.now.variable.0 true)
        (privates_in (private_locals (kept lines.now) files) (stmt_of body.now))) }
    ensures read { OnOk result ((may_take (known_of known.now) (source_of head.now.start)
        && may_test (without (known_with (known_of known.now) head.now.variable.0 true)
        (privates_in (private_locals (kept lines.now) files) (stmt_of body.now)))
        (cond_of head.now.test)) ≡ true) }
    ensures refused { IfErr result
        (Refuses (if (may_take (known_of known.now) (source_of head.now.start)
        && may_test (without (known_with (known_of known.now) head.now.variable.0 true)
        (privates_in (private_locals (kept lines.now) files) (stmt_of body.now)))
        (cond_of head.now.test)) then Some (known_of known.now) else None)) }
{
    read_source(&head.start, known)?;
    let mut inside = known.copy()?;
    inside.learn(head.variable)?;
    forget_inside(body, lines, files, &mut inside)?;
    read_test(&head.test, &inside)?;
    Ok(inside)
}
