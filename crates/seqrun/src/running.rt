//! The walk over statements.

ghost use Rattle.std.specs.Prelude.{◌≡◌, ◌+◌, ◌<◌, ◌^◌, IsSome, OnOk, IfErr};
ghost use Rattle.semantics.specs.Tree.{no_items};
ghost use Rattle.semantics.specs.Meaning.Runs.{run, run_items};
ghost use Rattle.ktree.specs.View.{stmt_of, items_of, with_item};
ghost use Rattle.seqrun_value.specs.Standing.{standing};
ghost use Rattle.seqrun_io.specs.Told.{AddsBeginning};
ghost use Rattle.seqrun.specs.Ran.{Ran, text_of, lengths_of};
ghost use Rattle.seqrun.specs.Stops.{Stops};

use crate::printing::print;
use crate::stop::Stop;
use crate::writing::{assign, declare, increment, update};
use ktree::{Item, Stmt};
use seqrun_io::Sink;
use seqrun_value::{Frame, Slot, holds, source_value, value};
use store::Store;

/// Runs a statement, as [`crate::statement`] does (C11 6.8).
#[cycle(statement)]
pub(crate) fn statement<S: Sink>(
    stmt: &Stmt,
    frame: &mut Frame,
    store: &mut Store,
    sink: &mut S,
) -> Result<(), Stop>
    requires room { S.failed sink.old + 1 < 2 ^ 64 }
    requires runs { IsSome (run (stmt_of stmt.now) (standing frame.old store.old)) }
    ensures ran { OnOk result (Ran (run (stmt_of stmt.now) (standing frame.old store.old))
        (standing frame.old store.old) (standing frame.new store.new) (S.told sink.old)
        (S.told sink.new)) }
    ensures beginning { AddsBeginning (S.told sink.old) (S.told sink.new)
        (text_of (run (stmt_of stmt.now) (standing frame.old store.old))) }
    ensures sound { OnOk result (S.failed sink.new ≡ S.failed sink.old) }
    ensures refusal { IfErr result (Stops (S.failed sink.old) (S.failed sink.new)) }
    ensures shape { lengths_of store.new ≡ lengths_of store.old }
{
    match stmt {
        Stmt::Assign(target, source) => {
            let n = source_value(source, frame, store);
            assign(frame, store, target.variable, &target.subscripts, n)?;
            Ok(())
        }
        Stmt::Update(target, op, expr) => {
            let n = value(expr, frame, store);
            update(frame, store, target.variable, &target.subscripts, *op, n)?;
            Ok(())
        }
        Stmt::If(cond, then, other) => {
            if holds(cond, frame, store) {
                run_body(then, frame, store, sink)
            } else if let Some(other) = other {
                run_body(other, frame, store, sink)
            } else {
                Ok(())
            }
        }
        Stmt::For(head, body) => {
            let first = source_value(&head.start, frame, store);
            frame.set(head.variable, Slot::Holds(first))?;
            for _turn in 0..u64::MAX {
                if !holds(&head.test, frame, store) {
                    return Ok(());
                }
                run_body(body, frame, store, sink)?;
                increment(frame, store, &head.step)?;
            }
            Ok(())
        }
        Stmt::Block(items) => block(items, frame, store, sink),
        Stmt::Print(parts, _place) => print(parts, frame, store, sink),
    }
}

/// Runs a loop's body or the part of an `if`, which is a block as a rule.
#[inline(always)]
#[cycle(statement)]
fn run_body<S: Sink>(
    stmt: &Stmt,
    frame: &mut Frame,
    store: &mut Store,
    sink: &mut S,
) -> Result<(), Stop>
    requires room { S.failed sink.old + 1 < 2 ^ 64 }
    requires runs { IsSome (run (stmt_of stmt.now) (standing frame.old store.old)) }
    ensures ran { OnOk result (Ran (run (stmt_of stmt.now) (standing frame.old store.old))
        (standing frame.old store.old) (standing frame.new store.new) (S.told sink.old)
        (S.told sink.new)) }
    ensures beginning { AddsBeginning (S.told sink.old) (S.told sink.new)
        (text_of (run (stmt_of stmt.now) (standing frame.old store.old))) }
    ensures sound { OnOk result (S.failed sink.new ≡ S.failed sink.old) }
    ensures refusal { IfErr result (Stops (S.failed sink.old) (S.failed sink.new)) }
    ensures shape { lengths_of store.new ≡ lengths_of store.old }
{
    if let Stmt::Block(items) = stmt {
        run_few(items, frame, store, sink)
    } else {
        statement(stmt, frame, store, sink)
    }
}

/// Runs a statement of a block: an assignment where this is called, as most are.
#[inline(always)]
#[cycle(statement)]
fn run_inner<S: Sink>(
    stmt: &Stmt,
    frame: &mut Frame,
    store: &mut Store,
    sink: &mut S,
) -> Result<(), Stop>
    requires room { S.failed sink.old + 1 < 2 ^ 64 }
    requires runs { IsSome (run (stmt_of stmt.now) (standing frame.old store.old)) }
    ensures ran { OnOk result (Ran (run (stmt_of stmt.now) (standing frame.old store.old))
        (standing frame.old store.old) (standing frame.new store.new) (S.told sink.old)
        (S.told sink.new)) }
    ensures beginning { AddsBeginning (S.told sink.old) (S.told sink.new)
        (text_of (run (stmt_of stmt.now) (standing frame.old store.old))) }
    ensures sound { OnOk result (S.failed sink.new ≡ S.failed sink.old) }
    ensures refusal { IfErr result (Stops (S.failed sink.old) (S.failed sink.new)) }
    ensures shape { lengths_of store.new ≡ lengths_of store.old }
{
    match stmt {
        Stmt::Assign(target, source) => {
            let n = source_value(source, frame, store);
            assign(frame, store, target.variable, &target.subscripts, n)?;
            Ok(())
        }
        Stmt::Update(target, op, expr) => {
            let n = value(expr, frame, store);
            update(frame, store, target.variable, &target.subscripts, *op, n)?;
            Ok(())
        }
        _ => statement(stmt, frame, store, sink),
    }
}

/// Runs the items of a block, a single one where this is called.
#[inline(always)]
#[cycle(statement)]
fn run_few<S: Sink>(
    items: &[Item],
    frame: &mut Frame,
    store: &mut Store,
    sink: &mut S,
) -> Result<(), Stop>
    requires room { S.failed sink.old + 1 < 2 ^ 64 }
    requires runs { IsSome (run_items (items_of items.now) (standing frame.old store.old)) }
    ensures ran { OnOk result (Ran (run_items (items_of items.now) (standing frame.old store.old))
        (standing frame.old store.old) (standing frame.new store.new) (S.told sink.old)
        (S.told sink.new)) }
    ensures beginning { AddsBeginning (S.told sink.old) (S.told sink.new)
        (text_of (run_items (items_of items.now) (standing frame.old store.old))) }
    ensures sound { OnOk result (S.failed sink.new ≡ S.failed sink.old) }
    ensures refusal { IfErr result (Stops (S.failed sink.old) (S.failed sink.new)) }
    ensures shape { lengths_of store.new ≡ lengths_of store.old }
{
    if items.len() == 1 {
        run_item(&items[0], frame, store, sink)
    } else {
        block(items, frame, store, sink)
    }
}

/// Runs the items of a block in their order (C11 6.8.2).
#[cycle(statement)]
pub(crate) fn block<S: Sink>(
    items: &[Item],
    frame: &mut Frame,
    store: &mut Store,
    sink: &mut S,
) -> Result<(), Stop>
    requires room { S.failed sink.old + 1 < 2 ^ 64 }
    requires runs { IsSome (run_items (items_of items.now) (standing frame.old store.old)) }
    ensures ran { OnOk result (Ran (run_items (items_of items.now) (standing frame.old store.old))
        (standing frame.old store.old) (standing frame.new store.new) (S.told sink.old)
        (S.told sink.new)) }
    ensures beginning { AddsBeginning (S.told sink.old) (S.told sink.new)
        (text_of (run_items (items_of items.now) (standing frame.old store.old))) }
    ensures sound { OnOk result (S.failed sink.new ≡ S.failed sink.old) }
    ensures refusal { IfErr result (Stops (S.failed sink.old) (S.failed sink.new)) }
    ensures shape { lengths_of store.new ≡ lengths_of store.old }
{
    for item in items {
        run_item(item, frame, store, sink)?;
    }
    Ok(())
}

/// Runs one item of a block (C11 6.8.2).
#[inline(always)]
#[cycle(statement)]
pub(crate) fn run_item<S: Sink>(
    item: &Item,
    frame: &mut Frame,
    store: &mut Store,
    sink: &mut S,
) -> Result<(), Stop>
    requires room { S.failed sink.old + 1 < 2 ^ 64 }
    requires runs { IsSome (run_items (with_item item.now no_items)
        (standing frame.old store.old)) }
    ensures ran { OnOk result (Ran
        (run_items (with_item item.now no_items) (standing frame.old store.old))
        (standing frame.old store.old) (standing frame.new store.new) (S.told sink.old)
        (S.told sink.new)) }
    ensures beginning { AddsBeginning (S.told sink.old) (S.told sink.new)
        (text_of (run_items (with_item item.now no_items) (standing frame.old store.old))) }
    ensures sound { OnOk result (S.failed sink.new ≡ S.failed sink.old) }
    ensures refusal { IfErr result (Stops (S.failed sink.old) (S.failed sink.new)) }
    ensures shape { lengths_of store.new ≡ lengths_of store.old }
{
    match item {
        Item::Directive(_place) => Ok(()),
        Item::Local(local) => {
            declare(frame, store, local.variable, &local.start)?;
            Ok(())
        }
        Item::Statement(stmt) => run_inner(stmt, frame, store, sink),
    }
}
