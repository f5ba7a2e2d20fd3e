//! The runs of statements, and what refuses them.

ghost use Rattle.std.specs.Prelude.{◌≡◌, ◌+◌, ◌<◌, ◌^◌, IsSome, OnOk, IfErr};
ghost use Rattle.semantics.specs.Tree.{no_items};
ghost use Rattle.semantics.specs.Meaning.Runs.{run, run_items};
ghost use Rattle.ktree.specs.View.{stmt_of, items_of, with_item};
ghost use Rattle.seqrun_value.specs.Standing.{standing};
ghost use Rattle.seqrun_io.specs.Told.{AddsBeginning, Refuses};
ghost use Rattle.seqrun.specs.Ran.{Ran, text_of, lengths_of};

use crate::running;
use crate::stop::refusal;
use ktree::{Item, Refusal, Stmt};
use seqrun_io::Sink;
use seqrun_value::Frame;
use store::Store;

/// Runs a statement that has a run where these locals and file-scope variables stand, and puts what it prints
/// (C11 6.8).
///
/// # Errors
///
/// `OutputFailed` where a `put` failed, which ends the run, and else `OutOfMemory`. The variables then stand as the
/// part of the run left them that was done.
pub fn statement<S: Sink>(
    stmt: &Stmt,
    frame: &mut Frame,
    store: &mut Store,
    sink: &mut S,
) -> Result<(), Refusal>
    requires room { S.failed sink.old + 1 < 2 ^ 64 }
    requires runs { IsSome (run (stmt_of stmt.now) (standing frame.old store.old)) }
    ensures ran { OnOk result (Ran (run (stmt_of stmt.now) (standing frame.old store.old))
        (standing frame.old store.old) (standing frame.new store.new) (S.told sink.old)
        (S.told sink.new)) }
    ensures beginning { AddsBeginning (S.told sink.old) (S.told sink.new)
        (text_of (run (stmt_of stmt.now) (standing frame.old store.old))) }
    ensures sound { OnOk result (S.failed sink.new ≡ S.failed sink.old) }
    ensures refusal { IfErr result (Refuses (S.failed sink.old) (S.failed sink.new)) }
    ensures shape { lengths_of store.new ≡ lengths_of store.old }
{
    match running::statement(stmt, frame, store, sink) {
        Ok(()) => Ok(()),
        Err(stop) => Err(refusal(stop)),
    }
}

/// Runs the items of a block that have a run, in their order, as a kernel's body (C11 6.8.2).
///
/// # Errors
///
/// As for [`statement`].
pub fn block<S: Sink>(
    items: &[Item],
    frame: &mut Frame,
    store: &mut Store,
    sink: &mut S,
) -> Result<(), Refusal>
    requires room { S.failed sink.old + 1 < 2 ^ 64 }
    requires runs { IsSome (run_items (items_of items.now) (standing frame.old store.old)) }
    ensures ran { OnOk result (Ran (run_items (items_of items.now) (standing frame.old store.old))
        (standing frame.old store.old) (standing frame.new store.new) (S.told sink.old)
        (S.told sink.new)) }
    ensures beginning { AddsBeginning (S.told sink.old) (S.told sink.new)
        (text_of (run_items (items_of items.now) (standing frame.old store.old))) }
    ensures sound { OnOk result (S.failed sink.new ≡ S.failed sink.old) }
    ensures refusal { IfErr result (Refuses (S.failed sink.old) (S.failed sink.new)) }
    ensures shape { lengths_of store.new ≡ lengths_of store.old }
{
    match running::block(items, frame, store, sink) {
        Ok(()) => Ok(()),
        Err(stop) => Err(refusal(stop)),
    }
}

/// Runs one item of a block that has a run: a local's declaration or a statement; a directive line does nothing
/// (C11 6.8.2).
///
/// # Errors
///
/// As for [`statement`].
pub fn run_item<S: Sink>(
    item: &Item,
    frame: &mut Frame,
    store: &mut Store,
    sink: &mut S,
) -> Result<(), Refusal>
    requires room { S.failed sink.old + 1 < 2 ^ 64 }
    requires runs { IsSome (run_items (with_item item.now no_items)
        (standing frame.old store.old)) }
    ensures ran { OnOk result (Ran
        (run_items (with_item item.now no_items) (standing frame.old store.old))
        (standing frame.old store.old) (standing frame.new store.new) (S.told sink.old)
        (S.told sink.new)) }
    ensures beginning { AddsBeginning (S.told sink.old) (S.told sink.new)
        (text_of (run_items (with_item item.now no_items) (standing frame.old store.old))) }
    ensures sound { OnOk result (S.failed sink.new ≡ S.failed sink.old) }
    ensures refusal { IfErr result (Refuses (S.failed sink.old) (S.failed sink.new)) }
    ensures shape { lengths_of store.new ≡ lengths_of store.old }
{
    match running::run_item(item, frame, store, sink) {
        Ok(()) => Ok(()),
        Err(stop) => Err(refusal(stop)),
    }
}
