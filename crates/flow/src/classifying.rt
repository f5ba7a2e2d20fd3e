//! The data of the parallel loops of a kernel.

ghost use Rattle.std.specs.Prelude.{◌≡◌, ◌⊎◌, [], length, IfSome, OnOk, IfOk, IfErr};
ghost use Rattle.semantics.specs.Tree.{no_items};
ghost use Rattle.ktree.specs.View.{stmt_of, with_item, items_of, kernel_of};
ghost use Rattle.pragma.specs.Parallel.{LineHas};
ghost use Rattle.pragma_named.specs.Known.{kept};
ghost use Rattle.flow.specs.Roles.{data_known, KeepsRolesThere, LoopsKeepRoles, ItemsKeepRoles, FirstLineKeepsRoles, FirstLoopsKeepRoles};
ghost use Rattle.flow.specs.Told.{Finds, RefusesFor, TellsOfLine, TellsOfLoops, TellsOfItems, TellsOfFirstLine, TellsOfFirstLoops};
ghost use Rattle.flow.specs.Parallel.{Adds, AreParallelLoops, IsOfLine, LoopsAre, ItemsAre, FirstLineIs, FirstLoopsAre};
ghost use Rattle.flow.specs.declared.fault.DataFault.TheVariants.{OutOfMemory};

use crate::bodies::{first_statement, nest_body};
use crate::environment::ParallelLoop;
use crate::fault::DataFault;
use crate::keeping::nest_fault;
use crate::listing::add_loop;
use ktree::{Item, Kernel, Place, Stmt};
use pragma::Directives;
use pragma_named::LineClauses;
use std::alloc::Global;

/// What is wrong with the parallel loop of the directive line at a place, before these items.
fn loop_fault(
    alloc: Global,
    directives: &Directives,
    lines: &LineClauses,
    files: usize,
    place: Place,
    rest: &[Item],
) -> Option<DataFault>
    ensures judged { Finds result
        (LineHas directives.now (KeepsRolesThere (data_known (kept lines.now) files place.line))
        [] place.line (items_of rest.now)) }
    ensures cause { IfSome result
        (λ f. TellsOfLine f directives.now (data_known (kept lines.now) files) place.line
        (items_of rest.now)) }
{
    let Ok(said) = directives.at(place) else {
        return Some(DataFault::Directive(place));
    };
    let Some(statement) = first_statement(rest) else {
        return Some(DataFault::Directive(place));
    };
    let Some(body) = nest_body(statement, said.associated_loops()) else {
        return Some(DataFault::Directive(place));
    };
    nest_fault(alloc, statement, body, place.line, lines, files)
}

/// Adds the parallel loop of the directive line at a place, before these items, or tells what is wrong with it.
fn classify_loop(
    alloc: Global,
    directives: &Directives,
    lines: &LineClauses,
    files: usize,
    place: Place,
    rest: &[Item],
    loops: &mut Vec<ParallelLoop>,
) -> Result<(), DataFault>
    ensures ok { OnOk result (LineHas directives.now
        (KeepsRolesThere (data_known (kept lines.now) files place.line)) [] place.line
        (items_of rest.now)) }
    ensures added { OnOk result (Adds
        (IsOfLine directives.now (data_known (kept lines.now) files) place.line
        (items_of rest.now)) loops.old.items loops.new.items) }
    ensures err { IfErr result (RefusesFor (LineHas directives.now
        (KeepsRolesThere (data_known (kept lines.now) files place.line)) [] place.line
        (items_of rest.now))
        (λ f. TellsOfLine f directives.now (data_known (kept lines.now) files) place.line
        (items_of rest.now))) }
{
    if let Some(fault) = loop_fault(alloc, directives, lines, files, place, rest) {
        return Err(fault);
    }
    add_loop(alloc, directives, lines, files, place, rest, loops)?;
    Ok(())
}

/// The same, where an item is a directive line.
fn classify_line(
    alloc: Global,
    directives: &Directives,
    lines: &LineClauses,
    files: usize,
    item: &Item,
    rest: &[Item],
    loops: &mut Vec<ParallelLoop>,
) -> Result<(), DataFault>
    ensures ok { OnOk result (FirstLineKeepsRoles directives.now
        (data_known (kept lines.now) files) (with_item item.now no_items) (items_of rest.now)) }
    ensures added { OnOk result (Adds
        (FirstLineIs directives.now (data_known (kept lines.now) files)
        (with_item item.now no_items) (items_of rest.now)) loops.old.items loops.new.items) }
    ensures err { IfErr result (RefusesFor
        (FirstLineKeepsRoles directives.now (data_known (kept lines.now) files)
        (with_item item.now no_items) (items_of rest.now))
        (λ f. TellsOfFirstLine f directives.now (data_known (kept lines.now) files)
        (with_item item.now no_items) (items_of rest.now))) }
{
    match item {
        Item::Directive(place) => {
            classify_loop(alloc, directives, lines, files, *place, rest, loops)
        }
        Item::Local(_) => Ok(()),
        Item::Statement(_) => Ok(()),
    }
}

/// Adds the parallel loops in a statement, or tells what is wrong with the first that is not right.
#[cycle(classifying)]
fn classify_in(
    alloc: Global,
    directives: &Directives,
    lines: &LineClauses,
    files: usize,
    statement: &Stmt,
    loops: &mut Vec<ParallelLoop>,
) -> Result<(), DataFault>
    ensures ok { OnOk result (LoopsKeepRoles directives.now (data_known (kept lines.now) files) []
        (stmt_of statement.now)) }
    ensures added { OnOk result (Adds (LoopsAre directives.now (data_known (kept lines.now) files)
        (stmt_of statement.now)) loops.old.items loops.new.items) }
    ensures err { IfErr result (RefusesFor
        (LoopsKeepRoles directives.now (data_known (kept lines.now) files) []
        (stmt_of statement.now))
        (λ f. TellsOfLoops f directives.now (data_known (kept lines.now) files)
        (stmt_of statement.now))) }
{
    match statement {
        Stmt::Assign(_, _) => Ok(()),
        Stmt::Update(_, _, _) => Ok(()),
        Stmt::If(_, then, other) => match other {
            None => classify_in(alloc, directives, lines, files, then, loops),
            Some(other) => {
                classify_in(alloc, directives, lines, files, then, loops)?;
                classify_in(alloc, directives, lines, files, other, loops)
            }
        },
        Stmt::For(_, body) => classify_in(alloc, directives, lines, files, body, loops),
        Stmt::Block(items) => classify_among(alloc, directives, lines, files, items, loops),
        Stmt::Print(_, _) => Ok(()),
    }
}

/// Those in an item.
#[cycle(classifying)]
fn classify_item(
    alloc: Global,
    directives: &Directives,
    lines: &LineClauses,
    files: usize,
    item: &Item,
    loops: &mut Vec<ParallelLoop>,
) -> Result<(), DataFault>
    ensures ok { OnOk result (FirstLoopsKeepRoles directives.now
        (data_known (kept lines.now) files) (with_item item.now no_items)) }
    ensures added { OnOk result (Adds
        (FirstLoopsAre directives.now (data_known (kept lines.now) files)
        (with_item item.now no_items)) loops.old.items loops.new.items) }
    ensures err { IfErr result (RefusesFor
        (FirstLoopsKeepRoles directives.now (data_known (kept lines.now) files)
        (with_item item.now no_items))
        (λ f. TellsOfFirstLoops f directives.now (data_known (kept lines.now) files)
        (with_item item.now no_items))) }
{
    match item {
        Item::Directive(_) => Ok(()),
        Item::Local(_) => Ok(()),
        Item::Statement(statement) => {
            classify_in(alloc, directives, lines, files, statement, loops)
        }
    }
}

/// Those among a block's items.
#[cycle(classifying)]
fn classify_among(
    alloc: Global,
    directives: &Directives,
    lines: &LineClauses,
    files: usize,
    items: &[Item],
    loops: &mut Vec<ParallelLoop>,
) -> Result<(), DataFault>
    ensures ok { OnOk result (ItemsKeepRoles directives.now (data_known (kept lines.now) files) []
        (items_of items.now)) }
    ensures added { OnOk result (Adds (ItemsAre directives.now (data_known (kept lines.now) files)
        (items_of items.now)) loops.old.items loops.new.items) }
    ensures err { IfErr result (RefusesFor
        (ItemsKeepRoles directives.now (data_known (kept lines.now) files) []
        (items_of items.now))
        (λ f. TellsOfItems f directives.now (data_known (kept lines.now) files)
        (items_of items.now))) }
{
    for (i, item) in items.iter().enumerate() {
        let rest = &items[i + 1..];
        classify_line(alloc, directives, lines, files, item, rest, loops)?;
        classify_item(alloc, directives, lines, files, item, loops)?;
    }
    Ok(())
}

/// The parallel loops of a kernel, in the order of the text. The iterations of each keep to data of their own: its body writes no
/// shared scalar, assigns each private and lastprivate scalar of its line before it reads it, and each lastprivate one on every path; a
/// reduction variable has no second role, and the loop names it in updates by its operator alone (OpenMP 5.2, 5.1.1, 5.4.3, 5.4.5,
/// 5.5.8 and 11.5). `lines` has the clauses of the directive lines.
///
/// # Errors
///
/// The first place in the text where it is not so, by what is wrong there, and `OutOfMemory` where a growth is refused.
pub fn classify(
    alloc: Global,
    kernel: &Kernel,
    directives: &Directives,
    lines: &LineClauses,
) -> Result<Vec<ParallelLoop>, DataFault>
    ensures ok { IfOk result (λ loops. AreParallelLoops directives.now (data_known (kept lines.now)
        (length (kernel_of kernel.now).variables)) (kernel_of kernel.now) loops.items) }
    ensures roles { OnOk result (ItemsKeepRoles directives.now (data_known (kept lines.now)
        (length (kernel_of kernel.now).variables)) [] (kernel_of kernel.now).body) }
    ensures err { IfErr result (λ f. (f ≡ OutOfMemory)
        ⊎ (ItemsKeepRoles directives.now (data_known (kept lines.now)
        (length (kernel_of kernel.now).variables)) [] (kernel_of kernel.now).body → ⊥)) }
    ensures cause { IfErr result (λ f. (f ≡ OutOfMemory)
        ⊎ TellsOfItems f directives.now (data_known (kept lines.now)
        (length (kernel_of kernel.now).variables)) (kernel_of kernel.now).body) }
{
    let files = kernel.variables.len();
    let items = kernel.body.as_slice();
    let mut loops = Vec::new(alloc);
    match classify_among(alloc, directives, lines, files, items, &mut loops) {
        Err(fault) => Err(fault),
        Ok(()) => Ok(loops),
    }
}
