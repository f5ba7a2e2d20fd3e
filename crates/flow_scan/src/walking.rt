//! The scans of a kernel, each in its loop.

ghost use Rattle.std.specs.Prelude.{◌≡◌, ◌&&◌, None, is_none, map, IfOk, OnOk};
ghost use Rattle.semantics.specs.Tree.{Items};
ghost use Rattle.ktree.specs.View.{stmt_of, with_item, items_of, kernel_of};
ghost use Rattle.pragma_named.specs.Known.{kept, lines_known};
ghost use Rattle.pragma_region.specs.Listed.{line_of};
ghost use Rattle.nest_lines.specs.Lines.{next_line};
ghost use Rattle.flow_scan.specs.Scans.{scans_behind, scans_in, scans_among, scans_rightly, parts_behind, parts_in, parts_among, scans_of};
ghost use Rattle.flow_scan.specs.Views.{scan_part, AddsScans, AddsOfItem};

use crate::clauses::is_scan_loop;
use crate::fault::ScanFault;
use crate::listing::{ScanLoop, add_loop};
use crate::phases::loop_fault;
use ktree::{Item, Kernel, Place, Stmt};
use nest_lines::line_behind;
use pragma::Directives;
use pragma_named::{LineClauses, clauses_known};
use pragma_region::is_scan;
use std::alloc::{AllocError, Global};

/// The scans of a kernel.
#[derive(Drop)]
pub struct Scans {
    /// Their loops, in the order of the text.
    pub loops: Vec<ScanLoop>,
    /// The first place where one is misused.
    pub misuse: Option<ScanFault>,
}

/// The first fault of the scans in a statement, whose loops are added.
#[cycle(walking)]
#[tactic(auto, using(ktree::proofs::Trees::block_items))]
fn judge_in(
    alloc: Global,
    kernel: &Kernel,
    directives: &Directives,
    lines: &LineClauses,
    statement: &Stmt,
    loops: &mut Vec<ScanLoop>,
) -> Result<Option<ScanFault>, AllocError>
    ensures fault { IfOk result (λ found. is_none found ≡ scans_in directives.now
        (kernel_of kernel.now) (lines_known (kept lines.now)) (stmt_of statement.now)) }
    ensures added { OnOk result (AddsScans (parts_in directives.now (lines_known (kept lines.now))
        (stmt_of statement.now)) loops.old.items loops.new.items) }
{
    match statement {
        Stmt::Assign(_, _) => Ok(None),
        Stmt::Update(_, _, _) => Ok(None),
        Stmt::If(_, then, other) => {
            let first = judge_in(alloc, kernel, directives, lines, then, loops)?;
            match other {
                None => Ok(first),
                Some(other) => {
                    let second = judge_in(alloc, kernel, directives, lines, other, loops)?;
                    Ok(first.or(second))
                }
            }
        }
        Stmt::For(_, body) => judge_in(alloc, kernel, directives, lines, body, loops),
        Stmt::Block(items) => judge_among(alloc, kernel, directives, lines, items, loops),
        Stmt::Print(_, _) => Ok(None),
    }
}

/// That of a statement behind this line, or behind none.
#[cycle(walking)]
fn judge_behind(
    alloc: Global,
    kernel: &Kernel,
    directives: &Directives,
    lines: &LineClauses,
    before: Option<Place>,
    statement: &Stmt,
    loops: &mut Vec<ScanLoop>,
) -> Result<Option<ScanFault>, AllocError>
    ensures fault { IfOk result (λ found. is_none found ≡ scans_behind directives.now
        (kernel_of kernel.now) (lines_known (kept lines.now)) (line_of before)
        (stmt_of statement.now) (scans_in directives.now (kernel_of kernel.now)
        (lines_known (kept lines.now)) (stmt_of statement.now))) }
    ensures added { OnOk result (AddsScans (parts_behind directives.now
        (lines_known (kept lines.now)) (line_of before) (stmt_of statement.now)
        (parts_in directives.now (lines_known (kept lines.now)) (stmt_of statement.now)))
        loops.old.items loops.new.items) }
{
    let Some(line) = before else {
        return judge_in(alloc, kernel, directives, lines, statement, loops);
    };
    if is_scan_loop(directives, lines, line) {
        add_loop(directives, line, statement, loops)?;
        let clauses = clauses_known(lines, line.line);
        return loop_fault(alloc, kernel, directives, clauses, line, statement);
    }
    judge_in(alloc, kernel, directives, lines, statement, loops)
}

/// That of an item behind this line, or behind none.
#[cycle(walking)]
fn judge_item(
    alloc: Global,
    kernel: &Kernel,
    directives: &Directives,
    lines: &LineClauses,
    before: Option<Place>,
    item: &Item,
    loops: &mut Vec<ScanLoop>,
) -> Result<Option<ScanFault>, AllocError>
    ensures fault { IfOk result (λ found. (rest : Items) → scans_among directives.now
        (kernel_of kernel.now) (lines_known (kept lines.now)) (line_of before)
        (with_item item.now rest)
        ≡ (is_none found && scans_among directives.now (kernel_of kernel.now)
        (lines_known (kept lines.now)) (next_line directives.now (line_of before) item.now) rest)) }
    ensures added { OnOk result (AddsOfItem directives.now (lines_known (kept lines.now)) before
        item.now (with_item item.now) loops.old.items loops.new.items) }
{
    match item {
        Item::Directive(place) => {
            if is_scan(directives, *place) {
                Ok(Some(ScanFault::Scan(*place)))
            } else {
                Ok(None)
            }
        }
        Item::Local(_) => Ok(None),
        Item::Statement(statement) => {
            judge_behind(alloc, kernel, directives, lines, before, statement, loops)
        }
    }
}

/// That of those among a block's items.
#[cycle(walking)]
fn judge_among(
    alloc: Global,
    kernel: &Kernel,
    directives: &Directives,
    lines: &LineClauses,
    items: &[Item],
    loops: &mut Vec<ScanLoop>,
) -> Result<Option<ScanFault>, AllocError>
    ensures fault { IfOk result (λ found. is_none found ≡ scans_among directives.now
        (kernel_of kernel.now) (lines_known (kept lines.now)) None (items_of items.now)) }
    ensures added { OnOk result (AddsScans (parts_among directives.now
        (lines_known (kept lines.now)) None (items_of items.now)) loops.old.items loops.new.items) }
{
    let mut fault = None;
    let mut before = None;
    for item in items {
        let found = judge_item(alloc, kernel, directives, lines, before, item, loops)?;
        fault = fault.or(found);
        before = line_behind(directives, before, item);
    }
    Ok(fault)
}

/// The scans of a kernel, with all of its directive lines, and the first place where one is misused: a `scan` line that does not stand as
/// the only one among the items of the body of a loop with an `inscan` reduction, such a loop without one, or with a clause that does not
/// go with it, or phases that share more than the variable of the scan (OpenMP 5.2, 5.6). `lines` has the clauses that count for each
/// line, those of the `parallel` round it too. A loop without a `scan` line is not listed.
///
/// # Errors
///
/// Where there is no memory.
pub fn scans_of(
    alloc: Global,
    kernel: &Kernel,
    directives: &Directives,
    lines: &LineClauses,
) -> Result<Scans, AllocError>
    ensures misuse { IfOk result (λ scans. is_none scans.misuse ≡ scans_rightly directives.now
        (lines_known (kept lines.now)) (kernel_of kernel.now)) }
    ensures loops { IfOk result (λ scans. map scan_part scans.loops.items
        ≡ scans_of directives.now (lines_known (kept lines.now)) (kernel_of kernel.now)) }
{
    let items = kernel.body.as_slice();
    let mut loops = Vec::new(alloc);
    let misuse = judge_among(alloc, kernel, directives, lines, items, &mut loops)?;
    Ok(Scans { loops, misuse })
}
