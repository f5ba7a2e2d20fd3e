//! The doacross nests of a kernel.

ghost use Rattle.std.specs.Prelude.{◌≡◌, ◌&&◌, None, is_none, map, IfOk, OnOk};
ghost use Rattle.semantics.specs.Tree.{Items};
ghost use Rattle.ktree.specs.View.{stmt_of, with_item, items_of, kernel_of};
ghost use Rattle.pragma_named.specs.Known.{kept, lines_known};
ghost use Rattle.pragma_region.specs.Listed.{line_of};
ghost use Rattle.nest_lines.specs.Lines.{next_line};
ghost use Rattle.flow_doacross.specs.Nests.{nest_behind, nests_in, nests_among, doacross_rightly};
ghost use Rattle.flow_doacross.specs.Listed.{parts_behind, parts_in, parts_among, doacross_of};
ghost use Rattle.flow_doacross.specs.Views.{nest_part, AddsNests, AddsOfItem};

use crate::clauses::doacross_of as ordered_loops;
use crate::fault::DoacrossFault;
use crate::judging::nest_fault;
use crate::listing::{DoacrossLoop, add_nest};
use ktree::{Item, Kernel, Place, Stmt};
use nest_lines::line_behind;
use pragma::Directives;
use pragma_named::{LineClauses, clauses_known};
use pragma_region::is_doacross;
use std::alloc::{AllocError, Global};

/// The doacross nests of a kernel.
#[derive(Drop)]
pub struct DoacrossNests {
    /// These, in the order of the text.
    pub nests: Vec<DoacrossLoop>,
    /// The first place where one is misused.
    pub misuse: Option<DoacrossFault>,
}

/// The first fault of the nests in a statement, which are added.
#[cycle(walking)]
#[tactic(auto, using(ktree::proofs::Trees::block_items))]
fn judge_in(
    alloc: Global,
    directives: &Directives,
    lines: &LineClauses,
    statement: &Stmt,
    nests: &mut Vec<DoacrossLoop>,
) -> Result<Option<DoacrossFault>, AllocError>
    ensures fault { IfOk result (λ found. is_none found
        ≡ nests_in directives.now (lines_known (kept lines.now)) (stmt_of statement.now)) }
    ensures added { OnOk result (AddsNests (parts_in directives.now (lines_known (kept lines.now))
        (stmt_of statement.now)) nests.old.items nests.new.items) }
{
    match statement {
        Stmt::Assign(_, _) => Ok(None),
        Stmt::Update(_, _, _) => Ok(None),
        Stmt::If(_, then, other) => {
            let first = judge_in(alloc, directives, lines, then, nests)?;
            match other {
                None => Ok(first),
                Some(other) => {
                    let second = judge_in(alloc, directives, lines, other, nests)?;
                    Ok(first.or(second))
                }
            }
        }
        Stmt::For(_, body) => judge_in(alloc, directives, lines, body, nests),
        Stmt::Block(items) => judge_among(alloc, directives, lines, items, nests),
        Stmt::Print(_, _) => Ok(None),
    }
}

/// That of a statement behind this line, or behind none.
#[cycle(walking)]
fn judge_behind(
    alloc: Global,
    directives: &Directives,
    lines: &LineClauses,
    before: Option<Place>,
    statement: &Stmt,
    nests: &mut Vec<DoacrossLoop>,
) -> Result<Option<DoacrossFault>, AllocError>
    ensures fault { IfOk result (λ found. is_none found
        ≡ nest_behind directives.now (lines_known (kept lines.now)) (line_of before)
        (stmt_of statement.now)
        (nests_in directives.now (lines_known (kept lines.now)) (stmt_of statement.now))) }
    ensures added { OnOk result (AddsNests (parts_behind directives.now
        (lines_known (kept lines.now)) (line_of before) (stmt_of statement.now)
        (parts_in directives.now (lines_known (kept lines.now)) (stmt_of statement.now)))
        nests.old.items nests.new.items) }
{
    let Some(line) = before else {
        return judge_in(alloc, directives, lines, statement, nests);
    };
    let clauses = clauses_known(lines, line.line);
    let Some(loops) = ordered_loops(clauses) else {
        return judge_in(alloc, directives, lines, statement, nests);
    };
    add_nest(alloc, directives, line, loops.get(), statement, nests)?;
    nest_fault(alloc, directives, line, loops.get(), clauses, statement)
}

/// That of an item behind this line, or behind none.
#[cycle(walking)]
fn judge_item(
    alloc: Global,
    directives: &Directives,
    lines: &LineClauses,
    before: Option<Place>,
    item: &Item,
    nests: &mut Vec<DoacrossLoop>,
) -> Result<Option<DoacrossFault>, AllocError>
    ensures fault { IfOk result (λ found. (rest : Items)
        → nests_among directives.now (lines_known (kept lines.now)) (line_of before)
        (with_item item.now rest)
        ≡ (is_none found && nests_among directives.now (lines_known (kept lines.now))
        (next_line directives.now (line_of before) item.now) rest)) }
    ensures added { OnOk result (AddsOfItem directives.now (lines_known (kept lines.now)) before
        item.now (with_item item.now) nests.old.items nests.new.items) }
{
    match item {
        Item::Directive(place) => {
            if is_doacross(directives, *place) {
                Ok(Some(DoacrossFault::Line(*place)))
            } else {
                Ok(None)
            }
        }
        Item::Local(_) => Ok(None),
        Item::Statement(statement) => {
            judge_behind(alloc, directives, lines, before, statement, nests)
        }
    }
}

/// That of those among a block's items.
#[cycle(walking)]
fn judge_among(
    alloc: Global,
    directives: &Directives,
    lines: &LineClauses,
    items: &[Item],
    nests: &mut Vec<DoacrossLoop>,
) -> Result<Option<DoacrossFault>, AllocError>
    ensures fault { IfOk result (λ found. is_none found
        ≡ nests_among directives.now (lines_known (kept lines.now)) None (items_of items.now)) }
    ensures added { OnOk result (AddsNests (parts_among directives.now
        (lines_known (kept lines.now)) None (items_of items.now)) nests.old.items nests.new.items) }
{
    let mut fault = None;
    let mut before = None;
    for item in items {
        let found = judge_item(alloc, directives, lines, before, item, nests)?;
        fault = fault.or(found);
        before = line_behind(directives, before, item);
    }
    Ok(fault)
}

/// The doacross nests of a kernel, with all of its directive lines, and the first place where one is misused: a sink that is none of the
/// first items of its body, a source that is not its last one, or a nest that has none of these, a loop that does not rise by 1 between
/// two numbers, a clause that does not go with `ordered(n)`, a sink that names no earlier iteration by the nest's variables in their
/// order, or a `printf` (OpenMP 5.2, 4.4.4, 15.9.6 and 15.10.2). `lines` has the clauses that count for each line, those of the `parallel`
/// round it too.
///
/// # Errors
///
/// Where there is no memory.
pub fn doacross_of(
    alloc: Global,
    kernel: &Kernel,
    directives: &Directives,
    lines: &LineClauses,
) -> Result<DoacrossNests, AllocError>
    ensures misuse { IfOk result (λ found. is_none found.misuse
        ≡ doacross_rightly directives.now (lines_known (kept lines.now)) (kernel_of kernel.now)) }
    ensures nests { IfOk result (λ found. map nest_part found.nests.items
        ≡ doacross_of directives.now (lines_known (kept lines.now)) (kernel_of kernel.now)) }
{
    let mut nests = Vec::new(alloc);
    let misuse = judge_among(alloc, directives, lines, kernel.body.as_slice(), &mut nests)?;
    Ok(DoacrossNests { nests, misuse })
}
