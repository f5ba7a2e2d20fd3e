//! The clauses of `parallel` directives, which count for each loop of their regions.

ghost use Rattle.std.specs.Prelude.{◌≡◌, ◌++◌, None, map, option_map, IfOk, OnOk};
ghost use Rattle.semantics.specs.Tree.{Items};
ghost use Rattle.ktree.specs.View.{stmt_of, with_item, items_of, kernel_of};
ghost use Rattle.pragma_named.specs.Views.{resolved_clause, resolved_clauses};
ghost use Rattle.pragma_named.specs.Known.{kept, lines_known};
ghost use Rattle.pragma_region.specs.Listed.{line_of};
ghost use Rattle.pragma_region.specs.Counted.{lines_within, block_lines, enclosed_behind, enclosed_in, enclosed_among, with_enclosing, counted, counted_in};

use crate::dissolving::is_region;
use ktree::{Clause, Item, Kernel, Place, Stmt};
use pragma::Directives;
use pragma_named::{Clauses, LineClauses, Named, clauses_known};
use std::alloc::{AllocError, Global};

/// A list of names once more.
fn copy_names(alloc: Global, names: &[Named]) -> Result<Vec<Named>, AllocError>
    ensures { IfOk result (λ copy. copy.items ≡ names.now) }
{
    Vec::from_slice(alloc, names)
}

/// A clause once more.
fn copy_of(alloc: Global, clause: &Clause<Named>) -> Result<Clause<Named>, AllocError>
    ensures { IfOk result (λ copy. resolved_clause copy ≡ resolved_clause clause.now) }
{
    match clause {
        Clause::DefaultShared => Ok(Clause::DefaultShared),
        Clause::DefaultNone => Ok(Clause::DefaultNone),
        Clause::Shared(names) => Ok(Clause::Shared(copy_names(alloc, names)?)),
        Clause::Private(names) => Ok(Clause::Private(copy_names(alloc, names)?)),
        Clause::Firstprivate(names) => Ok(Clause::Firstprivate(copy_names(alloc, names)?)),
        Clause::Lastprivate(names) => Ok(Clause::Lastprivate(copy_names(alloc, names)?)),
        Clause::LastConditional(names) => Ok(Clause::LastConditional(copy_names(alloc, names)?)),
        Clause::Reduction(operator, names) => Ok(Clause::Reduction(
            *operator,
            copy_names(alloc, names)?,
        )),
        Clause::Inscan(operator, name) => Ok(Clause::Inscan(*operator, *name)),
        Clause::Schedule(schedule) => Ok(Clause::Schedule(*schedule)),
        Clause::Collapse(loops) => Ok(Clause::Collapse(*loops)),
        Clause::Ordered => Ok(Clause::Ordered),
        Clause::OrderedLoops(loops) => Ok(Clause::OrderedLoops(*loops)),
        Clause::Nowait => Ok(Clause::Nowait),
    }
}

/// Adds clauses once more to others.
fn add_copies(
    alloc: Global,
    list: &[Clause<Named>],
    clauses: &mut Vec<Clause<Named>>,
) -> Result<(), AllocError>
    ensures { OnOk result (map resolved_clause clauses.new.items
        ≡ map resolved_clause clauses.old.items ++ map resolved_clause list.now) }
{
    for clause in list {
        clauses.push(copy_of(alloc, clause)?)?;
    }
    Ok(())
}

/// Some clauses and others behind them.
fn join_clauses(
    alloc: Global,
    first: &[Clause<Named>],
    others: &[Clause<Named>],
) -> Result<Vec<Clause<Named>>, AllocError>
    ensures { IfOk result (λ clauses. resolved_clauses clauses
        ≡ map resolved_clause first.now ++ map resolved_clause others.now) }
{
    let mut clauses = Vec::new(alloc);
    add_copies(alloc, first, &mut clauses)?;
    add_copies(alloc, others, &mut clauses)?;
    Ok(clauses)
}

/// Lets the clauses of a `parallel` line count for a loop's line.
fn count_line(
    alloc: Global,
    lines: &mut LineClauses,
    region: u32,
    line: u32,
) -> Result<(), AllocError>
    ensures { OnOk result (lines_known (kept lines.new)
        ≡ with_enclosing line region (lines_known (kept lines.old))) }
{
    let clauses = join_clauses(
        alloc,
        clauses_known(lines, region),
        clauses_known(lines, line),
    )?;
    lines.insert(line, Clauses { clauses })?;
    Ok(())
}

/// Lets them count for the line that an item of its block is.
fn count_item(
    alloc: Global,
    lines: &mut LineClauses,
    region: u32,
    item: &Item,
) -> Result<(), AllocError>
    ensures { OnOk result ((rest : Items)
        → counted (lines_within region rest) (lines_known (kept lines.new))
        ≡ counted (lines_within region (with_item item.now rest)) (lines_known (kept lines.old))) }
{
    match item {
        Item::Directive(place) => count_line(alloc, lines, region, place.line),
        Item::Local(_) => Ok(()),
        Item::Statement(_) => Ok(()),
    }
}

/// Lets them count for the lines of its block.
fn count_within(
    alloc: Global,
    lines: &mut LineClauses,
    region: u32,
    items: &[Item],
) -> Result<(), AllocError>
    ensures { OnOk result (lines_known (kept lines.new)
        ≡ counted (lines_within region (items_of items.now)) (lines_known (kept lines.old))) }
{
    for item in items {
        count_item(alloc, lines, region, item)?;
    }
    Ok(())
}

/// Lets them count for those of the statement behind it, where that is a block.
#[tactic(auto, using(ktree::proofs::Trees::block_items))]
fn count_block(
    alloc: Global,
    lines: &mut LineClauses,
    region: u32,
    statement: &Stmt,
) -> Result<(), AllocError>
    ensures { OnOk result (lines_known (kept lines.new)
        ≡ counted (block_lines region (stmt_of statement.now)) (lines_known (kept lines.old))) }
{
    match statement {
        Stmt::Block(items) => count_within(alloc, lines, region, items),
        _ => Ok(()),
    }
}

/// Counts the clauses of the regions in a statement.
#[cycle(counting)]
#[tactic(auto, using(ktree::proofs::Trees::block_items, crate::proofs::Counted::counted_both))]
fn count_in(
    alloc: Global,
    directives: &Directives,
    lines: &mut LineClauses,
    statement: &Stmt,
) -> Result<(), AllocError>
    ensures { OnOk result (lines_known (kept lines.new)
        ≡ counted (enclosed_in directives.now (stmt_of statement.now))
        (lines_known (kept lines.old))) }
{
    match statement {
        Stmt::Assign(_, _) => Ok(()),
        Stmt::Update(_, _, _) => Ok(()),
        Stmt::If(_, then, other) => {
            count_in(alloc, directives, lines, then)?;
            match other {
                None => Ok(()),
                Some(other) => count_in(alloc, directives, lines, other),
            }
        }
        Stmt::For(_, body) => count_in(alloc, directives, lines, body),
        Stmt::Block(items) => count_among(alloc, directives, lines, items),
        Stmt::Print(_, _) => Ok(()),
    }
}

/// Counts those of the region that the line before opens with this statement, or of the regions in the statement.
#[cycle(counting)]
fn count_behind(
    alloc: Global,
    directives: &Directives,
    lines: &mut LineClauses,
    before: Option<Place>,
    statement: &Stmt,
) -> Result<(), AllocError>
    ensures { OnOk result (lines_known (kept lines.new)
        ≡ counted (enclosed_behind directives.now (line_of before) (stmt_of statement.now)
        (enclosed_in directives.now (stmt_of statement.now))) (lines_known (kept lines.old))) }
{
    let Some(place) = before else {
        return count_in(alloc, directives, lines, statement);
    };
    if is_region(directives, place) {
        return count_block(alloc, lines, place.line, statement);
    }
    count_in(alloc, directives, lines, statement)
}

/// Counts those of an item behind this line; gives the line behind which the next item stands.
#[cycle(counting)]
#[tactic(auto, using(crate::proofs::Counted::counted_front))]
fn count_next(
    alloc: Global,
    directives: &Directives,
    lines: &mut LineClauses,
    before: Option<Place>,
    item: &Item,
) -> Result<Option<Place>, AllocError>
    ensures { IfOk result (λ next. (rest : Items)
        → counted (enclosed_among directives.now (line_of next) rest) (lines_known (kept lines.new))
        ≡ counted (enclosed_among directives.now (line_of before) (with_item item.now rest))
        (lines_known (kept lines.old))) }
{
    match item {
        Item::Directive(place) => Ok(Some(*place)),
        Item::Local(_) => Ok(None),
        Item::Statement(statement) => {
            count_behind(alloc, directives, lines, before, statement)?;
            Ok(None)
        }
    }
}

/// Counts those among a block's items.
#[cycle(counting)]
fn count_among(
    alloc: Global,
    directives: &Directives,
    lines: &mut LineClauses,
    items: &[Item],
) -> Result<(), AllocError>
    ensures { OnOk result (lines_known (kept lines.new)
        ≡ counted (enclosed_among directives.now None (items_of items.now))
        (lines_known (kept lines.old))) }
{
    let mut before = None;
    for item in items {
        before = count_next(alloc, directives, lines, before, item)?;
    }
    Ok(())
}

/// Lets the clauses of each `parallel` directive count for each loop of its region, in front of the loop's own (OpenMP 5.2, 5.1.1 and
/// 10.1): behind that a loop is judged by its own line alone. `lines` has the clauses of the kernel's directive lines.
///
/// # Errors
///
/// Where memory runs out.
pub fn count_clauses(
    alloc: Global,
    directives: &Directives,
    kernel: &Kernel,
    lines: &mut LineClauses,
) -> Result<(), AllocError>
    ensures { OnOk result (lines_known (kept lines.new)
        ≡ counted_in directives.now (kernel_of kernel.now) (lines_known (kept lines.old))) }
{
    count_among(alloc, directives, lines, kernel.body.as_slice())
}
