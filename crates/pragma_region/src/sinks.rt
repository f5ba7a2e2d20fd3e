//! The sinks of the loops behind directive lines, as they are written.

ghost use Rattle.std.specs.Prelude.{◌≡◌, ◌++◌, Some, map, option_map, IfOk, OnOk};
ghost use Rattle.std.specs.Global.{Vec as Vector};
ghost use Rattle.semantics.specs.Tree.{Items};
ghost use Rattle.semantics.specs.Directives.Clauses.{loops_of, depth_of};
ghost use Rattle.semantics.specs.Directives.Regions.{offsets_of};
ghost use Rattle.ktree.specs.View.{stmt_of, with_item, items_of};
ghost use Rattle.ktree.specs.DirectiveView.{name_of, offset_of, element_of, directive_of};
ghost use Rattle.pragma_clause.specs.Views.{written_clause};
ghost use Rattle.pragma_attach.specs.Standing.{directive_on};
ghost use Rattle.pragma_region.specs.Listed.{sink_kept, body_of, sinks_among, sinks_of};

use ktree::{Clause, Directive, Item, Offset, Place, SinkElement, Stmt, Written};
use nest::as_loop;
use pragma::Directives;
use std::alloc::{AllocError, Global};

/// How many loops a clause associates (OpenMP 5.2, 4.4.3 and 4.4.4).
fn loops_of(clause: &Clause<Written>) -> u64
    ensures { result ≡ loops_of (written_clause clause.now) }
{
    match clause {
        Clause::Collapse(loops) => loops.get(),
        Clause::OrderedLoops(loops) => loops.get(),
        _ => 1,
    }
}

/// How many loops some clauses associate.
fn depth_of(clauses: &[Clause<Written>]) -> u64
    ensures { result ≡ depth_of (map written_clause clauses.now) }
{
    match clauses {
        [] => 1,
        [first, rest @ ..] => loops_of(first).max(depth_of(rest)),
    }
}

/// What the innermost of so many loops runs, one directly in the other.
fn body_of(depth: u64, statement: &Stmt) -> Option<&Stmt>
    ensures { option_map (λ body. stmt_of body.now) result ≡ body_of depth (stmt_of statement.now) }
{
    if depth == 0 {
        return Some(statement);
    }
    let Some(level) = as_loop(statement) else {
        return None;
    };
    body_of(depth - 1, level.body)
}

/// An offset as a whole number.
fn number_of(offset: Offset) -> i128
    ensures { result ≡ offset_of offset }
{
    match offset {
        Offset::Forward(iterations) => i128::from(iterations),
        Offset::Back(iterations) => -i128::from(iterations),
    }
}

/// The offsets of a sink's elements.
fn offsets(alloc: Global, elements: &[SinkElement<Written>]) -> Result<Vec<i128>, AllocError>
    ensures { IfOk result (λ offsets. offsets.items
        ≡ map (λ e. e.1) (map (element_of name_of) elements.now)) }
{
    let mut offsets = Vec::new(alloc);
    for element in elements {
        offsets.push(number_of(element.offset))?;
    }
    Ok(offsets)
}

/// Adds those of a directive, where it is a sink (OpenMP 5.2, 15.9.6).
fn add_sink(
    alloc: Global,
    directive: &Directive<Written>,
    sinks: &mut Vec<Vec<i128>>,
) -> Result<(), AllocError>
    ensures { OnOk result (map sink_kept sinks.new.items ≡ map sink_kept sinks.old.items
        ++ offsets_of (Some (directive_of name_of directive.now))) }
{
    match directive {
        Directive::DoacrossSink(elements) => {
            let sink = offsets(alloc, elements.as_slice())?;
            sinks.push(sink)?;
            Ok(())
        }
        _ => Ok(()),
    }
}

/// Adds those of the line at a place.
fn add_sink_at(
    alloc: Global,
    directives: &Directives,
    place: Place,
    sinks: &mut Vec<Vec<i128>>,
) -> Result<(), AllocError>
    ensures { OnOk result (map sink_kept sinks.new.items ≡ map sink_kept sinks.old.items
        ++ offsets_of (directive_on directives.now place.line)) }
{
    let Ok(directive) = directives.directive(place) else {
        return Ok(());
    };
    add_sink(alloc, directive, sinks)
}

/// Adds those of an item, where it is the line of a sink.
fn add_item(
    alloc: Global,
    directives: &Directives,
    item: &Item,
    sinks: &mut Vec<Vec<i128>>,
) -> Result<(), AllocError>
    ensures { OnOk result ((rest : Items) → map sink_kept sinks.new.items
        ++ sinks_among directives.now rest
        ≡ map sink_kept sinks.old.items ++ sinks_among directives.now (with_item item.now rest)) }
{
    match item {
        Item::Directive(place) => add_sink_at(alloc, directives, *place, sinks),
        Item::Local(_) => Ok(()),
        Item::Statement(_) => Ok(()),
    }
}

/// Those of the sinks among items.
fn sinks_among(
    alloc: Global,
    directives: &Directives,
    items: &[Item],
) -> Result<Vec<Vec<i128>>, AllocError>
    ensures { IfOk result (λ sinks. map sink_kept sinks.items
        ≡ sinks_among directives.now (items_of items.now)) }
{
    let mut sinks = Vec::new(alloc);
    for item in items {
        add_item(alloc, directives, item, &mut sinks)?;
    }
    Ok(sinks)
}

/// Those of a body, where it is a block.
#[tactic(auto, using(ktree::proofs::Trees::block_items))]
fn block_sinks(
    alloc: Global,
    directives: &Directives,
    body: &Stmt,
) -> Result<Vec<Vec<i128>>, AllocError>
    ensures { IfOk result (λ sinks. map sink_kept sinks.items
        ≡ sinks_of directives.now (Some (stmt_of body.now))) }
{
    match body {
        Stmt::Block(items) => sinks_among(alloc, directives, items),
        _ => Ok(Vec::new(alloc)),
    }
}

/// The offsets of the sinks of the loops that a statement is, behind a line with these clauses, in the order of the text.
///
/// # Errors
///
/// Where memory runs out.
pub(crate) fn sinks_of(
    alloc: Global,
    directives: &Directives,
    clauses: &[Clause<Written>],
    statement: &Stmt,
) -> Result<Vec<Vec<i128>>, AllocError>
    ensures { IfOk result (λ sinks. map sink_kept sinks.items ≡ sinks_of directives.now
        (body_of (depth_of (map written_clause clauses.now)) (stmt_of statement.now))) }
{
    match body_of(depth_of(clauses), statement) {
        None => Ok(Vec::new(alloc)),
        Some(body) => block_sinks(alloc, directives, body),
    }
}
