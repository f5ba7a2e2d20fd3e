//! A doacross nest by its clauses, its loops and its body.

ghost use Rattle.std.specs.Prelude.{◌≡◌, ◌&&◌, is_none, Some, map, IfOk};
ghost use Rattle.std.specs.List.{list_all};
ghost use Rattle.ktree.specs.View.{stmt_of, items_of};
ghost use Rattle.law_waves.specs.Silent.{is_silent};
ghost use Rattle.pragma_named.specs.Views.{resolved_clause};
ghost use Rattle.flow_doacross.specs.Bodies.{loop_names, is_sink_of, cut_front, are_ordered, is_ordered_body};
ghost use Rattle.flow_doacross.specs.Nests.{is_doacross_nest};
ghost use Rattle.flow_doacross.specs.Views.{item_sink, is_right_sink, sinks_on};

use crate::clauses::suit_doacross;
use crate::cutting::{before_source, cut_front};
use crate::fault::DoacrossFault;
use crate::finding::{associates, sink_at};
use crate::heads::all_count_up;
use crate::printing::print_in;
use crate::sinks::sink_fault;
use flow::nest_body;
use ktree::{Clause, Item, Place, Stmt};
use nest_lines::{InnerLine, line_among};
use pragma::Directives;
use pragma_named::Named;
use std::alloc::{AllocError, Global};

/// What is wrong with an item of the body of a nest of so many loops, where it is a sink.
fn item_fault(
    directives: &Directives,
    depth: u64,
    nest: &Stmt,
    item: &Item,
) -> Option<DoacrossFault>
    ensures { is_none result ≡ is_right_sink depth (loop_names (stmt_of nest.now))
        (item_sink directives.now item.now) }
{
    match item {
        Item::Directive(place) => match sink_at(directives, *place) {
            None => None,
            Some(elements) => sink_fault(depth, nest, *place, elements),
        },
        Item::Local(_) => None,
        Item::Statement(_) => None,
    }
}

/// What is wrong with the first of these that is not right.
fn sinks_fault(
    directives: &Directives,
    depth: u64,
    nest: &Stmt,
    items: &[Item],
) -> Option<DoacrossFault>
    ensures { is_none result ≡ list_all (is_sink_of depth (loop_names (stmt_of nest.now)))
        (sinks_on directives.now items.now) }
{
    for item in items {
        let found = item_fault(directives, depth, nest, item);
        if found.is_some() {
            return found;
        }
    }
    None
}

/// A line that stands where none may.
fn line_fault(place: Option<Place>) -> Option<DoacrossFault>
    ensures { is_none result ≡ is_none place }
{
    match place {
        None => None,
        Some(place) => Some(DoacrossFault::Line(place)),
    }
}

/// What is wrong with the items of the body of a nest of so many loops, behind the directive line at a place.
fn items_fault(
    directives: &Directives,
    line: Place,
    depth: u64,
    nest: &Stmt,
    items: &[Item],
) -> Option<DoacrossFault>
    ensures { is_none result ≡ are_ordered directives.now depth (loop_names (stmt_of nest.now))
        (cut_front directives.now (items_of items.now)) }
{
    let cut = cut_front(directives, items);
    if cut.sinks.is_empty() {
        return Some(DoacrossFault::Nest(line));
    }
    let Some(inner) = before_source(directives, cut.rest) else {
        return Some(DoacrossFault::Nest(line));
    };
    let found = sinks_fault(directives, depth, nest, cut.sinks);
    if found.is_some() {
        return found;
    }
    line_fault(line_among(directives, InnerLine::Doacross, inner))
}

/// What is wrong with its body.
#[tactic(auto, using(ktree::proofs::Trees::block_items))]
fn body_fault(
    directives: &Directives,
    line: Place,
    depth: u64,
    nest: &Stmt,
    body: &Stmt,
) -> Option<DoacrossFault>
    ensures { is_none result ≡ is_ordered_body directives.now depth
        (loop_names (stmt_of nest.now)) (Some (stmt_of body.now)) }
{
    match body {
        Stmt::Block(items) => items_fault(directives, line, depth, nest, items),
        _ => Some(DoacrossFault::Nest(line)),
    }
}

/// A body that prints.
fn print_fault(body: &Stmt) -> Option<DoacrossFault>
    ensures { is_none result ≡ is_silent (stmt_of body.now) }
{
    match print_in(body) {
        None => None,
        Some(place) => Some(DoacrossFault::Printed(place)),
    }
}

/// Whether a fault stands before another in the text.
fn stands_before(one: DoacrossFault, other: DoacrossFault) -> bool {
    let (one, other) = (one.place(), other.place());
    one.line < other.line || (one.line == other.line && one.column < other.column)
}

/// The one of two that comes first in the text, if there is one.
fn first_of(one: Option<DoacrossFault>, other: Option<DoacrossFault>) -> Option<DoacrossFault>
    ensures { is_none result ≡ (is_none one && is_none other) }
{
    match (one, other) {
        (None, other) => other,
        (Some(one), None) => Some(one),
        (Some(one), Some(other)) => Some(if stands_before(other, one) {
            other
        } else {
            one
        }),
    }
}

/// What is wrong with the nest of so many loops behind the directive line at a place, by the clauses that count for it.
pub(crate) fn nest_fault(
    alloc: Global,
    directives: &Directives,
    line: Place,
    depth: u64,
    clauses: &[Clause<Named>],
    statement: &Stmt,
) -> Result<Option<DoacrossFault>, AllocError>
    ensures { IfOk result (λ found. is_none found ≡ is_doacross_nest directives.now line.line depth
        (map resolved_clause clauses.now) (stmt_of statement.now)) }
{
    let Some(body) = nest_body(statement, depth) else {
        return Ok(Some(DoacrossFault::Nest(line)));
    };
    if !associates(directives, line, depth) || !suit_doacross(clauses) {
        return Ok(Some(DoacrossFault::Nest(line)));
    }
    if !all_count_up(alloc, depth, statement)? {
        return Ok(Some(DoacrossFault::Nest(line)));
    }
    let printed = print_fault(body);
    Ok(first_of(
        printed,
        body_fault(directives, line, depth, statement, body),
    ))
}
