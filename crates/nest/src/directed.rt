//! The nests behind directive lines.

ghost use Rattle.std.specs.Prelude.{◌≡◌, ◌≤◌, ◌^◌, ◌⊎◌, OnOk, IfOk, List, Option, ℕ, is_none};
ghost use Rattle.semantics.specs.Tree.{no_items};
ghost use Rattle.semantics.specs.Source.Text.{line_at};
ghost use Rattle.ktree.specs.View.{stmt_of, items_of, with_item};
ghost use Rattle.ktree.specs.DirectiveView.{name_of, directive_of};
ghost use Rattle.pragma.specs.Clauses.{doacross_loops};
ghost use Rattle.nest_loop.specs.declared.entered.LoopFacts as facts;
ghost use Rattle.nest_loop.specs.Facts.{FactsOf, FactsAmong};
ghost use Rattle.nest.specs.Judged.{DecidesBy};
ghost use Rattle.nest.specs.Perfect.{FirstNestWithin, LineNests, DoacrossIsSmall, most_iterations, Nests, ItemsNest, FirstLineNests, FirstNests};

use crate::perfect::right_nest;
use affine::VarBox;
use affine_expr::Fault;
use ktree::limits::{DOACROSS_ITERATIONS, ITERATIONS};
use ktree::{Directive, Item, Place, Stmt, Written};
use nest_loop::{LoopFacts, go_into};
use pragma::{Directives, doacross_loops, loop_of};
use std::alloc::Global;

/// The facts of loops that a walk has not met so far, and what is told where a loop has none: the fault that stopped the walk
/// that found them.
#[derive(Clone, Copy)]
pub struct Found<'n> {
    pub loops: &'n [LoopFacts],
    pub missing: Fault,
}

/// How many iterations the loops behind a directive may have.
fn most_iterations(directive: &Directive<Written>) -> u64
    ensures is { result ≡ most_iterations (doacross_loops
        (directive_of name_of directive.now)) }
    ensures within { result ≤ 2 ^ 24 }
{
    match doacross_loops(directive) {
        None => ITERATIONS,
        Some(_) => DOACROSS_ITERATIONS,
    }
}

/// Whether a right nest of so many loops with at most so many iterations stands first, behind a directive line at a place.
fn nest_first(
    alloc: Global,
    depth: u64,
    most: u64,
    items: &[Item],
    found: Found<'_>,
    bounds: &VarBox,
    directive: Place,
) -> Result<(), Fault>
    requires { most ≤ 2 ^ 24 }
    ensures { DecidesBy (FactsAmong bounds.now (items_of items.now) found.entry.loops.now) result
        (FirstNestWithin most bounds.now depth (items_of items.now)) }
{
    match items {
        [] => Err(Fault::NotPerfect(directive)),
        [Item::Statement(statement), ..] => {
            right_nest(alloc, depth, most, statement, found, bounds, directive)
        }
        [_, ..] => Err(Fault::NotPerfect(directive)),
    }
}

/// Whether a right nest of as many loops as the directive line at a place associates stands behind it, a small one where the line makes a
/// doacross nest of it.
fn line_nests(
    alloc: Global,
    directives: &Directives,
    bounds: &VarBox,
    found: Found<'_>,
    place: Place,
    rest: &[Item],
) -> Result<(), Fault>
    ensures { DecidesBy (FactsAmong bounds.now (items_of rest.now) found.entry.loops.now) result
        (LineNests directives.now bounds.now place.line (items_of rest.now)
        × DoacrossIsSmall directives.now bounds.now place.line (items_of rest.now)) }
{
    let Ok(directive) = directives.directive(place) else {
        return Err(Fault::NotPerfect(place));
    };
    let Some(said) = loop_of(directive) else {
        return Err(Fault::NotPerfect(place));
    };
    let (depth, most) = (said.associated_loops(), most_iterations(directive));
    nest_first(alloc, depth, most, rest, found, bounds, place)
}

/// The same, where an item is a directive line.
fn item_line_nests(
    alloc: Global,
    directives: &Directives,
    bounds: &VarBox,
    found: Found<'_>,
    item: &Item,
    rest: &[Item],
) -> Result<(), Fault>
    ensures { DecidesBy
        (FactsAmong bounds.now (with_item item.now (items_of rest.now)) found.entry.loops.now)
        result
        (FirstLineNests directives.now bounds.now (with_item item.now no_items)
        (items_of rest.now)) }
{
    match item {
        Item::Directive(place) => line_nests(alloc, directives, bounds, found, *place, rest),
        Item::Local(_) => Ok(()),
        Item::Statement(_) => Ok(()),
    }
}

/// Whether the parallel loops in a statement have right nests, and the facts behind those of its loops. The loops round it are
/// those of the box, and so they are behind it.
#[cycle(directed)]
fn statement<'n>(
    alloc: Global,
    directives: &Directives,
    bounds: &mut VarBox,
    found: Found<'n>,
    walked: &Stmt,
) -> Result<Found<'n>, Fault>
    ensures decides { DecidesBy
        (FactsOf bounds.old (stmt_of walked.now) found.entry.loops.now) result
        (Nests directives.now bounds.old (stmt_of walked.now)) }
    ensures left { IfOk result (λ left. (rest : List facts.LoopFacts)
        → FactsOf bounds.old (stmt_of walked.now) found.entry.loops.now rest
        → left.loops.now ≡ rest) }
    ensures back { OnOk result (bounds.new ≡ bounds.old) }
{
    match walked {
        Stmt::Assign(_, _) => Ok(found),
        Stmt::Update(_, _, _) => Ok(found),
        Stmt::If(_, then, other) => {
            let left = statement(alloc, directives, bounds, found, then)?;
            match other {
                None => Ok(left),
                Some(other) => statement(alloc, directives, bounds, left, other),
            }
        }
        Stmt::For(head, body) => {
            let Some((own, inner)) = found.loops.split_first() else {
                return Err(found.missing);
            };
            go_into(head, own.numbers, bounds)?;
            let inner = Found {
                loops: inner,
                missing: found.missing,
            };
            let left = statement(alloc, directives, bounds, inner, body)?;
            bounds.unbind();
            Ok(left)
        }
        Stmt::Block(items) => block(alloc, directives, bounds, found, items),
        Stmt::Print(_, _) => Ok(found),
    }
}

/// Whether those among a block's items do.
#[cycle(directed)]
pub fn block<'n>(
    alloc: Global,
    directives: &Directives,
    bounds: &mut VarBox,
    found: Found<'n>,
    items: &[Item],
) -> Result<Found<'n>, Fault>
    ensures decides { DecidesBy
        (FactsAmong bounds.old (items_of items.now) found.entry.loops.now) result
        (ItemsNest directives.now bounds.old (items_of items.now)) }
    ensures left { IfOk result (λ left. (rest : List facts.LoopFacts)
        → FactsAmong bounds.old (items_of items.now) found.entry.loops.now rest
        → left.loops.now ≡ rest) }
    ensures back { OnOk result (bounds.new ≡ bounds.old) }
{
    let mut left = found;
    for (i, item) in items.iter().enumerate() {
        item_line_nests(alloc, directives, bounds, left, item, &items[i + 1..])?;
        left = one_item(alloc, directives, bounds, left, item)?;
    }
    Ok(left)
}

/// Whether those in an item do.
#[cycle(directed)]
fn one_item<'n>(
    alloc: Global,
    directives: &Directives,
    bounds: &mut VarBox,
    found: Found<'n>,
    item: &Item,
) -> Result<Found<'n>, Fault>
    ensures decides { DecidesBy
        (FactsAmong bounds.old (with_item item.now no_items) found.entry.loops.now) result
        (FirstNests directives.now bounds.old (with_item item.now no_items)) }
    ensures left { IfOk result (λ left. (rest : List facts.LoopFacts)
        → FactsAmong bounds.old (with_item item.now no_items) found.entry.loops.now rest
        → left.loops.now ≡ rest) }
    ensures back { OnOk result (bounds.new ≡ bounds.old) }
{
    match item {
        Item::Directive(_) => Ok(found),
        Item::Local(_) => Ok(found),
        Item::Statement(walked) => statement(alloc, directives, bounds, found, walked),
    }
}
