//! The sinks of a doacross nest.

ghost use Rattle.std.specs.Prelude.{◌≡◌, [], ◌∷◌, neg_ℤ, is_none, string_bytes};
ghost use Rattle.semantics.specs.Meaning.State.{same_indexes};
ghost use Rattle.semantics.specs.Loops.Order.{Distance, is_ahead};
ghost use Rattle.semantics.specs.Tree.{no_items};
ghost use Rattle.ktree.specs.View.{stmt_of, items_of, with_item};
ghost use Rattle.ktree.specs.DirectiveView.{offset_of};
ghost use Rattle.flow_doacross.specs.Bodies.{loop_names, only_names, in_order, distance_of, is_sink_of};
ghost use Rattle.flow_doacross.specs.Views.{elements_of, leads};

use crate::fault::DoacrossFault;
use ktree::{Head, Item, Offset, Place, SinkElement, Stmt, Written};

/// Whether an offset decides that a sink is earlier, or that it is not; 0 leaves that to the offsets of further loops.
fn decided_by(offset: Offset) -> Option<bool>
    ensures { (rest : Distance) → is_ahead (neg_ℤ (offset_of offset) ∷ rest)
        ≡ leads result (is_ahead rest) }
{
    match offset {
        Offset::Forward(0) | Offset::Back(0) => None,
        Offset::Forward(_) => Some(false),
        Offset::Back(_) => Some(true),
    }
}

/// Whether a sink is an earlier iteration than the one that names it (OpenMP 5.2, 15.9.6).
fn is_ahead(elements: &[SinkElement<Written>]) -> bool
    ensures { result ≡ is_ahead (distance_of (elements_of elements.now)) }
{
    for element in elements {
        if let Some(earlier) = decided_by(element.offset) {
            return earlier;
        }
    }
    false
}

/// Whether an element names the variable of a loop.
fn names_loop(element: &SinkElement<Written>, head: &Head) -> bool
    ensures { result
        ≡ same_indexes (string_bytes element.now.variable.name) (string_bytes head.now.name) }
{
    element.variable.name.as_bytes() == head.name.as_bytes()
}

/// The first of some elements for which there is no loop.
fn first_unnamed(elements: &[SinkElement<Written>]) -> Option<Place>
    ensures { is_none result ≡ in_order [] (elements_of elements.now) }
{
    match elements {
        [] => None,
        [first, ..] => Some(first.variable.place),
    }
}

/// The first element that does not name the variable of its loop, where the loops stand one directly in the other.
#[cycle(naming)]
#[tactic(auto, using(ktree::proofs::Trees::block_items))]
fn first_misnamed(elements: &[SinkElement<Written>], statement: &Stmt) -> Option<Place>
    ensures { is_none result
        ≡ in_order (loop_names (stmt_of statement.now)) (elements_of elements.now) }
{
    match statement {
        Stmt::Assign(_, _) => first_unnamed(elements),
        Stmt::Update(_, _, _) => first_unnamed(elements),
        Stmt::If(_, _, None) => first_unnamed(elements),
        Stmt::If(_, _, Some(_)) => first_unnamed(elements),
        Stmt::For(head, body) => match elements {
            [] => None,
            [first, others @ ..] => {
                if names_loop(first, head) {
                    first_misnamed(others, body)
                } else {
                    Some(first.variable.place)
                }
            }
        },
        Stmt::Block(items) => misnamed_among(elements, items),
        Stmt::Print(_, _) => first_unnamed(elements),
    }
}

/// The same where these loops are the only one of some items.
#[cycle(naming)]
fn misnamed_among(elements: &[SinkElement<Written>], items: &[Item]) -> Option<Place>
    ensures { is_none result ≡ in_order (only_names (items_of items.now))
        (elements_of elements.now) }
{
    match items {
        [] => first_unnamed(elements),
        [item] => misnamed_item(elements, item),
        [_, _, ..] => first_unnamed(elements),
    }
}

/// The same of an item that stands alone.
#[cycle(naming)]
fn misnamed_item(elements: &[SinkElement<Written>], item: &Item) -> Option<Place>
    ensures { is_none result
        ≡ in_order (only_names (with_item item.now no_items)) (elements_of elements.now) }
{
    match item {
        Item::Directive(_) => first_unnamed(elements),
        Item::Local(_) => first_unnamed(elements),
        Item::Statement(statement) => first_misnamed(elements, statement),
    }
}

/// What is wrong with the sink at a place, of a nest of so many loops.
pub(crate) fn sink_fault(
    depth: u64,
    nest: &Stmt,
    place: Place,
    elements: &[SinkElement<Written>],
) -> Option<DoacrossFault>
    ensures { is_none result
        ≡ is_sink_of depth (loop_names (stmt_of nest.now)) (elements_of elements.now) }
{
    if elements.len() as u64 != depth || !is_ahead(elements) {
        return Some(DoacrossFault::Sink(place));
    }
    match first_misnamed(elements, nest) {
        None => None,
        Some(name) => Some(DoacrossFault::Name(name)),
    }
}
