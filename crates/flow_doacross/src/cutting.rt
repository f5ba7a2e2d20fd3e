//! The body of a doacross nest: its sinks, and its source.

ghost use Rattle.std.specs.Prelude.{◌≡◌, ◌≤◌, not, false, MatchOption, length, take, drop, option_map};
ghost use Rattle.ktree.specs.View.{items_of};
ghost use Rattle.nest_lines.specs.Inner.{have_line};
ghost use Rattle.nest_lines.specs.declared.inner.InnerLine.TheVariants.{Doacross};
ghost use Rattle.flow_doacross.specs.Bodies.{cut_front, ends_in_source};
ghost use Rattle.flow_doacross.specs.Views.{elements_of, item_sink, item_source, sinks_on, front_cut};

use crate::finding::{is_source, sink_at};
use ktree::{Item, SinkElement, Written};
use pragma::Directives;

/// A body's items: the sinks that stand first, and those behind them.
#[derive(Clone, Copy)]
pub(crate) struct Front<'k> {
    pub sinks: &'k [Item],
    pub rest: &'k [Item],
}

/// The elements of an item, where it is the line of a sink.
pub(crate) fn item_sink<'d>(
    directives: &'d Directives<'_>,
    item: &Item,
) -> Option<&'d [SinkElement<Written>]>
    ensures { option_map (λ es. elements_of es.now) result ≡ item_sink directives.now item.now }
{
    match item {
        Item::Directive(place) => sink_at(directives, *place),
        Item::Local(_) => None,
        Item::Statement(_) => None,
    }
}

/// How many sinks stand first among items.
fn front_length(directives: &Directives, items: &[Item]) -> usize
    ensures within { result ≤ length items.now }
    ensures cut { cut_front directives.now (items_of items.now) ≡ (record {
      sinks = sinks_on directives.now (take result items.now);
      rest = items_of (drop result items.now);
    }) }
    ensures each { length (sinks_on directives.now (take result items.now)) ≡ result }
{
    for (index, item) in items.iter().enumerate() {
        if item_sink(directives, item).is_none() {
            return index;
        }
    }
    items.len()
}

/// Items, cut behind the sinks that stand first.
pub(crate) fn cut_front<'k>(directives: &Directives, items: &'k [Item]) -> Front<'k>
    ensures cut { front_cut directives.now result ≡ cut_front directives.now (items_of items.now) }
    ensures each { length (sinks_on directives.now result.sinks.now) ≡ length result.sinks.now }
{
    let (sinks, rest) = items.split_at(front_length(directives, items));
    Front { sinks, rest }
}

/// Whether an item is the line of a source.
fn is_source_item(directives: &Directives, item: &Item) -> bool
    ensures { result ≡ item_source directives.now item.now }
{
    match item {
        Item::Directive(place) => is_source(directives, *place),
        Item::Local(_) => false,
        Item::Statement(_) => false,
    }
}

/// The items before a source that is the last of some.
pub(crate) fn before_source<'k>(directives: &Directives, items: &'k [Item]) -> Option<&'k [Item]>
    ensures { MatchOption result (ends_in_source directives.now (items_of items.now) ≡ false)
        (λ inner. ends_in_source directives.now (items_of items.now)
        ≡ not (have_line directives.now Doacross (items_of inner.now))) }
{
    let Some((last, inner)) = items.split_last() else {
        return None;
    };
    if is_source_item(directives, last) {
        Some(inner)
    } else {
        None
    }
}
