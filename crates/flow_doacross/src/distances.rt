//! How far the sinks of a nest lie before the iteration that names them.

ghost use Rattle.std.specs.Prelude.{◌≡◌, ◌++◌, ℤ, List, neg_ℤ, map, option_map, IfOk, OnOk};
ghost use Rattle.std.specs.Global.{Vec as Vector};
ghost use Rattle.semantics.specs.Loops.Order.{Distance};
ghost use Rattle.ktree.specs.DirectiveView.{offset_of};
ghost use Rattle.flow_doacross.specs.Bodies.{distance_of};
ghost use Rattle.flow_doacross.specs.Listed.{near};
ghost use Rattle.flow_doacross.specs.Views.{elements_of, item_sink, sinks_on, distance_kept, near_number, near_distance, with_near};

use crate::cutting::item_sink;
use ktree::{Item, Offset, SinkElement, Written};
use pragma::Directives;
use std::alloc::{AllocError, Global};

/// How far before, by an offset.
fn before_by(offset: Offset) -> i128
    ensures { result ≡ neg_ℤ (offset_of offset) }
{
    match offset {
        Offset::Forward(iterations) => -i128::from(iterations),
        Offset::Back(iterations) => i128::from(iterations),
    }
}

/// The same as a number of 64 bits, where it is one.
fn near_number(offset: Offset) -> Option<i64>
    ensures { result ≡ near_number (neg_ℤ (offset_of offset)) }
{
    match i64::try_from(before_by(offset)) {
        Ok(number) => Some(number),
        Err(_) => None,
    }
}

/// How far before a sink lies, where each of the numbers is one of 64 bits.
fn near_distance(
    alloc: Global,
    elements: &[SinkElement<Written>],
) -> Result<Option<Vec<i64>>, AllocError>
    ensures { IfOk result (λ found. option_map distance_kept found
        ≡ near_distance (distance_of (elements_of elements.now))) }
{
    let mut distance = Vec::new(alloc);
    for element in elements {
        let Some(number) = near_number(element.offset) else {
            return Ok(None);
        };
        distance.push(number)?;
    }
    Ok(Some(distance))
}

/// Adds that of an item, where it is a sink.
fn add_distance(
    alloc: Global,
    directives: &Directives,
    item: &Item,
    distances: &mut Vec<Vec<i64>>,
) -> Result<(), AllocError>
    ensures { OnOk result ((rest : List Distance) → map distance_kept distances.new.items ++ rest
        ≡ map distance_kept distances.old.items ++ with_near (item_sink directives.now item.now)
        rest) }
{
    let Some(elements) = item_sink(directives, item) else {
        return Ok(());
    };
    if let Some(distance) = near_distance(alloc, elements)? {
        distances.push(distance)?;
    }
    Ok(())
}

/// Those of the sinks among items.
pub(crate) fn distances_among(
    alloc: Global,
    directives: &Directives,
    items: &[Item],
) -> Result<Vec<Vec<i64>>, AllocError>
    ensures { IfOk result (λ distances. map distance_kept distances.items
        ≡ near (map distance_of (sinks_on directives.now items.now))) }
{
    let mut distances = Vec::new(alloc);
    for item in items {
        add_distance(alloc, directives, item, &mut distances)?;
    }
    Ok(distances)
}
