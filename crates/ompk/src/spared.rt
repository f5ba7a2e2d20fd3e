//! Reads of locals that are no fault of their own.

use flow_clauses::Misuse;
use ktree::{Item, Kernel, Place, Refusal, Stmt, VarId};

/// Where the outermost loop stands in a statement that has the loop of a variable in it, or is that loop.
#[cycle(looking)]
fn loop_in(statement: &Stmt, variable: VarId) -> Option<Place> {
    match statement {
        Stmt::Assign(_, _) => None,
        Stmt::Update(_, _, _) => None,
        Stmt::If(_, then, other) => {
            let first = loop_in(then, variable);
            match other {
                None => first,
                Some(other) => first.or(loop_in(other, variable)),
            }
        }
        Stmt::For(head, body) => {
            if head.variable == variable || loop_in(body, variable).is_some() {
                Some(head.place)
            } else {
                None
            }
        }
        Stmt::Block(items) => loop_among(items, variable),
        Stmt::Print(_, _) => None,
    }
}

/// Where it is in an item.
#[cycle(looking)]
fn loop_at(item: &Item, variable: VarId) -> Option<Place> {
    match item {
        Item::Directive(_) => None,
        Item::Local(_) => None,
        Item::Statement(statement) => loop_in(statement, variable),
    }
}

/// Where it is among a block's items.
#[cycle(looking)]
fn loop_among(items: &[Item], variable: VarId) -> Option<Place> {
    for item in items {
        if let Some(place) = loop_at(item, variable) {
            return Some(place);
        }
    }
    None
}

/// The head of the outermost loop round a loop whose variable stands in a private list inside it: the place of its `for`. From there on it is no
/// fault of its own that a local may be read unassigned, since the loop's head assigns its variable (C11 6.8.5.3; OpenMP 5.2, 5.4.3).
pub(crate) fn spared_from(kernel: &Kernel, misuse: Option<Misuse>) -> Option<Place> {
    match misuse {
        Some(Misuse::LoopVariable(_, variable)) => loop_among(kernel.body.as_slice(), variable),
        _ => None,
    }
}

/// Whether it is that a local may be read before it is assigned, from such a head on.
pub(crate) fn is_spared(refusal: &Refusal, spared: Option<Place>) -> bool {
    match (refusal, spared) {
        (Refusal::MayBeUnassigned(place), Some(head)) => {
            place.line > head.line || (place.line == head.line && place.column > head.column)
        }
        _ => false,
    }
}
