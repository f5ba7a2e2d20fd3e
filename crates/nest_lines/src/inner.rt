//! The first line of a kind.

ghost use Rattle.std.specs.Prelude.{◌≡◌, ◌||◌, is_some};
ghost use Rattle.semantics.specs.Tree.{Items};
ghost use Rattle.ktree.specs.View.{stmt_of, with_item, items_of};
ghost use Rattle.nest_lines.specs.Inner.{is_line, has_line, have_line};

use ktree::{Item, Place, Stmt};
use pragma::Directives;
use pragma_region::{is_doacross, is_scan};

/// A kind of directive lines that stand in the body of a parallel loop.
#[derive(Clone, Copy, Debug, PartialEq, Eq)]
pub enum InnerLine {
    /// A `scan` line (OpenMP 5.2, 5.6).
    Scan,
    /// A sink or a source of a doacross nest (OpenMP 5.2, 15.9.6 and 15.10.2).
    Doacross,
}

/// Whether the line at a place is of this kind.
fn is_line(directives: &Directives, kind: InnerLine, place: Place) -> bool
    ensures { result ≡ is_line directives.now kind place.line }
{
    match kind {
        InnerLine::Scan => is_scan(directives, place),
        InnerLine::Doacross => is_doacross(directives, place),
    }
}

/// The first one in a statement.
#[cycle(finding)]
#[tactic(auto, using(ktree::proofs::Trees::block_items))]
fn line_in(directives: &Directives, kind: InnerLine, statement: &Stmt) -> Option<Place>
    ensures { is_some result ≡ has_line directives.now kind (stmt_of statement.now) }
{
    match statement {
        Stmt::Assign(_, _) => None,
        Stmt::Update(_, _, _) => None,
        Stmt::If(_, then, other) => {
            let first = line_in(directives, kind, then);
            match other {
                None => first,
                Some(other) => first.or(line_in(directives, kind, other)),
            }
        }
        Stmt::For(_, body) => line_in(directives, kind, body),
        Stmt::Block(items) => line_among(directives, kind, items),
        Stmt::Print(_, _) => None,
    }
}

/// The first one that an item is or has in it.
#[cycle(finding)]
fn item_line(directives: &Directives, kind: InnerLine, item: &Item) -> Option<Place>
    ensures { (rest : Items) → have_line directives.now kind (with_item item.now rest)
        ≡ (is_some result || have_line directives.now kind rest) }
{
    match item {
        Item::Directive(place) => {
            if is_line(directives, kind, *place) {
                Some(*place)
            } else {
                None
            }
        }
        Item::Local(_) => None,
        Item::Statement(statement) => line_in(directives, kind, statement),
    }
}

/// The place of the first line of a kind among a block's items, or inside of one of them.
#[cycle(finding)]
pub fn line_among(directives: &Directives, kind: InnerLine, items: &[Item]) -> Option<Place>
    ensures { is_some result ≡ have_line directives.now kind (items_of items.now) }
{
    for item in items {
        if let Some(place) = item_line(directives, kind, item) {
            return Some(place);
        }
    }
    None
}
