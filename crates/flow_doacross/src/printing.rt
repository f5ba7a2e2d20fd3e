//! What a doacross nest prints.

ghost use Rattle.std.specs.Prelude.{◌≡◌, ◌&&◌, is_none};
ghost use Rattle.semantics.specs.Tree.{Items};
ghost use Rattle.ktree.specs.View.{stmt_of, with_item, items_of};
ghost use Rattle.law_waves.specs.Silent.{is_silent, are_silent};

use ktree::{Item, Place, Stmt};

/// The first `printf` in a statement.
#[cycle(printing)]
#[tactic(auto, using(ktree::proofs::Trees::block_items))]
pub(crate) fn print_in(statement: &Stmt) -> Option<Place>
    ensures { is_none result ≡ is_silent (stmt_of statement.now) }
{
    match statement {
        Stmt::Assign(_, _) => None,
        Stmt::Update(_, _, _) => None,
        Stmt::If(_, then, other) => {
            let first = print_in(then);
            match other {
                None => first,
                Some(other) => first.or(print_in(other)),
            }
        }
        Stmt::For(_, body) => print_in(body),
        Stmt::Block(items) => print_among(items),
        Stmt::Print(_, place) => Some(*place),
    }
}

/// The first that an item is or has in it.
#[cycle(printing)]
fn item_print(item: &Item) -> Option<Place>
    ensures { (rest : Items) → are_silent (with_item item.now rest)
        ≡ (is_none result && are_silent rest) }
{
    match item {
        Item::Directive(_) => None,
        Item::Local(_) => None,
        Item::Statement(statement) => print_in(statement),
    }
}

/// The first among items.
#[cycle(printing)]
fn print_among(items: &[Item]) -> Option<Place>
    ensures { is_none result ≡ are_silent (items_of items.now) }
{
    for item in items {
        if let Some(place) = item_print(item) {
            return Some(place);
        }
    }
    None
}
