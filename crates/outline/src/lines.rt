//! Which statements hold directive lines.

ghost use Rattle.std.specs.Prelude.{◌≡◌};
ghost use Rattle.semantics.specs.Tree.{no_items};
ghost use Rattle.ktree.specs.View.{stmt_of, items_of, with_item};
ghost use Rattle.pragma.specs.Plain.{has_line, has_line_among};

use ktree::{Item, Stmt};

// Whether a directive line stands in a statement.
#[cycle(line)]
pub(crate) fn has_line(stmt: &Stmt) -> bool
    ensures { result ≡ has_line (stmt_of stmt.now) }
{
    match stmt {
        Stmt::If(_cond, then, other) => {
            let first = has_line(then);
            match other {
                None => first,
                Some(other) => first | has_line(other),
            }
        }
        Stmt::For(_head, body) => has_line(body),
        Stmt::Block(items) => has_line_among(items),
        Stmt::Assign(_, _) | Stmt::Update(_, _, _) | Stmt::Print(_, _) => false,
    }
}

// The same of a block's items.
#[cycle(line)]
fn has_line_among(items: &[Item]) -> bool
    ensures { result ≡ has_line_among (items_of items.now) }
{
    let mut found = false;
    for inner in items {
        let here = item_has_line(inner);
        found |= here;
    }
    found
}

// The same of an item.
#[cycle(line)]
fn item_has_line(item: &Item) -> bool
    ensures { result ≡ has_line_among (with_item item.now no_items) }
{
    match item {
        Item::Directive(_place) => true,
        Item::Local(_local) => false,
        Item::Statement(stmt) => has_line(stmt),
    }
}
