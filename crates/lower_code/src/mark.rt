//! How many registers a block wants.

ghost use Rattle.std.specs.Prelude.{◌≤◌, ◌^◌};
ghost use Rattle.semantics.specs.Tree.{no_items};
ghost use Rattle.semantics.specs.Meaning.Agrees.{declared_in, declared_among};
ghost use Rattle.ktree.specs.View.{stmt_of, items_of, with_item};
ghost use Rattle.lower_code.specs.Meaning.{AreBelow};

use ktree::{Item, Stmt};

/// A number above those of all locals that a statement declares, at most 2^32 as these have 32 bits.
#[cycle(mark)]
fn mark_in(stmt: &Stmt) -> u64
    ensures below { AreBelow result (declared_in (stmt_of stmt.now)) }
    ensures few { result ≤ 2 ^ 32 }
{
    match stmt {
        Stmt::Assign(_target, _source) => 0,
        Stmt::Update(_target, _op, _expr) => 0,
        Stmt::If(_cond, a, other) => {
            let first = mark_in(a);
            match other {
                None => first,
                Some(b) => {
                    let second = mark_in(b);
                    first.max(second)
                }
            }
        }
        Stmt::For(head, body) => {
            let inner = mark_in(body);
            inner.max(head.variable.0 as u64 + 1)
        }
        Stmt::Block(items) => mark_among(items),
        Stmt::Print(_parts, _place) => 0,
    }
}

/// A number above those of all locals that a block's items declare, at most 2^32 as these have 32 bits.
#[cycle(mark)]
pub fn mark_among(items: &[Item]) -> u64
    ensures below { AreBelow result (declared_among (items_of items.now)) }
    ensures few { result ≤ 2 ^ 32 }
{
    let mut mark = 0u64;
    for item in items {
        let next = mark_at(item);
        mark = mark.max(next);
    }
    mark
}

/// The same of one item.
#[cycle(mark)]
fn mark_at(item: &Item) -> u64
    ensures below { AreBelow result (declared_among (with_item item.now no_items)) }
    ensures few { result ≤ 2 ^ 32 }
{
    match item {
        Item::Directive(_place) => 0,
        Item::Local(local) => local.variable.0 as u64 + 1,
        Item::Statement(stmt) => mark_in(stmt),
    }
}
