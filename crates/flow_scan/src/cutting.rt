//! A loop's body, cut at its `scan` line.

ghost use Rattle.std.specs.Prelude.{◌≡◌, ◌||◌, ◌<◌, ◌+◌, length, take, drop, option_map};
ghost use Rattle.semantics.specs.Tree.{Items};
ghost use Rattle.ktree.specs.View.{stmt_of, with_item, items_of};
ghost use Rattle.flow_scan.specs.Parts.{behind_item, cut_here, cut, block_parts, body_parts, has_statement};
ghost use Rattle.flow_scan.specs.Views.{line_said, parts_cut};

use crate::clauses::{ScanLine, scan_line};
use ktree::{Item, Stmt};
use pragma::Directives;

/// A loop's body on both sides of its first `scan` line.
#[derive(Clone, Copy)]
pub(crate) struct Parts<'d, 'k> {
    pub said: ScanLine<'d>,
    pub front: &'k [Item],
    pub back: &'k [Item],
}

/// What an item says, where it is a `scan` line.
fn scan_item<'d>(directives: &'d Directives<'_>, item: &Item) -> Option<ScanLine<'d>>
    ensures { (rest : Items) → cut directives.now (with_item item.now rest)
        ≡ cut_here (option_map line_said result) rest
        (option_map (behind_item (with_item item.now)) (cut directives.now rest)) }
{
    match item {
        Item::Directive(place) => scan_line(directives, *place),
        Item::Local(_) => None,
        Item::Statement(_) => None,
    }
}

/// The items in front of one, and those behind it.
fn sides(items: &[Item], index: usize) -> (&[Item], &[Item])
    requires { index < length items.now }
    ensures front { result.0.now ≡ take index items.now }
    ensures back { result.1.now ≡ drop (index + 1) items.now }
{
    (&items[..index], &items[index + 1..])
}

/// Items, cut at the first `scan` line among them.
fn cut<'d, 'k>(directives: &'d Directives<'_>, items: &'k [Item]) -> Option<Parts<'d, 'k>>
    ensures { option_map parts_cut result ≡ cut directives.now (items_of items.now) }
{
    for (index, item) in items.iter().enumerate() {
        if let Some(said) = scan_item(directives, item) {
            let (front, back) = sides(items, index);
            return Some(Parts { said, front, back });
        }
    }
    None
}

/// A block, cut so.
#[tactic(auto, using(ktree::proofs::Trees::block_items))]
fn block_parts<'d, 'k>(directives: &'d Directives<'_>, statement: &'k Stmt) -> Option<Parts<'d, 'k>>
    ensures { option_map parts_cut result ≡ block_parts directives.now (stmt_of statement.now) }
{
    match statement {
        Stmt::Block(items) => cut(directives, items),
        _ => None,
    }
}

/// The body of a loop, cut so.
pub(crate) fn body_parts<'d, 'k>(
    directives: &'d Directives<'_>,
    statement: &'k Stmt,
) -> Option<Parts<'d, 'k>>
    ensures { option_map parts_cut result ≡ body_parts directives.now (stmt_of statement.now) }
{
    match statement {
        Stmt::For(_, body) => block_parts(directives, body),
        _ => None,
    }
}

/// Whether an item is a statement.
fn is_statement(item: &Item) -> bool
    ensures { (rest : Items) → has_statement (with_item item.now rest)
        ≡ (result || has_statement rest) }
{
    match item {
        Item::Directive(_) => false,
        Item::Local(_) => false,
        Item::Statement(_) => true,
    }
}

/// Whether a statement is among items.
pub(crate) fn has_statement(items: &[Item]) -> bool
    ensures { result ≡ has_statement (items_of items.now) }
{
    for item in items {
        if is_statement(item) {
            return true;
        }
    }
    false
}
