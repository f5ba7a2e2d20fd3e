//! The names in statements.

ghost use Rattle.std.specs.Prelude.{◌≡◌, ◌&&◌, is_none};
ghost use Rattle.std.specs.List.{list_all};
ghost use Rattle.semantics.specs.Tree.{Items};
ghost use Rattle.semantics.specs.Directives.Naming.{named_in};
ghost use Rattle.semantics.specs.Meaning.Agrees.{names_source, names_cond, names_step};
ghost use Rattle.ktree.specs.View.{stmt_of, with_item, items_of, source_of, cond_of, increment_of};
ghost use Rattle.pragma_mention.specs.Sets.{holds};
ghost use Rattle.pragma_mention.specs.Mentions.{mentions_only, mention_only};

use crate::expressions::{cond, expr, parts, source, start, step, target};
use ktree::{Head, Item, Place, Stmt};
use std::collections::HashSet;

/// Where a loop's head first names a variable that is not in a set.
fn head(known: &HashSet<u32>, first: &Head) -> Option<Place>
    ensures { is_none result ≡ (names_source (holds known.now) (source_of first.now.start)
        && names_cond (holds known.now) (cond_of first.now.test)
        && names_step (holds known.now) (increment_of first.now.step)) }
{
    let before = source(known, &first.start).or(cond(known, &first.test));
    before.or(step(known, first.place, &first.step))
}

/// Where a statement does.
#[cycle(statement)]
fn statement_unknown(known: &HashSet<u32>, statement: &Stmt) -> Option<Place>
    ensures { is_none result ≡ mentions_only (holds known.now) (stmt_of statement.now) }
{
    match statement {
        Stmt::Assign(assigned, value) => target(known, assigned).or(source(known, value)),
        Stmt::Update(assigned, _, value) => target(known, assigned).or(expr(known, value)),
        Stmt::If(test, then, other) => {
            let first = cond(known, test).or(statement_unknown(known, then));
            match other {
                None => first,
                Some(other) => first.or(statement_unknown(known, other)),
            }
        }
        Stmt::For(first, body) => head(known, first).or(statement_unknown(known, body)),
        Stmt::Block(items) => items_unknown(known, items),
        Stmt::Print(printed, _) => parts(known, printed),
    }
}

/// Where a block's items do.
#[cycle(statement)]
fn items_unknown(known: &HashSet<u32>, items: &[Item]) -> Option<Place>
    ensures { is_none result ≡ mention_only (holds known.now) (items_of items.now) }
{
    for item in items {
        if let Some(place) = item_unknown(known, item) {
            return Some(place);
        }
    }
    None
}

/// Where an item does.
#[cycle(statement)]
fn item_unknown(known: &HashSet<u32>, item: &Item) -> Option<Place>
    ensures { (rest : Items) → mention_only (holds known.now) (with_item item.now rest)
        ≡ (is_none result && mention_only (holds known.now) rest) }
{
    match item {
        Item::Directive(_) => None,
        Item::Local(local) => start(known, &local.start),
        Item::Statement(inner) => statement_unknown(known, inner),
    }
}

/// Where a statement first names a variable that is not in a set: heads of loops and initialisers count, directive lines do not. What a loop's step changes is told at the word `for`.
#[tactic(auto, using(crate::proofs::MentionsLaw::in_statement))]
pub fn first_unknown(known: &HashSet<u32>, statement: &Stmt) -> Option<Place>
    ensures { is_none result ≡ list_all (holds known.now) (named_in (stmt_of statement.now)) }
{
    statement_unknown(known, statement)
}
