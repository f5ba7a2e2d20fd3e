//! The names in the clauses of constructs inside a statement, against a set of variables.

ghost use Rattle.std.specs.Prelude.{◌≡◌, ◌&&◌, None, map, flat_map, is_none};
ghost use Rattle.semantics.specs.Tree.{Stmt as Tree, Items};
ghost use Rattle.semantics.specs.Directives.Naming.{variables_in};
ghost use Rattle.ktree.specs.View.{stmt_of, with_item, items_of};
ghost use Rattle.pragma_mention.specs.Sets.{holds};
ghost use Rattle.pragma_named.specs.Views.{variable_named, resolved_clause};
ghost use Rattle.pragma_named.specs.Known.{kept};
ghost use Rattle.pragma_named.specs.Known.{lines_known};
ghost use Rattle.pragma_named.specs.Lines.{asked, each_construct, each_among, line_in};
ghost use Rattle.pragma_attach.specs.Rightly.{is_wanted, are_wanted, line_wanted};

use crate::listed::names_in;
use ktree::{Clause, Item, Place, Stmt};
use pragma_named::{LineClauses, Named, clauses_known, line_of};
use std::collections::HashSet;

/// Whether a variable is in a set, or is not, as it is wanted.
fn is_wanted(set: &HashSet<u32>, wanted: bool, named: &Named) -> bool
    ensures { result ≡ is_wanted wanted (holds set.now (variable_named named.now)) }
{
    set.contains(&named.variable.0) == wanted
}

/// Where the first variable is named that is not in a set as it is wanted.
fn name_fault(set: &HashSet<u32>, wanted: bool, names: &[Named]) -> Option<Place>
    ensures { is_none result ≡ are_wanted wanted (holds set.now) (map variable_named names.now) }
{
    for named in names {
        if !is_wanted(set, wanted, named) {
            return Some(named.place);
        }
    }
    None
}

/// Where clauses name one.
fn clause_fault(set: &HashSet<u32>, wanted: bool, clauses: &[Clause<Named>]) -> Option<Place>
    ensures { is_none result ≡ are_wanted wanted (holds set.now)
        (flat_map variables_in (map resolved_clause clauses.now)) }
{
    for clause in clauses {
        if let Some(place) = name_fault(set, wanted, names_in(clause)) {
            return Some(place);
        }
    }
    None
}

/// Where the line before a statement does.
fn line_fault(
    table: &LineClauses,
    set: &HashSet<u32>,
    wanted: bool,
    before: Option<u32>,
) -> Option<Place>
    ensures { (s : Tree) → is_none result
        ≡ asked (line_wanted wanted (holds set.now) (lines_known (kept table.now))) before s }
{
    match before {
        None => None,
        Some(line) => clause_fault(set, wanted, clauses_known(table, line)),
    }
}

/// Where the clauses of the constructs inside a statement first name a variable that is not in a set, or is in it, as it is wanted.
#[cycle(wanted)]
pub(crate) fn inner_fault(
    table: &LineClauses,
    set: &HashSet<u32>,
    wanted: bool,
    statement: &Stmt,
) -> Option<Place>
    ensures { is_none result
        ≡ each_construct (line_wanted wanted (holds set.now) (lines_known (kept table.now)))
        (stmt_of statement.now) }
{
    match statement {
        Stmt::Assign(_, _) => None,
        Stmt::Update(_, _, _) => None,
        Stmt::If(_, then, other) => {
            let first = inner_fault(table, set, wanted, then);
            match other {
                None => first,
                Some(other) => first.or(inner_fault(table, set, wanted, other)),
            }
        }
        Stmt::For(_, body) => inner_fault(table, set, wanted, body),
        Stmt::Block(items) => items_fault(table, set, wanted, items),
        Stmt::Print(_, _) => None,
    }
}

/// Where those in a block do.
#[cycle(wanted)]
fn items_fault(
    table: &LineClauses,
    set: &HashSet<u32>,
    wanted: bool,
    items: &[Item],
) -> Option<Place>
    ensures { is_none result
        ≡ each_among (line_wanted wanted (holds set.now) (lines_known (kept table.now))) None
        (items_of items.now) }
{
    let mut before = None;
    for item in items {
        if let Some(place) = item_fault(table, set, wanted, before, item) {
            return Some(place);
        }
        before = line_of(item);
    }
    None
}

/// Where the line before an item does, or those inside the item.
#[cycle(wanted)]
fn item_fault(
    table: &LineClauses,
    set: &HashSet<u32>,
    wanted: bool,
    before: Option<u32>,
    item: &Item,
) -> Option<Place>
    ensures { (rest : Items)
        → each_among (line_wanted wanted (holds set.now) (lines_known (kept table.now))) before
        (with_item item.now rest)
        ≡ (is_none result
        && each_among (line_wanted wanted (holds set.now) (lines_known (kept table.now)))
        (line_in item.now) rest) }
{
    match item {
        Item::Directive(_) => None,
        Item::Local(_) => None,
        Item::Statement(statement) => {
            let own = line_fault(table, set, wanted, before);
            own.or(inner_fault(table, set, wanted, statement))
        }
    }
}
