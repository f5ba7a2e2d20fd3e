//! The first clause of a kernel's directive lines that is read and not run.

ghost use Rattle.std.specs.Prelude.{◌≡◌, map, option_map};
ghost use Rattle.semantics.specs.Tree.{Items};
ghost use Rattle.ktree.specs.Numbers.{number_of};
ghost use Rattle.ktree.specs.View.{stmt_of, with_item, items_of, kernel_of};
ghost use Rattle.ktree.specs.DirectiveView.{name_of, directive_of};
ghost use Rattle.pragma_clause.specs.Views.{written_clause};
ghost use Rattle.pragma_attach.specs.Standing.{directive_on};
ghost use Rattle.pragma_region.specs.NotKnown.{first_told, clause_number, first_number, directive_number, number_there, unknown_in, unknown_among, number_told};

use ktree::{Clause, Directive, Item, Kernel, Place, Refusal, Stmt, Written};
use pragma::Directives;

/// A clause that is read and not run, and where that is told.
#[derive(Clone, Copy, Debug, PartialEq, Eq)]
pub enum Unknown {
    /// A `lastprivate` clause of the last assignment: the place of its first name (OpenMP 5.2, 5.4.5).
    Conditional(Place),
}

impl From<Unknown> for Refusal {
    ghost use Rattle.ktree.specs.Numbers.{number_of};
    ghost use Rattle.pragma_region.specs.NotKnown.{number_told};

    ghost from_gives = { λ unknown refusal. number_of refusal ≡ number_told unknown };

    fn from(unknown: Unknown) -> Refusal {
        match unknown {
            Unknown::Conditional(place) => Refusal::PrivateVariable(place),
        }
    }
}

/// The place of the first of some names; that of their line where there is none.
fn first_place(names: &[Written], line: Place) -> Place {
    match names {
        [] => line,
        [first, ..] => first.place,
    }
}

/// What is told of a clause, at its first name.
fn clause_unknown(clause: &Clause<Written>, line: Place) -> Option<Unknown>
    ensures { option_map number_told result ≡ clause_number (written_clause clause.now) }
{
    match clause {
        Clause::LastConditional(names) => Some(Unknown::Conditional(first_place(names, line))),
        _ => None,
    }
}

/// What is told of the first of these that does.
fn clauses_unknown(clauses: &[Clause<Written>], line: Place) -> Option<Unknown>
    ensures { option_map number_told result ≡ first_number (map written_clause clauses.now) }
{
    for clause in clauses {
        let found = clause_unknown(clause, line);
        if found.is_some() {
            return found;
        }
    }
    None
}

/// What is told of a directive, whose `#` stands at this place.
fn directive_unknown(directive: &Directive<Written>, line: Place) -> Option<Unknown>
    ensures { option_map number_told result
        ≡ directive_number (directive_of name_of directive.now) }
{
    match directive {
        Directive::ParallelFor(clauses) | Directive::For(clauses) => {
            clauses_unknown(clauses.as_slice(), line)
        }
        _ => None,
    }
}

/// What is told of the line at a place, where it is a directive.
fn line_unknown(directives: &Directives, place: Place) -> Option<Unknown>
    ensures { option_map number_told result
        ≡ number_there (directive_on directives.now place.line) }
{
    let Ok(directive) = directives.directive(place) else {
        return None;
    };
    directive_unknown(directive, place)
}

/// What is told first in a statement.
#[cycle(unknown)]
#[tactic(auto, using(ktree::proofs::Trees::block_items))]
fn statement_unknown(directives: &Directives, statement: &Stmt) -> Option<Unknown>
    ensures { option_map number_told result ≡ unknown_in directives.now (stmt_of statement.now) }
{
    match statement {
        Stmt::Assign(_, _) => None,
        Stmt::Update(_, _, _) => None,
        Stmt::If(_, then, other) => {
            let found = statement_unknown(directives, then);
            match other {
                None => found,
                Some(other) => {
                    if found.is_some() {
                        return found;
                    }
                    statement_unknown(directives, other)
                }
            }
        }
        Stmt::For(_, body) => statement_unknown(directives, body),
        Stmt::Block(items) => items_unknown(directives, items),
        Stmt::Print(_, _) => None,
    }
}

/// What is told first among a block's items.
#[cycle(unknown)]
fn items_unknown(directives: &Directives, items: &[Item]) -> Option<Unknown>
    ensures { option_map number_told result ≡ unknown_among directives.now (items_of items.now) }
{
    for item in items {
        let found = item_unknown(directives, item);
        if found.is_some() {
            return found;
        }
    }
    None
}

/// What is told first in an item.
#[cycle(unknown)]
fn item_unknown(directives: &Directives, item: &Item) -> Option<Unknown>
    ensures { (rest : Items) → unknown_among directives.now (with_item item.now rest)
        ≡ first_told (option_map number_told result) (unknown_among directives.now rest) }
{
    match item {
        Item::Directive(place) => line_unknown(directives, *place),
        Item::Local(_) => None,
        Item::Statement(statement) => statement_unknown(directives, statement),
    }
}

/// What is told of the first clause of a kernel's directive lines that is read and not run, in the order of the text: of `lastprivate` with
/// the modifier `conditional`, where it names a variable (OpenMP 5.2, 5.4.5). Where none is told, no line of the kernel has such a clause.
pub fn first_unknown(kernel: &Kernel, directives: &Directives) -> Option<Unknown>
    ensures { option_map number_told result
        ≡ unknown_among directives.now (kernel_of kernel.now).body }
{
    items_unknown(directives, kernel.body.as_slice())
}
