//! Where directive lines stand.

ghost use Rattle.std.specs.Prelude.{◌≡◌, ◌↔◌, ℕ, [], false, is_some, MatchOption};
ghost use Rattle.semantics.specs.Tree.{Items, no_items};
ghost use Rattle.ktree.specs.View.{stmt_of, with_item, items_of, kernel_of};
ghost use Rattle.pragma.specs.Parallel.{FirstHas, LineHas, LoopsHave, ItemsHave};
ghost use Rattle.pragma.specs.Plain.{has_line, has_line_among, IsPlainFor, IsPlainLoop, IsDirected, FirstLineHas, FirstLoopsHave, Judges};

use crate::faults::Fault;
use crate::lines::Directives;
use ktree::{Item, Kernel, Place, Refusal, Stmt};

/// The first directive line in a statement.
#[cycle(line)]
fn line_in(statement: &Stmt) -> Option<Place>
    ensures { is_some result ≡ has_line (stmt_of statement.now) }
{
    match statement {
        Stmt::Assign(_, _) => None,
        Stmt::Update(_, _, _) => None,
        Stmt::If(_, then, other) => {
            let first = line_in(then);
            match other {
                None => first,
                Some(other) => first.or(line_in(other)),
            }
        }
        Stmt::For(_, body) => line_in(body),
        Stmt::Block(items) => line_among(items),
        Stmt::Print(_, _) => None,
    }
}

/// The first among a block's items.
#[cycle(line)]
fn line_among(items: &[Item]) -> Option<Place>
    ensures { is_some result ≡ has_line_among (items_of items.now) }
{
    for item in items {
        if let Some(place) = item_line(item) {
            return Some(place);
        }
    }
    None
}

/// The first that an item is or has in it.
#[cycle(line)]
fn item_line(item: &Item) -> Option<Place>
    ensures { is_some result ≡ has_line_among (with_item item.now no_items) }
{
    match item {
        Item::Directive(place) => Some(*place),
        Item::Local(_) => None,
        Item::Statement(statement) => line_in(statement),
    }
}

/// The body of a `for`.
fn body(statement: &Stmt) -> Option<&Stmt>
    ensures { MatchOption result (IsPlainFor (stmt_of statement.now) → ⊥)
        (λ body. IsPlainFor (stmt_of statement.now) ↔ (has_line (stmt_of body.now) ≡ false)) }
{
    match statement {
        Stmt::For(_, body) => Some(body),
        _ => None,
    }
}

/// The body of a `for` that stands first.
fn first_body(items: &[Item]) -> Option<&Stmt>
    ensures { (n : ℕ) → MatchOption result (FirstHas IsPlainLoop [] n (items_of items.now) → ⊥)
        (λ body. FirstHas IsPlainLoop [] n (items_of items.now)
        ↔ (has_line (stmt_of body.now) ≡ false)) }
{
    match items {
        [] => None,
        [Item::Statement(statement), ..] => body(statement),
        [_, ..] => None,
    }
}

/// What is wrong with a line that is refused.
fn line_fault(refusal: &Refusal, place: Place) -> Fault {
    match refusal {
        Refusal::Limit(_) => Fault::Size(place),
        _ => Fault::Directive(place),
    }
}

/// What is wrong with the directive line at a place, before these items.
fn directive_fault(directives: &Directives, place: Place, rest: &[Item]) -> Option<Fault>
    ensures { Judges result (LineHas directives.now IsPlainLoop [] place.line (items_of rest.now)) }
{
    let Some(body) = first_body(rest) else {
        return Some(Fault::Directive(place));
    };
    if let Err(refusal) = directives.at(place) {
        return Some(line_fault(&refusal, place));
    }
    match line_in(body) {
        None => None,
        Some(inner) => Some(Fault::Directive(inner)),
    }
}

/// What is wrong with an item that is a directive line, before these items.
fn item_line_fault(directives: &Directives, item: &Item, rest: &[Item]) -> Option<Fault>
    ensures { Judges result
        (FirstLineHas directives.now (with_item item.now no_items) (items_of rest.now)) }
{
    match item {
        Item::Directive(place) => directive_fault(directives, *place, rest),
        Item::Local(_) => None,
        Item::Statement(_) => None,
    }
}

/// What is wrong with the directive lines in a statement.
#[cycle(statement)]
fn statement_fault(directives: &Directives, statement: &Stmt) -> Option<Fault>
    ensures { Judges result (LoopsHave directives.now IsPlainLoop [] (stmt_of statement.now)) }
{
    match statement {
        Stmt::Assign(_, _) => None,
        Stmt::Update(_, _, _) => None,
        Stmt::If(_, then, other) => {
            if let Some(fault) = statement_fault(directives, then) {
                return Some(fault);
            }
            match other {
                None => None,
                Some(other) => statement_fault(directives, other),
            }
        }
        Stmt::For(_, body) => statement_fault(directives, body),
        Stmt::Block(items) => items_fault(directives, items),
        Stmt::Print(_, _) => None,
    }
}

/// What is wrong with those among a block's items.
#[cycle(statement)]
fn items_fault(directives: &Directives, items: &[Item]) -> Option<Fault>
    ensures { Judges result (ItemsHave directives.now IsPlainLoop [] (items_of items.now)) }
{
    for (i, item) in items.iter().enumerate() {
        if let Some(fault) = item_line_fault(directives, item, &items[i + 1..]) {
            return Some(fault);
        }
        if let Some(fault) = item_fault(directives, item) {
            return Some(fault);
        }
    }
    None
}

/// What is wrong with those in an item.
#[cycle(statement)]
fn item_fault(directives: &Directives, item: &Item) -> Option<Fault>
    ensures { Judges result (FirstLoopsHave directives.now (with_item item.now no_items)) }
{
    match item {
        Item::Directive(_) => None,
        Item::Local(_) => None,
        Item::Statement(statement) => statement_fault(directives, statement),
    }
}

/// The first fault of a kernel's directive lines, if there is one: each has to be a `parallel for` directly before a `for`,
/// in no parallel loop (OpenMP 5.2, 11.5 and 17).
pub fn first_fault(kernel: &Kernel, directives: &Directives) -> Option<Fault>
    ensures { Judges result (IsDirected directives.now (kernel_of kernel.now)) }
{
    items_fault(directives, kernel.body.as_slice())
}
