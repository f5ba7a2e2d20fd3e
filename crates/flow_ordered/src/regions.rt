//! Ordered regions inside a parallel loop.

ghost use Rattle.std.specs.Prelude.{◌≡◌, ◌&&◌, true, false, if◌then◌else◌, is_some, Some, None, IfOk, IfErr};
ghost use Rattle.semantics.specs.Tree.{Items, stmt};
ghost use Rattle.ktree.specs.View.{stmt_of, with_item, items_of};
ghost use Rattle.pragma_region.specs.Regions.{is_ordered_line};
ghost use Rattle.flow_ordered.specs.Ordered.{are_prints, is_printing, region_met, met_in, met_among};

use crate::disorder::Disorder;
use ktree::{Item, Place, Stmt};
use pragma::Directives;
use pragma_region::is_ordered;

/// What was met before an item of a loop's body: the `ordered` line directly before it, and a region further back.
#[derive(Clone, Copy)]
struct Met {
    line: Option<Place>,
    region: bool,
}

/// Whether a statement is a `printf`.
fn is_print(statement: &Stmt) -> bool
    ensures { (rest : Items) → are_prints (stmt (stmt_of statement.now) rest)
        ≡ (result && are_prints rest) }
{
    match statement {
        Stmt::Print(_, _) => true,
        _ => false,
    }
}

/// Whether an item is a `printf`.
fn is_print_item(item: &Item) -> bool
    ensures { (rest : Items) → are_prints (with_item item.now rest)
        ≡ (result && are_prints rest) }
{
    match item {
        Item::Directive(_) => false,
        Item::Local(_) => false,
        Item::Statement(statement) => is_print(statement),
    }
}

/// Whether items are nothing but `printf`.
fn are_prints(items: &[Item]) -> bool
    ensures { result ≡ are_prints (items_of items.now) }
{
    for item in items {
        if !is_print_item(item) {
            return false;
        }
    }
    true
}

/// Whether a statement is a `printf`, or a block of nothing else (OpenMP 5.2, 15.10).
#[tactic(auto, using(ktree::proofs::Trees::block_items))]
fn is_printing(statement: &Stmt) -> bool
    ensures { result ≡ is_printing (stmt_of statement.now) }
{
    match statement {
        Stmt::Print(_, _) => true,
        Stmt::Block(items) => are_prints(items),
        _ => false,
    }
}

/// The region behind an `ordered` line, where one may stand: it is met then.
fn enter_region(may: bool, met: bool, line: Place, statement: &Stmt) -> Result<bool, Disorder>
    ensures ok { IfOk result (λ now. region_met may met (stmt_of statement.now) ≡ Some now) }
    ensures err { IfErr result (λ _. region_met may met (stmt_of statement.now) ≡ None) }
{
    if may && !met && is_printing(statement) {
        Ok(true)
    } else {
        Err(Disorder::Region(line))
    }
}

/// An item that is no statement, or the end of a block, has no `ordered` line before it.
fn expect_none(before: Option<Place>) -> Result<(), Disorder>
    ensures ok { IfOk result (λ _. is_some before ≡ false) }
    ensures err { IfErr result (λ _. is_some before ≡ true) }
{
    match before {
        None => Ok(()),
        Some(line) => Err(Disorder::Region(line)),
    }
}

/// The line that is met, where it is that of a region.
fn region_line(directives: &Directives, place: Place) -> Option<Place>
    ensures { is_some result ≡ is_ordered_line directives.now place.line }
{
    if is_ordered(directives, place) {
        Some(place)
    } else {
        None
    }
}

/// Whether a region is met in a statement or before it, where each `printf` of it stands in one.
#[cycle(meeting)]
pub(crate) fn meet(
    directives: &Directives,
    may: bool,
    met: bool,
    statement: &Stmt,
) -> Result<bool, Disorder>
    ensures ok { IfOk result
        (λ now. met_in directives.now may met (stmt_of statement.now) ≡ Some now) }
    ensures err { IfErr result
        (λ _. met_in directives.now may met (stmt_of statement.now) ≡ None) }
{
    match statement {
        Stmt::Assign(_, _) => Ok(met),
        Stmt::Update(_, _, _) => Ok(met),
        Stmt::If(_, then, other) => {
            let now = meet(directives, may, met, then)?;
            match other {
                None => Ok(now),
                Some(other) => meet(directives, may, now, other),
            }
        }
        Stmt::For(_, body) => meet(directives, false, met, body),
        Stmt::Block(items) => meet_items(directives, may, met, items),
        Stmt::Print(_, place) => Err(Disorder::Printed(*place)),
    }
}

/// The same of a statement behind an `ordered` line, or behind none.
#[cycle(meeting)]
fn meet_behind(
    directives: &Directives,
    may: bool,
    before: Met,
    statement: &Stmt,
) -> Result<bool, Disorder>
    ensures ok { IfOk result (λ now. (if is_some before.line
        then region_met may before.region (stmt_of statement.now)
        else met_in directives.now may before.region (stmt_of statement.now)) ≡ Some now) }
    ensures err { IfErr result (λ _. (if is_some before.line
        then region_met may before.region (stmt_of statement.now)
        else met_in directives.now may before.region (stmt_of statement.now)) ≡ None) }
{
    match before.line {
        None => meet(directives, may, before.region, statement),
        Some(line) => enter_region(may, before.region, line, statement),
    }
}

/// The same of an item.
#[cycle(meeting)]
fn meet_item(directives: &Directives, may: bool, before: Met, item: &Item) -> Result<Met, Disorder>
    ensures ok { IfOk result (λ now. (rest : Items)
        → met_among directives.now may (is_some before.line) before.region
        (with_item item.now rest)
        ≡ met_among directives.now may (is_some now.line) now.region rest) }
    ensures err { IfErr result (λ _. (rest : Items)
        → met_among directives.now may (is_some before.line) before.region
        (with_item item.now rest) ≡ None) }
{
    match item {
        Item::Directive(place) => {
            expect_none(before.line)?;
            Ok(Met {
                line: region_line(directives, *place),
                region: before.region,
            })
        }
        Item::Local(_) => {
            expect_none(before.line)?;
            Ok(Met {
                line: None,
                region: before.region,
            })
        }
        Item::Statement(statement) => {
            let region = meet_behind(directives, may, before, statement)?;
            Ok(Met { line: None, region })
        }
    }
}

/// The same of a block's items.
#[cycle(meeting)]
fn meet_items(
    directives: &Directives,
    may: bool,
    met: bool,
    items: &[Item],
) -> Result<bool, Disorder>
    ensures ok { IfOk result
        (λ now. met_among directives.now may false met (items_of items.now) ≡ Some now) }
    ensures err { IfErr result
        (λ _. met_among directives.now may false met (items_of items.now) ≡ None) }
{
    let mut before = Met {
        line: None,
        region: met,
    };
    for item in items {
        before = meet_item(directives, may, before, item)?;
    }
    expect_none(before.line)?;
    Ok(before.region)
}
