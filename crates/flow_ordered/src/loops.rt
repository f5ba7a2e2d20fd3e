//! The parallel loops of a kernel, each with its ordered region.

ghost use Rattle.std.specs.Prelude.{◌≡◌, is_none, is_some, false, None, map, option_map, IfOk, IfErr};
ghost use Rattle.semantics.specs.Tree.{Items};
ghost use Rattle.ktree.specs.View.{stmt_of, with_item, items_of, kernel_of};
ghost use Rattle.ktree.specs.DirectiveView.{name_of, directive_of};
ghost use Rattle.pragma_clause.specs.Views.{written_clause};
ghost use Rattle.pragma_attach.specs.Standing.{directive_on};
ghost use Rattle.pragma_region.specs.Listed.{line_of};
ghost use Rattle.flow_ordered.specs.Ordered.{met_in, orders, any_orders, loop_clauses, loop_orders, orders_behind, is_ordered_rightly, are_ordered_rightly, prints_in_order};

use crate::disorder::Disorder;
use crate::regions::meet;
use flow::nest_body;
use ktree::{Clause, Directive, Item, Kernel, Place, Stmt, Written};
use pragma::{Directives, said_by};
use pragma_region::is_ordered;

/// Whether a clause is `ordered` without a number (OpenMP 5.2, 4.4.4).
fn orders(clause: &Clause<Written>) -> bool
    ensures { result ≡ orders (written_clause clause.now) }
{
    match clause {
        Clause::Ordered => true,
        _ => false,
    }
}

/// Whether one of a loop's clauses is so.
fn any_orders(clauses: &[Clause<Written>]) -> bool
    ensures { result ≡ any_orders (map written_clause clauses.now) }
{
    for clause in clauses {
        if orders(clause) {
            return true;
        }
    }
    false
}

/// The clauses of a directive, where it is a loop's (OpenMP 5.2, 11.5 and 17).
fn clauses_of(directive: &Directive<Written>) -> Option<&[Clause<Written>]>
    ensures { option_map (λ cs. map written_clause cs.now) result
        ≡ loop_clauses (Some (directive_of name_of directive.now)) }
{
    match directive {
        Directive::ParallelFor(clauses) | Directive::For(clauses) => Some(clauses.as_slice()),
        _ => None,
    }
}

/// The same of the directive at a place, if the line there is one.
fn clauses_at<'d>(directives: &'d Directives<'_>, place: Place) -> Option<&'d [Clause<Written>]>
    ensures { option_map (λ cs. map written_clause cs.now) result
        ≡ loop_clauses (directive_on directives.now place.line) }
{
    let Ok(directive) = directives.directive(place) else {
        return None;
    };
    clauses_of(directive)
}

/// What is wrong in a body in which a region may stand or not.
fn body_disorder(directives: &Directives, may: bool, body: &Stmt) -> Option<Disorder>
    ensures { is_none result ≡ is_some (met_in directives.now may false (stmt_of body.now)) }
{
    match meet(directives, may, false, body) {
        Ok(_region) => None,
        Err(disorder) => Some(disorder),
    }
}

/// What is wrong with the region of a loop behind the directive line at a place.
fn loop_disorder(
    directives: &Directives,
    clauses: &[Clause<Written>],
    line: Place,
    statement: &Stmt,
) -> Option<Disorder>
    ensures { is_none result
        ≡ loop_orders directives.now (map written_clause clauses.now) (stmt_of statement.now) }
{
    let Some(said) = said_by(clauses) else {
        return Some(Disorder::Region(line));
    };
    let Some(body) = nest_body(statement, said.associated_loops()) else {
        return Some(Disorder::Region(line));
    };
    body_disorder(directives, any_orders(clauses), body)
}

/// What is wrong with the regions in a statement in which no `ordered` line may stand but in a parallel loop.
#[cycle(looking)]
#[tactic(auto, using(ktree::proofs::Trees::block_items))]
fn statement_disorder(directives: &Directives, statement: &Stmt) -> Option<Disorder>
    ensures { is_none result ≡ is_ordered_rightly directives.now (stmt_of statement.now) }
{
    match statement {
        Stmt::Assign(_, _) => None,
        Stmt::Update(_, _, _) => None,
        Stmt::If(_, then, other) => {
            let first = statement_disorder(directives, then);
            match other {
                None => first,
                Some(other) => first.or(statement_disorder(directives, other)),
            }
        }
        Stmt::For(_, body) => statement_disorder(directives, body),
        Stmt::Block(items) => items_disorder(directives, items),
        Stmt::Print(_, _) => None,
    }
}

/// What is wrong with those in a statement behind this line, or behind none.
#[cycle(looking)]
fn disorder_behind(
    directives: &Directives,
    before: Option<Place>,
    statement: &Stmt,
) -> Option<Disorder>
    ensures { is_none result ≡ orders_behind directives.now (line_of before)
        (stmt_of statement.now) (is_ordered_rightly directives.now (stmt_of statement.now)) }
{
    let Some(line) = before else {
        return statement_disorder(directives, statement);
    };
    match clauses_at(directives, line) {
        Some(clauses) => loop_disorder(directives, clauses, line, statement),
        None => statement_disorder(directives, statement),
    }
}

/// The line that an item is, behind which the next one stands, or what is wrong with the regions in it.
#[cycle(looking)]
fn item_disorder(
    directives: &Directives,
    before: Option<Place>,
    item: &Item,
) -> Result<Option<Place>, Disorder>
    ensures ok { IfOk result (λ next. (rest : Items)
        → are_ordered_rightly directives.now (line_of before) (with_item item.now rest)
        ≡ are_ordered_rightly directives.now (line_of next) rest) }
    ensures err { IfErr result (λ _. (rest : Items)
        → are_ordered_rightly directives.now (line_of before) (with_item item.now rest)
        ≡ false) }
{
    match item {
        Item::Directive(place) => {
            if is_ordered(directives, *place) {
                return Err(Disorder::Region(*place));
            }
            Ok(Some(*place))
        }
        Item::Local(_) => Ok(None),
        Item::Statement(statement) => match disorder_behind(directives, before, statement) {
            None => Ok(None),
            Some(disorder) => Err(disorder),
        },
    }
}

/// What is wrong with those among a block's items.
#[cycle(looking)]
fn items_disorder(directives: &Directives, items: &[Item]) -> Option<Disorder>
    ensures { is_none result ≡ are_ordered_rightly directives.now None (items_of items.now) }
{
    let mut before = None;
    for item in items {
        match item_disorder(directives, before, item) {
            Ok(next) => before = next,
            Err(disorder) => return Some(disorder),
        }
    }
    None
}

/// The first place in a kernel, with all of its directive lines, where the order of iterations is not kept: an `ordered` line stands
/// where none may, or a parallel loop prints outside of its region (OpenMP 5.2, 15.10). A loop with the clause has one region at most,
/// inside no further loop.
pub fn first_disorder(kernel: &Kernel, directives: &Directives) -> Option<Disorder>
    ensures { is_none result ≡ prints_in_order directives.now (kernel_of kernel.now) }
{
    items_disorder(directives, kernel.body.as_slice())
}
