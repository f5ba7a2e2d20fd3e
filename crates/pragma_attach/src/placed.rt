//! Where constructs stand.

ghost use Rattle.std.specs.Prelude.{◌≡◌, ◌&&◌, true, false, is_none, is_some, Bool, Some, None, IfOk, IfErr, MatchOption};
ghost use Rattle.semantics.specs.Tree.{Items, mark};
ghost use Rattle.semantics.specs.Directives.Placed.{is_for, holds_items};
ghost use Rattle.ktree.specs.DirectiveView.{name_of, directive_of};
ghost use Rattle.ktree.specs.View.{stmt_of, with_item, items_of, kernel_of};
ghost use Rattle.pragma_attach.specs.Standing.{directive_on, form_on, construct_of, may_be_loop, are_loops, holds_loops, fits, is_team, stands, all_stand, is_standing};
ghost use Rattle.pragma_attach.specs.Opened.{opened_by};

use crate::fault::{Fault, Flaw};
use ktree::{Directive, Item, Kernel, Place, Refusal, Stmt, Written};
use pragma::Directives;

/// What a directive opens (OpenMP 5.2, 10.1, 11.5.1 and 17).
#[derive(Clone, Copy)]
pub(crate) enum Construct {
    ParallelLoop,
    Team,
    Loop,
}

/// A directive line that opens a construct, by the place of its `#`.
#[derive(Clone, Copy)]
struct Opened {
    construct: Construct,
    place: Place,
}

/// Where a statement stands: outside of each parallel loop, and as the block of a `parallel`.
#[derive(Clone, Copy)]
struct Surroundings {
    may: bool,
    in_team: bool,
}

/// What is wrong with a line that is refused.
fn line_fault(refusal: &Refusal, place: Place) -> Fault {
    match refusal {
        Refusal::Limit(_) => Fault {
            place,
            flaw: Flaw::Limit,
        },
        _ => Fault {
            place,
            flaw: Flaw::Directive,
        },
    }
}

/// The directive of a line, or what is wrong with it.
pub(crate) fn directive_on<'d>(
    directives: &'d Directives,
    place: Place,
) -> Result<&'d Directive<Written>, Fault>
    ensures ok { IfOk result (λ d. directive_on directives.now place.line
        ≡ Some (directive_of name_of d.now)) }
    ensures err { IfErr result (λ fault. directive_on directives.now place.line ≡ None) }
{
    match directives.directive(place) {
        Ok(directive) => Ok(directive),
        Err(refusal) => Err(line_fault(&refusal, place)),
    }
}

/// What a directive opens.
fn construct_of(directive: &Directive<Written>) -> Option<Construct>
    ensures { result ≡ construct_of (Some (directive_of name_of directive.now)) }
{
    match directive {
        Directive::ParallelFor(_) => Some(Construct::ParallelLoop),
        Directive::Parallel(_) => Some(Construct::Team),
        Directive::For(_) => Some(Construct::Loop),
        _ => None,
    }
}

/// What a line opens, or what is wrong with it.
fn opened_by(directives: &Directives, place: Place) -> Result<Option<Opened>, Fault>
    ensures ok { IfOk result (λ opened. (is_some (directive_on directives.now place.line) ≡ true)
        × (opened_by opened ≡ construct_of (directive_on directives.now place.line))) }
    ensures err { IfErr result
        (λ fault. is_some (directive_on directives.now place.line) ≡ false) }
{
    match directive_on(directives, place) {
        Err(fault) => Err(fault),
        Ok(directive) => match construct_of(directive) {
            None => Ok(None),
            Some(construct) => Ok(Some(Opened { construct, place })),
        },
    }
}

/// Whether a line may be a `for` directive: it is one whatever its numbers, or is refused for itself.
fn may_be_loop(directives: &Directives, place: Place) -> bool
    ensures { result ≡ may_be_loop (form_on directives.now place.line) }
{
    match directives.form(place) {
        None | Some(Directive::For(_)) => true,
        Some(_) => false,
    }
}

/// Whether a statement is a loop, without braces round it.
fn is_for(statement: &Stmt) -> bool
    ensures { result ≡ is_for (stmt_of statement.now) }
{
    match statement {
        Stmt::For(_, _) => true,
        _ => false,
    }
}

/// Whether the line of a `for` directive stands behind an item, if a `parallel` may have that item here; `behind`: one stands before it.
fn loop_behind(directives: &Directives, behind: bool, item: &Item) -> Option<bool>
    ensures { MatchOption result ((rest : Items) → are_loops directives.now behind
        (with_item item.now rest) ≡ false)
        (λ next. (rest : Items) → are_loops directives.now behind (with_item item.now rest)
        ≡ are_loops directives.now next rest) }
{
    match item {
        Item::Directive(place) => {
            if !behind && may_be_loop(directives, *place) {
                Some(true)
            } else {
                None
            }
        }
        Item::Local(_) => None,
        Item::Statement(statement) => {
            if behind && is_for(statement) {
                Some(false)
            } else {
                None
            }
        }
    }
}

/// Whether items are those of a `parallel`.
fn are_loops(directives: &Directives, items: &[Item]) -> bool
    ensures { result ≡ are_loops directives.now false (items_of items.now) }
{
    let mut behind = false;
    for item in items {
        match loop_behind(directives, behind, item) {
            None => return false,
            Some(next) => behind = next,
        }
    }
    !behind
}

/// Whether items are those of a `parallel`, and not none.
fn holds_loops_among(directives: &Directives, items: &[Item]) -> bool
    ensures { result ≡ (holds_items (items_of items.now)
        && are_loops directives.now false (items_of items.now)) }
{
    match items {
        [] => false,
        [_, ..] => are_loops(directives, items),
    }
}

/// Whether a statement is the block of a `parallel` (OpenMP 5.2, 10.1).
fn holds_loops(directives: &Directives, statement: &Stmt) -> bool
    ensures { result ≡ holds_loops directives.now (stmt_of statement.now) }
{
    match statement {
        Stmt::Block(items) => holds_loops_among(directives, items),
        _ => false,
    }
}

/// Whether the statement behind a construct's line is its own.
fn fits(
    directives: &Directives,
    around: Surroundings,
    construct: Construct,
    statement: &Stmt,
) -> bool
    ensures { result ≡ fits directives.now around.may around.in_team (Some construct)
        (stmt_of statement.now) }
{
    match construct {
        Construct::ParallelLoop => around.may && is_for(statement),
        Construct::Team => around.may && holds_loops(directives, statement),
        Construct::Loop => around.in_team && is_for(statement),
    }
}

/// What is wrong with the construct before a statement.
fn misfit(
    directives: &Directives,
    around: Surroundings,
    before: Option<Opened>,
    statement: &Stmt,
) -> Option<Fault>
    ensures { is_none result ≡ fits directives.now around.may around.in_team (opened_by before)
        (stmt_of statement.now) }
{
    match before {
        None => None,
        Some(opened) => {
            if fits(directives, around, opened.construct, statement) {
                None
            } else {
                Some(Fault {
                    place: opened.place,
                    flaw: Flaw::Directive,
                })
            }
        }
    }
}

/// What is wrong with a construct that no statement follows.
fn unfinished_fault(before: Option<Opened>) -> Option<Fault>
    ensures { is_none result ≡ is_none (opened_by before) }
{
    match before {
        None => None,
        Some(opened) => Some(Fault {
            place: opened.place,
            flaw: Flaw::Directive,
        }),
    }
}

/// Where the statement of a construct stands.
fn inside(around: Surroundings, before: Option<Opened>) -> Surroundings
    ensures may { result.may ≡ (around.may && is_none (opened_by before)) }
    ensures in_team { result.in_team ≡ is_team (opened_by before) }
{
    match before {
        None => Surroundings {
            may: around.may,
            in_team: false,
        },
        Some(opened) => Surroundings {
            may: false,
            in_team: matches!(opened.construct, Construct::Team),
        },
    }
}

/// Whether a loop stands first.
fn begins_with_loop(items: &[Item]) -> bool {
    match items.first() {
        Some(Item::Statement(statement)) => is_for(statement),
        _ => false,
    }
}

/// Whether a line with a number, which is that of a loop, may stand before these items.
fn may_stand(directives: &Directives, around: Surroundings, place: Place, behind: &[Item]) -> bool {
    let may = match directives.form(place) {
        Some(Directive::For(_)) => around.in_team,
        _ => around.may,
    };
    may && begins_with_loop(behind)
}

/// What is told of a line with a number above its limit: where it may not stand whatever its numbers, that it is misplaced.
fn lower_of(
    directives: &Directives,
    fault: Fault,
    around: Surroundings,
    item: &Item,
    behind: &[Item],
) -> Fault {
    match (fault.flaw, item) {
        (Flaw::Limit, Item::Directive(place)) if !may_stand(directives, around, *place, behind) => {
            Fault {
                place: *place,
                flaw: Flaw::Directive,
            }
        }
        _ => fault,
    }
}

/// What a line opens that stands behind a line, or what is wrong.
fn line_behind(
    directives: &Directives,
    before: Option<Opened>,
    place: Place,
) -> Result<Option<Opened>, Fault>
    ensures ok { IfOk result (λ next. (may in_team : Bool) (rest : Items)
        → all_stand directives.now may in_team (opened_by before) (mark place.line rest)
        ≡ all_stand directives.now may in_team (opened_by next) rest) }
    ensures err { IfErr result (λ fault. (may in_team : Bool) (rest : Items)
        → all_stand directives.now may in_team (opened_by before) (mark place.line rest) ≡ false) }
{
    match unfinished_fault(before) {
        Some(fault) => Err(fault),
        None => opened_by(directives, place),
    }
}

/// What is wrong with the constructs in a statement.
#[cycle(statement)]
fn statement_fault(directives: &Directives, around: Surroundings, statement: &Stmt) -> Option<Fault>
    ensures { is_none result ≡ stands directives.now around.may around.in_team
        (stmt_of statement.now) }
{
    let inner = Surroundings {
        may: around.may,
        in_team: false,
    };
    match statement {
        Stmt::Assign(_, _) => None,
        Stmt::Update(_, _, _) => None,
        Stmt::If(_, then, other) => {
            let first = statement_fault(directives, inner, then);
            match other {
                None => first,
                Some(other) => first.or(statement_fault(directives, inner, other)),
            }
        }
        Stmt::For(_, body) => statement_fault(directives, inner, body),
        Stmt::Block(items) => items_fault(directives, around, items),
        Stmt::Print(_, _) => None,
    }
}

/// What is wrong with those among a block's items.
#[cycle(statement)]
fn items_fault(directives: &Directives, around: Surroundings, items: &[Item]) -> Option<Fault>
    ensures { is_none result ≡ all_stand directives.now around.may around.in_team None
        (items_of items.now) }
{
    let mut before = None;
    for (i, item) in items.iter().enumerate() {
        match item_behind(directives, around, before, item) {
            Ok(next) => before = next,
            Err(fault) => {
                return Some(lower_of(directives, fault, around, item, &items[i + 1..]));
            }
        }
    }
    unfinished_fault(before)
}

/// What an item opens, or what is wrong with it.
#[cycle(statement)]
fn item_behind(
    directives: &Directives,
    around: Surroundings,
    before: Option<Opened>,
    item: &Item,
) -> Result<Option<Opened>, Fault>
    ensures ok { IfOk result (λ next. (rest : Items)
        → all_stand directives.now around.may around.in_team (opened_by before)
        (with_item item.now rest)
        ≡ all_stand directives.now around.may around.in_team (opened_by next) rest) }
    ensures err { IfErr result (λ fault. (rest : Items)
        → all_stand directives.now around.may around.in_team (opened_by before)
        (with_item item.now rest) ≡ false) }
{
    match item {
        Item::Directive(place) => line_behind(directives, before, *place),
        Item::Local(_) => match unfinished_fault(before) {
            None => Ok(None),
            Some(fault) => Err(fault),
        },
        Item::Statement(statement) => {
            if let Some(fault) = misfit(directives, around, before, statement) {
                return Err(fault);
            }
            match statement_fault(directives, inside(around, before), statement) {
                None => Ok(None),
                Some(fault) => Err(fault),
            }
        }
    }
}

/// What is wrong with the lines and constructs of a kernel, the first of it in the text (OpenMP 5.2, 3.1, 10.1, 11.5 and 17).
pub(crate) fn placing_fault(kernel: &Kernel, directives: &Directives) -> Option<Fault>
    ensures { is_none result ≡ is_standing directives.now (kernel_of kernel.now) }
{
    let around = Surroundings {
        may: true,
        in_team: false,
    };
    items_fault(directives, around, kernel.body.as_slice())
}
