//! Nests that are not perfect with all of their directive lines.

ghost use Rattle.std.specs.Prelude.{◌≡◌, ◌&&◌, ◌-◌, ℕ, None, is_none, is_some, option_map};
ghost use Rattle.semantics.specs.Tree.{Items};
ghost use Rattle.semantics.specs.Loops.Nest.{nest_of};
ghost use Rattle.ktree.specs.Numbers.{number_of};
ghost use Rattle.ktree.specs.View.{stmt_of, with_item, items_of, kernel_of};
ghost use Rattle.pragma.specs.Views.{said_of};
ghost use Rattle.pragma_named.specs.Lines.{asked, each_construct, each_among, line_in};
ghost use Rattle.pragma_region.specs.Listed.{line_of};
ghost use Rattle.nest_lines.specs.Perfect.{said_on, nests_as, is_perfect, has_perfect_nests};

use ktree::{Item, Kernel, Place, Refusal, Stmt};
use nest::as_loop;
use pragma::{Directives, ParallelFor, loop_of};

/// A nest in which something else stands beside the next loop, or that has fewer loops than its directive associates: the place of its
/// first `for` (OpenMP 5.2, 4.4.1).
#[derive(Clone, Copy, Debug, PartialEq, Eq)]
pub struct ImperfectNest(pub Place);

impl From<ImperfectNest> for Refusal {
    ghost use Rattle.ktree.specs.Numbers.{number_of};

    ghost from_gives = { λ _ refusal. number_of refusal ≡ 12 };

    fn from(nest: ImperfectNest) -> Refusal {
        Refusal::NestNotPerfect(nest.0)
    }
}

/// Whether a statement is so many loops, one directly in the other.
fn is_nest(depth: u64, statement: &Stmt) -> bool
    ensures { result ≡ is_some (nest_of depth (stmt_of statement.now)) }
{
    if depth == 0 {
        return true;
    }
    match as_loop(statement) {
        None => false,
        Some(level) => is_nest(depth - 1, level.body),
    }
}

/// What the line at a place says, where it is that of a loop.
fn said_at(directives: &Directives, place: Place) -> Option<ParallelFor>
    ensures { option_map said_of result ≡ said_on directives.now place.line }
{
    let Ok(directive) = directives.directive(place) else {
        return None;
    };
    loop_of(directive)
}

/// Whether a statement is a nest of as many loops as a directive associates, where there is one.
fn nests_as(said: Option<ParallelFor>, statement: &Stmt) -> bool
    ensures { result ≡ nests_as (option_map said_of said) (stmt_of statement.now) }
{
    match said {
        None => true,
        Some(said) => is_nest(said.associated_loops(), statement),
    }
}

/// A nest at a statement, told at its first `for`, or else at its line.
fn told_at(statement: &Stmt, line: Place) -> ImperfectNest {
    match as_loop(statement) {
        Some(level) => ImperfectNest(level.head.place),
        None => ImperfectNest(line),
    }
}

/// The nest behind this line, or behind none, where it is not perfect.
fn imperfect_behind(
    directives: &Directives,
    before: Option<Place>,
    statement: &Stmt,
) -> Option<ImperfectNest>
    ensures { is_none result
        ≡ asked (is_perfect directives.now) (line_of before) (stmt_of statement.now) }
{
    let Some(line) = before else {
        return None;
    };
    if nests_as(said_at(directives, line), statement) {
        return None;
    }
    Some(told_at(statement, line))
}

/// The line that an item is, where it is a directive line.
fn own_line(item: &Item) -> Option<Place>
    ensures { line_of result ≡ line_in item.now }
{
    match item {
        Item::Directive(place) => Some(*place),
        _ => None,
    }
}

/// The first such nest in a statement.
#[cycle(walking)]
#[tactic(auto, using(ktree::proofs::Trees::block_items))]
fn imperfect_in(directives: &Directives, statement: &Stmt) -> Option<ImperfectNest>
    ensures { is_none result ≡ each_construct (is_perfect directives.now) (stmt_of statement.now) }
{
    match statement {
        Stmt::Assign(_, _) => None,
        Stmt::Update(_, _, _) => None,
        Stmt::If(_, then, other) => {
            let first = imperfect_in(directives, then);
            match other {
                None => first,
                Some(other) => first.or(imperfect_in(directives, other)),
            }
        }
        Stmt::For(_, body) => imperfect_in(directives, body),
        Stmt::Block(items) => imperfect_among(directives, items),
        Stmt::Print(_, _) => None,
    }
}

/// The first one that an item behind this line, or behind none, is or has in it.
#[cycle(walking)]
fn imperfect_item(
    directives: &Directives,
    before: Option<Place>,
    item: &Item,
) -> Option<ImperfectNest>
    ensures { (rest : Items)
        → each_among (is_perfect directives.now) (line_of before) (with_item item.now rest)
        ≡ (is_none result && each_among (is_perfect directives.now) (line_in item.now) rest) }
{
    match item {
        Item::Directive(_) => None,
        Item::Local(_) => None,
        Item::Statement(statement) => {
            let outer = imperfect_behind(directives, before, statement);
            outer.or(imperfect_in(directives, statement))
        }
    }
}

/// The first one among a block's items.
#[cycle(walking)]
fn imperfect_among(directives: &Directives, items: &[Item]) -> Option<ImperfectNest>
    ensures { is_none result ≡ each_among (is_perfect directives.now) None (items_of items.now) }
{
    let mut before = None;
    for item in items {
        let found = imperfect_item(directives, before, item);
        if found.is_some() {
            return found;
        }
        before = own_line(item);
    }
    None
}

/// The first nest of a kernel, with all of its directive lines, that is not perfect: in one of its loops but the innermost stands more
/// than the next loop, be it a line alone, or it has fewer loops than its directive associates (OpenMP 5.2, 4.4.1 and 4.4.3).
pub fn first_imperfect(kernel: &Kernel, directives: &Directives) -> Option<ImperfectNest>
    ensures { is_none result ≡ has_perfect_nests directives.now (kernel_of kernel.now) }
{
    imperfect_among(directives, kernel.body.as_slice())
}
