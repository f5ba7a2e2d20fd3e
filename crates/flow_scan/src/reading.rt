//! Where one part of a body reads what the other one writes.

ghost use Rattle.std.specs.Prelude.{◌≡◌, ◌&&◌, map, [], ◌∷◌, is_none};
ghost use Rattle.semantics.specs.Tree.{Items};
ghost use Rattle.semantics.specs.Meaning.Agrees.{names_expr, names_exprs, names_cond, names_source, names_start, names_step, names_parts};
ghost use Rattle.ktree.specs.View.{expr_of, exprs_of, cond_of, source_of, start_of, increment_of, part_of, stmt_of, with_item, items_of};
ghost use Rattle.flow_scan.specs.Sharing.{reads_only, read_only};
ghost use Rattle.flow_scan.specs.Views.{is_spared};

use ktree::{Cond, Expr, Head, Increment, Item, Place, PrintPart, Source, Stmt, VarId};
use std::collections::HashSet;

/// Where a variable is read that is among those that are written, and none that may be both.
fn read_at(set: &HashSet<u32>, but: VarId, variable: VarId, place: Place) -> Option<Place>
    ensures { is_none result ≡ is_spared set.now but.0 variable.0 }
{
    if variable == but || !set.contains(&variable.0) {
        None
    } else {
        Some(place)
    }
}

/// Where an expression first reads one.
#[cycle(reading)]
fn in_expression(set: &HashSet<u32>, but: VarId, expression: &Expr) -> Option<Place>
    ensures { is_none result ≡ names_expr (is_spared set.now but.0) (expr_of expression.now) }
{
    match expression {
        Expr::Literal(_, _) => None,
        Expr::Constant(_, _) => None,
        Expr::Object(variable, subscripts, mention) => {
            read_at(set, but, *variable, mention.name).or(in_subscripts(set, but, subscripts))
        }
        Expr::Unary(_, operand) => in_expression(set, but, operand),
        Expr::Binary(_, left, right) => {
            in_expression(set, but, left).or(in_expression(set, but, right))
        }
        Expr::Conditional(test, left, right) => {
            let first = in_condition(set, but, test).or(in_expression(set, but, left));
            first.or(in_expression(set, but, right))
        }
    }
}

/// Where subscripts do.
#[cycle(reading)]
fn in_subscripts(set: &HashSet<u32>, but: VarId, subscripts: &[Expr]) -> Option<Place>
    ensures { is_none result ≡ names_exprs (is_spared set.now but.0) (exprs_of subscripts.now) }
{
    for subscript in subscripts {
        if let Some(place) = in_expression(set, but, subscript) {
            return Some(place);
        }
    }
    None
}

/// Where a condition does.
#[cycle(reading)]
fn in_condition(set: &HashSet<u32>, but: VarId, condition: &Cond) -> Option<Place>
    ensures { is_none result ≡ names_cond (is_spared set.now but.0) (cond_of condition.now) }
{
    match condition {
        Cond::NotZero(expression) => in_expression(set, but, expression),
        Cond::Compare(_, left, right, _) => {
            in_expression(set, but, left).or(in_expression(set, but, right))
        }
        Cond::Not(inner) => in_condition(set, but, inner),
        Cond::LogicalAnd(left, right) => {
            in_condition(set, but, left).or(in_condition(set, but, right))
        }
        Cond::LogicalOr(left, right) => {
            in_condition(set, but, left).or(in_condition(set, but, right))
        }
    }
}

/// Where a right side does.
fn in_source(set: &HashSet<u32>, but: VarId, value: &Source) -> Option<Place>
    ensures { is_none result ≡ names_source (is_spared set.now but.0) (source_of value.now) }
{
    match value {
        Source::Number(expression) => in_expression(set, but, expression),
        Source::Truth(condition) => in_condition(set, but, condition),
    }
}

/// Where an initialiser does.
fn in_start(set: &HashSet<u32>, but: VarId, value: &Option<Source>) -> Option<Place>
    ensures { is_none result ≡ names_start (is_spared set.now but.0) (start_of value.now) }
{
    match value {
        None => None,
        Some(value) => in_source(set, but, value),
    }
}

/// Where a loop's step does; what it changes is told at the loop's place.
fn in_step(set: &HashSet<u32>, but: VarId, place: Place, increment: &Increment) -> Option<Place>
    ensures { is_none result ≡ names_step (is_spared set.now but.0) (increment_of increment.now) }
{
    match increment {
        Increment::Up(variable) => read_at(set, but, *variable, place),
        Increment::Down(variable) => read_at(set, but, *variable, place),
        Increment::Set(variable, value) => {
            read_at(set, but, *variable, place).or(in_source(set, but, value))
        }
        Increment::Change(variable, _, value) => {
            read_at(set, but, *variable, place).or(in_expression(set, but, value))
        }
    }
}

/// Where a loop's head does.
fn in_head(set: &HashSet<u32>, but: VarId, head: &Head) -> Option<Place>
    ensures { is_none result ≡ (names_source (is_spared set.now but.0) (source_of head.now.start)
        && names_cond (is_spared set.now but.0) (cond_of head.now.test)
        && names_step (is_spared set.now but.0) (increment_of head.now.step)) }
{
    let before = in_source(set, but, &head.start).or(in_condition(set, but, &head.test));
    before.or(in_step(set, but, head.place, &head.step))
}

/// Where one part of what printf writes does.
fn in_part(set: &HashSet<u32>, but: VarId, part: &PrintPart) -> Option<Place>
    ensures { is_none result ≡ names_parts (is_spared set.now but.0) (part_of part.now ∷ []) }
{
    match part {
        PrintPart::Characters(_) => None,
        PrintPart::Decimal(expression) => in_expression(set, but, expression),
    }
}

/// Where printf's arguments do.
fn in_parts(set: &HashSet<u32>, but: VarId, parts: &[PrintPart]) -> Option<Place>
    ensures { is_none result ≡ names_parts (is_spared set.now but.0) (map part_of parts.now) }
{
    for part in parts {
        if let Some(place) = in_part(set, but, part) {
            return Some(place);
        }
    }
    None
}

/// Where a statement does.
#[cycle(statement)]
#[tactic(auto, using(ktree::proofs::Trees::block_items))]
fn in_statement(set: &HashSet<u32>, but: VarId, statement: &Stmt) -> Option<Place>
    ensures { is_none result ≡ reads_only (is_spared set.now but.0) (stmt_of statement.now) }
{
    match statement {
        Stmt::Assign(target, value) => {
            in_subscripts(set, but, &target.subscripts).or(in_source(set, but, value))
        }
        Stmt::Update(target, _, value) => {
            let own = read_at(set, but, target.variable, target.mention.name);
            let before = own.or(in_subscripts(set, but, &target.subscripts));
            before.or(in_expression(set, but, value))
        }
        Stmt::If(test, then, other) => {
            let first = in_condition(set, but, test).or(in_statement(set, but, then));
            match other {
                None => first,
                Some(other) => first.or(in_statement(set, but, other)),
            }
        }
        Stmt::For(head, body) => in_head(set, but, head).or(in_statement(set, but, body)),
        Stmt::Block(items) => first_read(set, but, items),
        Stmt::Print(parts, _) => in_parts(set, but, parts),
    }
}

/// Where an item does.
#[cycle(statement)]
fn in_item(set: &HashSet<u32>, but: VarId, item: &Item) -> Option<Place>
    ensures { (rest : Items) → read_only (is_spared set.now but.0) (with_item item.now rest)
        ≡ (is_none result && read_only (is_spared set.now but.0) rest) }
{
    match item {
        Item::Directive(_) => None,
        Item::Local(local) => in_start(set, but, &local.start),
        Item::Statement(statement) => in_statement(set, but, statement),
    }
}

/// Where items first read a variable of a set but for one that they may read.
#[cycle(statement)]
pub(crate) fn first_read(set: &HashSet<u32>, but: VarId, items: &[Item]) -> Option<Place>
    ensures { is_none result ≡ read_only (is_spared set.now but.0) (items_of items.now) }
{
    for item in items {
        if let Some(place) = in_item(set, but, item) {
            return Some(place);
        }
    }
    None
}
