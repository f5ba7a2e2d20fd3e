//! Code from statements.

ghost use Rattle.std.specs.Prelude.{IfOk, ◌≡◌, Some, map, string_bytes};
ghost use Rattle.semantics.specs.Meaning.Runs.{incremented};
ghost use Rattle.semantics.specs.Tree;
ghost use Rattle.semantics.specs.Tree.{no_items};
ghost use Rattle.ktree.specs.View.{binary_of, cond_of, exprs_of, part_of, source_of, start_of, increment_of, stmt_of, items_of, with_item};
ghost use Rattle.ktree.specs.declared.statement.Stmt.TheVariants.{Assign, Update};
ghost use Rattle.lower_machine.specs.Machine.{Running, after};
ghost use Rattle.lower_code.specs.Meaning.{DoesAlways, Assigns, Updates, MeansPart, MeansText, MeansDeclared, MeansStmt, MeansTurns, MeansItems};

use crate::expression::{object, place, source_value, test, value};
use crate::laid::Laid;
use ktree::{BinaryOp, Cond, Expr, Head, Increment, Item, PrintPart, Source, Stmt, Target, VarId};
use lower_machine::{Code, Piece, Register, Term, beside, binary, branch, number, repeat, then};
use std::alloc::{AllocError, Global};

/// An object takes what a term is worth (C11 6.5.16).
fn assign(
    alloc: Global,
    variable: VarId,
    subscripts: &[Expr],
    term: Term,
    layout: &[Laid],
) -> Result<Code, AllocError>
    ensures { IfOk result (Assigns layout.now variable.0 (exprs_of subscripts.now) term) }
{
    if (variable.0 as usize) < layout.len() {
        let at = place(alloc, variable, subscripts, layout)?;
        Ok(Code::Save(at, term))
    } else {
        Ok(Code::Set(Register { at: variable.0 }, term))
    }
}

/// An object takes what an operator makes of it and of a term (C11 6.5.16.2).
fn update(
    alloc: Global,
    variable: VarId,
    subscripts: &[Expr],
    op: BinaryOp,
    term: Term,
    layout: &[Laid],
) -> Result<Code, AllocError>
    ensures { IfOk result
        (Updates layout.now variable.0 (exprs_of subscripts.now) (binary_of op) term) }
{
    let old = object(alloc, variable, subscripts, layout)?;
    let new = binary(alloc, op, old, term)?;
    assign(alloc, variable, subscripts, new, layout)
}

/// A local's declaration (C11 6.7.9, 10 and 11).
fn declare(
    alloc: Global,
    variable: VarId,
    start: &Option<Source>,
    layout: &[Laid],
) -> Result<Code, AllocError>
    ensures { IfOk result (MeansDeclared layout.now variable.0 (start_of start.now)) }
{
    match start {
        None => Ok(Code::Nothing),
        Some(source) => {
            let term = source_value(alloc, source, layout)?;
            Ok(Code::Set(Register { at: variable.0 }, term))
        }
    }
}

/// What a loop's variable takes before its first test (C11 6.8.5.3).
///
/// # Errors
///
/// Where memory runs out.
pub fn entry(alloc: Global, head: &Head, layout: &[Laid]) -> Result<Code, AllocError>
    ensures { IfOk result
        (MeansDeclared layout.now head.now.variable.0 (Some (source_of head.now.start))) }
{
    let term = source_value(alloc, &head.start, layout)?;
    let variable = head.variable.0;
    Ok(Code::Set(Register { at: variable }, term))
}

/// What a loop does behind each turn (C11 6.5.2.4, 6.5.3.1, 6.5.16).
///
/// # Errors
///
/// Where memory runs out.
pub fn increment(alloc: Global, step: &Increment, layout: &[Laid]) -> Result<Code, AllocError>
    ensures { IfOk result
        (DoesAlways layout.now (λ s. incremented s (increment_of step.now))) }
{
    match step {
        Increment::Up(x) => update(alloc, *x, &[], BinaryOp::Plus, number(1), layout),
        Increment::Down(x) => update(alloc, *x, &[], BinaryOp::Minus, number(1), layout),
        Increment::Set(x, source) => {
            let term = source_value(alloc, source, layout)?;
            assign(alloc, *x, &[], term, layout)
        }
        Increment::Change(x, op, expr) => {
            let term = value(alloc, expr, layout)?;
            update(alloc, *x, &[], *op, term, layout)
        }
    }
}

/// What a part of printf's writes (C11 7.21.6.1).
fn piece(alloc: Global, part: &PrintPart, layout: &[Laid]) -> Result<Piece, AllocError>
    ensures { IfOk result (MeansPart layout.now (part_of part.now)) }
{
    match part {
        PrintPart::Characters(bytes) => {
            let bytes = bytes.clone()?;
            Ok(Piece::Characters(bytes))
        }
        PrintPart::Decimal(expr) => {
            let term = value(alloc, expr, layout)?;
            Ok(Piece::Decimal(term))
        }
    }
}

/// What printf writes, part after part.
fn pieces(alloc: Global, parts: &[PrintPart], layout: &[Laid]) -> Result<Vec<Piece>, AllocError>
    ensures { IfOk result (λ ps. MeansText layout.now (map part_of parts.now) ps.items) }
{
    let mut pieces = Vec::new(alloc);
    for part in parts {
        pieces.push(piece(alloc, part, layout)?)?;
    }
    Ok(pieces)
}

/// The code of an assignment (C11 6.5.16.1).
fn assignment(
    alloc: Global,
    target: &Target,
    source: &Source,
    layout: &[Laid],
) -> Result<Code, AllocError>
    ensures { IfOk result (MeansStmt layout.now (stmt_of (Assign target.now source.now))) }
{
    let term = source_value(alloc, source, layout)?;
    assign(alloc, target.variable, &target.subscripts, term, layout)
}

/// The code of a compound assignment (C11 6.5.16.2).
fn compound_assignment(
    alloc: Global,
    target: &Target,
    op: BinaryOp,
    expr: &Expr,
    layout: &[Laid],
) -> Result<Code, AllocError>
    ensures { IfOk result
        (MeansStmt layout.now (stmt_of (Update target.now op expr.now))) }
{
    let term = value(alloc, expr, layout)?;
    update(alloc, target.variable, &target.subscripts, op, term, layout)
}

/// One of two, by a condition (C11 6.8.4.1).
fn choice(alloc: Global, c: &Cond, a: Code, b: Code, layout: &[Laid]) -> Result<Code, AllocError>
    ensures alone { IfOk result (λ code. (x : Tree.Stmt) → MeansStmt layout.now x a
        → ((r : Running) → after b r ≡ r)
        → MeansStmt layout.now (Tree.If (cond_of c.now) x) code) }
    ensures either { IfOk result (λ code. (x y : Tree.Stmt) → MeansStmt layout.now x a
        → MeansStmt layout.now y b
        → MeansStmt layout.now (Tree.IfElse (cond_of c.now) x y) code) }
{
    let (arms, c) = beside((a, b), test(alloc, c, layout))?;
    branch(alloc, c, arms.0, arms.1)
}

/// The turns of a loop with a body (C11 6.8.5).
fn loop_turns(alloc: Global, head: &Head, body: Code, layout: &[Laid]) -> Result<Code, AllocError>
    ensures { IfOk result (λ code. (x : Tree.Stmt) → MeansStmt layout.now x body
        → MeansTurns layout.now (cond_of head.now.test) x (increment_of head.now.step) code) }
{
    let (body, c) = beside(body, test(alloc, &head.test, layout))?;
    let (turn, step) = beside((c, body), increment(alloc, &head.step, layout))?;
    repeat(alloc, turn.0, turn.1, step)
}

/// The code of a loop with a body: its variable's first value, and then the turns (C11 6.8.5.3).
fn whole_loop(alloc: Global, head: &Head, body: Code, layout: &[Laid]) -> Result<Code, AllocError>
    ensures { IfOk result (λ code. (x : Tree.Stmt) → MeansStmt layout.now x body
        → MeansStmt layout.now (Tree.For head.now.variable.0 (string_bytes head.now.name)
        (source_of head.now.start) (cond_of head.now.test) (increment_of head.now.step) x) code) }
{
    let turns = loop_turns(alloc, head, body, layout)?;
    let (turns, start) = beside(turns, entry(alloc, head, layout))?;
    then(alloc, start, turns)
}

/// The code of a call of printf's (C11 7.21.6.1).
fn print(alloc: Global, parts: &[PrintPart], layout: &[Laid]) -> Result<Code, AllocError>
    ensures { IfOk result (MeansStmt layout.now (Tree.Print (map part_of parts.now))) }
{
    let pieces = pieces(alloc, parts, layout)?;
    Ok(Code::Print(pieces))
}

/// The code of a statement over variables that lie so (C11 6.8).
///
/// # Errors
///
/// Where memory runs out.
#[cycle(statement)]
pub fn statement(alloc: Global, stmt: &Stmt, layout: &[Laid]) -> Result<Code, AllocError>
    ensures { IfOk result (MeansStmt layout.now (stmt_of stmt.now)) }
{
    match stmt {
        Stmt::Assign(target, source) => assignment(alloc, target, source, layout),
        Stmt::Update(target, op, expr) => compound_assignment(alloc, target, *op, expr, layout),
        Stmt::If(c, a, other) => {
            let a = statement(alloc, a, layout)?;
            match other {
                None => choice(alloc, c, a, Code::Nothing, layout),
                Some(b) => {
                    let (a, b) = beside(a, statement(alloc, b, layout))?;
                    choice(alloc, c, a, b, layout)
                }
            }
        }
        Stmt::For(head, body) => {
            let body = statement(alloc, body, layout)?;
            whole_loop(alloc, head, body, layout)
        }
        Stmt::Block(list) => items(alloc, list, layout),
        Stmt::Print(parts, _place) => print(alloc, parts, layout),
    }
}

/// The code of a block's items over variables that lie so (C11 6.8.2).
///
/// # Errors
///
/// Where memory runs out.
#[cycle(statement)]
pub fn items(alloc: Global, list: &[Item], layout: &[Laid]) -> Result<Code, AllocError>
    ensures { IfOk result (MeansItems layout.now (items_of list.now)) }
{
    let mut code = Code::Nothing;
    for entry in list {
        let (before, next) = beside(code, item(alloc, entry, layout))?;
        code = then(alloc, before, next)?;
    }
    Ok(code)
}

/// The code of one item: a directive line does nothing.
///
/// # Errors
///
/// Where memory runs out.
#[cycle(statement)]
pub fn item(alloc: Global, item: &Item, layout: &[Laid]) -> Result<Code, AllocError>
    ensures { IfOk result (MeansItems layout.now (with_item item.now no_items)) }
{
    match item {
        Item::Directive(_place) => Ok(Code::Nothing),
        Item::Local(local) => declare(alloc, local.variable, &local.start, layout),
        Item::Statement(stmt) => statement(alloc, stmt, layout),
    }
}
