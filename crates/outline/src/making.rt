//! The outline of a kernel.

ghost use Rattle.std.specs.Prelude.{◌≡◌, ℕ, false, List, [], length, Some, None, IfOk, IfErr, OnOk};
ghost use Rattle.semantics.specs.Tree as tree;
ghost use Rattle.semantics.specs.Meaning.Agrees.{declared_among};
ghost use Rattle.ktree.specs.View.{stmt_of, items_of, cond_of, if_of};
ghost use Rattle.ktree.specs.declared.refusal.Refusal.TheVariants.{OutOfMemory};
ghost use Rattle.affine.specs.declared.interval.Side.{Side};
ghost use Rattle.flow.specs.declared.environment.ParallelLoop.{ParallelLoop};
ghost use Rattle.lower_code.specs.declared.laid.Laid.{Laid};
ghost use Rattle.outline.specs.declared.handing.Loops.{Loops};
ghost use Rattle.semantics.specs.Tree.{Declaration};
ghost use Rattle.flow.specs.Roles.{LineData, ItemsHaveBy};
ghost use Rattle.law_independence.specs.Said.{LinesInside};
ghost use Rattle.law_apart.specs.Apart.{apart_items};
ghost use Rattle.outline.specs.Accepted.{HasRightLoops, HaveRightLoops, IsRightBehind, ItemIsRight};
ghost use Rattle.outline.specs.Given.{ArePrivateLocals};
ghost use Rattle.outline.specs.Handed.{AreOfText, inside_told};
ghost use Rattle.pragma.specs.Plain.{has_line};
ghost use Rattle.outline.specs.Made.{line_of, loop_with, IsInside, KnownBy, IsMade, IsMadeItem, AreMade};
ghost use Rattle.outline.specs.Fit.{AllFit, WithLocals};
ghost use Rattle.outline.specs.View.{items_performed};

use crate::compiling::{Target, compile_item, compile_statement, compile_test, lower_head};
use crate::handing::{Loops, loop_for_team};
use crate::lines::has_line;
use crate::shape::{Outline, OutlineItem};
use affine::VarBox;
use ktree::{Cond, Head, Item, Place, Refusal, Stmt};
use nest_loop::enter;
use std::alloc::Global;

// Where the directive line stands that an item is.
fn directive_place(item: &Item) -> Option<Place>
    ensures { result ≡ line_of item.now }
{
    match item {
        Item::Directive(place) => Some(*place),
        Item::Local(_) => None,
        Item::Statement(_) => None,
    }
}

// The outline of a statement as code alone, where no directive line stands in it.
fn outline_serial<'k>(
    alloc: Global,
    stmt: &'k Stmt,
    loops: Loops<'_>,
    target: Target<'_>,
    bounds: &VarBox,
) -> Result<Box<Outline<'k>>, Refusal>
    requires { has_line (stmt_of stmt.now) ≡ false }
    ensures made { IfOk result (λ o. IsMade target.entry.layout.now target.entry.registers
        loops.entry
        bounds.now None (stmt_of stmt.now) o.value) }
    ensures refusal { IfErr result (λ refusal. refusal ≡ OutOfMemory) }
{
    let _places = (loops.parallel.len(), bounds.len());
    let code = compile_statement(alloc, stmt, target)?;
    Ok(Box::new(alloc, Outline::Serial(code, stmt))?)
}

// Goes into the loop of a head.
fn go_into(alloc: Global, head: &Head, body: &Stmt, bounds: &mut VarBox) -> Result<(), Refusal>
    requires { (layout : List Laid) × (mark : ℕ) × (loops : List ParallelLoop)
        × HasRightLoops layout mark loops bounds.old (loop_with head.now (stmt_of body.now)) }
    ensures ok { OnOk result (IsInside head.now bounds.old bounds.new) }
    ensures right { OnOk result ((layout : List Laid) (mark : ℕ) (loops : List ParallelLoop)
        → HasRightLoops layout mark loops bounds.old (loop_with head.now (stmt_of body.now))
        → HasRightLoops layout mark loops bounds.new (stmt_of body.now)) }
    ensures refusal { IfErr result (λ refusal. refusal ≡ OutOfMemory) }
{
    enter(alloc, head, body, bounds)?;
    Ok(())
}

// The outline of an `if` without `else`.
fn one_armed<'k>(
    alloc: Global,
    cond: &'k Cond,
    then: Box<Outline<'k>>,
    target: Target<'_>,
) -> Result<Box<Outline<'k>>, Refusal>
    ensures made { (loops : Loops) (box : List Side) (a : tree.Stmt)
        → IsMade target.entry.layout.now target.entry.registers loops box None a then.entry.value
        → IfOk result (λ o. IsMade target.entry.layout.now target.entry.registers loops box None
        (if_of (cond_of cond.now) a None) o.value) }
    ensures refusal { IfErr result (λ refusal. refusal ≡ OutOfMemory) }
{
    let test = compile_test(alloc, cond, target)?;
    Ok(Box::new(alloc, Outline::If(test, cond, then, None))?)
}

// The outline of an `if` with `else`.
fn two_armed<'k>(
    alloc: Global,
    cond: &'k Cond,
    then: Box<Outline<'k>>,
    other: Box<Outline<'k>>,
    target: Target<'_>,
) -> Result<Box<Outline<'k>>, Refusal>
    ensures made { (loops : Loops) (box : List Side) (a b : tree.Stmt)
        → IsMade target.entry.layout.now target.entry.registers loops box None a then.entry.value
        → IsMade target.entry.layout.now target.entry.registers loops box None b other.entry.value
        → IfOk result (λ o. IsMade target.entry.layout.now target.entry.registers loops box None
        (if_of (cond_of cond.now) a (Some b)) o.value) }
    ensures refusal { IfErr result (λ refusal. refusal ≡ OutOfMemory) }
{
    let test = compile_test(alloc, cond, target)?;
    Ok(Box::new(alloc, Outline::If(test, cond, then, Some(other)))?)
}

// The outline of a loop that one thread runs.
fn serial_loop<'k>(
    alloc: Global,
    head: &'k Head,
    inner: Box<Outline<'k>>,
    target: Target<'_>,
) -> Result<Box<Outline<'k>>, Refusal>
    ensures made { (loops : Loops) (box within : List Side) (a : tree.Stmt)
        → IsInside head.now box within
        → IsMade target.entry.layout.now target.entry.registers loops within None a
        inner.entry.value
        → IfOk result (λ o. IsMade target.entry.layout.now target.entry.registers loops box None
        (loop_with head.now a) o.value) }
    ensures refusal { IfErr result (λ refusal. refusal ≡ OutOfMemory) }
{
    let lowered = lower_head(alloc, head, target)?;
    Ok(Box::new(alloc, Outline::For(lowered, head, inner))?)
}

// The outline of a statement that stands behind no directive line.
#[cycle(making)]
fn outline_inside<'k>(
    alloc: Global,
    stmt: &'k Stmt,
    loops: Loops<'_>,
    target: Target<'_>,
    bounds: &mut VarBox,
) -> Result<Box<Outline<'k>>, Refusal>
    requires { HasRightLoops target.layout.now target.registers loops.parallel.now bounds.old
        (stmt_of stmt.now) }
    ensures made { IfOk result (λ o. IsMade target.entry.layout.now target.entry.registers
        loops.entry
        bounds.old None (stmt_of stmt.now) o.value) }
    ensures back { OnOk result (bounds.new ≡ bounds.old) }
    ensures refusal { IfErr result (λ refusal. refusal ≡ OutOfMemory) }
{
    if !has_line(stmt) {
        return outline_serial(alloc, stmt, loops, target, bounds);
    }
    match stmt {
        Stmt::If(cond, then, other) => match other {
            None => {
                let then = outline_inside(alloc, then, loops, target, bounds)?;
                one_armed(alloc, cond, then, target)
            }
            Some(other) => {
                let then = outline_inside(alloc, then, loops, target, bounds)?;
                let other = outline_inside(alloc, other, loops, target, bounds)?;
                two_armed(alloc, cond, then, other, target)
            }
        },
        Stmt::For(head, body) => {
            go_into(alloc, head, body, bounds)?;
            let inner = outline_inside(alloc, body, loops, target, bounds)?;
            bounds.unbind();
            serial_loop(alloc, head, inner, target)
        }
        Stmt::Block(items) => {
            let outlines = outline_items(alloc, items, loops, target, bounds)?;
            Ok(Box::new(alloc, Outline::Block(outlines))?)
        }
        Stmt::Assign(_, _) | Stmt::Update(_, _, _) | Stmt::Print(_, _) => unreachable!(),
    }
}

// The outline of a statement, which may stand behind the directive line at this place.
#[cycle(making)]
fn outline_behind<'k>(
    alloc: Global,
    stmt: &'k Stmt,
    directive: Option<Place>,
    loops: Loops<'_>,
    target: Target<'_>,
    bounds: &mut VarBox,
) -> Result<Box<Outline<'k>>, Refusal>
    requires { IsRightBehind target.layout.now target.registers loops.parallel.now bounds.old
        directive (stmt_of stmt.now) }
    ensures made { IfOk result (λ o. IsMade target.entry.layout.now target.entry.registers
        loops.entry
        bounds.old directive (stmt_of stmt.now) o.value) }
    ensures back { OnOk result (bounds.new ≡ bounds.old) }
    ensures refusal { IfErr result (λ refusal. refusal ≡ OutOfMemory) }
{
    match directive {
        None => outline_inside(alloc, stmt, loops, target, bounds),
        Some(place) => {
            let construct = loop_for_team(alloc, loops, place, stmt, target, bounds)?;
            Ok(Box::new(alloc, Outline::Team(construct))?)
        }
    }
}

// The outline of a block's item, which may stand behind the directive line at this place.
#[cycle(making)]
fn outline_item<'k>(
    alloc: Global,
    item: &'k Item,
    directive: Option<Place>,
    loops: Loops<'_>,
    target: Target<'_>,
    bounds: &mut VarBox,
) -> Result<OutlineItem<'k>, Refusal>
    requires { ItemIsRight target.layout.now target.registers loops.parallel.now bounds.old
        directive item.now }
    ensures made { IfOk result (λ o. IsMadeItem target.entry.layout.now target.entry.registers
        loops.entry bounds.old directive item.now o) }
    ensures back { OnOk result (bounds.new ≡ bounds.old) }
    ensures refusal { IfErr result (λ refusal. refusal ≡ OutOfMemory) }
{
    let Item::Statement(stmt) = item else {
        let code = compile_item(alloc, item, target)?;
        return Ok(OutlineItem::Plain(code, item));
    };
    let inner = outline_behind(alloc, stmt, directive, loops, target, bounds)?;
    Ok(OutlineItem::Statement(inner))
}

// The outlines of a block's items, inside the loops of a box.
#[cycle(making)]
fn outline_items<'k>(
    alloc: Global,
    items: &'k [Item],
    loops: Loops<'_>,
    target: Target<'_>,
    bounds: &mut VarBox,
) -> Result<Vec<OutlineItem<'k>>, Refusal>
    requires { HaveRightLoops target.layout.now target.registers loops.parallel.now bounds.old
        (items_of items.now) }
    ensures made { IfOk result (λ os. AreMade target.entry.layout.now target.entry.registers
        loops.entry bounds.old None items.now os.items) }
    ensures back { OnOk result (bounds.new ≡ bounds.old) }
    ensures refusal { IfErr result (λ refusal. refusal ≡ OutOfMemory) }
{
    let mut outlines = Vec::with_capacity(alloc, items.len())?;
    let mut directive = None;
    for item in items {
        let outline = outline_item(alloc, item, directive, loops, target, bounds)?;
        directive = directive_place(item);
        outlines.push(outline)?;
    }
    Ok(outlines)
}

/// The outline of a kernel's body: each loop behind a directive line is lowered for a team, whatever its form and its schedule, with those
/// reduction and lastprivate variables of its line that it assigns from outside (OpenMP 5.2, 5.4.5 and 5.5.8), that of a scan also for
/// the first of its two passes (5.6), and a doacross nest with its sinks (15.9.6); all else is compiled for one thread, over registers below that number for the locals.
/// The body is that of an accepted kernel: its loops are canonical, and behind each of its directive lines stands one of these parallel loops,
/// in a right nest (4.4.1 and 4.4.3), which assigns from outside only scalars that have a cell or a register.
///
/// # Errors
///
/// Where memory runs out.
pub fn outline<'k>(
    alloc: Global,
    items: &'k [Item],
    loops: Loops<'_>,
    target: Target<'_>,
) -> Result<Vec<OutlineItem<'k>>, Refusal>
    requires { HaveRightLoops target.layout.now target.registers loops.parallel.now []
        (items_of items.now) }
    ensures is { IfOk result (λ os. (R : LineData)
        → items_performed R [] os.items ≡ apart_items R [] (items_of items.now)) }
    ensures fits { IfOk result
        (λ os. (text : List ℕ) (ds : List Declaration) (R : LineData) (P : LinesInside)
        → ArePrivateLocals (length target.entry.layout.now) R
        → AreOfText text R loops.entry.parallel.now
        → P ≡ inside_told loops.entry
        → ItemsHaveBy text (KnownBy ds R P) [] (items_of items.now)
        → WithLocals target.entry.layout.now target.entry.registers
        (declared_among (items_of items.now))
        (AllFit target.entry.layout.now target.entry.registers R [] os.items)) }
    ensures refusal { IfErr result (λ refusal. refusal ≡ OutOfMemory) }
{
    let mut bounds = VarBox::new(alloc);
    outline_items(alloc, items, loops, target, &mut bounds)
}
