//! Statements and their loops.

ghost use Rattle.std.specs.Prelude.{◌≡◌, ◌⊎◌, List, OnOk, IfOk, IfErr, map};
ghost use Rattle.semantics.specs.Tree.{no_items};
ghost use Rattle.ktree.specs.View.{stmt_of, items_of, with_item};
ghost use Rattle.nest.specs.Nests.{IsAffine, Has, Have};
ghost use Rattle.nest.specs.Leaves.{Meets, Meet};
ghost use Rattle.nest_loop.specs.Facts.{FactsOf, FactsAmong};
ghost use Rattle.nest.specs.Facts.{Pushes};
ghost use Rattle.affine.specs.declared.interval.Side.{Side};
ghost use Rattle.affine_expr.specs.declared.faults.Fault.TheVariants.{OutOfMemory};
ghost use Rattle.nest.specs.Judged.{inside_of, out_of, Decides, Tells, Entered, EntersLoop};

use crate::expressions::{cond, expr, parts, source, start, target};
use affine::VarBox;
use affine_expr::Fault;
use ktree::{Declaration, Head, Item, Place, Stmt};
use nest_loop::{LoopFacts, enter};
use std::alloc::Global;

/// Goes into a loop, if it is canonical, never wraps and is one of eight at most, and puts its facts behind those of others.
fn enter_loop(
    alloc: Global,
    head: &Head,
    body: &Stmt,
    bounds: &mut VarBox,
    loops: &mut Vec<LoopFacts>,
) -> Result<(), Fault>
    ensures ok { OnOk result
        (EntersLoop bounds.old bounds.new loops.old.items loops.new.items head.now
        (stmt_of body.now)) }
    ensures fault { IfErr result
        (λ fault. (fault ≡ OutOfMemory)
        ⊎ ((box : List Side) → Entered bounds.old box head.now (stmt_of body.now) → ⊥)) }
{
    let facts = enter(alloc, head, body, bounds)?;
    loops.push(facts)?;
    Ok(())
}

/// Where the first subscript of a statement leaves its array, if its loops are canonical and each subscript is affine. The
/// loops round it are those of the box, and so they are behind it; the facts of its own are put behind those of others.
#[cycle(statement)]
pub fn statement(
    alloc: Global,
    variables: &[Declaration],
    bounds: &mut VarBox,
    loops: &mut Vec<LoopFacts>,
    walked: &Stmt,
) -> Result<Option<Place>, Fault>
    ensures affine { Decides result (Has IsAffine bounds.old (stmt_of walked.now)) }
    ensures leaves { IfOk result
        (Tells (Has (inside_of variables.now) bounds.old (stmt_of walked.now))
        (Meets (out_of variables.now) bounds.old (stmt_of walked.now))) }
    ensures facts { OnOk result
        (Pushes (FactsOf bounds.old (stmt_of walked.now)) loops.old.items loops.new.items) }
    ensures back { OnOk result (bounds.new ≡ bounds.old) }
{
    match walked {
        Stmt::Assign(assigned, value) => {
            let first = target(alloc, variables, bounds, assigned)?;
            let second = source(alloc, variables, bounds, value)?;
            Ok(first.or(second))
        }
        Stmt::Update(assigned, _, value) => {
            let first = target(alloc, variables, bounds, assigned)?;
            let second = expr(alloc, variables, bounds, value)?;
            Ok(first.or(second))
        }
        Stmt::If(condition, then, other) => {
            let first = cond(alloc, variables, bounds, condition)?;
            let second = statement(alloc, variables, bounds, loops, then)?;
            match other {
                None => Ok(first.or(second)),
                Some(other) => {
                    let third = statement(alloc, variables, bounds, loops, other)?;
                    Ok(first.or(second.or(third)))
                }
            }
        }
        Stmt::For(head, body) => {
            enter_loop(alloc, head, body, bounds, loops)?;
            let leaves = statement(alloc, variables, bounds, loops, body)?;
            bounds.unbind();
            Ok(leaves)
        }
        Stmt::Block(items) => block(alloc, variables, bounds, loops, items),
        Stmt::Print(printed, _) => parts(alloc, variables, bounds, printed),
    }
}

/// That of a block's items.
#[cycle(statement)]
pub fn block(
    alloc: Global,
    variables: &[Declaration],
    bounds: &mut VarBox,
    loops: &mut Vec<LoopFacts>,
    items: &[Item],
) -> Result<Option<Place>, Fault>
    ensures affine { Decides result (Have IsAffine bounds.old (items_of items.now)) }
    ensures leaves { IfOk result
        (Tells (Have (inside_of variables.now) bounds.old (items_of items.now))
        (Meet (out_of variables.now) bounds.old (items_of items.now))) }
    ensures facts { OnOk result
        (Pushes (FactsAmong bounds.old (items_of items.now)) loops.old.items loops.new.items) }
    ensures back { OnOk result (bounds.new ≡ bounds.old) }
{
    let mut leaves = None;
    for item in items {
        let own = one_item(alloc, variables, bounds, loops, item)?;
        leaves = leaves.or(own);
    }
    Ok(leaves)
}

/// That of an item alone.
#[cycle(statement)]
fn one_item(
    alloc: Global,
    variables: &[Declaration],
    bounds: &mut VarBox,
    loops: &mut Vec<LoopFacts>,
    item: &Item,
) -> Result<Option<Place>, Fault>
    ensures affine { Decides result (Have IsAffine bounds.old (with_item item.now no_items)) }
    ensures leaves { IfOk result
        (Tells (Have (inside_of variables.now) bounds.old (with_item item.now no_items))
        (Meet (out_of variables.now) bounds.old (with_item item.now no_items))) }
    ensures facts { OnOk result
        (Pushes (FactsAmong bounds.old (with_item item.now no_items)) loops.old.items
        loops.new.items) }
    ensures back { OnOk result (bounds.new ≡ bounds.old) }
{
    match item {
        Item::Directive(_) => Ok(None),
        Item::Local(local) => start(alloc, variables, bounds, &local.start),
        Item::Statement(walked) => statement(alloc, variables, bounds, loops, walked),
    }
}
