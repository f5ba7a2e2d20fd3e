//! Statements and their loops.

ghost use Rattle.std.specs.Prelude.{◌≡◌, List, OnOk, IfOk, IfErr};
ghost use Rattle.semantics.specs.Tree.{no_items};
ghost use Rattle.ktree.specs.View.{stmt_of, items_of, with_item};
ghost use Rattle.affine_expr.specs.declared.faults.Fault.TheVariants.{OutOfMemory};
ghost use Rattle.nest_loop.specs.Facts.{FactsOf, FactsAmong, StandFirst, StandFirstAmong, LoopStandsFirst, IsLeft};
ghost use Rattle.pairtest_access.specs.Sites.{Site, Sites, ItemsSites};
ghost use Rattle.pairtest_access.specs.Refused.{Because, IsStuck, AreStuck};
ghost use Rattle.pairtest_access.specs.Walk.{MeetsAll, EntersFirst};

use crate::expressions::{cond, expr, parts, source, start, target};
use crate::finder::Finder;
use affine_expr::Fault;
use ktree::{Head, Item, Stmt};
use nest_loop::LoopFacts;
use pairtest_counter::EnclosingLoops;
use std::alloc::Global;

/// Goes into the loop of a head, whose facts stand first of some (OpenMP 5.2, 4.4.1), and answers those behind its own.
///
/// # Errors
///
/// `OutOfMemory`.
pub fn enter_loop<'n>(
    alloc: Global,
    chain: &mut EnclosingLoops,
    head: &Head,
    loops: &'n [LoopFacts],
) -> Result<&'n [LoopFacts], Fault>
    requires { LoopStandsFirst chain.old.box head.now loops.now }
    ensures err { IfErr result (λ fault. fault ≡ OutOfMemory) }
    ensures ok { IfOk result
        (λ inner. EntersFirst chain.old chain.new head.now loops.now inner.now) }
{
    let Some((own, inner)) = loops.split_first() else {
        unreachable!()
    };
    chain.enter(alloc, head, own)?;
    let _levels = chain.levels();
    Ok(inner)
}

/// Meets the accesses of a statement inside the loops of a chain, which are the same behind it, and answers the facts behind
/// those of the statement's loops.
#[cycle(statement)]
#[tactic(auto, using(crate::proofs::Walks::assign_walked, crate::proofs::Walks::update_walked, crate::proofs::Walks::if_walked, crate::proofs::Walks::if_else_walked))]
pub(crate) fn statement<'n>(
    alloc: Global,
    chain: &mut EnclosingLoops,
    finder: &mut Finder,
    loops: &'n [LoopFacts],
    walked: &Stmt,
) -> Result<&'n [LoopFacts], Fault>
    requires { StandFirst chain.old.box (stmt_of walked.now) loops.now }
    ensures err { IfErr result (Because (IsStuck chain.old (stmt_of walked.now))) }
    ensures ok { OnOk result ((ss : List Site) × Sites chain.old (stmt_of walked.now) ss
        × MeetsAll finder.old ss finder.new) }
    ensures left { IfOk result
        (λ left. IsLeft (FactsOf chain.old.box (stmt_of walked.now) loops.now) left.now) }
    ensures back { OnOk result (chain.new ≡ chain.old) }
{
    match walked {
        Stmt::Assign(assigned, value) => {
            target(alloc, chain, finder, assigned)?;
            source(alloc, chain, finder, value)?;
            Ok(loops)
        }
        Stmt::Update(assigned, _, value) => {
            target(alloc, chain, finder, assigned)?;
            expr(alloc, chain, finder, value)?;
            Ok(loops)
        }
        Stmt::If(condition, then, other) => {
            cond(alloc, chain, finder, condition)?;
            let left = statement(alloc, chain, finder, loops, then)?;
            match other {
                None => Ok(left),
                Some(other) => statement(alloc, chain, finder, left, other),
            }
        }
        Stmt::For(head, body) => {
            let inner = enter_loop(alloc, chain, head, loops)?;
            let left = statement(alloc, chain, finder, inner, body)?;
            chain.leave();
            Ok(left)
        }
        Stmt::Block(items) => block(alloc, chain, finder, loops, items),
        Stmt::Print(printed, _) => {
            parts(alloc, chain, finder, printed)?;
            Ok(loops)
        }
    }
}

/// Meets those of a block's items.
#[cycle(statement)]
fn block<'n>(
    alloc: Global,
    chain: &mut EnclosingLoops,
    finder: &mut Finder,
    loops: &'n [LoopFacts],
    items: &[Item],
) -> Result<&'n [LoopFacts], Fault>
    requires { StandFirstAmong chain.old.box (items_of items.now) loops.now }
    ensures err { IfErr result (Because (AreStuck chain.old (items_of items.now))) }
    ensures ok { OnOk result ((ss : List Site) × ItemsSites chain.old (items_of items.now) ss
        × MeetsAll finder.old ss finder.new) }
    ensures left { IfOk result
        (λ left. IsLeft (FactsAmong chain.old.box (items_of items.now) loops.now) left.now) }
    ensures back { OnOk result (chain.new ≡ chain.old) }
{
    let mut left = loops;
    for item in items {
        left = one_item(alloc, chain, finder, left, item)?;
    }
    Ok(left)
}

/// Meets those of an item alone.
#[cycle(statement)]
fn one_item<'n>(
    alloc: Global,
    chain: &mut EnclosingLoops,
    finder: &mut Finder,
    loops: &'n [LoopFacts],
    item: &Item,
) -> Result<&'n [LoopFacts], Fault>
    requires { StandFirstAmong chain.old.box (with_item item.now no_items) loops.now }
    ensures err { IfErr result (Because (AreStuck chain.old (with_item item.now no_items))) }
    ensures ok { OnOk result ((ss : List Site)
        × ItemsSites chain.old (with_item item.now no_items) ss
        × MeetsAll finder.old ss finder.new) }
    ensures left { IfOk result
        (λ left. IsLeft (FactsAmong chain.old.box (with_item item.now no_items) loops.now)
        left.now) }
    ensures back { OnOk result (chain.new ≡ chain.old) }
{
    match item {
        Item::Directive(_) => Ok(loops),
        Item::Local(local) => {
            start(alloc, chain, finder, &local.start)?;
            Ok(loops)
        }
        Item::Statement(walked) => statement(alloc, chain, finder, loops, walked),
    }
}
