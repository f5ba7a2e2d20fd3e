//! Kernels whose parallel loops are tested.

ghost use Rattle.std.specs.Prelude.{◌≡◌, OnOk, IfOk, IfErr, map};
ghost use Rattle.semantics.specs.Tree.{no_items};
ghost use Rattle.ktree.specs.View.{stmt_of, items_of, with_item, declaration_of, kernel_of};
ghost use Rattle.nest_loop.specs.Facts.{FactsOf, FactsAmong, StandFirst, StandFirstAmong, IsLeft};
ghost use Rattle.nest.specs.Judged.{IsTableOf};
ghost use Rattle.deptest_verdict.specs.Sinks.{line_sinks};
ghost use Rattle.deptest_verdict.specs.Shown.{LoopsShown, ItemsShown, AreShownLoops, FirstLineShown, FirstLoopsShown};
ghost use Rattle.deptest_verdict.specs.Refused.{LoopsRefused, ItemsRefused, IsRefused};
ghost use Rattle.deptest_verdict.specs.Telling.{OrMemory, FirstLineRefused, FirstLoopsRefused};

use crate::nests::{Given, enter, line_shown};
use flow_doacross::DoacrossLoop;
use ktree::{Item, Kernel, Refusal, Stmt};
use nest::LoopTable;
use nest_loop::LoopFacts;
use pairtest_counter::EnclosingLoops;
use pragma::Directives;
use std::alloc::Global;

/// Tests the parallel loop behind an item, where this is a directive line.
fn item_line_shown(
    alloc: Global,
    chain: &mut EnclosingLoops,
    loops: &[LoopFacts],
    item: &Item,
    rest: &[Item],
    given: Given<'_>,
) -> Result<(), Refusal>
    requires { StandFirstAmong chain.old.box (with_item item.now (items_of rest.now)) loops.now }
    ensures err { IfErr result
        (OrMemory (FirstLineRefused given.entry.directives.now
        (line_sinks given.entry.doacross.now)
        (map declaration_of given.entry.variables.now) chain.old
        (with_item item.now no_items) (items_of rest.now))) }
    ensures ok { OnOk result (FirstLineShown given.entry.directives.now
        (line_sinks given.entry.doacross.now) chain.old (with_item item.now no_items)
        (items_of rest.now)) }
    ensures back { OnOk result (chain.new ≡ chain.old) }
{
    match item {
        Item::Directive(place) => line_shown(alloc, chain, *place, loops, rest, given),
        Item::Local(_) => Ok(()),
        Item::Statement(_) => Ok(()),
    }
}

/// Tests the parallel loops in a statement inside the loops of a chain, which are the same behind it, and answers the facts
/// behind those of the statement's loops.
#[cycle(shown)]
fn statement<'n>(
    alloc: Global,
    chain: &mut EnclosingLoops,
    loops: &'n [LoopFacts],
    walked: &Stmt,
    given: Given<'_>,
) -> Result<&'n [LoopFacts], Refusal>
    requires { StandFirst chain.old.box (stmt_of walked.now) loops.now }
    ensures err { IfErr result
        (OrMemory (LoopsRefused given.entry.directives.now
        (line_sinks given.entry.doacross.now)
        (map declaration_of given.entry.variables.now) chain.old (stmt_of walked.now))) }
    ensures ok { OnOk result (LoopsShown given.entry.directives.now
        (line_sinks given.entry.doacross.now) chain.old (stmt_of walked.now)) }
    ensures left { IfOk result
        (λ left. IsLeft (FactsOf chain.old.box (stmt_of walked.now) loops.now) left.now) }
    ensures back { OnOk result (chain.new ≡ chain.old) }
{
    match walked {
        Stmt::Assign(_, _) => Ok(loops),
        Stmt::Update(_, _, _) => Ok(loops),
        Stmt::If(_, then, other) => {
            let left = statement(alloc, chain, loops, then, given)?;
            match other {
                None => Ok(left),
                Some(other) => statement(alloc, chain, left, other, given),
            }
        }
        Stmt::For(head, body) => {
            let inner = enter(alloc, chain, head, loops)?;
            let left = statement(alloc, chain, inner, body, given)?;
            chain.leave();
            Ok(left)
        }
        Stmt::Block(items) => block(alloc, chain, loops, items, given),
        Stmt::Print(_, _) => Ok(loops),
    }
}

/// Tests those among a block's items.
#[cycle(shown)]
fn block<'n>(
    alloc: Global,
    chain: &mut EnclosingLoops,
    loops: &'n [LoopFacts],
    items: &[Item],
    given: Given<'_>,
) -> Result<&'n [LoopFacts], Refusal>
    requires { StandFirstAmong chain.old.box (items_of items.now) loops.now }
    ensures err { IfErr result
        (OrMemory (ItemsRefused given.entry.directives.now
        (line_sinks given.entry.doacross.now)
        (map declaration_of given.entry.variables.now) chain.old (items_of items.now))) }
    ensures ok { OnOk result (ItemsShown given.entry.directives.now
        (line_sinks given.entry.doacross.now) chain.old (items_of items.now)) }
    ensures left { IfOk result
        (λ left. IsLeft (FactsAmong chain.old.box (items_of items.now) loops.now) left.now) }
    ensures back { OnOk result (chain.new ≡ chain.old) }
{
    let mut left = loops;
    for (i, item) in items.iter().enumerate() {
        item_line_shown(alloc, chain, left, item, &items[i + 1..], given)?;
        left = one_item(alloc, chain, left, item, given)?;
    }
    Ok(left)
}

/// Tests those in an item.
#[cycle(shown)]
fn one_item<'n>(
    alloc: Global,
    chain: &mut EnclosingLoops,
    loops: &'n [LoopFacts],
    item: &Item,
    given: Given<'_>,
) -> Result<&'n [LoopFacts], Refusal>
    requires { StandFirstAmong chain.old.box (with_item item.now no_items) loops.now }
    ensures err { IfErr result
        (OrMemory (FirstLoopsRefused given.entry.directives.now
        (line_sinks given.entry.doacross.now)
        (map declaration_of given.entry.variables.now) chain.old
        (with_item item.now no_items))) }
    ensures ok { OnOk result (FirstLoopsShown given.entry.directives.now
        (line_sinks given.entry.doacross.now) chain.old (with_item item.now no_items)) }
    ensures left { IfOk result
        (λ left. IsLeft (FactsAmong chain.old.box (with_item item.now no_items) loops.now)
        left.now) }
    ensures back { OnOk result (chain.new ≡ chain.old) }
{
    match item {
        Item::Directive(_) => Ok(loops),
        Item::Local(_) => Ok(loops),
        Item::Statement(walked) => statement(alloc, chain, loops, walked, given),
    }
}

/// Tests each parallel loop of a kernel: of every two accesses of one array in its body, one of them a write, it has to be shown
/// that no two different iterations touch one element by them, or, where the loop is one of these doacross nests, that one of its
/// sinks orders them (OpenMP 5.2, 1.4.1, 11.5 and 15.9.6). The table has the facts of the kernel's loops.
///
/// # Errors
///
/// Of the first parallel loop and there the first pair of which this is not shown, in the order of the text: `Conflict` with the
/// first two of its first 64 iterations that touch one element, or `NotShown` where there are none, and always where the loop has
/// sinks; `Limit` where a number of its equations is above 2^62 in absolute value; the fault of a subscript that is not as the rules
/// have it; `OutOfMemory`.
pub fn judge(
    alloc: Global,
    kernel: &Kernel,
    directives: &Directives,
    table: &LoopTable,
    doacross: &[DoacrossLoop],
) -> Result<(), Refusal>
    requires { IsTableOf (kernel_of kernel.now) table.now }
    ensures ok { OnOk result (AreShownLoops directives.now (line_sinks doacross.now)
        (kernel_of kernel.now)) }
    ensures err { IfErr result (IsRefused directives.now (line_sinks doacross.now)
        (kernel_of kernel.now)) }
{
    let mut chain = EnclosingLoops::new(alloc);
    let given = Given {
        directives,
        variables: kernel.variables.as_slice(),
        doacross,
    };
    let loops = table.loops.as_slice();
    match block(alloc, &mut chain, loops, kernel.body.as_slice(), given) {
        Ok(_left) => Ok(()),
        Err(refusal) => Err(refusal),
    }
}
