//! Expressions inside loops.

ghost use Rattle.std.specs.Prelude.{◌≡◌, map, length, [], ◌∷◌, OnOk, IfErr};
ghost use Rattle.ktree.specs.View.{expr_of, exprs_of, cond_of, source_of, start_of, part_of};
ghost use Rattle.pairtest.specs.declared.access.Mode.TheVariants.{Writes};
ghost use Rattle.pairtest_access.specs.Sites.{named, expr_sites, cond_sites, source_sites, start_sites, printed_sites, part_sites};
ghost use Rattle.pairtest_access.specs.Refused.{Because, Lacks};
ghost use Rattle.pairtest_access.specs.Walk.{MeetsAll};

use crate::finder::Finder;
use affine_expr::Fault;
use ktree::{Cond, Expr, PrintPart, Source, Target};
use pairtest::Mode;
use pairtest_counter::EnclosingLoops;
use std::alloc::Global;

/// Meets the accesses of an expression inside the loops of a chain.
#[cycle(expression)]
#[tactic(auto, using(crate::proofs::Walks::joined, crate::proofs::Walks::lacks_before, crate::proofs::Walks::lacks_behind))]
pub(crate) fn expr(
    alloc: Global,
    chain: &EnclosingLoops,
    finder: &mut Finder,
    expression: &Expr,
) -> Result<(), Fault>
    ensures ok { OnOk result (MeetsAll finder.old (expr_sites chain.now (expr_of expression.now))
        finder.new) }
    ensures err { IfErr result (Because (Lacks (expr_sites chain.now (expr_of expression.now)))) }
{
    match expression {
        Expr::Literal(_, _) => Ok(()),
        Expr::Constant(_, _) => Ok(()),
        Expr::Object(variable, subscripts, mention) => finder.meet(
            alloc,
            chain,
            Mode::Reads,
            *variable,
            subscripts.as_slice(),
            mention,
        ),
        Expr::Unary(_, operand) => expr(alloc, chain, finder, operand),
        Expr::Binary(_, left, right) => {
            expr(alloc, chain, finder, left)?;
            expr(alloc, chain, finder, right)
        }
        Expr::Conditional(test, left, right) => {
            cond(alloc, chain, finder, test)?;
            expr(alloc, chain, finder, left)?;
            expr(alloc, chain, finder, right)
        }
    }
}

/// Meets those of a condition.
#[cycle(expression)]
#[tactic(auto, using(crate::proofs::Walks::joined, crate::proofs::Walks::lacks_before, crate::proofs::Walks::lacks_behind))]
pub(crate) fn cond(
    alloc: Global,
    chain: &EnclosingLoops,
    finder: &mut Finder,
    condition: &Cond,
) -> Result<(), Fault>
    ensures ok { OnOk result (MeetsAll finder.old (cond_sites chain.now (cond_of condition.now))
        finder.new) }
    ensures err { IfErr result (Because (Lacks (cond_sites chain.now (cond_of condition.now)))) }
{
    match condition {
        Cond::NotZero(expression) => expr(alloc, chain, finder, expression),
        Cond::Compare(_, left, right, _) => {
            expr(alloc, chain, finder, left)?;
            expr(alloc, chain, finder, right)
        }
        Cond::Not(inner) => cond(alloc, chain, finder, inner),
        Cond::LogicalAnd(left, right) => {
            cond(alloc, chain, finder, left)?;
            cond(alloc, chain, finder, right)
        }
        Cond::LogicalOr(left, right) => {
            cond(alloc, chain, finder, left)?;
            cond(alloc, chain, finder, right)
        }
    }
}

/// Meets the object that is assigned.
pub(crate) fn target(
    alloc: Global,
    chain: &EnclosingLoops,
    finder: &mut Finder,
    assigned: &Target,
) -> Result<(), Fault>
    ensures ok { OnOk result (MeetsAll finder.old
        (named chain.now Writes assigned.now.variable.0 (exprs_of assigned.now.subscripts.items))
        finder.new) }
    ensures err { IfErr result
        (Because (Lacks (named chain.now Writes assigned.now.variable.0
        (exprs_of assigned.now.subscripts.items)))) }
{
    finder.meet(
        alloc,
        chain,
        Mode::Writes,
        assigned.variable,
        assigned.subscripts.as_slice(),
        &assigned.mention,
    )
}

/// Meets those of a right side.
pub(crate) fn source(
    alloc: Global,
    chain: &EnclosingLoops,
    finder: &mut Finder,
    value: &Source,
) -> Result<(), Fault>
    ensures ok { OnOk result (MeetsAll finder.old (source_sites chain.now (source_of value.now))
        finder.new) }
    ensures err { IfErr result (Because (Lacks (source_sites chain.now (source_of value.now)))) }
{
    match value {
        Source::Number(expression) => expr(alloc, chain, finder, expression),
        Source::Truth(condition) => cond(alloc, chain, finder, condition),
    }
}

/// Meets those of an initialiser.
pub(crate) fn start(
    alloc: Global,
    chain: &EnclosingLoops,
    finder: &mut Finder,
    value: &Option<Source>,
) -> Result<(), Fault>
    ensures ok { OnOk result (MeetsAll finder.old (start_sites chain.now (start_of value.now))
        finder.new) }
    ensures err { IfErr result (Because (Lacks (start_sites chain.now (start_of value.now)))) }
{
    match value {
        None => Ok(()),
        Some(value) => source(alloc, chain, finder, value),
    }
}

/// Meets those of one of printf's arguments.
fn part(
    alloc: Global,
    chain: &EnclosingLoops,
    finder: &mut Finder,
    part: &PrintPart,
) -> Result<(), Fault>
    ensures ok { OnOk result (MeetsAll finder.old (printed_sites chain.now (part_of part.now))
        finder.new) }
    ensures err { IfErr result (Because (Lacks (printed_sites chain.now (part_of part.now)))) }
{
    match part {
        PrintPart::Characters(_) => Ok(()),
        PrintPart::Decimal(expression) => expr(alloc, chain, finder, expression),
    }
}

/// Meets those of printf's arguments.
#[tactic(auto, using(crate::proofs::Walks::next_part))]
pub(crate) fn parts(
    alloc: Global,
    chain: &EnclosingLoops,
    finder: &mut Finder,
    parts: &[PrintPart],
) -> Result<(), Fault>
    ensures ok { OnOk result (MeetsAll finder.old (part_sites chain.now (map part_of parts.now))
        finder.new) }
    ensures err { IfErr result (Because (Lacks (part_sites chain.now (map part_of parts.now)))) }
{
    for printed in parts {
        part(alloc, chain, finder, printed)?;
    }
    Ok(())
}
