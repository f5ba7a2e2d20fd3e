//! The bodies of loops.

ghost use Rattle.std.specs.Prelude.{◌≡◌, List, length, slice_get, OnOk, IfOk, IfErr};
ghost use Rattle.ktree.specs.View.{stmt_of};
ghost use Rattle.nest_loop.specs.Facts.{StandFirst};
ghost use Rattle.pairtest_access.specs.Sites.{Site, Sites};
ghost use Rattle.pairtest_access.specs.Found.{AreMet, IsTold};
ghost use Rattle.pairtest_access.specs.Refused.{Because, IsStuck};

use crate::finder::{Finder, Wanted};
use crate::statements::statement;
use crate::told::Touched;
use affine_expr::Fault;
use ktree::Stmt;
use nest_loop::LoopFacts;
use pairtest::Access;
use pairtest_counter::EnclosingLoops;
use std::alloc::Global;

/// Every element access of a body, in order of place, where the loops of the chain stand round the body; the target of an
/// assignment stands first, and writes. Of the loops inside the body, whose facts stand first of those given, each has its
/// greatest count in the accesses inside it.
/// An access is not counted where a number of a subscript's form in the counters is above 2^62 in absolute value.
/// The chain has the same loops behind it.
///
/// # Errors
///
/// The fault of a subscript without a form in the variables; `OutOfMemory`.
pub fn accesses(
    alloc: Global,
    chain: &mut EnclosingLoops,
    loops: &[LoopFacts],
    body: &Stmt,
) -> Result<Vec<Access>, Fault>
    requires { StandFirst chain.old.box (stmt_of body.now) loops.now }
    ensures ok { IfOk result (λ found. (ss : List Site) × Sites chain.old (stmt_of body.now) ss
        × AreMet (length chain.old.levels) ss found.items) }
    ensures err { IfErr result (Because (IsStuck chain.old (stmt_of body.now))) }
    ensures back { OnOk result (chain.new ≡ chain.old) }
{
    let mut finder = Finder {
        outer: chain.levels().len(),
        wanted: Wanted::Every,
        accesses: Vec::new(alloc),
        touched: None,
    };
    let _left = statement(alloc, chain, &mut finder, loops, body)?;
    Ok(finder.accesses)
}

/// What is told of one of these accesses, that with so many before it; none, where there is none. The chain has the same
/// loops behind it, and the facts of those inside the body stand first of those given.
///
/// # Errors
///
/// The fault of a subscript without a form in the variables; `OutOfMemory`.
pub fn access_at(
    alloc: Global,
    chain: &mut EnclosingLoops,
    loops: &[LoopFacts],
    body: &Stmt,
    number: usize,
) -> Result<Option<Touched>, Fault>
    requires { StandFirst chain.old.box (stmt_of body.now) loops.now }
    ensures ok { IfOk result (λ told. (ss : List Site) × Sites chain.old (stmt_of body.now) ss
        × IsTold (length chain.old.levels) (slice_get ss number) told) }
    ensures err { IfErr result (Because (IsStuck chain.old (stmt_of body.now))) }
    ensures back { OnOk result (chain.new ≡ chain.old) }
{
    let mut finder = Finder {
        outer: chain.levels().len(),
        wanted: Wanted::Only(number),
        accesses: Vec::new(alloc),
        touched: None,
    };
    let _left = statement(alloc, chain, &mut finder, loops, body)?;
    Ok(finder.touched)
}
