//! What is told of two accesses that are not shown to be independent or ordered.

ghost use Rattle.std.specs.Prelude.{◌≡◌, List, length, map, take, drop, string_bytes, IfOk, IfErr, IfNone, IfSome, OnOk};
ghost use Rattle.ktree.specs.View.{stmt_of, declaration_of};
ghost use Rattle.nest_loop.specs.Facts.{StandFirst};
ghost use Rattle.nest_space.specs.Space.{IsSpace};
ghost use Rattle.deptest_witness.specs.Touching.{NestAt, IsEntered, TouchesAt};
ghost use Rattle.deptest_witness.specs.Pairs.{IsFirst, NeverMeet};
ghost use Rattle.pairtest_access.specs.Refused.{Because, IsStuck};
ghost use Rattle.affine_expr.specs.declared.faults.Fault.TheVariants.{OutOfMemory};
ghost use Rattle.deptest_verdict.specs.Sinks.{distances_of};
ghost use Rattle.deptest_verdict.specs.Refused.{IsNameOf, touch_of};
ghost use Rattle.deptest_verdict.specs.Telling.{HasSite, IsNamed, IsTouchedBy, IsPairVerdict};

use crate::pairs::Pair;
use affine_expr::Fault;
use deptest_witness::{Meeting, Touch, first_meeting};
use ktree::{Conflict, Declaration, NotShown, Refusal, Stmt, VarId};
use nest_loop::{Canonical, LoopFacts};
use pairtest_access::{Touched, access_at, inner_canonicals};
use pairtest_counter::EnclosingLoops;
use std::alloc::Global;

/// The name of a variable of file scope.
fn name_of(alloc: Global, variables: &[Declaration], variable: VarId) -> Result<String, Fault>
    ensures ok { IfOk result (λ name. IsNameOf (map declaration_of variables.now) variable.0
        (string_bytes name)) }
    ensures err { IfErr result (λ fault. fault ≡ OutOfMemory) }
{
    match variables.get(variable.0 as usize) {
        Some(declaration) => Ok(String::from_str(alloc, declaration.name.as_str())?),
        None => Ok(String::new(alloc)),
    }
}

/// A pair by its array's name and its places.
fn name_pair(alloc: Global, variables: &[Declaration], pair: Pair) -> Result<NotShown, Fault>
    ensures ok { IfOk result (λ told. IsNamed (map declaration_of variables.now) pair told) }
    ensures err { IfErr result (λ fault. fault ≡ OutOfMemory) }
{
    Ok(NotShown {
        array: name_of(alloc, variables, pair.array)?,
        first: pair.first_place,
        second: pair.second_place,
    })
}

/// What the access of a body that has so many before it touches.
fn touched_by(
    alloc: Global,
    chain: &mut EnclosingLoops,
    loops: &[LoopFacts],
    body: &Stmt,
    number: usize,
) -> Result<Touched, Fault>
    requires facts { StandFirst chain.old.box (stmt_of body.now) loops.now }
    requires there { HasSite chain.old (stmt_of body.now) number }
    ensures ok { IfOk result (λ found. IsTouchedBy chain.old (stmt_of body.now) number found) }
    ensures err { IfErr result (Because (IsStuck chain.old (stmt_of body.now))) }
    ensures back { OnOk result (chain.new ≡ chain.old) }
{
    match access_at(alloc, chain, loops, body, number)? {
        Some(found) => Ok(found),
        None => unreachable!(),
    }
}

/// The first two iterations at which two accesses touch one element, of a nest inside the first so many of these loops.
fn find_meeting(
    alloc: Global,
    loops: &[Canonical],
    outer: usize,
    x: &Touched,
    y: &Touched,
) -> Result<Option<Meeting>, Fault>
    ensures none { IfOk result (λ found. IfNone found
        ((at : NestAt) → IsEntered (take outer loops.now) (drop outer loops.now) at
        → IsSpace at.turns → NeverMeet (TouchesAt at (touch_of x.now))
        (TouchesAt at (touch_of y.now)))) }
    ensures some { IfOk result (λ found. IfSome found
        (λ m. (at : NestAt) × IsEntered (take outer loops.now) (drop outer loops.now) at
        × IsFirst (TouchesAt at (touch_of x.now)) (TouchesAt at (touch_of y.now)) m.earlier
        m.later m.indexes.items)) }
    ensures err { IfErr result (λ fault. fault ≡ OutOfMemory) }
{
    let (serial, nest) = loops.split_at(outer.min(loops.len()));
    let x = Touch {
        subscripts: x.subscripts.as_slice(),
        inner: x.inner.as_slice(),
    };
    let y = Touch {
        subscripts: y.subscripts.as_slice(),
        inner: y.inner.as_slice(),
    };
    Ok(first_meeting(alloc, serial, nest, &x, &y)?)
}

/// What is told of the first pair of a body's accesses that is not shown: two iterations that conflict, or that independence is not
/// shown, as always of a doacross nest, whose sinks may order those that touch one element. The loops of the chain stand round the
/// body, the first so many of them serial.
///
/// # Errors
///
/// `OutOfMemory`.
pub(crate) fn verdict_on(
    alloc: Global,
    chain: &mut EnclosingLoops,
    outer: usize,
    loops: &[LoopFacts],
    body: &Stmt,
    pair: Pair,
    sinks: &[Vec<i64>],
    variables: &[Declaration],
) -> Result<Refusal, Fault>
    requires facts { StandFirst chain.old.box (stmt_of body.now) loops.now }
    requires one { HasSite chain.old (stmt_of body.now) pair.first }
    requires other { HasSite chain.old (stmt_of body.now) pair.second }
    ensures ok { IfOk result (λ refusal. IsPairVerdict (map declaration_of variables.now) chain.old
        outer (distances_of sinks.now) (stmt_of body.now) pair refusal) }
    ensures err { IfErr result (Because (IsStuck chain.old (stmt_of body.now))) }
{
    let accesses = name_pair(alloc, variables, pair)?;
    let round = inner_canonicals(alloc, chain, 0)?;
    let x = touched_by(alloc, chain, loops, body, pair.first)?;
    let y = touched_by(alloc, chain, loops, body, pair.second)?;
    if !sinks.is_empty() {
        return Ok(Refusal::NotShown(accesses));
    }
    match find_meeting(alloc, round.as_slice(), outer, &x, &y)? {
        None => Ok(Refusal::NotShown(accesses)),
        Some(meeting) => Ok(Refusal::Conflict(Conflict {
            accesses,
            earlier: meeting.earlier,
            later: meeting.later,
            indexes: meeting.indexes,
        })),
    }
}
