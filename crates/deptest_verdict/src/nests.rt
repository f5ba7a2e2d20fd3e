//! The nests behind directive lines.

ghost use Rattle.std.specs.Prelude.{◌≡◌, OnOk, IfOk, IfErr, length, map};
ghost use Rattle.semantics.specs.Source.Text.{line_at};
ghost use Rattle.ktree.specs.View.{stmt_of, items_of, declaration_of};
ghost use Rattle.ktree.specs.declared.refusal.Refusal.TheVariants as refusals;
ghost use Rattle.nest_loop.specs.Facts.{StandFirst, StandFirstAmong, LoopStandsFirst};
ghost use Rattle.pairtest_access.specs.Walk.{EntersFirst};
ghost use Rattle.pairtest_access.specs.Found.{inner_loops};
ghost use Rattle.deptest_verdict.specs.Sinks.{distances_of, line_sinks};
ghost use Rattle.deptest_verdict.specs.Shown.{IsShownBody, IsShownNest, IsShownLoop, ShownFirst, LineShown};
ghost use Rattle.deptest_verdict.specs.Refused.{BodyRefused, NestRefused, LoopRefused, RefusedFirst, LineRefused};
ghost use Rattle.deptest_verdict.specs.Telling.{HasSite, OrMemory, PairRefused};

use crate::pairs::{Pair, first_pair, with_writes};
use crate::sinks::sinks_at;
use crate::telling::verdict_on;
use flow_doacross::DoacrossLoop;
use ktree::{Declaration, Head, Item, Place, Refusal, Stmt};
use nest::as_loop;
use nest_loop::LoopFacts;
use pairtest::Nest;
use pairtest_access::{accesses, enter_loop, inner_counts};
use pairtest_counter::EnclosingLoops;
use pragma::Directives;
use std::alloc::Global;

/// What a walk needs: the directive lines, the variables of file scope, and the doacross nests.
#[derive(Clone, Copy)]
pub(crate) struct Given<'k> {
    pub directives: &'k Directives<'k>,
    pub variables: &'k [Declaration],
    pub doacross: &'k [DoacrossLoop],
}

/// Goes into the loop of a head, whose facts stand first of some, and answers those behind its own.
pub(crate) fn enter<'n>(
    alloc: Global,
    chain: &mut EnclosingLoops,
    head: &Head,
    loops: &'n [LoopFacts],
) -> Result<&'n [LoopFacts], Refusal>
    requires { LoopStandsFirst chain.old.box head.now loops.now }
    ensures err { IfErr result (λ r. r ≡ refusals.OutOfMemory) }
    ensures ok { IfOk result
        (λ inner. EntersFirst chain.old chain.new head.now loops.now inner.now) }
{
    let inner = enter_loop(alloc, chain, head, loops)?;
    Ok(inner)
}

/// Refuses a body for a pair of its accesses.
fn pair_refused(
    alloc: Global,
    chain: &mut EnclosingLoops,
    outer: usize,
    loops: &[LoopFacts],
    body: &Stmt,
    pair: Pair,
    sinks: &[Vec<i64>],
    variables: &[Declaration],
) -> Refusal
    requires facts { StandFirst chain.old.box (stmt_of body.now) loops.now }
    requires one { HasSite chain.old (stmt_of body.now) pair.first }
    requires other { HasSite chain.old (stmt_of body.now) pair.second }
    ensures { OrMemory (PairRefused (map declaration_of variables.now) chain.old outer
        (distances_of sinks.now) (stmt_of body.now) pair) result }
{
    match verdict_on(alloc, chain, outer, loops, body, pair, sinks, variables) {
        Ok(refusal) => refusal,
        Err(fault) => Refusal::from(fault),
    }
}

/// Refuses a body with a pair of accesses that is neither independent nor ordered by one of these sinks; the first so many loops of
/// the chain round it are serial, with these greatest counts.
fn body_shown(
    alloc: Global,
    chain: &mut EnclosingLoops,
    outer: usize,
    serial: Vec<u64>,
    loops: &[LoopFacts],
    body: &Stmt,
    sinks: &[Vec<i64>],
    variables: &[Declaration],
) -> Result<(), Refusal>
    requires { StandFirst chain.old.box (stmt_of body.now) loops.now }
    ensures err { IfErr result
        (OrMemory (BodyRefused (map declaration_of variables.now) chain.old outer serial.items
        (distances_of sinks.now) (stmt_of body.now))) }
    ensures ok { OnOk result (IsShownBody chain.old outer serial.items (distances_of sinks.now)
        (stmt_of body.now)) }
    ensures back { OnOk result (chain.new ≡ chain.old) }
{
    let counts = inner_counts(alloc, chain, outer)?;
    let found = accesses(alloc, chain, loops, body)?;
    let found = with_writes(alloc, found)?;
    let nest = Nest {
        serial,
        loops: counts,
    };
    match first_pair(&found, &nest, sinks) {
        Ok(first) => match first {
            None => Ok(()),
            Some(pair) => Err(pair_refused(
                alloc, chain, outer, loops, body, pair, sinks, variables,
            )),
        },
        Err(large) => Err(Refusal::Limit(large.place)),
    }
}

/// Refuses a nest of so many loops more with such a body.
fn nest_shown(
    alloc: Global,
    chain: &mut EnclosingLoops,
    outer: usize,
    serial: Vec<u64>,
    depth: u64,
    loops: &[LoopFacts],
    statement: &Stmt,
    sinks: &[Vec<i64>],
    given: Given<'_>,
    line: Place,
) -> Result<(), Refusal>
    requires { StandFirst chain.old.box (stmt_of statement.now) loops.now }
    ensures err { IfErr result
        (OrMemory (NestRefused (map declaration_of given.entry.variables.now) chain.old outer
        serial.items (distances_of sinks.now) depth (stmt_of statement.now))) }
    ensures ok { OnOk result (IsShownNest chain.old outer serial.items (distances_of sinks.now)
        depth (stmt_of statement.now)) }
    ensures back { OnOk result (chain.new ≡ chain.old) }
{
    if depth == 0 {
        let variables = given.variables;
        return body_shown(
            alloc, chain, outer, serial, loops, statement, sinks, variables,
        );
    }
    let Some(level) = as_loop(statement) else {
        return Err(Refusal::NestNotPerfect(line));
    };
    let inner = enter(alloc, chain, level.head, loops)?;
    nest_shown(
        alloc,
        chain,
        outer,
        serial,
        depth - 1,
        inner,
        level.body,
        sinks,
        given,
        line,
    )?;
    chain.leave();
    Ok(())
}

/// Refuses a parallel loop of so many associated loops inside serial loops, if its iterations are not shown to be independent, or
/// ordered by these sinks.
fn loop_shown(
    alloc: Global,
    chain: &mut EnclosingLoops,
    depth: u64,
    loops: &[LoopFacts],
    statement: &Stmt,
    sinks: &[Vec<i64>],
    given: Given<'_>,
    line: Place,
) -> Result<(), Refusal>
    requires { StandFirst chain.old.box (stmt_of statement.now) loops.now }
    ensures err { IfErr result
        (OrMemory (LoopRefused (map declaration_of given.entry.variables.now) chain.old
        (distances_of sinks.now) depth (stmt_of statement.now))) }
    ensures ok { OnOk result (IsShownLoop chain.old (distances_of sinks.now) depth
        (stmt_of statement.now)) }
    ensures back { OnOk result (chain.new ≡ chain.old) }
{
    let outer = chain.levels().len();
    let serial = inner_counts(alloc, chain, 0)?;
    nest_shown(
        alloc, chain, outer, serial, depth, loops, statement, sinks, given, line,
    )
}

/// The same of the loop that stands first.
fn first_shown(
    alloc: Global,
    chain: &mut EnclosingLoops,
    depth: u64,
    loops: &[LoopFacts],
    items: &[Item],
    sinks: &[Vec<i64>],
    given: Given<'_>,
    line: Place,
) -> Result<(), Refusal>
    requires { StandFirstAmong chain.old.box (items_of items.now) loops.now }
    ensures err { IfErr result
        (OrMemory (RefusedFirst (map declaration_of given.entry.variables.now) chain.old
        (distances_of sinks.now) depth (items_of items.now))) }
    ensures ok { OnOk result (ShownFirst chain.old (distances_of sinks.now) depth
        (items_of items.now)) }
    ensures back { OnOk result (chain.new ≡ chain.old) }
{
    match items {
        [] => Err(Refusal::Directive(line)),
        [Item::Statement(statement), ..] => {
            loop_shown(alloc, chain, depth, loops, statement, sinks, given, line)
        }
        [Item::Directive(_), ..] => Err(Refusal::Directive(line)),
        [Item::Local(_), ..] => Err(Refusal::Directive(line)),
    }
}

/// The same of the loop behind the directive line at a place.
pub(crate) fn line_shown(
    alloc: Global,
    chain: &mut EnclosingLoops,
    place: Place,
    loops: &[LoopFacts],
    rest: &[Item],
    given: Given<'_>,
) -> Result<(), Refusal>
    requires { StandFirstAmong chain.old.box (items_of rest.now) loops.now }
    ensures err { IfErr result
        (OrMemory (LineRefused given.entry.directives.now
        (line_sinks given.entry.doacross.now)
        (map declaration_of given.entry.variables.now) chain.old place.line
        (items_of rest.now))) }
    ensures ok { OnOk result (LineShown given.entry.directives.now
        (line_sinks given.entry.doacross.now) chain.old place.line (items_of rest.now)) }
    ensures back { OnOk result (chain.new ≡ chain.old) }
{
    let line = given.directives.at(place)?;
    let depth = line.associated_loops();
    let sinks = sinks_at(given.doacross, place.line);
    first_shown(alloc, chain, depth, loops, rest, sinks, given, place)
}
