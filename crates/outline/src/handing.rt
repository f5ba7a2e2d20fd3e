//! Which statements are handed to a team.

ghost use Rattle.flow_reduction.specs.Reduced.{reduced};
ghost use Rattle.std.specs.Prelude.{◌≡◌, ◌≤◌, ◌^◌, false, [], length, IfOk, IfErr, IfSome};
ghost use Rattle.nest.specs.Perfect.{NestHas, AreRectangular, IsRightNest};
ghost use Rattle.flow.specs.declared.environment.ParallelLoop.{ParallelLoop as ParallelLoops};
ghost use Rattle.pragma.specs.Parallel.{associated};
ghost use Rattle.outline.specs.Accepted.{IsPlacedNest, StandsAt, HasNest, IsLoopOf};
ghost use Rattle.ktree.specs.View.{stmt_of, items_of};
ghost use Rattle.ktree.specs.declared.refusal.Refusal.TheVariants.{OutOfMemory};
ghost use Rattle.outline.specs.Handed.{ListsLocals, IsBodyOf, IsBodyCode, AreItemsCode, IsLowered, IsInputIn, IsWay, IsHanded, inside_told};
ghost use Rattle.outline.specs.Waved.{IsFixedInWaves};

use crate::compiling::{Target, compile_items, compile_statement};
use crate::grain::is_run_alone;
use crate::scanning::{carries_one, input_among, scan_at};
use crate::shape::{TeamLoop, Way};
use crate::spots::lower_roles;
use crate::waving::{nest_at, waves_of};
use affine::VarBox;
use flow::{LoopRoles, ParallelLoop};
use flow_doacross::DoacrossLoop;
use flow_scan::ScanLoop;
use ktree::{Item, Place, Refusal, Stmt, VarId};
use lower::LoweredLoop;
use lower_block::Compiled;
use nest::{Nest, as_loop};
use nest_loop::Canonical;
use pragma::ParallelFor;
use std::alloc::{AllocError, Global};

/// What is kept of a text's directive lines: its parallel loops, those of its scans, and its doacross nests.
#[derive(Clone, Copy)]
pub struct Loops<'l> {
    pub parallel: &'l [ParallelLoop],
    pub scans: &'l [ScanLoop],
    pub nests: &'l [DoacrossLoop],
}

// The parallel loop behind the directive line of this number.
fn loop_at(loops: &[ParallelLoop], line: u32) -> &ParallelLoop
    requires { (parallel : ParallelLoops) × StandsAt loops.now line parallel }
    ensures { StandsAt loops.now line result.now }
{
    for parallel in loops {
        if parallel.line.line == line {
            return parallel;
        }
    }
    unreachable!()
}

// How many loops a directive associates (OpenMP 5.2, 4.4.3 and 4.4.4).
fn depth_of(directive: ParallelFor) -> u64
    ensures value { result ≡ associated directive.collapse }
    ensures few { result ≤ 4 }
{
    match directive.collapse {
        None => 1,
        Some(collapse) => collapse.get(),
    }
}

// The body of so many loops, one directly in the other.
fn body_of(depth: u64, stmt: &Stmt) -> &Stmt
    requires { HasNest depth (stmt_of stmt.now) }
    ensures { IsBodyOf depth (stmt_of stmt.now) (stmt_of result.now) }
{
    if depth == 0 {
        return stmt;
    }
    let Some(level) = as_loop(stmt) else {
        unreachable!()
    };
    body_of(depth - 1, level.body)
}

// The loops of a nest in their canonical form.
fn canonical_loops(
    alloc: Global,
    depth: u64,
    stmt: &Stmt,
    bounds: &VarBox,
    directive: Place,
) -> Result<Vec<Canonical>, Refusal>
    requires nest { IsRightNest bounds.now depth (stmt_of stmt.now) }
    requires few { depth ≤ 4 }
    ensures ok { IfOk result (λ loops. NestHas
        (λ hs. AreRectangular bounds.now hs loops.items) depth (stmt_of stmt.now)) }
    ensures few { IfOk result (λ loops. length loops.items ≤ 4) }
    ensures refusal { IfErr result (λ refusal. refusal ≡ OutOfMemory) }
{
    let nest = Nest::new(alloc, depth, stmt, bounds, directive)?;
    Ok(nest.loops)
}

// The variables of a box that have registers.
fn variables_of(alloc: Global, bounds: &VarBox, registers: u64) -> Result<Vec<VarId>, AllocError>
    requires { registers ≤ 2 ^ 32 }
    ensures { IfOk result (λ variables. ListsLocals registers bounds.now variables.items) }
{
    let mut variables = Vec::new(alloc);
    for number in 0..registers {
        let variable = VarId(number as u32);
        if bounds.has(variable) {
            variables.push(variable)?;
        }
    }
    Ok(variables)
}

// The code of a nest's body.
fn compile_body(
    alloc: Global,
    depth: u64,
    stmt: &Stmt,
    target: Target<'_>,
) -> Result<Compiled, Refusal>
    requires { HasNest depth (stmt_of stmt.now) }
    ensures ok { IfOk result
        (IsBodyCode target.entry.layout.now target.entry.registers depth (stmt_of stmt.now)) }
    ensures refusal { IfErr result (λ refusal. refusal ≡ OutOfMemory) }
{
    compile_statement(alloc, body_of(depth, stmt), target)
}

// What the nest of a parallel loop is lowered to, inside the loops of a box, with this code for its body.
fn lower(
    alloc: Global,
    body: Compiled,
    depth: u64,
    stmt: &Stmt,
    parallel: &ParallelLoop,
    target: Target<'_>,
    bounds: &VarBox,
) -> Result<LoweredLoop, Refusal>
    requires { IsPlacedNest target.layout.now target.registers bounds.now depth
        (stmt_of stmt.now) }
    ensures lowered { IfOk result
        (IsLowered target.entry.layout.now target.entry.registers bounds.now depth
        (stmt_of stmt.now) parallel.now.roles) }
    ensures body { IfOk result (λ l. l.body ≡ body) }
    ensures schedule { IfOk result (λ l. l.schedule ≡ parallel.now.directive.schedule) }
    ensures refusal { IfErr result (λ refusal. refusal ≡ OutOfMemory) }
{
    let schedule = parallel.directive.schedule;
    let loops = canonical_loops(alloc, depth, stmt, bounds, parallel.line)?;
    let around = variables_of(alloc, bounds, target.registers)?;
    let roles = lower_roles(alloc, &parallel.roles, stmt, target)?;
    Ok(LoweredLoop {
        around,
        loops,
        body,
        schedule,
        roles,
    })
}

// The same with the code of its own body.
fn lower_whole(
    alloc: Global,
    depth: u64,
    stmt: &Stmt,
    parallel: &ParallelLoop,
    target: Target<'_>,
    bounds: &VarBox,
) -> Result<LoweredLoop, Refusal>
    requires { IsPlacedNest target.layout.now target.registers bounds.now depth
        (stmt_of stmt.now) }
    ensures lowered { IfOk result
        (IsLowered target.entry.layout.now target.entry.registers bounds.now depth
        (stmt_of stmt.now) parallel.now.roles) }
    ensures body { IfOk result (λ l. IsBodyCode target.entry.layout.now target.entry.registers depth
        (stmt_of stmt.now) l.body) }
    ensures schedule { IfOk result (λ l. l.schedule ≡ parallel.now.directive.schedule) }
    ensures refusal { IfErr result (λ refusal. refusal ≡ OutOfMemory) }
{
    let body = compile_body(alloc, depth, stmt, target)?;
    lower(alloc, body, depth, stmt, parallel, target, bounds)
}

// The same with the code of these items in place of its body.
fn lower_part(
    alloc: Global,
    part: &[Item],
    depth: u64,
    stmt: &Stmt,
    parallel: &ParallelLoop,
    target: Target<'_>,
    bounds: &VarBox,
) -> Result<LoweredLoop, Refusal>
    requires { IsPlacedNest target.layout.now target.registers bounds.now depth
        (stmt_of stmt.now) }
    ensures lowered { IfOk result
        (IsLowered target.entry.layout.now target.entry.registers bounds.now depth
        (stmt_of stmt.now) parallel.now.roles) }
    ensures body { IfOk result (λ l. AreItemsCode target.entry.layout.now target.entry.registers
        (items_of part.now) l.body) }
    ensures refusal { IfErr result (λ refusal. refusal ≡ OutOfMemory) }
{
    let body = compile_items(alloc, part, target)?;
    lower(alloc, body, depth, stmt, parallel, target, bounds)
}

// Whether a loop carries a variable from one iteration to the next (OpenMP 5.2, 5.6).
fn carries(kept: &LoopRoles) -> bool
    ensures { result ≡ false → reduced kept.now.carried.items ≡ [] }
{
    match kept.carried.as_slice() {
        [] => false,
        _ => true,
    }
}

// The items in the input phase of a nest's body; None where that is no block without directive lines, with so many items in front.
fn input_of<'s>(depth: u64, stmt: &'s Stmt, scan: &ScanLoop) -> Option<&'s [Item]>
    requires { HasNest depth (stmt_of stmt.now) }
    ensures { IfSome result (λ part. IsInputIn scan.now.inclusive scan.now.front depth
        (stmt_of stmt.now)
        (items_of part.now)) }
{
    input_among(body_of(depth, stmt), scan)
}

// The way in which the nest of a parallel loop may be run, which is lowered to this.
fn way_of(
    alloc: Global,
    loops: Loops<'_>,
    parallel: &ParallelLoop,
    depth: u64,
    stmt: &Stmt,
    target: Target<'_>,
    bounds: &VarBox,
    lowered: &LoweredLoop,
) -> Result<Way, Refusal>
    requires { IsPlacedNest target.layout.now target.registers bounds.now depth
        (stmt_of stmt.now) }
    ensures way { IfOk result
        (IsWay target.entry.layout.now target.entry.registers bounds.now (inside_told loops.entry)
        parallel.now.line.line depth (stmt_of stmt.now) parallel.now.roles) }
    ensures fixed { IfOk result (IsFixedInWaves lowered.now) }
    ensures refusal { IfErr result (λ refusal. refusal ≡ OutOfMemory) }
{
    if let Some(nest) = nest_at(loops.nests, parallel.line.line) {
        if is_run_alone(alloc, &nest.distances, lowered) {
            return Ok(Way::Alone);
        }
        return waves_of(alloc, depth, &nest.distances, lowered);
    }
    if !carries(&parallel.roles) {
        return Ok(Way::Chunks);
    }
    if !carries_one(&parallel.roles, stmt) {
        return Ok(Way::Alone);
    }
    let Some(scan) = scan_at(loops.scans, parallel.line.line) else {
        return Ok(Way::Alone);
    };
    let Some(part) = input_of(depth, stmt, scan) else {
        return Ok(Way::Alone);
    };
    let first = lower_part(alloc, part, depth, stmt, parallel, target, bounds)?;
    Ok(Way::Scan(first))
}

// The loop that a team runs for the statement behind the directive line at this place, inside the loops of a box.
//
// # Errors
//
// Where memory runs out.
pub(crate) fn loop_for_team<'k>(
    alloc: Global,
    loops: Loops<'_>,
    directive: Place,
    stmt: &'k Stmt,
    target: Target<'_>,
    bounds: &VarBox,
) -> Result<TeamLoop<'k>, Refusal>
    requires { IsLoopOf target.layout.now target.registers loops.parallel.now bounds.now
        directive.line (stmt_of stmt.now) }
    ensures handed { IfOk result
        (IsHanded target.entry.layout.now target.entry.registers bounds.now loops.entry directive
        (stmt_of stmt.now)) }
    ensures refusal { IfErr result (λ refusal. refusal ≡ OutOfMemory) }
{
    let parallel = loop_at(loops.parallel, directive.line);
    let depth = depth_of(parallel.directive);
    let code = compile_statement(alloc, stmt, target)?;
    let lowered = lower_whole(alloc, depth, stmt, parallel, target, bounds)?;
    let way = way_of(
        alloc, loops, parallel, depth, stmt, target, bounds, &lowered,
    )?;
    Ok(TeamLoop {
        statement: stmt,
        line: directive.line,
        depth,
        way,
        lowered,
        code,
    })
}
