//! Nests at the end of kernels over the arrays `A` of 8 and `B` of 2 times 3 elements and the scalar `s`, lowered, and their chunks.

use crate::codes::{SMALL, kernel_of};
use affine::VarBox;
use ktree::limits::ASSOCIATED_LOOPS;
use ktree::{ChunkNo, Item, Kernel, Stmt};
use lower::{LoweredLoop, LoweredReduction, LoweredRoles, Spot};
use lower_block::{Compiled, compile};
use lower_code::{layout_of, mark_among, statement};
use lower_machine::Code;
use nest_loop::{Canonical, canonical_of};
use overlay::{Order, Piece, Start, Work, Worker};
use std::alloc::Global;

/// The registers' code of a statement of a kernel.
fn lowered_statement(alloc: Global, kernel: &Kernel, stmt: &Stmt) -> Option<Code> {
    let layout = layout_of(alloc, &kernel.variables).ok()?;
    statement(alloc, stmt, &layout).ok()
}

/// The code of a statement of a kernel.
fn code_of(alloc: Global, kernel: &Kernel, stmt: &Stmt) -> Option<Compiled> {
    let code = lowered_statement(alloc, kernel, stmt)?;
    compile(alloc, &code, mark_among(&kernel.body)).ok()
}

/// Puts down so many loops, one directly in the other, and answers what stands inside them.
fn put_loops<'k>(
    alloc: Global,
    stmt: &'k Stmt,
    depth: u64,
    bounds: &VarBox,
    loops: &mut Vec<Canonical>,
) -> Option<&'k Stmt> {
    if depth == 0 {
        return Some(stmt);
    }
    let Stmt::For(head, body) = stmt else {
        return None;
    };
    loops.push(canonical_of(alloc, head, bounds).ok()?).ok()?;
    put_loops(alloc, body, depth - 1, bounds, loops)
}

/// A nest of so many loops, with none round it, and with no variable that has a role.
fn nest_of(
    alloc: Global,
    kernel: &Kernel,
    stmt: &Stmt,
    depth: u64,
    bounds: &VarBox,
) -> Option<LoweredLoop> {
    let mut loops = Vec::new(alloc);
    let inner = put_loops(alloc, stmt, depth, bounds, &mut loops)?;
    if loops.len() > ASSOCIATED_LOOPS {
        return None;
    }
    let body = code_of(alloc, kernel, inner)?;
    Some(LoweredLoop {
        around: Vec::new(alloc),
        loops,
        body,
        schedule: None,
        roles: LoweredRoles {
            reductions: Vec::new(alloc),
            lasts: Vec::new(alloc),
        },
    })
}

/// A nest of so many loops inside one of eight turns.
fn inner_nest_of(alloc: Global, kernel: &Kernel, stmt: &Stmt, depth: u64) -> Option<LoweredLoop> {
    let Stmt::For(head, body) = stmt else {
        return None;
    };
    let mut bounds = VarBox::new(alloc);
    bounds.bind(head.variable, 0, 8, head.place).ok()?;
    let around = Vec::from_slice(alloc, &[head.variable]).ok()?;
    let mut lowered = nest_of(alloc, kernel, body, depth, &bounds)?;
    lowered.around = around;
    Some(lowered)
}

/// The nest of so many loops at the end of the kernel with these lines, where another loop stands round it or none.
pub(crate) fn lower_nest(
    alloc: Global,
    lines: &str,
    is_inner: bool,
    depth: u64,
) -> Option<LoweredLoop> {
    let kernel = kernel_of(alloc, SMALL, lines)?;
    let Some(Item::Statement(stmt)) = kernel.body.last() else {
        return None;
    };
    if is_inner {
        inner_nest_of(alloc, &kernel, stmt, depth)
    } else {
        nest_of(alloc, &kernel, stmt, depth, &VarBox::new(alloc))
    }
}

/// The loop at the end of the kernel with these lines, of whose variables some have roles.
pub(crate) fn loop_with_roles(
    alloc: Global,
    lines: &str,
    reductions: &[LoweredReduction],
    lasts: &[Spot],
) -> Option<LoweredLoop> {
    let reductions = Vec::from_slice(alloc, reductions).ok()?;
    let lasts = Vec::from_slice(alloc, lasts).ok()?;
    let mut lowered = lower_nest(alloc, lines, false, 1)?;
    lowered.roles = LoweredRoles { reductions, lasts };
    Some(lowered)
}

/// A chunk of so many iterations from a first one on.
pub(crate) fn work(first: u64, count: u64) -> Work {
    Work {
        chunk: ChunkNo(0),
        first,
        count,
    }
}

/// What a worker's chunk leaves, if the space has its iterations.
pub(crate) fn chunk(
    alloc: Global,
    lowered: &LoweredLoop,
    registers: &[u64],
    worker: &mut Worker<'_>,
    work: Work,
) -> Option<Piece> {
    let Ok(space) = lowered.space(alloc, registers) else {
        return None;
    };
    let end = work.first.checked_add(work.count)?;
    if end > space.count() {
        return None;
    }
    worker
        .run_chunk(
            alloc,
            lowered,
            registers,
            &space,
            Order::Sequential,
            work,
            Start::Reduction,
        )
        .ok()
}
