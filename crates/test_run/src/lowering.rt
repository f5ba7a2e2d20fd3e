//! Loops of texts over an array `A`, an array `B` of 2 times 3 elements and a scalar `s`, lowered, and what they leave of such variables.

use crate::stores::shape;
use affine::VarBox;
use cparse::parse;
use ktree::limits::ASSOCIATED_LOOPS;
use ktree::{Item, Kernel, Place, Schedule, Stmt, Workers};
use lower::{LoweredLoop, LoweredRoles};
use lower_block::{Compiled, compile};
use lower_code::{layout_of, mark_among, statement};
use lower_machine::Code;
use nest::{Nest, as_loop};
use schedule::Sched;
use seqrun_io::Memory;
use std::alloc::{AllocError, Global};
use std::sync::Wait;
use std::thread::Threads;
use store::Store;
use team::{Gate, run_loop};

/// A text's last statement as a team gets it: how many elements `A` has, the text's lines, how many loops the nest has, and at which
/// turn the loop round it is, if there is one.
#[derive(Clone, Copy)]
pub(crate) struct Site<'t> {
    pub(crate) length: u64,
    pub(crate) lines: &'t str,
    pub(crate) depth: u64,
    pub(crate) turn: Option<u64>,
}

/// A block's last statement.
fn last_statement(items: &[Item]) -> Option<&Stmt> {
    match items.last() {
        Some(Item::Statement(stmt)) => Some(stmt),
        _ => None,
    }
}

/// What stands inside so many loops, one directly in the other.
fn body_of(depth: u64, stmt: &Stmt) -> Option<&Stmt> {
    if depth == 0 {
        return Some(stmt);
    }
    let level = as_loop(stmt)?;
    body_of(depth - 1, level.body)
}

/// The registers' code of a statement of a kernel.
fn lowered_statement(alloc: Global, kernel: &Kernel, stmt: &Stmt) -> Option<Code> {
    let layout = layout_of(alloc, &kernel.variables).ok()?;
    statement(alloc, stmt, &layout).ok()
}

/// The code of a statement of a kernel.
fn code_of(alloc: Global, kernel: &Kernel, stmt: &Stmt) -> Option<Compiled> {
    let code = lowered_statement(alloc, kernel, stmt)?;
    compile(alloc, &code, mark_among(&kernel.body)).ok()
}

/// A nest of so many loops, with none round it yet.
fn nest_of(
    alloc: Global,
    kernel: &Kernel,
    stmt: &Stmt,
    depth: u64,
    bounds: &VarBox,
) -> Option<LoweredLoop> {
    let body = code_of(alloc, kernel, body_of(depth, stmt)?)?;
    match Nest::new(alloc, depth, stmt, bounds, Place { line: 1, column: 1 }) {
        Ok(nest) if nest.loops.len() <= ASSOCIATED_LOOPS => Some(LoweredLoop {
            around: Vec::new(alloc),
            loops: nest.loops,
            body,
            schedule: None,
            roles: LoweredRoles {
                reductions: Vec::new(alloc),
                lasts: Vec::new(alloc),
            },
        }),
        Ok(_) | Err(_) => None,
    }
}

/// The nest inside a loop of eight turns.
fn inside_of(alloc: Global, kernel: &Kernel, stmt: &Stmt, depth: u64) -> Option<LoweredLoop> {
    let Stmt::For(head, body) = stmt else {
        return None;
    };
    let mut bounds = VarBox::new(alloc);
    bounds.bind(head.variable, 0, 7, head.place).ok()?;
    let mut lowered = nest_of(alloc, kernel, body, depth, &bounds)?;
    lowered.around.push(head.variable).ok()?;
    Some(lowered)
}

/// The nest with no loop round it.
fn alone_of(alloc: Global, kernel: &Kernel, stmt: &Stmt, depth: u64) -> Option<LoweredLoop> {
    let bounds = VarBox::new(alloc);
    nest_of(alloc, kernel, stmt, depth, &bounds)
}

/// The nest at a kernel's end.
fn lowered_of(alloc: Global, kernel: &Kernel, site: Site) -> Option<LoweredLoop> {
    let stmt = last_statement(&kernel.body)?;
    if site.turn.is_some() {
        inside_of(alloc, kernel, stmt, site.depth)
    } else {
        alone_of(alloc, kernel, stmt, site.depth)
    }
}

/// The nest at the end of the kernel of a text.
fn lowered_in(alloc: Global, text: &[u8], site: Site) -> Option<LoweredLoop> {
    match parse(alloc, text) {
        Ok(kernel) => lowered_of(alloc, &kernel, site),
        Err(_refusal) => None,
    }
}

/// The nest at the end of a text.
fn lowered_at(alloc: Global, site: Site) -> Option<LoweredLoop> {
    let (length, lines) = (site.length, site.lines);
    match format!(in alloc;
        "#include <inttypes.h>\n#include <stdint.h>\n#include <stdio.h>\nuint64_t A[{length}]; uint64_t B[2][3]; uint64_t s; void kernel(void) {{\n{lines}\n}}\n"
    ) {
        Ok(text) => lowered_in(alloc, text.as_bytes(), site),
        Err(_error) => None,
    }
}

/// The nest at a text's end, behind such a clause.
pub(crate) fn lower_nest(
    alloc: Global,
    site: Site,
    schedule: Option<Schedule>,
) -> Option<LoweredLoop> {
    let mut lowered = lowered_at(alloc, site)?;
    lowered.schedule = schedule;
    Some(lowered)
}

/// The variables, each element 0.
fn zeros(alloc: Global, length: u64) -> Result<Store, AllocError> {
    let mut shapes = Vec::new(alloc);
    shapes.push(shape(alloc, &[length], length)?)?;
    shapes.push(shape(alloc, &[2, 3], 6)?)?;
    shapes.push(shape(alloc, &[], 1)?)?;
    Store::zeros(alloc, shapes)
}

/// The variables, each element of `A` 1 and all else 0.
pub(crate) fn variables(alloc: Global, length: u64) -> Result<Store, AllocError> {
    let mut store = zeros(alloc, length)?;
    for place in 0..length {
        store.put(place, 1);
    }
    Ok(store)
}

/// Whether a loop that prints nothing is run on a store by these workers.
fn is_run<R: Threads + Wait + Sync, G: Gate + Sync>(
    rt: &R,
    alloc: Global,
    lowered: &LoweredLoop,
    turn: u64,
    store: &mut Store,
    workers: Workers,
    runtime: Sched,
    gate: &G,
) -> bool {
    match Vec::from_elem(alloc, turn, 8) {
        Ok(mut registers) => {
            let registers = registers.as_mut_slice();
            let mut text = Memory::new(alloc);
            run_loop(
                rt, alloc, lowered, registers, store, workers, runtime, gate, &mut text,
            )
            .is_ok()
                && text.bytes().is_empty()
        }
        Err(_error) => false,
    }
}

/// What a loop leaves of these variables, run by so many workers, where this schedule stands for `runtime`.
pub(crate) fn left_by<R: Threads + Wait + Sync, G: Gate + Sync>(
    rt: &R,
    alloc: Global,
    lowered: &LoweredLoop,
    site: Site,
    count: u64,
    runtime: Sched,
    gate: &G,
) -> Option<Store> {
    let workers = Workers::new(count)?;
    let turn = site.turn.unwrap_or(0);
    let mut store = variables(alloc, site.length).ok()?;
    if is_run(rt, alloc, lowered, turn, &mut store, workers, runtime, gate) {
        Some(store)
    } else {
        None
    }
}
