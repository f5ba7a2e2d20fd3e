//! The accesses of bodies, and what is told of one.

ghost use Rattle.std.specs.Prelude.{[], IfSome};
ghost use Rattle.ktree.specs.View.{stmt_of, kernel_of};
ghost use Rattle.nest_loop.specs.Facts.{StandFirst};
ghost use Rattle.nest.specs.Judged.{IsTableOf};

use cparse::parse;
use ktree::{Item, Kernel, Stmt, VarId};
use nest::{LoopTable, nests};
use nest_loop::LoopFacts;
use pairtest::{Access, Mode};
use pairtest_access::*;
use pairtest_counter::EnclosingLoops;
use pragma::Directives;
use std::alloc::Global;

/// A loop with `i` from 3 on, by two: `i` is 3 more than twice the steps.
const TEXT: &[u8] = b"uint64_t A[64];
uint64_t B[16][8];
void kernel(void) {
for (uint64_t i = 3; i < 9; i += 2) {
uint64_t x = A[i];
if (A[1]) x = 1; else for (uint64_t j = 0; j < 6; j++) A[2 * i] = A[2 * i + 1] + B[i][j];
}
}
";

/// The array of one dimension.
const A: VarId = VarId(0);

/// The array of two.
const B: VarId = VarId(1);

/// The variable of the loop round the body.
const I: VarId = VarId(2);

/// The accesses of the body of a loop whose facts stand first.
fn listed_in(alloc: Global, loops: &[LoopFacts], statement: &Stmt) -> Option<Vec<Access>>
    requires { StandFirst [] (stmt_of statement.now) loops.now }
{
    let Stmt::For(head, body) = statement else {
        return None;
    };
    let mut chain = EnclosingLoops::new(alloc);
    let inner = enter_loop(alloc, &mut chain, head, loops).ok()?;
    accesses(alloc, &mut chain, inner, body).ok()
}

/// Those of the loop that a kernel begins with.
fn listed_by(alloc: Global, kernel: &Kernel, table: &LoopTable) -> Option<Vec<Access>>
    requires { IsTableOf (kernel_of kernel.now) table.now }
{
    let [Item::Statement(statement), ..] = kernel.body.as_slice() else {
        return None;
    };
    listed_in(alloc, table.loops.as_slice(), statement)
}

/// The table of a kernel's loops.
fn table_of(alloc: Global, kernel: &Kernel) -> Option<LoopTable>
    ensures { IfSome result (IsTableOf (kernel_of kernel.now)) }
{
    let directives = Directives::read(alloc, TEXT).ok()?;
    nests(alloc, kernel, &directives).ok()
}

/// The same with the table of the kernel's loops.
fn listed_of(alloc: Global, kernel: &Kernel) -> Option<Vec<Access>> {
    let table = table_of(alloc, kernel)?;
    listed_by(alloc, kernel, &table)
}

/// The accesses of the body of that kernel's loop.
fn accesses_of_text(alloc: Global) -> Option<Vec<Access>> {
    match parse(alloc, TEXT) {
        Ok(kernel) => listed_of(alloc, &kernel),
        Err(_refusal) => None,
    }
}

/// An access: its array, what it does, its first subscript's constant and coefficients, and the greatest counts of the body's own
/// loops.
type Row<'a> = (VarId, Mode, i64, &'a [i64], &'a [u64]);

/// Whether an access is this one.
fn is_access(access: &Access, row: Row<'_>) -> bool {
    let (array, mode, constant, coefficients, inner) = row;
    let Some(subscript) = access.subscripts.first() else {
        return false;
    };
    access.array == array
        && access.mode == mode
        && subscript.constant == constant
        && subscript.coefficients.as_slice() == coefficients
        && access.inner.as_slice() == inner
}

/// Whether the accesses of that body are these, in order.
fn are_accesses(alloc: Global, rows: &[Row<'_>]) -> bool {
    let Some(found) = accesses_of_text(alloc) else {
        return false;
    };
    if found.len() != rows.len() {
        return false;
    }
    for (access, row) in found.iter().zip(rows) {
        if !is_access(access, *row) {
            return false;
        }
    }
    true
}

#[test]
fn accesses_in_order_of_place(rt: HostRuntime) {
    let alloc = rt.alloc();
    let rows: [Row<'_>; 5] = [
        (A, Mode::Reads, 3, &[2], &[]),
        (A, Mode::Reads, 1, &[0], &[]),
        (A, Mode::Writes, 6, &[4, 0], &[6]),
        (A, Mode::Reads, 7, &[4, 0], &[6]),
        (B, Mode::Reads, 3, &[2, 0], &[6]),
    ];
    assert!(rt; are_accesses(alloc, &rows));
}

/// What is told of an access: its first subscript's constant and its coefficient of `i`, and how many loops of the body there are.
type Told = (i64, i64, usize);

/// What is told of an access.
fn told_of(told: &Touched) -> Option<Told> {
    let form = told.subscripts.first()?;
    Some((form.constant_term(), form.coefficient(I), told.inner.len()))
}

/// What is told of an access, where there is one.
fn told_if(found: &Option<Touched>) -> Option<Told> {
    match found {
        Some(told) => told_of(told),
        None => None,
    }
}

/// What is told of the access with so many before it of the body of a loop whose facts stand first, where it has one; None
/// where that is refused.
fn told_in(
    alloc: Global,
    loops: &[LoopFacts],
    statement: &Stmt,
    number: usize,
) -> Option<Option<Told>>
    requires { StandFirst [] (stmt_of statement.now) loops.now }
{
    let Stmt::For(head, body) = statement else {
        return None;
    };
    let mut chain = EnclosingLoops::new(alloc);
    let inner = enter_loop(alloc, &mut chain, head, loops).ok()?;
    match access_at(alloc, &mut chain, inner, body, number) {
        Ok(found) => Some(told_if(&found)),
        Err(_) => None,
    }
}

/// The same of the loop that a kernel begins with.
fn told_by(alloc: Global, kernel: &Kernel, table: &LoopTable, number: usize) -> Option<Option<Told>>
    requires { IsTableOf (kernel_of kernel.now) table.now }
{
    let [Item::Statement(statement), ..] = kernel.body.as_slice() else {
        return None;
    };
    told_in(alloc, table.loops.as_slice(), statement, number)
}

/// The same with the table of the kernel's loops.
fn told_in_kernel(alloc: Global, kernel: &Kernel, number: usize) -> Option<Option<Told>> {
    let table = table_of(alloc, kernel)?;
    told_by(alloc, kernel, &table, number)
}

/// The same of that kernel's loop.
fn told_of_access(alloc: Global, number: usize) -> Option<Option<Told>> {
    match parse(alloc, TEXT) {
        Ok(kernel) => told_in_kernel(alloc, &kernel, number),
        Err(_refusal) => None,
    }
}

/// Whether this is told of the access of that loop with so many before it, where it has one.
fn is_told(alloc: Global, number: usize, wanted: Option<Told>) -> bool {
    told_of_access(alloc, number) == Some(wanted)
}

#[test]
fn one_access_in_the_variables(rt: HostRuntime) {
    let alloc = rt.alloc();
    assert!(rt; is_told(alloc, 0, Some((0, 1, 0))));
    assert!(rt; is_told(alloc, 3, Some((1, 2, 1))));
    assert!(rt; is_told(alloc, 5, None));
}
