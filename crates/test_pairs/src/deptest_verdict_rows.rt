//! Which pair is told of a parallel loop, and which pass where it is a doacross nest.

ghost use Rattle.std.specs.Prelude.{IfOk, IfSome};
ghost use Rattle.ktree.specs.View.{kernel_of};
ghost use Rattle.nest.specs.Judged.{IsTableOf};
ghost use Rattle.deptest_verdict.specs.Pairs.{AreWrites};

use cparse::parse;
use deptest_verdict::*;
use flow_doacross::DoacrossLoop;
use ktree::{Kernel, Place, Refusal, VarId};
use nest::{LoopTable, nests};
use pairtest::{Access, Mode, Nest, Subscript};
use pragma::Directives;
use std::alloc::{AllocError, Global};

/// A parallel loop of one loop on line 2, and one of two.
const ONE: &[u8] = b"uint64_t A[64]; void kernel(void) {
#pragma omp parallel for ordered(1)
for (uint64_t i = 3; i < 64; i++)
A[i] = A[i - 2];
}
";

const TWO: &[u8] = b"uint64_t A[8][8]; void kernel(void) {
#pragma omp parallel for ordered(2)
for (uint64_t i = 1; i < 8; i++) for (uint64_t j = 1; j < 8; j++)
A[i][j] = A[i - 1][j] + A[i][j - 1];
}
";

/// The line of both.
const LINE: u32 = 2;

/// What is told of a text: the refusal's number, and in which column the second access of its pair stands; None where it passes.
type Told = Option<(u8, u32)>;

/// The number of a doacross nest's loops, and the distances of its sinks along the first two.
type Sinks<'a> = (usize, &'a [[i64; 2]]);

/// A text, the line of a doacross nest, its sinks, and what is told.
type Row<'a> = (&'a [u8], u32, Sinks<'a>, Told);

/// A distance along so many loops.
fn distance_of(alloc: Global, loops: usize, sink: [i64; 2]) -> Result<Vec<i64>, AllocError> {
    let [outer, inner] = sink;
    if loops == 1 {
        Vec::from_slice(alloc, &[outer])
    } else {
        Vec::from_slice(alloc, &[outer, inner])
    }
}

/// The sinks of these distances.
fn sinks_of(alloc: Global, sinks: Sinks<'_>) -> Result<Vec<Vec<i64>>, AllocError> {
    let (loops, sinks) = sinks;
    let mut distances = Vec::new(alloc);
    for sink in sinks {
        let distance = distance_of(alloc, loops, *sink)?;
        distances.push(distance)?;
    }
    Ok(distances)
}

/// A nest with these.
fn nest_of(alloc: Global, line: u32, sinks: Sinks<'_>) -> Result<DoacrossLoop, AllocError> {
    let distances = sinks_of(alloc, sinks)?;
    let line = Place { line, column: 1 };
    Ok(DoacrossLoop { line, distances })
}

/// What a refusal tells.
fn told_by(refusal: &Refusal) -> (u8, u32) {
    match refusal {
        Refusal::Conflict(conflict) => (19, conflict.accesses.second.column),
        Refusal::NotShown(accesses) => (20, accesses.second.column),
        _ => (refusal.number(), 0),
    }
}

/// What is told of a kernel, of whose loops this one is a doacross nest.
fn told_in(
    alloc: Global,
    kernel: &Kernel,
    directives: &Directives,
    table: &LoopTable,
    row: Row<'_>,
) -> Option<Told>
    requires { IsTableOf (kernel_of kernel.now) table.now }
{
    let doacross = [nest_of(alloc, row.1, row.2).ok()?];
    match judge(alloc, kernel, directives, table, &doacross) {
        Ok(()) => Some(None),
        Err(refusal) => Some(Some(told_by(&refusal))),
    }
}

/// The table of a kernel's loops.
fn table_of(alloc: Global, kernel: &Kernel, directives: &Directives) -> Option<LoopTable>
    ensures { IfSome result (IsTableOf (kernel_of kernel.now)) }
{
    nests(alloc, kernel, directives).ok()
}

/// What is told of a kernel with the directive lines of its text.
fn told_with(alloc: Global, kernel: &Kernel, row: Row<'_>) -> Option<Told> {
    let directives = Directives::read(alloc, row.0).ok()?;
    let table = table_of(alloc, kernel, &directives)?;
    told_in(alloc, kernel, &directives, &table, row)
}

/// What is told of a row's text.
fn told_of(alloc: Global, row: Row<'_>) -> Option<Told> {
    match parse(alloc, row.0) {
        Ok(kernel) => told_with(alloc, &kernel, row),
        Err(_refusal) => None,
    }
}

/// The first of some rows of which something else is told.
fn first_other(alloc: Global, rows: &[Row<'_>]) -> Option<usize> {
    for (i, row) in rows.iter().enumerate() {
        if told_of(alloc, *row) != Some(row.3) {
            return Some(i);
        }
    }
    None
}

#[test]
fn pairs_that_a_sink_orders_pass(rt: HostRuntime) {
    let rows: [Row<'_>; 12] = [
        // some steps of a sink lead from one iteration to the other
        (ONE, LINE, (1, &[[2, 0]]), None),
        (ONE, LINE, (1, &[[1, 0]]), None),
        (ONE, LINE, (1, &[[3, 0], [1, 0]]), None),
        // none do
        (ONE, LINE, (1, &[[3, 0]]), Some((20, 8))),
        (ONE, LINE, (1, &[[4, 0], [0, 0]]), Some((20, 8))),
        (ONE, LINE, (2, &[[1, 0]]), Some((20, 8))),
        // a loop without sinks, and sinks of another line
        (ONE, LINE, (1, &[]), Some((19, 8))),
        (ONE, 3, (1, &[[2, 0]]), Some((19, 8))),
        // both pairs are ordered, or one of them
        (TWO, LINE, (2, &[[1, 0], [0, 1]]), None),
        (TWO, LINE, (2, &[[1, 0]]), Some((20, 25))),
        (TWO, LINE, (2, &[[0, 1]]), Some((20, 11))),
        (TWO, LINE, (2, &[]), Some((19, 11))),
    ];
    assert_eq!(rt; first_other(rt.alloc(), &rows), None);
}

/// An access to the element that is so far above the counter of the one loop round it.
fn access(alloc: Global, mode: Mode, constant: i64) -> Result<Access, AllocError> {
    let coefficients = Vec::from_slice(alloc, &[1])?;
    let subscripts = vec![in alloc;
        Subscript {
            constant,
            coefficients
        },
    ]?;
    Ok(Access {
        array: VarId(0),
        mode,
        place: Place { line: 1, column: 1 },
        is_counted: true,
        subscripts,
        inner: Vec::new(alloc),
    })
}

/// A write of the element at the counter, and a read of one two before.
fn two_apart(alloc: Global) -> Result<Accesses, AllocError>
    ensures { IfOk result (λ found. AreWrites found.all.items found.writes.items) }
{
    let write = access(alloc, Mode::Writes, 0)?;
    let read = access(alloc, Mode::Reads, -2)?;
    let all = vec![in alloc; write, read]?;
    with_writes(alloc, all)
}

/// A pair by the numbers of its accesses.
type Numbers = (usize, usize);

/// The first pair of some accesses that is not shown, if there is one.
fn first_of(accesses: &Accesses, nest: &Nest, sinks: &[Vec<i64>]) -> Option<Option<Numbers>>
    requires { AreWrites accesses.now.all.items accesses.now.writes.items }
{
    match first_pair(accesses, nest, sinks) {
        Ok(found) => Some(found.map(|pair| (pair.first, pair.second))),
        Err(_large) => None,
    }
}

/// That of those two in a loop with sinks of these distances.
fn first_with(alloc: Global, sinks: &[[i64; 2]]) -> Option<Option<Numbers>> {
    let sinks = sinks_of(alloc, (1, sinks)).ok()?;
    let nest = Nest {
        serial: Vec::new(alloc),
        loops: Vec::from_slice(alloc, &[8]).ok()?,
    };
    let accesses = two_apart(alloc).ok()?;
    first_of(&accesses, &nest, sinks.as_slice())
}

#[test]
fn first_pair_that_no_sink_orders(rt: HostRuntime) {
    let alloc = rt.alloc();
    let told = [
        first_with(alloc, &[[1, 0]]),
        first_with(alloc, &[[-2, 0]]),
        first_with(alloc, &[[3, 0]]),
        first_with(alloc, &[]),
    ];
    let wanted = [
        Some(None),
        Some(None),
        Some(Some((0, 1))),
        Some(Some((0, 1))),
    ];
    assert!(rt; told == wanted);
}
