//! Loops of one chunk with reduction and lastprivate variables, and what a team leaves of them; the values are counted by hand, by OpenMP 5.2,
//! 5.4.5 and 5.5.

use crate::lowering::{Site, lower_nest, variables};
use ktree::{ReductionOperator, VarId, Workers};
use lower::{LoweredLoop, LoweredReduction, Spot};
use schedule::Sched;
use seqrun_io::Memory;
use std::alloc::Global;
use std::sync::Wait;
use std::thread::Threads;
use store::Store;
use team::{OpenGate, run_loop};

/// The scalar `s` behind the elements of `A` and `B`, and the first two locals of a kernel.
const SCALAR: Spot = Spot::Cell(14);

const FIRST: Spot = Spot::Register(VarId(3));

const SECOND: Spot = Spot::Register(VarId(4));

/// A loop's lines, what is summed up, what is lastprivate, and what it leaves in `A`, `B` and `s` and in eight registers.
type Row<'t> = (&'t str, &'t [Spot], Spot, [u64; 15], [u64; 8]);

/// Adds a sum at each of these places.
fn add_sums(reductions: &mut Vec<LoweredReduction>, sums: &[Spot]) -> Option<()> {
    for spot in sums {
        let sum = LoweredReduction {
            operator: ReductionOperator::Sum,
            spot: *spot,
        };
        reductions.push(sum).ok()?;
    }
    Some(())
}

/// The loop of a row.
fn loop_of(alloc: Global, row: &Row) -> Option<LoweredLoop> {
    let (lines, sums, last, _cells, _registers) = row;
    let site = Site {
        length: 8,
        lines: *lines,
        depth: 1,
        turn: None,
    };
    let mut lowered = lower_nest(alloc, site, None)?;
    add_sums(&mut lowered.roles.reductions, *sums)?;
    lowered.roles.lasts.push(*last).ok()?;
    Some(lowered)
}

/// How a loop ends: with what its row says, refused with all as before, or otherwise.
#[derive(Clone, Copy, PartialEq, Eq)]
enum End {
    Whole,
    Refused,
    Other,
}

/// The end where this holds, and another one where it does not.
fn end_where(holds: bool, end: End) -> End {
    if holds { end } else { End::Other }
}

/// How a loop ends over this store, on which `s` is 100, and these registers, each 5.
fn end_over<R: Threads + Wait + Sync>(
    rt: &R,
    alloc: Global,
    lowered: &LoweredLoop,
    row: &Row,
    registers: &mut [u64],
    store: &mut Store,
    workers: Workers,
) -> End {
    let (_lines, _sums, _last, cells, held) = row;
    let sched = Sched::PlainStatic;
    let mut text = Memory::new(alloc);
    match run_loop(
        rt, alloc, lowered, registers, store, workers, sched, &OpenGate, &mut text,
    ) {
        Ok(()) => {
            let left = store.cells() == cells.as_slice() && &*registers == held.as_slice();
            end_where(left, End::Whole)
        }
        Err(_refusal) => {
            let kept = store.cells() == [1, 1, 1, 1, 1, 1, 1, 1, 0, 0, 0, 0, 0, 0, 100].as_slice()
                && &*registers == [5, 5, 5, 5, 5, 5, 5, 5].as_slice();
            end_where(kept, End::Refused)
        }
    }
}

/// How it ends by one worker over a store; refused too where there is no memory for registers.
fn end_by_one<R: Threads + Wait + Sync>(
    rt: &R,
    alloc: Global,
    lowered: &LoweredLoop,
    row: &Row,
    store: &mut Store,
) -> Option<End> {
    let one = Workers::new(1)?;
    match Vec::from_elem(alloc, 5u64, 8) {
        Ok(mut registers) => {
            let own = registers.as_mut_slice();
            Some(end_over(rt, alloc, lowered, row, own, store, one))
        }
        Err(_error) => None,
    }
}

/// How the loop of a row ends, if there is memory for it.
fn end_of<R: Threads + Wait + Sync>(rt: &R, alloc: Global, row: &Row) -> Option<End> {
    let lowered = loop_of(alloc, row)?;
    let mut store = variables(alloc, 8).ok()?;
    store.put(14, 100);
    end_by_one(rt, alloc, &lowered, row, &mut store)
}

const SUMS: &str =
    "uint64_t t = 0; uint64_t u = 0; for (uint64_t i = 0; i < 8; i++) { t += i; s += 2 * i; u = i; A[i] = A[i] + 3 * i; }";

const LAST: &str =
    "uint64_t t = 0; for (uint64_t i = 0; i < 8; i++) { t += i; s = 10 * i; A[i] = s + A[i]; }";

const SUMMED: Row<'static> = (
    SUMS,
    &[FIRST, SCALAR],
    SECOND,
    [1, 4, 7, 10, 13, 16, 19, 22, 0, 0, 0, 0, 0, 0, 156],
    [5, 5, 5, 33, 7, 5, 5, 5],
);

const LASTING: Row<'static> = (
    LAST,
    &[FIRST],
    SCALAR,
    [1, 11, 21, 31, 41, 51, 61, 71, 0, 0, 0, 0, 0, 0, 70],
    [5, 5, 5, 33, 5, 5, 5, 5],
);

#[test]
fn a_single_chunk_is_put_whole(rt: HostRuntime) {
    let heap = rt.alloc();
    assert!(rt; end_of(&rt, heap, &SUMMED) == Some(End::Whole));
    assert!(rt; end_of(&rt, heap, &LASTING) == Some(End::Whole));
}

/// Each allocation may fail.
#[test]
fn a_single_chunk_that_is_refused_leaves_all_as_before(rt: HostRuntime) {
    let heap = rt.alloc();
    assert!(rt; end_of(&rt, heap, &SUMMED) != Some(End::Other));
    assert!(rt; end_of(&rt, heap, &LASTING) != Some(End::Other));
}
