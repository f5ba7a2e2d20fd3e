//! Code that runs over cells that stand side by side.

use lane_rows::Bench;
use lower_block::Compiled;
use lower_op::{Cells, FlatCells};
use lower_runner::run;
use seqrun_io::Memory;
use std::alloc::Global;

/// How many rows there are where turns are run in lanes.
pub(crate) const LANES: u32 = 64;

/// So many cells, each 0.
pub(crate) fn zeros(alloc: Global, count: usize) -> Option<FlatCells> {
    match Vec::from_elem(alloc, 0u64, count) {
        Ok(numbers) => Some(FlatCells { numbers }),
        Err(_error) => None,
    }
}

/// Whether code runs over cells, with so many rows for lanes, and prints this.
pub(crate) fn prints_over<M: Cells>(
    alloc: Global,
    compiled: &Compiled,
    rows: u32,
    cells: &mut M,
    expected: &str,
) -> bool {
    let Ok(mut bench) = Bench::new(alloc, rows) else {
        return false;
    };
    let Ok(mut registers) = Vec::from_elem(alloc, 0u64, compiled.registers as usize) else {
        return false;
    };
    let mut sink = Memory::new(alloc);
    let registers = registers.as_mut_slice();
    run(compiled, registers, cells, &mut bench, &mut sink).is_ok()
        && sink.bytes() == expected.as_bytes()
}

/// A number for what so many cells hold.
pub(crate) fn digest<M: Cells>(cells: &M, count: u64) -> u64 {
    let mut sum = 0u64;
    for place in 0..count {
        sum = sum.wrapping_mul(1000003).wrapping_add(cells.read(place));
    }
    sum
}
