//! Which doacross nests a team would not run sooner than one thread.

use lower::LoweredLoop;
use lower_block::Block;
use nest_space::Space;
use std::alloc::Global;

/// So many instructions take as long as it takes to hand over what an iteration leaves from one processor to another, and the store's lines
/// with it.
const LIGHT: usize = 32;

/// A nest of fewer iterations takes little time in any way, and is run as its directive says.
const MANY: u64 = 64;

// The most instructions that a block runs; none for one with loops or text in it.
fn instructions(block: &Block) -> Option<usize> {
    match block {
        Block::Straight(ops) => Some(ops.len()),
        Block::Then(first, second) => {
            let first = instructions(first)?;
            Some(first.saturating_add(instructions(second)?))
        }
        Block::If(_, then, other) => Some(instructions(then)?.max(instructions(other)?)),
        _ => None,
    }
}

// Whether the iterations of a nest are straight code of few instructions.
fn are_light(nest: &LoweredLoop) -> bool {
    match instructions(&nest.body.block) {
        Some(count) => count <= LIGHT,
        None => false,
    }
}

// Whether each iteration waits for the one before, so that a wave has one alone.
fn is_chain(distances: &[Vec<i64>]) -> bool {
    for distance in distances {
        if let [1] = distance.as_slice() {
            return true;
        }
    }
    false
}

/// Whether one thread runs a doacross nest whose sinks lie so far before their iterations sooner than a team does wave by wave, however many
/// workers that has: the nest has many iterations, which are so light that to hand over what each of them leaves takes longer than to run
/// it, or of which each waits for the one before.
pub(crate) fn is_run_alone(alloc: Global, distances: &[Vec<i64>], nest: &LoweredLoop) -> bool {
    if !are_light(nest) && !is_chain(distances) {
        return false;
    }
    match Space::at(alloc, nest.loops.as_slice(), &[]) {
        Some(space) => space.count() >= MANY,
        None => false,
    }
}
