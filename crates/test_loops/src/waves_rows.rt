ghost use Rattle.std.specs.Prelude.{◌≡◌, ◌≤◌, IfSome};
ghost use Rattle.nest_loop.specs.declared.stride.Direction.TheVariants.{Rising};

use nest_loop::{Direction, Stride};
use nest_space::{LoopTurns, Space};
use std::alloc::Global;
use std::process::Abort;
use waves::*;

/// The loop that rises by 1 from its first value and turns so often.
fn loop_of(first: u64, count: u64) -> Option<LoopTurns>
    ensures direction { IfSome result (λ t. t.stride.direction ≡ Rising) }
    ensures step { IfSome result (λ t. 1 ≤ t.stride.by) }
{
    let stride = Stride {
        direction: Direction::Rising,
        by: 1,
    };
    LoopTurns::new(first, stride, count)
}

/// Two sinks of a nest of three loops.
fn sinks_of(alloc: Global, first: &[i64], second: &[i64]) -> Option<Sinks> {
    let mut sinks = Sinks::new(alloc, 3);
    let Ok(_first) = sinks.push(alloc, first) else {
        return None;
    };
    let Ok(_second) = sinks.push(alloc, second) else {
        return None;
    };
    Some(sinks)
}

/// A nest: how often its three loops turn, where the innermost begins, and two distances.
#[derive(Clone, Copy)]
struct Nest {
    counts: (u64, u64, u64),
    first: u64,
    sinks: (&'static [i64], &'static [i64]),
}

/// Its iterations level by level.
fn waves_of(alloc: Global, nest: Nest) -> Option<Waves> {
    let outer = loop_of(0, nest.counts.0)?;
    let middle = loop_of(0, nest.counts.1)?;
    let inner = loop_of(nest.first, nest.counts.2)?;
    let space = Space::new(alloc, &[outer, middle, inner])?;
    let sinks = sinks_of(alloc, nest.sinks.0, nest.sinks.1)?;
    levels(alloc, &space, &sinks).ok()
}

/// The numbers of the iterations, with a mark before each level.
fn numbers_by_level(alloc: Global, waves: &Waves) -> Option<Vec<u64>> {
    let mut written = Vec::new(alloc);
    for level in 0..waves.len() {
        written.push(MARK).ok()?;
        written.extend_from_slice(waves.wave(level)).ok()?;
    }
    Some(written)
}

const MARK: u64 = 99;

/// Whether the nest's levels are these.
fn has_levels(alloc: Global, nest: Nest, levels: &[u64]) -> bool {
    match waves_of(alloc, nest) {
        Some(waves) => match numbers_by_level(alloc, &waves) {
            Some(written) => written.as_slice() == levels,
            None => false,
        },
        None => false,
    }
}

/// The first of some nests that has other levels.
fn first_other(alloc: Global, rows: &[(Nest, &[u64])]) -> Option<usize> {
    for (i, (nest, levels)) in rows.iter().enumerate() {
        if !has_levels(alloc, *nest, levels) {
            return Some(i);
        }
    }
    None
}

#[test]
fn nests_have_levels(rt: HostRuntime) {
    const ROWS: &[(Nest, &[u64])] = &[
        // The sinks `i-1, j+1` and `i, j-1` of 3 by 3.
        (
            Nest {
                counts: (1, 3, 3),
                first: 0,
                sinks: (&[0, 1, -1], &[0, 0, 1]),
            },
            &[99, 0, 99, 1, 99, 2, 3, 99, 4, 99, 5, 6, 99, 7, 99, 8],
        ),
        // From 2 below 8, two and one before.
        (
            Nest {
                counts: (1, 1, 6),
                first: 2,
                sinks: (&[0, 0, 2], &[0, 0, 2]),
            },
            &[99, 0, 1, 99, 2, 3, 99, 4, 5],
        ),
        (
            Nest {
                counts: (1, 1, 6),
                first: 2,
                sinks: (&[0, 0, 1], &[0, 0, 2]),
            },
            &[99, 0, 99, 1, 99, 2, 99, 3, 99, 4, 99, 5],
        ),
        // A chain.
        (
            Nest {
                counts: (1, 1, 7),
                first: 1,
                sinks: (&[0, 0, 1], &[0, 0, 1]),
            },
            &[99, 0, 99, 1, 99, 2, 99, 3, 99, 4, 99, 5, 99, 6],
        ),
        // The sinks `i-1, j` and `i, j-1` of 3 by 3.
        (
            Nest {
                counts: (1, 3, 3),
                first: 1,
                sinks: (&[0, 1, 0], &[0, 0, 1]),
            },
            &[99, 0, 99, 1, 3, 99, 2, 4, 6, 99, 5, 7, 99, 8],
        ),
        // No sink lies in the space: too far before, or not ahead and not taken.
        (
            Nest {
                counts: (1, 1, 6),
                first: 2,
                sinks: (&[0, 0, 6], &[0, 0, -1]),
            },
            &[99, 0, 1, 2, 3, 4, 5],
        ),
        // No iteration.
        (
            Nest {
                counts: (2, 0, 3),
                first: 0,
                sinks: (&[1, 0, 0], &[0, 1, 0]),
            },
            &[],
        ),
        // Three loops.
        (
            Nest {
                counts: (2, 2, 2),
                first: 0,
                sinks: (&[1, 0, 0], &[0, 1, 1]),
            },
            &[99, 0, 1, 2, 99, 3, 4, 5, 6, 99, 7],
        ),
    ];
    let other = first_other(rt.alloc(), ROWS);
    assert!(rt; other.is_none());
}
