//! Which nests may be run wave by wave (OpenMP 5.2, 15.9.6).

ghost use Rattle.std.specs.Prelude.{◌≡◌, ◌++◌, true, map, Some, None, IfOk, IfErr, MatchOption};
ghost use Rattle.flow_doacross.specs.Listed.{nest_at};
ghost use Rattle.flow_doacross.specs.Views.{distance_kept, nest_part};
ghost use Rattle.ktree.specs.declared.refusal.Refusal.TheVariants.{OutOfMemory};
ghost use Rattle.outline.specs.Handed.{IsWavesOf};
ghost use Rattle.outline.specs.Waved.{IsFixedInWaves};

use crate::shape::Way;
use flow_doacross::DoacrossLoop;
use ktree::Refusal;
use lower::LoweredLoop;
use nest_space::are_fixed;
use std::alloc::{AllocError, Global};
use waves::Sinks;

// The first doacross nest behind the directive line of this number.
pub(crate) fn nest_at(nests: &[DoacrossLoop], line: u32) -> Option<&DoacrossLoop>
    ensures { MatchOption result (nest_at (map nest_part nests.now) line ≡ None)
        (λ nest. nest_at (map nest_part nests.now) line
        ≡ Some (map distance_kept nest.now.distances.items)) }
{
    for nest in nests {
        if nest.line.line == line {
            return Some(nest);
        }
    }
    None
}

// Adds sinks at these distances; false where one has fewer or more numbers than the nest has loops, or does not lie ahead.
fn add_sinks(alloc: Global, distances: &[Vec<i64>], sinks: &mut Sinks) -> Result<bool, AllocError>
    ensures { IfOk result (λ all. all ≡ true
        → sinks.new.distances ≡ sinks.old.distances ++ map distance_kept distances.now) }
{
    let Some((first, rest)) = distances.split_first() else {
        return Ok(true);
    };
    if !sinks.push(alloc, first)? {
        return Ok(false);
    }
    add_sinks(alloc, rest, sinks)
}

// The way in which a nest of so many loops may be run, the sinks of which lie so far before the iteration that names them, and which is
// lowered to this.
pub(crate) fn waves_of(
    alloc: Global,
    depth: u64,
    distances: &[Vec<i64>],
    lowered: &LoweredLoop,
) -> Result<Way, Refusal>
    ensures way { IfOk result (IsWavesOf (map distance_kept distances.now)) }
    ensures fixed { IfOk result (IsFixedInWaves lowered.now) }
    ensures refusal { IfErr result (λ refusal. refusal ≡ OutOfMemory) }
{
    if !are_fixed(alloc, lowered.loops.as_slice()) {
        return Ok(Way::Alone);
    }
    let mut sinks = Sinks::new(alloc, depth as usize);
    if !add_sinks(alloc, distances, &mut sinks)? {
        return Ok(Way::Alone);
    }
    Ok(Way::Waves(sinks))
}
