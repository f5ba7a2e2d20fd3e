//! The space of a nest of which some loops may never be reached.

ghost use Rattle.std.specs.Prelude.{◌≡◌, List, length, IsTrue, IfSome, MatchOption};
ghost use Rattle.nest_space.specs.Space.{Turns, IsSpace};
ghost use Rattle.nest_space.specs.Nests.{given, AreModest};
ghost use Rattle.nest_space.specs.Heads.{HasIterations};
ghost use Rattle.nest_space.specs.Reached.{AreRunsReached};

use crate::bounds::{Value, are_modest, run_of};
use crate::iterations::Space;
use crate::turns::LoopTurns;
use ktree::limits::ASSOCIATED_LOOPS;
use nest_loop::Canonical;
use std::alloc::Global;

/// Puts down how each loop runs up to the first that never turns; false where one of these does not stay.
fn fill_reached(loops: &[Canonical], values: &[Value], turns: &mut [LoopTurns]) -> bool
    requires modest { AreModest values.now }
    requires places { length turns.old ≡ length loops.now }
    ensures found { IsTrue result → AreRunsReached loops.now (given values.now) turns.new }
    ensures none { (IsTrue result → ⊥) → (ts : List Turns)
        → AreRunsReached loops.now (given values.now) ts → ⊥ }
{
    let Some((first, rest)) = loops.split_first() else {
        return true;
    };
    let Some((place, others)) = turns.split_first_mut() else {
        return true;
    };
    let Some(run) = run_of(first, values) else {
        return false;
    };
    *place = run;
    if run.count() == 0 {
        return true;
    }
    fill_reached(rest, values, others)
}

impl Space {
    /// As [`Space::at`], but that loops inside one that never turns there are never reached, and may run in any way: the nest has no
    /// iterations then (OpenMP 5.2, 4.4.2).
    pub fn reached_at(alloc: Global, loops: &[Canonical], values: &[Value]) -> Option<Space>
        ensures exact { MatchOption result
            ((ts : List Turns) → AreModest values.now
            → AreRunsReached loops.now (given values.now) ts → IsSpace ts → ⊥)
            (λ ts. AreRunsReached loops.now (given values.now) ts) }
        ensures loops { IfSome result (λ ts. length ts ≡ length loops.now) }
        ensures iterations { IfSome result (λ ts. HasIterations loops.now (given values.now) ts) }
    {
        if loops.len() > ASSOCIATED_LOOPS {
            return None;
        }
        if !are_modest(values) {
            return None;
        }
        let mut places = [LoopTurns::default(); ASSOCIATED_LOOPS];
        let turns = &mut places[..loops.len()];
        if !fill_reached(loops, values, turns) {
            return None;
        }
        Space::new(alloc, turns)
    }
}
