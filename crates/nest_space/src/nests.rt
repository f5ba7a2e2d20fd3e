//! The space of a nest of canonical loops.

ghost use Rattle.std.specs.Prelude.{◌≡◌, List, length, IsTrue, IfSome, MatchOption};
ghost use Rattle.nest_space.specs.Space.{Turns, IsSpace};
ghost use Rattle.nest_space.specs.Nests.{given, AreModest, AreRunsOf};
ghost use Rattle.nest_space.specs.Heads.{HasIterations};

use crate::bounds::{Value, are_modest, run_of};
use crate::iterations::Space;
use crate::turns::LoopTurns;
use ktree::limits::ASSOCIATED_LOOPS;
use nest_loop::Canonical;
use std::alloc::Global;

/// Puts down how each loop runs; false where one does not stay.
fn fill(loops: &[Canonical], values: &[Value], turns: &mut [LoopTurns]) -> bool
    requires modest { AreModest values.now }
    requires places { length turns.old ≡ length loops.now }
    ensures found { IsTrue result → AreRunsOf loops.now (given values.now) turns.new }
    ensures none { (IsTrue result → ⊥) → (ts : List Turns)
        → AreRunsOf loops.now (given values.now) ts → ⊥ }
{
    let Some((first, rest)) = loops.split_first() else {
        return true;
    };
    let Some((place, others)) = turns.split_first_mut() else {
        return true;
    };
    let Some(run) = run_of(first, values) else {
        return false;
    };
    *place = run;
    fill(rest, values, others)
}

impl Space {
    /// The space of a rectangular nest of these canonical loops, the outermost first, where the variables round it have these
    /// values, and those without a value are 0: None where a value is above 2^33, where a bound is above 2^32 there or a
    /// variable would wrap, and for more than four loops or 2^24 vectors (OpenMP 5.2, 4.4.2 and 4.4.3).
    pub fn at(alloc: Global, loops: &[Canonical], values: &[Value]) -> Option<Space>
        ensures exact { MatchOption result
            ((ts : List Turns) → AreModest values.now → AreRunsOf loops.now (given values.now) ts
            → IsSpace ts → ⊥) (λ ts. AreRunsOf loops.now (given values.now) ts) }
        ensures loops { IfSome result (λ ts. length ts ≡ length loops.now) }
        ensures iterations { IfSome result (λ ts. HasIterations loops.now (given values.now) ts) }
    {
        if loops.len() > ASSOCIATED_LOOPS {
            return None;
        }
        if !are_modest(values) {
            return None;
        }
        let mut places = [LoopTurns::default(); ASSOCIATED_LOOPS];
        let turns = &mut places[..loops.len()];
        if !fill(loops, values, turns) {
            return None;
        }
        Space::new(alloc, turns)
    }
}
