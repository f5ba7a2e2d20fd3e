//! A parallel loop that a team runs in place.

ghost use Rattle.std.specs.Prelude.{◌≡◌, true, false, ℕ, List, IfOk, IfErr};
ghost use Rattle.semantics.specs.Loops.Nest.{Loop};
ghost use Rattle.flow.specs.Roles.{LineData};
ghost use Rattle.outline.specs.Fit.{Fits};
ghost use Rattle.outline.specs.View.{performed};
ghost use Rattle.outline.specs.declared.shape.Outline.TheVariants.{Team};
ghost use Rattle.seqrun.specs.Ran.{lengths_of};
ghost use Rattle.lower_code.specs.declared.laid.Laid.{Laid};
ghost use Rattle.lower_run.specs.Walk.{Walks, stage};

use crate::single::take_roles;
use ktree::Refusal;
use lower_run::confirm_words;
use outline::TeamLoop;
use std::thread::Threads;
use store::Store;
use team::Gate;
use team_in_place::{Crew, run_in_place};

// Runs a parallel loop in place by a team, its own code over a copy of the registers, if it is seen that it may be; else it changes nothing, and
// tells so (C11 6.8.5; OpenMP 5.2, 11.5).
pub(crate) fn run_by_parts<R: Threads + Sync, G: Gate + Sync>(
    crew: &Crew<'_, R, G>,
    construct: &TeamLoop<'_>,
    registers: &mut Vec<u64>,
    store: &mut Store,
) -> Result<bool, Refusal>
    ensures ran { IfOk result (λ done. done ≡ true → (layout : List Laid) (mark : ℕ)
        (R : LineData) (serial : List Loop) (text : List ℕ)
        → Fits layout mark R serial (Team construct.now)
        → Walks layout mark (performed R serial (Team construct.now))
        (stage registers.old.items store.old text) (stage registers.new.items store.new text)) }
    ensures left { IfOk result (λ done. done ≡ false
        → (registers.new ≡ registers.old) × (store.new ≡ store.old)) }
    ensures refusal { IfErr result (λ refusal. refusal ≡ Refusal.OutOfMemory) }
    ensures shape { lengths_of store.new ≡ lengths_of store.old }
{
    let Some(own) = run_in_place(crew, &construct.code, registers.as_slice(), store)? else {
        return Ok(false);
    };
    take_roles(own.as_slice(), &construct.lowered.roles, registers);
    confirm_words(registers.as_slice(), store);
    Ok(true)
}
