//! Names that are no longer visible, where loops have lastprivate and reduction variables: what else a parallel loop leaves in its own
//! variables is of no matter to what comes behind it. Each law is the contract of a function that does nothing.
#![tactic(auto)]

ghost use Rattle.law_apart.specs.Apart.{EffectsAreLeftApart};
ghost use Rattle.law_apart.specs.Laws.{AcceptedKernelsRunApart};

/// An effect on the objects at file scope and on some locals alone leaves these as the whole effect does, and all other locals as they were
/// (C11 6.2.1 and 6.2.4).
pub fn effects_are_left_apart()
    ensures { EffectsAreLeftApart }
{}

/// Where a kernel has a run, it has one in which each parallel loop leaves its own variables and its private ones as they were, with the same
/// text and the same objects at file scope in the end (C11 6.2.1 and 6.2.4; OpenMP 5.2, 5.4.3, 5.4.5, 5.5.8 and 11.5).
pub fn accepted_kernels_run_apart()
    ensures { AcceptedKernelsRunApart }
{}
