//! Private data: a local that each iteration assigns before it reads it may be a worker's own. Each law is the contract of a function that
//! does nothing.
#![tactic(auto)]

ghost use Rattle.law_private.specs.Known.{KnownStatesRunAlike, MoreIsKnown};
ghost use Rattle.law_private.specs.Private.{PrivateChunksMerge, PrivateIterationsCommute};

/// A statement that reads no local before it is assigned does the same from any two states that have the same objects at file scope and agree
/// in the locals that are assigned before it: the same writes and text, or no run in both (C11 6.2.4, 6).
pub fn known_states_run_alike()
    ensures { KnownStatesRunAlike }
{}

/// Where more is known before a statement, and fewer locals are private, it still reads none that is not known, and more is known behind it
/// (C11 6.2.4, 6; OpenMP 5.2, 5.4.3).
pub fn more_is_known()
    ensures { MoreIsKnown }
{}

/// Iterations of which no two conflict, and which assign no scalar from outside but locals, each before they read it, leave the same elements in
/// any order as in sequence (OpenMP 5.2, 5.4.3 and 11.5).
pub fn private_iterations_commute()
    ensures { PrivateIterationsCommute }
{}

/// Chunks of a nest's iterations of which no two conflict, and which assign no scalar from outside but locals, each before they read it, have a
/// run each from the state before the nest, and what they change, put together, is what the nest leaves. The nest prints what the chunks print,
/// one after another in their order (OpenMP 5.2, 5.4.3, 11.5 and 15.10.2).
pub fn private_chunks_merge()
    ensures { PrivateChunksMerge }
{}
