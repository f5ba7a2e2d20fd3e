//! Nests of loops and their iterations: a nest does what its iterations do one after another, and what independent ones leave that are
//! run in chunks from the state before it. Each law is the contract of a function that does nothing.
#![tactic(auto)]

ghost use Rattle.law_nests.specs.Walks.{WalksLeaveTheSame};
ghost use Rattle.law_nests.specs.Merging.{IndependentChunksMerge};
ghost use Rattle.law_nests.specs.Nests.{NestsRunTheirIterations, IndependentNestsJoin};

/// A nest of loops whose bounds nothing in it changes prints and leaves what its iterations do one after another, each begun with its loops'
/// variables at their values (C11 6.8.5.3; OpenMP 5.2, 4.4.2).
pub fn nests_run_their_iterations()
    ensures { NestsRunTheirIterations }
{}

/// Chunks of a nest's iterations of which no two conflict, each run from the state before the nest, leave in whatever order they are
/// joined what the nest leaves; their texts, one after another in the order of the chunks, are what it prints (OpenMP 5.2, 11.5, 11.5.3 and
/// 15.10.2).
pub fn independent_nests_join()
    ensures { IndependentNestsJoin }
{}

/// Iterations that run one after another in one memory print and leave what they do when each begins with its loops' variables alone
/// (C11 6.2.4 and 6.8.5.3).
pub fn walks_leave_the_same()
    ensures { WalksLeaveTheSame }
{}

/// What chunks of a nest's iterations changed, no two of which conflict, each run from the state before the nest, is put together what the
/// nest leaves: which of them comes last is of no matter, and what a chunk wrote and did not change need not be told. The nest prints what
/// the chunks print, one after another in their order (OpenMP 5.2, 11.5, 11.5.3 and 15.10.2).
pub fn independent_chunks_merge()
    ensures { IndependentChunksMerge }
{}
