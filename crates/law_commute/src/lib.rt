//! Iterations of a worksharing loop that touch no common element, or only read it, may run in any order: the laws that say so, each the
//! contract of a function that does nothing.
#![tactic(auto)]

ghost use Rattle.law_commute.specs.Commuting.{IndependentIterationsCommute, IterationsSeeWhatTheyTouch, IterationsWriteWhatTheyTouch};
ghost use Rattle.law_commute.specs.Joining.{IndependentChunksJoin};

/// What an iteration does, and whether it has a run, depends on no element that it does not touch, and on nothing that the body
/// declares (C11 5.1.2.4, 4).
pub fn iterations_see_what_they_touch()
    ensures { IterationsSeeWhatTheyTouch }
{}

/// An iteration writes only what the body declares and the elements that it touches for a write (C11 5.1.2.4, 4).
pub fn iterations_write_what_they_touch()
    ensures { IterationsWriteWhatTheyTouch }
{}

/// Iterations of which no two conflict leave the same elements in any order as in sequence (OpenMP 5.2, 1.4.1 and 11.5).
pub fn independent_iterations_commute()
    ensures { IndependentIterationsCommute }
{}

/// Chunks of iterations of which no two conflict, each run from the state before the loop, leave in whatever order they are joined
/// what the iterations leave in sequence; the texts of the chunks, one after another in their order, are what the iterations print in
/// sequence (OpenMP 5.2, 11.5, 11.5.3 and 15.10.2).
pub fn independent_chunks_join()
    ensures { IndependentChunksJoin }
{}
