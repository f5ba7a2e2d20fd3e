//! What the dependence test's answers say of a kernel and its parallel loops. Those that it shows are independent, or, where they are doacross
//! nests, of two iterations that conflict the nest's sinks put one before the other; such loops may be run in chunks, scans in two passes and
//! doacross nests wave by wave. What it tells of a loop that it refuses is so. Each law is the contract of a function that does nothing.
#![tactic(auto)]

ghost use Rattle.law_doacross.specs.Covering.{ShownKernelsAreCovered, ShownNestsAreCovered};
ghost use Rattle.law_doacross.specs.Rows.{DoacrossRows};
ghost use Rattle.law_doacross.specs.Telling.{RefusalsAreTold};
ghost use Rattle.law_doacross.specs.Waving.{AcceptedLoopsShare};

/// Of two iterations that conflict, in a nest whose pairs of accesses are each shown to be independent or ordered by a sink, the nest's sinks put
/// one before the other, at any turn of the serial loops round it; each loop of the nest rises by 1 between two numbers (C11 5.1.2.4, 4; OpenMP 5.2,
/// 1.4.1 and 15.9.6).
pub fn shown_nests_are_covered()
    ensures { ShownNestsAreCovered }
{}

/// So it is of the doacross nests of a kernel whose pairs of accesses are each shown to be independent or ordered by the sinks of their nests; a
/// loop that is no doacross nest is independent (C11 5.1.2.4, 4; OpenMP 5.2, 1.4.1, 11.5 and 15.9.6).
pub fn shown_kernels_are_covered()
    ensures { ShownKernelsAreCovered }
{}

/// Chunks of each parallel loop of a kernel, each from a state in which it may start, leave together what the loop leaves, where no subscript leaves
/// its dimension, no local is read before it is assigned, parallel loops keep the roles of the scalars that they assign, and the test of pairs
/// shows all of them to be independent, or ordered by their sinks; the loop prints what the chunks print, one after another in their order. Without
/// reductions their iterations leave the same elements in any order. A scan does so in two passes, and a doacross nest wave by wave, each wave in
/// chunks, at each turn of the serial loops round it: its loops rise by 1 between two numbers, it prints nothing, its variables with a role are
/// private, and its sinks lie ahead (OpenMP 5.2, 1.4.1, 5.4.3, 5.4.5, 5.5.8, 5.6, 11.5, 15.9.6 and 15.10.2).
pub fn accepted_loops_share()
    ensures { AcceptedLoopsShare }
{}

/// The dependence test refuses a kernel for its first parallel loop that it does not show to be independent, or, where it is a doacross nest, to
/// have all its conflicts ordered by its sinks; those before it are so. It tells a conflict, or that none was found, of the first pair of the loop's
/// accesses that is not shown to be independent, or that a number passes the limits, and nothing else but want of memory. A conflict is one:
/// whatever the state round the serial loops, at the turn where the counter of each is 0 the iterations of these two numbers touch the element of
/// these indexes by the two accesses that are named, each inside the first turns of the loops round it, and one of them writes it. Of a nest with
/// sinks it tells of the first pair that is neither shown to be independent nor ordered by a sink; no conflict is looked for there (C11 5.1.2.4, 4;
/// OpenMP 5.2, 1.4.1 and 15.9.6).
pub fn refusals_are_told()
    ensures { RefusalsAreTold }
{}

/// Worked rows: a chain with a private variable, which suits waves, and loops that do not count up between numbers.
pub fn doacross_rows()
    ensures { DoacrossRows }
{}
