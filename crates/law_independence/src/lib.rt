//! What the dependence test's answers say of a parallel loop: one that it shows to be independent has no two iterations that conflict. The
//! definitions say also what its iterations then leave, in any order and in chunks, and when a conflict that is told is one; `law_doacross`
//! promises these of each loop of a kernel. Each law is the contract of a function that does nothing.
#![tactic(auto)]

ghost use Rattle.law_independence.specs.IndependenceLaws.{ShownBodiesAreIndependent, ShownLoopsAreIndependent};

/// No two iterations of a nest conflict whose body's accesses are shown to be independent, at any turn of the serial loops round it
/// (C11 5.1.2.4, 4; OpenMP 5.2, 1.4.1).
pub fn shown_bodies_are_independent()
    ensures { ShownBodiesAreIndependent }
{}

/// A parallel loop that is shown to be independent is so at each turn of the serial loops round it (OpenMP 5.2, 1.4.1 and 4.4.4).
pub fn shown_loops_are_independent()
    ensures { ShownLoopsAreIndependent }
{}
