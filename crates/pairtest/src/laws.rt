//! What refuted cases say of accesses, each law the contract of a function that does nothing.

ghost use Rattle.pairtest.specs.Equations.{RefutedHaveNoSolution};
ghost use Rattle.pairtest.specs.Meetings.{OneLoopIsExact, RefutedPairsDoNotMeet};

/// An equation of which the greatest common divisor of the coefficients does not divide the right side, or whose right side
/// is outside the ends of the sum, has no solution.
pub fn refuted_equations_have_no_solution()
    ensures { RefutedHaveNoSolution }
{}

/// Accesses of which every case is refuted touch no element in two different iterations of the nest, in one run of the
/// serial loops round it (OpenMP 5.2, 1.4.1).
pub fn refuted_pairs_do_not_meet()
    ensures { RefutedPairsDoNotMeet }
{}

/// For one loop, inside serial loops that each have a turn and with none inside, and one subscript that grows by the same
/// number a turn of this loop in both accesses, the cases are refuted exactly where no two different iterations touch one
/// element.
pub fn one_loop_is_exact()
    ensures { OneLoopIsExact }
{}
