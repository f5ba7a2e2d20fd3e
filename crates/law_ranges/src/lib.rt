//! Subscripts and nests over the box of the loops round them, and at the turns of these loops: the laws that join the two, each the
//! contract of a function that does nothing.
#![tactic(auto)]

ghost use Rattle.law_ranges.specs.Laws.{RangesHoldAtTurns, LeavingHasATurn};
ghost use Rattle.law_ranges.specs.Spaces.{RightNestsRunFew};

/// Each element access of a kernel whose subscripts are in range has indexes that are within its array's lengths at each turn
/// of the loops round it, guards ignored (C11 6.5.6, 8; OpenMP 5.2, 4.4.2).
pub fn ranges_hold_at_turns()
    ensures { RangesHoldAtTurns }
{}

/// Where all loops round a subscript have constant bounds, a form that leaves its dimension does so at one of their iterations,
/// guards ignored (OpenMP 5.2, 4.4.2). The form's value is a whole number; that of the expression is the one modulo 2^64.
pub fn leaving_has_a_turn()
    ensures { LeavingHasATurn }
{}

/// Wherever a parallel loop of a kernel with right nests is reached, each loop of its nest keeps to its bounds there, up to the first
/// that never turns, the nest has at most 2^24 iterations, and the variables of the loops round it hold numbers of at most 2^33
/// (OpenMP 5.2, 4.4.1 and 4.4.2).
pub fn right_nests_run_few()
    ensures { RightNestsRunFew }
{}
