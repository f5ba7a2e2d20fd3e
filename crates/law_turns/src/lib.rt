//! Iterations of loops inside each other by their counters: the laws that say so, each the contract of a function that does
//! nothing.
#![tactic(auto)]

ghost use Rattle.law_turns.specs.Laws.{FormsInCountersAreSame, ReachesAreDistances, TurnsAreInside};
ghost use Rattle.law_turns.specs.Laws.{OutsideIsATurn, StepsTellTurns, ChainsEnter, EnteredJoin, EnteredAreLevels, TurnsJoin};
ghost use Rattle.law_turns.specs.Laws.{IterationsAreThere, IterationsAreTurns, TurnsAreIterations, IterationsDiffer};
ghost use Rattle.law_turns.specs.Laws.{StepsTellIterations, IterationsTellSteps, IterationsDifferInSteps, ExpressionsHaveForms};

/// A form in the counters of loops has the value of the form in their variables that it stands for, and no other variables than
/// the numbers of the loops.
pub fn forms_in_counters_are_same()
    ensures { FormsInCountersAreSame }
{}

/// The reach of a loop, as a form in the counters round it, is how far its end lies behind its start (OpenMP 5.2, 4.4.2).
pub fn reaches_are_distances()
    ensures { ReachesAreDistances }
{}

/// At a turn of loops each variable has a value of its interval, and each loop has made fewer steps than it turns at most.
pub fn turns_are_inside()
    ensures { TurnsAreInside }
{}

/// Outside of all loops each state is at the one turn.
pub fn outside_is_a_turn()
    ensures { OutsideIsATurn }
{}

/// Values and turns of loops are the same with the same steps of these loops.
pub fn steps_tell_turns()
    ensures { StepsTellTurns }
{}

/// A loop that a chain of loops enters was entered (OpenMP 5.2, 4.4.1).
pub fn chains_enter()
    ensures { ChainsEnter }
{}

/// Loops that were entered inside others that were entered are all entered.
pub fn entered_join()
    ensures { EnteredJoin }
{}

/// Loops that were entered are loops inside each other.
pub fn entered_are_levels()
    ensures { EnteredAreLevels }
{}

/// A turn of all loops is one of those round the ones that were entered, and one of these.
pub fn turns_join()
    ensures { TurnsJoin }
{}

/// Loops that were entered have iterations, wherever the variables of those round them have values of theirs (OpenMP 5.2, 4.4.2; C11 6.8.5.3).
pub fn iterations_are_there()
    ensures { IterationsAreThere }
{}

/// Each iteration of loops that were entered is a turn of them and those round them (OpenMP 5.2, 4.4.2).
pub fn iterations_are_turns()
    ensures { IterationsAreTurns }
{}

/// Each turn of loops that were entered is one of their iterations (OpenMP 5.2, 4.4.2).
pub fn turns_are_iterations()
    ensures { TurnsAreIterations }
{}

/// No iteration of loops that were entered stands twice.
pub fn iterations_differ()
    ensures { IterationsDiffer }
{}

/// Iterations with the same steps of the loops that were entered are the same.
pub fn steps_tell_iterations()
    ensures { StepsTellIterations }
{}

/// An iteration of loops that were entered is one turn alone.
pub fn iterations_tell_steps()
    ensures { IterationsTellSteps }
{}

/// Different iterations differ in the steps of some loop that was entered.
pub fn iterations_differ_in_steps()
    ensures { IterationsDifferInSteps }
{}

/// At a turn an affine expression has the value of its form in counters, where that is a number of uint64_t (C11 6.2.5, 9).
pub fn expressions_have_forms()
    ensures { ExpressionsHaveForms }
{}
