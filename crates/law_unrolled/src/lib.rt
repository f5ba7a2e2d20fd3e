//! Loops whose turns have a loop of straight instructions in them: a turn is a list of instructions, in which the inner variable's number of each inner
//! turn stands in the places, so that what holds of loops of straight instructions holds of these. Each law is the contract of a function that does
//! nothing.
#![tactic(auto)]

ghost use Rattle.law_unrolled.specs.Unrolled.{TurnsAreInstructions, NestsKeepApart, ReadsAreSeen};

/// A turn with a loop in it leaves what its instructions leave, those of the inner loop once for each inner turn, in which the inner variable's number
/// stands in their places (C11 6.8.5, 5.1.2.3).
pub fn turns_are_instructions()
    ensures { TurnsAreInstructions }
{}

/// Where the cells that each turn touches are known by the inner variable's numbers, the turns have their cells to themselves as those of straight
/// instructions do (C11 6.8.5, 5.1.2.3).
pub fn nests_keep_apart()
    ensures { NestsKeepApart }
{}

/// Instructions read registers that no turn changes or that the turn wrote before, and make places of registers that none writes, beside the inner
/// variable, where that is seen of them with 0 in the place of that variable (C11 6.8.5, 5.1.2.3).
pub fn reads_are_seen()
    ensures { ReadsAreSeen }
{}
