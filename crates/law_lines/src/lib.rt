//! Trees from which some directive lines are left out: laws, each the contract of a function that does nothing.
#![tactic(auto)]

ghost use Rattle.law_lines.specs.Laws.{KeptLinesAreRead, StrippedTreesAreOne};

/// What is left of a tree of the grammar without some of its directive lines is one of the grammar (C11 6.8.2).
pub fn kept_lines_are_read()
    ensures { KeptLinesAreRead }
{}

/// Without all of its directive lines a tree is the same, whichever of them were left out before (C11 6.10.6).
pub fn stripped_trees_are_one()
    ensures { StrippedTreesAreOne }
{}
