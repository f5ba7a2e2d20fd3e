//! What later passes may take from the rule of doacross nests. Each law is the contract of a function that does nothing.

ghost use Rattle.flow_doacross.specs.Laws.{NestsStandAlone, LoopsCountUpAnywhere};

/// Where each doacross nest of a kernel is right, the loop behind each line of which sinks are told is such a nest in the tree from which the
/// lines of sinks and sources are left out, and each of these sinks is an earlier iteration than the one that names it (OpenMP 5.2, 4.4.4
/// and 15.9.6).
pub fn nests_stand_alone()
    ensures { NestsStandAlone }
{}

/// A loop of a nest rises by 1 between two numbers, whatever loops stand round it (OpenMP 5.2, 4.4.1).
pub fn loops_count_up_anywhere()
    ensures { LoopsCountUpAnywhere }
{}
