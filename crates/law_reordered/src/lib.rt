//! The parallel loops of a kernel that the analysis accepts, their iterations in other orders: those of a doacross nest in any order that respects
//! its sinks, and those of a scan in any order, each begun with the scan variable at its sequential value. Each law is the contract of a function
//! that does nothing.
#![tactic(auto)]

ghost use Rattle.law_reordered.specs.Reordered.{AcceptedNestsCommute, AcceptedScansCommute};

/// The iterations of each doacross nest of a kernel leave the same elements in any order that respects its sinks as in sequence, at each state in
/// which the nest is reached, where no subscript leaves its dimension, no local is read before it is assigned, parallel loops keep the roles of the
/// scalars that they assign, and the test of pairs shows all of them to be independent, or ordered by their sinks (OpenMP 5.2, 5.4.3, 11.5 and
/// 15.9.6).
pub fn accepted_nests_commute()
    ensures { AcceptedNestsCommute }
{}

/// Those of each scan of such a kernel leave the same elements in any order, each begun with the scan variable at the value that it has there in
/// sequence (OpenMP 5.2, 5.4.3, 5.6 and 11.5).
pub fn accepted_scans_commute()
    ensures { AcceptedScansCommute }
{}
