//! What it says of iterations that a sink covers a pair of accesses, each law the contract of a function that does nothing.

ghost use Rattle.pairtest_cover.specs.Behind.{CoveredPairsLieApart, SinksLeadThere, CountersAreOrdered};

/// Accesses that a sink covers touch one element only in iterations of which one is the other moved some times by the distance
/// of a sink, in one run of the serial loops round the nest (OpenMP 5.2, 1.4.1 and 15.9.6).
pub fn covered_pairs_lie_apart()
    ensures { CoveredPairsLieApart }
{}

/// In a rectangular nest whose loops rise by 1, an iteration comes before each one that lies some times the distance of a sink
/// behind it: all that lie between are iterations (OpenMP 5.2, 4.4.2 and 15.9.6).
pub fn sinks_lead_there()
    ensures { SinksLeadThere }
{}

/// So iterations of such a nest, by the counters of its loops, are ordered if they lie some steps of a sink apart.
pub fn counters_are_ordered()
    ensures { CountersAreOrdered }
{}
