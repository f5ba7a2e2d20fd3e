//! What later passes may take from the rule of scans. Each law is the contract of a function that does nothing.

ghost use Rattle.flow_scan.specs.Laws.{ScansStandAlone, LinesTellScans};

/// Where each scan of a kernel stands rightly, the loop behind each line of a scan has its phases one behind the other in the tree from which
/// these lines are left out (OpenMP 5.2, 5.6).
pub fn scans_stand_alone()
    ensures { ScansStandAlone }
{}

/// What is told of a scan's loop can be looked up by the number of its line, where these are different.
pub fn lines_tell_scans()
    ensures { LinesTellScans }
{}
