//! Kernels whose loops are canonical and whose subscripts stay inside their arrays have runs: the laws that say so, each the
//! contract of a function that does nothing.
#![tactic(auto)]

ghost use Rattle.law_runs.specs.Total.{NestedKernelsRun, StripKeepsRuns};

/// A kernel whose loops are canonical and never wrap, whose subscripts stay inside their arrays, and whose locals are assigned
/// before they are read, has a run from every state of its variables (C11 5.1.2.3 and 6.8).
pub fn nested_kernels_run()
    ensures { NestedKernelsRun }
{}

/// A kernel without its directive lines has the run of the kernel with them (C11 6.10.6).
pub fn strip_keeps_runs()
    ensures { StripKeepsRuns }
{}
