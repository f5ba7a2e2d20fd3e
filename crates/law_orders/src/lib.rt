//! Iterations in other orders: those of a doacross nest in any order that respects its sinks, and those of a scan in any order, each begun with
//! the scan variable at its sequential value. Each law is the contract of a function that does nothing.
#![tactic(auto)]

ghost use Rattle.law_orders.specs.Orders.{OrderedIterationsCommute, DoacrossNestsCommute};
ghost use Rattle.law_orders.specs.Rows.{OrderRows};
ghost use Rattle.law_orders.specs.Scans.{CarriedIterationsCommute, ScanNestsCommute};

/// Iterations of which any two that conflict are ordered by the sinks leave the same elements in any order that respects the sinks as in
/// sequence (OpenMP 5.2, 5.4.3 and 15.9.6).
pub fn ordered_iterations_commute()
    ensures { OrderedIterationsCommute }
{}

/// So do those of each doacross nest that may be run wave by wave (OpenMP 5.2, 15.9.6).
pub fn doacross_nests_commute()
    ensures { DoacrossNestsCommute }
{}

/// Iterations of which no two conflict, and which depend on each other in the scan variable alone, leave the same elements in any order, each
/// begun with that variable at the value that it has there in sequence (OpenMP 5.2, 5.6).
pub fn carried_iterations_commute()
    ensures { CarriedIterationsCommute }
{}

/// So do those of each scan that may be run in two passes (OpenMP 5.2, 5.6).
pub fn scan_nests_commute()
    ensures { ScanNestsCommute }
{}

/// Worked rows: a nest that may be turned and is such a nest, an order that breaks it, and prefix sums.
pub fn order_rows()
    ensures { OrderRows }
{}
