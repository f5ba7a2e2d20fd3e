//! Scans: where their directive lines stand, and loops of two phases (OpenMP 5.2, 5.6).
#![tactic(auto)]

mod clauses;
mod cutting;
mod fault;
mod laws;
mod listing;
mod naming;
mod phases;
mod reading;
mod walking;
mod writing;

pub use fault::ScanFault;
pub use laws::{lines_tell_scans, scans_stand_alone};
pub use listing::ScanLoop;
pub use walking::{Scans, scans_of};
