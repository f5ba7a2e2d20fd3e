//! Parallel regions that are dissolved into their loops, and clauses that are read and not run.
#![tactic(auto)]

mod counting;
mod dissolving;
mod listing;
mod sinks;
mod unknown;

pub use counting::count_clauses;
pub use dissolving::{dissolve_regions, is_doacross, is_left_out, is_ordered, is_scan};
pub use listing::{NamedReduction, RegionLoop, RegionPart, regions_of};
pub use unknown::{Unknown, first_unknown};
