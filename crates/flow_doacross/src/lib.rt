//! Doacross nests: their clauses, their loops, their sinks and their source (OpenMP 5.2, 4.4.4, 15.9.6 and 15.10.2).
#![tactic(auto)]

mod clauses;
mod cutting;
mod distances;
mod fault;
mod finding;
mod heads;
mod judging;
mod laws;
mod listing;
mod printing;
mod sinks;
mod walking;

pub use fault::DoacrossFault;
pub use laws::{loops_count_up_anywhere, nests_stand_alone};
pub use listing::DoacrossLoop;
pub use walking::{DoacrossNests, doacross_of};
