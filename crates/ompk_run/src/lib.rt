//! Runs of accepted kernels, on a team of workers or by one thread.
#![tactic(auto)]

mod leading;
mod placing;
mod preparing;
mod running;
mod single;
mod teaming;

pub use running::{run, runs_of_accepted, seq};
