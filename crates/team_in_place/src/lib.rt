//! Loops of many turns that a team runs in place: each worker's turns over cells of its own.
#![tactic(auto)]

mod busy;
mod looping;
mod nest_planning;
mod nesting;
mod planning;
mod promoting;
mod running;
mod scan_planning;
mod scan_running;
mod scan_sharing;
mod sharing;

pub use running::{Crew, run_in_place};
