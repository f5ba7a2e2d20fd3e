//! Pairs of accesses in a doacross nest: whether they are independent, or a sink of the nest orders any two iterations in which they meet.
#![tactic(auto)]

mod cover;
mod distance;
mod laws;
mod uniform;

pub use cover::are_ordered;
pub use laws::{counters_are_ordered, covered_pairs_lie_apart, sinks_lead_there};
