//! The levels of a doacross nest's iterations, which can be run one level after another (OpenMP 5.2, 15.9.6 and 15.10.1).
#![tactic(auto)]

mod leveling;
mod sinks;
mod sorting;

pub use leveling::levels;
pub use sinks::Sinks;
pub use sorting::Waves;
