//! Loops inside each other, and forms in their counters, each of which counts the steps of its loop from 0.
#![tactic(auto)]

mod chain;
mod convert;
mod copied;
mod level;

pub use chain::EnclosingLoops;
pub use copied::copy_of;
pub use level::{EnclosingLoop, Forms};
