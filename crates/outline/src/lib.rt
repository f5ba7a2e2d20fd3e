//! A kernel as it is run: what is made of its body before the run.
#![tactic(auto)]

mod compiling;
mod grain;
mod handing;
mod lines;
mod making;
mod scanning;
mod shape;
mod spots;
mod targets;
mod waving;

pub use compiling::Target;
pub use handing::Loops;
pub use making::outline;
pub use shape::{LoweredHead, Outline, OutlineItem, TeamLoop, Way};
