//! Kernels checked and run: the library at the top.
#![tactic(auto)]

mod accepting;
mod spared;

pub use accepting::check;
pub use deptest::Checked;
pub use ompk_message::{status, tell};
pub use ompk_run::{run, runs_of_accepted, seq};
pub use schedule::Sched;
