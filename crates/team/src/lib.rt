//! A team of workers, each in a thread of its own, that runs the chunks of any lowered nest (OpenMP 5.2, 11.5).
#![tactic(auto)]

mod leading;
mod lent;
mod scanning;
mod teamwork;
mod waving;

pub use leading::{run_loop, run_scan};
pub use lent::{LentLoop, LoopCrew};
pub use scanning::share_scan;
pub use semantics::laws::every_order;
pub use team_worker::{Gate, OpenGate, Taken};
pub use teamwork::share_loop;
pub use waving::share_waves;
