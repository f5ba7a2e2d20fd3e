//! One worker of a team: the chunks that it draws or that are dealt to it, its place for what these leave, and the memory that its thread keeps (OpenMP 5.2,
//! 11.5.3).
#![tactic(auto)]

mod dealt;
mod drawn;
mod gate;
mod grounds;
mod job;
mod memory;
mod pass;
mod place;
mod places;
mod way;
mod worker;

pub use dealt::leave_share;
pub use drawn::leave_draws;
pub use gate::{Gate, OpenGate, Taken};
pub use grounds::{Grounds, grounds_of};
pub use job::Job;
pub use memory::{Spare, ThreadMemory};
pub use pass::Pass;
pub use place::Place;
pub use places::{apply_left, logs_left, way_and_places};
pub use way::{Draw, Way};
