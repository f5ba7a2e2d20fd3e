//! The parallel loops of a kernel with their data environments, and whether they keep the roles of their scalars (OpenMP 5.2, 5.1.1 and 5.4).
#![tactic(auto)]

mod bodies;
mod classifying;
mod environment;
mod fault;
mod firsts;
mod keeping;
mod listing;
mod name_lists;
mod reductions;
mod role_lists;
mod sharing;

pub use bodies::nest_body;
pub use classifying::classify;
pub use environment::{LoopRoles, ParallelLoop};
pub use fault::DataFault;
pub use sharing::declares;
