//! Parallel loops as a team runs them: any nest of an accepted kernel, its body as code.
#![tactic(auto)]

mod lowered;
mod reached;
mod roles;

pub use lowered::LoweredLoop;
pub use roles::{LoweredReduction, LoweredRoles, Spot};
