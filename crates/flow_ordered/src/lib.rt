//! Which parallel loops may print, and where: in ordered regions alone (OpenMP 5.2, 15.10).
#![tactic(auto)]

mod disorder;
mod loops;
mod regions;

pub use disorder::Disorder;
pub use loops::first_disorder;
