//! Where a statement uses reduction variables in another way than in updates (OpenMP 5.2, 5.5.8).
#![tactic(auto)]

mod choices;
mod misuse;
mod naming;
mod reduction;
mod same;
mod updates;

pub use misuse::{first_misuse, first_misuse_among};
pub use reduction::Reduction;
