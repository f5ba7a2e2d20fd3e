//! What is said of a refusal: the line that tells it, and the exit status of a program that meets it.
#![tactic(auto)]

mod telling;

pub use telling::{status, tell};
