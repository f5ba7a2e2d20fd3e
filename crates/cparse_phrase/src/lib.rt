//! What the statements of a C text are made of, read from its tokens: assignments, and the heads of loops and of `if`.
#![tactic(auto)]

pub mod assignment;
pub mod delimited;
mod held;
pub mod loop_head;
mod step;
pub mod tally;
mod target;
pub mod told;
