//! The statements of a C text, read from its tokens.
#![tactic(auto)]

mod building;
mod local;
mod simple;
pub mod statement;
