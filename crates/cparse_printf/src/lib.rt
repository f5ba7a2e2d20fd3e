//! The calls of printf in a C text, read from its tokens.
#![tactic(auto)]

mod characters;
mod format;
pub mod printing;
