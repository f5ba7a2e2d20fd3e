//! The tree of a C text.
#![tactic(auto)]

mod constants;
mod declarations;
mod extent;
mod kernel;
mod law;
mod lengths;
mod lexing;
mod opening;
mod parsing;

pub use law::trees_are_unique;
pub use parsing::parse;
