//! The expressions of a C text, read from its tokens.
#![tactic(auto)]

pub mod expression;
