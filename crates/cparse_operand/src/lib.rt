//! The operands of a C text's expressions, and what operators make of them.
#![tactic(auto)]

mod boxing;
pub mod combining;
mod fitting;
mod joining;
pub mod leaf;
pub mod numeric;
pub mod operand;
pub mod operator;
mod typing;
pub mod wanted;
