//! Loops that turn a known number of times and do nothing but to set locals, written out turn by turn: the loop round such a loop has no
//! branch then.
#![tactic(auto)]

mod copying;
mod counting;
mod unrolling;

pub use unrolling::unroll;
