//! Scans in two passes over chunks (OpenMP 5.2, 5.6): the first runs the input phase alone and tells what each chunk adds to the scan
//! variable; from that each chunk's start follows, from which the second runs the whole body.
#![tactic(auto)]

mod in_front;
mod passes;

pub use in_front::starts;
pub use passes::{first_partial, first_pass, second_pass};
