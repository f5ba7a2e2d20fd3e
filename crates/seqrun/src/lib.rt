//! The statements of a running program, one after another.
#![tactic(auto)]

mod entry;
mod printing;
mod running;
mod stop;
mod writing;

pub use entry::{block, run_item, statement};
pub use writing::increment;
