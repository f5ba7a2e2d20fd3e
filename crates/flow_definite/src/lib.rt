//! Whether the locals of a kernel are assigned before they are read (C11 6.7.9, 10).
#![tactic(auto)]

mod fault;
mod judging;
mod known;
mod privates;
mod reading;

pub use fault::ReadFault;
pub use judging::{definite, judge};
pub use known::DefinitelyAssigned;
pub use privates::{forget_all, forget_line};
