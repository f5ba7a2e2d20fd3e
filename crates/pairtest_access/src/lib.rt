//! The element accesses of the body of loops inside each other, in the counters of these loops.
#![tactic(auto)]

mod body;
mod expressions;
mod finder;
mod statements;
mod subscripts;
mod told;

pub use body::{access_at, accesses};
pub use statements::enter_loop;
pub use subscripts::{inner_canonicals, inner_counts};
pub use told::Touched;
