//! Subscripts that leave their arrays, and laws of those that do not.
#![tactic(auto)]

mod kernels;
mod law;

pub use kernels::check;
pub use law::leaving_is_not_in_range;
