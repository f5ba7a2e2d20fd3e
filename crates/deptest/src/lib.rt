//! The dependence test's verdict: kernels whose parallel loops are independent or ordered by their sinks, and accepted kernels.
#![tactic(auto)]

mod accepted;
mod ordered;
mod source;

pub use accepted::{Checked, Parallel, accept};
pub use ordered::check;
