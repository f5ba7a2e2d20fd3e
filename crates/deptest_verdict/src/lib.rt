//! The dependence test: whether the iterations of parallel loops are shown to be independent, or ordered by the sinks of a doacross
//! nest, before any run.
#![tactic(auto)]

mod kernels;
mod nests;
mod pairs;
mod sinks;
mod telling;

pub use kernels::judge;
pub use pairs::{Accesses, Pair, TooLarge, first_pair, with_writes};
