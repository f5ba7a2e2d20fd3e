//! What the command line asks for: `check F`, `lower F`, `run F [--input I] [--workers N] [--schedule KIND[,K]]` or `seq F [--input I]`.
#![tactic(auto)]

mod order;
mod schedule_words;
mod usage;

pub use order::{Order, order_of};
pub use usage::Usage;
