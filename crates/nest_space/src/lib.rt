//! The iterations of a nest, by their numbers.
#![tactic(auto)]

mod bounds;
mod fixed;
mod iterations;
mod nests;
mod reaching;
mod rows;
mod sinks;
mod turns;

pub use bounds::{Value, turns_at, value_at};
pub use fixed::are_fixed;
pub use iterations::{Space, product_within};
pub use rows::Row;
pub use turns::LoopTurns;
