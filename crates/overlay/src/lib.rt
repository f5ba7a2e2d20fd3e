//! Chunks of a lowered loop: each run from the store before the loop, over what it writes itself.
#![tactic(auto)]

mod beginning;
mod ending;
mod positions;
mod rows;
mod running;
mod spots;
mod walking;
mod worker;

pub use beginning::Start;
pub use positions::Order;
pub use worker::{Piece, Tools, Work, Worker};
