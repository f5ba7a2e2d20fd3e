//! Canonical loops.
#![tactic(auto)]

mod assigned;
mod difference;
mod entered;
mod head;
mod mentioned;
mod most;
mod range;
mod stride;
mod walked;
mod wrapping;

pub use assigned::assigns;
pub use entered::{Loop, LoopFacts, enter, go_into, loop_of};
pub use head::{Canonical, canonical_of};
pub use mentioned::{mentions, source_mentions};
pub use most::{distance, end_offset, greatest_trip_count};
pub use stride::{Bound, Direction, Stride, stride_of};
pub use walked::side;
