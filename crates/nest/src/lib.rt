//! Kernels whose loops are canonical, whose parallel loops have right nests, and whose subscripts are affine and stay inside
//! their arrays.
#![tactic(auto)]

mod directed;
mod earlier;
mod expressions;
mod heads;
mod kernels;
mod law;
mod objects;
mod perfect;
mod statements;

pub use heads::{Level, as_loop};
pub use kernels::{LoopTable, nests};
pub use law::{constant_loops_make_boxes, ranges_are_exact, refusals_have_turns};
pub use perfect::Nest;
