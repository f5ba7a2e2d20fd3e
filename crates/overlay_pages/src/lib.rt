//! What a chunk of a parallel loop writes, beside the store that it reads: cells for the runner of blocks.
#![tactic(auto)]

mod changes;
mod chunk;
mod gathering;
mod laws;
mod own;
mod pages;
mod rows;
mod sparse;

pub use changes::{Change, Changes};
pub use chunk::Chunk;
pub use laws::{
    cells_hold_their_writes, changes_leave_what_the_chunk_saw, disjoint_changes_commute,
};
pub use own::Own;
