//! The chunks of a worksharing loop: which there are, and who runs them (OpenMP 5.2, 11.5.3).
#![tactic(auto)]

ghost use Rattle.schedule.specs.Part.{WorkersShareChunks};

mod chunk;
mod chunks;
mod part;
mod sched;

pub use chunk::Chunk;
pub use chunks::{Chunks, chunk_list};
pub use part::{StaticPart, static_init};
pub use sched::{Sched, sched_of};

/// Of a kind that fixes who runs a chunk, the workers' own chunks are all chunks, each once.
pub fn workers_share_chunks()
    ensures { WorkersShareChunks }
{}
