//! What the chunks of a worksharing loop leave, kept in one log for each worker, and how the logs of all workers are put together (OpenMP 5.2, 5.4.5, 5.5.5,
//! 5.6 and 15.10).
#![tactic(auto)]

mod applied;
mod log;
mod partials;
mod piece;
mod printing;
mod putting;

pub use applied::apply_all;
pub use log::ChunkLog;
pub use partials::{partials_of, starts_from};
pub use piece::ChunkPiece;
pub use printing::put_texts;
pub use putting::{Total, put_together};
