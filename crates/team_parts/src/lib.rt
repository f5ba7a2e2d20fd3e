//! The turns of a loop in parts, each by a thread of its own: each part runs over cells of its own and those that no turn writes, and its own cells are
//! those of the store.
#![tactic(auto)]

mod abreast;
mod around;
mod block;
mod cells;
mod placing;
mod reserve;
mod shared;
mod surroundings;
mod turned;
mod turning;
mod unrolling;
mod window;

pub use around::nest_window_of;
pub use block::{Tools, copy_into, run_part};
pub use cells::{Parted, lent_row, settle};
pub use reserve::Reserve;
pub use shared::Shared;
pub use surroundings::Surroundings;
pub use turned::{Nest, Turned};
pub use window::{Window, window_of};
