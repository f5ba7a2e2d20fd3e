//! The memory of a running program: its file-scope variables.
#![tactic(auto)]

mod arrays;
mod filling;
mod shape;

pub use arrays::{Array, Frame, Store};
pub use filling::{Filler, fill_cells};
pub use shape::Shape;
