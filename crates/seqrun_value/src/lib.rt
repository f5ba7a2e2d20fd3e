//! The values of expressions while a program runs.
#![tactic(auto)]

mod expression;
mod frame;
mod operators;

pub use expression::{element, holds, place, source_value, value};
pub use frame::{Frame, Slot};
pub use operators::binary_value;
