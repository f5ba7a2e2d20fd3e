//! The first two iterations of a nest at which two accesses touch one element.
#![tactic(auto)]

mod elements;
mod first_turns;
mod meeting;

pub use elements::Touch;
pub use meeting::{Meeting, first_meeting};
