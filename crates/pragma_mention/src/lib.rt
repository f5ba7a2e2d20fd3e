//! The variables that a statement names and declares, against a set of variables.
#![tactic(auto)]

mod declaring;
mod expressions;
mod sets;
mod statements;

pub use declaring::add_declared;
pub use sets::note;
pub use statements::first_unknown;
