//! Which variables the data clauses of directive lines may name (OpenMP 5.2, 5.4).
#![tactic(auto)]

mod gathering;
mod judging;
mod walking;

pub use judging::Misuse;
pub use walking::first_misuse;
