//! A kernel with its directives, each at its place (OpenMP 5.2, 3.1, 10.1, 11.5 and 17).
#![tactic(auto)]

mod attaching;
mod fault;
mod listed;
mod names;
mod naming;
mod once;
mod placed;
mod resolved;
mod stop;
mod visible;
mod wanted;

pub use attaching::attach;
