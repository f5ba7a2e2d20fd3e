//! What the directive lines of a text say (OpenMP 5.2, 3.1).
#![tactic(auto)]

mod combined;
mod faults;
mod lines;
mod placed;
mod reading;

pub use combined::{ParallelFor, doacross_loops, doacross_of, loop_of, said_by};
pub use faults::Fault;
pub use lines::Directives;
pub use placed::first_fault;
