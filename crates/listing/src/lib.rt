//! The listing of a kernel: a line for each call of LLVM's OpenMP runtime that its directives stand for.
#![tactic(auto)]

mod calls;
mod doacross;
mod lines;
mod regions;

pub use regions::add_listing;
