//! The test of two accesses of one array: whether two different iterations of a nest of parallel loops can touch one element.
#![tactic(auto)]

mod access;
mod direction;
mod laws;
mod reach;

pub use access::{Access, Mode, Nest, PastLimit, Subscript};
pub use direction::independent;
pub use laws::{one_loop_is_exact, refuted_equations_have_no_solution, refuted_pairs_do_not_meet};
