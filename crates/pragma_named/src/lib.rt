//! The clauses of directive lines over variables, by the lines' numbers (OpenMP 5.2, 3.1 and 5.4).
#![tactic(auto)]

mod named;
mod table;

pub use named::Named;
pub use table::{Clauses, LineClauses, clauses_known, line_of};
