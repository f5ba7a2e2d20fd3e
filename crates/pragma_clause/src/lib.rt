//! What a directive line says, with all its clauses (OpenMP 5.2, 3.1).
#![tactic(auto)]

mod clause;
mod clauses;
mod directive;
mod element;
mod line;
mod name;
mod number;
mod tokens;
mod unread;
mod word;

pub use line::{read, read_form};
