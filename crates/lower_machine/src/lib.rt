//! A machine of registers and one flat list of cells: the terms, tests and code for it, and what terms and tests are worth on it.
#![tactic(auto)]

mod evaluation;
mod making;
mod term;

pub use evaluation::{compare, is_local, may_exchange, operate, truth, worth};
pub use making::{
    beside, binary, both, box_both, branch, comparison, conditional, either, element, negation,
    number, repeat, then, unary,
};
pub use term::{Code, Piece, Register, Term, Test, Word};
