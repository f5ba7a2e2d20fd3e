//! What every reader of the grammar shares: tokens that come next, visible names, what was read, and faults.
#![tactic(auto)]

pub mod context;
pub mod lexeme;
pub mod parsed;
pub mod punctuation;
pub mod scope;
pub mod stop;
pub mod words;
pub mod written;
