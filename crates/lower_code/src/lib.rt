//! Statements as code over registers and one flat list of cells, made once before a run.
#![tactic(auto)]

mod expression;
mod laid;
mod layout;
mod mark;
mod statements;

pub use expression::test;
pub use laid::Laid;
pub use layout::layout_of;
pub use mark::mark_among;
pub use statements::{entry, increment, item, items, statement};
