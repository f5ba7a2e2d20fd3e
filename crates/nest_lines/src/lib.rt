//! Directive lines inside loops: where one of a kind stands, behind which line an item does, and which nests are not perfect with all of
//! their lines (OpenMP 5.2, 4.4.1, 5.6 and 15.10).
#![tactic(auto)]

mod behind;
mod imperfect;
mod inner;

pub use behind::line_behind;
pub use imperfect::{ImperfectNest, first_imperfect};
pub use inner::{InnerLine, line_among};
