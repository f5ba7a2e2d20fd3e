//! Affine forms over the variables of loops, the boxes that these run over, and the greatest common divisor.
#![tactic(auto)]

mod divisor;
mod form;
mod interval;
mod merge;
mod term;

pub use divisor::gcd;
pub use form::Form;
pub use interval::{Interval, VarBox};
pub use term::Term;
