//! The affine forms of bounds and subscripts.
#![tactic(auto)]

mod constants;
mod faults;
mod kept;
mod linear;
mod shape;
mod subscripts;

pub use constants::constant;
pub use faults::{Fault, fault_of_refusal};
pub use linear::form_of;
pub use subscripts::{are_affine, subscript_place};
