//! The operators of reductions, their laws, and the partial results that they combine.
#![tactic(auto)]

mod operator;
mod partial;

pub use operator::{
    BitAnd, BitOr, BitXor, LogicalAnd, LogicalOr, Max, Min, Product, ReduceOp, Sum, apply_by,
    identity_by,
};
pub use partial::{Partial, combine, combine_by};
