//! The tree of a kernel with the places of its parts, and what may be refused.
#![tactic(auto)]

mod constant;
mod directive;
mod expression;
pub mod limits;
mod place;
mod refusal;
mod statement;
mod workers;

pub use constant::{fold_constants, int_constant};
pub use directive::{
    AssociatedLoops, ChunkSize, Clause, Directive, Offset, ReductionOperator, Schedule,
    SinkElement, Written,
};
pub use expression::{BinaryOp, CompareOp, Cond, Expr, NamePlaces, Suffix, UnaryOp};
pub use place::{Place, VarId};
pub use refusal::{Cause, Conflict, InputFault, NotShown, Refusal};
pub use statement::{
    Declaration, Enumerator, Head, Increment, Item, Kernel, Local, PrintPart, Source, Stmt, Target,
};
pub use workers::{ChunkNo, Workers};
