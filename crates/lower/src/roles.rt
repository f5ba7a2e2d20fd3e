//! The variables of a loop that leave something behind it.

use ktree::{ReductionOperator, VarId};

/// Where a scalar stands: a local in the register of its number, one at file scope in a cell of the store (C11 6.2.1).
#[derive(Clone, Copy, Debug, PartialEq, Eq)]
pub enum Spot {
    Register(VarId),
    Cell(u64),
}

/// A reduction variable (OpenMP 5.2, 5.5.8).
#[derive(Clone, Copy, Debug, PartialEq, Eq)]
pub struct LoweredReduction {
    /// What its updates are combined by (OpenMP 5.2, 5.5.1).
    pub operator: ReductionOperator,
    /// Where it stands.
    pub spot: Spot,
}

/// The variables of a loop that leave something behind it: reduction variables (OpenMP 5.2, 5.5.8), and lastprivate
/// ones (OpenMP 5.2, 5.4.5).
#[derive(Drop)]
pub struct LoweredRoles {
    /// The reduction variables, in the order in which partials of them are told.
    pub reductions: Vec<LoweredReduction>,
    /// The lastprivate ones, in the order in which values of them are told.
    pub lasts: Vec<Spot>,
}
