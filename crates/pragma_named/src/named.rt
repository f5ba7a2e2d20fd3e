//! Variables that clauses name.

use ktree::{Place, VarId};

/// A variable that a clause names, and where it does.
#[derive(Clone, Copy)]
pub struct Named {
    pub variable: VarId,
    pub place: Place,
}
