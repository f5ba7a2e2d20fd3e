//! The terms of a form.

use ktree::VarId;

/// A variable with its coefficient in a form.
#[derive(Clone, Copy, Debug, PartialEq, Eq)]
pub struct Term {
    pub variable: VarId,
    pub coefficient: i64,
}

/// What fills the places of a short list that no term has taken.
impl Default for Term {
    fn default() -> Term {
        Term {
            variable: VarId(0),
            coefficient: 0,
        }
    }
}
