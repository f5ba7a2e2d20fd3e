//! Stores of one array, the variable 0.

ghost use Rattle.std.specs.Prelude.{◌≡◌, [], ◌∷◌, length, IfOk};
ghost use Rattle.semantics.specs.Meaning.Places.{size};

use ktree::VarId;
use std::alloc::{AllocError, Global};
use store::{Shape, Store};

/// The dimensions of a variable of so many elements.
pub(crate) fn shape(alloc: Global, lengths: &[u64], count: u64) -> Result<Shape, AllocError>
    requires { count ≡ size lengths.now }
{
    let lengths = Vec::from_slice(alloc, lengths)?;
    Ok(Shape { lengths, count })
}

/// The store of one array of one dimension that holds these values.
pub(crate) fn one_array(alloc: Global, values: &[u64]) -> Result<Store, AllocError>
    ensures { IfOk result (λ s. s
        ≡ record { lengths = length values.now ∷ []; values = values.now } ∷ []) }
{
    let count = values.len() as u64;
    let lengths = Vec::from_slice(alloc, &[count])?;
    let shapes = Vec::from_array(alloc, [Shape { lengths, count }])?;
    let mut store = Store::zeros(alloc, shapes)?;
    store.write(VarId(0), 0, values);
    Ok(store)
}

/// Whether a store has one array of one dimension that holds these values.
pub(crate) fn holds(store: &Store, values: &[u64]) -> bool {
    if store.len() != 1 {
        return false;
    }
    let array = store.array(0);
    array.values() == values && array.lengths() == [values.len() as u64].as_slice()
}
