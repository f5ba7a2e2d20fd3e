//! Stores of variables whose elements are 0.

ghost use Rattle.std.specs.Prelude.{◌≡◌};
ghost use Rattle.semantics.specs.Meaning.Places.{size};

use std::alloc::{AllocError, Global};
use store::{Shape, Store};

/// Variables, and behind them one of these dimensions, which has so many elements.
fn with_variable(
    alloc: Global,
    mut shapes: Vec<Shape>,
    lengths: &[u64],
    count: u64,
) -> Result<Vec<Shape>, AllocError>
    requires { count ≡ size lengths.now }
{
    let lengths = Vec::from_slice(alloc, lengths)?;
    shapes.push(Shape { lengths, count })?;
    Ok(shapes)
}

/// The arrays `A` of 8 and `B` of 2 times 3 elements and the scalar `s`.
pub(crate) fn two_arrays_and_a_scalar(alloc: Global) -> Result<Store, AllocError> {
    let shapes = with_variable(alloc, Vec::new(alloc), &[8], 8)?;
    let shapes = with_variable(alloc, shapes, &[2, 3], 6)?;
    let shapes = with_variable(alloc, shapes, &[], 1)?;
    Store::zeros(alloc, shapes)
}

/// The array `A` of 200 elements and the scalar `s`.
pub(crate) fn long_array_and_a_scalar(alloc: Global) -> Result<Store, AllocError> {
    let shapes = with_variable(alloc, Vec::new(alloc), &[200], 200)?;
    let shapes = with_variable(alloc, shapes, &[], 1)?;
    Store::zeros(alloc, shapes)
}
